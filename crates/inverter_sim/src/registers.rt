//! Registers by their addresses.
ghost use Rattle.std.specs.Prelude.{◌≡◌, ◌==◌, find};
ghost use Rattle.std.specs.Int.{w16, cast_unsigned};
ghost use Rattle.inverter_sim.specs.RegisterMap.{high, low, register_by};

/// The register at an address, by those that have a name. Any other is 0.
pub(crate) fn register_by(names: &[(u16, u16)], address: u16) -> u16
    ensures { result ≡ register_by names.now address }
{
    match named_at(names, address) {
        Some((_, register)) => register,
        None => 0,
    }
}

/// The first of these registers that has the address.
fn named_at(names: &[(u16, u16)], address: u16) -> Option<(u16, u16)>
    ensures { result ≡ find (λ named. named.0 == address) names.now }
{
    names.iter().copied().find(|named| named.0 == address)
}

/// The register of a scale factor.
pub(crate) fn scale(factor: i8) -> u16
    ensures { result ≡ cast_unsigned w16 factor }
{
    i16::from(factor).cast_unsigned()
}

/// The two registers of a number, of which the first is the high one.
pub(crate) fn halves(number: u32) -> (u16, u16)
    ensures high { result.0 ≡ high number }
    ensures low { result.1 ≡ low number }
{
    ((number / 0x1_0000) as u16, (number % 0x1_0000) as u16)
}
