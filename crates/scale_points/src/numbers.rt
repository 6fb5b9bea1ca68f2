//! Points of a number.
ghost use Rattle.std.specs.Prelude.{◌≡◌};
ghost use Rattle.scale_points.specs.Numbers.{double_word, uint16_at, int16_at, enum16_at, uint32_at, sunssf_at};

/// What uint16 and enum16 hold where they aren't implemented.
const UNSIGNED_ABSENT: u16 = 0xFFFF;

/// What int16 and sunssf hold where they aren't implemented.
const SIGNED_ABSENT: u16 = 0x8000;

/// What uint32 holds where it isn't implemented.
const DOUBLE_ABSENT: u32 = 0xFFFF_FFFF;

/// The uint16 point at offset `at` of a slice of registers. None where the register is past the end or
/// holds FFFF (SunSpec: not implemented).
pub fn uint16(regs: &[u16], at: usize) -> Option<u16>
    ensures { result ≡ uint16_at regs.now at }
{
    regs.get(at)
        .copied()
        .filter(|&word| word != UNSIGNED_ABSENT)
}

/// The enum16 point at offset `at` of a slice of registers. None where the register is past the end or
/// holds FFFF (SunSpec: not implemented).
pub fn enum16(regs: &[u16], at: usize) -> Option<u16>
    ensures { result ≡ enum16_at regs.now at }
{
    uint16(regs, at)
}

/// The int16 point at offset `at` of a slice of registers, in two's complement. None where the register
/// is past the end or holds 8000 (SunSpec: not implemented).
pub fn int16(regs: &[u16], at: usize) -> Option<i16>
    ensures { result ≡ int16_at regs.now at }
{
    let word = *regs.get(at)?;
    if word == SIGNED_ABSENT {
        None
    } else {
        Some(word.cast_signed())
    }
}

/// The uint32 point at offset `at` of a slice of registers, the high register first. None where one of
/// its two registers is past the end or they hold FFFFFFFF (SunSpec: not implemented).
pub fn uint32(regs: &[u16], at: usize) -> Option<u32>
    ensures { result ≡ uint32_at regs.now at }
{
    let high = *regs.get(at)?;
    let low = *regs.get(at.checked_add(1)?)?;
    let number = double_word(high, low);
    if number == DOUBLE_ABSENT {
        None
    } else {
        Some(number)
    }
}

/// The sunssf point at offset `at` of a slice of registers: the power of ten that scales other points.
/// None where the register is past the end, holds 8000 (SunSpec: not implemented), or is outside -10
/// to 10.
pub fn sunssf(regs: &[u16], at: usize) -> Option<i8>
    ensures { result ≡ sunssf_at regs.now at }
{
    match int16(regs, at)? {
        power @ -10..=10 => Some(power as i8),
        _ => None,
    }
}

/// The number of two registers, of which the first is the high one.
pub fn double_word(high: u16, low: u16) -> u32
    ensures { result ≡ double_word high low }
{
    u32::from(high) * 0x1_0000 + u32::from(low)
}
