//! The limit of model 704 as registers.
ghost use Rattle.std.specs.Prelude.{◌≡◌, ℕ, take, length, SomeIff, IfSome};
ghost use Rattle.der_models.specs.Limit.{limit_block_length, limit_view_length, limit_registers, view_of, ShowsLimit};

use scale_points::double_word;

/// What enables a limit, and its reversion.
const ENABLED: u16 = 1;

/// The limit of model 704 as a read-back of eight registers shows it.
#[derive(Clone, Copy, Debug, PartialEq, Eq)]
pub struct LimitView {
    /// WMaxLimPctEna: 1 where the limit is enabled.
    pub ena: u16,
    /// WMaxLimPct: the limit as a raw percentage.
    pub pct: u16,
    /// WMaxLimPctRvrt: the raw percentage to which the limit reverts.
    pub pct_rvrt: u16,
    /// WMaxLimPctEnaRvrt: 1 where the limit stays enabled when it reverts.
    pub ena_rvrt: u16,
    /// WMaxLimPctRvrtTms: seconds from a write to the reversion.
    pub tms: u32,
    /// WMaxLimPctRvrtRem: seconds that remain until the reversion.
    pub rem: u32,
}

/// The six registers of model 704 from WMaxLimPctEna on, as they're written: the limit `raw` and the
/// limit `floor` to revert to, both raw percentages, and `timer` in seconds until then.
pub fn limit_block(raw: u16, floor: u16, timer: u32) -> [u16; 6]
    ensures { result ≡ limit_registers raw floor timer }
{
    let high = (timer / 0x1_0000) as u16;
    let low = (timer % 0x1_0000) as u16;
    [ENABLED, raw, floor, ENABLED, high, low]
}

/// The limit that eight registers of model 704 from WMaxLimPctEna on show. None where they aren't
/// eight.
pub fn limit_view(regs: &[u16]) -> Option<LimitView>
    ensures view { SomeIff result (length regs.now ≡ limit_view_length) (view_of regs.now) }

    // Block and view are inverse on the six written registers.
    ensures of_block { (raw floor timer : ℕ) → take limit_block_length regs.now ≡ limit_registers raw floor timer
        → IfSome result (ShowsLimit raw floor timer) }
    ensures to_block { IfSome result (λ view. view.ena ≡ 1 → view.ena_rvrt ≡ 1
        → take limit_block_length regs.now ≡ limit_registers view.pct view.pct_rvrt view.tms) }
{
    match regs {
        &[
            ena,
            pct,
            pct_rvrt,
            ena_rvrt,
            tms_high,
            tms_low,
            rem_high,
            rem_low,
        ] => Some(LimitView {
            ena,
            pct,
            pct_rvrt,
            ena_rvrt,
            tms: double_word(tms_high, tms_low),
            rem: double_word(rem_high, rem_low),
        }),
        _ => None,
    }
}
