//! Points of the models 701 to 704 that are read alone.
ghost use Rattle.std.specs.Prelude.{◌≡◌, ◌≤◌, ◌↔◌, length, slice_index, IsNone, SomeIff};
ghost use Rattle.scale_points.specs.Numbers.{unsigned_absence, enum16_at};
ghost use Rattle.der_models.specs.Layout.{ac_measurement_id, capacity_id, enter_service_id, ac_controls_id, least_block, m703_es};
ghost use Rattle.der_models.specs.Models.{measure_of, raw_wmax, raw_wsf, raw_psf};

use crate::measured::Measure;
use crate::offsets::{
    M701_INV_ST, M701_W, M701_W_SF, M702_W_MAX, M702_W_SF, M703_ES, M704_W_MAX_LIM_PCT_SF,
};
use scale_points::{enum16, int16, sunssf};

/// What a block of model 701 measures. None where it is shorter than 117 registers.
pub fn measure(regs: &[u16]) -> Option<Measure>
    ensures { SomeIff result (least_block ac_measurement_id ≤ length regs.now) (measure_of regs.now) }
{
    if regs.len() <= M701_W_SF {
        return None;
    }
    Some(Measure {
        state: enum16(regs, M701_INV_ST),
        watts: int16(regs, M701_W),
        scale: sunssf(regs, M701_W_SF),
    })
}

/// WMax and W_SF of a block of model 702, as they stand in their registers, also where they aren't
/// implemented. None where it is shorter than 46 registers.
pub fn capacity(regs: &[u16]) -> Option<(u16, i16)>
    ensures { SomeIff result (least_block capacity_id ≤ length regs.now)
        (raw_wmax regs.now, raw_wsf regs.now) }
{
    let scale = regs.get(M702_W_SF)?.cast_signed();
    Some((regs[M702_W_MAX], scale))
}

/// ES of a block of model 703: whether the inverter may enter service. None where the register is past
/// the end, and where it holds FFFF (SunSpec: not implemented). The block of a whole model 703 has the
/// register.
pub fn enter_service(regs: &[u16]) -> Option<u16>
    ensures point { result ≡ enum16_at regs.now m703_es }
    ensures whole { least_block enter_service_id ≤ length regs.now
        → (IsNone result ↔ (slice_index regs.now m703_es ≡ unsigned_absence)) }
{
    enum16(regs, M703_ES)
}

/// WMaxLimPct_SF of a block of model 704, as it stands in its register, also where it isn't
/// implemented. None where the block is shorter than 55 registers.
pub fn pct_sf(regs: &[u16]) -> Option<i16>
    ensures { SomeIff result (least_block ac_controls_id ≤ length regs.now) (raw_psf regs.now) }
{
    Some(regs.get(M704_W_MAX_LIM_PCT_SF)?.cast_signed())
}
