//! Offsets of points, each named by its model and point, counted from the register of the model's
//! identifier, which has offset 0.

/// 701 InvSt, the state of the inverter: an enum16.
pub const M701_INV_ST: usize = 4;

/// 701 W, the active power: an int16.
pub const M701_W: usize = 10;

/// 701 W_SF, the scale of W: a sunssf.
pub const M701_W_SF: usize = 116;

/// 702 WMax, the rating of active power: a uint16.
pub const M702_W_MAX: usize = 26;

/// 702 W_SF, the scale of WMax: a sunssf.
pub const M702_W_SF: usize = 45;

/// 703 ES, whether the inverter may enter service: an enum16.
pub const M703_ES: usize = 2;

/// 704 WMaxLimPctEna, whether the limit is enabled: an enum16. It's the first of the six written
/// registers, behind which stand those of WMaxLimPct, WMaxLimPctRvrt, WMaxLimPctEnaRvrt and
/// WMaxLimPctRvrtTms, and then WMaxLimPctRvrtRem.
pub const M704_W_MAX_LIM_PCT_ENA: usize = 14;

/// 704 WMaxLimPct_SF, the scale of the limit: a sunssf.
pub const M704_W_MAX_LIM_PCT_SF: usize = 54;
