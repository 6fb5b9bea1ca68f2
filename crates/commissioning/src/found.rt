//! What an inverter shows of itself.

/// The points by which an inverter is compared with the site file, as they stand in their registers.
#[derive(Clone, Copy, Debug, PartialEq, Eq)]
pub struct Record702 {
    /// The address of the register that identifies the first model 704.
    pub base: u16,
    /// WMax of 702, in watts times ten to the power `wsf`.
    pub wmax: u16,
    /// W_SF of 702.
    pub wsf: i16,
    /// WMaxLimPct_SF of 704, the power of ten of raw percentages.
    pub psf: i16,
}
