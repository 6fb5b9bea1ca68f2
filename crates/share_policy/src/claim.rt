/// How the watts that are free are shared.
#[derive(Clone, Copy, Debug, PartialEq, Eq)]
pub enum Policy {
    /// Each inverter may ask for its rating.
    Open,
    /// Each inverter may ask for its max-min fair share by the wishes.
    Fair,
}

/// What the fair share of one inverter goes by.
#[derive(Clone, Copy, Debug, Default, PartialEq, Eq)]
pub struct Claim {
    /// What it may hold in any case, in mW.
    pub floor: u64,
    /// What it wishes for, in mW.
    pub wish: u64,
    /// The most that it may hold, in mW.
    pub rated: u64,
}
