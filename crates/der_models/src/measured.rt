//! What a view of model 701 holds. It stands apart from `measure`, since two names of a module may not
//! differ in case alone.

/// What model 701 measures. Each is None where the point isn't implemented.
#[derive(Clone, Copy, Debug, PartialEq, Eq)]
pub struct Measure {
    /// InvSt, the state of the inverter.
    pub state: Option<u16>,
    /// W, the active power, in watts times ten to the power `scale`.
    pub watts: Option<i16>,
    /// W_SF, from -10 to 10.
    pub scale: Option<i8>,
}
