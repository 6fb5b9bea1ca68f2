ghost use Rattle.std.specs.Prelude.{◌≡◌, ◌<◌, ◌≤◌, ◌↔◌, IsTrue};

/// How many buses a plant has at most.
pub const BUSES_MAX: usize = 32;

const _: () = prove!(BUSES_MAX == 32);

/// A part of a plant that has a cap of its own: the inverters from one number to another.
#[derive(Clone, Copy, Debug, PartialEq, Eq)]
pub struct Bus {
    /// What the limits of its inverters together stay under, in mW.
    pub cap: u64,
    /// The number of its first inverter.
    pub lo: u8,
    /// The number of its last inverter.
    pub hi: u8,
}

impl Bus {
    ghost use Rattle.busbars.specs.Buses.{holds, Crosses};

    /// Whether the inverter is on it.
    pub(crate) fn holds(&self, inverter: u8) -> bool
        ensures { result ≡ holds self.now inverter }
    {
        self.lo <= inverter && inverter <= self.hi
    }

    /// Whether it shares an inverter with the other, and neither holds all of the other.
    pub(crate) fn crosses(&self, other: &Bus) -> bool
        ensures { IsTrue result ↔ Crosses self.now other.now }
    {
        self.ends_within(other) || other.ends_within(self)
    }

    /// Whether it begins before the other, and ends within it before the other does.
    fn ends_within(&self, other: &Bus) -> bool
        ensures { IsTrue result
            ↔ ((self.now.lo < other.now.lo) × (other.now.lo ≤ self.now.hi) × (self.now.hi < other.now.hi)) }
    {
        self.lo < other.lo && other.lo <= self.hi && self.hi < other.hi
    }
}

/// Why a bus is refused, in the order in which it is tried.
#[derive(Clone, Copy, Debug, PartialEq, Eq)]
pub enum BusCause {
    /// Its first inverter is above its last, or its last is no inverter of the site.
    Range,
    /// It shares an inverter with an earlier bus, and neither holds all of the other.
    Crossing,
    /// The floors of its inverters sum to these milliwatts, which are more than its cap.
    FloorsOver(u64),
}

/// The first bus that is refused.
#[derive(Clone, Copy, Debug, PartialEq, Eq)]
pub struct BusFault {
    /// Its place in the list, from 0.
    pub bus: u32,
    pub cause: BusCause,
}
