ghost use Rattle.std.specs.Prelude.{◌≤◌, ℕ, Bool, IsTrue};
ghost use Rattle.world_traits.specs.Clocks.{moment_max};

/// A clock of milliseconds. It has no fault.
///
/// Both calls may wait, and neither is handed the runtime: a clock that waits holds what it waits by, a handle whose
/// type is a parameter of its own under the bound `Wait`, and one in memory holds none.
pub trait Clock {
    /// Whether the clock may give this number.
    ghost may_give: { Self → ℕ → Bool };

    /// A reading, in ms.
    fn now(&self) -> u64
        ensures given { IsTrue (may_give self.now result) }
        ensures within { result ≤ moment_max };

    /// Rests for so many milliseconds.
    fn rest(&self, ms: u64);
}
