ghost use Rattle.std.specs.Prelude.{◌≡◌, ◌≤◌, ℕ, IsTrue, max};
ghost use Rattle.world_traits.specs.Clocks.{moment_max};

use std::marker::Model;
use world_traits::Clock;

/// A clock read so that its moments never fall: each is the greatest of its readings so far.
#[derive(Drop)]
pub struct SteadyClock<'c, K: Clock> {
    clock: &'c K,
    /// The greatest of the readings so far, or 0 before the first.
    latest: u64,
}

impl<'c, K: Clock> Model for SteadyClock<'c, K> {
    ghost use Rattle.std.specs.Prelude.{◌≤◌};
    ghost use Rattle.world_traits.specs.Clocks.{moment_max};
    ghost use Rattle.inverter_server.specs.Moments.{SteadyState, IsReading};

    ghost Value = { SteadyState K };

    ghost view = { λ c. record { clock = c.clock.now; latest = c.latest } };

    ghost invariant = { λ c. (c.latest ≤ moment_max) × IsReading (K.may_give c.clock.now) c.latest };
}

impl<'c, K: Clock> SteadyClock<'c, K> {
    /// A clock that was not read yet.
    pub fn new(clock: &'c K) -> Self
        ensures { result ≡ record { clock = clock.now; latest = 0 } }
    {
        SteadyClock { clock, latest: 0 }
    }

    /// Reads the clock, and answers the greatest of its readings so far, in ms. It may wait, as the clock may.
    pub fn now(&mut self) -> u64
        ensures greatest { (reading : ℕ) × IsTrue (K.may_give self.old.clock reading)
            × (result ≡ max self.old.latest reading) }
        ensures clock { self.new.clock ≡ self.old.clock }
        ensures latest { self.new.latest ≡ result }
        ensures later { self.old.latest ≤ result }
        ensures given { IsTrue (K.may_give self.old.clock result) }
        ensures within { result ≤ moment_max }
    {
        let reading = self.clock.now();
        if reading >= self.latest {
            self.latest = reading;
        }
        self.latest
    }
}
