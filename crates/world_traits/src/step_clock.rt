ghost use Rattle.std.specs.Prelude.{◌≡◌, ◌≤◌, ℕ, IsTrue};
ghost use Rattle.world_traits.specs.Clocks.{is_step_reading, later_by, moment_max};

use crate::clock::Clock;
use limiter_num::MOMENT_MAX;
use std::marker::Model;
use std::sync::atomic::{AtomicU64, Ordering};

/// A clock in memory, which goes on by itself at each reading. It is read and set forward through a shared reference,
/// from any thread. Contracts see where it starts and by how much it goes on; where it stands, only its readings show.
#[derive(Drop)]
pub struct StepClock {
    reading: AtomicU64,
    start: u64,
    step: u64,
}

impl Model for StepClock {
    ghost use Rattle.world_traits.specs.Clocks.{Steps};

    ghost Value = { Steps };

    ghost view = { λ c. record { start = c.start; step = c.step } };
}

impl StepClock {
    /// A clock at `start`, which goes on by `step` at each reading, both in ms.
    pub fn new(start: u64, step: u64) -> Self
        ensures { result ≡ record { start = start; step = step } }
    {
        StepClock {
            reading: AtomicU64::new(start),
            start,
            step,
        }
    }

    /// Goes on by so many milliseconds, to the greatest moment at most, and answers the new reading.
    fn go_on(&self, ms: u64) -> u64
        ensures { (before : ℕ) × (self.now.start ≤ before) × (result ≡ later_by before ms) }
    {
        // The word never falls below the start; no contract can see that of a shared word, so it is looked at here.
        let start = self.start;
        let later = |reading: u64| reading.max(start).saturating_add(ms).min(MOMENT_MAX);
        let order = Ordering::SeqCst;
        match self
            .reading
            .fetch_update(order, order, |reading| Some(later(reading)))
        {
            Ok(before) => later(before),
            Err(stuck) => later(stuck),
        }
    }
}

impl Clock for StepClock {
    ghost may_give = { λ c reading. is_step_reading c reading };

    fn now(&self) -> u64
        ensures given { IsTrue (is_step_reading self.now result) }
        ensures within { result ≤ moment_max }

        // It is a step later than some moment from the start on. Which, no contract can say: other threads read it too.
        ensures stepped { (before : ℕ) × (self.now.start ≤ before) × (result ≡ later_by before self.now.step) }
    {
        self.go_on(self.step)
    }

    fn rest(&self, ms: u64) {
        self.go_on(ms);
    }
}
