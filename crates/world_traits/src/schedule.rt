ghost use Rattle.std.specs.Prelude.{◌≡◌, ◌≤◌, ◌↔◌, Contains, IsTrue};
ghost use Rattle.std.specs.Bool.{OnTrue, OnFalse};
ghost use Rattle.world_traits.specs.Causes.{one_more};
ghost use Rattle.world_traits.specs.Fakes.{FailsNext, after_failure, after_success, new_schedule};

use std::marker::Model;

/// Which calls of a fake fail, by their numbers from 0, and how many calls failed so far.
#[derive(Debug, Drop)]
pub struct Schedule {
    failing: Vec<u32>,
    calls: u64,
    faults: u64,
}

impl Model for Schedule {
    ghost use Rattle.world_traits.specs.Fakes.{ScheduleState};

    ghost Value = { ScheduleState };

    ghost view = { λ s. record { failing = s.failing.items; calls = s.calls; faults = s.faults } };
}

impl Schedule {
    /// A schedule before the first call.
    pub fn new(failing: Vec<u32>) -> Self
        ensures { result ≡ new_schedule failing.items }
    {
        Schedule {
            failing,
            calls: 0,
            faults: 0,
        }
    }

    /// Counts a call, and a fault where its number is one of those that fail. Answers whether it is.
    pub fn next_fails(&mut self) -> bool
        ensures listed { IsTrue result ↔ FailsNext self.old }
        ensures fails { OnTrue result (self.new ≡ after_failure self.old) }
        ensures works { OnFalse result (self.new ≡ after_success self.old) }
        ensures later { self.old.faults ≤ self.new.faults }
    {
        let fails = self.lists(self.calls);
        self.calls = self.calls.saturating_add(1);
        if fails {
            self.fault();
        }
        fails
    }

    /// Counts a fault of the call that was counted last, where that call isn't one of those that fail.
    pub fn fault(&mut self)
        ensures counted { self.new ≡ record self.old { faults = one_more self.old.faults } }
        ensures later { self.old.faults ≤ self.new.faults }
    {
        self.faults = self.faults.saturating_add(1);
    }

    /// How many calls failed so far.
    pub fn faults(&self) -> u64
        ensures { result ≡ self.now.faults }
    {
        self.faults
    }

    fn lists(&self, call: u64) -> bool
        ensures { IsTrue result ↔ Contains self.now.failing call }
    {
        self.failing.iter().any(|number| u64::from(*number) == call)
    }
}
