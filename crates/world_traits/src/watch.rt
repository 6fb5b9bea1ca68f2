ghost use Rattle.std.specs.Prelude.{◌≡◌, ◌≤◌, ◌<◌, ◌++◌, ◌∷◌, [], length, IsTrue};
ghost use Rattle.world_traits.specs.Clocks.{AreGiven, moment_max, readings_max};

use crate::clock::Clock;
use arrayvec::ArrayVec;
use std::marker::Model;

/// How many readings a watch has at most.
const READINGS_MAX: usize = 8;

const _: () = prove!(READINGS_MAX == 8);

/// One turn's view of a clock, with the list of the readings that were taken through it. Only `now` adds to the list,
/// no call takes from it, and no call gives the clock out.
#[derive(Drop)]
pub struct Watch<'c, K: Clock> {
    clock: &'c K,
    readings: ArrayVec<u64, READINGS_MAX>,
}

impl<'c, K: Clock> Model for Watch<'c, K> {
    ghost use Rattle.world_traits.specs.Clocks.{AreGiven, WatchState};

    ghost Value = { WatchState K };

    ghost view = { λ w. record { clock = w.clock.now; readings = w.readings.items } };

    ghost invariant = { λ w. AreGiven (K.may_give w.clock.now) w.readings.items };
}

impl<'c, K: Clock> Watch<'c, K> {
    /// A watch with no readings.
    pub fn new(clock: &'c K) -> Self
        ensures { result ≡ record { clock = clock.now; readings = [] } }
    {
        Watch {
            clock,
            readings: ArrayVec::new(),
        }
    }

    /// Reads the clock, in ms, and appends the reading to the list. It may wait, as the clock may.
    pub fn now(&mut self) -> u64
        requires { length self.old.readings < readings_max }
        ensures appended { self.new ≡ record self.old { readings = self.old.readings ++ result ∷ [] } }
        ensures given { IsTrue (K.may_give self.old.clock result) }
        ensures within { result ≤ moment_max }
    {
        let reading = self.clock.now();
        self.readings.push(reading);
        reading
    }

    /// Rests for so many milliseconds, as the clock does.
    pub fn rest(&self, ms: u64) {
        self.clock.rest(ms);
    }

    /// The readings so far, in order, each of them a number that the clock may give.
    pub fn readings(&self) -> &[u64]
        ensures list { result.now ≡ self.now.readings }
        ensures given { AreGiven (K.may_give self.now.clock) self.now.readings }
    {
        &self.readings
    }
}
