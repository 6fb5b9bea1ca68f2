ghost use Rattle.std.specs.Prelude.{◌≡◌, ◌<◌, IsErr, IfOk, OnErr, OnOk, Some, length};
ghost use Rattle.std.specs.Io.{WritesAtMost};
ghost use Rattle.std.specs.Io.KnownBytes.{WriteAppends};
ghost use Rattle.world_traits.specs.Causes.{CountsLate, HasCause};
ghost use Rattle.world_traits.specs.Fakes.{FailsNext, IsRefusedOrStarved, after_failed_write, after_starved_write, after_write, late_after, new_sink};

use crate::schedule::Schedule;
use crate::sink::{Sink, WriteFailed};
use std::alloc::Global;
use std::marker::Model;

/// A sink that keeps in memory what it took. It takes each piece whole, and fails exactly at the calls whose
/// numbers are listed, counted from 0, and where memory runs out.
#[derive(Debug, Drop)]
pub struct BytesSink {
    taken: Vec<u8>,
    schedule: Schedule,
    late: u64,
    starved: u64,
}

impl Model for BytesSink {
    ghost use Rattle.world_traits.specs.Fakes.{SinkState};

    ghost Value = { SinkState };

    ghost view = { λ s. record { taken = s.taken.items; schedule = s.schedule; late = s.late; starved = s.starved } };
}

impl BytesSink {
    /// A sink that took nothing yet, whose calls with the numbers in `failing` fail.
    pub fn new(alloc: Global, failing: Vec<u32>) -> Self
        ensures { result ≡ new_sink failing.items }
    {
        BytesSink {
            taken: Vec::new(alloc),
            schedule: Schedule::new(failing),
            late: 0,
            starved: 0,
        }
    }

    /// The bytes that were taken so far.
    pub fn taken(&self) -> &[u8]
        ensures { result.now ≡ self.now.taken }
    {
        &self.taken
    }

    /// How often memory ran out in a write.
    pub fn starved(&self) -> u64
        ensures { result ≡ self.now.starved }
    {
        self.starved
    }
}

impl Sink for BytesSink {
    ghost taken = { λ s. Some s.taken };

    ghost faults = { λ s. s.schedule.faults };

    ghost late = { λ s. s.late };

    fn write(&mut self, bytes: &[u8]) -> Result<usize, WriteFailed>
        ensures bound { WritesAtMost result bytes.now }
        ensures some { IfOk result (λ count. 0 < length bytes.now → 0 < count) }
        ensures bytes { WriteAppends (Some self.old.taken) (Some self.new.taken) result bytes.now }
        ensures cause { HasCause self.old.schedule.faults self.new.schedule.faults result }
        ensures late { CountsLate self.old.schedule.faults self.old.late self.new.late result }

        // It takes the piece whole, and fails where that is listed and where memory runs out.
        ensures listed_fails { FailsNext self.old.schedule → IsErr result }
        ensures whole { IfOk result (λ count. count ≡ length bytes.now) }
        ensures ok { OnOk result (self.new ≡ after_write self.old bytes.now) }
        ensures err { OnErr result (IsRefusedOrStarved (FailsNext self.old.schedule)
            (after_failed_write self.old) (after_starved_write self.old) self.new) }
    {
        if self.schedule.next_fails() {
            return Err(WriteFailed);
        }
        if self.taken.extend_from_slice(bytes).is_err() {
            self.starved = self.starved.saturating_add(1);
            self.schedule.fault();
            return Err(WriteFailed);
        }
        self.late = late_count(self.schedule.faults(), self.late);
        Ok(bytes.len())
    }
}

/// The count of late writes after one more that worked, where so many had failed.
fn late_count(faults: u64, late: u64) -> u64
    ensures { result ≡ late_after faults late }
{
    if faults == 0 {
        late
    } else {
        late.saturating_add(1)
    }
}
