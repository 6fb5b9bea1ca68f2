ghost use Rattle.std.specs.Prelude.{◌≡◌, ◌↔◌, ◌++◌, IsErr, IfOk, OnErr, Some, length, take, drop, min};
ghost use Rattle.std.specs.Io.{ReadsAtMost};
ghost use Rattle.std.specs.Io.KnownBytes.{ReadConsumes};
ghost use Rattle.world_traits.specs.Causes.{HasCause};
ghost use Rattle.world_traits.specs.Fakes.{FailsNext, after_failed_read, after_read, new_source};

use crate::rest::Rest;
use crate::schedule::Schedule;
use crate::source::{ReadFailed, Source};
use std::marker::Model;

/// A source over bytes in memory. It fails exactly at the calls whose numbers are listed, counted from 0.
#[derive(Debug, Drop)]
pub struct BytesSource {
    rest: Rest,
    schedule: Schedule,
}

impl Model for BytesSource {
    ghost use Rattle.world_traits.specs.Fakes.{SourceState};

    ghost Value = { SourceState };

    ghost view = { λ s. record { left = s.rest; schedule = s.schedule } };
}

impl BytesSource {
    /// A source of these bytes, whose calls with the numbers in `failing` fail.
    pub fn new(bytes: Vec<u8>, failing: Vec<u32>) -> Self
        ensures { result ≡ new_source bytes.items failing.items }
    {
        BytesSource {
            rest: Rest::new(bytes),
            schedule: Schedule::new(failing),
        }
    }
}

impl Source for BytesSource {
    ghost left = { λ s. Some s.left };

    ghost faults = { λ s. s.schedule.faults };

    fn read(&mut self, into: &mut [u8]) -> Result<usize, ReadFailed>
        ensures bound { ReadsAtMost result into.new }
        ensures bytes { ReadConsumes (Some self.old.left) (Some self.new.left) result into.new }
        ensures cause { HasCause self.old.schedule.faults self.new.schedule.faults result }

        // It fails exactly where that is listed; else it gives as many bytes as are left and find room.
        ensures fails { IsErr result ↔ FailsNext self.old.schedule }
        ensures count { IfOk result (λ count. count ≡ min (length self.old.left) (length into.old)) }
        ensures given { IfOk result (λ count. into.new ≡ take count self.old.left ++ drop count into.old) }
        ensures ok { IfOk result (λ count. self.new ≡ after_read self.old count) }
        ensures err { OnErr result (self.new ≡ after_failed_read self.old) }
        ensures untouched { OnErr result (into.new ≡ into.old) }
    {
        if self.schedule.next_fails() {
            return Err(ReadFailed);
        }
        Ok(self.rest.give(into))
    }
}
