ghost use Rattle.std.specs.Prelude.{◌≡◌, ◌↔◌, ◌⊎◌, ◌<◌, ◌≤◌, IfOk, IfSome, IsErr, IsNone, OnErr, OnOk, OnSome, Some};
ghost use Rattle.std.specs.Prelude.{length, map, min, take};
ghost use Rattle.std.specs.Io.{WritesAtMost};
ghost use Rattle.world_traits.specs.Causes.{HasCause, one_more};
ghost use Rattle.world_traits.specs.Fakes.{IsRefusedOrStarved};
ghost use Rattle.world_traits.specs.Links.{Failed, FitsInto, IsDown, answer_of, with_failure};
ghost use Rattle.world_traits.specs.Links.{after_dial, after_hang_up, after_receive, after_send};
ghost use Rattle.world_traits.specs.Plays.{FailsDial, FailsReceive, FailsSend, new_dialer, next_answer, next_moves};
ghost use Rattle.world_traits.specs.Plays.{after_bad_call, after_bad_receive, after_end, no_play, play_of, short_of_memory};
ghost use Rattle.world_traits.specs.Plays.{after_good_dial, after_good_receive, after_good_send};

use crate::dialer::{DialFailed, Dialer, Received, RecvFailed, SendFailed};
use crate::link_log::LinkLog;
use crate::play::{Play, PlayLink};
use crate::schedule::Schedule;
use std::alloc::Global;
use std::collections::VecDeque;
use std::marker::Model;

/// A dialer in memory, whose links take and play what they are told, one after another. It fails exactly at the calls
/// whose numbers are listed, counted from 0 over dials, sends and receives, where a link is to fail, and where memory
/// runs out. It tells the record of its links.
#[derive(Debug, Drop)]
pub struct PlayDialer {
    alloc: Global,
    log: LinkLog,
    links: VecDeque<PlayLink>,
    play: Play,
    schedule: Schedule,
    starved: u64,
}

impl Model for PlayDialer {
    ghost use Rattle.std.specs.Prelude.{map};
    ghost use Rattle.world_traits.specs.Plays.{PlayState};

    ghost Value = { PlayState };

    ghost use Rattle.world_traits.specs.Plays.{play_of};

    ghost view = { λ d. record {
      links = d.log;
      plays = map play_of d.links.items;
      play = d.play;
      schedule = d.schedule;
      starved = d.starved;
    } };
}

impl PlayDialer {
    /// A dialer that was not called yet. Its dials make these links in order; the calls with the numbers in `failing` fail.
    pub fn new(alloc: Global, links: Vec<PlayLink>, failing: Vec<u32>) -> Self
        ensures { result ≡ new_dialer (map play_of links.items) failing.items }
    {
        PlayDialer {
            alloc,
            log: LinkLog::new(alloc),
            links: VecDeque::from(links),
            play: Play::none(alloc),
            schedule: Schedule::new(failing),
            starved: 0,
        }
    }

    /// The record of the links so far.
    pub fn log(&self) -> &LinkLog
        ensures { result.now ≡ self.now.links }
    {
        &self.log
    }

    /// How often memory ran out in a call.
    pub fn starved(&self) -> u64
        ensures { result ≡ self.now.starved }
    {
        self.starved
    }
}

impl Dialer for PlayDialer {
    ghost links = { λ d. Some d.links };

    ghost faults = { λ d. d.schedule.faults };

    fn dial(&mut self, host: &str, port: u16, _wait: u32) -> Result<(), DialFailed>
        ensures links { self.new.links ≡ after_dial host.now port result self.old.links }
        ensures cause { HasCause self.old.schedule.faults self.new.schedule.faults result }

        // It fails where it is to fail and where memory runs out, and the state after each outcome.
        ensures fails { FailsDial self.old → IsErr result }
        ensures ok { OnOk result (self.new ≡ after_good_dial host.now port self.old) }
        ensures err { OnErr result (IsRefusedOrStarved (FailsDial self.old)
            (after_bad_call self.old) (short_of_memory (after_bad_call self.old)) self.new) }
    {
        if self.schedule.next_fails() {
            return Err(DialFailed);
        }
        if self.links.is_empty() {
            self.schedule.fault();
            return Err(DialFailed);
        }
        if self.log.dial(host, port).is_err() {
            self.starve();
            return Err(DialFailed);
        }
        if let Some(link) = self.links.pop_front() {
            self.play = Play::new(self.alloc, link);
        }
        Ok(())
    }

    fn send(&mut self, bytes: &[u8]) -> Result<usize, SendFailed>
        ensures bound { WritesAtMost result bytes.now }
        ensures some { IfOk result (λ count. 0 < length bytes.now → 0 < count) }
        ensures down { IsDown self.old.links → IsErr result }
        ensures links { self.new.links ≡ after_send bytes.now result self.old.links }
        ensures cause { HasCause self.old.schedule.faults self.new.schedule.faults result }

        // So does a send. It takes as many bytes as the link still takes.
        ensures fails { FailsSend self.old → IsErr result }
        ensures count { IfOk result (λ count. count ≡ min (length bytes.now) self.old.play.takes) }
        ensures ok { IfOk result (λ count. self.new ≡ after_good_send (take count bytes.now) self.old) }
        ensures err { OnErr result (IsRefusedOrStarved (FailsSend self.old)
            (after_bad_call self.old) (short_of_memory (after_bad_call self.old)) self.new) }
    {
        if self.schedule.next_fails() {
            return Err(SendFailed);
        }
        if !self.log.is_up() || self.play.takes() == 0 {
            self.schedule.fault();
            return Err(SendFailed);
        }
        let count = bytes.len().min(self.play.takes() as usize);
        if self.log.send(&bytes[..count]).is_err() {
            self.starve();
            return Err(SendFailed);
        }
        self.play.take(count as u32);
        Ok(count)
    }

    fn recv(&mut self, into: &mut [u8]) -> Result<Received, RecvFailed>
        ensures bound { IfOk result (FitsInto into.new) }
        ensures down { IsDown self.old.links → IsErr result }
        ensures links { self.new.links ≡ after_receive into.new result self.old.links }
        ensures cause { HasCause self.old.schedule.faults self.new.schedule.faults result }

        // So does a receive. What it answers is the next of the link's moves.
        ensures fails { FailsReceive self.old → IsErr result }
        ensures ok { OnOk result (self.new ≡ after_good_receive (length into.old) self.old) }
        ensures err { OnErr result (IsRefusedOrStarved (FailsReceive self.old)
            (after_bad_receive self.old) (short_of_memory (after_bad_receive self.old)) self.new) }
    {
        if self.schedule.next_fails() {
            self.lose_link();
            return Err(RecvFailed);
        }
        let Some(received) = self.play_on(into) else {
            self.schedule.fault();
            self.lose_link();
            return Err(RecvFailed);
        };
        if self.log.receive(received, into).is_err() {
            self.starve();
            self.lose_link();
            return Err(RecvFailed);
        }
        Ok(received)
    }

    fn hang_up(&mut self)
        ensures links { self.new.links ≡ after_hang_up self.old.links }
        ensures faults { self.new.schedule.faults ≡ self.old.schedule.faults }
        ensures state { self.new ≡ after_end self.old }
    {
        self.log.hang_up();
        self.play = Play::none(self.alloc);
    }
}

impl PlayDialer {
    /// Plays a receive on the link that is up. None where no link is up, and where the link is to fail it.
    fn play_on(&mut self, into: &mut [u8]) -> Option<Received>
        ensures none { IsNone result ↔ (IsDown self.old.links ⊎ (next_answer 0 self.old.play.moves ≡ Failed)) }
        ensures answer { IfSome result (λ got. answer_of into.new got ≡ next_answer (length into.old) self.old.play.moves) }
        ensures fits { IfSome result (FitsInto into.new) }
        ensures played { OnSome result (self.new ≡ record self.old {
          play = record self.old.play { moves = next_moves (length into.old) self.old.play.moves };
        }) }
        ensures other { self.new ≡ record self.old { play = self.new.play } }
    {
        if !self.log.is_up() {
            return None;
        }
        self.play.play(into)
    }

    /// Ends the link that is up by a receive that failed.
    fn lose_link(&mut self)
        ensures { self.new ≡ record self.old { links = with_failure self.old.links; play = no_play } }
    {
        self.log.fail();
        self.play = Play::none(self.alloc);
    }

    /// Counts a call that failed for want of memory.
    fn starve(&mut self)
        ensures counted { self.new ≡ record (short_of_memory self.old) { schedule = self.new.schedule } }
        ensures fault { self.new.schedule ≡ record self.old.schedule { faults = one_more self.old.schedule.faults } }
        ensures later { self.old.schedule.faults ≤ self.new.schedule.faults }
    {
        self.starved = self.starved.saturating_add(1);
        self.schedule.fault();
    }
}
