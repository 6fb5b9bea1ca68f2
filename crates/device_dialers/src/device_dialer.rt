ghost use Rattle.std.specs.Prelude.{◌≡◌, ◌↔◌, ◌<◌, ◌≤◌, ℕ, List, [], IfOk, IsErr, IsTrue, OnErr, OnOk, Some, drop, length};
ghost use Rattle.std.specs.Bool.{OnFalse, OnTrue};
ghost use Rattle.std.specs.Io.{WritesAtMost};
ghost use Rattle.world_traits.specs.Causes.{HasCause, one_more};
ghost use Rattle.world_traits.specs.Fakes.{FailsNext, IsRefusedOrStarved};
ghost use Rattle.world_traits.specs.Links.{FitsInto, IsDown, answer_of, with_failure};
ghost use Rattle.world_traits.specs.Links.{after_dial, after_hang_up, after_receive, after_send};
ghost use Rattle.device_dialers.specs.Device.{FailsDial, FailsOnLink, IsDelivered, new_dialer, next_answer, next_standing};
ghost use Rattle.device_dialers.specs.Device.{after_bad_call, after_bad_receive, after_count, after_end, short_of_memory};
ghost use Rattle.device_dialers.specs.Device.{after_good_dial, after_good_receive, with_fresh_links};

use crate::hearing::{Standing, hear};
use crate::replies::Replies;
use inverter_server::Device;
use inverter_sim::Bank;
use limiter_num::NoMemory;
use mbap_frames::{Frames, MAX_FRAME};
use std::alloc::Global;
use std::marker::Model;
use world_traits::{
    Clock, DialFailed, Dialer, LinkLog, Received, RecvFailed, Schedule, SendFailed,
};

/// A dialer in memory whose links all reach one simulated inverter. It reads its clock once for each whole frame,
/// in the send that completes it, and the inverter answers at the greatest reading so far. It takes each piece
/// whole, and fails exactly at the calls whose numbers are listed, counted from 0 over dials, sends and receives,
/// where no link is up, and where memory runs out. It tells the record of its links.
#[derive(Drop)]
pub struct DeviceDialer<'c, K: Clock> {
    alloc: Global,
    log: LinkLog,
    device: Device<'c, K>,
    frames: Frames,
    replies: Replies,
    standing: Standing,
    schedule: Schedule,
    starved: u64,
}

impl<'c, K: Clock> Model for DeviceDialer<'c, K> {
    ghost use Rattle.mbap_frames.specs.Stream.{IsUnfinished};
    ghost use Rattle.device_dialers.specs.Device.{DeviceDialerState};

    ghost Value = { DeviceDialerState K };

    ghost view = { λ d. record {
      links = d.log;
      clock = d.device.clock;
      latest = d.device.latest;
      bank = d.device.bank;
      kept = d.frames;
      left = d.replies.left;
      standing = d.standing;
      schedule = d.schedule;
      starved = d.starved;
    } };

    ghost invariant = { λ d. IsUnfinished d.frames };
}

impl<'c, K: Clock> DeviceDialer<'c, K> {
    /// A dialer that was not called yet, over an inverter that wasn't asked yet. The calls with the numbers in
    /// `failing` fail.
    pub fn new(alloc: Global, bank: Bank, clock: &'c K, failing: Vec<u32>) -> Self
        requires { bank.last ≡ 0 }
        ensures { result ≡ new_dialer bank clock.now failing.items }
    {
        DeviceDialer {
            alloc,
            log: LinkLog::new(alloc),
            device: Device::new(bank, clock),
            frames: Frames::new(),
            replies: Replies::new(alloc),
            standing: Standing::Listens,
            schedule: Schedule::new(failing),
            starved: 0,
        }
    }

    /// The record of the links so far.
    pub fn log(&self) -> &LinkLog
        ensures { result.now ≡ self.now.links }
    {
        &self.log
    }

    /// How often memory ran out in a call.
    pub fn starved(&self) -> u64
        ensures { result ≡ self.now.starved }
    {
        self.starved
    }
}

impl<'c, K: Clock> Dialer for DeviceDialer<'c, K> {
    ghost links = { λ d. Some d.links };

    ghost faults = { λ d. d.schedule.faults };

    fn dial(&mut self, host: &str, port: u16, _wait: u32) -> Result<(), DialFailed>
        ensures links { self.new.links ≡ after_dial host.now port result self.old.links }
        ensures cause { HasCause self.old.schedule.faults self.new.schedule.faults result }

        // It fails where it is to fail and where memory runs out, and the state after each outcome.
        ensures fails { FailsDial self.old → IsErr result }
        ensures ok { OnOk result (self.new ≡ after_good_dial host.now port self.old) }
        ensures err { OnErr result (IsRefusedOrStarved (FailsDial self.old)
            (after_bad_call self.old) (short_of_memory (after_bad_call self.old)) self.new) }
    {
        if self.next_fails() {
            return Err(DialFailed);
        }
        if self.log.dial(host, port).is_err() {
            self.starve();
            return Err(DialFailed);
        }
        self.begin();
        Ok(())
    }

    fn send(&mut self, bytes: &[u8]) -> Result<usize, SendFailed>
        ensures bound { WritesAtMost result bytes.now }
        ensures some { IfOk result (λ count. 0 < length bytes.now → 0 < count) }
        ensures down { IsDown self.old.links → IsErr result }
        ensures links { self.new.links ≡ after_send bytes.now result self.old.links }
        ensures cause { HasCause self.old.schedule.faults self.new.schedule.faults result }

        // So does a send. It takes the piece whole.
        ensures fails { FailsOnLink self.old → IsErr result }
        ensures count { IfOk result (λ count. count ≡ length bytes.now) }
        ensures ok { OnOk result (IsDelivered (K.may_give self.old.clock) bytes.now (after_count self.old) self.new) }
        ensures err { OnErr result (IsRefusedOrStarved (FailsOnLink self.old)
            (after_bad_call self.old) (short_of_memory (after_bad_call self.old)) self.new) }
    {
        if self.fails_on_link() {
            return Err(SendFailed);
        }
        match self.deliver(bytes) {
            Ok(()) => Ok(bytes.len()),
            Err(NoMemory) => {
                self.starve();
                Err(SendFailed)
            }
        }
    }

    fn recv(&mut self, into: &mut [u8]) -> Result<Received, RecvFailed>
        ensures bound { IfOk result (FitsInto into.new) }
        ensures down { IsDown self.old.links → IsErr result }
        ensures links { self.new.links ≡ after_receive into.new result self.old.links }
        ensures cause { HasCause self.old.schedule.faults self.new.schedule.faults result }

        // So does a receive.
        ensures fails { FailsOnLink self.old → IsErr result }
        ensures ok { OnOk result (self.new ≡ after_good_receive (length into.old) self.old) }
        ensures err { OnErr result (IsRefusedOrStarved (FailsOnLink self.old)
            (after_bad_receive self.old) (short_of_memory (after_bad_receive self.old)) self.new) }
    {
        if self.fails_on_link() {
            self.lose_link();
            return Err(RecvFailed);
        }
        let received = self.give(into);
        if self.log.receive(received, into).is_err() {
            self.starve();
            self.lose_link();
            return Err(RecvFailed);
        }
        Ok(received)
    }

    fn hang_up(&mut self)
        ensures links { self.new.links ≡ after_hang_up self.old.links }
        ensures faults { self.new.schedule.faults ≡ self.old.schedule.faults }
        ensures state { self.new ≡ after_end self.old }
    {
        self.log.hang_up();
        self.begin();
    }
}

impl<'c, K: Clock> DeviceDialer<'c, K> {
    /// Counts a call. Answers whether its number is one of those that fail, which is a fault.
    fn next_fails(&mut self) -> bool
        ensures listed { IsTrue result ↔ FailsNext self.old.schedule }
        ensures fails { OnTrue result (self.new ≡ after_bad_call self.old) }
        ensures works { OnFalse result (self.new ≡ after_count self.old) }
        ensures later { self.old.schedule.faults ≤ self.new.schedule.faults }
    {
        self.schedule.next_fails()
    }

    /// Counts a call on a link. Answers whether its number is one of those that fail, or no link is up; either is a
    /// fault.
    fn fails_on_link(&mut self) -> bool
        ensures fails { IsTrue result ↔ FailsOnLink self.old }
        ensures failed { OnTrue result (self.new ≡ after_bad_call self.old) }
        ensures works { OnFalse result (self.new ≡ after_count self.old) }
        ensures later { self.old.schedule.faults ≤ self.new.schedule.faults }
    {
        if self.next_fails() {
            return true;
        }
        if self.log.is_up() {
            return false;
        }
        self.schedule.fault();
        true
    }

    /// Hands a piece to the inverter. Where memory runs out, nothing is done.
    fn deliver(&mut self, bytes: &[u8]) -> Result<(), NoMemory>
        ensures ok { OnOk result (IsDelivered (K.may_give self.old.clock) bytes.now self.old self.new) }
        ensures err { OnErr result (self.new ≡ self.old) }
    {
        // Each answer takes a byte of the piece at least.
        let room = bytes.len().checked_mul(MAX_FRAME).ok_or(NoMemory)?;
        self.replies.make_room(room)?;
        self.log.send(bytes)?;
        if let Standing::Listens = self.standing {
            self.standing = hear(&mut self.device, &mut self.frames, &mut self.replies, bytes);
        }
        Ok(())
    }

    /// What a receive on the link that is up comes to.
    fn give(&mut self, into: &mut [u8]) -> Received
        ensures answer { answer_of into.new result ≡ next_answer (length into.old) self.old.left self.old.standing }
        ensures fits { FitsInto into.new result }
        ensures state { self.new ≡ record self.old {
          left = drop (length into.old) self.old.left;
          standing = next_standing self.old.left self.old.standing;
        } }
    {
        if self.replies.is_empty() {
            return self.tell();
        }
        match self.replies.give(into) {
            0 => Received::Quiet,
            count => Received::Bytes(count),
        }
    }

    /// What a receive comes to that finds no reply bytes left.
    fn tell(&mut self) -> Received
        ensures answer { (into : List ℕ) → answer_of into result ≡ next_answer 0 [] self.old.standing }
        ensures fits { (into : List ℕ) → FitsInto into result }
        ensures state { self.new ≡ record self.old { standing = next_standing [] self.old.standing } }
    {
        match self.standing {
            Standing::HungUp => {
                self.standing = Standing::Told;
                Received::Closed
            }
            Standing::Listens | Standing::Told => Received::Quiet,
        }
    }

    /// Forgets what is left of a link.
    fn begin(&mut self)
        ensures { self.new ≡ with_fresh_links self.old.links self.old }
    {
        self.frames = Frames::new();
        self.replies = Replies::new(self.alloc);
        self.standing = Standing::Listens;
    }

    /// Ends the link that is up by a receive that failed.
    fn lose_link(&mut self)
        ensures { self.new ≡ with_fresh_links (with_failure self.old.links) self.old }
    {
        self.log.fail();
        self.begin();
    }

    /// Counts a call that failed for want of memory.
    fn starve(&mut self)
        ensures counted { self.new ≡ record (short_of_memory self.old) { schedule = self.new.schedule } }
        ensures fault { self.new.schedule ≡ record self.old.schedule { faults = one_more self.old.schedule.faults } }
        ensures later { self.old.schedule.faults ≤ self.new.schedule.faults }
    {
        self.starved = self.starved.saturating_add(1);
        self.schedule.fault();
    }
}
