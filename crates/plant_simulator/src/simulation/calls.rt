//! Calls that a simulation enters in the book of its life.
ghost use Rattle.std.specs.Prelude.{◌≡◌, ◌+◌, ◌<◌, ◌≤◌, ◌^◌, length, Some, IfSome, OnOk};
ghost use Rattle.plant_book.specs.Calls.{moment, named};
ghost use Rattle.plant_book.specs.Answered.{IsInRange};
ghost use Rattle.plant_simulator.specs.World.{held_by};
ghost use Rattle.plant_simulator.specs.Inverter as rule;
ghost use Rattle.plant_simulator.specs.Call as calls;
ghost use Rattle.plant_simulator.specs.Step as steps;
ghost use Rattle.plant_simulator.specs.Ready.{IsReady};

use super::Simulation;
use limiter_num::NoMemory;
use plant_book::{Call, Reply};

impl Simulation {
    /// Enters a call in the book of the life that is on.
    fn apply(&mut self, call: Call) -> Reply
        requires ready { IsReady self.old }
        requires moment { moment call ≤ 10 ^ 15 }
        requires of_site { IfSome (named call) (λ inverter. inverter < length self.old.inverters) }
        requires in_range { IsInRange call }
        ensures reply { result ≡ calls.reply_in self.old call }
        ensures entered { self.new ≡ calls.with_entry (calls.entry_in self.old.book call) self.old }
    {
        let Ok(outcome) = self.lives.apply(call) else {
            unreachable!()
        };
        outcome.reply
    }

    /// Counts what a reply grants and frees.
    fn tally(&mut self, reply: &Reply)
        requires granted { self.old.granted < 2 ^ 31 }
        requires freed { self.old.freed < 2 ^ 31 }
        ensures { self.new ≡ calls.counted reply.now self.old }
    {
        match *reply {
            Reply::Granted(_) => self.granted += 1,
            Reply::Freed { count, .. } => self.freed += u32::from(count),
            _ => {}
        }
    }

    /// Enters a call, and counts what it grants and frees.
    #[tactic(auto, unfolding(crate::specs::Call::called, crate::specs::Call::with_entry))]
    pub(super) fn enter(&mut self, call: Call) -> Reply
        requires ready { IsReady self.old }
        requires moment { moment call ≤ 10 ^ 15 }
        requires of_site { IfSome (named call) (λ inverter. inverter < length self.old.inverters) }
        requires in_range { IsInRange call }
        ensures reply { result ≡ calls.reply_in self.old call }
        ensures called { self.new ≡ calls.called call self.old }
    {
        let reply = self.apply(call);
        self.tally(&reply);
        reply
    }

    /// Enters a call of an inverter. The request that the reply grants joins its line.
    #[tactic(auto, unfolding(crate::specs::Call::called, crate::specs::Call::with_entry))]
    pub(super) fn request(&mut self, number: u8, call: Call) -> Result<(), NoMemory>
        requires ready { IsReady self.old }
        requires of_site { number < length self.old.inverters }
        requires named { named call ≡ Some number }
        requires moment { moment call ≤ 10 ^ 15 }
        requires in_range { IsInRange call }
        ensures { OnOk result (self.new ≡ steps.changed number
            (rule.queued (calls.reply_in self.old call)) (calls.called call self.old)) }
    {
        let reply = self.enter(call);
        self.queue(number, &reply)
    }

    /// A read of this number shows what is held.
    pub(super) fn see(&mut self, number: u8, read: u16)
        requires ready { IsReady self.old }
        requires of_site { number < length self.old.inverters }
        ensures { self.new ≡ calls.called
            (Call.Saw self.old.moment number read (held_by self.old number)) self.old }
    {
        let call = Call::Saw {
            at: self.moment,
            inverter: number,
            number: read,
            raw: self.held_by(number),
        };
        let _ = self.enter(call);
    }

    /// Enters a Link of an inverter.
    pub(super) fn link(&mut self, number: u8)
        requires ready { IsReady self.old }
        requires of_site { number < length self.old.inverters }
        ensures { self.new ≡ calls.called (Call.Link self.old.moment number) self.old }
    {
        let call = Call::Link {
            at: self.moment,
            inverter: number,
        };
        let _ = self.enter(call);
    }

    /// Each inverter gets a Link, in order.
    pub(super) fn link_all(&mut self)
        requires ready { IsReady self.old }
        requires room { length self.old.book.entries + length self.old.inverters < 1048576 }
        ensures { self.new ≡ steps.linked (length self.old.inverters) self.old }
    {
        for number in 0..self.count() as u8 {
            self.link(number);
        }
    }

    /// A Tick.
    pub(super) fn tick(&mut self)
        requires { IsReady self.old }
        ensures { self.new ≡ calls.called (Call.Tick self.old.moment) self.old }
    {
        let call = Call::Tick { at: self.moment };
        let _ = self.enter(call);
    }
}
