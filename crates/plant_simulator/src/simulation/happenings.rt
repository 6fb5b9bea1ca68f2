//! What happens to one inverter in a step.
ghost use Rattle.std.specs.Prelude.{◌≡◌, ◌<◌, ◌^◌, length, slice_get, OnOk};
ghost use Rattle.plant_book.specs.Answer.{goal_raw};
ghost use Rattle.plant_simulator.specs.Step as steps;
ghost use Rattle.plant_simulator.specs.Ready.{IsReady};

use super::Simulation;
use crate::inverter::Request;
use crate::site::{tmax, tmin};
use limiter_num::NoMemory;
use plant_book::{Call, Write};

/// An Ask is one for the goal once in so many times.
const GOAL_IN: u64 = 2;

const _: () = prove!(GOAL_IN == 2);

/// Any other Ask is for a raw percentage below this.
const LIMITS: u64 = 1_001;

const _: () = prove!(LIMITS == 1_001);

/// A wish is below so many milliwatts.
const WISHES: u64 = 6_000_001;

const _: () = prove!(WISHES == 6_000_001);

/// A request is lost once in so many times.
const LOST_IN: u64 = 4;

const _: () = prove!(LOST_IN == 4);

/// A request that is delivered stays in the line once in so many times.
const KEPT_IN: u64 = 8;

const _: () = prove!(KEPT_IN == 8);

/// In place of a Tick there is a restart once in so many times.
const RESTART_IN: u64 = 64;

const _: () = prove!(RESTART_IN == 64);

impl Simulation {
    /// What an inverter may aim at, at the last moment of the book.
    fn goal(&self, number: u8) -> u16
        requires ready { IsReady self.now }
        requires of_site { number < length self.now.inverters }
        ensures { result ≡ goal_raw self.now.book number }
    {
        self.lives.plant().goal(number).raw
    }

    /// A write that is delivered acts.
    #[tactic(auto, unfolding(crate::specs::Step::acted))]
    fn act(&mut self, number: u8, write: &Write)
        requires ready { IsReady self.old }
        requires of_site { number < length self.old.inverters }
        ensures { self.new ≡ steps.acted number write.now self.old }
    {
        let revert = self.moment + tmin() + self.draw(tmax() - tmin() + 1);
        self.hold(number, write.raw, revert);
    }

    /// Asks for a limit. The granted write joins the line.
    #[tactic(auto, unfolding(crate::specs::Step::asked_for))]
    fn ask_for(&mut self, number: u8, raw: u16) -> Result<(), NoMemory>
        requires ready { IsReady self.old }
        requires of_site { number < length self.old.inverters }
        ensures { OnOk result (self.new ≡ steps.asked_for number raw self.old) }
    {
        let call = Call::Ask {
            at: self.moment,
            inverter: number,
            raw,
        };
        self.request(number, call)
    }

    /// Asks for the goal of an inverter, or for any limit.
    #[tactic(auto, unfolding(crate::specs::Step::asked))]
    pub(super) fn ask(&mut self, number: u8) -> Result<(), NoMemory>
        requires ready { IsReady self.old }
        requires of_site { number < length self.old.inverters }
        ensures { OnOk result (self.new ≡ steps.asked number self.old) }
    {
        if self.draw(GOAL_IN) == 0 {
            let goal = self.goal(number);
            return self.ask_for(number, goal);
        }
        let raw = self.draw(LIMITS) as u16;
        self.ask_for(number, raw)
    }

    /// Wants to read the limit of an inverter back. The numbered read joins the line.
    #[tactic(auto, unfolding(crate::specs::Step::read_back))]
    pub(super) fn read_back(&mut self, number: u8) -> Result<(), NoMemory>
        requires ready { IsReady self.old }
        requires of_site { number < length self.old.inverters }
        ensures { OnOk result (self.new ≡ steps.read_back number self.old) }
    {
        let call = Call::Read {
            at: self.moment,
            inverter: number,
        };
        self.request(number, call)
    }

    /// Delivers a request of the line: a write acts, and a read shows what is held.
    #[tactic(auto, unfolding(crate::specs::Step::delivered))]
    fn deliver(&mut self, number: u8, request: &Request)
        requires ready { IsReady self.old }
        requires of_site { number < length self.old.inverters }
        ensures { self.new ≡ steps.delivered number request.now self.old }
    {
        match request {
            Request::Write(write) => self.act(number, write),
            Request::Read(read) => self.see(number, read.number),
        }
    }

    /// The first request of a line is lost, or delivered and perhaps kept.
    #[tactic(auto, unfolding(crate::specs::Step::reached))]
    fn reach(&mut self, number: u8, request: &Request)
        requires ready { IsReady self.old }
        requires of_site { number < length self.old.inverters }
        ensures { self.new ≡ steps.reached number request.now self.old }
    {
        let lost = self.draw(LOST_IN) == 0;
        let kept = self.draw(KEPT_IN) == 0;
        if lost {
            self.drop_first(number);
            return;
        }
        if kept {
            self.deliver(number, request);
            return;
        }
        self.drop_first(number);
        self.deliver(number, request);
    }

    /// Something happens to the first request of a line, if there is one.
    pub(super) fn go_along(&mut self, number: u8)
        requires ready { IsReady self.old }
        requires of_site { number < length self.old.inverters }
        ensures { self.new ≡ steps.by_line number (steps.line_of number self.old) self.old }
    {
        if let Some(request) = self.first(number) {
            self.reach(number, &request);
        }
    }

    /// The old write at a place acts, and leaves with the earlier ones of its link and life.
    fn act_late(&mut self, number: u8, place: usize) -> Result<(), NoMemory>
        requires ready { IsReady self.old }
        requires of_site { number < length self.old.inverters }
        requires place { place < length (steps.old_of number self.old) }
        ensures { OnOk result (self.new ≡ steps.by_place number place
            (slice_get (steps.old_of number self.old) place) self.old) }
    {
        let chosen = self.take_old(number, place)?;
        self.act(number, &chosen.write);
        Ok(())
    }

    /// An old write acts, if there is one.
    #[tactic(auto, unfolding(crate::specs::Step::came_late))]
    pub(super) fn come_late(&mut self, number: u8) -> Result<(), NoMemory>
        requires ready { IsReady self.old }
        requires of_site { number < length self.old.inverters }
        ensures { OnOk result (self.new ≡ steps.came_late number self.old) }
    {
        let count = self.old_writes(number);
        if count == 0 {
            return Ok(());
        }
        let place = self.draw(count as u64) as usize;
        self.act_late(number, place)
    }

    /// A wish of any size.
    #[tactic(auto, unfolding(crate::specs::Step::wished))]
    pub(super) fn wish(&mut self, number: u8)
        requires ready { IsReady self.old }
        requires of_site { number < length self.old.inverters }
        ensures { self.new ≡ steps.wished number self.old }
    {
        let mw = self.draw(WISHES);
        let call = Call::Want {
            at: self.moment,
            inverter: number,
            mw,
        };
        let _ = self.enter(call);
    }

    /// A new link to an inverter. What is on its way there is old.
    #[tactic(auto, unfolding(crate::specs::Step::relinked))]
    pub(super) fn relink(&mut self, number: u8) -> Result<(), NoMemory>
        requires ready { IsReady self.old }
        requires of_site { number < length self.old.inverters }
        ensures { OnOk result (self.new ≡ steps.relinked number self.old) }
    {
        self.empty(number)?;
        self.link(number);
        Ok(())
    }

    /// A Tick, or once in 64 times a restart.
    #[tactic(auto, unfolding(crate::specs::Step::ticked))]
    pub(super) fn tick_or_restart(&mut self) -> Result<(), NoMemory>
        requires ready { IsReady self.old }
        requires life { self.old.life < 2 ^ 31 }
        ensures { OnOk result (self.new ≡ steps.ticked self.old) }
    {
        if self.draw(RESTART_IN) == 0 {
            return self.restart();
        }
        self.tick();
        Ok(())
    }
}
