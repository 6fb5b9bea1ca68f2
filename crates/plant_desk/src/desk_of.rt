ghost use Rattle.std.specs.Prelude.{◌≡◌, ℕ};
ghost use Rattle.plant_desk.specs.Passes.{DeskRecord};
ghost use Rattle.plant_desk.specs.DeskOf.{state_of, tests_of, identity};

use crate::desk::PlantDesk;
use crate::pass::Pass;
use ledger_desk::Desk;
use plant_book::{Book, Call, Reply};
use plant_ledger::{BookFull, Goal, Outcome, RollFault, Ticket};
use std::alloc::Global;
use std::marker::Model;
use std::sync::Wait;

/// A shared desk as one of its callers has it: what it waits by, the desk and the caller's pass. Contracts see in it the
/// pass.
#[derive(Drop)]
pub struct DeskOf<'a, R: Wait> {
    rt: &'a R,
    desk: &'a PlantDesk,
    pass: Pass,
}

impl<'a, R: Wait> Model for DeskOf<'a, R> {
    ghost use Rattle.std.specs.Prelude.{◌≡◌};
    ghost use Rattle.plant_desk.specs.Passes.{PassRecord};

    ghost Value = { PassRecord };

    ghost view = { λ d. d.pass };

    ghost invariant = { λ d. d.pass.desk ≡ d.desk.now };
}

impl<'a, R: Wait> DeskOf<'a, R> {
    /// The desk of this pass.
    pub fn new(rt: &'a R, desk: &'a PlantDesk, pass: Pass) -> Self
        requires { pass.desk ≡ desk.now }
        ensures { result ≡ pass }
    {
        DeskOf { rt, desk, pass }
    }

    /// The pass, after all that was done through it.
    pub fn into_pass(self) -> Pass
        ensures { result ≡ self.entry }
    {
        self.pass
    }
}

impl<'a, R: Wait> Desk for DeskOf<'a, R> {
    ghost state = { λ pass. state_of pass };

    ghost tests = { λ pass. tests_of pass };

    ghost Kept = { DeskRecord × ℕ };

    ghost kept = { λ pass. identity pass };

    ghost room_of = { λ kept. kept.0.book.site.room };

    fn call(&mut self, call: Call) -> Result<Outcome, BookFull> {
        self.desk.apply(self.rt, &mut self.pass, call)
    }

    fn release(&mut self, ticket: Ticket, at: u64) -> Result<Reply, BookFull> {
        self.desk.release(self.rt, &mut self.pass, ticket, at)
    }

    fn goal(&mut self, inverter: u8) -> Goal {
        self.desk.goal(self.rt, &mut self.pass, inverter)
    }

    fn roll(&mut self, alloc: Global) -> Result<Book, RollFault> {
        self.desk.roll(self.rt, alloc, &mut self.pass)
    }
}
