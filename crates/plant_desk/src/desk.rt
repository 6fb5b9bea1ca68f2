ghost use Rattle.std.specs.Prelude.{◌≡◌, ◌⊎◌, ◌<◌, ◌≤◌, IfOk, IfErr, IfSome};
ghost use Rattle.plant_book.specs.Site.{inverters};
ghost use Rattle.plant_book.specs.Calls.{moment, named};
ghost use Rattle.plant_book.specs.Answered.{IsInRange};
ghost use Rattle.plant_book.specs.Answer.{goal_raw, is_stopped};
ghost use Rattle.plant_book.specs.Reserved as sums;
ghost use Rattle.plant_ledger.specs.Opening.{ticket_for};
ghost use Rattle.plant_ledger.specs.Release.{back_of};
ghost use Rattle.plant_desk.specs.Passes.{Looks, FindsFull, Enters, RollsOver, RefusesRoll, seen_book};

use crate::board::Boards;
use crate::pass::Pass;
use crate::turn::{give_back, give_entered, give_rolled, refuse_full, take_turn};
use plant_book::{Book, Call, MOMENT_MAX, Reply};
use plant_ledger::{BookFull, Goal, Outcome, Plant, RollFault, Ticket};
use std::alloc::Global;
use std::marker::Model;
use std::sync::Wait;

/// A plant that threads share. Each call goes through a pass, and waits for its turn.
#[derive(Drop)]
pub struct PlantDesk {
    pub(crate) boards: Boards,
    pub(crate) passes: u32,
}

impl Model for PlantDesk {
    ghost use Rattle.plant_desk.specs.Passes.{DeskRecord};

    ghost Value = { DeskRecord };

    ghost use Rattle.plant_desk.specs.Kept.{desk_of, IsPlantDesk};

    ghost view = { λ d. desk_of d };

    ghost invariant = { λ d. IsPlantDesk d };
}

impl PlantDesk {
    /// What the inverter may aim at, after a beginning of the joined book that has all that the pass had
    /// seen and nothing more of its own.
    pub fn goal<R: Wait>(&self, rt: &R, pass: &mut Pass, inverter: u8) -> Goal
        requires of_desk { pass.old.desk ≡ self.now }
        requires of_site { inverter < inverters self.now.book.site }
        ensures same { (pass.new.desk ≡ pass.old.desk) × (pass.new.number ≡ pass.old.number) }
        ensures looks { Looks pass.old pass.new }
        ensures raw { result.raw ≡ goal_raw (seen_book pass.new) inverter }
        ensures reserved { result.reserved ≡ sums.reserved (seen_book pass.new) inverter }
        ensures stop { result.stop ≡ is_stopped (seen_book pass.new) }
    {
        let board = &self.boards.shared;
        let plant = take_turn(rt, board, &mut pass.place, pass.number);
        let goal = plant.goal(inverter);
        give_back(board, &mut pass.place, plant);
        goal
    }
}

impl PlantDesk {
    /// Enters a call through a pass, and answers it. A full book takes no call and gives no place.
    pub fn apply<R: Wait>(&self, rt: &R, pass: &mut Pass, call: Call) -> Result<Outcome, BookFull>
        requires of_desk { pass.old.desk ≡ self.now }
        requires moment { moment call ≤ MOMENT_MAX }
        requires of_site { IfSome (named call) (λ inverter. inverter < inverters self.now.book.site) }
        requires in_range { IsInRange call }
        ensures same { (pass.new.desk ≡ pass.old.desk) × (pass.new.number ≡ pass.old.number) }
        ensures entered { IfOk result (λ outcome. Enters pass.old call outcome.reply pass.new) }
        ensures ticket { IfOk result (λ outcome. outcome.ticket ≡ ticket_for outcome.reply) }
        ensures full { IfErr result (λ full. FindsFull pass.old full.calls pass.new) }
    {
        let board = &self.boards.shared;
        let mut plant = take_turn(rt, board, &mut pass.place, pass.number);
        match plant.apply(call) {
            Ok(outcome) => {
                give_entered(board, &mut pass.place, plant);
                Ok(outcome)
            }
            Err(_) => Err(refuse_full(board, &mut pass.place, plant)),
        }
    }

    /// Gives back a write that was not sent and never will be: the Back of the ticket's write. A full book
    /// takes no call, and the ticket is dropped.
    pub fn release<R: Wait>(
        &self,
        rt: &R,
        pass: &mut Pass,
        ticket: Ticket,
        at: u64,
    ) -> Result<Reply, BookFull>
        requires of_desk { pass.old.desk ≡ self.now }
        requires moment { at ≤ MOMENT_MAX }
        requires of_site { ticket.inverter < inverters self.now.book.site }
        ensures same { (pass.new.desk ≡ pass.old.desk) × (pass.new.number ≡ pass.old.number) }
        ensures entered { IfOk result (λ reply. Enters pass.old (back_of ticket at) reply pass.new) }
        ensures full { IfErr result (λ full. FindsFull pass.old full.calls pass.new) }
    {
        let board = &self.boards.shared;
        let mut plant = take_turn(rt, board, &mut pass.place, pass.number);
        match plant.release(ticket, at) {
            Ok(reply) => {
                give_entered(board, &mut pass.place, plant);
                Ok(reply)
            }
            Err(_) => Err(refuse_full(board, &mut pass.place, plant)),
        }
    }

    /// Ends the current book, hands it out, and goes on with an empty one of the same room. After a refusal
    /// the plant is as it was.
    pub fn roll<R: Wait>(&self, rt: &R, alloc: Global, pass: &mut Pass) -> Result<Book, RollFault>
        requires of_desk { pass.old.desk ≡ self.now }
        ensures same { (pass.new.desk ≡ pass.old.desk) × (pass.new.number ≡ pass.old.number) }
        ensures ended { IfOk result (λ ended. RollsOver pass.old ended pass.new) }
        ensures refused { IfErr result (λ fault. RefusesRoll pass.old fault pass.new) }
    {
        let board = &self.boards.shared;
        let mut plant = take_turn(rt, board, &mut pass.place, pass.number);
        match plant.roll(alloc) {
            Ok(ended) => {
                give_rolled(board, &mut pass.place, plant);
                Ok(ended)
            }
            Err(fault) => {
                give_back(board, &mut pass.place, plant);
                Err(fault)
            }
        }
    }
}
