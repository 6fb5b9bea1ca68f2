ghost use Rattle.std.specs.Prelude.{◌≡◌, ◌<◌, ◌≤◌, ◌+◌, ◌++◌, [], length, vec_len, vec_capacity, None, IfOk, IfErr, IfSome, OnErr, OnOk};
ghost use Rattle.plant_book.specs.Calls.{moment, named};
ghost use Rattle.plant_book.specs.Answered.{IsInRange};
ghost use Rattle.plant_book.specs.Part.{PartRecord, calls_of};
ghost use Rattle.plant_ledger.specs.Opening.{ticket_for};
ghost use Rattle.plant_ledger.specs.Plant.{IsFullLife};
ghost use Rattle.plant_ledger.specs.Release.{back_of};
ghost use Rattle.ledger_desk.specs.Calls.{IsBack};
ghost use Rattle.ledger_desk.specs.Desk.{DeskState, DeskTests, TestsLast, EntersNone, Enters, AddsRoll, RefusesRoll};
ghost use Rattle.ledger_desk.specs.Plain.{state_of, tests_of, LifeRecord, life_of, IsKeptDesk};

use crate::desk::Desk;
use plant_book::{Book, CALLS_MAX, Call, Entry, Reply};
use plant_ledger::{BookFull, Goal, Outcome, Plant, RollFault, Ticket};
use std::alloc::Global;
use std::marker::Model;

/// The desk of a plant that nobody shares. It keeps a copy of the entries of each book that it rolls.
#[derive(Debug, Drop)]
pub struct PlainDesk {
    plant: Plant,
    before: Vec<Entry>,
    begun: u32,
    rolls: Vec<u64>,
}

impl Model for PlainDesk {
    ghost use Rattle.ledger_desk.specs.Plain.{PlainRecord, IsKeptDesk};

    ghost Value = { PlainRecord };

    ghost view = { λ d. record {
      book = d.plant;
      before = d.before.items;
      begun = d.begun;
      rolls = d.rolls.items;
    } };

    ghost invariant = { λ d. IsKeptDesk (record {
      book = d.plant;
      before = d.before.items;
      begun = d.begun;
      rolls = d.rolls.items;
    }) };
}

impl PlainDesk {
    /// The desk of a plant that is in the first book of its life.
    pub fn new(alloc: Global, plant: Plant) -> PlainDesk
        requires { plant.carry ≡ None }
        ensures { result ≡ record { book = plant; before = []; begun = length plant.entries; rolls = [] } }
    {
        let begun = plant.calls();
        PlainDesk {
            plant,
            before: Vec::new(alloc),
            begun,
            rolls: Vec::new(alloc),
        }
    }

    /// The plant, in the last book of its life.
    pub fn into_plant(self) -> Plant
        ensures book { result ≡ self.book }
        ensures whole { IsKeptDesk self }
    {
        self.plant
    }
}

impl Desk for PlainDesk {
    ghost state = { λ d. state_of d };

    ghost tests = { λ d. tests_of d };

    ghost Kept = { LifeRecord };

    ghost kept = { λ d. life_of d };

    ghost room_of = { λ life. life.site.room };

    fn call(&mut self, call: Call) -> Result<Outcome, BookFull> {
        self.plant.apply(call)
    }

    fn release(&mut self, ticket: Ticket, at: u64) -> Result<Reply, BookFull> {
        match self.plant.release(ticket, at) {
            Ok(reply) => Ok(reply),
            Err((full, _)) => Err(full),
        }
    }

    fn goal(&mut self, inverter: u8) -> Goal {
        self.plant.goal(inverter)
    }

    fn roll(&mut self, alloc: Global) -> Result<Book, RollFault> {
        check_life(&self.plant)?;
        let calls = self.plant.calls() as usize;
        if self.before.reserve(calls).is_err() || self.rolls.reserve(1).is_err() {
            return Err(RollFault::NoMemory);
        }
        let ended = self.plant.roll(alloc)?;
        append_reserved(&mut self.before, &ended.entries);
        self.rolls.push_reserved(count(&self.before));
        Ok(ended)
    }
}

/// Refuses a life that has no room for one more book.
fn check_life(plant: &Plant) -> Result<(), RollFault>
    ensures unfilled { OnOk result (¬ IsFullLife plant.now) }
    ensures full { IfErr result (λ fault. IsFullLife plant.now
        × (fault ≡ RollFault.LifeFull (calls_of plant.now))) }
{
    let calls = life_calls(plant);
    if calls > CALLS_MAX - plant.site().room {
        return Err(RollFault::LifeFull(calls));
    }
    Ok(())
}

/// How many calls the life has, up to and with this book.
fn life_calls(plant: &Plant) -> u32
    ensures { result ≡ calls_of plant.now }
{
    let before = match plant.carry() {
        Some(carry) => carry.calls,
        None => 0,
    };
    before + plant.calls()
}

/// Adds the entries of a book to others that have room for them.
fn append_reserved(entries: &mut Vec<Entry>, more: &[Entry])
    requires { vec_len entries.old + length more.now ≤ vec_capacity entries.old }
    ensures { entries.new.items ≡ entries.old.items ++ more.now }
{
    let appended = entries.extend_from_slice(more);
    prove!(appended.is_ok());
}

/// How many entries there are.
fn count(entries: &[Entry]) -> u64
    ensures { result ≡ length entries.now }
{
    entries.len() as u64
}
