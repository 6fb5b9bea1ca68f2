ghost use Rattle.std.specs.Prelude.{◌≡◌, ◌⊎◌, ◌<◌, ◌≤◌, ◌↔◌, [], length, Some, None, IsOk, IfOk, IfErr, IfSome, OnOk, OnErr};
ghost use Rattle.plant_book.specs.Site.{inverters};
ghost use Rattle.plant_book.specs.Calls.{moment, named};
ghost use Rattle.plant_book.specs.Reserved.{total};
ghost use Rattle.plant_book.specs.Part.{first_book, last_moment_of};
ghost use Rattle.plant_book.specs.Carry.{EachBefore};
ghost use Rattle.plant_book.specs.Answered.{IsInRange};
ghost use Rattle.plant_book.specs.Covered.{IsUnderCeiling, IsBackUnderCap};
ghost use Rattle.plant_book.specs.History.{IsPast};
ghost use Rattle.plant_ledger.specs.Opening.{open_fault, ticket_for};
ghost use Rattle.plant_ledger.specs.Plant.{entered};
ghost use Rattle.plant_ledger.specs.Plant as ledger;
ghost use Rattle.restart_silence.specs.Chain.{Begins, GoesOn, Restarts, still_live};

use plant_book::{Call, MOMENT_MAX, Site};
use plant_ledger::{BookFull, OpenFault, Outcome, Plant};
use std::alloc::Global;
use std::marker::Model;
use std::mem;

/// Why no next life began. The lives are as they were.
#[derive(Clone, Copy, Debug, PartialEq, Eq)]
pub enum RestartFault {
    /// The moment is below the last one of the life, which is told in ms.
    TimeBack(u64),
    /// Memory for the next book could not be had.
    NoMemory,
}

/// A plant over its lives, of which the last is on. Contracts see the book of the last life, which has no other.
#[derive(Debug, Drop)]
pub struct Lives {
    plant: Plant,
}

impl Model for Lives {
    ghost use Rattle.std.specs.Prelude.{◌≡◌, None};
    ghost use Rattle.plant_book.specs.Part.{PartRecord};

    ghost Value = { PartRecord };

    ghost view = { λ lives. lives.plant };

    ghost invariant = { λ lives. lives.plant.carry ≡ None };
}

impl Lives {
    /// Begins the first life of a site at a moment in ms, with every inverter at its floor.
    pub fn begin(alloc: Global, site: Site, start: u64) -> Result<Lives, OpenFault>
        requires start { start ≤ MOMENT_MAX }
        ensures opened { IfOk result
            (λ lives. lives ≡ record { site = site; start = start; carry = None; entries = [] }) }
        ensures openable { OnOk result (open_fault site ≡ None) }
        ensures refused { IfErr result (λ fault. open_fault site ≡ Some fault
            ⊎ ((fault ≡ OpenFault.NoMemory) × (open_fault site ≡ None))) }

        // The one life is a history, safe at every moment.
        ensures chain { IfOk result (λ lives. Begins (first_book lives)) }
    {
        let plant = Plant::open(alloc, site, start)?;
        Ok(Lives { plant })
    }

    /// Enters a call in the life that is on, and answers it: as `Plant::apply`.
    pub fn apply(&mut self, call: Call) -> Result<Outcome, BookFull>
        requires moment { moment call ≤ MOMENT_MAX }
        requires of_site { IfSome (named call) (λ inverter. inverter < inverters self.old.site) }
        requires in_range { IsInRange call }
        ensures entered { IfOk result (λ outcome. self.new ≡ entered self.old call outcome.reply) }
        ensures ticket { IfOk result (λ outcome. outcome.ticket ≡ ticket_for outcome.reply) }
        ensures lives { IfOk result (λ outcome. EachBefore self.old
            (λ before. ledger.GoesOn before self.old call outcome.reply self.new)) }
        ensures room { IsOk result ↔ (length self.old.entries < self.old.site.room) }
        ensures full { IfErr result (λ full. (full.calls ≡ length self.old.entries)
            × (full.calls ≡ self.old.site.room) × (self.new ≡ self.old)) }
        ensures capped { total (first_book self.new) ≤ self.new.site.cap }
        ensures ceiling { IsUnderCeiling (first_book self.new) }
        ensures back { IsBackUnderCap (first_book self.new) }

        // Whatever lives came before: with this one they are a history, safe at every moment.
        ensures chain { GoesOn (first_book self.old) (first_book self.new) }
    {
        self.plant.apply(call)
    }

    /// The plant of the life that is on.
    pub fn plant(&self) -> &Plant
        ensures plant { result.now ≡ self.now }
        ensures first { self.now.carry ≡ None }
    {
        &self.plant
    }

    /// Ends the life and begins the next one at a moment in ms: with an empty book, and with nothing remembered
    /// but the site. The ended plant is handed back with its book.
    pub fn restart(&mut self, alloc: Global, at: u64) -> Result<Plant, RestartFault>
        requires moment { at ≤ MOMENT_MAX }
        ensures ended { IfOk result (λ ended. ended ≡ self.old) }
        ensures begun { OnOk result (
            self.new ≡ record { site = self.old.site; start = at; carry = None; entries = [] }) }

        // Refused as back in time exactly where the moment is below the last one, and then nothing has
        // changed.
        ensures time { OnOk result (last_moment_of self.old ≤ at) }
        ensures time_back { IfErr result (λ fault. ((at < last_moment_of self.old)
            × (fault ≡ RestartFault.TimeBack (last_moment_of self.old)))
            ⊎ ((last_moment_of self.old ≤ at) × (fault ≡ RestartFault.NoMemory))) }
        ensures unchanged { OnErr result (self.new ≡ self.old) }

        // Whatever lives came before: with the next one they are a history, safe at every moment. What is still
        // live of the ended book is a past that fits.
        ensures chain { OnOk result (Restarts (first_book self.old) (first_book self.new)) }
        ensures past { OnOk result (IsPast self.new.site self.new.start (still_live (first_book self.old))) }
    {
        let last = self.plant.latest();
        if at < last {
            return Err(RestartFault::TimeBack(last));
        }
        let next = match next_life(alloc, self.plant.site(), at) {
            Some(next) => next,
            None => return Err(RestartFault::NoMemory),
        };
        Ok(mem::replace(&mut self.plant, next))
    }
}

/// The plant of a new life of the site, or none where memory runs out.
fn next_life(alloc: Global, site: &Site, at: u64) -> Option<Plant>
    requires { at ≤ MOMENT_MAX }
    ensures { IfSome result (λ plant. plant ≡ record {
      site = site.now;
      start = at;
      carry = None;
      entries = [];
    }) }
{
    let Ok(site) = site.clone() else {
        return None;
    };
    Plant::open(alloc, site, at).ok()
}
