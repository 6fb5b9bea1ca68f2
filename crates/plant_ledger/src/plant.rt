ghost use Rattle.std.specs.Prelude.{◌≡◌, ◌⊎◌, ◌<◌, ◌≤◌, ◌↔◌, List, [], length, Some, None, IsOk, IsErr};
ghost use Rattle.std.specs.Prelude.{IfOk, IfErr, IfSome, OnOk, OnErr, MatchOption, slice_get};
ghost use Rattle.plant_book.specs.Site.{inverters};
ghost use Rattle.plant_book.specs.Calls.{moment, named};
ghost use Rattle.plant_book.specs.Answer.{goal_raw, is_stopped};
ghost use Rattle.plant_book.specs.Reserved as sums;
ghost use Rattle.plant_book.specs.Caps.{cap_of};
ghost use Rattle.plant_book.specs.Ceiling.{ceiling};
ghost use Rattle.plant_book.specs.Answered.{IsInRange};
ghost use Rattle.plant_book.specs.Part.{last_moment_of, calls_of};
ghost use Rattle.plant_book.specs.Carry.{EachBefore, EachBook};
ghost use Rattle.plant_ledger.specs.Opening.{open_fault, ticket_for};
ghost use Rattle.plant_ledger.specs.Release.{back_of};
ghost use Rattle.plant_ledger.specs.Plant.{IsKept, IsSound, entered, GoesOn, Rolls, IsFullLife};

mod readings;

use crate::entering::enter;
use crate::ledger::Ledger;
use crate::opening::{OpenFault, refuse};
use crate::rolling::RollFault;
use crate::ticket::{Ticket, ticket_with};
use limiter_num::NoMemory;
use plant_book::{Book, Call, Carry, Entry, MOMENT_MAX, Reply, Site, Write};
use std::alloc::Global;
use std::marker::Model;

/// The book already has as many calls as its room; nothing was entered.
#[derive(Clone, Copy, Debug, PartialEq, Eq)]
pub struct BookFull {
    /// The calls of the book, which are its room.
    pub calls: u32,
}

/// The reply to a call, and the ticket of the write that was granted, if one was.
#[derive(Debug, Drop)]
pub struct Outcome {
    /// What the ledger answers.
    pub reply: Reply,
    /// The right to send the write, where the reply grants one.
    pub ticket: Option<Ticket>,
}

/// What an inverter may aim at.
#[derive(Clone, Copy, Debug, PartialEq, Eq)]
pub struct Goal {
    /// The limit as a raw percentage.
    pub raw: u16,
    /// What is reserved for the inverter, in mW.
    pub reserved: u64,
    /// Whether the plant is to stop.
    pub stop: bool,
}

/// The ledger of one plant. It keeps the last book of its life, and beside it what the replies go by.
#[derive(Debug, Drop)]
pub struct Plant {
    ledger: Ledger,
}

impl Model for Plant {
    ghost use Rattle.plant_book.specs.Part.{PartRecord};
    ghost use Rattle.plant_ledger.specs.Ledger.{IsAtLast};

    ghost Value = { PartRecord };

    ghost view = { λ p. p.ledger.book };

    ghost invariant = { λ p. IsAtLast p.ledger };
}

impl Plant {
    /// Opens the book of a site at a moment in ms, with all memory that the book will need.
    pub fn open(alloc: Global, site: Site, start: u64) -> Result<Plant, OpenFault>
        requires start { start ≤ MOMENT_MAX }
        ensures opened { IfOk result
            (λ plant. plant ≡ record { site = site; start = start; carry = None; entries = [] }) }
        ensures openable { OnOk result (open_fault site ≡ None) }
        ensures kept { IfOk result (λ plant. IsKept plant) }

        // Of the life that the book begins.
        ensures sound { IfOk result (λ plant. EachBook plant IsSound) }

        // Refused by the first cause, and for want of memory only where no cause stands.
        ensures refused { IfErr result (λ fault. open_fault site ≡ Some fault
            ⊎ ((fault ≡ OpenFault.NoMemory) × (open_fault site ≡ None))) }
    {
        refuse(&site)?;
        let ledger = match Ledger::new(alloc, site, start) {
            Ok(ledger) => ledger,
            Err(NoMemory) => return Err(OpenFault::NoMemory),
        };
        Ok(Plant { ledger })
    }

    /// Enters a call with the greater of its moment and the last moment, and answers it. A Want wishes for at
    /// most 10^14 mW, and a Cap is for at most as many.
    pub fn apply(&mut self, call: Call) -> Result<Outcome, BookFull>
        requires moment { moment call ≤ MOMENT_MAX }
        requires of_site { IfSome (named call) (λ inverter. inverter < inverters self.old.site) }
        requires in_range { IsInRange call }

        ensures entered { IfOk result (λ outcome. self.new ≡ entered self.old call outcome.reply) }
        ensures ticket { IfOk result (λ outcome. outcome.ticket ≡ ticket_for outcome.reply) }

        // Of each life whose last book this is: the reply is the one that the joined book asks for, and the
        // life goes on.
        ensures lives { IfOk result (λ outcome. EachBefore self.old
            (λ before. GoesOn before self.old call outcome.reply self.new)) }

        // Full exactly where the book has as many calls as its room.
        ensures room { IsOk result ↔ (length self.old.entries < self.old.site.room) }
        ensures full { IfErr result (λ full. (full.calls ≡ length self.old.entries)
            × (full.calls ≡ self.old.site.room) × (self.new ≡ self.old)) }

        // Of each life whose last book is the new one: its watts stay under the ceiling, what is held is covered by
        // what is reserved, and it is safe at every moment.
        ensures kept { IsKept self.new }
        ensures sound { EachBook self.new IsSound }
    {
        let calls = self.calls();
        if calls >= self.site().room {
            return Err(BookFull { calls });
        }
        let reply = enter(&mut self.ledger, call);
        Ok(Outcome {
            reply,
            ticket: ticket_with(&reply),
        })
    }

    /// Gives back a write that was not sent and never will be: the Back of the ticket's write. A full book
    /// hands the ticket back.
    pub fn release(&mut self, ticket: Ticket, at: u64) -> Result<Reply, (BookFull, Ticket)>
        requires moment { at ≤ MOMENT_MAX }
        requires of_site { ticket.inverter < inverters self.old.site }
        ensures entered { IfOk result (λ reply. self.new ≡ entered self.old (back_of ticket at) reply) }
        ensures lives { IfOk result (λ reply. EachBefore self.old
            (λ before. GoesOn before self.old (back_of ticket at) reply self.new)) }
        ensures room { IsOk result ↔ (length self.old.entries < self.old.site.room) }
        ensures full { IfErr result (λ refused. (refused.0.calls ≡ length self.old.entries)
            × (refused.0.calls ≡ self.old.site.room) × (refused.1 ≡ ticket) × (self.new ≡ self.old)) }
        ensures kept { IsKept self.new }
        ensures sound { EachBook self.new IsSound }
    {
        let calls = self.calls();
        if calls >= self.site().room {
            return Err((BookFull { calls }, ticket));
        }
        let Write {
            inverter,
            link,
            number,
            ..
        } = ticket.spend();
        let back = Call::Back {
            at,
            inverter,
            link,
            number,
        };
        Ok(enter(&mut self.ledger, back))
    }

    /// Ends the book, hands it out, and goes on with an empty one of the same room that begins with what the life
    /// leaves. So a long life needn't end at a full book. After a refusal all is as before.
    pub fn roll(&mut self, alloc: Global) -> Result<Book, RollFault>
        ensures ended { IfOk result (λ ended. ended ≡ self.old) }

        // Of each life whose last book this was: the next book begins with what it leaves.
        ensures lives { OnOk result (EachBefore self.old (λ before. Rolls before self.old self.new)) }

        // Full exactly where the calls of the life and the room are together more than a life may have.
        ensures unfilled { OnOk result (¬ IsFullLife self.old) }
        ensures refused { IfErr result (λ fault.
            (IsFullLife self.old × (fault ≡ RollFault.LifeFull (calls_of self.old)))
            ⊎ ((¬ IsFullLife self.old) × (fault ≡ RollFault.NoMemory))) }
        ensures unchanged { OnErr result (self.new ≡ self.old) }
        ensures kept { IsKept self.new }
        ensures sound { EachBook self.new IsSound }
    {
        self.ledger.roll(alloc)
    }
}
