ghost use Rattle.std.specs.Prelude.{◌≡◌, ℕ, ◌<◌, ◌≤◌, length, IfOk, IfErr, IfSome, OnErr};
ghost use Rattle.plant_book.specs.Calls.{moment, named};
ghost use Rattle.plant_book.specs.Answered.{IsInRange};
ghost use Rattle.plant_ledger.specs.declared.rolling.RollFault.{RollFault as Refused};
ghost use Rattle.plant_ledger.specs.Opening.{ticket_for};
ghost use Rattle.plant_ledger.specs.Release.{back_of};
ghost use Rattle.ledger_desk.specs.Calls.{IsBack};
ghost use Rattle.ledger_desk.specs.Desk.{DeskState, DeskTests, TestsLast, EntersNone, Enters, AddsRoll, RefusesRoll};

use plant_book::{Book, Call, MOMENT_MAX, Reply};
use plant_ledger::{BookFull, Goal, Outcome, RollFault, Ticket};
use std::alloc::Global;

/// A way to the ledger. Whoever works through a desk gives back only a write whose ticket it still holds: `call` takes
/// no Back, and `release` uses the ticket up.
///
/// Each call may wait for its turn, and none is handed the runtime: a desk that waits holds what it waits by.
pub trait Desk {
    /// The entries that were made through the desk, its front, its inverters and its rolls.
    ghost state: { Self → DeskState };

    /// Which goals it may have told, whether a book of the life was full, which books its rolls ended, and whether the
    /// life was full.
    ghost tests: { Self → DeskTests };

    /// What of it no call changes: which desk of which life it is.
    ghost Kept: { Type 0 };

    ghost kept: { Self → Self.Kept };

    /// How many calls each book of the life has room for.
    ghost room_of: { Self.Kept → ℕ };

    /// Enters a call and answers it.
    fn call(&mut self, call: Call) -> Result<Outcome, BookFull>
        requires no_back { ¬ IsBack call }
        requires moment { moment call ≤ MOMENT_MAX }
        requires of_desk { IfSome (named call) (λ inverter. inverter < (state self.old).inverters) }
        requires in_range { IsInRange call }
        ensures entered { IfOk result (λ outcome. Enters call outcome.reply (state self.old) (state self.new)) }
        ensures ticket { IfOk result (λ outcome. outcome.ticket ≡ ticket_for outcome.reply) }
        ensures none { OnErr result (EntersNone (state self.old) (state self.new)) }
        ensures full { OnErr result (tests self.new).was_full }
        ensures room { IfErr result (λ full. full.calls ≡ room_of (kept self.new)) }
        ensures last { TestsLast (tests self.old) (tests self.new) }
        ensures kept { kept self.new ≡ kept self.old }
        ensures few { (state self.new).inverters ≤ 64 };

    /// Gives back a write that was not sent and never will be. The ticket is used up, at a full book too.
    fn release(&mut self, ticket: Ticket, at: u64) -> Result<Reply, BookFull>
        requires moment { at ≤ MOMENT_MAX }
        requires of_desk { ticket.inverter < (state self.old).inverters }
        ensures entered { IfOk result (λ reply. Enters (back_of ticket at) reply (state self.old) (state self.new)) }
        ensures none { OnErr result (EntersNone (state self.old) (state self.new)) }
        ensures full { OnErr result (tests self.new).was_full }
        ensures room { IfErr result (λ full. full.calls ≡ room_of (kept self.new)) }
        ensures last { TestsLast (tests self.old) (tests self.new) }
        ensures kept { kept self.new ≡ kept self.old }
        ensures few { (state self.new).inverters ≤ 64 };

    /// What the inverter may aim at.
    fn goal(&mut self, inverter: u8) -> Goal
        requires { inverter < (state self.old).inverters }
        ensures none { EntersNone (state self.old) (state self.new) }
        ensures told { (tests self.new).may_tell (length (state self.new).made) (state self.new).front inverter result }
        ensures last { TestsLast (tests self.old) (tests self.new) }
        ensures kept { kept self.new ≡ kept self.old }
        ensures few { (state self.new).inverters ≤ 64 };

    /// Ends the book, hands it out, and goes on with an empty one. After a refusal the book is as before. A life that
    /// has no room for one more book is refused as full, with its calls, before memory is asked for.
    fn roll(&mut self, alloc: Global) -> Result<Book, RollFault>
        ensures rolled { IfOk result (λ book. AddsRoll (state self.old) (state self.new)) }
        ensures ended { IfOk result (λ book. (tests self.new).ended (length (state self.new).rolls) book) }
        ensures none { OnErr result (EntersNone (state self.old) (state self.new)) }
        ensures refused { IfErr result
            (λ fault. RefusesRoll (state self.new).front (room_of (kept self.new)) fault) }
        ensures full_life { (calls : ℕ) → IfErr result (λ fault. fault ≡ RollFault.LifeFull calls
            → (tests self.new).was_full_life calls) }
        ensures last { TestsLast (tests self.old) (tests self.new) }
        ensures kept { kept self.new ≡ kept self.old }
        ensures few { (state self.new).inverters ≤ 64 };
}
