//! What is done with the ledger and with the clock.
ghost use Rattle.std.specs.Prelude.{◌≡◌, ◌<◌, ◌≤◌, Bool, Some, length};
ghost use Rattle.world_traits.specs.Clocks.{AreGiven, moment_max, readings_max};
ghost use Rattle.plant_ledger.specs.Opening.{ticket_for};
ghost use Rattle.worker_turn.specs.Doing.{World, IsDoneOn};
ghost use Rattle.ledger_desk.specs.Desk.{TestsLast};
ghost use Rattle.worker_turn.specs.Desks.{IsPlain, IsToldNow, RollsNone};
ghost use Rattle.worker_turn.specs.Acts.{IsOwnCall, ticket_after};

use inverter_worker::{Input, Job, Output};
use ledger_desk::Desk;
use plant_book::Call;
use plant_ledger::Ticket;
use world_traits::{Clock, Watch};

/// What came of an output, and the ticket that is in hand then.
#[derive(Drop)]
pub(crate) struct Came {
    pub(crate) input: Input,
    pub(crate) ticket: Option<Ticket>,
}

/// Asks the ledger for the goal.
pub(crate) fn ask_goal<D: Desk>(job: &Job, desk: &mut D) -> Input
    requires { job.now.inverter < (D.state desk.old).inverters }
    ensures done { (shares : Bool) (rest : World) → IsDoneOn shares job.now Output.Goal result
        (record rest { made = (D.state desk.old).made }) (record rest { made = (D.state desk.new).made }) }
    ensures told { IsToldNow (D.tests desk.new) job.now.inverter (D.state desk.new) result }
    ensures last { TestsLast (D.tests desk.old) (D.tests desk.new) }
    ensures stays { RollsNone (D.state desk.old) (D.state desk.new) }
    ensures kept { D.kept desk.new ≡ D.kept desk.old }
{
    Input::Goal(desk.goal(job.inverter))
}

/// Makes a call on the ledger.
pub(crate) fn make_call<D: Desk>(
    job: &Job,
    call: Call,
    ticket: Option<Ticket>,
    desk: &mut D,
) -> Came
    requires of_desk { job.now.inverter < (D.state desk.old).inverters }
    requires own { IsOwnCall job.now call }
    ensures done { (shares : Bool) (rest : World) → IsDoneOn shares job.now (Output.Call call) result.input
        (record rest { made = (D.state desk.old).made }) (record rest { made = (D.state desk.new).made }) }
    ensures told { IsToldNow (D.tests desk.new) job.now.inverter (D.state desk.new) result.input }
    ensures last { TestsLast (D.tests desk.old) (D.tests desk.new) }
    ensures stays { RollsNone (D.state desk.old) (D.state desk.new) }
    ensures kept { D.kept desk.new ≡ D.kept desk.old }
    ensures ticket { result.ticket ≡ ticket_after (Output.Call call) result.input ticket }
{
    match desk.call(call) {
        Ok(outcome) => Came {
            input: Input::Reply(outcome.reply),
            ticket: outcome.ticket,
        },
        Err(_) => Came {
            input: Input::Full,
            ticket,
        },
    }
}

/// Gives back a write that wasn't sent, at this moment in ms.
pub(crate) fn give_back<D: Desk>(job: &Job, ticket: Ticket, at: u64, desk: &mut D) -> Input
    requires of_desk { job.now.inverter < (D.state desk.old).inverters }
    requires own { ticket.inverter ≡ job.now.inverter }
    requires moment { at ≤ moment_max }
    ensures done { (shares : Bool) (rest : World) → IsDoneOn shares job.now (Output.Release ticket at) result
        (record rest { made = (D.state desk.old).made }) (record rest { made = (D.state desk.new).made }) }
    ensures told { IsToldNow (D.tests desk.new) job.now.inverter (D.state desk.new) result }
    ensures last { TestsLast (D.tests desk.old) (D.tests desk.new) }
    ensures stays { RollsNone (D.state desk.old) (D.state desk.new) }
    ensures kept { D.kept desk.new ≡ D.kept desk.old }
{
    match desk.release(ticket, at) {
        Ok(reply) => Input::Reply(reply),
        Err(_) => Input::Full,
    }
}

/// Reads the clock.
pub(crate) fn read_clock<K: Clock>(job: &Job, watch: &mut Watch<'_, K>) -> Input
    requires { length watch.old.readings < readings_max }
    ensures done { (shares : Bool) (rest : World) → IsDoneOn shares job.now Output.Now result
        (record rest { readings = watch.old.readings }) (record rest { readings = watch.new.readings }) }
    ensures plain { IsPlain result }
    ensures given { AreGiven (K.may_give watch.old.clock) watch.old.readings
        → AreGiven (K.may_give watch.old.clock) watch.new.readings }
    ensures clock { watch.new.clock ≡ watch.old.clock }
{
    Input::Time(watch.now())
}
