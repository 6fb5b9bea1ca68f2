//! A turn over a line: how it begins, and then one output after another.
ghost use Rattle.std.specs.Prelude.{◌≡◌, ◌<◌, ◌≤◌, ◌+◌, ◌++◌, ℕ, [], length, vec_len, vec_capacity, Some};
ghost use Rattle.world_traits.specs.Clocks.{AreGiven};
ghost use Rattle.inverter_worker.specs.declared.state.State.{State as Record};
ghost use Rattle.inverter_worker.specs.declared.input.Input.{Input as Cause};
ghost use Rattle.inverter_worker.specs.declared.output.Output.TheVariants.{Send};
ghost use Rattle.inverter_worker.specs.declared.output.Asked.{Asked as Request};
ghost use Rattle.inverter_worker.specs.Table.{HasRow, table};
ghost use Rattle.inverter_worker.specs.Runs.{sends_of};
ghost use Rattle.worker_turn.specs.Doing.{world_of};
ghost use Rattle.ledger_desk.specs.Desk.{TestsLast};
ghost use Rattle.worker_turn.specs.Desks.{RollsNone};
ghost use Rattle.worker_turn.specs.Acts.{Begins, is_last};
ghost use Rattle.worker_turn.specs.Turning.{GoesOn};
ghost use Rattle.worker_turn.specs.Worker.{IsBetweenTurns, IsTurnOn};

use crate::begin::begin;
use crate::line::Line;
use crate::perform::perform;
use inverter_worker::{End, Input, Job, Output, Sent, State, Step, worker_step};
use ledger_desk::Desk;
use world_traits::{Clock, Watch};

/// One turn of a job over a line, from `Ready` to where the next turn begins, or to the end. It takes its room first: two
/// entries of the log, to which it adds the requests that it sends, each with the reading of the clock before it, in ms.
/// It may wait, as the desk, the line and the clock may.
pub fn take_turn<D: Desk, L: Line, K: Clock>(
    job: &Job,
    state: State,
    log: &mut Vec<Sent>,
    desk: &mut D,
    line: &mut L,
    watch: &mut Watch<'_, K>,
) -> State
    requires base { job.now.port.base ≤ 65514 }
    requires of_desk { job.now.inverter < (D.state desk.old).inverters }
    requires ready { state.step ≡ Step.Ready }
    requires readings { watch.old.readings ≡ [] }

    // It makes a turn, and is ready for another then, or over.
    ensures between { IsBetweenTurns result.step }
    ensures turn { IsTurnOn L.shares (D.tests desk.new) (D.state desk.old).front (D.state desk.new).front
        (record { job = job.now; state = state; log = log.old.items; unread = L.unread line.old })
        (record { job = job.now; state = result; log = log.new.items; unread = L.unread line.new })
        (world_of (D.state desk.old).made (L.links line.old) (L.faults line.old) watch.old.readings
        (L.unread line.old))
        (world_of (D.state desk.new).made (L.links line.new) (L.faults line.new) watch.new.readings
        (L.unread line.new)) }
    ensures few { length watch.new.readings ≤ 6 }
    ensures given { AreGiven (K.may_give watch.old.clock) watch.new.readings }

    // Where it found no memory it did nothing else.
    ensures memory { result.step ≡ Step.Over End.NoMemory → (log.new.items ≡ log.old.items)
        × (world_of (D.state desk.new).made (L.links line.new) (L.faults line.new) watch.new.readings
        (L.unread line.new)
        ≡ world_of (D.state desk.old).made (L.links line.old) (L.faults line.old) watch.old.readings
        (L.unread line.old)) }

    // Where it is ready again it has fewer turns left.
    ensures fewer { result.step ≡ Step.Ready → result.turns < state.turns }

    // It rolls no book, and what passed a test of the desk passes it later too.
    ensures stays { RollsNone (D.state desk.old) (D.state desk.new) }
    ensures last { TestsLast (D.tests desk.old) (D.tests desk.new) }
    ensures kept { D.kept desk.new ≡ D.kept desk.old }
    ensures line { L.kept line.new ≡ L.kept line.old }
    ensures clock { watch.new.clock ≡ watch.old.clock }
{
    let begun = begin(job, state, log);
    go_on(job, begun, log, desk, line, watch)
}

/// Does an output and all that follow it in the turn, and answers where the worker stands then.
fn go_on<D: Desk, L: Line, K: Clock>(
    job: &Job,
    begun: (State, Output),
    log: &mut Vec<Sent>,
    desk: &mut D,
    line: &mut L,
    watch: &mut Watch<'_, K>,
) -> State
    requires base { job.now.port.base ≤ 65514 }
    requires of_desk { job.now.inverter < (D.state desk.old).inverters }
    requires begun { Begins job.now begun.0.step begun.1 }
    requires reached { (from : Record) × (came : Cause)
        × (table job.now from came ≡ Some (begun.0, begun.1)) }
    requires room { begun.1 ≡ Output.Goal → vec_len log.old + 2 ≤ vec_capacity log.old }
    requires readings { watch.old.readings ≡ [] }
    ensures turn { GoesOn L.shares (D.tests desk.new) (D.state desk.old).front (D.state desk.new).front
        job.now begun.0 begun.1 result
        log.old.items log.new.items
        (world_of (D.state desk.old).made (L.links line.old) (L.faults line.old) watch.old.readings
        (L.unread line.old))
        (world_of (D.state desk.new).made (L.links line.new) (L.faults line.new) watch.new.readings
        (L.unread line.new)) }
    ensures last { TestsLast (D.tests desk.old) (D.tests desk.new) }
    ensures stays { RollsNone (D.state desk.old) (D.state desk.new) }
    ensures kept { D.kept desk.new ≡ D.kept desk.old }
    ensures line { L.kept line.new ≡ L.kept line.old }
    ensures given { AreGiven (K.may_give watch.old.clock) watch.new.readings }
    ensures clock { watch.new.clock ≡ watch.old.clock }
{
    let (mut state, mut output) = begun;
    let mut ticket = None;
    while !is_last(&output) {
        let came = perform(job, output, ticket, desk, line, watch);
        ticket = came.ticket;
        (state, output) = next(job, state, came.input, log);
    }
    state
}

/// Whether an output is nothing to be done.
fn is_last(output: &Output) -> bool
    ensures { result ≡ is_last output.now }
{
    matches!(output, Output::End | Output::Nothing)
}

/// What follows on an input. A request that is to be sent is noted.
fn next(job: &Job, state: State, came: Input, log: &mut Vec<Sent>) -> (State, Output)
    requires base { job.now.port.base ≤ 65514 }
    requires row { HasRow job.now state came }
    requires room { (next : Record) (request : Request) (clock : ℕ)
        → table job.now state came ≡ Some (next, Send request clock)
        → vec_len log.old < vec_capacity log.old }
    ensures row { table job.now state came ≡ Some result }
    ensures noted { log.new.items ≡ log.old.items ++ sends_of result.1 }
    ensures len { vec_len log.new ≡ vec_len log.old + length (sends_of result.1) }
    ensures capacity { vec_capacity log.old ≤ vec_capacity log.new }
{
    let (next, output) = worker_step(job, state, came);
    if let Output::Send(request, clock) = output
        && log.push(Sent { request, clock }).is_err()
    {
        unreachable!()
    }
    (next, output)
}
