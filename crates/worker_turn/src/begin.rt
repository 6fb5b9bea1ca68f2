//! How a turn begins.
ghost use Rattle.std.specs.Prelude.{◌≡◌, ◌+◌, ◌≤◌, vec_len, vec_capacity, Some};
ghost use Rattle.inverter_worker.specs.declared.input.Input.{Input as Cause};
ghost use Rattle.inverter_worker.specs.Table.{table};
ghost use Rattle.worker_turn.specs.Worker.{IsBegin};
ghost use Rattle.worker_turn.specs.Acts.{Begins};

use inverter_worker::{Input, Job, Output, Sent, State, Step, worker_step};

/// How many requests a turn sends at most.
const SENT_MAX: usize = 2;

const _: () = prove!(SENT_MAX == 2);

/// The first output of a turn, with room for what it may send; or the end, with no room.
pub(crate) fn begin(job: &Job, state: State, log: &mut Vec<Sent>) -> (State, Output)
    requires base { job.now.port.base ≤ 65514 }
    requires ready { state.step ≡ Step.Ready }
    ensures items { log.new.items ≡ log.old.items }
    ensures room { result.1 ≡ Output.Goal → vec_len log.new + 2 ≤ vec_capacity log.new }
    ensures begins { Begins job.now result.0.step result.1 }
    ensures row { (came : Cause) × IsBegin came × (table job.now state came ≡ Some (result.0, result.1)) }
{
    let came = match log.try_reserve(SENT_MAX) {
        Ok(()) => Input::Go,
        Err(_) => Input::NoRoom,
    };
    worker_step(job, state, came)
}
