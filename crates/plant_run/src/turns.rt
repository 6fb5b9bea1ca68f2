//! The turns of one worker, through any desk.
ghost use Rattle.std.specs.Prelude.{◌≡◌, ◌<◌, ◌≤◌, ◌+◌, true, false, cond};
ghost use Rattle.inverter_worker.specs.declared.state.End.{End as Ending};
ghost use Rattle.ledger_desk.specs.Desk.{TestsLast};
ghost use Rattle.worker_turn.specs.Desks.{RollsNone};
ghost use Rattle.worker_turn.specs.Worker.{IsBetweenTurns};
ghost use Rattle.plant_run.specs.Works.{WorksOn};
ghost use Rattle.plant_run.specs.Running.{IsOver};
ghost use Rattle.plant_run.specs.Rounds.{turns_left};

use ledger_desk::Desk;
use worker_turn::{Turned, Worker};
use world_traits::{Clock, Dialer, Watch};

/// Gives a worker one turn after another until it is over. It may wait, as the desk, the dialer and the clock may.
pub fn run_out<D: Desk, N: Dialer, K: Clock>(
    worker: &mut Worker,
    desk: &mut D,
    dialer: &mut N,
    clock: &K,
)
    requires of_desk { worker.old.job.inverter < (D.state desk.old).inverters }
    requires rests { IsBetweenTurns worker.old.state.step }

    // What it did through the desk, to its end.
    ensures works { WorksOn (D.tests desk.new).may_tell (D.tests desk.new).was_full (K.may_give clock.now)
        worker.old.job (D.state desk.old).made (D.state desk.new).made worker.old worker.new
        (N.links dialer.old) (N.links dialer.new) (N.faults dialer.old) (N.faults dialer.new) }
    ensures over { IsOver worker.new }

    // It rolls no book, and what passed a test of the desk passes it later too.
    ensures stays { RollsNone (D.state desk.old) (D.state desk.new) }
    ensures last { TestsLast (D.tests desk.old) (D.tests desk.new) }
    ensures kept { D.kept desk.new ≡ D.kept desk.old }
{
    while one_turn(worker, desk, dialer, clock) {}
}

/// Gives a worker one turn, and tells whether it is ready for another.
pub(crate) fn one_turn<D: Desk, N: Dialer, K: Clock>(
    worker: &mut Worker,
    desk: &mut D,
    dialer: &mut N,
    clock: &K,
) -> bool
    requires of_desk { worker.old.job.inverter < (D.state desk.old).inverters }
    requires rests { IsBetweenTurns worker.old.state.step }
    ensures works { WorksOn (D.tests desk.new).may_tell (D.tests desk.new).was_full (K.may_give clock.now)
        worker.old.job (D.state desk.old).made (D.state desk.new).made worker.old worker.new
        (N.links dialer.old) (N.links dialer.new) (N.faults dialer.old) (N.faults dialer.new) }
    ensures rests { IsBetweenTurns worker.new.state.step }
    ensures stays { RollsNone (D.state desk.old) (D.state desk.new) }
    ensures last { TestsLast (D.tests desk.old) (D.tests desk.new) }
    ensures kept { D.kept desk.new ≡ D.kept desk.old }
    ensures over { result ≡ false → IsOver worker.new }
    ensures fewer { turns_left worker.new + cond result 1 0 ≤ turns_left worker.old }
{
    is_again(worker.turn(desk, dialer, &mut Watch::new(clock)))
}

/// Whether a worker is ready for another turn.
fn is_again(turned: Turned) -> bool
    ensures again { result ≡ true → turned ≡ Turned.Again }
    ensures over { result ≡ false → (end : Ending) × (turned ≡ Turned.Over end) }
{
    matches!(turned, Turned::Again)
}
