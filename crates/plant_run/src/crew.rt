//! Workers in threads of their own.
ghost use Rattle.std.specs.Prelude.{◌≡◌, ◌<◌, ◌≤◌, length};
ghost use denote.Param.Send.{IsSend, IsSync};
ghost use Rattle.plant_run.specs.Forked.{AllRunOut, EachReady};

use crate::turns::run_out;
use ledger_desk::Desk;
use std::thread::{Threads, join_mut};
use worker_turn::Worker;
use world_traits::{Clock, Dialer};

/// Gives each worker its turns to its end, each in a thread of its own where one can be made. The worker at a place uses
/// the desk and the dialer at that place. They are halved again and again, and one half goes to a new thread.
#[cycle(halves)]
pub(crate) fn work_apart<R: Threads + Sync, D: Desk + Send, N: Dialer + Send, K: Clock + Sync>(
    rt: &R,
    clock: &K,
    workers: &mut [Worker],
    desks: &mut [D],
    dialers: &mut [N],
)
    requires desks { length desks.old ≡ length workers.old }
    requires dialers { length dialers.old ≡ length workers.old }
    requires ready { EachReady D.state workers.old desks.old }
    ensures { AllRunOut D.state D.tests D.kept N.links N.faults (K.may_give clock.now) workers.old workers.new
        desks.old desks.new dialers.old dialers.new }
{
    if workers.len() < 2 {
        return work_alone(clock, workers, desks, dialers);
    }
    let half = workers.len() / 2;
    let (low, high) = workers.split_at_mut(half);
    let (low_desks, high_desks) = desks.split_at_mut(half);
    let (low_dialers, high_dialers) = dialers.split_at_mut(half);
    work_in_halves(
        rt,
        clock,
        low,
        low_desks,
        low_dialers,
        high,
        high_desks,
        high_dialers,
    );
}

/// Gives both halves of the workers their turns, side by side.
#[cycle(halves)]
fn work_in_halves<R: Threads + Sync, D: Desk + Send, N: Dialer + Send, K: Clock + Sync>(
    rt: &R,
    clock: &K,
    low: &mut [Worker],
    low_desks: &mut [D],
    low_dialers: &mut [N],
    high: &mut [Worker],
    high_desks: &mut [D],
    high_dialers: &mut [N],
)
    requires some { (0 < length low.old) × (0 < length high.old) }
    requires low_desks { length low_desks.old ≡ length low.old }
    requires low_dialers { length low_dialers.old ≡ length low.old }
    requires low_ready { EachReady D.state low.old low_desks.old }
    requires high_desks { length high_desks.old ≡ length high.old }
    requires high_dialers { length high_dialers.old ≡ length high.old }
    requires high_ready { EachReady D.state high.old high_desks.old }
    ensures low { AllRunOut D.state D.tests D.kept N.links N.faults (K.may_give clock.now) low.old low.new
        low_desks.old low_desks.new low_dialers.old low_dialers.new }
    ensures high { AllRunOut D.state D.tests D.kept N.links N.faults (K.may_give clock.now) high.old high.new
        high_desks.old high_desks.new high_dialers.old high_dialers.new }
{
    let mut first = ||
        requires { IsSync R.row × IsSync K.row × IsSend D.row × IsSend N.row
            × (length low_desks.now ≡ length low.now) × (length low_dialers.now ≡ length low.now)
            × EachReady D.state low.now low_desks.now }
        ensures { AllRunOut D.state D.tests D.kept N.links N.faults
            (K.may_give clock.entry.now) low.entry.now low.exit.now
            low_desks.entry.now low_desks.exit.now low_dialers.entry.now low_dialers.exit.now }
    { work_apart(rt, clock, low, low_desks, low_dialers) };
    let mut second = ||
        requires { IsSync R.row × IsSync K.row × IsSend D.row × IsSend N.row
            × (length high_desks.now ≡ length high.now) × (length high_dialers.now ≡ length high.now)
            × EachReady D.state high.now high_desks.now }
        ensures { AllRunOut D.state D.tests D.kept N.links N.faults
            (K.may_give clock.entry.now) high.entry.now high.exit.now
            high_desks.entry.now high_desks.exit.now high_dialers.entry.now high_dialers.exit.now }
    { work_apart(rt, clock, high, high_desks, high_dialers) };
    join_mut(rt, &mut first, &mut second);
}

/// Gives the one worker, if there is one, its turns to its end.
fn work_alone<D: Desk, N: Dialer, K: Clock>(
    clock: &K,
    workers: &mut [Worker],
    desks: &mut [D],
    dialers: &mut [N],
)
    requires few { length workers.old < 2 }
    requires desks { length desks.old ≡ length workers.old }
    requires dialers { length dialers.old ≡ length workers.old }
    requires ready { EachReady D.state workers.old desks.old }
    ensures { AllRunOut D.state D.tests D.kept N.links N.faults (K.may_give clock.now) workers.old workers.new
        desks.old desks.new dialers.old dialers.new }
{
    if !workers.is_empty() {
        run_out(&mut workers[0], &mut desks[0], &mut dialers[0], clock);
    }
}
