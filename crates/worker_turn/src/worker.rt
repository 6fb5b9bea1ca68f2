ghost use Rattle.std.specs.Prelude.{◌≡◌, ◌<◌, ◌≤◌, [], length, MatchOption};
ghost use Rattle.inverter_worker.specs.declared.state.End.{End as Ending};

use crate::line::OwnLine;
use crate::turning::take_turn;
use frame_inbox::Inbox;
use inverter_worker::{End, Job, Sent, State, Step};
use ledger_desk::Desk;
use std::alloc::Global;
use std::marker::Model;
use world_traits::{Clock, Dialer, Watch};

/// What a turn came to.
#[derive(Clone, Copy, Debug, PartialEq, Eq)]
pub enum Turned {
    /// The worker is ready for another turn.
    Again,
    /// The worker is over.
    Over(End),
}

impl Turned {
    ghost use Rattle.worker_turn.specs.Worker.{Answers, IsBetweenTurns};

    /// Where a worker stands between two turns, as an answer.
    pub fn at(step: Step) -> Turned
        requires { IsBetweenTurns step }
        ensures { Answers result step }
    {
        match step {
            Step::Over(end) => Turned::Over(end),
            _ => Turned::Again,
        }
    }
}

/// The work of one inverter between its turns.
#[derive(Debug, Drop)]
pub struct Worker {
    job: Job,
    state: State,
    log: Vec<Sent>,
    inbox: Inbox,
}

impl Model for Worker {
    ghost use Rattle.std.specs.Prelude.{◌≤◌};
    ghost use Rattle.worker_turn.specs.Worker.{WorkerRecord, IsBetweenTurns};

    ghost Value = { WorkerRecord };

    ghost view = { λ w. record { job = w.job; state = w.state; log = w.log.items; unread = w.inbox } };

    ghost invariant = { λ w. (w.job.port.base ≤ 65514) × IsBetweenTurns w.state.step };
}

impl Worker {
    ghost use Rattle.world_traits.specs.Clocks.{AreGiven};
    ghost use Rattle.worker_turn.specs.Doing.{world_of};
    ghost use Rattle.ledger_desk.specs.Desk.{TestsLast};
    ghost use Rattle.worker_turn.specs.Desks.{RollsNone};
    ghost use Rattle.worker_turn.specs.Worker.{Answers, IsTurn, new_worker};

    /// A worker with so many turns, and no link.
    pub fn new(alloc: Global, job: Job, turns: u32) -> Worker
        requires { job.port.base ≤ 65514 }
        ensures { result ≡ new_worker job turns }
    {
        let state = State {
            step: Step::Ready,
            up: false,
            last: None,
            turns,
            skipped: 0,
        };
        Worker {
            job,
            state,
            log: Vec::new(alloc),
            inbox: Inbox::new(),
        }
    }

    /// The requests that were sent so far, in order, each with the reading of the clock before it.
    pub fn log(&self) -> &[Sent]
        ensures { result.now ≡ self.now.log }
    {
        &self.log
    }

    /// How the worker is over, or nothing while it is ready for a turn.
    pub fn end(&self) -> Option<End>
        ensures { MatchOption result (self.now.state.step ≡ Step.Ready)
            (λ end. self.now.state.step ≡ Step.Over end) }
    {
        match self.state.step {
            Step::Over(end) => Some(end),
            _ => None,
        }
    }

    /// One turn: aims at the goal that the desk tells, asks for a limit or reads it back over the link that the dialer
    /// makes, and rests. It takes its room first: two entries of the log. It may wait, as the desk, the dialer and the
    /// clock may. A worker that is over does nothing.
    pub fn turn<D: Desk, N: Dialer, K: Clock>(
        &mut self,
        desk: &mut D,
        dialer: &mut N,
        watch: &mut Watch<'_, K>,
    ) -> Turned
        requires of_desk { self.old.job.inverter < (D.state desk.old).inverters }
        requires readings { watch.old.readings ≡ [] }

        // What it answers is where the worker stands then.
        ensures answer { Answers result self.new.state.step }
        ensures job { self.new.job ≡ self.old.job }

        // A worker that is ready makes a turn.
        ensures turn { self.old.state.step ≡ Step.Ready
            → IsTurn (D.tests desk.new) (D.state desk.old).front (D.state desk.new).front self.old self.new
            (world_of (D.state desk.old).made (N.links dialer.old) (N.faults dialer.old) watch.old.readings
            self.old.unread)
            (world_of (D.state desk.new).made (N.links dialer.new) (N.faults dialer.new) watch.new.readings
            self.new.unread) }
        ensures few { length watch.new.readings ≤ 6 }
        ensures given { AreGiven (K.may_give watch.old.clock) watch.new.readings }

        // Where it found no memory it did nothing else.
        ensures memory { self.new.state.step ≡ Step.Over End.NoMemory → (self.new.log ≡ self.old.log)
            × (world_of (D.state desk.new).made (N.links dialer.new) (N.faults dialer.new) watch.new.readings
            self.new.unread
            ≡ world_of (D.state desk.old).made (N.links dialer.old) (N.faults dialer.old) watch.old.readings
            self.old.unread) }

        // One that is over does nothing.
        ensures over { (end : Ending) → self.old.state.step ≡ Step.Over end → (self.new ≡ self.old)
            × (world_of (D.state desk.new).made (N.links dialer.new) (N.faults dialer.new) watch.new.readings
            self.new.unread
            ≡ world_of (D.state desk.old).made (N.links dialer.old) (N.faults dialer.old) watch.old.readings
            self.old.unread) }

        // A worker that is ready again has fewer turns left.
        ensures fewer { result ≡ Turned.Again → self.new.state.turns < self.old.state.turns }

        // It rolls no book, and what passed a test of the desk passes it later too.
        ensures stays { RollsNone (D.state desk.old) (D.state desk.new) }
        ensures last { TestsLast (D.tests desk.old) (D.tests desk.new) }
        ensures kept { D.kept desk.new ≡ D.kept desk.old }
        ensures clock { watch.new.clock ≡ watch.old.clock }
    {
        if let Step::Over(end) = self.state.step {
            return Turned::Over(end);
        }
        let mut line = OwnLine {
            dialer,
            inbox: &mut self.inbox,
        };
        let (job, log) = (&self.job, &mut self.log);
        let state = take_turn(job, self.state, log, desk, &mut line, watch);
        self.state = state;
        Turned::at(state.step)
    }
}
