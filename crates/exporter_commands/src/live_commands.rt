ghost use Rattle.std.specs.Prelude.{◌≡◌, ◌↔◌, ℕ, List, drop, length, map};
ghost use Rattle.std.specs.String.{string_bytes};
ghost use Rattle.stream_io.specs.Streams.{change};
ghost use Rattle.command_link.specs.Dialing.{dialing, first_dialing};
ghost use Rattle.commission_command.specs.Commission.{IsCommissionDue, IsCommissionEnd};
ghost use Rattle.serve_command.specs.Serve.{IsServeDue, IsServeEnd};
ghost use Rattle.run_command.specs.Run.{IsRunDue, IsRunEnd};
ghost use Rattle.exporter_commands.specs.Words.{AreRun, Ask};
ghost use Rattle.exporter_commands.specs.Live.{IsSilent, IsTaskDue, IsTaskEnd};

use crate::words::{Task, task_of, turns_of_run};
use command_io::Ended;
use commission_command::commission;
use run_command::run;
use serve_command::serve;
use std::alloc::Global;
use std::sync::Wait;
use std::thread::Threads;
use world_traits::{Clock, Dialer, Sink, Source};

/// Does a task with one dialer.
fn run_task<S: Source, O: Sink, N: Dialer, K: Clock>(
    alloc: Global,
    task: Task,
    site: &mut S,
    out: &mut O,
    dialer: &mut N,
    clock: &K,
) -> Ended
    ensures ends { (read : List ℕ) × IsTaskEnd (K.may_give clock.now) task read
        (change S.left S.faults site.old site.new)
        (change O.taken O.faults out.old out.new) (dialing N.links N.faults dialer.old dialer.new) result }
    ensures due { IsTaskDue task (change S.left S.faults site.old site.new) (change O.taken O.faults out.old out.new)
        (dialing N.links N.faults dialer.old dialer.new) result }
    ensures silent { IsSilent task → out.new ≡ out.old }
    ensures stops { O.faults out.old ≡ 0 → O.late out.new ≡ O.late out.old }
{
    match task {
        Task::Commission { inverter } => commission(alloc, inverter, site, out, dialer),
        Task::Serve { inverter, turns } => serve(alloc, inverter, turns, site, dialer, clock),
    }
}

/// Does a task with the first of the dialers.
fn run_with_first<S: Source, O: Sink, N: Dialer, K: Clock>(
    alloc: Global,
    task: Task,
    site: &mut S,
    out: &mut O,
    dialers: &mut Vec<N>,
    clock: &K,
) -> Ended
    requires { length dialers.old.items ≡ 64 }
    ensures ends { (read : List ℕ) × IsTaskEnd (K.may_give clock.now) task read
        (change S.left S.faults site.old site.new)
        (change O.taken O.faults out.old out.new) (first_dialing N.links N.faults dialers.old.items dialers.new.items) result }
    ensures due { IsTaskDue task (change S.left S.faults site.old site.new) (change O.taken O.faults out.old out.new)
        (first_dialing N.links N.faults dialers.old.items dialers.new.items) result }
    ensures silent { IsSilent task → out.new ≡ out.old }
    ensures stops { O.faults out.old ≡ 0 → O.late out.new ≡ O.late out.old }
    ensures other_dialers { drop 1 dialers.new.items ≡ drop 1 dialers.old.items }
    ensures as_many { length dialers.new.items ≡ 64 }
{
    run_task(alloc, task, site, out, &mut dialers[0], clock)
}

/// Does over links what the words of the command line ask for; each task reads the site file first. `run T` runs the
/// plant: a worker of so many turns keeps the limit of each inverter over the dialer of its number, and the console
/// follows an operator's orders, each in a thread of its own. What the console tells is written at once, and when all
/// are over the text of the book and how each worker ended. `commission I` commissions the inverter of this number over
/// the first dialer, and `serve I T` serves a simulation of it in so many turns. It may wait, as the dialers, the clock
/// and the console may.
pub fn live<
    R: Threads + Wait + Sync,
    S: Source,
    C: Source + Send,
    O: Sink + Send,
    N: Dialer + Send,
    K: Clock + Sync,
>(
    rt: &R,
    alloc: Global,
    words: &Vec<String>,
    site: &mut S,
    console: &mut C,
    out: &mut O,
    dialers: &mut Vec<N>,
    clock: &K,
) -> Ended
    requires { length dialers.old.items ≡ 64 }

    // The words are at fault exactly where they ask for nothing; then nothing is done.
    ensures bad_words { result ≡ Ended.BadWords
        ↔ ((task : Task) → Ask (map string_bytes words.now.items) task → ⊥)
        × ((turns : ℕ) → AreRun (map string_bytes words.now.items) turns → ⊥) }
    ensures untouched { result ≡ Ended.BadWords
        → (site.new ≡ site.old) × (out.new ≡ out.old) × (dialers.new.items ≡ dialers.old.items) }
    ensures console { ((turns : ℕ) → AreRun (map string_bytes words.now.items) turns → ⊥)
        → console.new ≡ console.old }
    ensures other_dialers { ((turns : ℕ) → AreRun (map string_bytes words.now.items) turns → ⊥)
        → drop 1 dialers.new.items ≡ drop 1 dialers.old.items }
    ensures as_many { length dialers.new.items ≡ 64 }

    // After a write that failed nothing more is written.
    ensures stops { O.faults out.old ≡ 0 → O.late out.new ≡ O.late out.old }

    // Of each command: what its end says of the bytes that were read, of the output and of the links, and which end
    // comes.
    ensures run { (turns : ℕ) → AreRun (map string_bytes words.now.items) turns
        → (read : List ℕ) × IsRunEnd N.links N.faults (K.may_give clock.now) turns read
        (change S.left S.faults site.old site.new) (change C.left C.faults console.old console.new)
        (change O.taken O.faults out.old out.new) dialers.old.items dialers.new.items result }
    ensures run_due { (turns : ℕ) → AreRun (map string_bytes words.now.items) turns
        → IsRunDue result (change S.left S.faults site.old site.new)
        (change C.left C.faults console.old console.new) (change O.taken O.faults out.old out.new) }
    ensures commission { (inverter : ℕ) → Ask (map string_bytes words.now.items) (Task.Commission inverter)
        → (read : List ℕ) × IsCommissionEnd inverter read (change S.left S.faults site.old site.new)
        (change O.taken O.faults out.old out.new) (first_dialing N.links N.faults dialers.old.items dialers.new.items) result }
    ensures commission_due { (inverter : ℕ) → Ask (map string_bytes words.now.items) (Task.Commission inverter)
        → IsCommissionDue inverter (change S.left S.faults site.old site.new) (change O.taken O.faults out.old out.new)
        (first_dialing N.links N.faults dialers.old.items dialers.new.items) result }
    ensures serve { (inverter turns : ℕ) → Ask (map string_bytes words.now.items) (Task.Serve inverter turns)
        → (read : List ℕ) × IsServeEnd (K.may_give clock.now) inverter turns read
        (change S.left S.faults site.old site.new) (first_dialing N.links N.faults dialers.old.items dialers.new.items) result }
    ensures serve_due { (inverter turns : ℕ) → Ask (map string_bytes words.now.items) (Task.Serve inverter turns)
        → IsServeDue inverter result (change S.left S.faults site.old site.new) }
    ensures serve_writes_nothing { (inverter turns : ℕ) → Ask (map string_bytes words.now.items)
        (Task.Serve inverter turns)
        → out.new ≡ out.old }
{
    match task_of(words) {
        Some(task) => run_with_first(alloc, task, site, out, dialers, clock),
        None => match turns_of_run(words) {
            Some(turns) => run(rt, alloc, turns, site, console, out, dialers, clock),
            None => Ended::BadWords,
        },
    }
}
