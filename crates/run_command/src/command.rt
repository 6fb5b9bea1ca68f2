ghost use Rattle.std.specs.Prelude.{◌≡◌, ◌≤◌, ℕ, List, false, length};
ghost use Rattle.stream_io.specs.Streams.{change};
ghost use Rattle.site_run.specs.Report.{wrote_whole};
ghost use Rattle.run_command.specs.Run.{IsRunDue, IsRunEnd, IsTold, end_of};

use command_io::{Ended, read_site};
use site_run::{Finish, Ran, finish_of, run_site, run_text, wrote_whole};
use std::alloc::Global;
use std::sync::Wait;
use std::thread::Threads;
use stream_io::write_whole;
use world_traits::{Clock, Dialer, Sink, Source};

/// How the command ends, by how the run finished and whether all of its text was written.
fn end(finish: Finish, written: bool) -> Ended
    ensures { result ≡ end_of finish written }
{
    match finish {
        Finish::NoMemory => Ended::NoMemory,
        Finish::WriteFault => Ended::WriteFault,
        _ if !written => Ended::WriteFault,
        Finish::ReadFault => Ended::ReadFault,
        Finish::BookFull { calls } => Ended::BookFull { calls },
        Finish::Done => Ended::Done,
    }
}

/// Writes the text of a run behind what its console wrote, and tells how the command ends. Where the console had not
/// written its last text whole, nothing is written behind it.
fn tell<O: Sink>(alloc: Global, ran: &Ran, out: &mut O) -> Ended
    ensures told { IsTold ran.now.plant ran.now.workers.items ran.now.console
        (change O.taken O.faults out.old out.new) result }
    ensures broken_off { wrote_whole ran.now.console ≡ false → out.new ≡ out.old }
    ensures stops { O.faults out.old ≡ 0 → O.late out.new ≡ O.late out.old }
{
    let finish = finish_of(ran);
    if !wrote_whole(ran.console) {
        return end(finish, true);
    }
    let Ok(text) = run_text(alloc, ran) else {
        return Ended::NoMemory;
    };
    let written = write_whole(out, &text).is_ok();
    end(finish, written)
}

/// Reads the site file to its end, runs its plant over these dialers with this console, and writes the text of the run.
fn run_plant<
    R: Threads + Wait + Sync,
    S: Source,
    C: Source + Send,
    O: Sink + Send,
    N: Dialer + Send,
    K: Clock + Sync,
>(
    rt: &R,
    alloc: Global,
    turns: u32,
    site: &mut S,
    console: &mut C,
    out: &mut O,
    dialers: &mut Vec<N>,
    clock: &K,
) -> Ended
    requires { length dialers.old.items ≡ 64 }
    ensures ends { (read : List ℕ) × IsRunEnd N.links N.faults (K.may_give clock.now) turns read
        (change S.left S.faults site.old site.new) (change C.left C.faults console.old console.new)
        (change O.taken O.faults out.old out.new) dialers.old.items dialers.new.items result }
    ensures stops { O.faults out.old ≡ 0 → O.late out.new ≡ O.late out.old }
{
    let file = match read_site(alloc, site) {
        Ok(file) => file,
        Err(ended) => return ended,
    };
    let Ok(ran) = run_site(rt, alloc, file, turns, dialers, clock, console, out) else {
        return Ended::NoMemory;
    };
    tell(alloc, &ran, out)
}

/// Reads the site file to its end, and runs its plant: one life with a worker of so many turns for each inverter, which
/// uses the dialer of the inverter's number, and a console that follows an operator's orders, each in a thread of its
/// own. The output takes what the console tells and each book that it ends; behind that, once all are over, the text of
/// the last book and how each worker ended. It may wait, as the dialers, the clock and the console may.
pub fn run<
    R: Threads + Wait + Sync,
    S: Source,
    C: Source + Send,
    O: Sink + Send,
    N: Dialer + Send,
    K: Clock + Sync,
>(
    rt: &R,
    alloc: Global,
    turns: u32,
    site: &mut S,
    console: &mut C,
    out: &mut O,
    dialers: &mut Vec<N>,
    clock: &K,
) -> Ended
    requires { length dialers.old.items ≡ 64 }
    ensures ends { (read : List ℕ) × IsRunEnd N.links N.faults (K.may_give clock.now) turns read
        (change S.left S.faults site.old site.new) (change C.left C.faults console.old console.new)
        (change O.taken O.faults out.old out.new) dialers.old.items dialers.new.items result }
    ensures stops { O.faults out.old ≡ 0 → O.late out.new ≡ O.late out.old }
    ensures due { IsRunDue result (change S.left S.faults site.old site.new)
        (change C.left C.faults console.old console.new) (change O.taken O.faults out.old out.new) }
    ensures as_many { length dialers.new.items ≡ 64 }
{
    run_plant(rt, alloc, turns, site, console, out, dialers, clock)
}
