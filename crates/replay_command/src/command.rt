ghost use Rattle.std.specs.Prelude.{◌≡◌, ◌≤◌, ℕ, List};
ghost use Rattle.stream_io.specs.Streams.{change};
ghost use Rattle.script_replay.specs.Replay.{IsReplay};
ghost use Rattle.replay_command.specs.Replay.{fault_end, IsReplayDue, IsReplayEnd, RefusesScript};

use command_io::Ended;
use script_command::{Script, Told, end_of_site, run_script};
use script_replay::{ReplayFault, one_replay, replay_script, room_is_enough};
use std::alloc::Global;
use world_traits::{Sink, Source};

/// The end where a script isn't replayed.
fn end_of_fault(fault: ReplayFault) -> Ended
    ensures { result ≡ fault_end fault }
{
    match fault {
        ReplayFault::BadLine { line, kind } => Ended::BadLine { line, kind },
        ReplayFault::BadSite(fault) => end_of_site(fault),
        ReplayFault::NoMemory => Ended::NoMemory,
    }
}

/// The scripts that are replayed.
struct Replaying;

impl Script for Replaying {
    ghost text = { IsReplay };

    ghost refuses = { RefusesScript };

    fn tell(alloc: Global, bytes: &[u8]) -> Result<Told, Ended> {
        match replay_script(alloc, bytes) {
            Ok(replayed) => Ok(Told {
                text: replayed.text,
                full: replayed.full,
            }),
            Err(fault) => Err(end_of_fault(fault)),
        }
    }
}

/// Reads a script to its end, replays it, and writes the text of its lives, up to where a book was full.
pub fn replay<S: Source, O: Sink>(alloc: Global, input: &mut S, out: &mut O) -> Ended
    ensures ends { (read : List ℕ) × IsReplayEnd result read
        (change S.left S.faults input.old input.new) (change O.taken O.faults out.old out.new) }
    ensures due { IsReplayDue result
        (change S.left S.faults input.old input.new) (change O.taken O.faults out.old out.new) }
    ensures nothing { (result ≡ Ended.Done → ⊥) → ((calls : ℕ) → result ≡ Ended.BookFull calls → ⊥)
        → (result ≡ Ended.WriteFault → ⊥) → out.new ≡ out.old }
    ensures read_faults_stay { S.faults input.old ≤ S.faults input.new }
    ensures write_faults_stay { O.faults out.old ≤ O.faults out.new }
    ensures stops { O.faults out.old ≡ 0 → O.late out.new ≡ O.late out.old }
{
    one_replay();
    room_is_enough();
    run_script::<S, O, Replaying>(alloc, input, out)
}
