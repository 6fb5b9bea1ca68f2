ghost use Rattle.std.specs.Prelude.{◌≡◌, ◌≤◌, ℕ, List};
ghost use Rattle.stream_io.specs.Streams.{change};
ghost use Rattle.nested_replay.specs.Replay.{IsNestedReplay};
ghost use Rattle.nested_command.specs.Nested.{fault_end, IsNestedDue, IsNestedEnd, RefusesNested};

use command_io::Ended;
use nested_replay::{NestedFault, one_nested_replay, replay_nested};
use script_command::{Script, Told, end_of_site, run_script};
use std::alloc::Global;
use world_traits::{Sink, Source};

/// The end where an input with buses isn't replayed.
fn end_of_fault(fault: NestedFault) -> Ended
    ensures { result ≡ fault_end fault }
{
    match fault {
        NestedFault::BadLine { line, kind } => Ended::BadLine { line, kind },
        NestedFault::BadSite(fault) => end_of_site(fault),
        NestedFault::BadBus(fault) => Ended::BadBus(fault),
        NestedFault::NoMemory => Ended::NoMemory,
    }
}

/// The inputs with buses.
struct Nesting;

impl Script for Nesting {
    ghost text = { IsNestedReplay };

    ghost refuses = { RefusesNested };

    fn tell(alloc: Global, bytes: &[u8]) -> Result<Told, Ended> {
        match replay_nested(alloc, bytes) {
            Ok(replayed) => Ok(Told {
                text: replayed.text,
                full: replayed.full,
            }),
            Err(fault) => Err(end_of_fault(fault)),
        }
    }
}

/// Reads an input with buses to its end, replays it, and writes what was done, up to where the book was full.
pub fn nested<S: Source, O: Sink>(alloc: Global, input: &mut S, out: &mut O) -> Ended
    ensures ends { (read : List ℕ) × IsNestedEnd result read
        (change S.left S.faults input.old input.new) (change O.taken O.faults out.old out.new) }
    ensures due { IsNestedDue result
        (change S.left S.faults input.old input.new) (change O.taken O.faults out.old out.new) }
    ensures nothing { (result ≡ Ended.Done → ⊥) → ((calls : ℕ) → result ≡ Ended.BookFull calls → ⊥)
        → (result ≡ Ended.WriteFault → ⊥) → out.new ≡ out.old }
    ensures read_faults_stay { S.faults input.old ≤ S.faults input.new }
    ensures write_faults_stay { O.faults out.old ≤ O.faults out.new }
    ensures stops { O.faults out.old ≡ 0 → O.late out.new ≡ O.late out.old }
{
    one_nested_replay();
    run_script::<S, O, Nesting>(alloc, input, out)
}
