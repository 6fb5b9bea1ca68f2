ghost use Rattle.std.specs.Prelude.{◌≡◌, ◌↔◌, ◌≤◌, ℕ, List, map};
ghost use Rattle.std.specs.String.{string_bytes};
ghost use Rattle.stream_io.specs.Streams.{change};
ghost use Rattle.replay_command.specs.Replay.{IsReplayDue, IsReplayEnd};
ghost use Rattle.nested_command.specs.Nested.{IsNestedDue, IsNestedEnd};
ghost use Rattle.check_command.specs.Check.{IsCheckDue, IsCheckEnd};
ghost use Rattle.simulate_command.specs.declared.command.Simulation.{Simulation};
ghost use Rattle.simulate_command.specs.Simulate.{IsSimulateDue, IsSimulateEnd};
ghost use Rattle.exporter_commands.specs.Words.{AreCheck, AreNested, AreReplay, AreSimulate, AskToRead};

use crate::command::{Command, command_of};
use check_command::check;
use command_io::Ended;
use nested_command::nested;
use replay_command::replay;
use simulate_command::simulate;
use std::alloc::Global;
use world_traits::{Sink, Source};

/// Does what the words of the command line ask for, with an input and an output. `replay` reads a script to
/// its end, replays it, and writes the text of its lives. `nested` does so with a script of one life behind the lines of
/// buses, and under their caps. `check` reads a site file to its end, and writes its
/// summary. `simulate S N K` reads nothing: it simulates K steps of a plant of N inverters from the seed S, and
/// writes the summary. N is 1 to 64, K is 1 to 1,000,000, and S is a number of 64 bits, each decimal.
pub fn plain<S: Source, O: Sink>(
    alloc: Global,
    words: &Vec<String>,
    input: &mut S,
    out: &mut O,
) -> Ended
    // The words are at fault exactly where they ask for nothing; then nothing is read.
    ensures bad_words { result ≡ Ended.BadWords
        ↔ ((AreReplay (map string_bytes words.now.items) → ⊥)
        × (AreNested (map string_bytes words.now.items) → ⊥)
        × (AreCheck (map string_bytes words.now.items) → ⊥)
        × ((simulation : Simulation) → AreSimulate (map string_bytes words.now.items) simulation → ⊥)) }
    ensures unread { (AskToRead (map string_bytes words.now.items) → ⊥) → input.new ≡ input.old }

    // Nothing is written but at Done, BookFull and WriteFault, nor after a write that failed. The counts of faults only
    // rise.
    ensures nothing { (result ≡ Ended.Done → ⊥) → ((calls : ℕ) → result ≡ Ended.BookFull calls → ⊥)
        → (result ≡ Ended.WriteFault → ⊥) → out.new ≡ out.old }
    ensures read_faults_stay { S.faults input.old ≤ S.faults input.new }
    ensures write_faults_stay { O.faults out.old ≤ O.faults out.new }
    ensures stops { O.faults out.old ≡ 0 → O.late out.new ≡ O.late out.old }

    // Of each command: what its end says of the bytes that were read and of the output, and which end comes.
    ensures replay { AreReplay (map string_bytes words.now.items) → (read : List ℕ) × IsReplayEnd result read
        (change S.left S.faults input.old input.new) (change O.taken O.faults out.old out.new) }
    ensures replay_due { AreReplay (map string_bytes words.now.items) → IsReplayDue result
        (change S.left S.faults input.old input.new) (change O.taken O.faults out.old out.new) }
    ensures nested { AreNested (map string_bytes words.now.items) → (read : List ℕ) × IsNestedEnd result read
        (change S.left S.faults input.old input.new) (change O.taken O.faults out.old out.new) }
    ensures nested_due { AreNested (map string_bytes words.now.items) → IsNestedDue result
        (change S.left S.faults input.old input.new) (change O.taken O.faults out.old out.new) }
    ensures check { AreCheck (map string_bytes words.now.items) → (read : List ℕ) × IsCheckEnd result read
        (change S.left S.faults input.old input.new) (change O.taken O.faults out.old out.new) }
    ensures check_due { AreCheck (map string_bytes words.now.items) → IsCheckDue result
        (change S.left S.faults input.old input.new) (change O.taken O.faults out.old out.new) }
    ensures simulate { (simulation : Simulation) → AreSimulate (map string_bytes words.now.items) simulation
        → IsSimulateEnd simulation result (change O.taken O.faults out.old out.new) }
    ensures simulate_due { (simulation : Simulation) → AreSimulate (map string_bytes words.now.items) simulation
        → IsSimulateDue result (change O.taken O.faults out.old out.new) }
{
    match command_of(words) {
        Some(Command::Replay) => replay(alloc, input, out),
        Some(Command::Nested) => nested(alloc, input, out),
        Some(Command::Check) => check(alloc, input, out),
        Some(Command::Simulate(simulation)) => simulate(alloc, simulation, out),
        None => Ended::BadWords,
    }
}
