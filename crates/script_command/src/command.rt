ghost use Rattle.std.specs.Prelude.{◌≡◌, ◌⊎◌, ◌≤◌, ℕ, List, length};
ghost use Rattle.std.specs.Io.KnownBytes.{Appends};
ghost use Rattle.stream_io.specs.Streams.{AppendsFront, Change, Fails, ReadsWhole, Works, change};
ghost use Rattle.script_command.specs.Ends.{input_limit, written_end, IsScriptEnd};

use crate::script::{Script, Told};
use command_io::Ended;
use script_text::SCRIPT_BYTES_MAX;
use std::alloc::Global;
use stream_io::{InputFault, read_whole, write_whole};
use world_traits::{Sink, Source};

/// How many bytes a script has at most.
const SCRIPT_MAX: u32 = SCRIPT_BYTES_MAX as u32;

/// The end where a text was written, by the calls of the book that was full.
fn end_written(full: Option<u32>) -> Ended
    ensures { result ≡ written_end full }
{
    match full {
        None => Ended::Done,
        Some(calls) => Ended::BookFull { calls },
    }
}

/// Writes a text.
fn write_told<O: Sink>(told: &Told, out: &mut O) -> Ended
    ensures written { ((result ≡ written_end told.now.full)
        × Appends (O.taken out.old) (O.taken out.new) told.now.text.items
        × Works (change O.taken O.faults out.old out.new))
        ⊎ ((result ≡ Ended.WriteFault)
        × AppendsFront (O.taken out.old) (O.taken out.new) told.now.text.items
        × Fails (change O.taken O.faults out.old out.new)) }
    ensures write_faults_stay { O.faults out.old ≤ O.faults out.new }
    ensures stops { O.faults out.old ≡ 0 → O.late out.new ≡ O.late out.old }
{
    match write_whole(out, &told.text) {
        Ok(()) => end_written(told.full),
        Err(_) => Ended::WriteFault,
    }
}

/// Writes the text of a script that was read.
fn write_script<O: Sink, T: Script>(alloc: Global, bytes: &[u8], out: &mut O) -> Ended
    requires short { length bytes.now ≤ input_limit }
    ensures ends { (input : Change) → ReadsWhole input_limit bytes.now input
        → IsScriptEnd T.text T.refuses result bytes.now input (change O.taken O.faults out.old out.new) }
    ensures nothing { (result ≡ Ended.Done → ⊥) → ((calls : ℕ) → result ≡ Ended.BookFull calls → ⊥)
        → (result ≡ Ended.WriteFault → ⊥) → out.new ≡ out.old }
    ensures write_faults_stay { O.faults out.old ≤ O.faults out.new }
    ensures stops { O.faults out.old ≡ 0 → O.late out.new ≡ O.late out.old }
{
    match T::tell(alloc, bytes) {
        Ok(told) => write_told(&told, out),
        Err(ended) => ended,
    }
}

/// Reads a script to its end, and writes its text, up to where a book was full.
pub fn run_script<S: Source, O: Sink, T: Script>(alloc: Global, input: &mut S, out: &mut O) -> Ended
    ensures ends { (read : List ℕ) × IsScriptEnd T.text T.refuses result read
        (change S.left S.faults input.old input.new) (change O.taken O.faults out.old out.new) }
    ensures nothing { (result ≡ Ended.Done → ⊥) → ((calls : ℕ) → result ≡ Ended.BookFull calls → ⊥)
        → (result ≡ Ended.WriteFault → ⊥) → out.new ≡ out.old }
    ensures read_faults_stay { S.faults input.old ≤ S.faults input.new }
    ensures write_faults_stay { O.faults out.old ≤ O.faults out.new }
    ensures stops { O.faults out.old ≡ 0 → O.late out.new ≡ O.late out.old }
{
    match read_whole(alloc, input, SCRIPT_MAX) {
        Ok(bytes) => write_script::<O, T>(alloc, &bytes, out),
        Err(InputFault::Failed) => Ended::ReadFault,
        Err(InputFault::TooLong) => Ended::TooLong { limit: SCRIPT_MAX },
        Err(InputFault::NoMemory) => Ended::NoMemory,
    }
}
