//! A console over its input.
ghost use Rattle.std.specs.Prelude.{◌≡◌, ◌≤◌, ◌+◌, [], ℕ, List, IfErr, OnOk, length};
ghost use Rattle.std.specs.Io.KnownBytes.{Consumes};
ghost use Rattle.world_traits.specs.Causes.{HasCause};
ghost use Rattle.operator_console.specs.Deeds.{tests_of};
ghost use Rattle.operator_console.specs.Transcript.{IsClosed, IsHeld, IsOver, IsTranscript, at_input, at_output};
ghost use Rattle.operator_console.specs.Handling as handling;
ghost use Rattle.operator_console.specs.Handling.{IsTaking, at_reads, at_writes};
ghost use Rattle.ledger_desk.specs.Desk.{TestsLast};

use crate::lines::{Lines, take_piece, take_rest};
use ledger_desk::Desk;
use plant_book::Call;
use std::alloc::Global;
use world_traits::{Clock, Sink, Source};

/// How many bytes of its input a console reads at most.
pub const CONSOLE_BYTES_MAX: usize = 1_048_576;

const _: () = prove!(CONSOLE_BYTES_MAX == 1_048_576);

/// How many bytes are read at a time, at most.
const PIECE: usize = 4096;

/// How a console ended.
#[derive(Clone, Copy, Debug, PartialEq, Eq)]
pub enum ConsoleEnd {
    /// The input was read to its end, or as much of it as is read at most.
    Ended,
    /// An operator stopped the plant.
    Stopped,
    /// A read of the input failed.
    ReadFault,
    /// A write to the output failed.
    WriteFault,
    /// The book was full.
    BookFull,
    /// Memory ran out.
    NoMemory,
}

/// Follows the lines of an input as they come: does each at once, and reads no further while a whole one is left. It
/// reads at most `CONSOLE_BYTES_MAX` bytes, and then ends as at the end of the input. At a fault and at want of memory
/// it enters a Stop, where the book has room. It may wait, as the desk, the source and the clock may.
pub fn console<D: Desk, C: Source, O: Sink, K: Clock>(
    alloc: Global,
    desk: &mut D,
    inverters: u32,
    input: &mut C,
    out: &mut O,
    clock: &K,
) -> ConsoleEnd
    requires few { inverters ≤ 64 }
    requires of_desk { inverters ≡ (D.state desk.old).inverters }

    // What was done of the lines of the bytes read, what was written, and how it ended.
    ensures transcript { IsTranscript result (tests_of (K.may_give clock.now) (D.tests desk.new))
        (D.tests desk.new).was_full (D.state desk.old) (D.state desk.new)
        (C.left input.old) (C.left input.new) (O.taken out.old) (O.taken out.new) }

    // A failed read and a failed write are answered exactly where one failed. After a write that failed nothing more
    // is written.
    ensures input_faults { HasCause (C.faults input.old) (C.faults input.new) (at_input result) }
    ensures output_faults { HasCause (O.faults out.old) (O.faults out.new) (at_output result) }
    ensures stops { O.faults out.old ≡ 0 → O.late out.new ≡ O.late out.old }

    // What passed a test of the desk passes it later too.
    ensures last { TestsLast (D.tests desk.old) (D.tests desk.new) }
    ensures kept { D.kept desk.new ≡ D.kept desk.old }
{
    let end = follow(alloc, inverters, desk, input, out, clock);
    close(end, desk, clock);
    end
}

/// Follows the lines of an input, and tells how they end.
fn follow<D: Desk, C: Source, O: Sink, K: Clock>(
    alloc: Global,
    inverters: u32,
    desk: &mut D,
    input: &mut C,
    out: &mut O,
    clock: &K,
) -> ConsoleEnd
    requires few { inverters ≤ 64 }
    requires of_desk { inverters ≡ (D.state desk.old).inverters }
    ensures held { (read : List ℕ) × Consumes (C.left input.old) (C.left input.new) read × (length read ≤ 1048576)
        × IsHeld result (tests_of (K.may_give clock.now) (D.tests desk.new)) (D.tests desk.new).was_full
        (D.state desk.old) (D.state desk.new) read (C.left input.new)
        (O.taken out.old) (O.taken out.new) }
    ensures input_faults { HasCause (C.faults input.old) (C.faults input.new) (at_input result) }
    ensures output_faults { HasCause (O.faults out.old) (O.faults out.new) (at_output result) }
    ensures stops { O.faults out.old ≡ 0 → O.late out.new ≡ O.late out.old }
    ensures last { TestsLast (D.tests desk.old) (D.tests desk.new) }
    ensures kept { D.kept desk.new ≡ D.kept desk.old }
{
    let mut lines = Lines {
        inverters,
        number: 0,
        held: Vec::new(alloc),
    };
    match read_lines(alloc, &mut lines, desk, input, out, clock) {
        Ok(()) => end_of(take_rest(alloc, &lines, desk, out, clock)),
        Err(end) => end,
    }
}

/// How a console ends whose last step answers so.
fn end_of(last: Result<(), ConsoleEnd>) -> ConsoleEnd
    ensures { result ≡ handling.end_of last }
{
    match last {
        Ok(()) => ConsoleEnd::Ended,
        Err(end) => end,
    }
}

/// Reads the input piece by piece, and does the lines of each before it reads on.
fn read_lines<D: Desk, C: Source, O: Sink, K: Clock>(
    alloc: Global,
    lines: &mut Lines,
    desk: &mut D,
    input: &mut C,
    out: &mut O,
    clock: &K,
) -> Result<(), ConsoleEnd>
    requires few { lines.old.inverters ≤ 64 }
    requires of_desk { lines.old.inverters ≡ (D.state desk.old).inverters }
    requires number { lines.old.number ≡ 0 }
    requires held { lines.old.held.items ≡ [] }
    ensures over { OnOk result ((read : List ℕ) × Consumes (C.left input.old) (C.left input.new) read
        × (length read ≤ 1048576) × IsOver read (C.left input.new) × IsTaking
        (tests_of (K.may_give clock.now) (D.tests desk.new)) (D.state desk.old) (D.state desk.new)
        (O.taken out.old) (O.taken out.new) read
        lines.new.number lines.new.held.items) }
    ensures ends { IfErr result (λ end. (read : List ℕ) × Consumes (C.left input.old) (C.left input.new) read
        × (length read ≤ 1048576) × IsHeld end
        (tests_of (K.may_give clock.now) (D.tests desk.new)) (D.tests desk.new).was_full (D.state desk.old)
        (D.state desk.new) read (C.left input.new)
        (O.taken out.old) (O.taken out.new)) }
    ensures desk { OnOk result ((D.state desk.new).inverters ≡ (D.state desk.old).inverters) }
    ensures number { lines.new.number ≤ 1048576 }
    ensures inverters { lines.new.inverters ≡ lines.old.inverters }
    ensures reads { HasCause (C.faults input.old) (C.faults input.new) (at_reads result) }
    ensures last { TestsLast (D.tests desk.old) (D.tests desk.new) }
    ensures kept { D.kept desk.new ≡ D.kept desk.old }
    ensures cause { HasCause (O.faults out.old) (O.faults out.new) (at_writes result) }
    ensures stops { O.faults out.old ≡ 0 → O.late out.new ≡ O.late out.old }
{
    let mut piece = [0; PIECE];
    let mut left = CONSOLE_BYTES_MAX;
    while left > 0 {
        let room = left.min(PIECE);
        let Ok(count) = input.read(&mut piece[..room]) else {
            return Err(ConsoleEnd::ReadFault);
        };
        if count == 0 {
            return Ok(());
        }
        take_piece(alloc, lines, &piece[..count], desk, out, clock)?;
        left -= count;
    }
    Ok(())
}

/// Enters a Stop at a fault and at want of memory, where the book has room.
fn close<D: Desk, K: Clock>(end: ConsoleEnd, desk: &mut D, clock: &K)
    ensures closed { IsClosed end (K.may_give clock.now) (D.tests desk.new).was_full (D.state desk.old)
        (D.state desk.new) }
    ensures last { TestsLast (D.tests desk.old) (D.tests desk.new) }
    ensures kept { D.kept desk.new ≡ D.kept desk.old }
{
    match end {
        ConsoleEnd::ReadFault | ConsoleEnd::WriteFault | ConsoleEnd::NoMemory => {
            let at = clock.now();
            let _entered = desk.call(Call::Stop { at });
        }
        ConsoleEnd::Ended | ConsoleEnd::Stopped | ConsoleEnd::BookFull => {}
    }
}
