//! The lines of an input, as its bytes come.
ghost use Rattle.std.specs.Prelude.{◌≡◌, ◌<◌, ◌≤◌, ◌+◌, ◌++◌, ◌∷◌, [], ◌^◌, ℕ, List, Option};
ghost use Rattle.std.specs.Prelude.{IfErr, OnOk, Ok, length};
ghost use Rattle.std.specs.Str.Iter.{LacksByte};
ghost use Rattle.world_traits.specs.Causes.{HasCause};
ghost use Rattle.ledger_desk.specs.Desk.{DeskState};
ghost use Rattle.operator_console.specs.Orders.{IsLine};
ghost use Rattle.operator_console.specs.Transcript.{IsHeld, IsOver};
ghost use Rattle.operator_console.specs.Deeds.{tests_of};
ghost use Rattle.operator_console.specs.Handling.{HasReturn, IsHandled, IsTaking, at_reads, at_writes, end_of};
ghost use Rattle.ledger_desk.specs.Desk.{TestsLast};

use crate::comments::bad_text;
use crate::finding::parts_at;
use crate::order::order_of;
use crate::orders::follow_order;
use crate::session::ConsoleEnd;
use crate::writing::write;
use ledger_desk::Desk;
use std::alloc::Global;
use world_traits::{Clock, Sink};

/// How many bytes the first room of a line takes.
const HELD_MIN: usize = 4096;

/// The lines of an input so far.
#[derive(Drop)]
pub(crate) struct Lines {
    /// How many inverters orders may name.
    pub(crate) inverters: u32,
    /// How many lines there were.
    pub(crate) number: u32,
    /// The begin of the line that isn't whole yet.
    pub(crate) held: Vec<u8>,
}

/// Does the line of this number.
pub(crate) fn follow_line<D: Desk, O: Sink, K: Clock>(
    alloc: Global,
    line: &[u8],
    number: u32,
    inverters: u32,
    desk: &mut D,
    out: &mut O,
    clock: &K,
) -> Result<(), ConsoleEnd>
    requires few { inverters ≤ 64 }
    requires of_desk { inverters ≡ (D.state desk.old).inverters }
    ensures handled { IsHandled result (tests_of (K.may_give clock.now) (D.tests desk.new))
        (D.tests desk.new).was_full number line.now (D.state desk.old) (D.state desk.new)
        (O.taken out.old) (O.taken out.new) }
    ensures last { TestsLast (D.tests desk.old) (D.tests desk.new) }
    ensures kept { D.kept desk.new ≡ D.kept desk.old }
    ensures cause { HasCause (O.faults out.old) (O.faults out.new) (at_writes result) }
    ensures stops { O.faults out.old ≡ 0 → O.late out.new ≡ O.late out.old }
{
    if line.is_empty() {
        return Ok(());
    }
    match order_of(line, inverters) {
        Some(order) => follow_order(alloc, order, inverters, desk, out, clock),
        None => write(out, bad_text(number).as_slice()),
    }
}

/// Whether a line's end is CR LF: the line without the CR at its end, if there is one.
fn without_return(bytes: &[u8]) -> &[u8]
    ensures { HasReturn bytes.now result.now }
{
    match bytes {
        [line @ .., b'\r'] => line,
        _ => bytes,
    }
}

impl Lines {
    /// Takes more bytes of the line that isn't whole yet. Its room begins with that of a piece and doubles, and so is
    /// never more than the bytes that are read at most.
    fn hold(&mut self, more: &[u8]) -> Result<(), ConsoleEnd>
        ensures held { OnOk result (self.new.held.items ≡ self.old.held.items ++ more.now) }
        ensures number { self.new.number ≡ self.old.number }
        ensures inverters { self.new.inverters ≡ self.old.inverters }
        ensures failed { IfErr result (λ end. end ≡ ConsoleEnd.NoMemory) }
    {
        let grown = if self.held.capacity() == 0 {
            self.held.reserve(HELD_MIN)
        } else {
            Ok(())
        };
        if grown.is_err() || self.held.extend_from_slice(more).is_err() {
            return Err(ConsoleEnd::NoMemory);
        }
        Ok(())
    }
}

/// Does the line that is held, which is whole: a line feed stands behind it.
fn follow_held<D: Desk, O: Sink, K: Clock>(
    alloc: Global,
    lines: &mut Lines,
    desk: &mut D,
    out: &mut O,
    clock: &K,
) -> Result<(), ConsoleEnd>
    requires few { lines.old.inverters ≤ 64 }
    requires of_desk { lines.old.inverters ≡ (D.state desk.old).inverters }
    requires room { lines.old.number + 1 < 2 ^ 32 }
    ensures goes_on { OnOk result ((begun : DeskState) (told : Option (List ℕ)) (read : List ℕ) → IsTaking
        (tests_of (K.may_give clock.now) (D.tests desk.old)) begun (D.state desk.old) told
        (O.taken out.old) read lines.old.number
        lines.old.held.items → IsTaking
        (tests_of (K.may_give clock.now) (D.tests desk.new)) begun (D.state desk.new) told (O.taken out.new)
        (read ++ 10 ∷ [])
        lines.new.number lines.new.held.items) }
    ensures ends { IfErr result (λ end. (begun : DeskState) (told : Option (List ℕ)) (read behind : List ℕ)
        (left : Option (List ℕ)) → IsTaking
        (tests_of (K.may_give clock.now) (D.tests desk.old)) begun (D.state desk.old) told
        (O.taken out.old) read lines.old.number
        lines.old.held.items → IsHeld end
        (tests_of (K.may_give clock.now) (D.tests desk.new)) (D.tests desk.new).was_full begun
        (D.state desk.new) (read ++ 10 ∷ behind) left told
        (O.taken out.new)) }
    ensures desk { OnOk result ((D.state desk.new).inverters ≡ (D.state desk.old).inverters) }
    ensures empty { OnOk result (lines.new.held.items ≡ []) }
    ensures number { lines.new.number ≡ lines.old.number + 1 }
    ensures inverters { lines.new.inverters ≡ lines.old.inverters }
    ensures last { TestsLast (D.tests desk.old) (D.tests desk.new) }
    ensures kept { D.kept desk.new ≡ D.kept desk.old }
    ensures reads { at_reads result ≡ Ok tt }
    ensures cause { HasCause (O.faults out.old) (O.faults out.new) (at_writes result) }
    ensures stops { O.faults out.old ≡ 0 → O.late out.new ≡ O.late out.old }
{
    lines.number += 1;
    let line = without_return(&lines.held);
    let followed = follow_line(alloc, line, lines.number, lines.inverters, desk, out, clock);
    lines.held.clear();
    followed
}

/// Takes a piece of the input: does each line that it makes whole, and holds the begin of the next one.
pub(crate) fn take_piece<D: Desk, O: Sink, K: Clock>(
    alloc: Global,
    lines: &mut Lines,
    piece: &[u8],
    desk: &mut D,
    out: &mut O,
    clock: &K,
) -> Result<(), ConsoleEnd>
    requires few { lines.old.inverters ≤ 64 }
    requires of_desk { lines.old.inverters ≡ (D.state desk.old).inverters }
    requires room { lines.old.number + length piece.now < 2 ^ 32 }
    ensures goes_on { OnOk result ((begun : DeskState) (told : Option (List ℕ)) (read : List ℕ) → IsTaking
        (tests_of (K.may_give clock.now) (D.tests desk.old)) begun (D.state desk.old) told
        (O.taken out.old) read lines.old.number
        lines.old.held.items → IsTaking
        (tests_of (K.may_give clock.now) (D.tests desk.new)) begun (D.state desk.new) told (O.taken out.new)
        (read ++ piece.now)
        lines.new.number lines.new.held.items) }
    ensures ends { IfErr result (λ end. (begun : DeskState) (told : Option (List ℕ)) (read : List ℕ)
        (left : Option (List ℕ)) → IsTaking
        (tests_of (K.may_give clock.now) (D.tests desk.old)) begun (D.state desk.old) told
        (O.taken out.old) read lines.old.number
        lines.old.held.items → IsHeld end
        (tests_of (K.may_give clock.now) (D.tests desk.new)) (D.tests desk.new).was_full begun
        (D.state desk.new) (read ++ piece.now) left told
        (O.taken out.new)) }
    ensures desk { OnOk result ((D.state desk.new).inverters ≡ (D.state desk.old).inverters) }
    ensures number { lines.new.number ≤ lines.old.number + length piece.now }
    ensures inverters { lines.new.inverters ≡ lines.old.inverters }
    ensures last { TestsLast (D.tests desk.old) (D.tests desk.new) }
    ensures kept { D.kept desk.new ≡ D.kept desk.old }
    ensures reads { at_reads result ≡ Ok tt }
    ensures cause { HasCause (O.faults out.old) (O.faults out.new) (at_writes result) }
    ensures stops { O.faults out.old ≡ 0 → O.late out.new ≡ O.late out.old }
{
    let mut rest = piece;
    while let Some((front, behind)) = parts_at(rest, b'\n') {
        lines.hold(front)?;
        follow_held(alloc, lines, desk, out, clock)?;
        rest = behind;
    }
    lines.hold(rest)
}

/// Does the last line, where it has no end.
pub(crate) fn take_rest<D: Desk, O: Sink, K: Clock>(
    alloc: Global,
    lines: &Lines,
    desk: &mut D,
    out: &mut O,
    clock: &K,
) -> Result<(), ConsoleEnd>
    requires few { lines.now.inverters ≤ 64 }
    requires of_desk { lines.now.inverters ≡ (D.state desk.old).inverters }
    requires room { lines.now.number + 1 < 2 ^ 32 }
    ensures ended { (begun : DeskState) (told : Option (List ℕ)) (read : List ℕ) (left : Option (List ℕ))
        → IsOver read left → IsTaking
        (tests_of (K.may_give clock.now) (D.tests desk.old)) begun (D.state desk.old) told
        (O.taken out.old) read lines.now.number
        lines.now.held.items → IsHeld (end_of result)
        (tests_of (K.may_give clock.now) (D.tests desk.new)) (D.tests desk.new).was_full begun
        (D.state desk.new) read left told
        (O.taken out.new) }
    ensures last { TestsLast (D.tests desk.old) (D.tests desk.new) }
    ensures kept { D.kept desk.new ≡ D.kept desk.old }
    ensures reads { at_reads result ≡ Ok tt }
    ensures cause { HasCause (O.faults out.old) (O.faults out.new) (at_writes result) }
    ensures stops { O.faults out.old ≡ 0 → O.late out.new ≡ O.late out.old }
{
    if lines.held.is_empty() {
        return Ok(());
    }
    follow_line(
        alloc,
        &lines.held,
        lines.number + 1,
        lines.inverters,
        desk,
        out,
        clock,
    )
}
