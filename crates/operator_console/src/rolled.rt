//! The text of a book that was rolled.
ghost use Rattle.std.specs.Prelude.{◌≡◌, ◌⊎◌, IfErr, OnErr, OnOk};
ghost use Rattle.std.specs.List.{flat_map};
ghost use Rattle.std.specs.Io.KnownBytes.{Appends};
ghost use Rattle.world_traits.specs.Causes.{HasCause};
ghost use Rattle.stream_io.specs.Streams.{AppendsFront};
ghost use Rattle.script_text.specs.Text as texts;
ghost use Rattle.operator_console.specs.Comments.{head_before, rolled_text};
ghost use Rattle.operator_console.specs.Handling.{at_writes};

use crate::session::ConsoleEnd;
use crate::writing::write;
use limiter_num::NoMemory;
use plant_book::{Book, Entry};
use script_text::{entry_text, head_text, roll_text};
use std::alloc::Global;
use world_traits::Sink;

/// Writes the text of a book that was rolled: its head, if it is the first of its life, its entries, and the roll. It
/// writes line by line, and holds no more than a line.
pub(crate) fn write_rolled<O: Sink>(
    alloc: Global,
    book: &Book,
    out: &mut O,
) -> Result<(), ConsoleEnd>
    ensures all { OnOk result (Appends (O.taken out.old) (O.taken out.new) (rolled_text book.now)) }
    ensures front { OnErr result (AppendsFront (O.taken out.old) (O.taken out.new) (rolled_text book.now)) }
    ensures failed { IfErr result (λ end. (end ≡ ConsoleEnd.WriteFault) ⊎ (end ≡ ConsoleEnd.NoMemory)) }
    ensures cause { HasCause (O.faults out.old) (O.faults out.new) (at_writes result) }
    ensures stops { O.faults out.old ≡ 0 → O.late out.new ≡ O.late out.old }
{
    write_head(alloc, book, out)?;
    write_entries(alloc, &book.entries, out)?;
    write_roll(alloc, out)
}

/// Writes the head of a book, if it is the first of its life.
fn write_head<O: Sink>(alloc: Global, book: &Book, out: &mut O) -> Result<(), ConsoleEnd>
    ensures all { OnOk result (Appends (O.taken out.old) (O.taken out.new)
        (head_before book.now.site book.now.start book.now.carry)) }
    ensures front { OnErr result (AppendsFront (O.taken out.old) (O.taken out.new)
        (head_before book.now.site book.now.start book.now.carry)) }
    ensures failed { IfErr result (λ end. (end ≡ ConsoleEnd.WriteFault) ⊎ (end ≡ ConsoleEnd.NoMemory)) }
    ensures cause { HasCause (O.faults out.old) (O.faults out.new) (at_writes result) }
    ensures stops { O.faults out.old ≡ 0 → O.late out.new ≡ O.late out.old }
{
    if book.carry.is_some() {
        return Ok(());
    }
    let mut text = Vec::new(alloc);
    match head_text(&mut text, &book.site, book.start) {
        Ok(()) => write(out, &text),
        Err(NoMemory) => Err(ConsoleEnd::NoMemory),
    }
}

/// Writes the lines of entries.
fn write_entries<O: Sink>(alloc: Global, entries: &[Entry], out: &mut O) -> Result<(), ConsoleEnd>
    ensures all { OnOk result (Appends (O.taken out.old) (O.taken out.new) (flat_map texts.entry_text entries.now)) }
    ensures front { OnErr result (AppendsFront (O.taken out.old) (O.taken out.new)
        (flat_map texts.entry_text entries.now)) }
    ensures failed { IfErr result (λ end. (end ≡ ConsoleEnd.WriteFault) ⊎ (end ≡ ConsoleEnd.NoMemory)) }
    ensures cause { HasCause (O.faults out.old) (O.faults out.new) (at_writes result) }
    ensures stops { O.faults out.old ≡ 0 → O.late out.new ≡ O.late out.old }
{
    let mut line = Vec::new(alloc);
    for entry in entries {
        write_entry(&mut line, entry, out)?;
    }
    Ok(())
}

/// Writes the line of an entry. The line is built in place of what was built before.
fn write_entry<O: Sink>(line: &mut Vec<u8>, entry: &Entry, out: &mut O) -> Result<(), ConsoleEnd>
    ensures all { OnOk result (Appends (O.taken out.old) (O.taken out.new) (texts.entry_text entry.now)) }
    ensures front { OnErr result (AppendsFront (O.taken out.old) (O.taken out.new) (texts.entry_text entry.now)) }
    ensures failed { IfErr result (λ end. (end ≡ ConsoleEnd.WriteFault) ⊎ (end ≡ ConsoleEnd.NoMemory)) }
    ensures cause { HasCause (O.faults out.old) (O.faults out.new) (at_writes result) }
    ensures stops { O.faults out.old ≡ 0 → O.late out.new ≡ O.late out.old }
{
    line.clear();
    match entry_text(line, entry) {
        Ok(()) => write(out, line),
        Err(NoMemory) => Err(ConsoleEnd::NoMemory),
    }
}

/// Writes the line of a roll.
fn write_roll<O: Sink>(alloc: Global, out: &mut O) -> Result<(), ConsoleEnd>
    ensures all { OnOk result (Appends (O.taken out.old) (O.taken out.new) texts.roll_text) }
    ensures front { OnErr result (AppendsFront (O.taken out.old) (O.taken out.new) texts.roll_text) }
    ensures failed { IfErr result (λ end. (end ≡ ConsoleEnd.WriteFault) ⊎ (end ≡ ConsoleEnd.NoMemory)) }
    ensures cause { HasCause (O.faults out.old) (O.faults out.new) (at_writes result) }
    ensures stops { O.faults out.old ≡ 0 → O.late out.new ≡ O.late out.old }
{
    let mut line = Vec::new(alloc);
    match roll_text(&mut line) {
        Ok(()) => write(out, &line),
        Err(NoMemory) => Err(ConsoleEnd::NoMemory),
    }
}
