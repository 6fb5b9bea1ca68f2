//! Writing and entering, as a console ends by them.
ghost use Rattle.std.specs.Prelude.{◌≡◌, ◌<◌, ◌≤◌, IfErr, IfOk, IfSome, OnErr, OnOk};
ghost use Rattle.std.specs.Io.KnownBytes.{Appends};
ghost use Rattle.world_traits.specs.Causes.{HasCause};
ghost use Rattle.stream_io.specs.Streams.{AppendsFront};
ghost use Rattle.plant_book.specs.Calls.{moment, named};
ghost use Rattle.plant_book.specs.Answered.{IsInRange};
ghost use Rattle.ledger_desk.specs.Calls.{IsBack};
ghost use Rattle.ledger_desk.specs.Desk.{Enters, EntersNone};
ghost use Rattle.operator_console.specs.Handling.{IsToldCall, at_writes};
ghost use Rattle.ledger_desk.specs.Desk.{TestsLast};

use crate::comments::reply_text;
use crate::session::ConsoleEnd;
use ledger_desk::Desk;
use plant_book::{Call, Reply};
use stream_io::write_whole;
use world_traits::Sink;

/// Writes a text whole.
pub(crate) fn write<O: Sink>(out: &mut O, text: &[u8]) -> Result<(), ConsoleEnd>
    ensures all { OnOk result (Appends (O.taken out.old) (O.taken out.new) text.now) }
    ensures front { OnErr result (AppendsFront (O.taken out.old) (O.taken out.new) text.now) }
    ensures failed { IfErr result (λ end. end ≡ ConsoleEnd.WriteFault) }
    ensures cause { HasCause (O.faults out.old) (O.faults out.new) (at_writes result) }
    ensures stops { O.faults out.old ≡ 0 → O.late out.new ≡ O.late out.old }
{
    match write_whole(out, text) {
        Ok(()) => Ok(()),
        Err(_) => Err(ConsoleEnd::WriteFault),
    }
}

/// Enters a call.
pub(crate) fn enter<D: Desk>(desk: &mut D, call: Call) -> Result<Reply, ConsoleEnd>
    requires no_back { ¬ IsBack call }
    requires moment { moment call ≤ 1000000000000000 }
    requires of_desk { IfSome (named call) (λ inverter. inverter < (D.state desk.old).inverters) }
    requires in_range { IsInRange call }
    ensures entered { IfOk result (λ reply. Enters call reply (D.state desk.old) (D.state desk.new)) }
    ensures none { OnErr result (EntersNone (D.state desk.old) (D.state desk.new)) }
    ensures full { OnErr result (D.tests desk.new).was_full }
    ensures failed { IfErr result (λ end. end ≡ ConsoleEnd.BookFull) }
    ensures last { TestsLast (D.tests desk.old) (D.tests desk.new) }
    ensures kept { D.kept desk.new ≡ D.kept desk.old }
{
    match desk.call(call) {
        Ok(outcome) => Ok(outcome.reply),
        Err(_) => Err(ConsoleEnd::BookFull),
    }
}

/// Enters a call, and writes the line of its reply.
pub(crate) fn tell_call<D: Desk, O: Sink>(
    desk: &mut D,
    call: Call,
    out: &mut O,
) -> Result<(), ConsoleEnd>
    requires no_back { ¬ IsBack call }
    requires moment { moment call ≤ 1000000000000000 }
    requires of_desk { IfSome (named call) (λ inverter. inverter < (D.state desk.old).inverters) }
    requires in_range { IsInRange call }
    ensures told { IsToldCall result (D.tests desk.new).was_full call (D.state desk.old) (D.state desk.new)
        (O.taken out.old) (O.taken out.new) }
    ensures last { TestsLast (D.tests desk.old) (D.tests desk.new) }
    ensures kept { D.kept desk.new ≡ D.kept desk.old }
    ensures cause { HasCause (O.faults out.old) (O.faults out.new) (at_writes result) }
    ensures stops { O.faults out.old ≡ 0 → O.late out.new ≡ O.late out.old }
{
    let reply = enter(desk, call)?;
    write(out, reply_text(&reply).as_slice())
}
