//! What is done of an order.
ghost use Rattle.std.specs.Prelude.{◌≡◌, ◌≤◌, ℕ, List, Some};
ghost use Rattle.world_traits.specs.Causes.{HasCause};
ghost use Rattle.operator_console.specs.Orders.{IsInRange, IsOrder};
ghost use Rattle.operator_console.specs.Deeds.{tests_of};
ghost use Rattle.operator_console.specs.Handling.{IsHandled, IsRolled, IsShown, IsStopped, at_writes};
ghost use Rattle.ledger_desk.specs.Desk.{TestsLast};

use crate::order::Order;
use crate::rolled::write_rolled;
use crate::session::ConsoleEnd;
use crate::status::status_text;
use crate::writing::{enter, tell_call, write};
use ledger_desk::Desk;
use plant_book::Call;
use plant_ledger::RollFault;
use std::alloc::Global;
use world_traits::{Clock, Sink};

/// Does what an order asks for, and writes its lines. A stop ends the console.
pub(crate) fn follow_order<D: Desk, O: Sink, K: Clock>(
    alloc: Global,
    order: Order,
    inverters: u32,
    desk: &mut D,
    out: &mut O,
    clock: &K,
) -> Result<(), ConsoleEnd>
    requires few { inverters ≤ 64 }
    requires of_desk { inverters ≡ (D.state desk.old).inverters }
    requires in_range { IsInRange inverters order }
    ensures handled { (number : ℕ) (line : List ℕ) → IsOrder inverters line order
        → IsHandled result (tests_of (K.may_give clock.now) (D.tests desk.new))
        (D.tests desk.new).was_full number line (D.state desk.old) (D.state desk.new)
        (O.taken out.old) (O.taken out.new) }
    ensures last { TestsLast (D.tests desk.old) (D.tests desk.new) }
    ensures kept { D.kept desk.new ≡ D.kept desk.old }
    ensures cause { HasCause (O.faults out.old) (O.faults out.new) (at_writes result) }
    ensures stops { O.faults out.old ≡ 0 → O.late out.new ≡ O.late out.old }
{
    match order {
        Order::Status => show_status(clock.now(), inverters, desk, out),
        Order::Want { inverter, mw } => {
            let at = clock.now();
            tell_call(desk, Call::Want { at, inverter, mw }, out)
        }
        Order::Stop => stop(clock.now(), desk, out),
        Order::Cap { mw } => {
            let at = clock.now();
            tell_call(desk, Call::Cap { at, mw }, out)
        }
        Order::Roll => roll(alloc, desk, out),
    }
}

/// Enters a Tick at a moment in ms, and shows the total and the goal of each inverter.
fn show_status<D: Desk, O: Sink>(
    at: u64,
    inverters: u32,
    desk: &mut D,
    out: &mut O,
) -> Result<(), ConsoleEnd>
    requires moment { at ≤ 1000000000000000 }
    requires few { inverters ≤ 64 }
    requires of_desk { inverters ≡ (D.state desk.old).inverters }
    ensures shown { IsShown result (D.tests desk.new).may_tell (D.tests desk.new).was_full at (D.state desk.old)
        (D.state desk.new) (O.taken out.old) (O.taken out.new) }
    ensures last { TestsLast (D.tests desk.old) (D.tests desk.new) }
    ensures kept { D.kept desk.new ≡ D.kept desk.old }
    ensures cause { HasCause (O.faults out.old) (O.faults out.new) (at_writes result) }
    ensures stops { O.faults out.old ≡ 0 → O.late out.new ≡ O.late out.old }
{
    let reply = enter(desk, Call::Tick { at })?;
    let text = status_text(&reply, desk, inverters);
    write(out, text.as_slice())
}

/// Enters a Stop at a moment in ms. Behind the line of its reply the console ends.
fn stop<D: Desk, O: Sink>(at: u64, desk: &mut D, out: &mut O) -> Result<(), ConsoleEnd>
    requires { at ≤ 1000000000000000 }
    ensures stopped { IsStopped result (D.tests desk.new).was_full at (D.state desk.old) (D.state desk.new)
        (O.taken out.old) (O.taken out.new) }
    ensures last { TestsLast (D.tests desk.old) (D.tests desk.new) }
    ensures kept { D.kept desk.new ≡ D.kept desk.old }
    ensures cause { HasCause (O.faults out.old) (O.faults out.new) (at_writes result) }
    ensures stops { O.faults out.old ≡ 0 → O.late out.new ≡ O.late out.old }
{
    tell_call(desk, Call::Stop { at }, out)?;
    Err(ConsoleEnd::Stopped)
}

/// Rolls the book and writes its text, or shows that the life is full.
fn roll<D: Desk, O: Sink>(alloc: Global, desk: &mut D, out: &mut O) -> Result<(), ConsoleEnd>
    ensures rolled { IsRolled result (D.tests desk.new).ended (D.tests desk.new).was_full_life (D.state desk.old)
        (D.state desk.new) (O.taken out.old) (O.taken out.new) }
    ensures last { TestsLast (D.tests desk.old) (D.tests desk.new) }
    ensures kept { D.kept desk.new ≡ D.kept desk.old }
    ensures cause { HasCause (O.faults out.old) (O.faults out.new) (at_writes result) }
    ensures stops { O.faults out.old ≡ 0 → O.late out.new ≡ O.late out.old }
{
    match desk.roll(alloc) {
        Ok(book) => write_rolled(alloc, &book, out),
        Err(RollFault::LifeFull(_)) => write(out, b"# life full\n"),
        Err(RollFault::NoMemory) => Err(ConsoleEnd::NoMemory),
    }
}
