ghost use Rattle.std.specs.Prelude.{◌≡◌, ◌<◌, OnOk};

use super::{closed, desk, hand_in, taken};
use ledger_desk::Desk;
use plant_book::{Call, Reply};
use plant_desk::DeskOf;
use plant_ledger::{BookFull, Goal, Ticket};
use std::alloc::Global;
use std::process::Abort;
use std::test::Fail;

/// The first three calls of a book: both inverters are linked, and all that the first has is granted to it.
fn granted<D: Desk>(rt: &impl Abort, desk: &mut D) -> Result<Ticket, Fail>
    requires { 1 < (D.state desk.old).inverters }
    ensures inverters { OnOk result ((D.state desk.new).inverters ≡ (D.state desk.old).inverters) }
    ensures kept { D.kept desk.new ≡ D.kept desk.old }
{
    assert!(rt; desk.call(Call::Link { at: 0, inverter: 0 }).is_ok());
    assert!(rt; desk.call(Call::Link { at: 0, inverter: 1 }).is_ok());
    let ask = Call::Ask {
        at: 66_701,
        inverter: 0,
        raw: 1_000,
    };
    let granted = desk.call(ask).ok().ok_or("ask")?;
    Ok(granted.ticket.ok_or("ticket")?)
}

/// Gives a grant back, sees that it is free again, and finds the book full with four calls.
fn fills<D: Desk>(rt: &impl Abort, desk: &mut D, ticket: Ticket)
    requires { 1 < (D.state desk.old).inverters }
    ensures inverters { (D.state desk.new).inverters ≡ (D.state desk.old).inverters }
    ensures kept { D.kept desk.new ≡ D.kept desk.old }
{
    assert!(rt; ticket.write().inverter < 1);
    assert_eq!(rt; desk.release(ticket, 66_702), Ok(Reply::Taken));
    let goal = Goal {
        raw: 1_000,
        reserved: 600_000,
        stop: false,
    };
    assert_eq!(rt; desk.goal(0), goal);
    let full = desk.call(Call::Tick { at: 66_702 }).err();
    assert_eq!(rt; full, Some(BookFull { calls: 4 }));
}

/// Rolls the full book, and finds the next one full with as many calls, where a ticket is given back.
fn rolls<D: Desk>(rt: &impl Abort, alloc: Global, desk: &mut D) -> Result<(), Fail>
    requires { 1 < (D.state desk.old).inverters }
    ensures { D.kept desk.new ≡ D.kept desk.old }
{
    let ended = desk.roll(alloc).ok().ok_or("roll")?;
    assert_eq!(rt; ended.entries.len(), 4);
    let ticket = granted(rt, desk)?;
    assert!(rt; ticket.write().inverter < 1);
    assert!(rt; desk.call(Call::Tick { at: 66_702 }).is_ok());
    let refused = desk.release(ticket, 66_702);
    assert_eq!(rt; refused, Err(BookFull { calls: 4 }));
    Ok(())
}

#[test]
fn a_pass_works_as_any_desk(rt: HostRuntime) -> Result<(), Fail> {
    let (shared, mut passes) = desk(rt.alloc(), 4, 1)?;
    let mut one = DeskOf::new(&rt, &shared, taken(&shared, &mut passes)?);
    let ticket = granted(&rt, &mut one)?;
    fills(&rt, &mut one, ticket);
    rolls(&rt, rt.alloc(), &mut one)?;
    hand_in(&shared, &mut passes, one.into_pass())?;
    assert_eq!(rt; closed(shared, passes)?.calls(), 4);
    Ok(())
}
