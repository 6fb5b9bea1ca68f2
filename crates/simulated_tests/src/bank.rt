ghost use Rattle.std.specs.Prelude.{◌≡◌, ◌≤◌, IfOk, IsTrue, length};
ghost use Rattle.inverter_sim.specs.Replies.{HasReadCount};

use inverter_sim::Bank;
use limiter_num::{MOMENT_MAX, Rating, Rules};
use modbus_pdu::{Regs, Reply, Request, encode_reply};
use plant_book::Unit;
use std::process::Abort;
use std::test::Fail;

/// An inverter of 6 kW with a floor of 600 W, which holds a limit as shortly as the tolerance allows.
fn bank(rt: &impl Abort) -> Result<Bank, Fail>
    ensures { IfOk result (λ bank. bank.last ≡ 0) }
{
    let rating = Rating::new(6_000, 0, -1).ok().ok_or("rating")?;
    let unit = Unit::new(rating, 100).ok().ok_or("floor")?;
    let rules = Rules::new(1_000, 4_000, 60, 20, 500).ok().ok_or("rules")?;
    let after = rules.tmin();
    assert!(rt; after <= rules.tmax());
    Ok(Bank::new(unit, rules, 1, after))
}

/// Whether a read asks for as many registers as one may.
fn has_read_count(request: &Request) -> bool
    ensures { IsTrue result → HasReadCount request.now }
{
    match request {
        Request::ReadRegs { count, .. } => (1..=125).contains(count),
        Request::WriteRegs { .. } => true,
    }
}

fn read(start: u16, count: u16) -> Request {
    Request::ReadRegs { start, count }
}

fn write(start: u16, values: &[u16]) -> Request
    requires { length values.now ≤ 125 }
{
    Request::WriteRegs {
        start,
        values: Regs::from_slice(values),
    }
}

fn shown(values: &[u16]) -> Reply
    requires { length values.now ≤ 125 }
{
    Reply::Regs(Regs::from_slice(values))
}

fn refused(function: u8, code: u8) -> Reply {
    Reply::Exception { function, code }
}

const WROTE: Reply = Reply::Wrote {
    start: 40_310,
    count: 6,
};

/// A write of a limit, with the floor behind it for a minute.
fn limit(raw: u16) -> Request {
    write(40_310, &[1, raw, 100, 1, 0, 60])
}

const READ_BACK: Request = Request::ReadRegs {
    start: 40_310,
    count: 8,
};

/// What a read-back shows of a limit with so many seconds left.
fn limit_shown(raw: u16, left: u16) -> Reply {
    shown(&[1, raw, 100, 1, 0, 60, 0, left])
}

/// Hands an inverter these requests at their moments, and compares its replies.
fn compare(rt: &impl Abort, rows: &[(u64, Request, Reply)]) -> Result<(), Fail> {
    let mut bank = bank(rt)?;
    let mut last = 0;
    for (now, request, reply) in rows {
        assert!(rt; last <= *now && *now <= MOMENT_MAX && has_read_count(request));
        assert_eq!(rt; bank.reply(*now, request), *reply, "at {now}: {request:?}");
        last = *now;
    }
    Ok(())
}

#[test]
fn the_mark_the_headers_and_the_end(rt: HostRuntime) -> Result<(), Fail> {
    let rows = [
        (0, read(40_000, 2), shown(&[0x5375, 0x6E53])),
        (0, read(40_002, 2), shown(&[1, 66])),
        (0, read(40_070, 2), shown(&[701, 153])),
        (0, read(40_225, 2), shown(&[702, 50])),
        (0, read(40_277, 2), shown(&[703, 17])),
        (0, read(40_296, 2), shown(&[704, 65])),
        (0, read(40_363, 2), shown(&[0xFFFF, 0])),
    ];
    compare(&rt, &rows)
}

#[test]
fn outside_the_map_nothing_is_read(rt: HostRuntime) -> Result<(), Fail> {
    let rows = [
        (0, read(40_364, 2), refused(3, 2)),
        (0, read(39_999, 2), refused(3, 2)),
        (0, read(65_535, 125), refused(3, 2)),
    ];
    compare(&rt, &rows)
}

#[test]
fn the_points_of_an_inverter(rt: HostRuntime) -> Result<(), Fail> {
    // WMax and its power of ten, that of the limit, whether service may be entered, and the floor.
    let rows = [
        (0, read(40_250, 2), shown(&[0, 6_000])),
        (0, read(40_270, 2), shown(&[0, 0])),
        (0, read(40_350, 2), shown(&[0xFFFF, 0])),
        (0, read(40_279, 2), shown(&[1, 0])),
        (0, READ_BACK, limit_shown(100, 0)),
    ];
    compare(&rt, &rows)
}

#[test]
fn a_limit_is_held_until_its_timer(rt: HostRuntime) -> Result<(), Fail> {
    // It reverts 58,300 ms after the write.
    let rows = [
        (1_000, limit(1_000), WROTE),
        (1_299, READ_BACK, limit_shown(1_000, 59)),
        (1_300, READ_BACK, limit_shown(1_000, 58)),
        (59_299, READ_BACK, limit_shown(1_000, 1)),
        (59_300, READ_BACK, limit_shown(100, 0)),
    ];
    compare(&rt, &rows)
}

#[test]
fn a_second_limit_is_held_anew(rt: HostRuntime) -> Result<(), Fail> {
    let rows = [
        (60_000, limit(700), WROTE),
        (90_000, limit(0), WROTE),
        (148_299, READ_BACK, limit_shown(0, 1)),
        (148_300, READ_BACK, limit_shown(100, 0)),
    ];
    compare(&rt, &rows)
}

#[test]
fn a_write_of_other_registers_is_refused(rt: HostRuntime) -> Result<(), Fail> {
    let rows = [
        (0, write(40_309, &[1, 500, 100, 1, 0, 60]), refused(16, 2)),
        (0, write(40_310, &[1, 500, 100, 1, 0]), refused(16, 2)),
        (
            0,
            write(40_310, &[1, 500, 100, 1, 0, 60, 0]),
            refused(16, 2),
        ),
        (0, READ_BACK, limit_shown(100, 0)),
    ];
    compare(&rt, &rows)
}

#[test]
fn a_write_of_other_values_is_refused(rt: HostRuntime) -> Result<(), Fail> {
    let rows = [
        (0, write(40_310, &[0, 500, 100, 1, 0, 60]), refused(16, 3)),
        (0, limit(1_001), refused(16, 3)),
        (0, write(40_310, &[1, 500, 101, 1, 0, 60]), refused(16, 3)),
        (0, write(40_310, &[1, 500, 100, 0, 0, 60]), refused(16, 3)),
        (0, write(40_310, &[1, 500, 100, 1, 60, 0]), refused(16, 3)),
        (0, READ_BACK, limit_shown(100, 0)),
    ];
    compare(&rt, &rows)
}

#[test]
fn the_frame_of_the_first_read_and_what_is_held(rt: HostRuntime) -> Result<(), Fail> {
    let mut bank = bank(&rt)?;
    let read = Request::ReadRegs {
        start: 40_000,
        count: 2,
    };
    let mark = bank.reply(0, &read);
    assert_eq!(rt;
        encode_reply(&mark).as_slice(),
        [0x03, 0x04, 0x53, 0x75, 0x6E, 0x53].as_slice()
    );
    assert_eq!(rt; bank.number(), 1);
    assert_eq!(rt; bank.held(0), 100);
    Ok(())
}
