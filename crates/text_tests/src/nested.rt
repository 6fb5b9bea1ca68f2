use busbars::{BusCause, BusFault};
use nested_replay::{NestedFault, Replayed, replay_nested};
use script_text::{LineKind, SCRIPT_BYTES_MAX};
use std::alloc::Global;
use std::process::Abort;
use std::test::Fail;

const SITE: &str = "site 10000000 1000 4000 60 20 500 open 1000\n";

const UNIT: &str = "inverter 6000 0 -1 100\n";

const BUS: &str = "bus 4000000 0 1\n";

/// What comes of an input.
fn replayed(
    rt: &impl Abort,
    alloc: Global,
    text: &str,
) -> Result<Result<Replayed, NestedFault>, Fail> {
    assert!(rt; text.len() <= SCRIPT_BYTES_MAX);
    Ok(replay_nested(alloc, text.as_bytes()))
}

/// Whether the lines of an input's text end with these.
fn ends_with(rt: &impl Abort, alloc: Global, text: &str, lines: &str) -> Result<bool, Fail> {
    match replayed(rt, alloc, text)? {
        Ok(done) => Ok(done.text.ends_with(lines.as_bytes())),
        Err(_) => Err("no replay".into()),
    }
}

/// Asserts that a line of an input is its first bad one.
fn asserts_bad(
    rt: &impl Abort,
    alloc: Global,
    text: &str,
    line: u32,
    kind: LineKind,
) -> Result<(), Fail> {
    let fault = replayed(rt, alloc, text)?.err();
    assert_eq!(rt; fault, Some(NestedFault::BadLine { line, kind }));
    Ok(())
}

#[test]
fn an_ask_that_a_bus_refuses(rt: HostRuntime) -> Result<(), Fail> {
    let alloc = rt.alloc();
    let head = format!(in alloc;
        "{BUS}{BUS}# r\n{BUS}{SITE}{UNIT}{UNIT}begin 0\nlink 0 0\nlink 0 1\n"
    )?;
    let full = format!(in alloc; "{head}ask 66701 0 1000\n")?;
    let lines = "tick 66701 = total 1200000\nask 66701 0 1000 = busfull 0 2800000\n";
    assert!(rt; ends_with(&rt, alloc, full.as_str(), lines)?);
    let fits = format!(in alloc; "{head}ask 66701 0 566\n")?;
    assert!(rt; ends_with(&rt, alloc, fits.as_str(), "ask 66701 0 566 = granted 1 1\n")?);
    let above = format!(in alloc; "{head}ask 66701 0 567\n")?;
    assert!(rt;
        ends_with(
            &rt,
            alloc,
            above.as_str(),
            "ask 66701 0 567 = busfull 0 2800000\n"
        )?
    );
    Ok(())
}

#[test]
fn the_first_bad_line(rt: HostRuntime) -> Result<(), Fail> {
    let alloc = rt.alloc();
    let mut many = String::from_str(alloc, "# none\r\n")?;
    for _ in 0..33 {
        many.push_str("bus 4000000 0 0 = a bus\r\n")?;
    }
    asserts_bad(&rt, alloc, many.as_str(), 34, LineKind::Form)?;
    let late = format!(in alloc; "{BUS}{SITE}{UNIT}begin 0\n{BUS}")?;
    asserts_bad(&rt, alloc, late.as_str(), 5, LineKind::Form)?;
    let restart = format!(in alloc; "{BUS}{SITE}{UNIT}begin 0\nrestart 99999999999999999999999\n")?;
    asserts_bad(&rt, alloc, restart.as_str(), 5, LineKind::Form)?;
    asserts_bad(&rt, alloc, "bus 1 256 0\n", 1, LineKind::Value)?;
    asserts_bad(&rt, alloc, "bus 1 2\n", 1, LineKind::Form)
}

#[test]
fn a_bus_that_is_refused(rt: HostRuntime) -> Result<(), Fail> {
    let alloc = rt.alloc();
    let rest = format!(in alloc; "{SITE}{UNIT}{UNIT}{UNIT}begin 0\n")?;
    let range = format!(in alloc; "bus 9000000 0 3\n{rest}")?;
    let fault = replayed(&rt, alloc, range.as_str())?.err();
    let cause = BusCause::Range;
    assert_eq!(rt;
        fault,
        Some(NestedFault::BadBus(BusFault { bus: 0, cause }))
    );
    let crossing = format!(in alloc; "bus 9000000 0 1\nbus 9000000 1 2\n{rest}")?;
    let fault = replayed(&rt, alloc, crossing.as_str())?.err();
    let cause = BusCause::Crossing;
    assert_eq!(rt;
        fault,
        Some(NestedFault::BadBus(BusFault { bus: 1, cause }))
    );
    let over = format!(in alloc; "bus 1199999 0 1\n{rest}")?;
    let fault = replayed(&rt, alloc, over.as_str())?.err();
    let cause = BusCause::FloorsOver(1_200_000);
    assert_eq!(rt;
        fault,
        Some(NestedFault::BadBus(BusFault { bus: 0, cause }))
    );
    Ok(())
}

#[test]
fn a_full_book(rt: HostRuntime) -> Result<(), Fail> {
    let alloc = rt.alloc();
    let rest = "inverter 6000 0 -1 100\nbegin 0\nlink 0 0\nask 66701 0 100\nlink 66702 0\n";
    let two = format!(in alloc; "site 10000000 1000 4000 60 20 500 open 2\n{rest}")?;
    let Ok(done) = replayed(&rt, alloc, two.as_str())? else {
        return Err("no replay".into());
    };
    assert_eq!(rt; done.full, Some(2));
    assert!(rt;
        done.text
            .ends_with(b"link 0 0 = linked 1\ntick 66701 = total 600000\n")
    );
    let one = format!(in alloc; "site 10000000 1000 4000 60 20 500 open 1\n{rest}")?;
    let Ok(done) = replayed(&rt, alloc, one.as_str())? else {
        return Err("no replay".into());
    };
    assert_eq!(rt; done.full, Some(1));
    assert!(rt; done.text.ends_with(b"link 0 0 = linked 1\n"));
    Ok(())
}
