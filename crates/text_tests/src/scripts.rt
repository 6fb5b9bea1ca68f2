use script_text::{
    LineKind, SCRIPT_BYTES_MAX, Script, ScriptFault, SiteSize, script_of, site_size,
};
use std::alloc::Global;
use std::process::Abort;
use std::test::Fail;

const SITE: &str = "site 10000000 1000 4000 60 20 500 open 1000\n";

/// A line of each kind behind the inverters, two rolls in a row and two restarts at one moment.
const EVERY: &str = "begin 0
# a remark
link 1 0
want 2 1 500
ask 3 1 1000
read 3 1
saw 3 1 1 1000
back 3 1 1 1
cap 4 5000000
tick 4
roll
roll
stop 5
restart 80000
restart 80000
link 80001 65
";

/// A script of so many inverters, with these lines behind them.
fn text_of(alloc: Global, inverters: u32, behind: &str) -> Result<String, Fail> {
    let mut text = String::from_str(alloc, SITE)?;
    for _ in 0..inverters {
        text.push_str("inverter 6000 0 -1 100\n")?;
    }
    text.push_str(behind)?;
    Ok(text)
}

/// What a script of 66 inverters spells.
fn read(rt: &impl Abort, alloc: Global, behind: &str) -> Result<Result<Script, ScriptFault>, Fail> {
    let text = text_of(alloc, 66, behind)?;
    assert!(rt; text.len() <= SCRIPT_BYTES_MAX);
    Ok(script_of(alloc, text.as_bytes()))
}

#[test]
fn a_script_of_every_kind_of_line(rt: HostRuntime) -> Result<(), Fail> {
    let alloc = rt.alloc();
    let Ok(script) = read(&rt, alloc, EVERY)? else {
        return Err("no script".into());
    };
    assert_eq!(rt; script.site.units.len(), 66);
    assert_eq!(rt; script.lines.len(), 14);

    let bad = format!(in alloc; "{EVERY}ask 80002 66 0\n")?;
    let fault = read(&rt, alloc, bad.as_str())?.err();
    let kind = LineKind::Inverter;
    assert_eq!(rt; fault, Some(ScriptFault::BadLine { line: 84, kind }));
    Ok(())
}

#[test]
fn the_size_of_a_site_of_three_inverters(rt: HostRuntime) -> Result<(), Fail> {
    let text = text_of(rt.alloc(), 3, "begin 0\nlink 0 2\n")?;
    assert!(rt; text.len() <= SCRIPT_BYTES_MAX);
    let size = SiteSize {
        cap: 10_000_000,
        inverters: 3,
        floors: 1_800_000,
    };
    assert_eq!(rt; site_size(text.as_bytes()), Ok(size));
    Ok(())
}
