//! `plain` over an input and an output in memory.
use super::{comes_to, words};
use exporter_commands::{Ended, plain};
use std::alloc::{AllocError, Global};
use std::test::Fail;
use world_traits::{BytesSink, BytesSource};

const SCRIPT: &str = "site 10000000 1000 4000 60 20 500 open 1000
inverter 6000 0 -1 100
inverter 6000 0 -1 100
begin 0
link 0 0
link 0 1
ask 66701 0 1000
";

const LIVES: &str = "site 10000000 1000 4000 60 20 500 open 1000
inverter 6000 0 -1 100
inverter 6000 0 -1 100
begin 0
link 0 0 = linked 1
link 0 1 = linked 1
ask 66701 0 1000 = granted 1 1
";

/// The same script under a bus that holds both, and what is done of it.
const BUSES: &str = "bus 4000000 0 1
site 10000000 1000 4000 60 20 500 open 1000
inverter 6000 0 -1 100
inverter 6000 0 -1 100
begin 0
link 0 0
link 0 1
ask 66701 0 1000
";

const HELD_BACK: &str = "bus 4000000 0 1
site 10000000 1000 4000 60 20 500 open 1000
inverter 6000 0 -1 100
inverter 6000 0 -1 100
begin 0
link 0 0 = linked 1
link 0 1 = linked 1
tick 66701 = total 1200000
ask 66701 0 1000 = busfull 0 2800000
";

const SUMMARY: &str = "seed 7 inverters 4 steps 1000
cap 12000000
lives 1
granted 171
freed 80
peak 8604000
";

/// How `plain` ends with these words and this input, and what it writes. The read and the write of these
/// numbers fail.
pub fn run(
    alloc: Global,
    line: &str,
    input: &[u8],
    read: u32,
    write: u32,
) -> Result<(Ended, BytesSink), AllocError> {
    let words = words(alloc, line)?;
    let mut input = BytesSource::new(Vec::from_slice(alloc, input)?, vec![in alloc; read]?);
    let mut output = BytesSink::new(alloc, vec![in alloc; write]?);
    let ended = plain(alloc, &words, &mut input, &mut output);
    Ok((ended, output))
}

/// The script behind a comment that is too long for one read.
fn long_script(alloc: Global) -> Result<String, AllocError> {
    let mut script = String::new(alloc);
    for _ in 0..7_000 {
        script.push_str("# comment\n")?;
    }
    script.push_str(SCRIPT)?;
    Ok(script)
}

#[test]
fn each_command_writes_its_text_and_fails_midway(rt: HostRuntime) -> Result<(), Fail> {
    let alloc = rt.alloc();
    let long = long_script(alloc)?;

    // The third read of the long script finds its end.
    let rows = [
        ("replay", SCRIPT, 9, 9, Ended::Done, LIVES),
        ("nested", BUSES, 9, 9, Ended::Done, HELD_BACK),
        ("simulate 7 4 1000", "", 0, 9, Ended::Done, SUMMARY),
        ("replay", long.as_str(), 1, 9, Ended::ReadFault, ""),
        ("replay", long.as_str(), 3, 9, Ended::Done, LIVES),
        ("replay", SCRIPT, 9, 0, Ended::WriteFault, ""),
    ];
    for (line, input, read, write, end, text) in rows {
        let came = run(alloc, line, input.as_bytes(), read, write)?;
        comes_to(&rt, line, &came, end, text);
    }
    Ok(())
}
