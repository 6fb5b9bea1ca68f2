//! `live` over 64 dialers, and the dialers in memory that the tests hand it.
ghost use Rattle.std.specs.Prelude.{◌≡◌, IfOk};

use super::words;
use device_dialers::{CutDialer, DeviceDialer};
use exporter_commands::{Ended, live};
use inverter_sim::Bank;
use limiter_num::{Rating, Rules};
use plant_book::Unit;
use std::alloc::{AllocError, Global};
use std::process::Abort;
use std::sync::Wait;
use std::test::Fail;
use std::thread::Threads;
use world_traits::{BytesSink, BytesSource, Clock, Dialer, PlayDialer, PlayLink, StepClock};

/// The number of a read or a write that isn't reached.
pub const NONE: u32 = 99;

/// What the command line, the site file and the console hold, and which calls on them and on the output fail.
#[derive(Clone, Copy)]
pub struct Given<'a> {
    /// The words of the command line, with a space between two.
    pub line: &'a str,
    pub site: &'a str,
    /// The lines that are typed into the console.
    pub typed: &'a str,
    /// The numbers of the read of the site file, of that of the console, and of the write that fail.
    pub fails: (u32, u32, u32),
}

/// Words for this site file, where nobody types, and nothing fails.
pub fn unattended<'a>(line: &'a str, site: &'a str) -> Given<'a> {
    Given {
        line,
        site,
        typed: "",
        fails: (NONE, NONE, NONE),
    }
}

/// A source of the bytes of a text, whose read of this number fails.
fn source(alloc: Global, text: &str, fails: u32) -> Result<BytesSource, AllocError> {
    let bytes = Vec::from_slice(alloc, text.as_bytes())?;
    Ok(BytesSource::new(bytes, vec![in alloc; fails]?))
}

/// How `live` ends with what is given, and what it writes. Without 64 dialers it ends as with bad words.
pub fn run_over<R: Threads + Wait + Sync, N: Dialer + Send, K: Clock + Sync>(
    rt: &R,
    alloc: Global,
    given: Given,
    dialers: &mut Vec<N>,
    clock: &K,
) -> Result<(Ended, BytesSink), AllocError> {
    let words = words(alloc, given.line)?;
    let mut site = source(alloc, given.site, given.fails.0)?;
    let mut console = source(alloc, given.typed, given.fails.1)?;
    let mut out = BytesSink::new(alloc, vec![in alloc; given.fails.2]?);
    if dialers.len() != 64 {
        return Ok((Ended::BadWords, out));
    }
    let ended = live(
        rt,
        alloc,
        &words,
        &mut site,
        &mut console,
        &mut out,
        dialers,
        clock,
    );
    Ok((ended, out))
}

/// A simulation of an inverter of this many watts.
fn bank(rt: &impl Abort, watts: u16) -> Result<Bank, Fail>
    ensures { IfOk result (λ bank. bank.last ≡ 0) }
{
    let rating = Rating::new(watts, 0, -1).ok().ok_or("rating")?;
    let unit = Unit::new(rating, 100).ok().ok_or("floor")?;
    let rules = Rules::new(1_000, 4_000, 60, 20, 500).ok().ok_or("rules")?;
    let after = rules.tmax();
    assert!(rt; rules.tmin() <= after);
    Ok(Bank::new(unit, rules, 1, after))
}

/// 64 dialers whose links reach simulations of inverters of this many watts. If one is to cut, the first hands on only
/// 7 bytes of the first frame of a write.
pub fn devices<'c>(
    rt: &impl Abort,
    alloc: Global,
    watts: u16,
    clock: &'c StepClock,
    cuts: bool,
) -> Result<Vec<CutDialer<DeviceDialer<'c, StepClock>>>, Fail> {
    let mut dialers = Vec::new(alloc);
    for number in 0..64 {
        let device = DeviceDialer::new(alloc, bank(rt, watts)?, clock, Vec::new(alloc));
        let cut = if cuts && number == 0 { Some(7) } else { None };
        dialers.push(CutDialer::new(device, cut))?;
    }
    Ok(dialers)
}

/// 64 dialers, of which the first makes these links and fails at the calls with these numbers, and the others have no
/// link.
pub fn players(
    alloc: Global,
    links: Vec<PlayLink>,
    failing: Vec<u32>,
) -> Result<Vec<PlayDialer>, AllocError> {
    let mut dialers = vec![in alloc; PlayDialer::new(alloc, links, failing)]?;
    for _ in 1..64 {
        dialers.push(PlayDialer::new(alloc, Vec::new(alloc), Vec::new(alloc)))?;
    }
    Ok(dialers)
}
