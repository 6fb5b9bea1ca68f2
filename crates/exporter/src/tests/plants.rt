//! `run` over simulated inverters in memory.
use super::links::{NONE, devices, run_over, unattended};
use super::plain_commands;
use super::sites::{Inverter, PLANT, Plant, site_file};
use exporter_commands::Ended;
use std::alloc::{AllocError, Global};
use std::test::Fail;
use world_traits::{Link, StepClock};

/// A plant of twelve inverters of 50 kW, which doesn't give all of them their rating.
const LARGE: Plant = Plant {
    cap: 400_000_000,
    book: 100_000,
    policy: "fair",
    ..PLANT
};

/// What the first 7 bytes of a write's frame end with: the protocol, the length and the unit number.
const CUT_END: [u8; 5] = [0, 0, 0, 19, 1];

/// How many bytes the frame of a read-back has.
const READ_BYTES: usize = 12;

/// So many inverters of this many watts, at ports of their own.
fn inverters(alloc: Global, count: u16, watts: u16) -> Result<Vec<Inverter>, AllocError> {
    let mut all = Vec::new(alloc);
    for number in 0..count {
        all.push(Inverter {
            host: "localhost",
            port: 5_020 + number % 64,
            watts,
        })?;
    }
    Ok(all)
}

/// Whether the frames of read-backs were sent on a link, and then the first 7 bytes of a write's.
fn is_cut(link: &Link) -> bool {
    link.sent().len() % READ_BYTES == 7 && link.sent().ends_with(&CUT_END)
}

/// Whether a line of a book is an ask of the first inverter that was granted.
fn is_granted(line: &str) -> bool {
    line.starts_with("ask ") && line.split(' ').nth(2) == Some("0") && line.contains("= granted ")
}

/// The number that is the word of a line at this place, from 0.
fn number_at(line: &str, place: usize) -> Option<u64> {
    line.split(' ').nth(place)?.parse::<u64>().ok()
}

/// Behind the granted ask of this line a new link, and read-backs of the floor up to the last moment at which that write
/// may act, and right behind it: it stays reserved, and is freed.
fn probe(alloc: Global, line: &str) -> Result<String, Fail> {
    let at = number_at(line, 1).ok_or("the moment")?;
    let raw = number_at(line, 3).ok_or("the raw percentage")?;
    let last = at.saturating_add(5_000);
    let behind = last.saturating_add(1);
    let reserved = raw.saturating_mul(6_000);
    let probe = format!(in alloc;
        "link {at} 0 = linked 2
read {last} 0 = readas 2 1
saw {last} 0 1 100 = freed 0 {reserved}
read {behind} 0 = readas 2 2
saw {behind} 0 2 100 = freed 1 600000
"
    )?;
    Ok(probe)
}

/// The text of a life up to the first write of the first inverter, and the probe behind it.
fn probed(alloc: Global, text: &str) -> Result<String, Fail> {
    let granted = text.lines().find(|line| is_granted(line)).ok_or("a write")?;
    let mut life = String::new(alloc);
    for line in text.lines().take_while(|line| !is_granted(line)) {
        life.push_str(line)?;
        life.push_str("\n")?;
    }
    let probe = probe(alloc, granted)?;
    life.push_str(granted)?;
    life.push_str("\n")?;
    life.push_str(probe.as_str())?;
    Ok(life)
}

#[test]
fn a_write_that_was_cut_short(rt: HostRuntime) -> Result<(), Fail> {
    let alloc = rt.alloc();
    let clock = StepClock::new(0, 1);
    let mut dialers = devices(&rt, alloc, 6_000, &clock, true)?;
    let site = site_file(alloc, PLANT, &inverters(alloc, 2, 6_000)?)?;
    let given = unattended("run 200", site.as_str());
    let (ended, out) = run_over(&rt, alloc, given, &mut dialers, &clock)?;
    assert!(rt; ended == Ended::Done);
    let log = dialers.first().ok_or("the first dialer")?.inner().log();
    let cut = log.link(0).ok_or("the link that was cut")?;
    assert!(rt; is_cut(cut) && log.count() == 2);
    let book = out
        .taken()
        .strip_suffix(b"# worker 0 turns\n# worker 1 turns\n");
    let book = book.ok_or("the ends of the workers")?;
    let (_, again) = plain_commands::run(alloc, "replay", out.taken(), NONE, NONE)?;
    assert!(rt; again.taken() == book);

    // The write stays reserved as long as it may act.
    let text = std::str::from_utf8(book).ok().ok_or("text")?;
    let probed = probed(alloc, text)?;
    let (_, again) = plain_commands::run(alloc, "replay", probed.as_bytes(), NONE, NONE)?;
    assert!(rt; again.taken() == probed.as_bytes());

    // The other inverter has one link to the end, with a read-back in each turn.
    let log = dialers.get(1).ok_or("the other dialer")?.inner().log();
    let other = log.link(0).ok_or("the other link")?;
    assert!(rt; other.sent().len() > 200 * READ_BYTES && log.count() == 1);
    Ok(())
}

#[test]
fn a_plant_of_twelve(rt: HostRuntime) -> Result<(), Fail> {
    let alloc = rt.alloc();
    let clock = StepClock::new(0, 1);
    let mut dialers = devices(&rt, alloc, 50_000, &clock, false)?;
    let site = site_file(alloc, LARGE, &inverters(alloc, 12, 50_000)?)?;
    let given = unattended("run 1000", site.as_str());
    let (ended, out) = run_over(&rt, alloc, given, &mut dialers, &clock)?;
    assert!(rt; ended == Ended::Done);
    let (_, again) = plain_commands::run(alloc, "replay", out.taken(), NONE, NONE)?;
    assert!(rt; out.taken().starts_with(again.taken()) && out.taken() != again.taken());
    Ok(())
}
