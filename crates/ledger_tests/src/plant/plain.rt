//! The plant gives the replies of the plain slow program, whatever books its life is kept in.
use super::*;
use plant_book::answer;

const RAWS: [u16; 6] = [100, 150, 200, 300, 1_000, 1_001];

/// Caps below the floors, at them, between them and the site's, at the site's, and above it.
const CAPS: [u64; 6] = [
    1_199_999, 1_200_000, 5_000_000, 8_000_000, 10_000_000, 10_000_001,
];

/// The last write that was granted, and the last read that was numbered.
#[derive(Clone, Copy)]
struct Last {
    write: Write,
    read: Read,
}

/// A call of some kind, by the digits of a number.
fn call_by(digits: u32, at: u64, last: &Last) -> Call {
    let inverter = (digits / 16 % 2) as u8;
    let raw = RAWS[(digits / 32 % 6) as usize];
    let mw = CAPS[(digits / 192 % 6) as usize];
    match digits % 16 {
        0 => Call::Link { at, inverter },
        1..=4 => Call::Ask { at, inverter, raw },
        5 | 6 => Call::Read { at, inverter },
        7..=9 => Call::Saw {
            at,
            inverter: last.read.inverter,
            number: last.read.number,
            raw,
        },
        10 | 11 => Call::Back {
            at,
            inverter: last.write.inverter,
            link: last.write.link,
            number: last.write.number,
        },
        12 => Call::Want { at, inverter, mw },
        13 => Call::Cap { at, mw },
        _ => Call::Tick { at },
    }
}

/// What the plain slow program replies to a call on the book of the plant.
fn plain(rt: &impl Abort, plant: &Plant, call: Call) -> Reply {
    let at = call.at().max(plant.latest());
    let moved = call.at_moment(at);
    assert!(rt; moved.at() == at);
    assert!(rt; at <= MOMENT_MAX);
    assert!(rt; moved.is_in_range());
    if let Some(inverter) = moved.inverter() {
        assert!(rt; usize::from(inverter) < plant.site().units.len());
    }
    assert!(rt; plant.calls() < plant.site().room);
    answer(plant.book(), &moved)
}

#[test]
fn replies_are_those_of_the_plain_program(rt: HostRuntime) -> Result<(), Fail> {
    let mut plant = opened(rt.alloc(), 10_000_000, Policy::Fair, 4_000).ok_or("open")?;
    let mut rolled = opened(rt.alloc(), 10_000_000, Policy::Fair, 4_000).ok_or("open")?;
    let mut state = 1_u32;
    let mut at = 60_000_u64;
    let mut last = Last {
        write: Write::default(),
        read: Read {
            inverter: 0,
            link: 0,
            number: 0,
            at: 0,
        },
    };
    for _ in 0..600 {
        state = state.wrapping_mul(1_664_525).wrapping_add(1_013_904_223);
        let digits = state >> 8;
        at = at.saturating_add(u64::from(digits / 1_152 % 600));
        let call = call_by(digits, at, &last);
        let reply = plain(&rt, &plant, call);
        assert_eq!(rt; enter(&rt, &mut plant, call), Ok(reply), "{call:?}");
        assert_eq!(rt; enter(&rt, &mut rolled, call), Ok(reply), "{call:?}");
        assert_eq!(rt; rolled.ceiling(), plant.ceiling());
        if digits / 64 % 8 == 0 {
            assert!(rt; rolled.roll(rt.alloc()).is_ok());
        }
        match reply {
            Reply::Granted(write) => last.write = write,
            Reply::ReadAs(read) => last.read = read,
            _ => {}
        }
    }
    Ok(())
}
