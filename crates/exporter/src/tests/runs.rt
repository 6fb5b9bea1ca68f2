//! `run` with one inverter over links in memory.
use super::links::{NONE, players, run_over, unattended};
use super::sites::{INVERTER, PLANT, Plant, site_file};
use super::{comes_to, first_lines};
use exporter_commands::Ended;
use std::alloc::{AllocError, Global};
use std::process::Abort;
use std::sync::Wait;
use std::test::Fail;
use std::thread::Threads;
use world_traits::{Move, PlayLink, StepClock};

/// A plant whose worker rests for longer than a write may act.
const SLOW: Plant = Plant {
    pause: 70_000,
    book: 1_000,
    ..PLANT
};

/// The book of one inverter of it, in two turns over a link that answers.
const WHOLE: &str = "site 10000000 1000 4000 60 20 500 open 1000
inverter 6000 0 -1 100
begin 1
link 2 0 = linked 1
ask 3 0 1000 = silent 66701
read 4 0 = readas 1 1
saw 6 0 1 100 = freed 0 600000
ask 70007 0 1000 = granted 1 2
read 70009 0 = readas 1 3
saw 70011 0 3 1000 = freed 0 6000000
";

/// How many lines it has up to the write.
const TO_WRITE: usize = 8;

/// How many lines it has up to the read-back behind the write.
const TO_READ: usize = 9;

/// Its book where the first dial failed.
const LATE: &str = "site 10000000 1000 4000 60 20 500 open 1000
inverter 6000 0 -1 100
begin 1
link 70002 0 = linked 1
ask 70003 0 1000 = granted 1 1
";

/// The end of its worker.
const TURNS: &str = "# worker 0 turns\n";

/// The reply to the write.
const WROTE: [u8; 12] = [0, 2, 0, 0, 0, 6, 1, 16, 0x9D, 0x76, 0, 6];

/// The same twice.
const WROTE_TWICE: [u8; 24] = [
    0, 2, 0, 0, 0, 6, 1, 16, 0x9D, 0x76, 0, 6, 0, 2, 0, 0, 0, 6, 1, 16, 0x9D, 0x76, 0, 6,
];

/// Eight replies to another request.
const OTHERS: [u8; 96] = [
    0, 1, 0, 0, 0, 6, 1, 16, 0x9D, 0x76, 0, 6, 0, 1, 0, 0, 0, 6, 1, 16, 0x9D, 0x76, 0, 6, 0, 1, 0,
    0, 0, 6, 1, 16, 0x9D, 0x76, 0, 6, 0, 1, 0, 0, 0, 6, 1, 16, 0x9D, 0x76, 0, 6, 0, 1, 0, 0, 0, 6,
    1, 16, 0x9D, 0x76, 0, 6, 0, 1, 0, 0, 0, 6, 1, 16, 0x9D, 0x76, 0, 6, 0, 1, 0, 0, 0, 6, 1, 16,
    0x9D, 0x76, 0, 6, 0, 1, 0, 0, 0, 6, 1, 16, 0x9D, 0x76, 0, 6,
];

/// What a link plays.
#[derive(Clone, Copy)]
enum Heard {
    Bytes(&'static [u8]),
    /// The reply to the read-back of this number, which shows this raw percentage in two bytes, and this floor.
    Shown(u8, [u8; 2], u8),
    Closed,
}

/// A link that goes wrong in one way, and what comes of it.
#[derive(Clone, Copy)]
struct Case {
    name: &'static str,
    /// What comes on the link.
    heard: &'static [Heard],
    /// The call of the dialer that fails.
    fails: u32,
    /// The book, and how many lines of it are written.
    book: &'static str,
    lines: usize,
    /// What is written behind them.
    behind: &'static str,
}

/// The reply to the first read-back: the inverter holds its floor.
const HELD: Heard = Heard::Shown(1, [0, 100], 100);

/// Each way in which a link goes wrong behind the write.
const CASES: [Case; 8] = [
    Case {
        name: "closed within a frame",
        heard: &[
            HELD,
            Heard::Bytes(&[0, 2, 0, 0, 0, 6, 1, 16]),
            Heard::Closed,
        ],
        fails: NONE,
        book: WHOLE,
        lines: TO_WRITE,
        behind: TURNS,
    },
    Case {
        name: "a reply that comes twice",
        heard: &[
            HELD,
            Heard::Bytes(&WROTE_TWICE),
            Heard::Shown(3, [3, 0xE8], 100),
        ],
        fails: NONE,
        book: WHOLE,
        lines: 10,
        behind: TURNS,
    },
    Case {
        name: "replies to another request",
        heard: &[HELD, Heard::Bytes(&OTHERS)],
        fails: NONE,
        book: WHOLE,
        lines: TO_WRITE,
        behind: TURNS,
    },
    Case {
        name: "no frame",
        heard: &[HELD, Heard::Bytes(&[0, 2, 0, 1])],
        fails: NONE,
        book: WHOLE,
        lines: TO_WRITE,
        behind: TURNS,
    },
    Case {
        name: "an exception",
        heard: &[
            HELD,
            Heard::Bytes(&[0, 2, 0, 0, 0, 3, 1, 0x90, 3]),
            Heard::Shown(3, [0, 100], 100),
        ],
        fails: NONE,
        book: WHOLE,
        lines: TO_READ,
        behind: "saw 70011 0 3 100 = freed 1 600000\n# worker 0 turns\n",
    },
    Case {
        name: "another limit",
        heard: &[HELD, Heard::Bytes(&WROTE), Heard::Shown(3, [1, 0xF4], 100)],
        fails: NONE,
        book: WHOLE,
        lines: TO_READ,
        behind: "saw 70011 0 3 500 = strange 500\n# worker 0 turns\n",
    },
    Case {
        name: "another floor",
        heard: &[HELD, Heard::Bytes(&WROTE), Heard::Shown(3, [3, 0xE8], 101)],
        fails: NONE,
        book: WHOLE,
        lines: TO_READ,
        behind: "# worker 0 unfit pctrvrt 100 101\n",
    },
    Case {
        name: "the first dial fails",
        heard: &[],
        fails: 0,
        book: LATE,
        lines: 5,
        behind: TURNS,
    },
];

/// What comes where nothing goes wrong.
const ANSWERED: Case = Case {
    name: "a call fails",
    heard: &[HELD, Heard::Bytes(&WROTE), Heard::Shown(3, [3, 0xE8], 100)],
    fails: NONE,
    book: WHOLE,
    lines: 10,
    behind: TURNS,
};

/// How many lines of the whole book are written where a call of the dialer fails: the send and the receive of the first
/// read-back, of the write, and of the second read-back; and at last where none fails.
const LINES: [(u32, usize); 7] = [
    (1, 6),
    (2, 6),
    (3, TO_WRITE),
    (4, TO_WRITE),
    (5, TO_READ),
    (6, TO_READ),
    (7, 10),
];

fn move_of(alloc: Global, heard: Heard) -> Result<Move, AllocError> {
    match heard {
        Heard::Bytes(bytes) => Ok(Move::Bytes(Vec::from_slice(alloc, bytes)?)),
        Heard::Shown(number, raw, floor) => {
            let bytes = [
                0, number, 0, 0, 0, 19, 1, 3, 16, 0, 1, raw[0], raw[1], 0, floor, 0, 1, 0, 0, 0,
                60, 0, 0, 0, 0,
            ];
            Ok(Move::Bytes(Vec::from_slice(alloc, &bytes)?))
        }
        Heard::Closed => Ok(Move::Closed),
    }
}

/// That a run of two turns comes to what this case says.
fn check<R: Abort + Threads + Wait + Sync>(rt: &R, alloc: Global, case: Case) -> Result<(), Fail> {
    let mut moves = Vec::new(alloc);
    for heard in case.heard {
        moves.push(move_of(alloc, *heard)?)?;
    }
    let takes = 1_000;
    let links = vec![in alloc; PlayLink { takes, moves }]?;
    let mut dialers = players(alloc, links, vec![in alloc; case.fails]?)?;
    let site = site_file(alloc, SLOW, &[INVERTER])?;
    let clock = StepClock::new(0, 1);
    let given = unattended("run 2", site.as_str());
    let came = run_over(rt, alloc, given, &mut dialers, &clock)?;
    let mut text = first_lines(alloc, case.book, case.lines)?;
    text.push_str(case.behind)?;
    comes_to(rt, case.name, &came, Ended::Done, text.as_str());
    Ok(())
}

#[test]
fn a_link_that_goes_wrong_and_a_dialer_that_fails_at_each_call(
    rt: HostRuntime,
) -> Result<(), Fail> {
    let alloc = rt.alloc();
    for case in &CASES {
        check(&rt, alloc, *case)?;
    }
    for (fails, lines) in LINES {
        check(
            &rt,
            alloc,
            Case {
                fails,
                lines,
                ..ANSWERED
            },
        )?;
    }
    Ok(())
}
