//! `live` over the links of one inverter, and of two of which one at most is reached.
use super::links::{Given, NONE, devices, players, run_over, unattended};
use super::sites::{INVERTER, Inverter, PLANT, Plant, site_file};
use super::{comes_to, first_lines};
use exporter_commands::{Ended, LiveFault};
use std::test::Fail;
use world_traits::{Move, PlayLink, StepClock};

/// What commissioning an inverter as the site file says writes.
const COMMISSIONED: &str = "found base 40296 wmax 6000 wsf 0 psf -1
commissioned 0
";

#[test]
fn an_inverter_is_commissioned_and_a_file_or_an_output_fails(rt: HostRuntime) -> Result<(), Fail> {
    let alloc = rt.alloc();
    let site = site_file(alloc, PLANT, &[INVERTER])?;

    // The second read finds the end of the file. Commissioning writes two lines, each by itself.
    let rows = [
        ("commission 0", (NONE, NONE, NONE), Ended::Done, 2),
        ("commission 0", (1, NONE, NONE), Ended::ReadFault, 0),
        ("commission 0", (NONE, NONE, 1), Ended::WriteFault, 1),
        ("run 1", (NONE, NONE, 0), Ended::WriteFault, 0),
    ];
    for (line, fails, end, lines) in rows {
        let clock = StepClock::new(0, 1);
        let mut dialers = devices(&rt, alloc, 6_000, &clock, false)?;
        let given = Given {
            fails,
            ..unattended(line, site.as_str())
        };
        let came = run_over(&rt, alloc, given, &mut dialers, &clock)?;
        let text = first_lines(alloc, COMMISSIONED, lines)?;
        comes_to(&rt, line, &came, end, text.as_str());
    }
    Ok(())
}

/// The first request of a commissioning: it reads the mark of the register map.
const MARK_READ: [u8; 12] = [0, 1, 0, 0, 0, 6, 1, 3, 0x9C, 0x40, 0, 2];

/// Its reply.
const MARK_REPLY: [u8; 13] = [0, 1, 0, 0, 0, 7, 1, 3, 4, 0x53, 0x75, 0x6E, 0x53];

#[test]
fn a_link_that_takes_half_a_request_and_one_that_is_served(rt: HostRuntime) -> Result<(), Fail> {
    let alloc = rt.alloc();
    let site = site_file(alloc, PLANT, &[INVERTER])?;

    // How many bytes the link takes and what comes on it, and then what was sent on it and how many receives there were.
    let refused = Ended::Refused(LiveFault::Send);
    let (none, read) = ([].as_slice(), MARK_READ.as_slice());
    let rows = [
        ("commission 0", 5, none, refused, &MARK_READ[..5], 0),
        (
            "serve 0 3",
            100,
            read,
            Ended::Done,
            MARK_REPLY.as_slice(),
            2,
        ),
    ];
    for (line, takes, heard, end, sent, answers) in rows {
        let moves = vec![in alloc; Move::Bytes(Vec::from_slice(alloc, heard)?)]?;
        let links = vec![in alloc; PlayLink { takes, moves }]?;
        let mut dialers = players(alloc, links, Vec::new(alloc))?;
        let clock = StepClock::new(0, 1);
        let given = unattended(line, site.as_str());
        let came = run_over(&rt, alloc, given, &mut dialers, &clock)?;
        comes_to(&rt, line, &came, end, "");
        let log = dialers.first().ok_or("the first dialer")?.log();
        let link = log.link(0).ok_or("its link")?;
        assert!(rt; log.count() == 1 && link.host() == "plant" && link.port() == 5_020);
        assert!(rt; link.sent() == sent && link.answers() == answers);
    }
    Ok(())
}

/// The head of the text of two inverters, and the ends of their workers.
const PAIR_BEGUN: &str = "site 10000000 1000 4000 60 20 500 open 2000
inverter 6000 0 -1 100
inverter 6000 0 -1 100
begin 1
";

const PAIR_ENDS: &str = "# worker 0 turns
# worker 1 turns
";

/// What a link that takes all, and answers nothing, leaves in the book.
const UNANSWERED: &str = "link 2 0 = linked 1
ask 3 0 1000 = silent 66701
read 4 0 = readas 1 1
";

/// The request of the first read-back.
const LIMIT_READ: [u8; 12] = [0, 1, 0, 0, 0, 6, 1, 3, 0x9D, 0x76, 0, 8];

/// A plant whose workers don't rest, so that none of them sets the clock forward for the other.
const RESTLESS: Plant = Plant { pause: 0, ..PLANT };

/// Two inverters at hosts of their own.
const PAIR: [Inverter; 2] = [
    Inverter {
        host: "first",
        ..INVERTER
    },
    Inverter {
        host: "second",
        port: 5_021,
        ..INVERTER
    },
];

#[test]
fn two_inverters_without_a_link_and_with_one_that_is_silent(rt: HostRuntime) -> Result<(), Fail> {
    let alloc = rt.alloc();
    let site = site_file(alloc, RESTLESS, &PAIR)?;
    for (count, calls) in [(0, ""), (1, UNANSWERED)] {
        let mut links = Vec::new(alloc);
        for _ in 0..count {
            let moves = Vec::new(alloc);
            let takes = 1_000;
            links.push(PlayLink { takes, moves })?;
        }
        let mut dialers = players(alloc, links, Vec::new(alloc))?;
        let clock = StepClock::new(0, 1);
        let given = unattended("run 1", site.as_str());
        let came = run_over(&rt, alloc, given, &mut dialers, &clock)?;
        let text = format!(in alloc; "{PAIR_BEGUN}{calls}{PAIR_ENDS}")?;
        comes_to(&rt, calls, &came, Ended::Done, text.as_str());
        let log = dialers.first().ok_or("the first dialer")?.log();
        assert!(rt; log.count() == count);
        if let Some(link) = log.link(0) {
            assert!(rt; link.sent() == LIMIT_READ.as_slice());
        }
    }
    Ok(())
}
