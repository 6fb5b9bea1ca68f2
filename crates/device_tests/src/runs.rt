ghost use Rattle.std.specs.Prelude.{◌≤◌, None};

use arrayvec::ArrayString;
use commission_run::*;
use commissioning::CommissionFault;
use limiter_num::{Point, Rating, Rules};
use mbap_frames::FrameFault;
use plant_book::{Port, Unit};
use std::alloc::{AllocError, Global};
use std::test::Fail;
use world_traits::{
    BytesSink, DialFailed, Dialer, Link, Move, PlayDialer, PlayLink, Received, RecvFailed,
    SendFailed, Sink,
};

/// Commissions an inverter with a floor of 10 percent at unit 1, under timers of a minute.
fn commissioned<N: Dialer, O: Sink>(
    wmax: u16,
    dialer: &mut N,
    out: &mut O,
) -> Result<Result<(), Stop>, Fail> {
    let rating = Rating::new(wmax, 0, -1).ok().ok_or("a rating")?;
    let unit = Unit::new(rating, 100).ok().ok_or("a floor")?;
    let rules = Rules::new(1_000, 4_000, 60, 20, 500).ok().ok_or("rules")?;
    let host = ArrayString::from("plant").ok().ok_or("a host")?;
    let port = Port {
        host,
        port: 5_020,
        unit: 1,
        base: 40_296,
    };
    let job = Job {
        inverter: 0,
        unit,
        port,
        rules,
        wait: 2_000,
    };
    Ok(commission(job, dialer, out))
}

/// The register at an address of an inverter of 6 kW that holds its floor.
fn register(address: u16) -> u16 {
    match address {
        40000 => 0x5375,
        40001 => 0x6E53,
        40002 | 40310 | 40313 => 1,
        40003 => 66,
        40070 => 701,
        40071 => 153,
        40225 => 702,
        40226 => 50,
        40251 => 6000,
        40277 => 703,
        40278 => 17,
        40296 => 704,
        40297 => 65,
        40311 | 40312 => 100,
        40315 => 60,
        40317 => 58,
        40350 | 40363 => 0xFFFF,
        _ => 0,
    }
}

/// The reads of a commissioning but the last: the start of each, and its count of registers.
const READS: [(u16, u8); 9] = [
    (40000, 2),
    (40002, 2),
    (40070, 2),
    (40225, 2),
    (40277, 2),
    (40296, 2),
    (40363, 2),
    (40225, 46),
    (40296, 55),
];

/// Adds the reply to a read.
fn put_registers(bytes: &mut Vec<u8>, number: u8, start: u16, count: u8) -> Result<(), AllocError>
    requires { count ≤ 55 }
{
    bytes.extend_from_slice(&[0, number, 0, 0, 0, 2 * count + 3, 1, 3, 2 * count])?;
    for place in 0..u16::from(count) {
        bytes.extend_from_slice(&register(start.wrapping_add(place)).to_be_bytes())?;
    }
    Ok(())
}

/// Adds the reply to the request of this number.
fn put_reply(bytes: &mut Vec<u8>, number: u8) -> Result<(), AllocError> {
    match number {
        10 => bytes.extend_from_slice(&[0, 10, 0, 0, 0, 6, 1, 16, 0x9D, 0x76, 0, 6]),
        11 => put_registers(bytes, 11, 40310, 8),
        _ => {
            let (start, count) = READS[usize::from(number.wrapping_sub(1) % 9)];
            put_registers(bytes, number, start, count.min(55))
        }
    }
}

/// The replies to the requests up to this number, each a piece.
fn replies(alloc: Global, last: u8) -> Result<Vec<Move>, AllocError> {
    let mut moves = Vec::new(alloc);
    for number in 1..=last {
        let mut bytes = Vec::new(alloc);
        put_reply(&mut bytes, number)?;
        moves.push(Move::Bytes(bytes))?;
    }
    Ok(moves)
}

/// How a run ended, how many bytes were sent, how many receives were answered, and how many bytes were written.
type Seen = (Result<(), Stop>, usize, usize, usize);

/// What comes of a run over a link, where these calls of the dialer and these writes fail.
fn seen_of(
    alloc: Global,
    wmax: u16,
    link: PlayLink,
    failing: Vec<u32>,
    unwritten: Vec<u32>,
) -> Result<Seen, Fail> {
    let mut dialer = PlayDialer::new(alloc, vec![in alloc; link]?, failing);
    let mut out = BytesSink::new(alloc, unwritten);
    let outcome = commissioned(wmax, &mut dialer, &mut out)?;
    let (sent, receives) = match dialer.log().link(0) {
        Some(link) => (link.sent().len(), link.answers()),
        None => (0, 0),
    };
    Ok((outcome, sent, receives, out.taken().len()))
}

/// What comes of a run over a link that takes all and plays these moves.
fn seen(alloc: Global, moves: Vec<Move>) -> Result<Seen, Fail> {
    let link = PlayLink {
        takes: 1_000,
        moves,
    };
    seen_of(alloc, 6000, link, Vec::new(alloc), Vec::new(alloc))
}

/// An end by a refusal.
fn refused(refusal: Refusal) -> Result<(), Stop> {
    Err(Stop::Refused(refusal))
}

/// Whether a link is that of a whole commissioning.
fn is_whole(link: &Link) -> bool {
    let first = [0, 1, 0, 0, 0, 6, 1, 3, 0x9C, 0x40, 0, 2];
    let last_two = [
        0, 10, 0, 0, 0, 19, 1, 16, 0x9D, 0x76, 0, 6, 12, 0, 1, 0, 0x64, 0, 0x64, 0, 1, 0, 0, 0,
        0x3C, 0, 11, 0, 0, 0, 6, 1, 3, 0x9D, 0x76, 0, 8,
    ];
    link.host() == "plant"
        && link.port() == 5_020
        && link.answers() == 11
        && link.sent().len() == 145
        && link.sent().starts_with(&first)
        && link.sent().ends_with(&last_two)
}

/// What a whole commissioning writes.
const WRITTEN: &str = "found base 40296 wmax 6000 wsf 0 psf -1\ncommissioned 0\n";

#[test]
fn eleven_requests_commission_an_inverter(rt: HostRuntime) -> Result<(), Fail> {
    let alloc = rt.alloc();
    let moves = replies(alloc, 11)?;
    let link = PlayLink {
        takes: 1_000,
        moves,
    };
    let mut dialer = PlayDialer::new(alloc, vec![in alloc; link]?, Vec::new(alloc));
    let mut out = BytesSink::new(alloc, Vec::new(alloc));
    let outcome = commissioned(6000, &mut dialer, &mut out)?;
    assert!(rt; outcome.is_ok() && out.taken() == WRITTEN.as_bytes());
    let log = dialer.log();
    assert!(rt; log.count() == 1 && !log.is_up() && is_whole(log.link(0).ok_or("a link")?));
    Ok(())
}

#[test]
fn an_inverter_that_is_not_as_the_site_file_has_it(rt: HostRuntime) -> Result<(), Fail> {
    let alloc = rt.alloc();
    let unfit = CommissionFault::Unfit {
        point: Point::WMax,
        wanted: 5000,
        found: 6000,
    };
    let moves = replies(alloc, 11)?;
    let link = PlayLink {
        takes: 1_000,
        moves,
    };
    let came = seen_of(alloc, 5000, link, Vec::new(alloc), Vec::new(alloc))?;
    assert_eq!(rt; came, (refused(Refusal::Commission(unfit)), 108, 9, 40));
    Ok(())
}

#[test]
fn a_peer_that_does_not_answer(rt: HostRuntime) -> Result<(), Fail> {
    let alloc = rt.alloc();
    let quiet = refused(Refusal::Quiet);
    assert_eq!(rt; seen(alloc, Vec::new(alloc))?, (quiet, 12, 1, 0));
    assert_eq!(rt; seen(alloc, replies(alloc, 1)?)?, (quiet, 24, 2, 0));
    Ok(())
}

/// The reply to the first request.
const MARK: [u8; 13] = [0, 1, 0, 0, 0, 7, 1, 3, 4, 0x53, 0x75, 0x6E, 0x53];

#[test]
fn a_frame_that_is_cut_at_each_byte(rt: HostRuntime) -> Result<(), Fail> {
    let alloc = rt.alloc();
    for cut in 1..13 {
        let front = Vec::from_slice(alloc, &MARK[..cut])?;
        let rest = Vec::from_slice(alloc, &MARK[cut..])?;
        let moves = vec![in alloc; Move::Bytes(front), Move::Bytes(rest), Move::Closed]?;
        let came = seen(alloc, moves)?;
        assert_eq!(rt; came, (refused(Refusal::Closed), 24, 3, 0));
    }
    Ok(())
}

/// The replies to the first two requests.
const TWO: [u8; 26] = [
    0, 1, 0, 0, 0, 7, 1, 3, 4, 0x53, 0x75, 0x6E, 0x53, 0, 2, 0, 0, 0, 7, 1, 3, 4, 0, 1, 0, 66,
];

/// A frame of another number, and the reply to the first request.
const SKIPPED: [u8; 22] = [
    0, 9, 0, 0, 0, 3, 1, 0x83, 2, 0, 1, 0, 0, 0, 7, 1, 3, 4, 0x53, 0x75, 0x6E, 0x53,
];

/// The reply to the first request, and the begin of what is no frame.
const BAD: [u8; 17] = [
    0, 1, 0, 0, 0, 7, 1, 3, 4, 0x53, 0x75, 0x6E, 0x53, 0, 2, 0, 7,
];

#[test]
fn frames_that_come_at_once(rt: HostRuntime) -> Result<(), Fail> {
    let alloc = rt.alloc();
    let closed = refused(Refusal::Closed);
    let bad = refused(Refusal::BadFrame(FrameFault::BadProtocol(7)));
    let cases: [(&[u8], Seen); 3] = [
        (&TWO, (closed, 36, 2, 0)),
        // The request isn't sent again.
        (&SKIPPED, (closed, 24, 2, 0)),
        (&BAD, (bad, 24, 1, 0)),
    ];
    for (bytes, came) in cases {
        let piece = Move::Bytes(Vec::from_slice(alloc, bytes)?);
        let moves = vec![in alloc; piece, Move::Closed]?;
        assert_eq!(rt; seen(alloc, moves)?, came);
    }
    Ok(())
}

#[test]
fn replies_that_come_before_their_requests(rt: HostRuntime) -> Result<(), Fail> {
    let alloc = rt.alloc();
    let mut bytes = Vec::new(alloc);
    for number in 1..=11 {
        put_reply(&mut bytes, number)?;
    }
    // A receive gives 260 bytes of the 348.
    let moves = vec![in alloc; Move::Bytes(bytes)]?;
    assert_eq!(rt; seen(alloc, moves)?, (Ok(()), 145, 2, 55));
    Ok(())
}

#[test]
fn each_call_of_the_dialer_that_fails(rt: HostRuntime) -> Result<(), Fail> {
    let alloc = rt.alloc();
    let cases: [(u32, u32, Seen); 5] = [
        (0, 1_000, (refused(Refusal::Dial), 0, 0, 0)),
        (1, 1_000, (refused(Refusal::Send), 0, 0, 0)),
        (2, 1_000, (refused(Refusal::Recv), 12, 0, 0)),
        (19, 1_000, (refused(Refusal::Send), 108, 9, 40)),
        (99, 17, (refused(Refusal::Send), 17, 1, 0)),
    ];
    for (failing, takes, came) in cases {
        let moves = replies(alloc, 11)?;
        let link = PlayLink { takes, moves };
        let failing = vec![in alloc; failing]?;
        assert_eq!(rt; seen_of(alloc, 6000, link, failing, Vec::new(alloc))?, came);
    }
    Ok(())
}

#[test]
fn each_write_that_fails(rt: HostRuntime) -> Result<(), Fail> {
    let alloc = rt.alloc();
    let cases: [(u32, Seen); 2] = [
        (0, (Err(Stop::WriteFailed), 108, 9, 0)),
        (1, (Err(Stop::WriteFailed), 145, 11, 40)),
    ];
    for (unwritten, came) in cases {
        let moves = replies(alloc, 11)?;
        let link = PlayLink {
            takes: 1_000,
            moves,
        };
        let unwritten = vec![in alloc; unwritten]?;
        assert_eq!(rt;
            seen_of(alloc, 6000, link, Vec::new(alloc), unwritten)?,
            came
        );
    }
    Ok(())
}

/// A dialer that makes no link, and keeps how long it was to wait.
#[derive(Debug, Drop)]
struct Waiting {
    wait: u32,
    faults: u64,
}

impl Dialer for Waiting {
    ghost links = { λ w. None };

    ghost faults = { λ w. w.faults };

    fn dial(&mut self, _host: &str, _port: u16, wait: u32) -> Result<(), DialFailed> {
        self.wait = wait;
        self.faults = self.faults.saturating_add(1);
        Err(DialFailed)
    }

    fn send(&mut self, _bytes: &[u8]) -> Result<usize, SendFailed> {
        self.faults = self.faults.saturating_add(1);
        Err(SendFailed)
    }

    fn recv(&mut self, _into: &mut [u8]) -> Result<Received, RecvFailed> {
        self.faults = self.faults.saturating_add(1);
        Err(RecvFailed)
    }

    fn hang_up(&mut self) {}
}

#[test]
fn the_dial_is_told_how_long_to_wait(rt: HostRuntime) -> Result<(), Fail> {
    let mut dialer = Waiting { wait: 0, faults: 0 };
    let mut out = BytesSink::new(rt.alloc(), Vec::new(rt.alloc()));
    assert_eq!(rt;
        commissioned(6000, &mut dialer, &mut out)?,
        refused(Refusal::Dial)
    );
    assert_eq!(rt; (dialer.wait, dialer.faults), (2_000, 1));
    Ok(())
}

/// A dialer over another, which hands on five bytes of a piece at most.
#[derive(Drop)]
struct Sipping<N> {
    below: N,
}

impl<N: Dialer> Dialer for Sipping<N> {
    ghost links = { λ s. N.links s.below };

    ghost faults = { λ s. N.faults s.below };

    fn dial(&mut self, host: &str, port: u16, wait: u32) -> Result<(), DialFailed> {
        self.below.dial(host, port, wait)
    }

    fn send(&mut self, bytes: &[u8]) -> Result<usize, SendFailed> {
        self.below.send(&bytes[..bytes.len().min(5)])
    }

    fn recv(&mut self, into: &mut [u8]) -> Result<Received, RecvFailed> {
        self.below.recv(into)
    }

    fn hang_up(&mut self) {
        self.below.hang_up();
    }
}

#[test]
fn nothing_is_sent_on_a_link_after_a_failed_send(rt: HostRuntime) -> Result<(), Fail> {
    let alloc = rt.alloc();
    // The first request goes out in the calls 1 to 3, and the second in the calls 5 to 7.
    let cases = [(2, 5, 0), (3, 10, 0), (6, 17, 1), (7, 22, 1)];
    for (failing, sent, receives) in cases {
        let moves = replies(alloc, 11)?;
        let link = PlayLink {
            takes: 1_000,
            moves,
        };
        let failing = vec![in alloc; failing]?;
        let mut dialer = Sipping {
            below: PlayDialer::new(alloc, vec![in alloc; link]?, failing),
        };
        let mut out = BytesSink::new(alloc, Vec::new(alloc));
        assert_eq!(rt;
            commissioned(6000, &mut dialer, &mut out)?,
            refused(Refusal::Send)
        );
        let log = dialer.below.log();
        let link = log.link(0).ok_or("a link")?;
        assert!(rt; log.count() == 1 && !log.is_up());
        assert_eq!(rt; (link.sent().len(), link.answers()), (sent, receives));
    }
    Ok(())
}
