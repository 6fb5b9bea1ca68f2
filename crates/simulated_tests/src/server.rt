ghost use Rattle.std.specs.Prelude.{◌≡◌, IfOk};

use arrayvec::ArrayString;
use inverter_server::*;
use inverter_sim::Bank;
use limiter_num::{Rating, Rules};
use plant_book::{Port, Unit};
use std::alloc::Global;
use std::process::Abort;
use std::test::Fail;
use world_traits::{Dialer, Move, PlayDialer, PlayLink, StepClock};

/// The read of the mark, and its reply.
const READ: [u8; 12] = [0, 1, 0, 0, 0, 6, 1, 3, 0x9C, 0x40, 0, 2];

const REPLY: [u8; 13] = [0, 1, 0, 0, 0, 7, 1, 3, 4, 0x53, 0x75, 0x6E, 0x53];

/// An inverter of 6 kW with a floor of 600 W, which answers to unit number 1.
fn bank(rt: &impl Abort) -> Result<Bank, Fail>
    ensures { IfOk result (λ bank. bank.last ≡ 0) }
{
    let rating = Rating::new(6_000, 0, -1).ok().ok_or("rating")?;
    let unit = Unit::new(rating, 100).ok().ok_or("floor")?;
    let rules = Rules::new(1_000, 4_000, 60, 20, 500).ok().ok_or("rules")?;
    let after = rules.tmax();
    assert!(rt; rules.tmin() <= after);
    Ok(Bank::new(unit, rules, 1, after))
}

/// Serves over this dialer, in so many turns, by a clock that goes on by so many ms at each reading.
fn serve_over(
    rt: &impl Abort,
    mut dialer: PlayDialer,
    turns: u32,
    step: u64,
) -> Result<PlayDialer, Fail> {
    let port = Port {
        host: ArrayString::from("localhost").ok().ok_or("host")?,
        port: 5_020,
        unit: 1,
        base: 40_296,
    };
    serve(
        bank(rt)?,
        &port,
        turns,
        2_000,
        &mut dialer,
        &StepClock::new(0, step),
    );
    Ok(dialer)
}

/// Serves over one link that plays these moves.
fn served(
    rt: &impl Abort,
    alloc: Global,
    moves: Vec<Move>,
    turns: u32,
    step: u64,
) -> Result<PlayDialer, Fail> {
    let link = PlayLink {
        takes: 1_000,
        moves,
    };
    let links = vec![in alloc; link]?;
    let dialer = PlayDialer::new(alloc, links, Vec::new(alloc));
    serve_over(rt, dialer, turns, step)
}

/// Looks at the one link: what was sent on it, and how many receives it had.
fn assert_link(
    rt: &impl Abort,
    dialer: &PlayDialer,
    sent: &[u8],
    receives: usize,
) -> Result<(), Fail> {
    assert_eq!(rt; dialer.log().count(), 1);
    let link = dialer.log().link(0).ok_or("link")?;
    assert_eq!(rt; link.host(), "localhost");
    assert_eq!(rt; link.port(), 5_020);
    assert_eq!(rt; link.sent(), sent);
    assert_eq!(rt; link.answers(), receives);
    Ok(())
}

#[test]
fn a_read_is_answered_however_it_is_cut(rt: HostRuntime) -> Result<(), Fail> {
    let whole = vec![in rt.alloc(); Move::Bytes(Vec::from_slice(rt.alloc(), &READ)?)]?;
    assert_link(&rt, &served(&rt, rt.alloc(), whole, 3, 1)?, &REPLY, 2)?;
    for place in 1..READ.len() {
        let front = Vec::from_slice(rt.alloc(), &READ[..place])?;
        let back = Vec::from_slice(rt.alloc(), &READ[place..])?;
        let moves = vec![in rt.alloc(); Move::Bytes(front), Move::Quiet, Move::Bytes(back)]?;
        assert_link(&rt, &served(&rt, rt.alloc(), moves, 4, 1)?, &REPLY, 3)?;
    }
    Ok(())
}

#[test]
fn a_link_is_hung_up_behind_the_answers(rt: HostRuntime) -> Result<(), Fail> {
    // Two frames in one piece are answered, and one for another unit is hung up on: the third turn dials, and finds
    // no link.
    let mut piece = Vec::from_slice(rt.alloc(), &READ)?;
    piece.extend_from_slice(&READ)?;
    piece.extend_from_slice(&[0, 2, 0, 0, 0, 6, 2, 3, 0x9C, 0x40, 0, 2])?;
    piece.extend_from_slice(&READ)?;
    let mut sent = Vec::from_slice(rt.alloc(), &REPLY)?;
    sent.extend_from_slice(&REPLY)?;
    let moves = vec![in rt.alloc(); Move::Bytes(piece)]?;
    let dialer = served(&rt, rt.alloc(), moves, 3, 1)?;
    assert_link(&rt, &dialer, &sent, 1)?;

    // A peer that is quiet for ever takes all turns.
    let quiet = served(&rt, rt.alloc(), Vec::new(rt.alloc()), 5, 1)?;
    assert_link(&rt, &quiet, &[], 4)
}

/// A write of 100 percent, its reply, a read-back of the eight registers from WMaxLimPctEna on, and what its reply
/// begins with.
const WRITE: [u8; 25] = [
    0, 1, 0, 0, 0, 0x13, 1, 0x10, 0x9D, 0x76, 0, 6, 0x0C, 0, 1, 3, 0xE8, 0, 100, 0, 1, 0, 0, 0, 60,
];

const WROTE: [u8; 12] = [0, 1, 0, 0, 0, 6, 1, 0x10, 0x9D, 0x76, 0, 6];

const READ_BACK: [u8; 12] = [0, 1, 0, 0, 0, 6, 1, 3, 0x9D, 0x76, 0, 8];

const SHOWN: [u8; 9] = [0, 1, 0, 0, 0, 0x13, 1, 3, 16];

#[test]
fn each_request_reads_the_clock_once(rt: HostRuntime) -> Result<(), Fail> {
    // The write at 20 s is held up to 81.7 s. The read-backs come at 40, 60, 80 and 100 s: 42, 22 and 2 s are left,
    // and then it has gone back to its floor.
    let mut piece = Vec::from_slice(rt.alloc(), &WRITE)?;
    let mut sent = Vec::from_slice(rt.alloc(), &WROTE)?;
    for (high, low, left) in [(3, 0xE8, 42), (3, 0xE8, 22), (3, 0xE8, 2), (0, 100, 0)] {
        piece.extend_from_slice(&READ_BACK)?;
        sent.extend_from_slice(&SHOWN)?;
        sent.extend_from_slice(&[0, 1, high, low, 0, 100, 0, 1, 0, 0, 0, 60, 0, 0, 0, left])?;
    }
    let moves = vec![in rt.alloc(); Move::Bytes(piece)]?;
    assert_link(&rt, &served(&rt, rt.alloc(), moves, 2, 20_000)?, &sent, 1)
}

#[test]
fn one_receive_takes_a_piece_of_260_bytes(rt: HostRuntime) -> Result<(), Fail> {
    // Twenty-one reads, and the first 8 bytes of one more.
    let mut piece = Vec::new(rt.alloc());
    let mut sent = Vec::new(rt.alloc());
    for _read in 0..21 {
        piece.extend_from_slice(&READ)?;
        sent.extend_from_slice(&REPLY)?;
    }
    piece.extend_from_slice(&READ[..8])?;
    let moves = vec![in rt.alloc(); Move::Bytes(piece)]?;
    assert_link(&rt, &served(&rt, rt.alloc(), moves, 2, 1)?, &sent, 1)
}

/// A link on which two reads come in one piece.
fn two_reads(alloc: Global) -> Result<PlayLink, Fail> {
    let mut piece = Vec::from_slice(alloc, &READ)?;
    piece.extend_from_slice(&READ)?;
    let moves = vec![in alloc; Move::Bytes(piece)]?;
    Ok(PlayLink {
        takes: 1_000,
        moves,
    })
}

#[test]
fn nothing_is_sent_on_a_link_after_a_failed_send(rt: HostRuntime) -> Result<(), Fail> {
    let alloc = rt.alloc();
    // The calls are a dial, a receive, and the send of the first answer, which fails.
    let links = vec![in alloc; two_reads(alloc)?, two_reads(alloc)?]?;
    let dialer = PlayDialer::new(alloc, links, vec![in alloc; 2]?);
    let dialer = serve_over(&rt, dialer, 4, 1)?;
    let log = dialer.log();
    let (first, second) = (log.link(0).ok_or("link 1")?, log.link(1).ok_or("link 2")?);
    assert!(rt; first.sent().is_empty() && first.answers() == 1);
    let mut both = Vec::from_slice(alloc, &REPLY)?;
    both.extend_from_slice(&REPLY)?;
    assert_eq!(rt; second.sent(), both.as_slice());
    Ok(())
}
