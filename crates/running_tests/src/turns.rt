ghost use Rattle.std.specs.Prelude.{◌≡◌, ◌<◌, [], IfOk};
ghost use Rattle.plant_book.specs.Site.{inverters};

use arrayvec::ArrayString;
use inverter_worker::{Asked, Job, Sent};
use ledger_desk::PlainDesk;
use limiter_num::{Rating, Rules};
use plant_book::{Policy, Port, Read, Site, Unit, Write};
use plant_ledger::Plant;
use std::alloc::{AllocError, Global};
use std::test::Fail;
use worker_turn::*;
use world_traits::{
    DialFailed, Dialer, Move, PlayDialer, PlayLink, Received, RecvFailed, SendFailed, StepClock,
    Watch,
};

fn sent<T: Send>(_value: &T) {}

fn rules() -> Result<Rules, Fail> {
    Ok(Rules::new(1_000, 4_000, 60, 20, 500).ok().ok_or("rules")?)
}

/// An inverter of 6 kW with a floor of 10 percent.
fn unit() -> Result<Unit, Fail> {
    let rating = Rating::new(6_000, 0, -1).ok().ok_or("a rating")?;
    Ok(Unit::new(rating, 100).ok().ok_or("a floor")?)
}

/// The desk of a plant of that inverter, whose book begins at 1 ms.
fn desk(alloc: Global) -> Result<PlainDesk, Fail>
    ensures { IfOk result (λ desk. 0 < inverters desk.book.site) }
{
    let site = Site::new(
        10_000_000,
        rules()?,
        Policy::Open,
        1_000,
        vec![in alloc; unit()?]?,
    );
    let plant = Plant::open(alloc, site, 1).ok().ok_or("a plant")?;
    Ok(PlainDesk::new(alloc, plant))
}

/// Its worker, with so many turns.
fn worker(alloc: Global, turns: u32, pause: u32) -> Result<Worker, Fail>
    ensures { IfOk result (λ worker. worker.job.inverter ≡ 0) }
{
    let port = Port {
        host: ArrayString::new(),
        port: 502,
        unit: 1,
        base: 40296,
    };
    let job = Job {
        inverter: 0,
        unit: unit()?,
        port,
        rules: rules()?,
        renew: 20_000,
        pause,
        wait: 2_000,
    };
    Ok(Worker::new(alloc, job, turns))
}

/// A dialer with one link that takes 1,000 bytes and plays these moves.
fn dialer(alloc: Global, moves: Vec<Move>) -> Result<PlayDialer, AllocError> {
    let link = PlayLink {
        takes: 1_000,
        moves,
    };
    Ok(PlayDialer::new(alloc, vec![in alloc; link]?, Vec::new(alloc)))
}

/// The reply to the read-back of this number, which shows this raw percentage in two bytes.
fn shown(alloc: Global, number: u8, raw: [u8; 2]) -> Result<Move, AllocError> {
    let bytes = [
        0, number, 0, 0, 0, 19, 1, 3, 16, 0, 1, raw[0], raw[1], 0, 100, 0, 1, 0, 0, 0, 60, 0, 0, 0,
        0,
    ];
    Ok(Move::Bytes(Vec::from_slice(alloc, &bytes)?))
}

/// The reply to the write of number 2, twice in one piece.
fn wrote_twice(alloc: Global) -> Result<Move, AllocError> {
    let bytes = [
        0, 2, 0, 0, 0, 6, 1, 16, 0x9D, 0x76, 0, 6, 0, 2, 0, 0, 0, 6, 1, 16, 0x9D, 0x76, 0, 6,
    ];
    Ok(Move::Bytes(Vec::from_slice(alloc, &bytes)?))
}

/// One turn with the inverter of number 0.
fn one_turn<N: Dialer>(
    worker: &mut Worker,
    desk: &mut PlainDesk,
    dialer: &mut N,
    clock: &StepClock,
) -> Turned
    requires desk { 0 < inverters desk.old.book.site }
    requires worker { worker.old.job.inverter ≡ 0 }
    ensures desk { 0 < inverters desk.new.book.site }
    ensures worker { worker.new.job.inverter ≡ 0 }
{
    worker.turn(desk, dialer, &mut Watch::new(clock))
}

/// A request for a read-back as the log keeps it.
fn read_at(number: u16, at: u64, clock: u64) -> Sent {
    let read = Read {
        inverter: 0,
        link: 1,
        number,
        at,
    };
    Sent {
        request: Asked::Read(read),
        clock,
    }
}

/// A request for a limit of 1000 as the log keeps it.
fn write_at(number: u16, at: u64, clock: u64) -> Sent {
    let write = Write {
        inverter: 0,
        link: 1,
        number,
        at,
        raw: 1_000,
    };
    Sent {
        request: Asked::Write(write),
        clock,
    }
}

/// The worker after a turn over this dialer.
fn after_one_turn(alloc: Global, dialer: &mut PlayDialer) -> Result<Worker, Fail> {
    let mut worker = worker(alloc, 1, 1_000)?;
    let mut desk = desk(alloc)?;
    one_turn(&mut worker, &mut desk, dialer, &StepClock::new(1, 1));
    Ok(worker)
}

/// The worker after two turns over this dialer, which end past the silence.
fn after_two_turns(alloc: Global, dialer: &mut PlayDialer) -> Result<Worker, Fail> {
    let mut worker = worker(alloc, 2, 70_000)?;
    let mut desk = desk(alloc)?;
    let clock = StepClock::new(1, 1);
    one_turn(&mut worker, &mut desk, dialer, &clock);
    one_turn(&mut worker, &mut desk, dialer, &clock);
    Ok(worker)
}

/// The moves of a link whose peer answers each request, and the write twice.
fn twice_answered(alloc: Global) -> Result<Vec<Move>, AllocError> {
    let first = shown(alloc, 1, [0, 100])?;
    let last = shown(alloc, 3, [3, 0xE8])?;
    Ok(vec![in alloc; first, wrote_twice(alloc)?, last]?)
}

/// Whether the bytes sent on the first link of a dialer are these.
fn has_sent(dialer: &PlayDialer, bytes: &[u8]) -> bool {
    match dialer.log().link(0) {
        Some(link) => link.sent() == bytes,
        None => false,
    }
}

#[test]
fn a_silent_plant_is_read(rt: HostRuntime) -> Result<(), Fail> {
    let mut dialer = dialer(rt.alloc(), Vec::new(rt.alloc()))?;
    let worker = after_one_turn(rt.alloc(), &mut dialer)?;
    sent(&worker);
    assert_eq!(rt; worker.end(), None);
    assert_eq!(rt; worker.log(), [read_at(1, 4, 5)].as_slice());
    assert!(rt; has_sent(&dialer, &[0, 1, 0, 0, 0, 6, 1, 3, 0x9D, 0x76, 0, 8]));
    Ok(())
}

#[test]
fn a_second_reply_to_a_write_is_passed_over(rt: HostRuntime) -> Result<(), Fail> {
    let mut dialer = dialer(rt.alloc(), twice_answered(rt.alloc())?)?;
    let worker = after_two_turns(rt.alloc(), &mut dialer)?;
    let log = [
        read_at(1, 4, 5),
        write_at(2, 70_007, 70_008),
        read_at(3, 70_009, 70_010),
    ];
    assert_eq!(rt; worker.log(), log.as_slice());
    Ok(())
}

/// A dialer over another, which hands on five bytes of a piece at most.
#[derive(Drop)]
struct Sipping<N> {
    below: N,
}

impl<N: Dialer> Dialer for Sipping<N> {
    ghost links = { λ s. N.links s.below };

    ghost faults = { λ s. N.faults s.below };

    fn dial(&mut self, host: &str, port: u16, wait: u32) -> Result<(), DialFailed> {
        self.below.dial(host, port, wait)
    }

    fn send(&mut self, bytes: &[u8]) -> Result<usize, SendFailed> {
        self.below.send(&bytes[..bytes.len().min(5)])
    }

    fn recv(&mut self, into: &mut [u8]) -> Result<Received, RecvFailed> {
        self.below.recv(into)
    }

    fn hang_up(&mut self) {
        self.below.hang_up();
    }
}

/// A dialer of three links that take five bytes a send and answer nothing, where these calls fail.
fn three_sipping(alloc: Global, failing: Vec<u32>) -> Result<Sipping<PlayDialer>, AllocError> {
    let mut links = Vec::new(alloc);
    for _ in 0..3 {
        links.push(PlayLink {
            takes: 1_000,
            moves: Vec::new(alloc),
        })?;
    }
    Ok(Sipping {
        below: PlayDialer::new(alloc, links, failing),
    })
}

/// How many links a dialer made, the bytes sent on the last, and how many receives were answered there. Nothing while
/// it is up.
fn last_link(dialer: &PlayDialer) -> Option<(usize, &[u8], usize)> {
    let log = dialer.log();
    if log.is_up() {
        return None;
    }
    let link = log.link(log.count().checked_sub(1)?)?;
    Some((log.count(), link.sent(), link.answers()))
}

#[test]
fn nothing_is_sent_on_a_link_after_a_failed_send(rt: HostRuntime) -> Result<(), Fail> {
    let alloc = rt.alloc();
    // The first turn's read fails at its second send, and the second turn's write at its third.
    let mut dialer = three_sipping(alloc, vec![in alloc; 2, 6]?)?;
    let mut worker = worker(alloc, 3, 70_000)?;
    let mut desk = desk(alloc)?;
    let clock = StepClock::new(1, 1);
    let write = [
        0, 1, 0, 0, 0, 19, 1, 16, 0x9D, 0x76, 0, 6, 12, 0, 1, 3, 0xE8, 0, 100, 0, 1, 0, 0, 0, 60,
    ];
    one_turn(&mut worker, &mut desk, &mut dialer, &clock);
    let begun: &[u8] = &[0, 1, 0, 0, 0];
    assert_eq!(rt; last_link(&dialer.below), Some((1, begun, 0)));
    one_turn(&mut worker, &mut desk, &mut dialer, &clock);
    assert_eq!(rt; last_link(&dialer.below), Some((2, &write[..10], 0)));
    one_turn(&mut worker, &mut desk, &mut dialer, &clock);
    assert_eq!(rt; last_link(&dialer.below), Some((3, write.as_slice(), 1)));
    Ok(())
}
