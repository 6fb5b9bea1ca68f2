ghost use Rattle.std.specs.Prelude.{◌≡◌, ◌<◌, ◌≤◌, ◌^◌, [], None, IfOk, vec_len};
ghost use Rattle.plant_run.specs.Running.{EachWorker, IsNew, IsOfSite, Differ};

use arrayvec::ArrayString;
use inverter_worker::{Asked, End, Job, Sent};
use limiter_num::{Point, Rating, Rules};
use plant_book::{Call, Entry, Policy, Port, Read, Reply, Site, Unit, Write};
use plant_ledger::Plant;
use plant_run::*;
use std::alloc::{AllocError, Global};
use std::test::Fail;
use worker_turn::Worker;
use world_traits::{
    Clock, DialFailed, Dialer, Move, PlayDialer, PlayLink, Received, RecvFailed, SendFailed,
    StepClock,
};

mod forked;

/// What a life came to: its entries, the workers' ends, and what the first one sent.
#[derive(Drop)]
struct Ran {
    entries: Vec<Entry>,
    ends: Vec<Option<End>>,
    log: Vec<Sent>,
}

fn rules() -> Result<Rules, Fail> {
    Ok(Rules::new(1_000, 4_000, 60, 20, 500).ok().ok_or("rules")?)
}

/// An inverter of 6 kW with a floor of 10 percent.
fn unit() -> Result<Unit, Fail> {
    let rating = Rating::new(6_000, 0, -1).ok().ok_or("a rating")?;
    Ok(Unit::new(rating, 100).ok().ok_or("a floor")?)
}

/// A worker of this inverter, with so many turns, which rests for so many ms behind each.
fn worker(alloc: Global, unit: Unit, rules: Rules, inverter: u8, turns: u32, pause: u32) -> Worker
    ensures new { IsNew result }
    ensures inverter { result.job.inverter ≡ inverter }
    ensures unit { result.job.unit ≡ unit }
    ensures rules { result.job.rules ≡ rules }
{
    let port = Port {
        host: ArrayString::new(),
        port: 502,
        unit: 1,
        base: 40296,
    };
    let job = Job {
        inverter,
        unit,
        port,
        rules,
        renew: 20_000,
        pause,
        wait: 2_000,
    };
    Worker::new(alloc, job, turns)
}

/// The plant of these inverters, whose book begins at 1 ms.
fn plant(alloc: Global, units: Vec<Unit>, rules: Rules) -> Result<Plant, Fail>
    requires { vec_len units < 2 ^ 32 }
    ensures units { IfOk result (λ plant. plant.site.units ≡ units.items) }
    ensures rules { IfOk result (λ plant. plant.site.rules ≡ rules) }
    ensures opened { IfOk result (λ plant. (plant.carry ≡ None) × (plant.entries ≡ [])) }
{
    let site = Site::new(10_000_000, rules, Policy::Open, 1_000, units);
    Ok(Plant::open(alloc, site, 1).ok().ok_or("a plant")?)
}

/// The entries of a plant's book.
fn entries(alloc: Global, plant: &Plant) -> Result<Vec<Entry>, AllocError> {
    let mut entries = Vec::new(alloc);
    for place in 0..plant.calls() {
        entries.push(plant.entry(place))?;
    }
    Ok(entries)
}

fn ends(alloc: Global, workers: &[Worker]) -> Result<Vec<Option<End>>, AllocError> {
    let mut ends = Vec::new(alloc);
    for worker in workers {
        ends.push(worker.end())?;
    }
    Ok(ends)
}

/// A life of these workers over these dialers.
fn lived<N: Dialer>(
    alloc: Global,
    plant: Plant,
    mut workers: Vec<Worker>,
    dialers: &mut Vec<N>,
    clock: &StepClock,
) -> Result<Ran, Fail>
    requires dialers { vec_len workers ≤ vec_len dialers.old }
    requires opened { (plant.carry ≡ None) × (plant.entries ≡ []) }
    requires workers { EachWorker IsNew workers.items }
    requires site { EachWorker (IsOfSite plant.site) workers.items }
    requires differ { Differ workers.items }
{
    let plant = run_plain(alloc, plant, &mut workers, dialers, clock);
    let first = workers.first().ok_or("a worker")?;
    Ok(Ran {
        entries: entries(alloc, &plant)?,
        ends: ends(alloc, &workers)?,
        log: Vec::from_slice(alloc, first.log())?,
    })
}

/// The life of one inverter over this dialer, in two turns far apart.
fn alone<N: Dialer>(alloc: Global, dialers: &mut Vec<N>, clock: &StepClock) -> Result<Ran, Fail>
    requires { vec_len dialers.old ≡ 1 }
{
    let (unit, rules) = (unit()?, rules()?);
    let plant = plant(alloc, vec![in alloc; unit]?, rules)?;
    let only = worker(alloc, unit, rules, 0, 2, 70_000);
    lived(alloc, plant, vec![in alloc; only]?, dialers, clock)
}

/// The life of two inverters over these dialers, in so many turns.
fn pair(alloc: Global, dialers: [PlayDialer; 2], turns: u32) -> Result<Ran, Fail> {
    let (unit, rules) = (unit()?, rules()?);
    let plant = plant(alloc, vec![in alloc; unit, unit]?, rules)?;
    let first = worker(alloc, unit, rules, 0, turns, 1_000);
    let second = worker(alloc, unit, rules, 1, turns, 1_000);
    let mut dialers = Vec::from_array(alloc, dialers)?;
    let workers = vec![in alloc; first, second]?;
    lived(alloc, plant, workers, &mut dialers, &StepClock::new(1, 1))
}

/// The life of three inverters over these dialers, in so many turns.
fn three(alloc: Global, dialers: [PlayDialer; 3], turns: u32) -> Result<Ran, Fail> {
    let (unit, rules) = (unit()?, rules()?);
    let plant = plant(alloc, vec![in alloc; unit, unit, unit]?, rules)?;
    let first = worker(alloc, unit, rules, 0, turns, 1_000);
    let second = worker(alloc, unit, rules, 1, turns, 1_000);
    let third = worker(alloc, unit, rules, 2, turns, 1_000);
    let mut dialers = Vec::from_array(alloc, dialers)?;
    let workers = vec![in alloc; first, second, third]?;
    lived(alloc, plant, workers, &mut dialers, &StepClock::new(1, 1))
}

/// A dialer of two links that take 1,000 bytes each, and answer nothing.
fn silent_links(alloc: Global) -> Result<PlayDialer, AllocError> {
    let mut links = Vec::new(alloc);
    for _ in 0..2 {
        links.push(PlayLink {
            takes: 1_000,
            moves: Vec::new(alloc),
        })?;
    }
    Ok(PlayDialer::new(alloc, links, Vec::new(alloc)))
}

/// A dialer that reads its worker's clock at each send, and keeps the readings.
#[derive(Drop)]
struct Stamping<'c, N> {
    below: N,
    clock: &'c StepClock,
    stamps: Vec<u64>,
}

impl<'c, N: Dialer> Dialer for Stamping<'c, N> {
    ghost links = { λ s. N.links s.below };

    ghost faults = { λ s. N.faults s.below };

    fn dial(&mut self, host: &str, port: u16, wait: u32) -> Result<(), DialFailed> {
        self.below.dial(host, port, wait)
    }

    fn send(&mut self, bytes: &[u8]) -> Result<usize, SendFailed> {
        let _ = self.stamps.push(self.clock.now());
        self.below.send(bytes)
    }

    fn recv(&mut self, into: &mut [u8]) -> Result<Received, RecvFailed> {
        self.below.recv(into)
    }

    fn hang_up(&mut self) {
        self.below.hang_up();
    }
}

/// A dialer without a link.
fn deaf(alloc: Global) -> PlayDialer {
    PlayDialer::new(alloc, Vec::new(alloc), Vec::new(alloc))
}

/// A dialer with one link that takes 1,000 bytes and plays these moves.
fn dialer(alloc: Global, moves: Vec<Move>) -> Result<PlayDialer, AllocError> {
    let link = PlayLink {
        takes: 1_000,
        moves,
    };
    Ok(PlayDialer::new(alloc, vec![in alloc; link]?, Vec::new(alloc)))
}

/// The life of one inverter over a link that plays these moves, in two turns far apart.
fn two_turns(alloc: Global, moves: Vec<Move>) -> Result<Ran, Fail> {
    let mut dialers = vec![in alloc; dialer(alloc, moves)?]?;
    alone(alloc, &mut dialers, &StepClock::new(1, 1))
}

fn linked(at: u64) -> Entry {
    Entry {
        call: Call::Link { at, inverter: 0 },
        reply: Reply::Linked(1),
    }
}

fn silent(at: u64) -> Entry {
    let call = Call::Ask {
        at,
        inverter: 0,
        raw: 1_000,
    };
    Entry {
        call,
        reply: Reply::Silent(66_701),
    }
}

fn write(number: u16, at: u64) -> Write {
    Write {
        inverter: 0,
        link: 1,
        number,
        at,
        raw: 1_000,
    }
}

fn granted(at: u64, number: u16) -> Entry {
    let call = Call::Ask {
        at,
        inverter: 0,
        raw: 1_000,
    };
    Entry {
        call,
        reply: Reply::Granted(write(number, at)),
    }
}

fn read(number: u16, at: u64) -> Read {
    Read {
        inverter: 0,
        link: 1,
        number,
        at,
    }
}

fn read_as(at: u64, number: u16) -> Entry {
    Entry {
        call: Call::Read { at, inverter: 0 },
        reply: Reply::ReadAs(read(number, at)),
    }
}

fn saw(at: u64, number: u16, raw: u16, reply: Reply) -> Entry {
    let call = Call::Saw {
        at,
        inverter: 0,
        number,
        raw,
    };
    Entry { call, reply }
}

/// A request as the log keeps it, sent behind this reading of the clock.
fn sent(request: Asked, clock: u64) -> Sent {
    Sent { request, clock }
}

/// A read-back as the log keeps it.
fn sent_read(number: u16, at: u64, clock: u64) -> Sent {
    sent(Asked::Read(read(number, at)), clock)
}

/// The reply to the read-back of this number, which shows this raw percentage in two bytes, and this floor.
fn shown(alloc: Global, number: u8, raw: [u8; 2], floor: u8) -> Result<Move, AllocError> {
    let bytes = [
        0, number, 0, 0, 0, 19, 1, 3, 16, 0, 1, raw[0], raw[1], 0, floor, 0, 1, 0, 0, 0, 60, 0, 0,
        0, 0,
    ];
    Ok(Move::Bytes(Vec::from_slice(alloc, &bytes)?))
}

/// What comes behind the first read-back: these bytes for the write, and the last move.
fn moves(alloc: Global, bytes: &[u8], last: Move) -> Result<Vec<Move>, AllocError> {
    let first = shown(alloc, 1, [0, 100], 100)?;
    let wrote = Move::Bytes(Vec::from_slice(alloc, bytes)?);
    Ok(vec![in alloc; first, wrote, last]?)
}

/// What the book has up to the read-back behind the first write.
fn begun() -> [Entry; 6] {
    let first = Reply::Freed {
        count: 0,
        reserved: 600_000,
    };
    [
        linked(2),
        silent(3),
        read_as(4, 1),
        saw(6, 1, 100, first),
        granted(70_007, 2),
        read_as(70_009, 3),
    ]
}

/// Whether the entries are those first ones and this one.
fn has_seen(entries: &[Entry], last: Entry) -> bool {
    entries.len() == 7 && entries.starts_with(&begun()) && entries[6] == last
}

#[test]
fn a_read_back_is_entered_and_sent(rt: HostRuntime) -> Result<(), Fail> {
    let alloc = rt.alloc();
    let dialers = [dialer(alloc, Vec::new(alloc))?, deaf(alloc)];
    let ran = pair(alloc, dialers, 1)?;
    assert_eq!(rt;
        ran.entries.as_slice(),
        [linked(2), silent(3), read_as(4, 1)].as_slice()
    );
    assert_eq!(rt; ran.log.as_slice(), [sent_read(1, 4, 5)].as_slice());
    Ok(())
}

#[test]
fn the_clock_is_read_right_before_each_send(rt: HostRuntime) -> Result<(), Fail> {
    let alloc = rt.alloc();
    let clock = StepClock::new(1, 1);
    let wrote = [0, 2, 0, 0, 0, 6, 1, 16, 0x9D, 0x76, 0, 6];
    let moves = moves(alloc, &wrote, shown(alloc, 3, [3, 0xE8], 100)?)?;
    let stamping = Stamping {
        below: dialer(alloc, moves)?,
        clock: &clock,
        stamps: Vec::new(alloc),
    };
    let mut dialers = vec![in alloc; stamping]?;
    let ran = alone(alloc, &mut dialers, &clock)?;
    let stamping = dialers.first().ok_or("a dialer")?;
    let log = [
        sent_read(1, 4, 5),
        sent(Asked::Write(write(2, 70_008)), 70_009),
        sent_read(3, 70_011, 70_012),
    ];
    assert_eq!(rt; ran.log.as_slice(), log.as_slice());
    assert_eq!(rt; stamping.stamps.as_slice(), [6, 70_010, 70_013].as_slice());
    Ok(())
}

#[test]
fn a_reply_that_comes_twice_is_passed_over(rt: HostRuntime) -> Result<(), Fail> {
    let alloc = rt.alloc();
    let wrote = [
        0, 2, 0, 0, 0, 6, 1, 16, 0x9D, 0x76, 0, 6, 0, 2, 0, 0, 0, 6, 1, 16, 0x9D, 0x76, 0, 6,
    ];
    let last = shown(alloc, 3, [3, 0xE8], 100)?;
    let ran = two_turns(alloc, moves(alloc, &wrote, last)?)?;
    let reply = Reply::Freed {
        count: 0,
        reserved: 6_000_000,
    };
    assert!(rt; has_seen(&ran.entries, saw(70_011, 3, 1_000, reply)));
    let log = [
        sent_read(1, 4, 5),
        sent(Asked::Write(write(2, 70_007)), 70_008),
        sent_read(3, 70_009, 70_010),
    ];
    assert_eq!(rt; ran.log.as_slice(), log.as_slice());
    Ok(())
}

#[test]
fn a_write_that_was_refused_is_freed(rt: HostRuntime) -> Result<(), Fail> {
    let alloc = rt.alloc();
    let refused = [0, 2, 0, 0, 0, 3, 1, 0x90, 3];
    let last = shown(alloc, 3, [0, 100], 100)?;
    let ran = two_turns(alloc, moves(alloc, &refused, last)?)?;
    let reply = Reply::Freed {
        count: 1,
        reserved: 600_000,
    };
    assert!(rt; has_seen(&ran.entries, saw(70_011, 3, 100, reply)));
    Ok(())
}

#[test]
fn another_floor_ends_the_worker(rt: HostRuntime) -> Result<(), Fail> {
    let alloc = rt.alloc();
    let wrote = [0, 2, 0, 0, 0, 6, 1, 16, 0x9D, 0x76, 0, 6];
    let last = shown(alloc, 3, [3, 0xE8], 101)?;
    let ran = two_turns(alloc, moves(alloc, &wrote, last)?)?;
    assert_eq!(rt; ran.entries.as_slice(), begun().as_slice());
    let unfit = End::Unfit {
        point: Point::PctRvrt,
        wanted: 100,
        found: 101,
    };
    assert_eq!(rt; ran.ends.as_slice(), [Some(unfit)].as_slice());
    Ok(())
}

#[test]
fn without_a_link_nothing_is_entered(rt: HostRuntime) -> Result<(), Fail> {
    let alloc = rt.alloc();
    let ran = pair(alloc, [deaf(alloc), deaf(alloc)], 1)?;
    assert_eq!(rt; ran.entries.len(), 0);
    let over = Some(End::TurnsDone);
    assert_eq!(rt; ran.ends.as_slice(), [over, over].as_slice());
    Ok(())
}

#[test]
fn the_turns_go_round_in_order(rt: HostRuntime) -> Result<(), Fail> {
    let alloc = rt.alloc();
    let dialers = [
        silent_links(alloc)?,
        silent_links(alloc)?,
        silent_links(alloc)?,
    ];
    let ran = three(alloc, dialers, 2)?;
    let mut named = Vec::new(alloc);
    for entry in &ran.entries {
        named.push(entry.call.inverter())?;
    }

    // Each turn enters a Link, an Ask and a Read; no inverter has its second turn before all had their first.
    let (first, second, third) = (Some(0), Some(1), Some(2));
    let round = [
        first, first, first, second, second, second, third, third, third,
    ];
    assert_eq!(rt; named.len(), 18);
    assert!(rt; named.starts_with(&round) && named.ends_with(&round));
    Ok(())
}
