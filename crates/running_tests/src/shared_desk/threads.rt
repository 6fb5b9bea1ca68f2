//! Two threads with a pass each at one desk.
ghost use Rattle.std.specs.Prelude.{◌≡◌, ◌<◌, ◌≤◌, All, IfOk, length};

use super::{closed, desk, hand_in, taken};
use plant_book::{Call, Entry, Reply};
use plant_desk::{Pass, PlantDesk};
use plant_ledger::{BookFull, Plant};
use std::alloc::Global;
use std::process::Abort;
use std::sync::Wait;
use std::test::Fail;
use std::thread;
use std::thread::Threads;

/// How many calls each thread makes.
const CALLS: u32 = 1_000;

/// A Tick at 0, answered with the floors of both inverters.
const TICK: Entry = Entry {
    call: Call::Tick { at: 0 },
    reply: Reply::Total(1_200_000),
};

/// What came of the calls of one thread.
#[derive(Clone, Copy, Default)]
struct Tally {
    /// Calls that were answered as `TICK`.
    entered: u32,
    /// Calls that were refused at a full book.
    refused: u32,
    /// As many calls had the book that refused.
    room: u32,
    /// The entries `TICK` of the books that the thread ended.
    ended: u32,
}

impl Tally {
    fn with(self, answer: Result<Reply, BookFull>) -> Tally {
        match answer {
            Ok(reply) => Tally {
                entered: self.entered.saturating_add(u32::from(reply == TICK.reply)),
                ..self
            },
            Err(full) => Tally {
                refused: self.refused.saturating_add(1),
                room: full.calls,
                ..self
            },
        }
    }

    fn with_ended(self, ticks: u32) -> Tally {
        Tally {
            ended: self.ended.saturating_add(ticks),
            ..self
        }
    }

    fn and(self, other: Tally) -> Tally {
        Tally {
            entered: self.entered.saturating_add(other.entered),
            refused: self.refused.saturating_add(other.refused),
            room: self.room.max(other.room),
            ended: self.ended.saturating_add(other.ended),
        }
    }
}

fn tick<R: Wait>(rt: &R, desk: &PlantDesk, pass: &mut Pass) -> Result<Reply, BookFull>
    requires { pass.old.desk ≡ desk.now }
    ensures { pass.new.desk ≡ desk.now }
{
    let outcome = desk.apply(rt, pass, TICK.call)?;
    Ok(outcome.reply)
}

/// How many of the entries are `TICK`.
fn ticks_of(entries: &[Entry]) -> u32 {
    let mut ticks: u32 = 0;
    for entry in entries {
        ticks = ticks.saturating_add(u32::from(*entry == TICK));
    }
    ticks
}

/// How many entries of the last book are `TICK`.
fn last_ticks(plant: &Plant) -> u32 {
    let mut ticks: u32 = 0;
    for place in 0..plant.calls() {
        ticks = ticks.saturating_add(u32::from(plant.entry(place) == TICK));
    }
    ticks
}

/// Rolls the book over. The answer is how many of its entries are `TICK`.
fn roll<R: Wait>(rt: &R, alloc: Global, desk: &PlantDesk, pass: &mut Pass) -> u32
    requires { pass.old.desk ≡ desk.now }
    ensures { pass.new.desk ≡ desk.now }
{
    match desk.roll(rt, alloc, pass) {
        Ok(ended) => ticks_of(&ended.entries),
        Err(_) => 0,
    }
}

/// The calls of one thread, with a roll behind every so many of them (0: none).
fn ticks<R: Wait>(
    rt: &R,
    alloc: Global,
    desk: &PlantDesk,
    mut pass: Pass,
    every: u32,
) -> (Pass, Tally)
    requires { pass.desk ≡ desk.now }
    ensures { result.0.desk ≡ desk.now }
{
    let mut tally = Tally::default();
    for made in 1..=CALLS {
        tally = tally.with(tick(rt, desk, &mut pass));
        if made.checked_rem(every) == Some(0) {
            tally = tally.with_ended(roll(rt, alloc, desk, &mut pass));
        }
    }
    (pass, tally)
}

/// Two threads make their calls at one desk.
fn both<R: Threads + Wait + Sync>(
    rt: &R,
    alloc: Global,
    desk: &PlantDesk,
    one: Pass,
    other: Pass,
    every: u32,
) -> ((Pass, Tally), (Pass, Tally))
    requires { (one.desk ≡ desk.now) × (other.desk ≡ desk.now) }
    ensures { (result.0.0.desk ≡ desk.now) × (result.1.0.desk ≡ desk.now) }
{
    thread::join(
        rt,
        move || -> (Pass, Tally)
            requires { one.desk ≡ desk.now }
            ensures { result.0.desk ≡ desk.entry.now }
        { ticks(rt, alloc, desk, one, every) },
        move || -> (Pass, Tally)
            requires { other.desk ≡ desk.now }
            ensures { result.0.desk ≡ desk.entry.now }
        { ticks(rt, alloc, desk, other, every) },
    )
}

/// Two passes of a desk make their calls, and are handed in again.
fn made<R: Threads + Wait + Sync>(
    rt: &R,
    alloc: Global,
    desk: &PlantDesk,
    mut passes: Vec<Pass>,
    every: u32,
) -> Result<(Vec<Pass>, Tally), Fail>
    requires { All (λ pass. pass.desk ≡ desk.now) passes.items }
    ensures { IfOk result (λ made. All (λ pass. pass.desk ≡ desk.now) made.0.items) }
{
    let one = taken(desk, &mut passes)?;
    let other = taken(desk, &mut passes)?;
    let ((one, first), (other, second)) = both(rt, alloc, desk, one, other, every);
    hand_in(desk, &mut passes, one)?;
    hand_in(desk, &mut passes, other)?;
    Ok((passes, first.and(second)))
}

/// What two threads saw of a desk over books of this room: the calls that were entered, those that were refused, the
/// calls of the book that refused (0: none), and the entries of all books. Each entry is `TICK`.
fn shared<R: Threads + Wait + Abort + Sync>(
    rt: &R,
    alloc: Global,
    room: u32,
    every: u32,
) -> Result<(u32, u32, u32, u32), Fail>
    requires { (1 ≤ room) × (room ≤ 1048576) }
{
    let (desk, passes) = desk(alloc, room, 2)?;
    let (passes, tally) = made(rt, alloc, &desk, passes, every)?;
    let plant = closed(desk, passes)?;
    let last = last_ticks(&plant);
    assert_eq!(rt; plant.calls(), last);
    Ok((
        tally.entered,
        tally.refused,
        tally.room,
        tally.ended.saturating_add(last),
    ))
}

/// Takes what may be shared by threads and go to one, and what may go to one.
fn crosses<D: Send + Sync, P: Send>(_desk: &D, _pass: &P) {}

/// So are a desk and a pass.
fn desk_and_pass_cross(desk: &PlantDesk, pass: &Pass) {
    crosses(desk, pass);
}

#[test]
fn two_threads_make_one_book(rt: HostRuntime) -> Result<(), Fail> {
    let with_room = shared(&rt, rt.alloc(), 3_000, 0)?;
    assert_eq!(rt; with_room, (2_000, 0, 0, 2_000));
    let filled = shared(&rt, rt.alloc(), 1_999, 0)?;
    assert_eq!(rt; filled, (1_999, 1, 1_999, 1_999));
    let rolled = shared(&rt, rt.alloc(), 3_000, 300)?;
    assert_eq!(rt; rolled, (2_000, 0, 0, 2_000));
    Ok(())
}
