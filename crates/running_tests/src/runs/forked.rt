//! Workers and a console, each in a thread of its own.
ghost use Rattle.std.specs.Prelude.{◌≡◌, [], None, IfOk};

use super::{dialer, entries, plant, rules, unit, worker};
use operator_console::ConsoleEnd;
use plant_book::{Call, Entry, Policy, Reply, Site};
use plant_ledger::Plant;
use plant_run::run_forked;
use std::alloc::Global;
use std::sync::Wait;
use std::sync::atomic::{AtomicBool, Ordering};
use std::test::Fail;
use std::thread::{Threads, yield_now};
use worker_turn::Worker;
use world_traits::{
    BytesSink, BytesSource, DialFailed, Dialer, PlayDialer, Received, RecvFailed, SendFailed,
    StepClock,
};

/// How many times a dialer looks for the other's frame, at most. It lets other threads run before each look.
const LOOKS: u32 = 1_000_000;

/// How many bytes the frame of a read-back has.
const READ_BYTES: usize = 12;

/// A dialer whose first receive waits until another one sent a whole frame.
#[derive(Drop)]
struct Meeting<'a, N> {
    below: N,
    sent: usize,
    mine: &'a AtomicBool,
    theirs: &'a AtomicBool,
    /// Whether it saw the other's frame.
    met: bool,
}

impl<'a, N> Meeting<'a, N> {
    fn new(below: N, mine: &'a AtomicBool, theirs: &'a AtomicBool) -> Self {
        Meeting {
            below,
            sent: 0,
            mine,
            theirs,
            met: false,
        }
    }

    /// Looks for the other's frame, and tells whether it is there.
    fn look(&self) -> bool {
        for _ in 0..LOOKS {
            yield_now();
            if self.theirs.load(Ordering::SeqCst) {
                return true;
            }
        }
        false
    }
}

impl<'a, N: Dialer> Dialer for Meeting<'a, N> {
    ghost links = { λ s. N.links s.below };

    ghost faults = { λ s. N.faults s.below };

    fn dial(&mut self, host: &str, port: u16, wait: u32) -> Result<(), DialFailed> {
        self.below.dial(host, port, wait)
    }

    fn send(&mut self, bytes: &[u8]) -> Result<usize, SendFailed> {
        let count = self.below.send(bytes)?;
        self.sent = self.sent.saturating_add(count);
        if self.sent >= READ_BYTES {
            self.mine.store(true, Ordering::SeqCst);
        }
        Ok(count)
    }

    fn recv(&mut self, into: &mut [u8]) -> Result<Received, RecvFailed> {
        self.met = self.met || self.look();
        self.below.recv(into)
    }

    fn hang_up(&mut self) {
        self.below.hang_up();
    }
}

#[test]
fn two_workers_meet(rt: HostRuntime) -> Result<(), Fail> {
    let alloc = rt.alloc();
    let (unit, rules) = (unit()?, rules()?);
    let plant = plant(alloc, vec![in alloc; unit, unit]?, rules)?;
    let first = worker(alloc, unit, rules, 0, 1, 1_000);
    let second = worker(alloc, unit, rules, 1, 1, 1_000);
    let mut workers = vec![in alloc; first, second]?;
    let (one, other) = (AtomicBool::new(false), AtomicBool::new(false));
    let mut dialers = vec![in alloc;
        Meeting::new(dialer(alloc, Vec::new(alloc))?, &one, &other),
        Meeting::new(dialer(alloc, Vec::new(alloc))?, &other, &one),
    ]?;
    let mut input = BytesSource::new(Vec::new(alloc), Vec::new(alloc));
    let mut out = BytesSink::new(alloc, Vec::new(alloc));
    let clock = StepClock::new(0, 1);
    let end = run_forked(
        &rt,
        alloc,
        plant,
        &mut workers,
        &mut dialers,
        &clock,
        &mut input,
        &mut out,
    );
    let end = end.ok().ok_or("memory")?;
    assert!(&rt; dialers.iter().all(|dialer| dialer.met));
    assert_eq!(&rt; end.console, ConsoleEnd::Ended);
    // Each worker entered a Link, an Ask and a Read.
    assert_eq!(&rt; end.plant.calls(), 6);
    Ok(())
}

/// The first book of two inverters of 6 kW with floors of 600 W, which share a cap of 10 kW fairly.
fn fair_plant(alloc: Global) -> Result<Plant, Fail>
    ensures opened { IfOk result (λ plant. (plant.carry ≡ None) × (plant.entries ≡ [])) }
{
    let units = vec![in alloc; unit()?, unit()?]?;
    let site = Site::new(10_000_000, rules()?, Policy::Fair, 1_000, units);
    Ok(Plant::open(alloc, site, 0).ok().ok_or("a plant")?)
}

/// How a console alone on a shared desk ended, what it wrote, and the last book of its life.
fn listened<R: Threads + Wait + Sync>(
    rt: &R,
    alloc: Global,
    lines: &str,
) -> Result<(ConsoleEnd, Vec<u8>, Vec<Entry>), Fail> {
    let bytes = Vec::from_slice(alloc, lines.as_bytes())?;
    let mut input = BytesSource::new(bytes, Vec::new(alloc));
    let mut out = BytesSink::new(alloc, Vec::new(alloc));
    let mut workers: Vec<Worker> = Vec::new(alloc);
    let mut dialers: Vec<PlayDialer> = Vec::new(alloc);
    let clock = StepClock::new(0, 1);
    let end = run_forked(
        rt,
        alloc,
        fair_plant(alloc)?,
        &mut workers,
        &mut dialers,
        &clock,
        &mut input,
        &mut out,
    );
    let end = end.ok().ok_or("memory")?;
    let written = Vec::from_slice(alloc, out.taken())?;
    Ok((end.console, written, entries(alloc, &end.plant)?))
}

#[test]
fn a_console_works_on_the_shared_desk(rt: HostRuntime) -> Result<(), Fail> {
    let alloc = rt.alloc();
    let (end, written, book) = listened(&rt, alloc, "want 0 2000000\nstatus\nbogus\nstop\n")?;
    assert_eq!(&rt; end, ConsoleEnd::Stopped);
    // The total is both floors. A wish of 2 kW is 333 thousandths of 6 kW. The other may have its 6 kW, since both are
    // under the cap.
    let shown = "# taken
# total 1200000
# inverter 0 reserved 600000 goal 333
# inverter 1 reserved 600000 goal 1000
# bad line 3
# taken
";
    assert_eq!(&rt; written.as_slice(), shown.as_bytes());
    let want = Call::Want {
        at: 1,
        inverter: 0,
        mw: 2_000_000,
    };
    let made = [
        Entry {
            call: want,
            reply: Reply::Taken,
        },
        Entry {
            call: Call::Tick { at: 2 },
            reply: Reply::Total(1_200_000),
        },
        Entry {
            call: Call::Stop { at: 3 },
            reply: Reply::Taken,
        },
    ];
    assert_eq!(&rt; book.as_slice(), made.as_slice());
    Ok(())
}
