//! `run` with an operator at its console, and with workers that have to work at once.
ghost use Rattle.std.specs.Prelude.{None};

use super::comes_to;
use super::links::{Given, NONE, players, run_over, unattended};
use super::sites::{INVERTER, PLANT, Plant, site_file};
use exporter_commands::Ended;
use std::alloc::{AllocError, Global};
use std::sync::Wait;
use std::sync::atomic::{AtomicBool, Ordering};
use std::test::Fail;
use std::thread::Threads;
use world_traits::{BytesSink, DialFailed, Dialer, Received, RecvFailed, SendFailed, StepClock};

/// A plant that shares its watts, whose workers don't rest.
const SHARED: Plant = Plant {
    pause: 0,
    policy: "fair",
    ..PLANT
};

/// The head of a life of two inverters.
const HEAD: &str = "site 10000000 1000 4000 60 20 500 fair 2000
inverter 6000 0 -1 100
inverter 6000 0 -1 100
begin 1
";

/// What an operator types, and what it shows.
const TYPED: &str = "want 0 2000000\nstatus\nbogus\nroll\n";

const SHOWN: &str = "# taken
# total 1200000
# inverter 0 reserved 600000 goal 333
# inverter 1 reserved 600000 goal 1000
# bad line 3
";

/// The calls of the first book, which the roll ends.
const ROLLED: &str = "want 2 0 2000000 = taken
tick 3 = total 1200000
roll = rolled
";

/// What stands behind it.
const ENDS: &str = "# worker 0 turns\n# worker 1 turns\n";

/// How `run 1` ends of which all dials fail, so that the console alone makes calls, and what it writes.
fn listened<R: Threads + Wait + Sync>(
    rt: &R,
    alloc: Global,
    typed: &str,
    fails: (u32, u32, u32),
) -> Result<(Ended, BytesSink), AllocError> {
    let site = site_file(alloc, SHARED, &[INVERTER, INVERTER])?;
    let mut dialers = players(alloc, Vec::new(alloc), Vec::new(alloc))?;
    let clock = StepClock::new(0, 1);
    let given = Given {
        typed,
        fails,
        ..unattended("run 1", site.as_str())
    };
    run_over(rt, alloc, given, &mut dialers, &clock)
}

/// Nothing is written behind a write that failed.
#[test]
fn an_operator_wants_looks_and_rolls(rt: HostRuntime) -> Result<(), Fail> {
    let alloc = rt.alloc();
    let all = format!(in alloc; "{SHOWN}{HEAD}{ROLLED}{ENDS}")?;
    let came = listened(&rt, alloc, TYPED, (NONE, NONE, NONE))?;
    comes_to(&rt, "all orders", &came, Ended::Done, all.as_str());
    let came = listened(&rt, alloc, TYPED, (NONE, NONE, 1))?;
    comes_to(
        &rt,
        "the second write fails",
        &came,
        Ended::WriteFault,
        "# taken\n",
    );
    Ok(())
}

/// A worker may find the plant stopped before its only turn, or not.
#[test]
fn an_operator_stops_and_one_is_lost(rt: HostRuntime) -> Result<(), Fail> {
    let alloc = rt.alloc();
    let rows = [
        ("stop\n", (NONE, NONE, NONE), Ended::Done, "# taken\n"),
        ("want 0 1\n", (NONE, 0, NONE), Ended::ReadFault, ""),
    ];
    for (typed, fails, end, shown) in rows {
        let (ended, out) = listened(&rt, alloc, typed, fails)?;
        let front = format!(in alloc; "{shown}{HEAD}stop 2 = taken\n# worker 0 ")?;
        assert!(&rt; ended == end && out.taken().starts_with(front.as_bytes()));
    }
    Ok(())
}

/// How many times a dialer looks for the other's frame, at most.
const LOOKS: u32 = 1_000_000_000;

/// How many bytes a read-back has.
const READ_BYTES: usize = 12;

/// A dialer whose first receive waits until another one sent a whole frame. It takes all, and hears nothing.
#[derive(Drop)]
struct Meeting<'a> {
    faults: u64,
    sent: usize,
    mine: &'a AtomicBool,
    theirs: &'a AtomicBool,
    /// Whether it saw the other's frame.
    met: bool,
}

impl<'a> Meeting<'a> {
    fn new(mine: &'a AtomicBool, theirs: &'a AtomicBool) -> Self {
        Meeting {
            faults: 0,
            sent: 0,
            mine,
            theirs,
            met: false,
        }
    }

    /// Looks for the other's frame, and tells whether it is there.
    fn look(&self) -> bool {
        (0..LOOKS).any(|_| self.theirs.load(Ordering::SeqCst))
    }
}

impl<'a> Dialer for Meeting<'a> {
    ghost links = { λ _. None };

    ghost faults = { λ s. s.faults };

    fn dial(&mut self, _host: &str, _port: u16, _wait: u32) -> Result<(), DialFailed> {
        Ok(())
    }

    fn send(&mut self, bytes: &[u8]) -> Result<usize, SendFailed> {
        self.sent = self.sent.saturating_add(bytes.len());
        if self.sent >= READ_BYTES {
            self.mine.store(true, Ordering::SeqCst);
        }
        Ok(bytes.len())
    }

    fn recv(&mut self, _into: &mut [u8]) -> Result<Received, RecvFailed> {
        self.met = self.met || self.look();
        Ok(Received::Quiet)
    }

    fn hang_up(&mut self) {}
}

/// Each worker hears only once the other has sent, so they have to work at once.
#[test]
fn two_workers_meet(rt: HostRuntime) -> Result<(), Fail> {
    let alloc = rt.alloc();
    let (one, other) = (AtomicBool::new(false), AtomicBool::new(false));
    let mut dialers = vec![in alloc; Meeting::new(&one, &other), Meeting::new(&other, &one)]?;
    for _ in 2..64 {
        dialers.push(Meeting::new(&one, &other))?;
    }
    let site = site_file(alloc, PLANT, &[INVERTER, INVERTER])?;
    let clock = StepClock::new(0, 1);
    let given = unattended("run 1", site.as_str());
    let (ended, _) = run_over(&rt, alloc, given, &mut dialers, &clock)?;
    assert!(rt; ended == Ended::Done);
    assert!(rt; dialers.iter().take(2).all(|dialer| dialer.met));
    Ok(())
}
