ghost use Rattle.std.specs.Prelude.{◌≡◌, IfOk, None};

use device_dialers::*;
use inverter_sim::Bank;
use limiter_num::{Rating, Rules};
use plant_book::Unit;
use std::process::Abort;
use std::test::Fail;
use world_traits::{DialFailed, Dialer, Received, RecvFailed, SendFailed, StepClock};

/// Frames: a read of the mark, a write of 100 percent, a read-back of the limit, and a read for another unit.
const FRAMES: [u8; 61] = [
    0, 1, 0, 0, 0, 6, 1, 3, 0x9C, 0x40, 0, 2, 0, 2, 0, 0, 0, 0x13, 1, 0x10, 0x9D, 0x76, 0, 6, 0x0C,
    0, 1, 3, 0xE8, 0, 100, 0, 1, 0, 0, 0, 60, 0, 3, 0, 0, 0, 6, 1, 3, 0x9D, 0x76, 0, 8, 0, 4, 0, 0,
    0, 6, 2, 3, 0x9C, 0x40, 0, 2,
];

/// The replies to the first three. The last shows the limit 61,699 ms before it reverts.
const REPLIES: [u8; 50] = [
    0, 1, 0, 0, 0, 7, 1, 3, 4, 0x53, 0x75, 0x6E, 0x53, 0, 2, 0, 0, 0, 6, 1, 0x10, 0x9D, 0x76, 0, 6,
    0, 3, 0, 0, 0, 0x13, 1, 3, 16, 0, 1, 3, 0xE8, 0, 100, 0, 1, 0, 0, 0, 60, 0, 0, 0, 62,
];

/// An inverter of 6 kW with a floor of 600 W, which answers to unit number 1.
fn bank(rt: &impl Abort) -> Result<Bank, Fail>
    ensures { IfOk result (λ bank. bank.last ≡ 0) }
{
    let rating = Rating::new(6_000, 0, -1).ok().ok_or("rating")?;
    let unit = Unit::new(rating, 100).ok().ok_or("floor")?;
    let rules = Rules::new(1_000, 4_000, 60, 20, 500).ok().ok_or("rules")?;
    let after = rules.tmax();
    assert!(rt; rules.tmin() <= after);
    Ok(Bank::new(unit, rules, 1, after))
}

/// A call of a dialer, with what it comes to.
#[derive(Clone, Copy)]
enum Step<'a> {
    Dial,
    Send(&'a [u8], Result<usize, SendFailed>),
    Receive(Result<Received, RecvFailed>, &'a [u8]),
}

fn take<N: Dialer>(rt: &impl Abort, dialer: &mut N, step: Step) {
    match step {
        Step::Dial => assert_eq!(rt; dialer.dial("localhost", 5_020, 2_000), Ok(())),
        Step::Send(bytes, sent) => assert_eq!(rt; dialer.send(bytes), sent),
        Step::Receive(got, bytes) => {
            let mut into = [0; 40];
            assert_eq!(rt; dialer.recv(&mut into), got);
            assert!(rt; into.starts_with(bytes));
        }
    }
}

fn play<N: Dialer>(rt: &impl Abort, dialer: &mut N, steps: &[Step]) {
    for step in steps {
        take(rt, dialer, *step);
    }
}

#[test]
fn a_device_answers_and_hangs_up(rt: HostRuntime) -> Result<(), Fail> {
    let clock = StepClock::new(0, 1);
    let mut dialer = DeviceDialer::new(rt.alloc(), bank(&rt)?, &clock, vec![in rt.alloc(); 9]?);
    let steps = [
        Step::Send(&FRAMES[..12], Err(SendFailed)),
        Step::Dial,
        // Four frames in one piece, of which the last is hung up on.
        Step::Send(&FRAMES, Ok(61)),
        Step::Send(&FRAMES, Ok(61)),
        Step::Receive(Ok(Received::Bytes(40)), &REPLIES[..40]),
        Step::Receive(Ok(Received::Bytes(10)), &REPLIES[40..]),
        Step::Receive(Ok(Received::Closed), &[]),
        Step::Receive(Ok(Received::Quiet), &[]),
        Step::Send(&FRAMES, Ok(61)),
        // The ninth call is listed as one that fails.
        Step::Receive(Err(RecvFailed), &[]),
        Step::Send(&FRAMES, Err(SendFailed)),
        Step::Dial,
        Step::Send(&FRAMES[..12], Ok(12)),
        Step::Receive(Ok(Received::Bytes(13)), &REPLIES[..13]),
        Step::Receive(Ok(Received::Quiet), &[]),
    ];
    play(&rt, &mut dialer, &steps);
    assert_eq!(rt; (dialer.log().count(), dialer.starved()), (2, 0));
    Ok(())
}

#[test]
fn a_write_is_cut_at_each_byte_and_once(rt: HostRuntime) -> Result<(), Fail> {
    let clock = StepClock::new(0, 1);
    let write = &FRAMES[12..37];
    for cut in 1..=26 {
        let device = DeviceDialer::new(rt.alloc(), bank(&rt)?, &clock, Vec::new(rt.alloc()));
        let mut dialer = CutDialer::new(device, Some(cut));
        let acts = if cut < 25 {
            Received::Quiet
        } else {
            Received::Bytes(12)
        };
        let steps = [
            Step::Dial,
            Step::Send(&FRAMES[..12], Ok(12)),
            Step::Receive(Ok(Received::Bytes(13)), &REPLIES[..13]),
            Step::Send(write, Ok(write.len().min(cut as usize))),
            Step::Send(&FRAMES, Err(SendFailed)),
            Step::Receive(Ok(acts), &[]),
            Step::Dial,
            Step::Send(write, Ok(25)),
            Step::Receive(Ok(Received::Bytes(12)), &REPLIES[13..25]),
        ];
        play(&rt, &mut dialer, &steps);
    }
    Ok(())
}

/// The reply to a read-back of the limit, where so many seconds are left.
fn shown(high: u8, low: u8, left: u8) -> [u8; 25] {
    [
        0, 3, 0, 0, 0, 0x13, 1, 3, 16, 0, 1, high, low, 0, 100, 0, 1, 0, 0, 0, 60, 0, 0, 0, left,
    ]
}

#[test]
fn each_request_reads_the_clock_once(rt: HostRuntime) -> Result<(), Fail> {
    // The write at 20 s is held up to 81.7 s. The read-backs come at 40, 60, 80 and 100 s: 42, 22 and 2 s are left,
    // and then it has gone back to its floor.
    let clock = StepClock::new(0, 20_000);
    let mut dialer = DeviceDialer::new(rt.alloc(), bank(&rt)?, &clock, Vec::new(rt.alloc()));
    let (write, read_back) = (&FRAMES[12..37], &FRAMES[37..49]);
    let begin = [
        Step::Dial,
        Step::Send(&write[..20], Ok(20)),
        Step::Send(&write[20..], Ok(5)),
        Step::Receive(Ok(Received::Bytes(12)), &REPLIES[13..25]),
    ];
    play(&rt, &mut dialer, &begin);
    for reply in [
        shown(3, 0xE8, 42),
        shown(3, 0xE8, 22),
        shown(3, 0xE8, 2),
        shown(0, 100, 0),
    ] {
        let steps = [
            Step::Send(read_back, Ok(12)),
            Step::Receive(Ok(Received::Bytes(25)), &reply),
            Step::Receive(Ok(Received::Quiet), &[]),
        ];
        play(&rt, &mut dialer, &steps);
    }
    Ok(())
}

/// A dialer that makes no link, and keeps how long it was to wait.
#[derive(Debug, Drop)]
struct Waiting {
    wait: u32,
    faults: u64,
}

impl Dialer for Waiting {
    ghost links = { λ w. None };

    ghost faults = { λ w. w.faults };

    fn dial(&mut self, _host: &str, _port: u16, wait: u32) -> Result<(), DialFailed> {
        self.wait = wait;
        self.faults = self.faults.saturating_add(1);
        Err(DialFailed)
    }

    fn send(&mut self, _bytes: &[u8]) -> Result<usize, SendFailed> {
        self.faults = self.faults.saturating_add(1);
        Err(SendFailed)
    }

    fn recv(&mut self, _into: &mut [u8]) -> Result<Received, RecvFailed> {
        self.faults = self.faults.saturating_add(1);
        Err(RecvFailed)
    }

    fn hang_up(&mut self) {}
}

fn assert_waits(rt: &impl Abort, mut dialer: CutDialer<Waiting>) {
    assert_eq!(rt; dialer.dial("localhost", 5_020, 2_345), Err(DialFailed));
    assert_eq!(rt; (dialer.inner().wait, dialer.inner().faults), (2_345, 1));
}

#[test]
fn a_dial_below_waits_as_long(rt: HostRuntime) {
    assert_waits(&rt, CutDialer::new(Waiting { wait: 0, faults: 0 }, None));
    assert_waits(&rt, CutDialer::new(Waiting { wait: 0, faults: 0 }, Some(1)));
}
