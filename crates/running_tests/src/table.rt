ghost use Rattle.std.specs.Prelude.{◌≡◌, ◌≤◌, IfOk};

use arrayvec::ArrayString;
use inverter_worker::*;
use limiter_num::{Point, Rating, Rules};
use mbap_frames::Frame;
use modbus_pdu::Pdu;
use plant_book::{Call, Port, Read, Reply, Unit, Write};
use plant_ledger::Goal;
use std::test::Fail;

/// An inverter of 6 kW with a floor of 10 percent, at unit 1, whose model 704 begins at register 40296, under
/// timers of a minute.
fn job() -> Result<Job, Fail>
    ensures { IfOk result (λ job. job.port.base ≤ 65514) }
{
    let rating = Rating::new(6_000, 0, -1).ok().ok_or("a rating")?;
    let unit = Unit::new(rating, 100).ok().ok_or("a floor")?;
    let rules = Rules::new(1_000, 4_000, 60, 20, 500).ok().ok_or("rules")?;
    let port = Port {
        host: ArrayString::new(),
        port: 502,
        unit: 1,
        base: 40296,
    };
    Ok(Job {
        inverter: 0,
        unit,
        port,
        rules,
        renew: 20_000,
        pause: 1_000,
        wait: 2_000,
    })
}

const GOAL: Goal = Goal {
    raw: 1_000,
    reserved: 600_000,
    stop: false,
};

/// A worker with one turn left that has read its limit back on its first link.
const LINKED: State = State {
    step: Step::Ready,
    up: true,
    last: None,
    turns: 1,
    skipped: 0,
};

const WRITE: Write = Write {
    inverter: 0,
    link: 1,
    number: 2,
    at: 70_007,
    raw: 1_000,
};

/// A worker that has sent a write and waits for the reply.
const WRITTEN: State = State {
    step: Step::WaitWrite(WRITE),
    last: Some(WRITE),
    ..LINKED
};

const READ: Read = Read {
    inverter: 0,
    link: 1,
    number: 3,
    at: 70_009,
};

/// Where a worker stands after these inputs, if each output is the one behind its input.
fn played(job: &Job, first: State, steps: &[(Input, Output)]) -> Option<State>
    requires { job.now.port.base ≤ 65514 }
{
    let mut state = first;
    for (input, output) in steps {
        let (next, made) = row_of(job, state, input)?;
        if made != *output {
            return None;
        }
        state = next;
    }
    Some(state)
}

/// A read-back of the raw percentage 1,000 with this floor.
fn shown(transaction: u16, floor: u8) -> Frame {
    let pdu = [
        3, 16, 0, 1, 3, 0xE8, 0, floor, 0, 1, 0, 0, 0, 60, 0, 0, 0, 58,
    ];
    Frame {
        transaction,
        unit: 1,
        pdu: Pdu::from_slice(&pdu),
    }
}

/// The reply to a write.
fn wrote(transaction: u16) -> Frame {
    Frame {
        transaction,
        unit: 1,
        pdu: Pdu::from_slice(&[16, 0x9D, 0x76, 0, 6]),
    }
}

#[test]
fn a_turn_begins_with_the_goal(rt: HostRuntime) -> Result<(), Fail> {
    let (next, output) = worker_step(&job()?, LINKED, Input::Go);
    assert_eq!(rt;
        (next.step, next.turns, output),
        (Step::Aiming, 0, Output::Goal)
    );
    Ok(())
}

#[test]
fn without_a_link_a_turn_rests(rt: HostRuntime) -> Result<(), Fail> {
    let first = State {
        up: false,
        ..LINKED
    };
    let steps = [
        (Input::Go, Output::Goal),
        (Input::Goal(GOAL), Output::Dial),
        (Input::DialFailed, Output::Rest(1_000)),
        (Input::Rested, Output::Nothing),
        (Input::Go, Output::End),
    ];
    let over = State {
        step: Step::Over(End::TurnsDone),
        turns: 0,
        ..first
    };
    assert_eq!(rt; played(&job()?, first, &steps), Some(over));
    Ok(())
}

#[test]
fn a_silent_plant_is_read_and_a_quiet_link_hung_up(rt: HostRuntime) -> Result<(), Fail> {
    let read = Read {
        number: 1,
        at: 4,
        ..READ
    };
    let steps = [
        (Input::Goal(GOAL), Output::Dial),
        (Input::Dialed, Output::Now),
        (
            Input::Time(2),
            Output::Call(Call::Link { at: 2, inverter: 0 }),
        ),
        (Input::Reply(Reply::Linked(1)), Output::Now),
        (
            Input::Time(3),
            Output::Call(Call::Ask {
                at: 3,
                inverter: 0,
                raw: 1_000,
            }),
        ),
        (Input::Reply(Reply::Silent(66_701)), Output::Now),
        (
            Input::Time(4),
            Output::Call(Call::Read { at: 4, inverter: 0 }),
        ),
        (Input::Reply(Reply::ReadAs(read)), Output::Now),
        (Input::Time(5), Output::Send(Asked::Read(read), 5)),
        (Input::SentAll, Output::Receive),
        (Input::Quiet, Output::HangUp),
        (Input::HungUp, Output::Rest(1_000)),
    ];
    let first = State {
        step: Step::Aiming,
        up: false,
        ..LINKED
    };
    let resting = State {
        step: Step::Resting,
        ..first
    };
    assert_eq!(rt; played(&job()?, first, &steps), Some(resting));
    Ok(())
}

#[test]
fn a_raise_is_asked_for_and_then_sent(rt: HostRuntime) -> Result<(), Fail> {
    let ask = Call::Ask {
        at: 70_007,
        inverter: 0,
        raw: 1_000,
    };
    let steps = [
        (Input::Go, Output::Goal),
        (Input::Goal(GOAL), Output::Now),
        (Input::Time(70_007), Output::Call(ask)),
        (Input::Reply(Reply::Granted(WRITE)), Output::Now),
        (
            Input::Time(70_008),
            Output::Send(Asked::Write(WRITE), 70_008),
        ),
        (Input::SentAll, Output::Receive),
    ];
    let waits = State {
        turns: 0,
        ..WRITTEN
    };
    assert_eq!(rt; played(&job()?, LINKED, &steps), Some(waits));
    Ok(())
}

#[test]
fn a_second_reply_to_a_write_is_passed_over(rt: HostRuntime) -> Result<(), Fail> {
    let read = Call::Read {
        at: 70_009,
        inverter: 0,
    };
    let steps = [
        (Input::Frame(wrote(2)), Output::Now),
        (Input::Time(70_009), Output::Call(read)),
        (Input::Reply(Reply::ReadAs(READ)), Output::Now),
        (Input::Time(70_010), Output::Send(Asked::Read(READ), 70_010)),
        (Input::SentAll, Output::Receive),
        (Input::Frame(wrote(2)), Output::Receive),
    ];
    let waits = State {
        step: Step::WaitRead(READ),
        skipped: 1,
        ..WRITTEN
    };
    assert_eq!(rt; played(&job()?, WRITTEN, &steps), Some(waits));
    Ok(())
}

#[test]
fn what_a_read_back_shows_is_entered(rt: HostRuntime) -> Result<(), Fail> {
    let saw = Call::Saw {
        at: 70_011,
        inverter: 0,
        number: 3,
        raw: 1_000,
    };
    let freed = Reply::Freed {
        count: 0,
        reserved: 6_000_000,
    };
    let steps = [
        (Input::Frame(shown(3, 100)), Output::Now),
        (Input::Time(70_011), Output::Call(saw)),
        (Input::Reply(freed), Output::Rest(1_000)),
    ];
    let waits = State {
        step: Step::WaitRead(READ),
        ..WRITTEN
    };
    let resting = State {
        step: Step::Resting,
        ..waits
    };
    assert_eq!(rt; played(&job()?, waits, &steps), Some(resting));
    Ok(())
}

#[test]
fn a_limit_is_renewed_20_seconds_after_its_grant(rt: HostRuntime) -> Result<(), Fail> {
    let job = job()?;
    let sent = State {
        step: Step::Timing(1_000),
        last: Some(WRITE),
        ..LINKED
    };
    let read = Call::Read {
        at: 90_006,
        inverter: 0,
    };
    let ask = Call::Ask {
        at: 90_007,
        inverter: 0,
        raw: 1_000,
    };
    assert!(rt; played(&job, sent, &[(Input::Time(90_006), Output::Call(read))]).is_some());
    assert!(rt; played(&job, sent, &[(Input::Time(90_007), Output::Call(ask))]).is_some());
    Ok(())
}

#[test]
fn a_write_past_its_window_is_given_back(rt: HostRuntime) -> Result<(), Fail> {
    let granted = State {
        step: Step::Window(WRITE),
        ..LINKED
    };
    let release = Output::Release(WRITE, 71_008);
    assert!(rt; played(&job()?, granted, &[(Input::Time(71_008), release)]).is_some());
    Ok(())
}

#[test]
fn another_floor_ends_the_worker_and_the_eighth_frame_its_link(
    rt: HostRuntime,
) -> Result<(), Fail> {
    let job = job()?;
    let waits = State {
        step: Step::WaitRead(READ),
        ..LINKED
    };
    let unfit = State {
        step: Step::Over(End::Unfit {
            point: Point::PctRvrt,
            wanted: 100,
            found: 101,
        }),
        up: false,
        ..LINKED
    };
    let steps = [
        (Input::Frame(shown(3, 101)), Output::HangUp),
        (Input::HungUp, Output::End),
    ];
    assert_eq!(rt; played(&job, waits, &steps), Some(unfit));
    let seven = State {
        skipped: 7,
        ..waits
    };
    assert!(rt; played(&job, seven, &[(Input::Frame(wrote(1)), Output::HangUp)]).is_some());
    Ok(())
}
