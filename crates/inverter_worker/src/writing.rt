//! The rows from the time for a request to the reply to a write.
ghost use Rattle.std.specs.Prelude.{◌≡◌, ◌+◌, nat_le};
ghost use Rattle.inverter_worker.specs.declared.state.Step.TheVariants as step;
ghost use Rattle.inverter_worker.specs.States.{due, in_window};
ghost use Rattle.inverter_worker.specs.Table.{row};

use crate::input::Input;
use crate::job::Job;
use crate::output::{Asked, Output};
use crate::state::{End, State, Step};
use crate::table::Row;
use plant_book::{Call, Reply, Write};

pub(crate) fn timing(job: &Job, state: State, raw: u16, input: &Input) -> Row
    ensures { result ≡ row job.now state (step.Timing raw) input.now }
{
    let inverter = job.inverter;
    match *input {
        Input::Time(at) if is_due(job, state.last, at, raw) => {
            let ask = Call::Ask { at, inverter, raw };
            state.row_to(Step::Asking, Output::Call(ask))
        }
        Input::Time(at) => state.row_to(
            Step::ReadAsking,
            Output::Call(Call::Read { at, inverter }),
        ),
        _ => None,
    }
}

/// Whether the limit is to be asked for at this reading of the clock, in ms.
fn is_due(job: &Job, last: Option<Write>, clock: u64, raw: u16) -> bool
    ensures { result ≡ due job.now last clock raw }
{
    match last {
        Some(last) => last.raw != raw || has_passed(last.at, job.renew, clock),
        None => true,
    }
}

/// Whether so many ms have passed since a moment.
fn has_passed(since: u64, ms: u32, clock: u64) -> bool
    ensures { result ≡ nat_le (since + ms) clock }
{
    clock
        .checked_sub(since)
        .is_some_and(|passed| passed >= u64::from(ms))
}

pub(crate) fn asking(job: &Job, state: State, input: &Input) -> Row
    ensures { result ≡ row job.now state step.Asking input.now }
{
    match input {
        Input::Reply(Reply::Granted(write)) => state.row_to(Step::Window(*write), Output::Now),
        Input::Reply(Reply::Spent) => state.row_to(Step::Closing, Output::HangUp),
        Input::Reply(_) => state.row_to(Step::ReadTiming, Output::Now),
        Input::Full => state.row_to(Step::Over(End::BookFull), Output::End),
        _ => None,
    }
}

pub(crate) fn window(job: &Job, state: State, write: Write, input: &Input) -> Row
    ensures { result ≡ row job.now state (step.Window write) input.now }
{
    match *input {
        Input::Time(clock) if may_be_sent(job, &write, clock) => {
            let send = Output::Send(Asked::Write(write), clock);
            state.row_to(Step::Sending(write), send)
        }
        Input::Time(clock) => state.row_to(
            Step::ReleaseTiming(write),
            Output::Release(write, clock),
        ),
        _ => None,
    }
}

/// Whether this reading of the clock, in ms, lies in the send window of the write.
fn may_be_sent(job: &Job, write: &Write, clock: u64) -> bool
    ensures { result ≡ in_window job.now write.now clock }
{
    clock
        .checked_sub(write.at)
        .is_some_and(|passed| passed <= u64::from(job.rules.send))
}

pub(crate) fn release_timing(job: &Job, state: State, write: Write, input: &Input) -> Row
    ensures { result ≡ row job.now state (step.ReleaseTiming write) input.now }
{
    match input {
        Input::Reply(_) => state.row_to(Step::ReadTiming, Output::Now),
        Input::Full => state.row_to(Step::Over(End::BookFull), Output::End),
        _ => None,
    }
}

pub(crate) fn sending(job: &Job, state: State, write: Write, input: &Input) -> Row
    ensures { result ≡ row job.now state (step.Sending write) input.now }
{
    match input {
        Input::SentAll => {
            let sent = State {
                last: Some(write),
                skipped: 0,
                ..state
            };
            sent.row_to(Step::WaitWrite(write), Output::Receive)
        }
        Input::SendFailed => state.row_to(Step::Closing, Output::HangUp),
        _ => None,
    }
}

pub(crate) fn wait_write(job: &Job, state: State, write: Write, input: &Input) -> Row
    ensures { result ≡ row job.now state (step.WaitWrite write) input.now }
{
    match input {
        Input::Frame(frame) if frame.transaction == write.number => {
            state.row_to(Step::ReadTiming, Output::Now)
        }
        Input::Frame(_) => state.pass_over(Step::WaitWrite(write)),
        Input::Quiet | Input::Closed | Input::RecvFailed | Input::BadFrame => {
            state.row_to(Step::Closing, Output::HangUp)
        }
        _ => None,
    }
}
