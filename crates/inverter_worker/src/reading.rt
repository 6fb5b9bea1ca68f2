//! The rows from the time for a read-back to what it showed.
ghost use Rattle.std.specs.Prelude.{◌≡◌, ◌≤◌};
ghost use Rattle.inverter_worker.specs.declared.state.Step.TheVariants as step;
ghost use Rattle.inverter_worker.specs.Table.{row, judgement_row};

use crate::input::Input;
use crate::job::Job;
use crate::output::{Asked, Output};
use crate::state::{End, State, Step};
use crate::table::Row;
use plant_book::{Call, Read, Reply};
use readback::{Judged, judge};

pub(crate) fn read_timing(job: &Job, state: State, input: &Input) -> Row
    ensures { result ≡ row job.now state step.ReadTiming input.now }
{
    match *input {
        Input::Time(at) => {
            let inverter = job.inverter;
            state.row_to(Step::ReadAsking, Output::Call(Call::Read { at, inverter }))
        }
        _ => None,
    }
}

pub(crate) fn read_asking(job: &Job, state: State, input: &Input) -> Row
    ensures { result ≡ row job.now state step.ReadAsking input.now }
{
    match input {
        Input::Reply(Reply::ReadAs(read)) => state.row_to(Step::ReadWindow(*read), Output::Now),
        Input::Reply(_) => state.row_to(Step::Closing, Output::HangUp),
        Input::Full => state.row_to(Step::Over(End::BookFull), Output::End),
        _ => None,
    }
}

pub(crate) fn read_window(job: &Job, state: State, read: Read, input: &Input) -> Row
    ensures { result ≡ row job.now state (step.ReadWindow read) input.now }
{
    match *input {
        Input::Time(clock) => {
            let send = Output::Send(Asked::Read(read), clock);
            state.row_to(Step::SendingRead(read), send)
        }
        _ => None,
    }
}

pub(crate) fn sending_read(job: &Job, state: State, read: Read, input: &Input) -> Row
    ensures { result ≡ row job.now state (step.SendingRead read) input.now }
{
    match input {
        Input::SentAll => {
            let sent = State {
                skipped: 0,
                ..state
            };
            sent.row_to(Step::WaitRead(read), Output::Receive)
        }
        Input::SendFailed => state.row_to(Step::Closing, Output::HangUp),
        _ => None,
    }
}

pub(crate) fn wait_read(job: &Job, state: State, read: Read, input: &Input) -> Row
    requires { job.now.port.base ≤ 65514 }
    ensures { result ≡ row job.now state (step.WaitRead read) input.now }
{
    match input {
        Input::Frame(frame) => {
            judged(
                state,
                read,
                judge(&read, &job.unit, &job.port, &job.rules, frame),
            )
        }
        Input::Quiet | Input::Closed | Input::RecvFailed | Input::BadFrame => {
            state.row_to(Step::Closing, Output::HangUp)
        }
        _ => None,
    }
}

fn judged(state: State, read: Read, judged: Judged) -> Row
    ensures { result ≡ judgement_row state read judged }
{
    match judged {
        Judged::Shows(raw) => state.row_to(Step::SawTiming(read, raw), Output::Now),
        Judged::Differs {
            point,
            wanted,
            found,
        } => state.row_to(Step::UnfitClosing(point, wanted, found), Output::HangUp),
        Judged::WrongNumber(_) => state.pass_over(Step::WaitRead(read)),
        Judged::WrongUnit(_) | Judged::Exception(_) | Judged::WrongReply => {
            state.row_to(Step::Closing, Output::HangUp)
        }
    }
}

pub(crate) fn saw_timing(job: &Job, state: State, read: Read, raw: u16, input: &Input) -> Row
    ensures { result ≡ row job.now state (step.SawTiming read raw) input.now }
{
    match *input {
        Input::Time(at) => {
            let saw = Call::Saw {
                at,
                inverter: job.inverter,
                number: read.number,
                raw,
            };
            state.row_to(Step::SawAsking, Output::Call(saw))
        }
        _ => None,
    }
}

pub(crate) fn saw_asking(job: &Job, state: State, input: &Input) -> Row
    ensures { result ≡ row job.now state step.SawAsking input.now }
{
    match input {
        Input::Reply(_) => state.row_to(Step::Resting, Output::Rest(job.pause)),
        Input::Full => state.row_to(Step::Over(End::BookFull), Output::End),
        _ => None,
    }
}
