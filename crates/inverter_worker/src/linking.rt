//! The rows from the begin of a turn to a link that is entered.
ghost use Rattle.std.specs.Prelude.{◌≡◌};
ghost use Rattle.inverter_worker.specs.declared.state.Step.TheVariants as step;
ghost use Rattle.inverter_worker.specs.Table.{row};

use crate::input::Input;
use crate::job::Job;
use crate::output::Output;
use crate::state::{End, State, Step};
use crate::table::Row;
use plant_book::{Call, Reply};

pub(crate) fn ready(job: &Job, state: State, input: &Input) -> Row
    ensures { result ≡ row job.now state step.Ready input.now }
{
    match input {
        Input::NoRoom => state.row_to(Step::Over(End::NoMemory), Output::End),
        Input::Go if state.turns == 0 => state.row_to(Step::Over(End::TurnsDone), Output::End),
        Input::Go => {
            let turns = state.turns - 1;
            State { turns, ..state }.row_to(Step::Aiming, Output::Goal)
        }
        _ => None,
    }
}

pub(crate) fn aiming(job: &Job, state: State, input: &Input) -> Row
    ensures { result ≡ row job.now state step.Aiming input.now }
{
    match input {
        Input::Goal(goal) if goal.stop => state.row_to(Step::Over(End::Stopped), Output::End),
        Input::Goal(goal) if state.up => state.row_to(Step::Timing(goal.raw), Output::Now),
        Input::Goal(goal) => state.row_to(Step::Dialing(goal.raw), Output::Dial),
        _ => None,
    }
}

pub(crate) fn dialing(job: &Job, state: State, raw: u16, input: &Input) -> Row
    ensures { result ≡ row job.now state (step.Dialing raw) input.now }
{
    match input {
        Input::DialFailed => state.row_to(Step::Resting, Output::Rest(job.pause)),
        Input::Dialed => state.row_to(Step::LinkTiming(raw), Output::Now),
        _ => None,
    }
}

pub(crate) fn link_timing(job: &Job, state: State, raw: u16, input: &Input) -> Row
    ensures { result ≡ row job.now state (step.LinkTiming raw) input.now }
{
    match *input {
        Input::Time(at) => {
            let inverter = job.inverter;
            state.row_to(
                Step::Linking(raw),
                Output::Call(Call::Link { at, inverter }),
            )
        }
        _ => None,
    }
}

pub(crate) fn linking(job: &Job, state: State, raw: u16, input: &Input) -> Row
    ensures { result ≡ row job.now state (step.Linking raw) input.now }
{
    match input {
        Input::Reply(Reply::Linked(_)) => {
            let linked = State {
                up: true,
                last: None,
                ..state
            };
            linked.row_to(Step::Timing(raw), Output::Now)
        }
        Input::Full => state.row_to(Step::Over(End::BookFull), Output::End),
        _ => None,
    }
}
