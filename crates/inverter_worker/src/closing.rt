//! The rows from a link that is given up to the end of a turn.
ghost use Rattle.std.specs.Prelude.{◌≡◌};
ghost use Rattle.inverter_worker.specs.declared.state.Step.TheVariants as step;
ghost use Rattle.inverter_worker.specs.Table.{row};

use crate::input::Input;
use crate::job::Job;
use crate::output::Output;
use crate::state::{End, State, Step};
use crate::table::Row;
use limiter_num::Point;

pub(crate) fn closing(job: &Job, state: State, input: &Input) -> Row
    ensures { result ≡ row job.now state step.Closing input.now }
{
    match input {
        Input::HungUp => {
            let hung_up = State {
                up: false,
                last: None,
                ..state
            };
            hung_up.row_to(Step::Resting, Output::Rest(job.pause))
        }
        _ => None,
    }
}

pub(crate) fn unfit_closing(
    job: &Job,
    state: State,
    point: Point,
    wanted: u32,
    found: u32,
    input: &Input,
) -> Row
    ensures { result ≡ row job.now state (step.UnfitClosing point wanted found) input.now }
{
    let unfit = End::Unfit {
        point,
        wanted,
        found,
    };
    match input {
        Input::HungUp => State { up: false, ..state }.row_to(Step::Over(unfit), Output::End),
        _ => None,
    }
}

pub(crate) fn resting(job: &Job, state: State, input: &Input) -> Row
    ensures { result ≡ row job.now state step.Resting input.now }
{
    match input {
        Input::Rested => state.row_to(Step::Ready, Output::Nothing),
        _ => None,
    }
}
