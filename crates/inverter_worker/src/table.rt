//! The table: for a state and an input the next state and the output.
ghost use Rattle.std.specs.Prelude.{◌≡◌, ◌≤◌, Some};
ghost use Rattle.inverter_worker.specs.States.{row_to};
ghost use Rattle.inverter_worker.specs.Table.{row, table, HasRow, other_frame_row};

use crate::closing::{closing, resting, unfit_closing};
use crate::input::Input;
use crate::job::Job;
use crate::linking::{aiming, dialing, link_timing, linking, ready};
use crate::output::Output;
use crate::reading::{
    read_asking, read_timing, read_window, saw_asking, saw_timing, sending_read, wait_read,
};
use crate::state::{SKIPPED_MAX, State, Step};
use crate::writing::{asking, release_timing, sending, timing, wait_write, window};

/// What the table has for a state and an input.
pub type Row = Option<(State, Output)>;

/// What a worker does in this state on this input, for which the table has a row: its next state, and its
/// output.
pub fn worker_step(job: &Job, state: State, input: Input) -> (State, Output)
    requires base { job.now.port.base ≤ 65514 }
    requires row { HasRow job.now state input }
    ensures { table job.now state input ≡ Some result }
{
    match row_of(job, state, &input) {
        Some(row) => row,
        None => unreachable!(),
    }
}

/// The row of the table for this state and this input, the next state with the output, or None where it has none.
pub fn row_of(job: &Job, state: State, input: &Input) -> Row
    requires { job.now.port.base ≤ 65514 }
    ensures { result ≡ table job.now state input.now }
{
    match state.step {
        Step::Ready => ready(job, state, input),
        Step::Aiming => aiming(job, state, input),
        Step::Dialing(raw) => dialing(job, state, raw, input),
        Step::LinkTiming(raw) => link_timing(job, state, raw, input),
        Step::Linking(raw) => linking(job, state, raw, input),
        Step::Timing(raw) => timing(job, state, raw, input),
        Step::Asking => asking(job, state, input),
        Step::Window(write) => window(job, state, write, input),
        Step::ReleaseTiming(write) => release_timing(job, state, write, input),
        Step::Sending(write) => sending(job, state, write, input),
        Step::WaitWrite(write) => wait_write(job, state, write, input),
        Step::ReadTiming => read_timing(job, state, input),
        Step::ReadAsking => read_asking(job, state, input),
        Step::ReadWindow(read) => read_window(job, state, read, input),
        Step::SendingRead(read) => sending_read(job, state, read, input),
        Step::WaitRead(read) => wait_read(job, state, read, input),
        Step::SawTiming(read, raw) => saw_timing(job, state, read, raw, input),
        Step::SawAsking => saw_asking(job, state, input),
        Step::Closing => closing(job, state, input),
        Step::UnfitClosing(point, wanted, found) => {
            unfit_closing(job, state, point, wanted, found, input)
        }
        Step::Resting => resting(job, state, input),
        Step::Over(_) => None,
    }
}

impl State {
    /// The state at another step, and the output.
    pub(crate) fn row_to(self, step: Step, output: Output) -> Row
        ensures { result ≡ row_to self step output }
    {
        Some((State { step, ..self }, output))
    }

    /// A frame of another request came while the worker waits at this step.
    pub(crate) fn pass_over(self, step: Step) -> Row
        ensures { result ≡ other_frame_row self step }
    {
        if self.skipped < SKIPPED_MAX {
            let skipped = self.skipped + 1;
            State { skipped, ..self }.row_to(step, Output::Receive)
        } else if self.skipped == SKIPPED_MAX {
            self.row_to(Step::Closing, Output::HangUp)
        } else {
            None
        }
    }
}
