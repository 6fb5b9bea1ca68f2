//! The work of one inverter: aims at the goal that the ledger tells, asks for a limit, sends it, and reads it
//! back.
//!
//! This layer is a table: `specs/Table.antt` has for a step and an input the next step and the output, row by
//! row, and `worker_step` answers by it. It does no input or output itself. What a run of the table is stands
//! in `specs/Runs.antt`.
#![tactic(auto)]

mod closing;
mod input;
mod job;
mod laws;
mod linking;
mod output;
mod reading;
mod state;
mod table;
mod writing;

pub use input::Input;
pub use job::Job;
pub use laws::{answers_have_rows, requests_are_sent_or_given_back, runs_go_on, turns_are_short};
pub use output::{Asked, Output, Sent};
pub use state::{End, SKIPPED_MAX, State, Step};
pub use table::{Row, row_of, worker_step};
