//! A run of the plant that a site file describes: one life, in which a worker keeps the limit of each inverter, and an
//! operator gives orders through a console.
//!
//! `run_site` makes the ledger and the workers and runs them to their ends, `run_text` tells what came of it, and
//! `finish_of` how it finished. What a run is stands in `specs/Run.antt`, and what is told in `specs/Report.antt`.
#![tactic(auto)]

mod laws;
mod opening;
mod report;
mod run;

pub use laws::runs_replay_as_their_lives;
pub use opening::{Opening, open_site};
pub use report::{Finish, finish_of, run_text, wrote_whole};
pub use run::{Ran, run_site};
