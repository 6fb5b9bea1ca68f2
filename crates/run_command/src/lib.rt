//! The command `run`: reads a site file to its end, runs its plant, and writes the text of the run.
//!
//! `specs/Run.antt` says what each of its ends means, and which end comes.
#![tactic(auto)]

mod command;
mod laws;

pub use command::run;
pub use laws::what_a_run_says;
