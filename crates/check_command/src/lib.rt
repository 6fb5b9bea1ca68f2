//! The command `check`: reads a site file to its end, and writes its summary.
//!
//! `specs/Check.antt` says what each of its ends means, and which end comes.
#![tactic(auto)]

mod command;
mod laws;

pub use command::check;
pub use laws::what_a_check_says;
