//! The command `serve`: reads a site file to its end, and serves a simulation of one of its inverters.
//!
//! `specs/Serve.antt` says what each of its ends means, and which end comes.
#![tactic(auto)]

mod command;
mod laws;

pub use command::serve;
pub use laws::what_a_serving_says;
