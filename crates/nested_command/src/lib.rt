//! The command `nested`: reads an input with buses to its end, replays it, and writes what was done.
//!
//! `specs/Nested.antt` says what each of its ends means, and which end comes.
#![tactic(auto)]

mod command;
mod laws;

pub use command::nested;
pub use laws::what_a_nested_replay_says;
