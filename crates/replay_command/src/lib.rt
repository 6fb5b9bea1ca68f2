//! The command `replay`: reads a script to its end, replays it, and writes the text of its lives.
//!
//! `specs/Replay.antt` says what each of its ends means, and which end comes.
#![tactic(auto)]

mod command;
mod laws;

pub use command::replay;
pub use laws::what_a_replay_says;
