//! The commands of the program by their words, over any input, output, links and clock.
//!
//! `plain` does those that need no link: `replay`, `nested`, `check` and `simulate`. `live` does those over links: `run`,
//! `commission` and `serve`. Each command is a crate of its own, whose `specs/` say what its ends mean; the contracts
//! here say which words ask for it. `exporter` hands `plain` and `live` the real world.
#![tactic(auto)]

mod command;
mod live_commands;
mod plain_commands;
mod words;

pub use command_io::{Ended, LiveFault, status};
pub use live_commands::live;
pub use plain_commands::plain;
