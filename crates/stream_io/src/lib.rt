//! Reads an input whole, and writes a text whole.
//!
//! `specs/Streams.antt` says what a call does to a source or a sink, in the words that the commands above use.
#![tactic(auto)]

mod input;
mod output;

pub use input::{InputFault, read_whole};
pub use output::write_whole;
