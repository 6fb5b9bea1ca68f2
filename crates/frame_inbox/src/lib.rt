//! Frames over a link, one after another, whatever pieces it cuts them into.
//!
//! `Inbox::next_frame` waits for the next frame: what of the bytes it hands out, what it keeps, and what the link
//! records of it stands in `specs/Waiting.antt`.
#![tactic(auto)]

mod inbox;

pub use inbox::{Inbox, NoFrame};
