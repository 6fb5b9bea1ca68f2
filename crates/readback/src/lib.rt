//! The two requests to the limit of an inverter as frames, and what the answer to a read-back shows.
//!
//! The layers above rely on `write_request`, `read_request` and `judge`: what goes over the wire stands in
//! `specs/Frames.antt`, byte by byte, and what an answer is judged in `specs/Judging.antt`.
#![tactic(auto)]

mod frames;
mod judging;
mod laws;

pub use frames::{
    limit_request, read_back_request, read_request, registers_request, write_request,
};
pub use judging::{Judged, judge, judge_reply, reply_of};
pub use laws::{replies_by_the_grammar, what_was_written_is_shown};
