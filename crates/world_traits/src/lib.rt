//! The outside of the product as traits, each with a written meaning, and fakes of it in memory.
//!
//! A source tells the bytes that are left, a sink the bytes that it took, and a dialer the record of its links, where
//! they know them. Each counts its faults: code above a trait can't raise the count, so a clause 'only where the count
//! rose' refuses a body that gives up by itself. A clock has no fault; what it gives passes its test.
//!
//! The fakes tell all that they know, and their contracts have the whole state after each call.
#![tactic(auto)]

mod bytes_sink;
mod bytes_source;
mod clock;
mod dialer;
mod link;
mod link_log;
mod play;
mod play_dialer;
mod rest;
mod schedule;
mod sink;
mod source;
mod step_clock;
mod watch;

pub use bytes_sink::BytesSink;
pub use bytes_source::BytesSource;
pub use clock::Clock;
pub use dialer::{DialFailed, Dialer, Received, RecvFailed, SendFailed, send_whole};
pub use link::Link;
pub use link_log::LinkLog;
pub use play::{Move, PlayLink};
pub use play_dialer::PlayDialer;
pub use rest::copy_front;
pub use schedule::Schedule;
pub use sink::{Sink, WriteFailed};
pub use source::{ReadFailed, Source};
pub use step_clock::StepClock;
pub use watch::Watch;
