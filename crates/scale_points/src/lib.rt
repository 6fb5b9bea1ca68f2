//! Readers of SunSpec points: what the registers of a map hold at an offset, or none where a point
//! isn't there or isn't implemented.
//!
//! The layer above relies on one contract a reader: its result is the point's value by
//! `specs/Numbers.antt` or `specs/Text.antt`.
#![tactic(auto)]

mod laws;
mod numbers;
mod strings;

pub use laws::text_limits;
pub use numbers::{double_word, enum16, int16, sunssf, uint16, uint32};
pub use strings::{TEXT_BYTES, TEXT_REGISTERS, text};
