//! The last moments of a write: until when it may act, and until when it may be held, and the queue of writes
//! in the order in which the latter pass.
//!
//! The layers above rely on two formulas and one contract: an `Expiries` holds a list, and each call leaves it
//! with one entry more at its end, or one less.
#![tactic(auto)]

mod expiries;
mod laws;
mod moments;

pub use expiries::{Due, EXPIRIES_MAX, Expiries};
pub use laws::entries_that_are_left;
pub use moments::{last_act, last_moment};
