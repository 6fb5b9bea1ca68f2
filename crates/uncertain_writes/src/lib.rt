//! The uncertain writes of an inverter: those that may still act or be held, as far as the calls on the ledger tell.
//!
//! The layer above relies on one contract: a `Live` holds a list, and each call leaves a filter of it, or one more
//! write at its end. `lists_follow_the_book` says that so it holds the live writes of a book, call by call.
#![tactic(auto)]

mod kept;
mod laws;
mod live;
mod places;
mod rising;

pub use laws::{lists_follow_the_book, the_greatest_is_reserved};
pub use live::Live;
pub use plant_book::{LIVE_MAX, Read, Write};
