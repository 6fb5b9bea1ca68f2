//! The desk: what a worker or an operator sees of a ledger. It enters calls, gives back tickets, asks for goals and
//! rolls the book, and knows no other part of the ledger.
//!
//! A desk may be one of many on one ledger: it tells the entries that were made through it, and a front that never
//! falls. `PlainDesk` is the desk of a plant that nobody shares.
#![tactic(auto)]

mod desk;
mod plain_desk;

pub use desk::Desk;
pub use plain_desk::PlainDesk;
