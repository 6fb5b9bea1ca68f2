//! The ledger: one book of calls, of which each reply is the one that the book before it asks for.
//!
//! `Plant::open` takes all memory that the book will need, and `Plant::roll` that of the next one; no other call
//! takes any. A `Ticket` is the right to send one granted write, once.
#![tactic(auto)]

mod account;
mod ceiling;
mod entering;
mod known;
mod ledger;
mod lists;
mod opening;
mod plant;
mod queue;
mod replies;
mod reserved;
mod rolling;
mod shares;
mod site;
mod sums;
mod ticket;

pub use opening::OpenFault;
pub use plant::{BookFull, Goal, Outcome, Plant};
pub use rolling::RollFault;
pub use ticket::Ticket;
