//! The console of an operator: lines become calls of a ledger, and each shows at once what came of it.
//!
//! `order_of` tells which order a line spells, and `console` follows the lines of a source. Which calls are made,
//! what is written, and how it ends stands in `specs/Transcript.antt`.
#![tactic(auto)]

mod comments;
mod finding;
mod lines;
mod order;
mod orders;
mod rolled;
mod session;
mod status;
mod writing;

pub use order::{Order, order_of};
pub use session::{CONSOLE_BYTES_MAX, ConsoleEnd, console};
