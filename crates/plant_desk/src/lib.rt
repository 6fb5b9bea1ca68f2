//! The shared desk: any number of threads enter calls in one ledger, each through a pass of its own.
//!
//! Each reply is the one that the joined book asks for, and the joined book begins with all that the pass had
//! seen. What `PlantDesk::close` hands back is the plant after one life, in which each call of each pass
//! stands once. No clause says that a turn comes, nor that two threads run at once.
#![tactic(auto)]

mod board;
mod closing;
mod deed;
mod desk;
mod desk_of;
mod laws;
mod opening;
mod pass;
mod plays;
mod turn;

pub use closing::CloseRefused;
pub use desk::PlantDesk;
pub use desk_of::DeskOf;
pub use laws::{entries_are_told_apart, what_passes_made_stands};
pub use pass::Pass;
