//! The workers of a plant together: `run_plain` gives each worker one turn after another, on one desk that nobody
//! shares, until all are over; `run_out` gives one worker its turns to its end, through any desk.
//!
//! What one worker did over all its turns stands in `specs/Works.antt`, and what all did together in
//! `specs/Running.antt`. How the book and the new links of a dialer agree with what a worker did
//! stands in `specs/Agreement.antt`.
#![tactic(auto)]

mod crew;
mod forked;
mod laws;
mod plain;
mod turns;

pub use forked::{RunEnd, run_forked};
pub use laws::{links_agree, runs_agree, writes_outlive_their_worker};
pub use plain::run_plain;
pub use turns::run_out;
