//! Serves a simulated inverter over links: each request that comes is answered by a `Bank`.
//!
//! `serve` makes a stated number of turns over any dialer and clock. What it did stands in `specs/Serving.antt`,
//! over the record of the links that it made. `Device` answers one frame, for it and for links in memory.
#![tactic(auto)]

mod device;
mod piece;
mod serving;
mod steady_clock;
mod visit;

pub use device::{Device, answer};
pub use serving::serve;
pub use steady_clock::SteadyClock;
