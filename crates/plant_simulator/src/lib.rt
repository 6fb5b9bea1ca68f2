//! A simulated plant: inverters whose writes are lost, repeated, late and out of order, under the real ledger.
#![tactic(auto)]

mod inverter;
mod laws;
mod simulation;
mod site;
mod summary;
mod text;
mod words;

pub use inverter::{OldWrite, Request};
pub use laws::{inverters_follow_the_device, numbers_are_those_of_the_site, peaks_are_greatest};
pub use summary::{Summary, simulate};
pub use text::summary_text;
