//! The command `simulate`: simulates a plant, and writes the summary of what it comes to.
//!
//! `specs/Simulate.antt` says what each of its ends means, and which end comes.
#![tactic(auto)]

mod command;
mod laws;

pub use command::{INVERTERS_MAX, STEPS_MAX, Simulation, simulate};
pub use laws::what_a_simulation_says;
