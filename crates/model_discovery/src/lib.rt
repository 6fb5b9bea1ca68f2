//! Finds the chain of models in a SunSpec register map, one read of two registers at a time.
//!
//! The layer above relies on one contract: a walk that was told what a map answers to its reads stands
//! where `specs/Chain.antt` has the chain of that map, so a finished walk has exactly that chain, and a
//! failed one its first fault. Whatever a walk is told, also by a map that changes its answers, the models
//! that it has found are long enough for their points and end within the map.
#![tactic(auto)]

mod fault;
mod found;
mod laws;
mod walk;
mod whole_walk;

pub use fault::WalkFault;
pub use found::Found;
pub use laws::{each_chain, one_outcome};
pub use walk::{Next, Walk};
pub use whole_walk::{RegisterMap, discover};
