//! What every command stands on: how the program ends, how an end is shown, and the site file.
//!
//! `specs/Ends.antt` says how each end is shown, and `specs/Site.antt` what reading a site file leaves.
#![tactic(auto)]

mod ended;
mod fault_text;
mod live_fault;
mod site;

pub use ended::{Ended, status};
pub use live_fault::LiveFault;
pub use site::read_site;
