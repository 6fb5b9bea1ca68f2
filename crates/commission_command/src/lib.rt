//! The command `commission`: reads a site file to its end, and commissions one of its inverters over one link.
//!
//! `specs/Commission.antt` says what each of its ends means, and which end comes.
#![tactic(auto)]

mod command;
mod laws;

pub use command::commission;
pub use laws::what_a_commissioning_says;
