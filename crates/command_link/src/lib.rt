//! What the commands over one link share: the inverter of the site file that they name, and what they do with its dialer.
//!
//! `specs/Finding.antt` says what it is to find an inverter, and `specs/Dialing.antt` what a dialer tells of a command.
#![tactic(auto)]

mod finding;

pub use finding::find_inverter;
