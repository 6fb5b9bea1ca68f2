//! The outside of the program: the standard streams, a file, TCP connections and the system's clock, as the traits of
//! `world_traits`. Each counts its faults, and the connections tell nothing of what they send and receive.
//!
//! They stand over the kit's traits of a network, of files and of a clock. No clause says what an address, a time to
//! wait or a rest is used for: the tests look at each, over a network and a clock that note what they are asked.
#![tactic(auto)]

mod boot_clock;
mod calling;
mod listening;
mod opened;
mod streams;
mod tcp;

pub use boot_clock::BootClock;
pub use calling::Calling;
pub use listening::{AcceptWithin, Listening};
pub use opened::Opened;
pub use streams::{Input, Output};
pub use tcp::{Opener, TcpDialer};
