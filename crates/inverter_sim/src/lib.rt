//! A simulated inverter, by the registers that it shows and by the limit that it holds.
//!
//! The layers above rely on `specs/Replies.antt`, by which a `Bank` answers each request and takes a limit,
//! and on `takes_are_held`: a write that it takes is held until the bank's time has passed, unless it takes
//! another before. `limits_follow_the_timed_device` says in the words of the timed device what it is to hold a
//! limit so, for a bank and for each inverter of a simulated plant.
#![tactic(auto)]

mod bank;
mod held_limit;
mod laws;
mod registers;

pub use bank::Bank;
pub use held_limit::HeldLimit;
pub use laws::{
    banks_follow_the_timed_device, limits_are_taken_and_shown, limits_follow_the_timed_device,
    takes_are_held,
};
