//! The lives of a plant whose controller may be restarted at any moment, with nothing remembered.
//!
//! A restart ends a book and begins an empty one. What was sent in the ended life may still act; the silence at
//! the start of the next one covers it. The layers above rely on this: the books so far are one history, safe at
//! every moment.
#![tactic(auto)]

mod lives;

pub use lives::{Lives, RestartFault};
