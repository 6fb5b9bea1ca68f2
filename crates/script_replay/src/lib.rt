//! Scripts are replayed: each line is done on a plant, and what was done is written as the text of its lives.
//!
//! `replay_script` is the whole of it. What the lives of a script are, and why each reply is right and they are safe
//! at every moment, stands in `specs/`.
#![tactic(auto)]

mod laws;
mod playing;
mod reading;
mod replay;

pub use laws::{
    books_replay_as_themselves, lives_replay_as_themselves, one_replay, room_is_enough,
};
pub use replay::{ReplayFault, Replayed, replay_script};
