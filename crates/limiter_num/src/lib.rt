//! Milliwatts of raw percentages and moments of reversion timers, exact by their formulas.
//!
//! A `Rating` turns raw percentages of WMaxLimPct into milliwatts and back; `Rules` tell how long a
//! write may still be held. The layers above use nothing else of this crate.
#![tactic(auto)]

mod rating;
mod rules;

pub use rating::{Point, Rating, RatingFault};
pub use rules::{MOMENT_MAX, Rules, RulesField, RulesOut};

/// Memory ran out; nothing was changed.
#[derive(Clone, Copy, Debug, PartialEq, Eq)]
pub struct NoMemory;
