//! Shares the watts under a cap: the level up to which every claim is served, and the target of each claim at it.
//!
//! The layer above relies on one contract: `level` is the greatest level from 0 to the cap at which the targets of
//! all claims sum to at most the cap. So the targets are max-min fair. `reaches` tells with less work whether it is at
//! least some level.
#![tactic(auto)]

mod claim;
mod laws;
mod level_range;
mod shares;

pub use claim::{Claim, Policy};
pub use laws::level_depends_on_claims_alone;
pub use shares::{level, reaches, target, total_at};
