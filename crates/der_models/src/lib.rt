//! Views of the SunSpec models 701 to 704: the points of them that the controller reads and writes.
//!
//! The layers above rely on `specs/Limit.antt`, where the block of a limit and the view of one are
//! inverse on the six written registers, and on `specs/Models.antt` for the other views. Where points
//! stand, and how long models have to be for them, is said by `specs/Layout.antt`.
//!
//! A slice given to a view starts at the register of the model's identifier, but for `limit_view`.
#![tactic(auto)]

pub mod identifiers;
mod laws;
mod lengths;
mod limit;
mod measured;
mod models;
pub mod offsets;

pub use laws::{each_identifier, limit_place};
pub use lengths::{HEADER, least_block, least_length};
pub use limit::{LimitView, limit_block, limit_view};
pub use measured::Measure;
pub use models::{capacity, enter_service, measure, pct_sf};
