//! Commissions one inverter over one link: finds its models, compares their points with the site file, writes its
//! floor as a limit, and reads that back.
//!
//! A `Commission` does no input or output itself. It says which request is to be sent next, and is handed the
//! frames that come. What each frame makes of it stands in `specs/Taking.antt`; `specs/Passed.antt` says what has
//! passed over the link when it stands at a stage.
#![tactic(auto)]

mod commission;
mod fault;
mod found;
mod laws;
mod steps;
mod target;

pub use commission::{Commission, Took};
pub use fault::CommissionFault;
pub use found::Record702;
pub use laws::{one_frame_more, replies_lead_there, requests_are_numbered, what_has_passed};
