//! Runs the commissioning of one inverter over a link that it dials, and writes what it finds.
//!
//! What a `Commission` asks goes out on the link, the frames that come there are handed to it, and the points
//! that were found go to a sink as lines. The one contract above is that of `commission`: `specs/Ends.antt` says
//! what stands on the link at each end, and `specs/Lines.antt` what is written. It takes no memory.
#![tactic(auto)]

mod job;
mod laws;
mod line;
mod run;
mod stop;

pub use job::Job;
pub use laws::replies_commission;
pub use run::commission;
pub use stop::{Refusal, Stop};
