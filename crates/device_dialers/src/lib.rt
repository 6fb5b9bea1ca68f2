//! A simulated plant: links in memory behind which a simulated inverter answers.
//!
//! A `DeviceDialer` is a dialer whose links reach a `Bank`. A `CutDialer` is a dialer over another that cuts one
//! frame short. What each of their calls does stands in `specs/`.
#![tactic(auto)]

mod cut_dialer;
mod device_dialer;
mod hearing;
mod replies;

pub use cut_dialer::{CutDialer, Handing};
pub use device_dialer::DeviceDialer;
pub use hearing::Standing;
