//! What the commands share that read a script: the script is read whole, its text is made, and the text is written whole.
//!
//! Each of them gives a `Script`: which text its scripts have, and how it refuses those that have none.
//! `specs/Ends.antt` says for all of them what each end means, and which end comes.
#![tactic(auto)]

mod command;
mod laws;
mod script;
mod site_end;

pub use command::run_script;
pub use laws::what_a_script_says;
pub use script::{Script, Told};
pub use site_end::end_of_site;
