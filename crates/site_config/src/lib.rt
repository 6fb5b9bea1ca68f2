//! The site file: a TOML text that names the plant, its inverters and where each of them is reached.
//!
//! `site_of` reads one, or answers its first fault; `summary_text` tells what it holds. What a text stands for, and
//! in which order its faults come, stands in `specs/`.
#![tactic(auto)]

mod fault;
mod fields;
mod inverters;
mod key;
mod laws;
mod points;
mod settings;
mod site_file;
mod summary;
mod tables;

pub use fault::{SiteError, SiteFault};
pub use key::Key;
pub use laws::one_meaning;
pub use site_file::{SITE_BYTES_MAX, SiteFile, site_of, site_of_table};
pub use summary::summary_text;
