//! The texts of a plant's books: scripts of calls are read, and books are written.
//!
//! `read_head` and `Lines::next_line` read a script line by line, or tell its first bad line, and `script_of` reads it
//! whole; `site_size` judges it without taking memory; `head_text`, `entry_text`, `restart_text` and `roll_text` write
//! what was done of it. What a line spells, and which line is bad, stands in `specs/`.
#![tactic(auto)]

mod fault;
mod fields;
mod head;
mod head_judging;
mod judging;
mod laws;
mod line;
mod lines;
/// What a row is made of: texts, numbers behind a space, and its end. Other inputs in the grammar of scripts read their
/// rows by these.
pub mod number;
mod pen;
mod reading;
mod rows;
mod script;
mod size;
mod text;

pub use fault::ScriptFault;
pub use laws::{lines_are_few, one_reading, texts_read_back};
pub use line::{Line, LineKind};
pub use lines::{Begun, Lines, judge_rest, read_head, site_size};
pub use script::{SCRIPT_BYTES_MAX, Script, script_of};
pub use size::SiteSize;
pub use text::{entry_text, head_text, restart_text, roll_text};
