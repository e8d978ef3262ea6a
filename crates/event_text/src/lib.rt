//! Texts of histories, both ways; stimuli and scripts as they are read.
#![tactic(auto)]

mod addresses;
mod faults;
mod fields;
mod kinds;
pub mod laws;
mod lines;
mod replies;
mod texts;
mod watched_vars;
mod writing;

pub use faults::TextFault;
pub use replies::{outcome_lines, reply_lines};
pub use texts::{read_history, read_script, read_stimuli};
pub use watched_vars::read_watched_vars;
pub use writing::write_history;
