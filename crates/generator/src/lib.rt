//! Programs and histories that a number gives: the source of a long program, and a history to run
//! it by, made of numbers that are drawn from that number.
#![tactic(auto)]

mod draws;
mod histories;
mod sources;

pub use histories::history;
pub use sources::source_text;
