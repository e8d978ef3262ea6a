//! A board on which one thread shows items and another views the last one, with no lock between
//! them.
#![tactic(auto)]

mod boards;
mod copies;
mod last_items;
mod prefixes;
mod same_board;
mod shown;

pub use boards::{Board, Note, Publisher, Viewer};
pub use shown::Shown;
