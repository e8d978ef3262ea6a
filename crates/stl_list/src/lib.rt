//! The listing of a program: a source and a symbols file that compile to it.
#![tactic(auto)]

mod actuals;
mod chains;
mod code_blocks;
mod constants;
mod data_blocks;
mod initial;
mod labels;
mod lines;
mod links;
mod listing;
mod mnemonics;
mod operands;
mod parameters;
mod runs;
mod sections;
mod signatures;
mod statements;
mod symbols;

pub use listing::{Listing, list, list_within};
