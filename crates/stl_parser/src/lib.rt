//! The parser of STL sources: `parse` reads the tokens of a source into its tree, or names the
//! first clause that breaks a rule of the grammar.
#![tactic(auto)]

mod addresses;
mod blocks;
mod clauses;
mod declarations;
mod frames;
mod heads;
mod keywords;
mod literals;
mod lookups;
mod numbers;
mod operands;
mod parameters;
mod parsed_items;
mod paths;
mod places;
mod pointers;
mod settings;
mod sources;
mod statements;
mod steps;
mod tables;
mod types;
mod values;

pub use sources::{law_of_clauses, law_of_lines, parse};
