//! Code generation: the ops of an instruction, and the code of a block.
#![tactic(auto)]

mod bodies;
mod code_blocks;
mod codes;
mod data_blocks;
mod emitting;
mod generating;
mod instructions;
mod names;
mod operands;
mod operations;
mod order;
mod params;
mod passings;
mod places;

pub use generating::generate;
pub use order::{sort_code_blocks, sort_data_blocks, sort_names};
pub use places::place_targets;
