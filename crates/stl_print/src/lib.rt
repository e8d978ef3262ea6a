//! A tree of the source as text: `print` writes the blocks of a tree, each clause on its line.
#![tactic(auto)]

mod blocks;
mod clauses;
mod declarations;
mod digits;
mod gaps;
mod literals;
mod mnemonics;
mod names;
mod operands;
mod statements;
mod tokens;
mod trees;
mod words;

pub use gaps::Gap;
pub use operands::append_address;
pub use trees::print;
pub use words::type_word;
