//! The syntax tree of an STL source: blocks, declarations, types, settings, statements, operands.
#![tactic(auto)]

mod blocks;
mod components;
mod declarations;
mod literals;
mod mnemonics;
mod names;
mod operands;
mod sequences;
mod statements;

pub use blocks::{Block, Part, PartKind, PathStep, Setting, Tree};
pub use components::law_of_components;
pub use declarations::{Bounds, Declaration, Declarations, ElementType, Init, Simple, TypeTree};
pub use literals::{Characters, Literal};
pub use mnemonics::Mnemonic;
pub use names::{BlockName, Name};
pub use operands::{Letters, Numbered, Operand, PathHead};
pub use sequences::Sequence;
pub use statements::{Actual, Statement};
