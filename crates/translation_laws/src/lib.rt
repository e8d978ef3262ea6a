//! Laws of the translation between English and German mnemonics: which role each word has, and that
//! a right source comes back with the same tree.
#![tactic(auto)]

mod laws;

pub use laws::{law_of_roles, law_of_round_trip};
