//! German and English mnemonics of the Statement List: `to_english` and `to_german` translate a
//! source from one to the other.
#![tactic(auto)]

mod classes;
mod places;
mod roles;
mod tables;
mod translation;
mod words;

pub use translation::{law_of_translations, to_english, to_german};
pub use words::law_of_translated_words;
