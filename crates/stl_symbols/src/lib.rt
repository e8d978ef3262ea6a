//! The symbols of a symbols file, and names and numbers with their first places.
#![tactic(auto)]

mod addresses;
mod columns;
mod fields;
mod languages;
mod laws;
mod names;
mod numbers;
mod reading;
mod symbols;
mod targets;

pub use languages::Language;
pub use laws::law_of_symbols;
pub use names::NameIndex;
pub use numbers::NumberIndex;
pub use reading::{SYMBOLS_LIMIT, read_symbols, read_symbols_german};
pub use symbols::{Symbol, Symbols};
pub use targets::Target;
