//! Laws of printed trees: the text of a printable tree is read back as that tree.
#![tactic(auto)]

mod printed_sources;
mod reading;
mod standing;

pub use printed_sources::law_of_printed_source;
pub use reading::law_of_printed_tree;
pub use standing::law_of_printed_tokens;
