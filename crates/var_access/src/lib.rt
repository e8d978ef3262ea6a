//! Entries of a history: what happens to the controller from outside, and what it answers.
#![tactic(auto)]

mod entries;
mod readings;
mod replies;
mod request_texts;
mod requests;
mod runs;
pub mod text_rules;
mod variable_texts;

pub use entries::{Entry, What, is_arrivable};
pub use readings::{address_number, both, first_word, hex_of, number_reading};
pub use replies::{Numbers, Reply};
pub use request_texts::{RequestFault, kind_of_word, parse_request, request_of};
pub use requests::{MOST_VARS, Request, Var, Vars};
pub use runs::{Entries, Run};
