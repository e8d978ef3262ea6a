//! The tokens of an STL source: `lex` cuts the bytes into tokens, or names the first place that
//! breaks a rule of tokens.
#![tactic(auto)]

mod bytes;
mod entries;
mod gaps;
mod kinds;
mod laws;
mod lexer;
mod lists;
mod literals;
mod marks;
mod places;
mod quotes;
mod rules;
mod tables;
mod times;
mod words;

pub use bytes::first_letter;
pub use kinds::{Token, TokenKind};
pub use laws::{law_of_pieces, law_of_standing};
pub use lexer::{law_of_time_literals, law_of_tokens, lex};
pub use lists::Tokens;
pub use literals::{behind_prefix, milliseconds_within};
pub use marks::{Mark, mark_text};
pub use rules::{
    GREATEST_COUNT, GREATEST_LONG, GREATEST_NEGATED, GREATEST_NEGATED_LONG, GREATEST_NUMBER,
    GREATEST_S5TIME,
};

/// The most bytes that a source may have.
pub const SOURCE_LIMIT: usize = 1_048_576;
