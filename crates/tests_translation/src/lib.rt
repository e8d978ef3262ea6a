//! Tests of the translation between German and English mnemonics. The library itself is empty.
#![tactic(auto)]

#[cfg(test)]
mod bodies;
#[cfg(test)]
mod compare;
#[cfg(test)]
mod name_rows;
#[cfg(test)]
mod place_rows;
#[cfg(test)]
mod refusal_rows;
#[cfg(test)]
mod word_rows;
