//! Tests of the rules of statements. The library itself is empty.
#![tactic(auto)]

#[cfg(test)]
mod body_tests;
#[cfg(test)]
mod call_tests;
#[cfg(test)]
mod calls;
#[cfg(test)]
mod compare;
#[cfg(test)]
mod context_tests;
#[cfg(test)]
mod source_tests;
#[cfg(test)]
mod word_tests;
