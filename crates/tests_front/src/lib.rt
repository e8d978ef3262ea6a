//! Tests of the public calls of the front end. The library itself is empty.
#![tactic(auto)]

#[cfg(test)]
mod clause_tests;
#[cfg(test)]
mod compare;
#[cfg(test)]
mod depth_tests;
#[cfg(test)]
mod describe;
#[cfg(test)]
mod reading_tests;
#[cfg(test)]
mod refusal_tests;
#[cfg(test)]
mod rows;
#[cfg(test)]
mod symbol_calls;
#[cfg(test)]
mod symbol_limits;
#[cfg(test)]
mod symbol_lists;
#[cfg(test)]
mod symbol_names;
#[cfg(test)]
mod symbol_refusals;
#[cfg(test)]
mod token_tests;
#[cfg(test)]
mod tree_tests;
