//! Tests of the scheduler by its public items: values worked out by hand from the rules, which check
//! the definitions that the proofs rest on.
#![tactic(auto)]

#[cfg(test)]
mod classes;
#[cfg(test)]
mod compare;
#[cfg(test)]
mod entering_tests;
#[cfg(test)]
mod frame_tests;
#[cfg(test)]
mod function_tests;
#[cfg(test)]
mod function_tools;
#[cfg(test)]
mod part_tests;
#[cfg(test)]
mod requests;
#[cfg(test)]
mod start_information;
#[cfg(test)]
mod ticks;
#[cfg(test)]
mod tools;
