//! Tests of the controller's base crates, by their public items: values worked out by hand from the
//! rules, which check the definitions that the proofs rest on.
#![tactic(auto)]

#[cfg(test)]
mod bit_logic;
#[cfg(test)]
mod blocks_and_texts;
#[cfg(test)]
mod compare;
#[cfg(test)]
mod entries;
#[cfg(test)]
mod memory_areas;
#[cfg(test)]
mod monitoring;
#[cfg(test)]
mod number_formats;
#[cfg(test)]
mod number_instructions;
#[cfg(test)]
mod numbered_programs;
#[cfg(test)]
mod requests;
#[cfg(test)]
mod runs;
#[cfg(test)]
mod timers_and_counters;
