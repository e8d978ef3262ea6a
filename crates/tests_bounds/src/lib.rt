//! Tests of bounds of stacks by the public calls: programs as text, with certificates and chains worked
//! out by hand. The library itself is empty.
#![tactic(auto)]

#[cfg(test)]
mod bench;
#[cfg(test)]
mod compare;
#[cfg(test)]
mod found_rows;
#[cfg(test)]
mod held_rows;
#[cfg(test)]
mod long_chains;
#[cfg(test)]
mod texts;
