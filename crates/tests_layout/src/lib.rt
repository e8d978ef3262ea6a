//! Tests of the public calls of block_layout. The library itself is empty.
#![tactic(auto)]

#[cfg(test)]
mod bytes_tests;
#[cfg(test)]
mod calls;
#[cfg(test)]
mod compare;
#[cfg(test)]
mod limit_tests;
#[cfg(test)]
mod offset_tests;
#[cfg(test)]
mod reader_tests;
#[cfg(test)]
mod refusal_tests;
