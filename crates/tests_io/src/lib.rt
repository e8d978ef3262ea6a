//! Tests of the public calls of `plc_io`: files and sinks in memory and real ones, the two loops, and
//! counted calls. The library itself is empty.
#![tactic(auto)]

#[cfg(test)]
mod compare;
#[cfg(test)]
mod count_tests;
#[cfg(test)]
mod outside_tests;
