//! Tests of the calls of `stl_codegen` that put the parts of an image in order. The library itself is
//! empty.
#![tactic(auto)]

#[cfg(test)]
mod compare;
#[cfg(test)]
mod order_tests;
#[cfg(test)]
mod target_tests;
