//! The meaning of a source, and the laws that tie it to what the controller runs.
#![tactic(auto)]

pub mod laws;
