//! Laws of statements: what each does, in words of its own, is what its instruction does.
#![tactic(auto)]

pub mod laws;
