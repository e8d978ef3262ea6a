//! Bounds of stacks: how deep the calls of a program go, and how many local bytes they take.
#![tactic(auto)]

mod callers;
mod calls;
mod certificates;
mod chain_text;
mod checking;
mod deepest;
mod finding;
pub mod laws;
mod layers;
mod marks;
mod measures;
mod texts;

pub use certificates::Bound;
pub use chain_text::write_chain;
pub use checking::holds;
pub use finding::{Found, find};
pub use texts::{CertificateFault, read_certificate, write_certificate};
