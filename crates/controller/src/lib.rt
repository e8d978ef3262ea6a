//! The controller: the CPU over a loaded program, and the history of all entries so far, from which
//! its state follows.
#![tactic(auto)]

mod activations;
mod asking;
mod beginning;
mod controllers;
mod cpus;
mod errors;
pub mod laws;
mod monitoring;
mod observing;
mod passing;
mod running;
mod serving;
mod settling;
mod silent_steps;
mod spots;
mod starting;
mod stepping;
mod stopping;

pub use controllers::Controller;
pub use cpus::Cpu;
pub use observing::{Observed, Observer, Outputs};
pub use starting::data_numbers;
