//! A lock on a value that stands for a growing list of entries: each pass knows a beginning of that
//! list.
#![tactic(auto)]

mod faults;
mod locks;
mod passes;
mod rule;
mod steps;
mod storied;
mod views;

pub use faults::NoMemory;
pub use locks::{SeatsOut, TrackedLock};
pub use passes::{Held, Pass};
pub use storied::Storied;
pub use views::Made;
