//! The outside of the controller: files, sinks and the gate of its workers as traits, with versions
//! in memory, adapters to the real ones, and the two loops over them.
#![tactic(auto)]

mod calls;
mod faults;
mod lists;
mod loops;
mod memory;
mod real;
mod sure;
mod traits;

pub use calls::Calls;
pub use faults::{IoFault, NoMemory};
pub use lists::{Bytes, NamedFile, NamedFiles};
pub use loops::{push_all, read_to_limit};
pub use memory::{MemFiles, MemSink};
pub use real::{OpenGate, RealFiles, RealSink};
pub use sure::{SureFiles, SureSink};
pub use traits::{Files, Gate, Sink};
