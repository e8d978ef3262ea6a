//! The machine: one statement of an activation.
#![tactic(auto)]

mod bindings;
mod bit_logic;
mod copies;
mod data_blocks;
mod entering;
mod fetching;
mod jumps;
pub mod laws;
mod loads;
mod nesting;
mod numbers;
mod outcomes;
mod performing;
mod places;
mod pointers;
mod readiness;
mod relay;
mod results;
mod returning;
mod running;
mod statements;
mod system_calls;
mod timing;
mod values;
mod walking;
mod whole;

pub use outcomes::Outcome;
pub use places::{Access, Location};
pub use readiness::is_ready;
pub use results::give_result;
pub use running::run;
pub use statements::statement;
pub use system_calls::Inputs;
