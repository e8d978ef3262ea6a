//! The scheduler of the organization blocks: requests, delays, cyclic OBs and the cycle time.
#![tactic(auto)]

mod bin;
mod bins;
mod clocks;
mod countdowns;
mod cycle_times;
mod dues;
mod errors;
pub mod laws;
mod ob_sets;
mod organization_blocks;
mod queues;
mod requests;
mod sched;
mod start_infos;
mod tick_results;
mod ticks;

pub use bin::Bin;
pub use bins::Bins;
pub use organization_blocks::{can_wait, class_in, is_ob};
pub use requests::{Arrived, Pending};
pub use sched::Sched;
pub use start_infos::{StartEvent, StartInfo};
pub use tick_results::TickResult;
