//! A controller that several workers share: each entry of its history is one turn of a lock.
#![tactic(auto)]

mod shared;
mod stations;

pub use shared::{FULL, Opening, Shared, StationFault};
pub use stations::{Station, StationOut};
pub use tracked_lock::Pass;
