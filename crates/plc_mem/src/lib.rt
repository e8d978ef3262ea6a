//! The memory areas of the controller but local data: process images, bit memory, peripheral inputs
//! and outputs, and data blocks.
#![tactic(auto)]

mod data_blocks;
mod differences;
mod faults;
pub mod laws;
mod memories;
pub mod operands;
mod peripherals;
mod upper_parts;

pub use faults::Missing;
pub use memories::Memory;
pub use peripherals::PeripheralArea;
