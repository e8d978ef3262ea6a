//! Programs for tests, written as text, as images.
#![tactic(auto)]

mod assembler;
mod places;
mod words;

pub use assembler::{Image, assembled_image, data_of, is_data_block};
pub use places::{Address, area_of, decimal, in_named_block, spelled_place, width_of};
