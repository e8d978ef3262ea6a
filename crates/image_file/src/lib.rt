//! Images of programs: both ways, and verified.
#![tactic(auto)]

mod block_table;
mod blocks;
mod calls;
mod checking;
mod codes;
mod copies;
mod data;
mod environments;
mod faults;
mod fields;
mod heads;
pub mod laws;
mod loaded;
mod loaded_blocks;
mod loaded_code;
mod loading;
mod marks;
mod numbers;
mod operands;
mod program_faults;
mod reader;
mod records;
mod refusing;
mod statement_table;
mod stops;
mod tables;
mod typing;
mod verifying;
mod whole;
mod writing;

pub use faults::{LoadFault, VerifyFault};
pub use heads::CodeBlockHead;
pub use loaded::Loaded;
pub use loaded_code::LoadedCode;
pub use loading::{load, load_written, load_written2};
pub use program_faults::verify;
pub use refusing::{LoadError, VerifyError};
pub use writing::{write_image, write_image2};
