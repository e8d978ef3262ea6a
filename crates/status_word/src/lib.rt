//! The registers and the status word of an activation, the bit logic instructions that work on
//! them, and the nesting stack. They are those of Siemens' "Statement List (STL) for S7-300 and
//! S7-400 Programming".
#![tactic(auto)]

mod nesting;
mod registers;
mod statuses;

pub use nesting::{Bracket, Brackets, NESTING_DEPTH};
pub use plc_base::Check;
pub use registers::Regs;
pub use statuses::Status;
