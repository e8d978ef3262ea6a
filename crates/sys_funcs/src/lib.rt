//! The system functions (SFC): what each does to the scheduler and to the running activation, and its
//! return value RET_VAL.
#![tactic(auto)]

mod delays;
mod disabling;
mod error_codes;
mod returns;
mod runtime;
mod waiting;

pub use delays::{can_dint, srt_dint};
pub use disabling::{dis_irt, en_irt};
pub use runtime::{re_trigr, stp, time_tck};
pub use waiting::{dis_airt, en_airt};
