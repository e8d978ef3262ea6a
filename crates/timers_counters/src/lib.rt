//! The timers and counters of the controller.
#![tactic(auto)]

mod counter_table;
mod counting;
mod faults;
pub mod laws;
mod timer_table;
mod timing;

pub use counter_table::Counters;
pub use faults::TimerFault;
pub use plc_base::TimerKind;
pub use timer_table::Timers;
