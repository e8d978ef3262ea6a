//! Types and number conversions that every layer of the controller shares.
#![tactic(auto)]

mod bcd;
mod bits;
mod blocks;
mod decimals;
pub mod error_codes;
mod faults;
mod flags;
mod instructions;
pub mod laws;
mod least;
mod modes;
mod places;
mod pointers;
mod profiles;
mod refusals;
mod s5times;
pub mod stop_causes;
mod texts;

pub use bcd::{
    BadBcd, bcd_to_int, bcd_to_unsigned, bcd7_to_dint, dint_to_bcd7, int_to_bcd, unsigned_to_bcd,
};
pub use bits::has_bit;
pub use blocks::{BlockId, BlockKind};
pub use decimals::{are_digits, capped_decimal, decimal_up_to};
pub use faults::NoMemory;
pub use flags::Flag;
pub use instructions::{Check, Compare, TimerKind};
pub use least::{broken_if, least_of, lesser, try_least_of};
pub use modes::{Mode, Spot};
pub use places::{Area, Place, Width, is_peripheral_byte};
pub use pointers::{BadArea, place_of_pointer, pointer_of_place};
pub use profiles::Profile;
pub use refusals::{Refusal, SourceFault};
pub use s5times::{MOST_UNITS, TimeBase, TooLong, ms_of_s5time, s5time_of_ms};
pub use texts::{first_line, is_blank};
