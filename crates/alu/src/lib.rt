//! The number instructions: one function for each instruction that works on the accumulators
//! alone. They are those of Siemens' "Statement List (STL) for S7-300 and S7-400 Programming".
//!
//! INT is a 16-bit integer in the low word of an accumulator (ACCU 1-L), DINT a 32-bit integer in
//! the whole accumulator. In integer math and comparisons accumulator 2 is the left operand and
//! stays as it is.
#![tactic(auto)]

mod accumulators;
mod codes;
mod comparisons;
mod conversions;
mod formats;
mod integers;
mod shifts;
mod word_logic;

pub use accumulators::{add_const, add_const_wide, cad, caw, dec, inc, pop, push, tak};
pub use comparisons::{compare_d, compare_i};
pub use conversions::{btd, bti, dtb, inv_d, inv_i, itb, itd};
pub use integers::{add_d, add_i, div_d, div_i, mod_d, mul_d, mul_i, neg_d, neg_i, sub_d, sub_i};
pub use plc_base::Compare;
pub use shifts::{rld, rlda, rrd, rrda, sld, slw, srd, srw, ssd, ssi};
pub use word_logic::{and_d, and_w, or_d, or_w, xor_d, xor_w};
