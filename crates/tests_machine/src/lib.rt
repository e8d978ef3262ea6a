//! Tests of the machine by its public calls: programs as text, with registers, status word and memory
//! worked out by hand. The library itself is empty.
#![tactic(auto)]

#[cfg(test)]
mod bench;
#[cfg(test)]
mod bit_logic_rows;
#[cfg(test)]
mod call_rows;
#[cfg(test)]
mod error_rows;
#[cfg(test)]
mod jump_rows;
#[cfg(test)]
mod load_rows;
#[cfg(test)]
mod number_rows;
#[cfg(test)]
mod place_error_rows;
#[cfg(test)]
mod pointer_rows;
#[cfg(test)]
mod program_rows;
#[cfg(test)]
mod relay_rows;
#[cfg(test)]
mod system_call_rows;
#[cfg(test)]
mod timing_rows;
