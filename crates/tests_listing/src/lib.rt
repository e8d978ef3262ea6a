//! Tests of listings. The library itself is empty.
#![tactic(auto)]

#[cfg(test)]
mod compare;
#[cfg(test)]
mod print_rows;
#[cfg(test)]
mod printed;
