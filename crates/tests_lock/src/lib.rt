//! Tests of the public calls of `tracked_lock`, over a register of notes. The library itself is empty.
#![tactic(auto)]

#[cfg(test)]
mod compare;
#[cfg(test)]
mod notes;
#[cfg(test)]
mod turns;
#[cfg(test)]
mod workers;
