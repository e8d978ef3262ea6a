//! Tests of the public calls of `watch_board`. The library itself is empty.
#![tactic(auto)]

#[cfg(test)]
mod compare;
#[cfg(test)]
mod items;
#[cfg(test)]
mod threads;
#[cfg(test)]
mod views;
