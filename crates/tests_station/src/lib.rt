//! Tests of the public calls of `station`, over a controller of the empty source. The library itself is
//! empty.
#![tactic(auto)]

#[cfg(test)]
mod bench;
#[cfg(test)]
mod compare;
#[cfg(test)]
mod full;
#[cfg(test)]
mod passes;
#[cfg(test)]
mod turns;
