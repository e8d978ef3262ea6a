//! Tests of the public calls of the edge: the reading of histories, the lines of a text, and whole
//! calls of the program over devices that fail and gates that workers meet at. The library itself is
//! empty.
#![tactic(auto)]

#[cfg(test)]
mod calls;
#[cfg(test)]
mod command_tests;
#[cfg(test)]
mod compare;
#[cfg(test)]
mod compiling_tests;
#[cfg(test)]
mod device_tests;
#[cfg(test)]
mod edge_tests;
#[cfg(test)]
mod gate_tests;
#[cfg(test)]
mod help_tests;
#[cfg(test)]
mod images;
#[cfg(test)]
mod live_tests;
#[cfg(test)]
mod publish_tests;
