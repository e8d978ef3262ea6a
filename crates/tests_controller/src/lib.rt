//! Tests of the controller by its public calls: programs as text, histories, and what the entries
//! show, worked out by hand; and of the texts of histories, stimuli, scripts and replies. The library
//! itself is empty.
#![tactic(auto)]

#[cfg(test)]
mod bench;
#[cfg(test)]
mod class_rows;
#[cfg(test)]
mod compare;
#[cfg(test)]
mod error_rows;
#[cfg(test)]
mod interrupt_rows;
#[cfg(test)]
mod monitoring_rows;
#[cfg(test)]
mod profile_rows;
#[cfg(test)]
mod reply_lines;
#[cfg(test)]
mod request_rows;
#[cfg(test)]
mod requests;
#[cfg(test)]
mod run_rows;
#[cfg(test)]
mod silent_rows;
#[cfg(test)]
mod texts;
#[cfg(test)]
mod tick_rows;
#[cfg(test)]
mod watched_rows;
#[cfg(test)]
mod written_texts;
