//! The text of a run: what each entry of a history showed, and how the controller stands at its
//! end.
mod closing;
mod entries;
mod replaying;

pub use entries::write_entries;
pub use replaying::{controller_at_start, replay_text};
