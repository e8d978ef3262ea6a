//! What an operator sees: records of monitored statements, the last records of diagnostics, and the
//! lines of a run.
#![tactic(auto)]

mod appending;
mod diagnostics;
mod lines;
mod records;
mod texts;

pub use appending::{db_line, diag_line, end_line, mode_line, mon_line, output_line};
pub use diagnostics::{DiagRing, Records};
pub use lines::Line;
pub use records::{DiagRecord, MonRecord};
pub use texts::{ROW_BYTES, end_text, kind_text, row_text};
