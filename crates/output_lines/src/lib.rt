//! The lines that are printed: results, how each thread ended, and what was counted.
#![tactic(auto)]

mod bulk;
mod lines;
mod middle_rows;
mod reports;
mod rows;
mod stamp;
mod texts;

pub use bulk::ResultLines;
pub use lines::{end_line, header_line, result_line};
pub use reports::{report_lines, summary_lines};
