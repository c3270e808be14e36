//! Prints what threads have done: their result lines, the summary of their samples, and how they ended. A text goes to its sink
//! in pieces, so that little of it is held at once.
#![tactic(auto)]

mod error;
mod history;
mod line;
mod results;
mod tail;

pub use error::PrintError;
pub use history::print_history;
pub use results::{print_all_results, print_results, result_lines};
pub use tail::{end_of, print_all_report, print_report};
