//! The reporter's part of a run: it asks the ticker, closes an interval at each true answer, writes the interval's report
//! at once, counts it in the total and asks the hook of it, until all workers have ended.
#![tactic(auto)]

mod counts;
mod ended;
mod error;
mod rules;
mod turns;
mod writing;

pub use counts::Counts;
pub use ended::Ended;
pub use error::RunError;
pub use rules::Rules;
pub use turns::report_until;
pub use writing::write_report;
