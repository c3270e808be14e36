// What a reporter goes by.

use crate::ended::Ended;
use element_tree::Plan;
use interval_reporter::{Reporter, Verdict};
use interval_tables::Report;

/// What a reporter goes by.
#[derive(Drop)]
pub struct Rules<'a, F: Fn(&Report, u64) -> Verdict> {
    /// The plan whose labels the reports have.
    pub plan: &'a Plan,
    /// What is asked of each closed report.
    pub reporter: &'a Reporter<F>,
    /// How many errors a report may have before the run is to stop.
    pub limit: u64,
    /// When all workers have ended, the reporter ends.
    pub ended: &'a Ended,
}
