// What a run gives.

use interval_tables::Report;
use jm_base::Items;
use recorder_core::Books;
use thread_machine::TraceItem;

/// What a run gives.
#[derive(Drop)]
pub struct RunBooks {
    /// The trace of each thread, in the order of the threads' numbers.
    pub traces: Items<Items<TraceItem>>,
    /// What is counted of all samples together.
    pub total: Report,
    /// The recorder's books: every writer's list of entries, and every report.
    pub books: Books,
}
