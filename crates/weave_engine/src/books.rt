// What a run by a schedule gives.

use interval_tables::Report;
use jm_base::Items;
use thread_machine::TraceItem;

/// What a run by a schedule gives.
#[derive(Drop)]
pub struct WeaveBooks {
    /// The trace of each thread, in the order of the threads' numbers.
    pub traces: Items<Items<TraceItem>>,
    /// The report of each interval, in the order of the intervals: the last is that of the interval that is active at the end.
    pub reports: Items<Report>,
}
