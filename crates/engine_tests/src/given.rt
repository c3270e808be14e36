//! What a run gave, in plain numbers.

use crate::printed::{Printed, read_printed};
use interval_tables::{Report, Row};
use run_engine::RunBooks;
use thread_machine::TraceItem;

/// What a report counts over all labels.
#[derive(Clone, Copy, PartialEq, Eq, Debug)]
pub struct Totals {
    pub samples: u64,
    pub errors: u64,
    pub elapsed: u64,
    pub bytes: u64,
}

impl Totals {
    // One more label's row.
    fn with(self, row: &Row) -> Totals {
        Totals {
            samples: self.samples.wrapping_add(row.count),
            errors: self.errors.wrapping_add(row.errors),
            elapsed: self.elapsed.wrapping_add(row.total),
            bytes: self.bytes.wrapping_add(row.bytes),
        }
    }

    // What a report counts.
    fn of(report: &Report) -> Totals {
        let mut totals = Totals {
            samples: 0,
            errors: 0,
            elapsed: 0,
            bytes: 0,
        };
        for row in report.rows.as_slice() {
            totals = totals.with(row);
        }
        totals
    }
}

/// What a run gave.
#[derive(Clone, Copy, PartialEq, Eq, Debug)]
pub struct Given {
    /// The report of all samples.
    pub total: Totals,
    /// How many intervals the books count.
    pub intervals: u64,
    /// How many traces there are.
    pub traces: usize,
    /// How many of them have one `Ended`, as their last item.
    pub ended: u64,
    /// What was written.
    pub printed: Printed,
}

impl Given {
    /// What the books of a run say, and what it wrote.
    pub fn of(books: &RunBooks, text: &[u8]) -> Given {
        let mut ended = 0u64;
        for trace in books.traces.as_slice() {
            ended = ended.wrapping_add(u64::from(ends_once(trace.as_slice())));
        }
        Given {
            total: Totals::of(&books.total),
            intervals: books.books.intervals,
            traces: books.traces.as_slice().len(),
            ended,
            printed: read_printed(text),
        }
    }
}

// Whether a trace has one `Ended`, as its last item.
fn ends_once(trace: &[TraceItem]) -> bool {
    let Some((last, before)) = trace.split_last() else {
        return false;
    };
    for item in before {
        if is_end(item) {
            return false;
        }
    }
    is_end(last)
}

fn is_end(item: &TraceItem) -> bool {
    matches!(item, TraceItem::Ended(_))
}
