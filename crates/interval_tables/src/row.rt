// The counters of one label.

ghost use Rattle.std.specs.Prelude.{◌≡◌, ◌+◌, ◌^◌, ◌<◌, length, slice_index};
ghost use Rattle.interval_tables.specs.Rows.{no_samples, with_entry, row_from, joined, merged, CanTake, CanMerge, CanMergeSamples};

use jm_base::Entry;

/// What is counted of the samples of one label in one interval. A row without samples is all zeros.
#[derive(Clone, Copy, PartialEq, Eq, Debug)]
pub struct Row {
    /// How many samples there are.
    pub count: u64,
    /// How many of them failed.
    pub errors: u64,
    /// The sum of their elapsed times, in milliseconds.
    pub total: u64,
    /// The sum of their bytes.
    pub bytes: u64,
    /// The least elapsed time, in milliseconds, and 0 where there is no sample.
    pub least: u64,
    /// The greatest elapsed time, in milliseconds, and 0 where there is no sample.
    pub greatest: u64,
}

/// A row without samples.
pub const NO_SAMPLES: Row = Row {
    count: 0,
    errors: 0,
    total: 0,
    bytes: 0,
    least: 0,
    greatest: 0,
};

impl Row {
    // the row with one more sample
    pub(crate) fn with(&self, entry: &Entry) -> Row
        requires { CanTake self.now entry.now }
        ensures { result ≡ with_entry self.now entry.now }
    {
        let elapsed = u64::from(entry.elapsed);
        Row {
            count: self.count + 1,
            errors: self.errors + u64::from(!entry.ok),
            total: self.total + elapsed,
            bytes: self.bytes + u64::from(entry.bytes),
            least: if self.count == 0 {
                elapsed
            } else {
                self.least.min(elapsed)
            },
            greatest: if self.count == 0 {
                elapsed
            } else {
                self.greatest.max(elapsed)
            },
        }
    }

    // the row of six cells: count, errors, total, bytes, least, greatest
    pub(crate) fn of_cells(cells: &[u64]) -> Row
        requires { length cells.now ≡ 6 }
        ensures { result ≡ row_from (λ c. slice_index cells.now c) }
    {
        if cells[0] == 0 {
            return NO_SAMPLES;
        }
        Row {
            count: cells[0],
            errors: cells[1],
            total: cells[2],
            bytes: cells[3],
            least: cells[4],
            greatest: cells[5],
        }
    }

    // the row with all samples of another, where both have some
    fn joined(&self, other: &Row) -> Row
        requires { CanMerge self.now other.now }
        ensures { result ≡ joined self.now other.now }
    {
        Row {
            count: self.count + other.count,
            errors: self.errors + other.errors,
            total: self.total + other.total,
            bytes: self.bytes + other.bytes,
            least: self.least.min(other.least),
            greatest: self.greatest.max(other.greatest),
        }
    }

    // the row with all samples of another
    pub(crate) fn merged(&self, other: &Row) -> Row
        requires { CanMergeSamples self.now other.now }
        ensures { result ≡ merged self.now other.now }
    {
        if other.count == 0 {
            *self
        } else if self.count == 0 {
            *other
        } else {
            self.joined(other)
        }
    }
}
