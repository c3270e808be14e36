// The report of an interval.

ghost use Rattle.std.specs.Prelude.{◌≡◌, ◌++◌, [], ◌∷◌, ◌<◌, List, IfOk, length, slice_index, slice_set};
ghost use Rattle.jm_base.specs.declared.types.Entry.{Entry};
ghost use Rattle.interval_tables.specs.declared.row.Row.{Row};
ghost use Rattle.jm_base.specs.SumTotals.{total};
ghost use Rattle.interval_tables.specs.Rows.{failed, sum_of, row_from, rows_with, rows_folded, merged_rows, AllLabels, IsInBounds, CanMergeRows};

use crate::row::{NO_SAMPLES, Row};
use jm_base::{Entry, M};
use std::alloc::Global;
use std::marker::Model;

/// A row for each label, which contracts see as the list of the rows.
#[derive(Drop)]
pub struct Rows {
    values: Vec<Row>,
}

impl Model for Rows {
    ghost use Rattle.std.specs.Prelude.{List};
    ghost use Rattle.interval_tables.specs.declared.row.Row.{Row};

    ghost Value = { List Row };

    ghost view = { λ r. r.values.items };
}

impl Rows {
    /// The rows of a `Vec`. It takes no memory.
    pub fn of(values: Vec<Row>) -> Rows
        ensures { result ≡ values.items }
    {
        Rows { values }
    }

    /// The rows to read, label by label.
    pub fn as_slice(&self) -> &[Row]
        ensures { result.now ≡ self.now }
    {
        &self.values
    }

    /// The rows themselves. It takes no memory.
    pub fn into_vec(self) -> Vec<Row>
        ensures { result.items ≡ self }
    {
        self.values
    }

    // another row at a label
    fn put(&mut self, label: usize, row: Row)
        requires { label < length self.old }
        ensures { self.new ≡ slice_set self.old label row }
    {
        self.values[label] = row;
    }

    // every row without samples
    fn clear(&mut self)
        ensures { self.new ≡ sum_of (length self.old) [] }
    {
        clear_all(self.values.as_mut_slice());
    }

    // the rows of two reports as one
    fn merge(&mut self, other: &Rows)
        requires rows { length other.now ≡ length self.old }
        requires room { CanMergeRows self.old other.now }
        ensures { self.new ≡ merged_rows self.old other.now }
    {
        merge_all(self.values.as_mut_slice(), other.as_slice());
    }
}

// each row with the row of the same label
fn merge_all(rows: &mut [Row], others: &[Row])
    requires rows { length others.now ≡ length rows.old }
    requires room { CanMergeRows rows.old others.now }
    ensures { rows.new ≡ merged_rows rows.old others.now }
{
    for label in 0..others.len() {
        let row = rows[label].merged(&others[label]);
        rows[label] = row;
    }
}

// each row without samples
fn clear_all(rows: &mut [Row])
    ensures { rows.new ≡ sum_of (length rows.old) [] }
{
    for label in 0..rows.len() {
        rows[label] = NO_SAMPLES;
    }
}

/// What was counted in one interval.
#[derive(Drop)]
pub struct Report {
    /// The number of the interval.
    pub interval: u64,
    /// A row for each label, in the order of the labels.
    pub rows: Rows,
}

impl Report {
    /// The report of interval 0 without samples, with a row for each of `labels` labels.
    pub fn vacant(alloc: Global, labels: u16) -> M<Report>
        ensures interval { IfOk result (λ r. r.interval ≡ 0) }
        ensures rows { IfOk result (λ r. r.rows ≡ sum_of labels []) }
    {
        let mut values = Vec::with_capacity(alloc, usize::from(labels))?;
        for _label in 0..labels {
            values.push(NO_SAMPLES)?;
        }
        Ok(Report {
            interval: 0,
            rows: Rows::of(values),
        })
    }

    /// Counts one more sample. It takes no memory.
    pub fn add(&mut self, entry: Entry)
        requires label { entry.label < length self.old.rows }
        requires bounds { IsInBounds self.old.rows }
        requires room { IsInBounds (rows_with self.old.rows entry) }
        ensures interval { self.new.interval ≡ self.old.interval }
        ensures rows { self.new.rows ≡ rows_with self.old.rows entry }
        ensures sum { (es : List Entry) → self.old.rows ≡ sum_of (length self.old.rows) es
            → self.new.rows ≡ sum_of (length self.old.rows) (es ++ entry ∷ []) }
    {
        let label = usize::from(entry.label);
        let row = self.rows.as_slice()[label].with(&entry);
        self.rows.put(label, row);
    }

    /// Forgets all samples: every row is one without samples. The interval stays. It takes no memory.
    pub fn clear(&mut self)
        ensures interval { self.new.interval ≡ self.old.interval }
        ensures rows { self.new.rows ≡ sum_of (length self.old.rows) [] }
    {
        self.rows.clear();
    }

    /// Counts more samples of a label, by the six cells of a part of them: count, errors, total, bytes, least, greatest.
    /// Where the count is 0 nothing changes, whatever the other cells are. Otherwise the first four are added, the lesser
    /// of the leasts stays and the greater of the greatests; a row without samples takes the cells as they are. It takes
    /// no memory.
    pub fn fold(&mut self, label: u16, cells: &[u64])
        requires label { label < length self.old.rows }
        requires six { length cells.now ≡ 6 }
        requires room { IsInBounds (rows_folded self.old.rows label (λ c. slice_index cells.now c)) }
        ensures interval { self.new.interval ≡ self.old.interval }
        ensures rows { self.new.rows ≡ rows_folded self.old.rows label (λ c. slice_index cells.now c) }
    {
        let index = usize::from(label);
        let more = Row::of_cells(cells);
        let row = self.rows.as_slice()[index].merged(&more);
        self.rows.put(index, row);
    }

    /// Counts all samples of another report besides. It takes no memory.
    pub fn merge(&mut self, other: &Report)
        requires rows { length other.now.rows ≡ length self.old.rows }
        requires bounds { IsInBounds self.old.rows }
        requires other_bounds { IsInBounds other.now.rows }
        requires room { IsInBounds (merged_rows self.old.rows other.now.rows) }
        ensures interval { self.new.interval ≡ self.old.interval }
        ensures rows { self.new.rows ≡ merged_rows self.old.rows other.now.rows }
        ensures sum { (es fs : List Entry) → self.old.rows ≡ sum_of (length self.old.rows) es
            → other.now.rows ≡ sum_of (length self.old.rows) fs
            → self.new.rows ≡ sum_of (length self.old.rows) (es ++ fs) }
    {
        self.rows.merge(&other.rows);
    }

    /// How many samples failed, over all labels. It takes no memory.
    pub fn errors(&self) -> u64
        requires { IsInBounds self.now.rows }
        ensures rows { result ≡ total (λ (r : Row). r.errors) self.now.rows }
        ensures sum { (es : List Entry) → self.now.rows ≡ sum_of (length self.now.rows) es
            → AllLabels (length self.now.rows) es → result ≡ total failed es }
    {
        let mut errors = 0;
        for row in self.rows.as_slice() {
            errors += row.errors;
        }
        errors
    }

    /// How many samples there are, over all labels. It takes no memory.
    pub fn count(&self) -> u64
        requires { IsInBounds self.now.rows }
        ensures rows { result ≡ total (λ (r : Row). r.count) self.now.rows }
        ensures sum { (es : List Entry) → self.now.rows ≡ sum_of (length self.now.rows) es
            → AllLabels (length self.now.rows) es → result ≡ length es }
    {
        let mut count = 0;
        for row in self.rows.as_slice() {
            count += row.count;
        }
        count
    }
}
