// The reporter's part of a core: how far it is with an interval, the cells that it took, the reports that it closed.

ghost use Rattle.std.specs.Prelude.{◌≡◌, ◌+◌, ◌*◌, ◌<◌, ◌≤◌, ◌==◌, ◌++◌, [], ◌∷◌, if◌then◌else◌, length, IfOk, OnOk, OnErr, slice_index};
ghost use Rattle.interval_tables.specs.Rows.{no_samples, row_from};
ghost use Rattle.phaser_core.specs.Cells.{is_odd, end_at, table_cells, word_count, cell_at, folded_to, row_folded, report_from, report_of};
ghost use Rattle.phaser_core.specs.Plain.{closing_step, closing_if, step_answer, words_after, gathered_parts, look_result, look_parts, take_result, take_words, take_parts, with_closing, is_idle, FitsParts};

use crate::applied::Applied;
use crate::layout::{STRIPES, cell_count, cell_word, end_word, first_cell, vacant};
use crate::parts::step_reporter;
use crate::view::{Event, ReporterStage};
use interval_tables::{NO_SAMPLES, Report, Row, Rows};
use jm_base::M;
use std::alloc::Global;
use std::marker::Model;

/// What the reporter keeps of its work: the interval that is active or being closed, how far closing it is, the cells taken of
/// it, and the closed reports.
#[derive(Drop)]
pub struct Reporter {
    pub(crate) interval: u64,
    pub(crate) closing: ReporterStage,
    pub(crate) taken: Vec<u64>,
    pub(crate) closed: Vec<Report>,
}

// what the cells of a row begin with
const VACANT_ROW: Row = Row {
    count: 0,
    errors: 0,
    total: 0,
    bytes: 0,
    least: u64::MAX,
    greatest: 0,
};

impl Model for Reporter {
    ghost use Rattle.phaser_core.specs.Plain.{Parts};

    ghost Value = { Parts };

    ghost view = { λ r. record { interval = r.interval; closing = r.closing; taken = r.taken.items; closed = r.closed.items } };
}

// a row with six more cells, folded as steps fold them
fn fold_row(row: &Row, cells: &[u64], first: usize) -> Row
    requires { first + 6 ≤ length cells.now }
    ensures { result ≡ row_folded row.now (λ c. slice_index cells.now (first + c)) }
{
    Row {
        count: row.count.wrapping_add(cells[first]),
        errors: row.errors.wrapping_add(cells[first + 1]),
        total: row.total.wrapping_add(cells[first + 2]),
        bytes: row.bytes.wrapping_add(cells[first + 3]),
        least: row.least.min(cells[first + 4]),
        greatest: row.greatest.max(cells[first + 5]),
    }
}

// a row, all zeros where it has no samples
fn plain_row(row: Row) -> Row
    ensures { result ≡ (if row.count == 0 then no_samples else row) }
{
    if row.count == 0 { NO_SAMPLES } else { row }
}

// the row of a label, from the cells of all stripes
fn row(labels: u16, label: u16, cells: &[u64]) -> Row
    requires label { label < labels }
    requires wide { length cells.now ≡ table_cells labels }
    ensures { result ≡ row_from (folded_to labels (λ j. slice_index cells.now j) 4 label) }
{
    let mut row = VACANT_ROW;
    for stripe in 0..STRIPES {
        let first = first_cell(labels, stripe, label) as usize;
        row = fold_row(&row, cells, first);
    }
    plain_row(row)
}

// the report of an interval's cells
pub(crate) fn report(alloc: Global, labels: u16, interval: u64, cells: &[u64]) -> M<Report>
    requires { length cells.now ≡ table_cells labels }
    ensures { IfOk result (λ r. r ≡ report_of labels interval cells.now) }
{
    let mut rows = Vec::with_capacity(alloc, usize::from(labels))?;
    for label in 0..labels {
        rows.push(row(labels, label, cells))?;
    }
    Ok(Report {
        interval,
        rows: Rows::of(rows),
    })
}

// the report of the cells of an interval's table
fn open_report(alloc: Global, labels: u16, interval: u64, words: &[u64]) -> M<Report>
    requires labels { labels ≤ 256 }
    requires wide { length words.now ≡ word_count labels }
    ensures { IfOk result (λ r. r ≡ report_from labels interval (λ j. slice_index words.now (cell_at labels interval j))) }
{
    let first = cell_word(labels, interval, 0) as usize;
    let rest = &words[first..];
    let cells = &rest[..cell_count(labels) as usize];
    let last = report(alloc, labels, interval, cells)?;
    Ok(last)
}

impl Reporter {
    // a reporter that has closed nothing
    pub(crate) fn new(alloc: Global) -> Reporter
        ensures { result ≡ record { interval = 0; closing = ReporterStage.Idle; taken = []; closed = [] } }
    {
        Reporter {
            interval: 0,
            closing: ReporterStage::Idle,
            taken: Vec::new(alloc),
            closed: Vec::new(alloc),
        }
    }

    // the closed reports
    pub(crate) fn closed(&self) -> &[Report]
        ensures { result.now ≡ self.now.closed }
    {
        &self.closed
    }

    // the closed reports, with that of the interval whose cells stand in the words
    pub(crate) fn finish(self, alloc: Global, labels: u16, words: &[u64]) -> M<Vec<Report>>
        requires labels { labels ≤ 256 }
        requires wide { length words.now ≡ word_count labels }
        ensures { IfOk result (λ reports. reports.items ≡ self.closed ++ report_from labels self.interval (λ j. slice_index words.now (cell_at labels self.interval j)) ∷ []) }
    {
        let Reporter {
            interval,
            closing: _,
            taken: _,
            mut closed,
        } = self;
        let last = open_report(alloc, labels, interval, words)?;
        closed.push(last)?;
        Ok(closed)
    }

    // whether no interval is being closed
    pub(crate) fn is_idle(&self) -> bool
        ensures { result ≡ is_idle self.now.closing }
    {
        match self.closing {
            ReporterStage::Idle => true,
            _ => false,
        }
    }

    // a step of the reporter on a word of its own
    pub(crate) fn step(&mut self, words: &mut [u64], event: &Event) -> Applied
        requires wide { 5 ≤ length words.old }
        requires room { self.old.interval ≤ 16777216 }
        ensures answer { result ≡ step_answer (closing_step self.old.interval event.now self.old.closing) words.old }
        ensures words { words.new ≡ words_after (closing_step self.old.interval event.now self.old.closing) words.old }
        ensures after { self.new ≡ with_closing self.old (closing_if (closing_step self.old.interval event.now self.old.closing) event.now words.old self.old.closing) }
    {
        step_reporter(words, self.interval, &mut self.closing, event)
    }

    // once all cells are taken the report is closed
    fn gather(&mut self, alloc: Global, labels: u16) -> M<()>
        requires most { length self.old.taken ≤ 6144 }
        requires room { self.old.interval ≤ 16777216 }
        ensures ok { OnOk result (self.new ≡ gathered_parts labels (length self.old.taken) self.old) }
        ensures err { OnErr result (self.new ≡ self.old) }
    {
        let taken = self.taken.len() as u32;
        if taken == cell_count(labels) {
            let closed = report(alloc, labels, self.interval, &self.taken)?;
            self.closed.push(closed)?;
            self.taken.clear();
            self.interval += 1;
            self.closing = ReporterStage::Idle;
        } else {
            self.closing = ReporterStage::Harvest { taken };
        }
        Ok(())
    }

    // a look at the old phase's end word
    pub(crate) fn look(&mut self, alloc: Global, labels: u16, words: &[u64]) -> M<Applied>
        requires labels { labels ≤ 256 }
        requires wide { length words.now ≡ word_count labels }
        requires fits { FitsParts labels self.old }
        ensures ok { IfOk result (λ a. a ≡ look_result self.old.closing (slice_index words.now (end_at (is_odd self.old.interval)))) }
        ensures after { OnOk result (self.new ≡ look_parts self.old.closing (slice_index words.now (end_at (is_odd self.old.interval))) labels self.old) }
        ensures err { OnErr result (self.new ≡ self.old) }
    {
        let ReporterStage::Waiting { want } = self.closing else {
            return Ok(Applied::NotEnabled);
        };
        let seen = words[end_word(self.interval % 2 == 1) as usize];
        if seen != want {
            return Ok(Applied::NotYet { seen, want });
        }
        self.gather(alloc, labels)?;
        Ok(Applied::Settled)
    }

    // the next cell of the old table
    pub(crate) fn take(&mut self, alloc: Global, labels: u16, words: &mut [u64]) -> M<Applied>
        requires labels { labels ≤ 256 }
        requires wide { length words.old ≡ word_count labels }
        requires fits { FitsParts labels self.old }
        ensures ok { IfOk result (λ a. a ≡ take_result self.old.closing labels words.old self.old) }
        ensures words { OnOk result (words.new ≡ take_words self.old.closing labels words.old self.old) }
        ensures after { OnOk result (self.new ≡ take_parts self.old.closing labels words.old self.old) }
        ensures same { OnErr result (words.new ≡ words.old) }
        ensures err { OnErr result (self.new ≡ self.old) }
    {
        let ReporterStage::Harvest { taken } = self.closing else {
            return Ok(Applied::NotEnabled);
        };
        let word = cell_word(labels, self.interval, taken) as usize;
        let found = words[word];
        self.taken.push(found)?;
        if let Err(none) = self.gather(alloc, labels) {
            let _last = self.taken.pop();
            return Err(none);
        }
        words[word] = vacant(taken);
        Ok(Applied::Old(found))
    }
}
