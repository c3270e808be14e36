//! The calls of a recorder.
ghost use Rattle.std.specs.Prelude.{◌≡◌, ◌+◌, ◌<◌, ◌≤◌, ◌↔◌, not, ◌∷◌, ◌++◌, [], length, false, true, IfOk};
ghost use Rattle.jm_base.specs.SumTotals.{one_if};
ghost use Rattle.interval_tables.specs.Rows.{IsInBounds};
ghost use Rattle.phaser_core.specs.Views.{IsSized, at_stage, ready_reading, writer_zero, further, AllJoined};
ghost use Rattle.phaser_core.specs.Shares.{AllUpTo, Partition, SumsOfLists};
ghost use Rattle.phaser_core.specs.CoreMoves.{splitting, taking_in, marked, or, reporter_raised};
ghost use Rattle.phaser_core.specs.declared.view.Stage.TheVariants.{Out};
ghost use Rattle.phaser_core.specs.declared.view.ReporterStage.TheVariants.{Idle};
ghost use Rattle.phaser_core.specs.declared.view.View.TheVariants.{Writer};
ghost use Rattle.phaser_words.specs.RecorderKinds.{lists_of, StopWasRaised};
ghost use Rattle.phaser_words.specs.WordSeats.{writing, reading, numbers, IsWriterOf, IsReporterOf};
ghost use Rattle.recorder_core.specs.Stands.{Same, closed_as, open_count};
ghost use Rattle.recorder_core.specs.RecorderSeats.{writes, reports, closes, is_settled, numbers_of, IsWriter, IsReporter, IsClosing, IsPoll, books_of, all_reports_of, EndsWith};

use crate::places::{Books, Closing, Recorder, ReporterSeat, WriterSeat};
use crate::rows::{read_report, take_report};
use interval_tables::Report;
use jm_base::{Entry, M};
use phaser_core::Applied;
use phaser_words::{ReporterWordSeat, Steps, Words, WriterWordSeat};
use std::alloc::Global;
use std::sync::ledger::Ledger;

/// What a poll gave.
#[derive(Clone, Copy, PartialEq, Eq, Debug)]
pub enum Poll {
    /// Nobody records in the interval any more: it can be harvested.
    Settled,
    /// Writers that entered before the interval was closed are still inside: `seen` of `want` have left, as the end word
    /// counts them.
    NotYet { seen: u64, want: u64 },
}

impl Recorder {
    /// A recorder of `labels` labels, for `writers` writers that record `budget` entries each, with the seats of its
    /// reporter and of writer 0. No other call takes memory.
    pub fn new(
        alloc: Global,
        labels: u16,
        writers: u16,
        budget: u32,
    ) -> M<(Recorder, ReporterSeat, WriterSeat)>
        requires { IsSized (record { labels = labels; writers = writers; budget = budget }) }
        ensures seats { IfOk result (λ r. IsReporter r.0 r.1 × IsWriter r.0 r.2) }
        ensures numbers { IfOk result (λ r. numbers_of r.0 ≡ record { labels = labels; writers = writers; budget = budget }) }
        ensures reporter { IfOk result (λ r. reports r.1 ≡ ready_reading labels) }
        ensures writer { IfOk result (λ r. Writer (writes r.2) ≡ writer_zero) }
    {
        let (words, reporter, writer) = Words::new(alloc, labels, writers, budget)?;
        Ok((
            Recorder { words },
            ReporterSeat {
                words: reporter,
                joined: 0,
                made: 0,
            },
            WriterSeat { words: writer },
        ))
    }

    /// Makes one more writer, for another thread. Its number is the number of writers made before.
    pub fn split_writer(&self, first: &mut WriterSeat) -> WriterSeat
        requires seat { IsWriter self.now first.old }
        requires first { 0 < (writes first.old).made }
        requires room { (writes first.old).made < (numbers_of self.now).writers }
        ensures seats { IsWriter self.now first.new × IsWriter self.now result }
        ensures first { Writer (writes first.new) ≡ splitting (Writer (writes first.old)) }
        ensures made { Writer (writes result) ≡ further (writes first.old).made }
    {
        let words = self.words.split(&mut first.words);
        WriterSeat { words }
    }

    /// Records an entry, and gives the interval in which it counts. It takes eight atomic steps for a sample that
    /// succeeded and nine for one that failed, and waits for nobody.
    pub fn record<L: Ledger>(
        &self,
        seat: &mut WriterSeat,
        entry: Entry,
        steps: &mut Steps<L>,
    ) -> u64
        requires seat { IsWriter self.now seat.old }
        requires room { length (writes seat.old).list < (numbers_of self.now).budget }
        requires label { entry.label < (numbers_of self.now).labels }
        ensures seat { IsWriter self.now seat.new }
        ensures list { writes seat.new ≡ at_stage (writes seat.old) Out ((writes seat.old).list ++ (result, entry) ∷ []) }
        ensures late { AllUpTo result (writes seat.old).list }
        ensures cost { steps.new ≡ steps.old + (8 + one_if (not entry.ok)) }
    {
        record_at(&self.words, &mut seat.words, entry, steps)
    }

    /// Whether the stop word is raised. A seat that raised it or saw it before sees it for good.
    pub fn stop_seen(&self, seat: &mut WriterSeat) -> bool
        requires { IsWriter self.now seat.old }
        ensures seat { IsWriter self.now seat.new }
        ensures raised { (writes seat.old).raised ≡ true → result ≡ true }
        ensures saw { (writes seat.old).saw ≡ true → result ≡ true }
        ensures mark { writes seat.new ≡ marked (writes seat.old) (writes seat.old).raised (or (writes seat.old).saw result) }
    {
        self.words.look_stop(&mut seat.words) == 1
    }

    /// Raises the stop word.
    pub fn raise_stop(&self, seat: &mut WriterSeat)
        requires { IsWriter self.now seat.old }
        ensures seat { IsWriter self.now seat.new }
        ensures raised { writes seat.new ≡ marked (writes seat.old) true (writes seat.old).saw }
    {
        self.words.raise_stop(&mut seat.words);
    }

    /// Raises the stop word, as the reporter.
    pub fn raise_stop_as_reporter(&self, seat: &mut ReporterSeat)
        requires { IsReporter self.now seat.old }
        ensures seat { IsReporter self.now seat.new }
        ensures raised { reports seat.new ≡ reporter_raised (reports seat.old) }
    {
        self.words.reporter_stop(&mut seat.words);
    }

    /// Begins to close the interval: samples enter the next one from now on.
    pub fn begin(&self, seat: ReporterSeat) -> Closing
        requires seat { IsReporter self.now seat }
        requires few { (reports seat).interval < 16777216 }
        ensures seat { IsClosing self.now result }
        ensures same { Same (reports seat) (closes result) }
        ensures waiting { is_settled result ≡ false }
    {
        let ReporterSeat {
            mut words,
            joined,
            made,
        } = seat;
        self.words.swap_active(&mut words);
        self.words.clear_end(&mut words);
        self.words.flip(&mut words);
        Closing {
            words,
            settled: false,
            joined,
            made,
        }
    }

    /// Looks once whether the writers that entered before the interval was closed have left.
    pub fn poll(&self, closing: &mut Closing) -> Poll
        requires seat { IsClosing self.now closing.old }
        requires waiting { is_settled closing.old ≡ false }
        ensures seat { IsClosing self.now closing.new }
        ensures same { Same (closes closing.old) (closes closing.new) }
        ensures told { IsPoll (closes closing.old) result (closes closing.new) (is_settled closing.new) }
    {
        match self.words.look(&mut closing.words) {
            Applied::NotYet { seen, want } => Poll::NotYet { seen, want },
            Applied::Settled => {
                closing.settled = true;
                Poll::Settled
            }
            Applied::Old(_) | Applied::NotEnabled => unreachable!(),
        }
    }

    /// Takes all cells of the interval and folds their stripes into a report, with which it is closed. What the report held
    /// before is lost. It is in bounds.
    #[tactic(auto, using(crate::proofs::Ending::harvested_bounds))]
    pub fn harvest(&self, closing: Closing, into: &mut Report) -> ReporterSeat
        requires seat { IsClosing self.now closing }
        requires settled { is_settled closing ≡ true }
        requires rows { length into.old.rows ≡ (numbers_of self.now).labels }
        ensures seat { IsReporter self.now result }
        ensures closed { reports result ≡ closed_as (closes closing) into.new }
        ensures interval { into.new.interval ≡ (closes closing).interval }
        ensures rows { length into.new.rows ≡ (numbers_of self.now).labels }
        ensures sums { SumsOfLists (numbers_of self.now) (reports result) }
        ensures bounds { IsInBounds into.new.rows }
    {
        let Closing {
            mut words,
            settled: _,
            joined,
            made,
        } = closing;
        if self.words.labels() == 0 {
            into.interval = words.interval().saturating_sub(1);
        } else {
            into.interval = words.interval();
            take_report(&self.words, &mut words, into);
        }
        self.words.recall(&mut words);
        ReporterSeat {
            words,
            joined,
            made,
        }
    }

    /// The reporter takes in a writer, with its list and its marks.
    pub fn join_writer(&self, into: &mut ReporterSeat, gone: WriterSeat)
        requires { IsReporter self.now into.old × IsWriter self.now gone }
        ensures seat { IsReporter self.now into.new }
        ensures taken { reports into.new ≡ taking_in (reports into.old) (writes gone) }
    {
        let WriterSeat { words } = gone;
        let made = words.made();
        self.words.join(&mut into.words, words);
        self.words.recall(&mut into.words);
        into.joined += 1;
        into.made += made;
    }

    /// The books, once every writer was joined, and the report of the interval that was open, which is the last of the
    /// reports and in bounds. Each entry that a writer recorded counts in exactly one of the reports. Where a writer saw stop
    /// raised, the reporter or a writer raised it.
    pub fn finish(self, seat: ReporterSeat, into: &mut Report) -> Books
        requires seat { IsReporter self seat }
        requires joined { AllJoined (reports seat) }
        requires rows { length into.old.rows ≡ (numbers_of self).labels }
        ensures lists { books_of result ≡ reports seat }
        ensures reports { all_reports_of result ≡ (reports seat).closed ++ into.new ∷ [] }
        ensures parted { Partition (numbers_of self).labels (lists_of (books_of result).joined) (all_reports_of result) }
        ensures intervals { result.intervals ≡ (reports seat).interval + 1 }
        ensures count { result.intervals ≡ length (all_reports_of result) }
        ensures stop { StopWasRaised (reports seat) }
        ensures writers { result.writers ≡ length (reports seat).joined }
        ensures interval { into.new.interval ≡ (reports seat).interval }
        ensures rows { length into.new.rows ≡ (numbers_of self).labels }
        ensures bounds { IsInBounds into.new.rows }
    {
        let ReporterSeat {
            words: mut seat,
            joined,
            made: _,
        } = seat;
        self.read_into(&mut seat, into);
        let intervals = seat.interval() + 1;
        let Recorder { words } = self;
        Books {
            intervals,
            writers: joined,
            words,
            seat,
        }
    }

    // Reads all cells of the open interval into the report, once every writer was joined.
    fn read_into(&self, words: &mut ReporterWordSeat, into: &mut Report)
        requires seat { IsReporterOf self.now.words words.old }
        requires idle { (reading words.old).closing ≡ Idle }
        requires joined { AllJoined (reading words.old) }
        requires rows { length into.old.rows ≡ (numbers_of self.now).labels }
        ensures seat { IsReporterOf self.now.words words.new }
        ensures same { reading words.new ≡ reading words.old }
        ensures ends { EndsWith (numbers_of self.now) (reading words.old) into.new }
        ensures stop { StopWasRaised (reading words.old) }
    {
        self.words.recall(words);
        read_report(&self.words, words, into);
        into.interval = words.interval();
    }
}

// The steps of an entry: enter, load the interval, add each part, lower the least, raise the greatest, leave.
fn record_at<L: Ledger>(
    words: &Words,
    seat: &mut WriterWordSeat,
    entry: Entry,
    steps: &mut Steps<L>,
) -> u64
    requires seat { IsWriterOf words.now seat.old }
    requires out { (writing seat.old).stage ≡ Out }
    requires room { length (writing seat.old).list < (numbers words.now).budget }
    requires label { entry.label < (numbers words.now).labels }
    ensures seat { IsWriterOf words.now seat.new }
    ensures list { writing seat.new ≡ at_stage (writing seat.old) Out ((writing seat.old).list ++ (result, entry) ∷ []) }
    ensures late { AllUpTo result (writing seat.old).list }
    ensures cost { steps.new ≡ steps.old + (8 + one_if (not entry.ok)) }
{
    words.enter(seat, steps);
    let interval = words.load(seat, entry, steps);
    let sums = if entry.ok { 3u8 } else { 4 };
    for done in 0..sums {
        let _done = done;
        words.add(seat, steps);
    }
    words.lower(seat, steps);
    words.raise(seat, steps);
    words.exit(seat, steps);
    interval
}

impl ReporterSeat {
    /// The number of the interval that samples enter.
    pub fn interval(&self) -> u64
        ensures { result ≡ (reports self.now).interval }
    {
        self.words.interval()
    }

    /// How many writers are not joined yet: once writer 0 is, those made less those joined, and before it is 1.
    pub fn open_writers(&self) -> u16
        ensures count { result ≡ open_count (reports self.now) }
        ensures none { (result ≡ 0) ↔ AllJoined (reports self.now) }
    {
        if self.made == 0 {
            1
        } else {
            self.made.saturating_sub(self.joined)
        }
    }
}

impl Closing {
    /// Whether a poll settled.
    pub fn is_settled(&self) -> bool
        ensures { result ≡ is_settled self.now }
    {
        self.settled
    }
}
