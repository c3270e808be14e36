// The end of a run: the books, and the last report.

ghost use Rattle.std.specs.Prelude.{◌≡◌, ◌<◌, ◌≤◌, ◌*◌, List, ℕ, Option, length, IfOk, IfErr, OnOk, OnErr};
ghost use Rattle.std.specs.Io.KnownBytes.{Appends};
ghost use Rattle.element_tree.specs.Names.{labels_of};
ghost use Rattle.interval_tables.specs.Rows.{sum_of, IsInBounds};
ghost use Rattle.output_lines.specs.Reports.{report_text};
ghost use Rattle.phaser_core.specs.Shares.{Partition};
ghost use Rattle.phaser_core.specs.Views.{AllJoined};
ghost use Rattle.phaser_words.specs.RecorderKinds.{lists_of, StopWasRaised};
ghost use Rattle.recorder_core.specs.RecorderSeats.{reports, numbers_of, books_of, all_reports_of, IsReporter};
ghost use Rattle.reporter_loop.specs.Counted.{CountsAll};
ghost use Rattle.reporter_loop.specs.Failing.{IsCause};
ghost use Rattle.reporter_loop.specs.Reported.{Reported};
ghost use Rattle.reporter_loop.specs.ReportsWritten.{texts_of, WritesPrefix};
ghost use Rattle.phaser_core.specs.Keeps.{AllKeep, all_entries};
ghost use Rattle.thread_machine.specs.Paired.{pairs_of};

use crate::ask::RunAsk;
use crate::books::RunBooks;
use edge_io::Sink;
use jm_base::Items;
use recorder_core::{Recorder, ReporterSeat};
use reporter_loop::{Counts, RunError, write_report};
use std::alloc::Global;
use thread_machine::TraceItem;

/// Ends the recorder, counts the last report in the total and writes it, where every worker was taken in.
pub fn finish_run<K: Sink>(
    alloc: Global,
    recorder: Recorder,
    ask: &RunAsk<'_>,
    seat: ReporterSeat,
    traces: Vec<Items<TraceItem>>,
    counts: Counts,
    sink: &mut K,
) -> Result<RunBooks, RunError>
    requires seat { IsReporter recorder seat }
    requires joined { AllJoined (reports seat) }
    requires lists { lists_of (reports seat).joined ≡ pairs_of traces.items }
    requires keep { AllKeep (numbers_of recorder).labels (numbers_of recorder).budget (pairs_of traces.items) }
    requires labels { (numbers_of recorder).labels ≡ length (labels_of ask.now.plan.now.elements) }
    requires budget { (numbers_of recorder).budget ≡ ask.now.budget }
    requires few { length traces.items * ask.now.budget ≤ 4194304 }
    requires rows { length counts.last.rows ≡ (numbers_of recorder).labels }
    requires counted { CountsAll (numbers_of recorder).labels (reports seat) counts.total }
    ensures traces { IfOk result (λ b. b.traces ≡ traces.items) }
    ensures lists { IfOk result (λ b. books_of b.books ≡ reports seat) }
    ensures intervals { IfOk result (λ b. b.books.intervals ≡ length (all_reports_of b.books)) }
    ensures writers { IfOk result (λ b. b.books.writers ≡ length (books_of b.books).joined) }
    ensures stop { OnOk result (StopWasRaised (reports seat)) }
    ensures parted { IfOk result (λ b. Partition (length (labels_of ask.now.plan.now.elements)) (pairs_of b.traces) (all_reports_of b.books)) }
    ensures total { IfOk result (λ b. b.total.rows ≡ sum_of (length (labels_of ask.now.plan.now.elements)) (all_entries (pairs_of b.traces))) }
    ensures bounds { IfOk result (λ b. IsInBounds b.total.rows) }
    ensures written { (limit : ℕ) (old : Option (List ℕ)) → Reported (report_text ask.now.plan.now) limit (reports seat) old (K.written sink.old)
        → IfOk result (λ b. Appends old (K.written sink.new) (texts_of (report_text ask.now.plan.now) (all_reports_of b.books))) }
    ensures prefix { OnErr result ((limit : ℕ) (old : Option (List ℕ)) → Reported (report_text ask.now.plan.now) limit (reports seat) old (K.written sink.old)
        → WritesPrefix (report_text ask.now.plan.now) old (K.written sink.new)) }
    ensures ok { OnOk result (K.faults sink.new ≡ K.faults sink.old) }
    ensures cause { IfErr result (IsCause (K.faults sink.old) (K.faults sink.new)) }
{
    let mut counts = counts;
    let books = recorder.finish(seat, &mut counts.last);
    counts.add_last();
    let Counts { last, total } = counts;
    match write_report(alloc, ask.plan, &last, sink) {
        Ok(()) => Ok(RunBooks {
            traces: Items::of(traces),
            total,
            books,
        }),
        Err(error) => Err(error),
    }
}
