// The run of a plan's threads.

ghost use Rattle.std.specs.Prelude.{◌≡◌, ◌<◌, ◌≤◌, ◌+◌, ◌*◌, ◌-◌, ◌^◌, [], ℕ, false, true, length, vec_capacity, IfOk, IfErr, OnOk, OnErr};
ghost use Rattle.std.specs.Io.KnownBytes.{Appends};
ghost use Rattle.std.specs.List.{range_with_len};
ghost use Rattle.element_tree.specs.Names.{labels_of, locks_of};
ghost use Rattle.element_tree.specs.Tree.{threads_of};
ghost use Rattle.critical_section.specs.SectionSeats.{locks_of as locks_in, seats_of};
ghost use Rattle.interval_tables.specs.Rows.{sum_of, IsInBounds};
ghost use Rattle.output_lines.specs.Reports.{report_text};
ghost use Rattle.phaser_core.specs.Shares.{Partition};
ghost use Rattle.phaser_words.specs.RecorderKinds.{lists_of};
ghost use Rattle.recorder_core.specs.RecorderSeats.{books_of, all_reports_of};
ghost use Rattle.interval_reporter.specs.Judged.{Keeps};
ghost use Rattle.reporter_loop.specs.Failing.{IsCause};
ghost use Rattle.reporter_loop.specs.Reported.{any_over};
ghost use Rattle.reporter_loop.specs.Ticked.{HasTickedWhere, TickedSoFar};
ghost use Rattle.reporter_loop.specs.ReportsWritten.{texts_of, WritesPrefix};
ghost use Rattle.run_engine.specs.Asked.{options_of};
ghost use Rattle.run_engine.specs.Followed.{AllFollow, AreFollowed};
ghost use Rattle.run_engine.specs.Joins.{AllEnd, AllLabelled, numbers_in};
ghost use Rattle.phaser_core.specs.Keeps.{all_entries};
ghost use Rattle.run_engine.specs.Marks.{AllMarked};
ghost use Rattle.thread_machine.specs.Paired.{pairs_of};
ghost use Rattle.run_engine.specs.SectionsRun.{IsFirstSeat, AreNumbered, AllRise, AllLeave};
ghost use Rattle.run_engine.specs.Served.{AreServed};
ghost use Rattle.run_engine.specs.Stops.{StopHasCause};

use crate::ask::RunAsk;
use crate::beside::run_beside;
use crate::books::RunBooks;
use crate::finish::finish_run;
use crate::joins::join_all;
use crate::opens::open_all;
use crate::seats::split_all;
use critical_section::{SectionSeat, Sections};
use edge_io::Sink;
use element_tree::Plan;
use interval_reporter::{Reporter, Verdict};
use interval_tables::Report;
use jm_base::{Items, M, Outside};
use outside_world::{Ticker, World};
use recorder_core::Recorder;
use reporter_loop::{Counts, Ended, Rules, RunError};
use std::alloc::Global;
use std::sync::Wait;
use std::thread::Threads;
use thread_machine::TraceItem;

// The room that a run needs at its end, taken at its start: the report that is open, the report of all samples and the list
// of traces.
#[derive(Drop)]
struct Room {
    counts: Counts,
    traces: Vec<Items<TraceItem>>,
}

impl Room {
    fn new(alloc: Global, labels: u16, threads: u16) -> M<Room>
        ensures last { IfOk result (λ r. length r.counts.last.rows ≡ labels) }
        ensures none { IfOk result (λ r. r.counts.total.rows ≡ sum_of labels []) }
        ensures traces { IfOk result (λ r. (r.traces.items ≡ []) × (threads ≤ vec_capacity r.traces)) }
    {
        let last = Report::vacant(alloc, labels)?;
        let total = Report::vacant(alloc, labels)?;
        let traces = Vec::with_capacity(alloc, usize::from(threads))?;
        Ok(Room {
            counts: Counts { last, total },
            traces,
        })
    }
}

// The locks of a plan, and the first of a seat for each thread and one more, which takes them all in. There is one lock at
// least.
fn open_sections(alloc: Global, plan: &Plan, threads: u16) -> M<(Sections, SectionSeat)>
    requires locks { length (locks_of plan.now.elements) ≤ 256 }
    requires threads { threads ≤ 64 }
    ensures first { IfOk result (λ r. IsFirstSeat r.0 0 r.1) }
    ensures locks { IfOk result (λ r. length (locks_of plan.now.elements) ≤ locks_in r.0) }
    ensures seats { IfOk result (λ r. seats_of r.0 ≡ threads + 1) }
{
    let locks = plan.locks();
    let locks = if locks == 0 { 1 } else { locks };
    Sections::new(alloc, locks, threads + 1)
}

/// Runs all threads of a plan at the same time, each over an outside of the world, in a thread of its own where one can be
/// started. Meanwhile the reporter asks the ticker, at least once in a run. At each true answer it closes an interval, writes
/// its report to `reports` at once and asks the hook of it; where the hook answers `Stop`, it raises stop. A thread that ends
/// the test raises stop too. Each thread looks before each step whether stop is raised, and then ends with `End::Stopped`: its
/// open section is left, and no transaction that is open gives its sample. After 16,777,216 intervals the ticker is asked no
/// more. When all threads have ended, they are joined and the last report is written; the hook is not asked of that one.
///
/// All seats of writers are made before the first thread starts. In each case no thread is left running, and each outside
/// that was opened is closed.
///
/// `RunError::WriteFault` comes only where the sink's count of faults rose. Then, and out of memory, the traces are given up,
/// and a prefix of the reports was written.
pub fn run_threads<
    R: Threads + Wait + Sync,
    W: World,
    T: Ticker,
    F: Fn(&Report, u64) -> Verdict,
    K: Sink,
>(
    rt: &R,
    alloc: Global,
    ask: &RunAsk<'_>,
    world: &mut W,
    ticker: &mut T,
    reporter: &Reporter<F>,
    reports: &mut K,
) -> Result<RunBooks, RunError>
    requires samples { length (threads_of ask.now.plan.now) * ask.now.budget ≤ 4194304 }
    requires opened { W.opened world.old ≡ [] }
    requires kept { Keeps F.Fn reporter.now }

    // The outside of each thread was opened, and each was closed; in an error's case those of the first threads.
    ensures world { OnOk result (AreServed (length (threads_of ask.now.plan.now)) (W.opened world.new) (W.closed world.old) (W.closed world.new)) }
    ensures closed { (n : ℕ) × (n ≤ length (threads_of ask.now.plan.now)) × AreServed n (W.opened world.new) (W.closed world.old) (W.closed world.new) }

    // A trace for each thread, whose last item is its only end, and which follows what the thread's outside was told, where the
    // world tells. Its writer raised stop exactly where it ends with StopTest, and saw stop exactly where it ends with Stopped.
    ensures ends { IfOk result (λ b. (length b.traces ≡ length (threads_of ask.now.plan.now)) × AllEnd b.traces) }
    ensures follows { IfOk result (λ b. W.tells world.old ≡ true → AllFollow ask.now.plan.now (options_of ask.now) (W.told world.new) b.traces) }
    ensures marks { IfOk result (λ b. AllMarked (books_of b.books).joined b.traces) }
    ensures labelled { IfOk result (λ b. AllLabelled (length (labels_of ask.now.plan.now.elements)) b.traces) }

    // Whatever the answer, each outside that was opened was told what some trace of its thread follows, where the world tells: of a
    // thread that was not started, the trace of one that is cut before its first event.
    ensures heard { W.tells world.old ≡ true → AreFollowed ask.now.plan.now (options_of ask.now) (W.opened world.new) (W.told world.new) }

    // Within each trace a section is entered where none is open, and none is open at its end. Of each lock, the places of its
    // sections in all traces are the numbers below how many there are, each once, and they rise within each trace.
    ensures sections { IfOk result (λ b. AllLeave b.traces) }
    ensures places { IfOk result (λ b. AreNumbered (length (locks_of ask.now.plan.now.elements)) b.traces) }
    ensures rising { IfOk result (λ b. AllRise b.traces) }

    // The joined writers are those of the threads, in the threads' order, and each has recorded just the samples of its trace.
    ensures numbers { IfOk result (λ b. numbers_in (books_of b.books).joined ≡ range_with_len 0 (length (threads_of ask.now.plan.now))) }
    ensures books { IfOk result (λ b. lists_of (books_of b.books).joined ≡ pairs_of b.traces) }

    // Each sample of each trace counts in exactly one report, which is that of its interval, and in the total.
    ensures parted { IfOk result (λ b. Partition (length (labels_of ask.now.plan.now.elements)) (pairs_of b.traces) (all_reports_of b.books)) }
    ensures total { IfOk result (λ b. b.total.rows ≡ sum_of (length (labels_of ask.now.plan.now.elements)) (all_entries (pairs_of b.traces))) }
    ensures bounds { IfOk result (λ b. IsInBounds b.total.rows) }

    // The books tell how many reports there are, and how many writers were joined.
    ensures intervals { IfOk result (λ b. b.books.intervals ≡ length (all_reports_of b.books)) }
    ensures writers { IfOk result (λ b. b.books.writers ≡ length (books_of b.books).joined) }

    // The sink holds the text of every report, or a prefix of the text of reports that are numbered from 0.
    ensures written { IfOk result (λ b. Appends (K.written reports.old) (K.written reports.new) (texts_of (report_text ask.now.plan.now) (all_reports_of b.books))) }
    ensures prefix { OnErr result (WritesPrefix (report_text ask.now.plan.now) (K.written reports.old) (K.written reports.new)) }
    ensures ok { OnOk result (K.faults reports.new ≡ K.faults reports.old) }
    ensures cause { IfErr result (IsCause (K.faults reports.old) (K.faults reports.new)) }

    // The ticker was asked, and gave as many true answers as there are reports before the last.
    ensures count { IfOk result (λ b. length (books_of b.books).closed ≡ (books_of b.books).interval) }
    ensures few { IfOk result (λ b. (books_of b.books).interval ≤ 16777216) }
    ensures ticked { IfOk result (λ b. HasTickedWhere (books_of b.books).interval (T.ticks ticker.old) (T.ticks ticker.new)) }
    ensures asked { OnErr result ((n : ℕ) × (n ≤ 16777216) × TickedSoFar n (T.ticks ticker.old) (T.ticks ticker.new)) }

    // The reporter raised stop exactly where some report before the last has more errors than the limit: never at 2^64 - 1.
    ensures raised { IfOk result (λ b. (books_of b.books).raised ≡ any_over ask.now.limit (books_of b.books).closed) }
    ensures unlimited { IfOk result (λ b. ask.now.limit ≡ 2 ^ 64 - 1 → (books_of b.books).raised ≡ false) }

    // A thread was stopped only where another has ended the test, or such a report has more errors than the limit.
    ensures stopped { IfOk result (λ b. StopHasCause ask.now.limit b.traces (books_of b.books).closed) }
{
    let (threads, labels) = (ask.plan.threads(), ask.plan.labels());
    let Room { counts, mut traces } = Room::new(alloc, labels, threads)?;
    let (recorder, seat, writer) = Recorder::new(alloc, labels, threads, ask.budget)?;
    let seats = split_all(alloc, &recorder, writer, threads)?;
    let (sections, mut first) = open_sections(alloc, ask.plan, threads)?;
    let jobs = open_all(
        alloc, &recorder, world, ask, seats, &sections, &mut first, threads,
    )?;
    let ended = Ended::new(threads);
    let rules = Rules {
        plan: ask.plan,
        reporter,
        limit: ask.limit,
        ended: &ended,
    };
    let (jobs, mut seat, outcome, counts) = run_beside(
        rt, alloc, &recorder, &rules, jobs, seat, counts, ticker, reports,
    );
    join_all(
        &recorder,
        ask,
        &mut seat,
        &sections,
        &mut first,
        world,
        jobs,
        &mut traces,
        threads,
    );
    let _book = sections.finish(first);
    match outcome {
        Ok(()) => finish_run(alloc, recorder, ask, seat, traces, counts, reports),
        Err(error) => Err(error),
    }
}
