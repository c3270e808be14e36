// The reporter's loop: it asks the ticker, and closes an interval at each true answer.

ghost use Rattle.std.specs.Prelude.{◌≡◌, ◌<◌, ◌≤◌, ◌+◌, ℕ, Bool, List, [], Option, length, IfErr, OnOk, OnErr, false, nat_lt};
ghost use Rattle.std.specs.Option.{option_map};
ghost use Rattle.std.specs.Io.KnownBytes.{Appends};
ghost use Rattle.element_tree.specs.Names.{labels_of};
ghost use Rattle.interval_tables.specs.Rows.{sum_of, IsInBounds};
ghost use Rattle.output_lines.specs.Reports.{report_text};
ghost use Rattle.jm_base.specs.SumTotals.{one_if};
ghost use Rattle.outside_world.specs.Tickers.{answered};
ghost use Rattle.phaser_core.specs.declared.view.ReporterView.{ReporterView};
ghost use Rattle.recorder_core.specs.RecorderSeats.{reports, numbers_of, IsReporter};
ghost use Rattle.interval_reporter.specs.Judged.{Keeps, errors_of};
ghost use Rattle.reporter_loop.specs.Counted.{CountsAll};
ghost use Rattle.reporter_loop.specs.Failing.{IsCause};
ghost use Rattle.recorder_core.specs.Stands.{closed_as};
ghost use Rattle.reporter_loop.specs.Reported.{Reported, EndsUnjudged, judged, raised_if};
ghost use Rattle.reporter_loop.specs.Ticked.{HasTickedWhere};
ghost use Rattle.reporter_loop.specs.ReportsWritten.{AppendsPrefix, WritesPrefix};

use crate::counts::Counts;
use crate::error::RunError;
use crate::rules::Rules;
use crate::writing::write_report;
use edge_io::Sink;
use interval_reporter::{Verdict, close_interval};
use interval_tables::Report;
use outside_world::Ticker;
use recorder_core::{Recorder, ReporterSeat};
use std::alloc::Global;
use std::sync::Wait;
use std::thread;

/// The most intervals that are closed before the last.
const MOST_INTERVALS: u64 = 16_777_216;

// Asks the hook of a closed report, and raises stop where it says so.
fn judge<F: Fn(&Report, u64) -> Verdict>(
    recorder: &Recorder,
    rules: &Rules<'_, F>,
    seat: ReporterSeat,
    report: &Report,
) -> ReporterSeat
    requires seat { IsReporter recorder.now seat }
    requires bounds { IsInBounds report.now.rows }
    requires kept { Keeps F.Fn rules.now.reporter.now }
    ensures seat { IsReporter recorder.now result }
    ensures raised { reports result ≡ raised_if (nat_lt rules.now.limit (errors_of report.now)) (reports seat) }
    ensures joined { (reports result).joined ≡ (reports seat).joined }
    ensures closed { (reports result).closed ≡ (reports seat).closed }
{
    let mut seat = seat;
    match rules.reporter.judge(report, rules.limit) {
        Verdict::Stop => {
            recorder.raise_stop_as_reporter(&mut seat);
            seat
        }
        Verdict::Go => seat,
    }
}

// Closes the interval, and counts its report in the total.
fn close_counted<R: Wait>(
    rt: &R,
    recorder: &Recorder,
    seat: ReporterSeat,
    counts: &mut Counts,
) -> ReporterSeat
    requires seat { IsReporter recorder.now seat }
    requires few { (reports seat).interval < 16777216 }
    requires rows { length counts.old.last.rows ≡ (numbers_of recorder.now).labels }
    requires counted { CountsAll (numbers_of recorder.now).labels (reports seat) counts.old.total }
    ensures seat { IsReporter recorder.now result }
    ensures closed { reports result ≡ closed_as (reports seat) counts.new.last }
    ensures interval { counts.new.last.interval ≡ (reports seat).interval }
    ensures rows { length counts.new.last.rows ≡ (numbers_of recorder.now).labels }
    ensures bounds { IsInBounds counts.new.last.rows }
    ensures counted { CountsAll (numbers_of recorder.now).labels (reports result) counts.new.total }
{
    let seat = close_interval(rt, recorder, seat, &mut counts.last);
    counts.add_last();
    seat
}

// Closes the interval, counts its report in the total, writes it and asks the hook of it. The seat is handed back whatever became
// of the report.
fn one_interval<R: Wait, K: Sink, F: Fn(&Report, u64) -> Verdict>(
    rt: &R,
    alloc: Global,
    recorder: &Recorder,
    rules: &Rules<'_, F>,
    seat: ReporterSeat,
    counts: &mut Counts,
    sink: &mut K,
) -> (ReporterSeat, Result<(), RunError>)
    requires seat { IsReporter recorder.now seat }
    requires few { (reports seat).interval < 16777216 }
    requires rows { length counts.old.last.rows ≡ (numbers_of recorder.now).labels }
    requires counted { CountsAll (numbers_of recorder.now).labels (reports seat) counts.old.total }
    requires labels { (numbers_of recorder.now).labels ≡ length (labels_of rules.now.plan.now.elements) }
    requires kept { Keeps F.Fn rules.now.reporter.now }
    ensures seat { IsReporter recorder.now result.0 }
    ensures rows { length counts.new.last.rows ≡ (numbers_of recorder.now).labels }
    ensures counted { CountsAll (numbers_of recorder.now).labels (reports result.0) counts.new.total }
    ensures number { counts.new.last.interval ≡ (reports seat).interval }
    ensures bounds { IsInBounds counts.new.last.rows }
    ensures next { (reports result.0).interval ≡ (reports seat).interval + 1 }
    ensures joined { (reports result.0).joined ≡ (reports seat).joined }
    ensures judged { OnOk result.1 (reports result.0 ≡ judged rules.now.limit (reports seat) counts.new.last) }
    ensures unjudged { OnErr result.1 (reports result.0 ≡ closed_as (reports seat) counts.new.last) }
    ensures written { OnOk result.1 (Appends (K.written sink.old) (K.written sink.new) (report_text rules.now.plan.now counts.new.last)) }
    ensures cut { OnErr result.1 (AppendsPrefix (K.written sink.old) (K.written sink.new) (report_text rules.now.plan.now counts.new.last)) }
    ensures ok { OnOk result.1 (K.faults sink.new ≡ K.faults sink.old) }
    ensures cause { IfErr result.1 (IsCause (K.faults sink.old) (K.faults sink.new)) }
{
    let seat = close_counted(rt, recorder, seat, counts);
    match write_report(alloc, rules.plan, &counts.last, sink) {
        Ok(()) => (judge(recorder, rules, seat, &counts.last), Ok(())),
        Err(error) => (seat, Err(error)),
    }
}

// One turn: the ticker is asked, and the interval closed where it says so.
fn one_turn<R: Wait, T: Ticker, K: Sink, F: Fn(&Report, u64) -> Verdict>(
    rt: &R,
    alloc: Global,
    recorder: &Recorder,
    rules: &Rules<'_, F>,
    seat: ReporterSeat,
    counts: &mut Counts,
    ticker: &mut T,
    sink: &mut K,
) -> (ReporterSeat, Result<(), RunError>)
    requires seat { IsReporter recorder.now seat }
    requires few { (reports seat).interval < 16777216 }
    requires rows { length counts.old.last.rows ≡ (numbers_of recorder.now).labels }
    requires counted { CountsAll (numbers_of recorder.now).labels (reports seat) counts.old.total }
    requires labels { (numbers_of recorder.now).labels ≡ length (labels_of rules.now.plan.now.elements) }
    requires kept { Keeps F.Fn rules.now.reporter.now }
    ensures seat { IsReporter recorder.now result.0 }
    ensures rows { length counts.new.last.rows ≡ (numbers_of recorder.now).labels }
    ensures counted { CountsAll (numbers_of recorder.now).labels (reports result.0) counts.new.total }
    ensures few { (reports result.0).interval ≤ 16777216 }
    ensures joined { (reports result.0).joined ≡ (reports seat).joined }
    ensures ticked { (answer : Bool) × ((reports result.0).interval ≡ (reports seat).interval + one_if answer)
        × (T.ticks ticker.new ≡ option_map (answered answer) (T.ticks ticker.old)) }
    ensures reported { OnOk result.1 ((old : Option (List ℕ))
        → Reported (report_text rules.now.plan.now) rules.now.limit (reports seat) old (K.written sink.old)
        → Reported (report_text rules.now.plan.now) rules.now.limit (reports result.0) old (K.written sink.new)) }
    ensures prefix { OnErr result.1 ((old : Option (List ℕ))
        → Reported (report_text rules.now.plan.now) rules.now.limit (reports seat) old (K.written sink.old)
        → WritesPrefix (report_text rules.now.plan.now) old (K.written sink.new)) }
    ensures unjudged { OnErr result.1 ((old : Option (List ℕ))
        → Reported (report_text rules.now.plan.now) rules.now.limit (reports seat) old (K.written sink.old)
        → EndsUnjudged rules.now.limit (reports result.0)) }
    ensures ok { OnOk result.1 (K.faults sink.new ≡ K.faults sink.old) }
    ensures cause { IfErr result.1 (IsCause (K.faults sink.old) (K.faults sink.new)) }
{
    if ticker.tick() {
        one_interval(rt, alloc, recorder, rules, seat, counts, sink)
    } else {
        (seat, Ok(()))
    }
}

/// Closes intervals as the ticker says, until all workers have ended, 16,777,216 intervals are closed, or a report was not
/// written whole. The ticker is asked at least once. Each closed report is counted in the total of `counts`, in which no sample is
/// counted before, and written at once; its room is the last report of `counts`. When a report was written whole the hook is asked
/// of it, and where that answers `Stop`, stop is raised. The seat is handed back in each case.
pub fn report_until<R: Wait, T: Ticker, K: Sink, F: Fn(&Report, u64) -> Verdict>(
    rt: &R,
    alloc: Global,
    recorder: &Recorder,
    rules: &Rules<'_, F>,
    seat: ReporterSeat,
    counts: &mut Counts,
    ticker: &mut T,
    sink: &mut K,
) -> (ReporterSeat, Result<(), RunError>)
    requires seat { IsReporter recorder.now seat }
    requires first { ((reports seat).closed ≡ []) × ((reports seat).interval ≡ 0) × ((reports seat).raised ≡ false) }
    requires rows { length counts.old.last.rows ≡ (numbers_of recorder.now).labels }
    requires none { counts.old.total.rows ≡ sum_of (numbers_of recorder.now).labels [] }
    requires labels { (numbers_of recorder.now).labels ≡ length (labels_of rules.now.plan.now.elements) }
    requires kept { Keeps F.Fn rules.now.reporter.now }
    ensures seat { IsReporter recorder.now result.0 }
    ensures rows { length counts.new.last.rows ≡ (numbers_of recorder.now).labels }
    ensures counted { CountsAll (numbers_of recorder.now).labels (reports result.0) counts.new.total }
    ensures few { (reports result.0).interval ≤ 16777216 }
    ensures joined { (reports result.0).joined ≡ (reports seat).joined }
    ensures ticked { HasTickedWhere (reports result.0).interval (T.ticks ticker.old) (T.ticks ticker.new) }
    ensures reported { OnOk result.1 (Reported (report_text rules.now.plan.now) rules.now.limit (reports result.0) (K.written sink.old) (K.written sink.new)) }
    ensures prefix { OnErr result.1 (WritesPrefix (report_text rules.now.plan.now) (K.written sink.old) (K.written sink.new)) }
    ensures unjudged { OnErr result.1 (EndsUnjudged rules.now.limit (reports result.0)) }
    ensures ok { OnOk result.1 (K.faults sink.new ≡ K.faults sink.old) }
    ensures cause { IfErr result.1 (IsCause (K.faults sink.old) (K.faults sink.new)) }
{
    let mut seat = seat;
    for _ in rt.forever() {
        let (next, turn) = one_turn(rt, alloc, recorder, rules, seat, counts, ticker, sink);
        if let Err(error) = turn {
            return (next, Err(error));
        }
        if next.interval() == MOST_INTERVALS || rules.ended.all() {
            return (next, Ok(()));
        }
        seat = next;
        thread::yield_now();
    }
    unreachable!()
}
