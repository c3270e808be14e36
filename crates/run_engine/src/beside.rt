// The workers in threads, and the reporter at the same time on the caller's thread.

ghost use Rattle.std.specs.Prelude.{All, ◌≡◌};
ghost use Rattle.interval_reporter.specs.Judged.{Keeps};
ghost use Rattle.run_engine.specs.JobsRan.{CanRun, AllRan};
ghost use Rattle.run_engine.specs.Reporting.{MayReport, HasReported};
ghost use denote.Param.Send.{IsSync, IsSend};

use crate::job::Job;
use crate::team::run_team;
use edge_io::Sink;
use interval_reporter::Verdict;
use interval_tables::Report;
use jm_base::Outside;
use outside_world::Ticker;
use recorder_core::{Recorder, ReporterSeat};
use reporter_loop::{Counts, Ended, Rules, RunError, report_until};
use std::alloc::Global;
use std::snapshot::Snapshot;
use std::sync::Wait;
use std::thread;
use std::thread::{Promise, Threads};

// What the team's thread keeps: each worker has run.
#[derive(Drop)]
struct TeamOf<'r, 'p, 's, O> {
    recorder: &'r Recorder,
    before: Snapshot<Vec<Job<'p, 's, O>>>,
}

impl<'r, 'p, 's, O: Outside> Promise<Vec<Job<'p, 's, O>>> for TeamOf<'r, 'p, 's, O> {
    ghost kept_by = { λ p r. AllRan O.account p.recorder.now p.before.value.items r.items };
}

// Runs all workers, and hands them back.
fn team_thread<'p, 's, R: Threads + Wait + Sync, O: Outside + Send>(
    rt: &R,
    recorder: &Recorder,
    ended: &Ended,
    mut jobs: Vec<Job<'p, 's, O>>,
) -> Vec<Job<'p, 's, O>>
    requires { All (CanRun recorder.now) jobs.items }
    ensures { AllRan O.account recorder.now jobs.entry.items result.items }
{
    run_team(rt, recorder, ended, jobs.as_mut_slice());
    jobs
}

// What the reporter asks and writes to.
#[derive(Drop)]
struct Desk<'t, 'k, T, K> {
    ticker: &'t mut T,
    sink: &'k mut K,
    counts: Counts,
}

// How the reporter's loop ended, and the desk as it left it.
struct Reporting<'t, 'k, T, K> {
    seat: ReporterSeat,
    answer: Result<(), RunError>,
    desk: Desk<'t, 'k, T, K>,
}

// What the workers and the reporter gave.
struct Gathered<'p, 's, 't, 'k, O, T, K> {
    jobs: Vec<Job<'p, 's, O>>,
    end: Reporting<'t, 'k, T, K>,
}

// Does nothing, but ties what was lent to the parameter that lent it.
fn take_back<T>(x: &mut T)
    ensures { x.new ≡ x.old }
{}

// The reporter's loop, at a desk.
fn report_at<'t, 'k, R: Wait, T: Ticker, K: Sink, F: Fn(&Report, u64) -> Verdict>(
    rt: &R,
    alloc: Global,
    recorder: &Recorder,
    rules: &Rules<'_, F>,
    seat: ReporterSeat,
    desk: Desk<'t, 'k, T, K>,
) -> Reporting<'t, 'k, T, K>
    requires may { MayReport recorder.now rules.now.plan.now seat desk.counts }
    requires kept { Keeps F.Fn rules.now.reporter.now }
    ensures reported { HasReported recorder.now rules.now.plan.now rules.now.limit
        (record { ticks = T.ticks desk.entry.ticker.now; written = K.written desk.entry.sink.now; faults = K.faults desk.entry.sink.now })
        (record { ticks = T.ticks result.desk.ticker.now; written = K.written result.desk.sink.now; faults = K.faults result.desk.sink.now })
        seat (record { seat = result.seat; counts = result.desk.counts; answer = result.answer }) }
    ensures ticker { result.desk.ticker.ghost_name ≡ desk.entry.ticker.ghost_name }
    ensures sink { result.desk.sink.ghost_name ≡ desk.entry.sink.ghost_name }
{
    let Desk {
        ticker,
        sink,
        mut counts,
    } = desk;
    let (seat, answer) = report_until(rt, alloc, recorder, rules, seat, &mut counts, ticker, sink);
    Reporting {
        seat,
        answer,
        desk: Desk {
            ticker,
            sink,
            counts,
        },
    }
}

// Runs all workers in threads and the reporter at the desk, and joins the threads whatever became of the reports.
fn gather<
    'p,
    's,
    't,
    'k,
    R: Threads + Wait + Sync,
    O: Outside + Send + Drop,
    T: Ticker,
    K: Sink,
    F: Fn(&Report, u64) -> Verdict,
>(
    rt: &R,
    alloc: Global,
    recorder: &Recorder,
    rules: &Rules<'_, F>,
    jobs: Vec<Job<'p, 's, O>>,
    seat: ReporterSeat,
    desk: Desk<'t, 'k, T, K>,
) -> Gathered<'p, 's, 't, 'k, O, T, K>
    requires jobs { All (CanRun recorder.now) jobs.items }
    requires may { MayReport recorder.now rules.now.plan.now seat desk.counts }
    requires kept { Keeps F.Fn rules.now.reporter.now }
    ensures jobs { AllRan O.account recorder.now jobs.entry.items result.jobs.items }
    ensures reported { HasReported recorder.now rules.now.plan.now rules.now.limit
        (record { ticks = T.ticks desk.entry.ticker.now; written = K.written desk.entry.sink.now; faults = K.faults desk.entry.sink.now })
        (record { ticks = T.ticks result.end.desk.ticker.now; written = K.written result.end.desk.sink.now; faults = K.faults result.end.desk.sink.now })
        seat (record { seat = result.end.seat; counts = result.end.desk.counts; answer = result.end.answer }) }
    ensures ticker { result.end.desk.ticker.ghost_name ≡ desk.entry.ticker.ghost_name }
    ensures sink { result.end.desk.sink.ghost_name ≡ desk.entry.sink.ghost_name }
{
    let ended = rules.ended;
    thread::scope(
        thread::scope_env(),
        rt,
        move |scope| -> Gathered<O, T, K>
            requires { All (CanRun recorder.now) jobs.items × MayReport recorder.now rules.now.plan.now seat desk.counts
                × Keeps F.Fn rules.now.reporter.now × IsSync R.row × IsSend O.row }
            ensures { AllRan O.account recorder.entry.now jobs.entry.items result.jobs.items
                × HasReported recorder.entry.now rules.entry.now.plan.now rules.entry.now.limit
                (record { ticks = T.ticks desk.entry.ticker.now; written = K.written desk.entry.sink.now; faults = K.faults desk.entry.sink.now })
                (record { ticks = T.ticks result.end.desk.ticker.now; written = K.written result.end.desk.sink.now; faults = K.faults result.end.desk.sink.now })
                seat (record { seat = result.end.seat; counts = result.end.desk.counts; answer = result.end.answer })
                × (result.end.desk.ticker.ghost_name ≡ desk.entry.ticker.ghost_name)
                × (result.end.desk.sink.ghost_name ≡ desk.entry.sink.ghost_name) }
        {
            let promise = TeamOf {
                recorder,
                before: Snapshot::of(&jobs),
            };
            let work = move || -> Vec<Job<O>>
                requires { All (CanRun recorder.now) jobs.items × IsSync R.row × IsSend O.row }
                ensures { AllRan O.account recorder.entry.now jobs.entry.items result.items }
            { team_thread(rt, recorder, ended, jobs) };
            match scope.spawn_with(promise, work) {
                Ok(handle) => {
                    let end = report_at(rt, alloc, recorder, rules, seat, desk);
                    let jobs = handle.join(rt);
                    Gathered { jobs, end }
                }
                Err(refused) => {
                    let jobs = (refused.value)();
                    let end = report_at(rt, alloc, recorder, rules, seat, desk);
                    Gathered { jobs, end }
                }
            }
        },
    )
}

/// Runs all workers in threads and the reporter on the caller's thread, and joins the threads whatever became of the reports.
/// Where no thread can be started, the workers run first.
pub fn run_beside<
    'p,
    's,
    R: Threads + Wait + Sync,
    O: Outside + Send + Drop,
    T: Ticker,
    K: Sink,
    F: Fn(&Report, u64) -> Verdict,
>(
    rt: &R,
    alloc: Global,
    recorder: &Recorder,
    rules: &Rules<'_, F>,
    jobs: Vec<Job<'p, 's, O>>,
    seat: ReporterSeat,
    counts: Counts,
    ticker: &mut T,
    sink: &mut K,
) -> (
    Vec<Job<'p, 's, O>>,
    ReporterSeat,
    Result<(), RunError>,
    Counts,
)
    requires jobs { All (CanRun recorder.now) jobs.items }
    requires may { MayReport recorder.now rules.now.plan.now seat counts }
    requires kept { Keeps F.Fn rules.now.reporter.now }
    ensures jobs { AllRan O.account recorder.now jobs.entry.items result.0.items }
    ensures reported { HasReported recorder.now rules.now.plan.now rules.now.limit
        (record { ticks = T.ticks ticker.old; written = K.written sink.old; faults = K.faults sink.old })
        (record { ticks = T.ticks ticker.new; written = K.written sink.new; faults = K.faults sink.new })
        seat (record { seat = result.1; counts = result.3; answer = result.2 }) }
{
    let desk = Desk {
        ticker: &mut *ticker,
        sink: &mut *sink,
        counts,
    };
    let Gathered { jobs, end } = gather(rt, alloc, recorder, rules, jobs, seat, desk);
    let Reporting { seat, answer, desk } = end;
    let Desk {
        ticker,
        sink,
        counts,
    } = desk;
    take_back(ticker);
    take_back(sink);
    (jobs, seat, answer, counts)
}
