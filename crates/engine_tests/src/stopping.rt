//! That a run stops: after a report with more errors than the limit, and after a thread that ended the test.
ghost use Rattle.std.specs.Prelude.{◌≡◌, ◌<◌, ◌≤◌, ◌*◌, ◌↔◌, length};
ghost use Rattle.element_tree.specs.Tree.{threads_of};
ghost use Rattle.interval_tables.specs.Rows.{IsInBounds};
ghost use Rattle.interval_reporter.specs.Judged.{errors_of};

use crate::fakes::{CountedTicker, Tally};
use crate::plans::{FAILING, STOP_TEST, STOP_TEST_FAILING, plan_of};
use crate::running::ROOM;
use crate::slow::{Pace, SlowWorld};
use edge_io::MemSink;
use element_tree::Plan;
use interval_reporter::{Reporter, Verdict, stops_past};
use interval_tables::Report;
use jm_base::End;
use outside_world::ScriptWorld;
use run_engine::{RunAsk, RunBooks, RunError, run_threads};
use std::alloc::Global;
use std::process::Abort;
use std::sync::Wait;
use std::sync::atomic::Ordering;
use std::test::Fail;
use std::thread::Threads;
use thread_machine::TraceItem;
use var_functions::Props;

// The most samples of a thread: so many that a run that is not stopped takes minutes.
const BUDGET: u32 = 262_144;

// A run over slow outsides, with a ticker that is true for ever.
fn run_slow<R: Threads + Wait + Sync>(
    rt: &R,
    alloc: Global,
    plan: &Plan,
    first_plan: &Plan,
    paces: (Pace, Pace),
    props: &Props,
    limit: u64,
    tally: &Tally,
    sink: &mut MemSink,
) -> Result<RunBooks, RunError>
    requires samples { length (threads_of plan.now) * 262144 ≤ 4194304 }
{
    let ask = RunAsk {
        plan,
        props,
        seed: 0,
        budget: BUDGET,
        limit,
    };
    let mut world = SlowWorld {
        inner: ScriptWorld::new(alloc),
        first_plan,
        first_pace: paces.0,
        pace: paces.1,
        tally,
    };
    let mut ticker = CountedTicker::for_ever(alloc, tally);
    let reporter = Reporter::new(
        move |report: &Report, limit: u64| -> Verdict
            requires { IsInBounds report.now.rows }
            ensures { (result ≡ Verdict.Stop) ↔ (limit < errors_of report.now) }
        {
            tally.judge(report);
            stops_past(report, limit)
        },
    );
    run_threads(rt, alloc, &ask, &mut world, &mut ticker, &reporter, sink)
}

// How each thread of such a run ended, in thread order. The outside of thread 0 has the replies of a plan of its own.
fn ends_of<R: Threads + Wait + Sync>(
    rt: &R,
    alloc: Global,
    text: &[u8],
    first_text: &[u8],
    paces: (Pace, Pace),
    limit: u64,
    tally: &Tally,
) -> Result<Vec<Option<End>>, Fail> {
    let plan = plan_of(alloc, text)?;
    let first_plan = plan_of(alloc, first_text)?;
    if !plan.samples_fit(BUDGET) {
        return Err(Fail::from("too many samples"));
    }
    let props = Props::read(alloc, b"")?;
    let mut sink = MemSink::new(alloc, ROOM, Vec::new(alloc))?;
    let books = run_slow(
        rt,
        alloc,
        &plan,
        &first_plan,
        paces,
        &props,
        limit,
        tally,
        &mut sink,
    )?;
    let mut ends = Vec::new(alloc);
    for trace in books.traces.as_slice() {
        ends.push(end_of(trace.as_slice()))?;
    }
    Ok(ends)
}

// How a thread ended.
fn end_of(trace: &[TraceItem]) -> Option<End> {
    match trace.last()? {
        TraceItem::Ended(end) => Some(*end),
        _ => None,
    }
}

#[test]
fn a_report_past_the_limit_stops_the_run(rt: HostRuntime) -> Result<(), Fail> {
    let tally = Tally::new();
    let paces = (Pace::AfterAnError, Pace::AfterAnError);
    let ends = ends_of(&rt, rt.alloc(), FAILING, FAILING, paces, 0, &tally)?;
    assert_eq!(rt; ends.as_slice(), [Some(End::Stopped)].as_slice());
    assert_eq!(rt; tally.missed.load(Ordering::SeqCst), 0);
    assert!(rt; tally.errors.load(Ordering::SeqCst) >= 1);
    Ok(())
}

#[test]
fn a_thread_that_ends_the_test_stops_the_others(rt: HostRuntime) -> Result<(), Fail> {
    let tally = Tally::new();
    let paces = (Pace::Quick, Pace::Slow);
    let ends = ends_of(
        &rt,
        rt.alloc(),
        STOP_TEST,
        STOP_TEST_FAILING,
        paces,
        u64::MAX,
        &tally,
    )?;
    assert_eq!(rt;
        ends.as_slice(),
        [Some(End::StopTest), Some(End::Stopped)].as_slice()
    );
    Ok(())
}
