//! The two kinds of run that the tests make. Each has no limit of errors.
ghost use Rattle.std.specs.Prelude.{◌≡◌, ◌<◌, ◌≤◌, ◌*◌, ◌↔◌, length};
ghost use Rattle.element_tree.specs.Tree.{threads_of};
ghost use Rattle.interval_tables.specs.Rows.{IsInBounds};
ghost use Rattle.interval_reporter.specs.Judged.{errors_of};

use crate::fakes::{CountedTicker, Hold, HoldingWorld};
use crate::given::Given;
use crate::plans::plan_of;
use edge_io::MemSink;
use element_tree::Plan;
use interval_reporter::{Reporter, Verdict, stops_past};
use interval_tables::Report;
use outside_world::{MemTicker, ScriptWorld};
use run_engine::{RunAsk, RunBooks, RunError, run_threads};
use std::alloc::Global;
use std::sync::Wait;
use std::test::Fail;
use std::thread::Threads;
use var_functions::Props;

/// Room for all that a sink is written in a test.
pub const ROOM: u32 = 100_000_000;

// The most samples of a thread.
const BUDGET: u32 = 1000;

fn run_plain<R: Threads + Wait + Sync>(
    rt: &R,
    alloc: Global,
    plan: &Plan,
    props: &Props,
    ticker: &mut MemTicker,
    sink: &mut MemSink,
) -> Result<RunBooks, RunError>
    requires samples { length (threads_of plan.now) * 1000 ≤ 4194304 }
{
    let ask = RunAsk {
        plan,
        props,
        seed: 0,
        budget: BUDGET,
        limit: u64::MAX,
    };
    let mut world = ScriptWorld::new(alloc);
    let reporter = Reporter::new(stops_past);
    run_threads(rt, alloc, &ask, &mut world, ticker, &reporter, sink)
}

/// A run of a plan over its own replies, with a ticker that is true that many times.
pub fn plain<R: Threads + Wait + Sync>(
    rt: &R,
    alloc: Global,
    text: &[u8],
    ticks: usize,
    sink: &mut MemSink,
) -> Result<Given, Fail> {
    let plan = plan_of(alloc, text)?;
    if !plan.samples_fit(BUDGET) {
        return Err(Fail::from("too many samples"));
    }
    let props = Props::read(alloc, b"")?;
    let mut ticker = MemTicker::new(vec![in alloc; true; ticks]?);
    let books = run_plain(rt, alloc, &plan, &props, &mut ticker, sink)?;
    Ok(Given::of(&books, sink.bytes()))
}

fn run_held<R: Threads + Wait + Sync>(
    rt: &R,
    alloc: Global,
    plan: &Plan,
    props: &Props,
    hold: Hold<'_>,
    ticker: &mut CountedTicker<'_>,
    sink: &mut MemSink,
) -> Result<RunBooks, RunError>
    requires samples { length (threads_of plan.now) * 1000 ≤ 4194304 }
{
    let ask = RunAsk {
        plan,
        props,
        seed: 0,
        budget: BUDGET,
        limit: u64::MAX,
    };
    let mut world = HoldingWorld {
        inner: ScriptWorld::new(alloc),
        hold,
    };
    let tally = hold.tally;
    let reporter = Reporter::new(
        move |report: &Report, limit: u64| -> Verdict
            requires { IsInBounds report.now.rows }
            ensures { (result ≡ Verdict.Stop) ↔ (limit < errors_of report.now) }
        {
            tally.judge(report);
            stops_past(report, limit)
        },
    );
    run_threads(rt, alloc, &ask, &mut world, ticker, &reporter, sink)
}

/// The books of a run of a plan over outsides that hold its replies, with a hook that counts its calls: nothing where a write
/// failed.
pub fn held_books<R: Threads + Wait + Sync>(
    rt: &R,
    alloc: Global,
    text: &[u8],
    hold: Hold<'_>,
    ticker: &mut CountedTicker<'_>,
    sink: &mut MemSink,
) -> Result<Option<RunBooks>, Fail> {
    let plan = plan_of(alloc, text)?;
    if !plan.samples_fit(BUDGET) {
        return Err(Fail::from("too many samples"));
    }
    let props = Props::read(alloc, b"")?;
    match run_held(rt, alloc, &plan, &props, hold, ticker, sink) {
        Ok(books) => Ok(Some(books)),
        Err(RunError::WriteFault) => Ok(None),
        Err(RunError::NoMemory) => Err(Fail::from("out of memory")),
    }
}

/// What such a run gave: nothing where a write failed.
pub fn held<R: Threads + Wait + Sync>(
    rt: &R,
    alloc: Global,
    text: &[u8],
    hold: Hold<'_>,
    ticker: &mut CountedTicker<'_>,
    sink: &mut MemSink,
) -> Result<Option<Given>, Fail> {
    match held_books(rt, alloc, text, hold, ticker, sink)? {
        Some(books) => Ok(Some(Given::of(&books, sink.bytes()))),
        None => Ok(None),
    }
}
