// The program with threads: every command.

ghost use Rattle.std.specs.Prelude.{◌≡◌, ◌≤◌, ◌*◌, All, length, map, string_bytes, ℕ, []};
ghost use Rattle.command_words.specs.declared.command.Command.TheVariants.{Run as RunCommand};
ghost use Rattle.command_words.specs.Commands.{command_of};
ghost use Rattle.element_tree.specs.Tree.{threads_of};
ghost use Rattle.interval_reporter.specs.Judged.{Keeps};
ghost use Rattle.run_engine.specs.Served.{AreServed};
ghost use Rattle.jm_command.specs.Command.{edges};
ghost use Rattle.jm_command.specs.Parts.{sinks, TextsSay, ReportSays};
ghost use Rattle.element_tree.specs.Names.{labels_of};
ghost use Rattle.interval_tables.specs.Rows.{IsInBounds};
ghost use Rattle.thread_machine.specs.Bare.{IsLabelled};
ghost use Rattle.jm_command.specs.Started.{around, StartSays, StartEnds, RunStarts, RunPrints, run_results, run_tail, all_whole, is_whole_trace};

use crate::line::say;
use crate::plan::read_plan;
use crate::program::{USAGE, run_words};
use crate::report::{is_whole, status_of};
use crate::status::Status;
use crate::words::command_of;
use command_words::{Command, Run, names_run};
use edge_io::{Sink, Source};
use element_props::Patterns;
use element_tree::Plan;
use interval_reporter::{Reporter, Verdict};
use interval_tables::Report;
use jm_base::Items;
use outside_world::{Ticker, World};
use run_engine::{RunAsk, RunBooks, RunError, run_threads};
use std::alloc::Global;
use std::sync::Wait;
use std::thread;
use std::thread::Threads;
use thread_machine::TraceItem;
use trace_output::{PrintError, end_of, print_all_report, print_all_results};

/// The most threads that give back memory at the same time.
const GIVING_THREADS: usize = 8;

/// Runs the program on its words, without its own name. Where the first word is not `run` this is `plain_command`. `run` reads
/// the plan from `plan` and runs all of its threads at once, each over an outside of `world`. The reports of intervals go to
/// `reports` as they close, as often as `ticker` says; then the results go to `results`, in thread order, and at last the
/// summary and the end lines to `reports`. `hook` is asked of each closed report whether the run goes on. It gives the exit
/// status.
pub fn start<
    R: Threads + Wait + Sync,
    S: Source,
    O: Sink,
    E: Sink,
    W: World,
    T: Ticker,
    F: Fn(&Report, u64) -> Verdict,
    G: Patterns,
>(
    rt: &R,
    alloc: Global,
    words: &Vec<String>,
    plan: &mut S,
    results: &mut O,
    reports: &mut E,
    world: &mut W,
    ticker: &mut T,
    hook: Reporter<F>,
    patterns: &mut G,
) -> u8
    requires opened { W.opened world.old ≡ [] }
    requires kept { Keeps F.Fn hook }
    ensures ends { StartEnds (command_of (map string_bytes words.now.items)) (T.ticks ticker.old) (around (W.tells world.old) (W.opened world.new) (W.told world.new) (T.ticks ticker.new))
        (edges (S.left plan.old) (S.faults plan.old) (O.written results.old) (O.faults results.old) (E.written reports.old) (E.faults reports.old) (G.account patterns.old))
        (edges (S.left plan.new) (S.faults plan.new) (O.written results.new) (O.faults results.new) (E.written reports.new) (E.faults reports.new) (G.account patterns.new))
        result }

    // The outsides that were opened are those of the first threads, and each of them was closed. There are no more than the
    // plan has threads: so says `ends`.
    ensures served { (n : ℕ) × AreServed n (W.opened world.new) (W.closed world.old) (W.closed world.new) }
{
    start_words(
        rt, alloc, words, plan, results, reports, world, ticker, &hook, patterns,
    )
    .number()
}

// Runs the program on these words.
fn start_words<
    R: Threads + Wait + Sync,
    S: Source,
    O: Sink,
    E: Sink,
    W: World,
    T: Ticker,
    F: Fn(&Report, u64) -> Verdict,
    G: Patterns,
>(
    rt: &R,
    alloc: Global,
    words: &Vec<String>,
    plan: &mut S,
    results: &mut O,
    reports: &mut E,
    world: &mut W,
    ticker: &mut T,
    hook: &Reporter<F>,
    patterns: &mut G,
) -> Status
    requires opened { W.opened world.old ≡ [] }
    requires kept { Keeps F.Fn hook.now }
    ensures says { StartSays (command_of (map string_bytes words.now.items)) (T.ticks ticker.old) (around (W.tells world.old) (W.opened world.new) (W.told world.new) (T.ticks ticker.new))
        (edges (S.left plan.old) (S.faults plan.old) (O.written results.old) (O.faults results.old) (E.written reports.old) (E.faults reports.old) (G.account patterns.old))
        (edges (S.left plan.new) (S.faults plan.new) (O.written results.new) (O.faults results.new) (E.written reports.new) (E.faults reports.new) (G.account patterns.new))
        result }
    ensures served { (n : ℕ) × AreServed n (W.opened world.new) (W.closed world.old) (W.closed world.new) }
{
    if !names_run(words) {
        return run_words(alloc, words, plan, results, reports, patterns);
    }
    match command_of(alloc, words) {
        Ok(None) => say(reports, USAGE, Status::Usage),
        Ok(Some(command)) => match &command {
            Command::Run(run) => read_and_run(
                rt, alloc, &command, run, plan, results, reports, world, ticker, hook, patterns,
            ),
            Command::Check | Command::Make(_) | Command::Solo(_) | Command::Weave(_) => {
                unreachable!()
            }
        },
        Err(_) => Status::Memory,
    }
}

// Reads a plan, and runs all of its threads.
fn read_and_run<
    R: Threads + Wait + Sync,
    S: Source,
    O: Sink,
    E: Sink,
    W: World,
    T: Ticker,
    F: Fn(&Report, u64) -> Verdict,
    G: Patterns,
>(
    rt: &R,
    alloc: Global,
    command: &Command,
    run: &Run,
    plan: &mut S,
    results: &mut O,
    reports: &mut E,
    world: &mut W,
    ticker: &mut T,
    hook: &Reporter<F>,
    patterns: &mut G,
) -> Status
    requires is { command.now ≡ RunCommand run.now }
    requires opened { W.opened world.old ≡ [] }
    requires kept { Keeps F.Fn hook.now }
    ensures says { RunStarts run.now (T.ticks ticker.old) (around (W.tells world.old) (W.opened world.new) (W.told world.new) (T.ticks ticker.new))
        (edges (S.left plan.old) (S.faults plan.old) (O.written results.old) (O.faults results.old) (E.written reports.old) (E.faults reports.old) (G.account patterns.old))
        (edges (S.left plan.new) (S.faults plan.new) (O.written results.new) (O.faults results.new) (E.written reports.new) (E.faults reports.new) (G.account patterns.new))
        result }
    ensures served { (n : ℕ) × AreServed n (W.opened world.new) (W.closed world.old) (W.closed world.new) }
{
    match read_plan(alloc, command, plan, reports, patterns) {
        Ok(plan) => run_beside(rt, alloc, run, &plan, results, reports, world, ticker, hook),
        Err(status) => status,
    }
}

// Runs all threads of a plan, and prints what they have done.
fn run_beside<
    R: Threads + Wait + Sync,
    O: Sink,
    E: Sink,
    W: World,
    T: Ticker,
    F: Fn(&Report, u64) -> Verdict,
>(
    rt: &R,
    alloc: Global,
    run: &Run,
    plan: &Plan,
    results: &mut O,
    reports: &mut E,
    world: &mut W,
    ticker: &mut T,
    hook: &Reporter<F>,
) -> Status
    requires samples { length (threads_of plan.now) * run.now.samples ≤ 4194304 }
    requires opened { W.opened world.old ≡ [] }
    requires kept { Keeps F.Fn hook.now }
    ensures prints { RunPrints run.now plan.now (T.ticks ticker.old) (around (W.tells world.old) (W.opened world.new) (W.told world.new) (T.ticks ticker.new))
        (sinks (O.written results.old) (O.faults results.old) (E.written reports.old) (E.faults reports.old))
        (sinks (O.written results.new) (O.faults results.new) (E.written reports.new) (E.faults reports.new)) result }
    ensures served { (n : ℕ) × AreServed n (W.opened world.new) (W.closed world.old) (W.closed world.new) }
{
    ticker.every(run.every);
    let ask = RunAsk {
        plan,
        props: &run.props,
        seed: run.seed,
        budget: run.samples,
        limit: run.limit,
    };
    match run_threads(rt, alloc, &ask, world, ticker, hook, reports) {
        Ok(books) => {
            let status = print_books(alloc, plan, &books, results, reports);
            let RunBooks { traces, .. } = books;
            give_back(rt, alloc, traces);
            status
        }
        Err(RunError::WriteFault) => Status::WriteFault,
        Err(RunError::NoMemory) => Status::Memory,
    }
}

// Gives back the memory of traces, those of up to eight at the same time where threads can be started.
fn give_back<R: Threads + Sync>(rt: &R, alloc: Global, traces: Items<Items<TraceItem>>) {
    let mut traces = traces.into_vec();
    thread::for_each_mut(
        rt,
        traces.as_mut_slice(),
        GIVING_THREADS,
        &|_, trace| {
            *trace = Items::of(Vec::new(alloc));
        },
    );
}

// Prints what the threads of a plan have done: the results, and then the summary and the end lines.
fn print_books<O: Sink, E: Sink>(
    alloc: Global,
    plan: &Plan,
    books: &RunBooks,
    results: &mut O,
    reports: &mut E,
) -> Status
    requires threads { length books.now.traces ≡ length (threads_of plan.now) }
    requires labels { All (All (IsLabelled (length (labels_of plan.now.elements)))) books.now.traces }
    requires rows { length books.now.total.rows ≡ length (labels_of plan.now.elements) }
    requires bounds { IsInBounds books.now.total.rows }
    ensures { TextsSay (run_results plan.now books.now.traces) (run_tail plan.now books.now.total books.now.traces) (all_whole books.now.traces)
        (sinks (O.written results.old) (O.faults results.old) (E.written reports.old) (E.faults reports.old))
        (sinks (O.written results.new) (O.faults results.new) (E.written reports.new) (E.faults reports.new)) result }
{
    let traces = books.traces.as_slice();
    match print_all_results(alloc, results, plan, traces) {
        Ok(()) => print_tail(alloc, plan, books, reports),
        Err(PrintError::WriteFault) => Status::WriteFault,
        Err(PrintError::NoMemory) => Status::Memory,
    }
}

// Prints the summary and the end lines.
fn print_tail<E: Sink>(alloc: Global, plan: &Plan, books: &RunBooks, reports: &mut E) -> Status
    requires threads { length books.now.traces ≡ length (threads_of plan.now) }
    requires rows { length books.now.total.rows ≡ length (labels_of plan.now.elements) }
    requires bounds { IsInBounds books.now.total.rows }
    ensures { ReportSays (run_tail plan.now books.now.total books.now.traces) (all_whole books.now.traces)
        (E.written reports.old) (E.written reports.new) (E.faults reports.old) (E.faults reports.new) result }
{
    let traces = books.traces.as_slice();
    match print_all_report(alloc, reports, plan, &books.total, traces) {
        Ok(()) => status_of(are_whole(traces)),
        Err(PrintError::WriteFault) => Status::WriteFault,
        Err(PrintError::NoMemory) => Status::Memory,
    }
}

// Whether no thread was cut short because memory ran out.
fn are_whole(traces: &[Items<TraceItem>]) -> bool
    ensures { result ≡ all_whole traces.now }
{
    traces.iter().all(is_whole_trace)
}

fn is_whole_trace(trace: &Items<TraceItem>) -> bool
    ensures { result ≡ is_whole_trace trace.now }
{
    match end_of(trace.as_slice()) {
        Some(end) => is_whole(end),
        None => true,
    }
}
