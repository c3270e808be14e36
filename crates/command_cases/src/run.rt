// Runs of the program.

ghost use Rattle.std.specs.Prelude.{◌≡◌, []};
ghost use Rattle.interval_reporter.specs.Judged.{Keeps};

use crate::show::{print_sink, print_tally};
use crate::texts::words_of;
use edge_io::{MemSink, MemSource};
use element_tree::RegexPatterns;
use interval_reporter::{Reporter, Verdict, stops_past};
use interval_tables::Report;
use jm_command::start;
use outside_world::{MemTicker, ScriptWorld};
use std::alloc::Global;
use std::sync::Wait;
use std::thread::Threads;

// How many bytes the results and the reports have room for.
const RESULTS: u32 = 8_000_000;

const REPORTS: u32 = 4096;

/// Runs the program and prints its status, and what its results and its reports hold.
pub fn print_run<R: Print + Threads + Wait + Sync>(
    rt: &R,
    alloc: Global,
    line: &str,
    plan: &Vec<u8>,
) -> anyhow::Result<()> {
    let (status, results, reports) = run(rt, alloc, line, plan)?;
    println!(rt; "status {status}")?;
    print_sink(rt, alloc, ">", results.bytes())?;
    print_sink(rt, alloc, "!", reports.bytes())
}

/// The same of a run whose samples may fall into several intervals: of the results how many lines they have, of the reports of
/// intervals how many there are and what their counts sum to, and what comes after them.
pub fn print_tally_of<R: Print + Threads + Wait + Sync>(
    rt: &R,
    alloc: Global,
    line: &str,
    plan: &Vec<u8>,
) -> anyhow::Result<()> {
    let (status, results, reports) = run(rt, alloc, line, plan)?;
    println!(rt; "status {status}")?;
    print_tally(rt, alloc, results.bytes(), reports.bytes())
}

// The status of a run, and its sinks.
fn run<R: Threads + Wait + Sync>(
    rt: &R,
    alloc: Global,
    line: &str,
    plan: &Vec<u8>,
) -> anyhow::Result<(u8, MemSink, MemSink)> {
    let (words, more) = line.split_once(" ; ").unwrap_or((line, ""));
    let words = words_of(alloc, words)?;
    let mut source = MemSource::new(plan.clone()?, numbers(alloc, more, "reads=")?);
    let mut results = MemSink::new(alloc, RESULTS, numbers(alloc, more, "results=")?)?;
    let mut reports = MemSink::new(alloc, REPORTS, numbers(alloc, more, "reports=")?)?;
    let mut ticker = MemTicker::new(answers(alloc, more)?);
    let mut patterns = RegexPatterns::new(numbers(alloc, more, "patterns=")?);
    let mut world = ScriptWorld::new(alloc);
    let status = status_of(
        rt,
        alloc,
        &words,
        &mut source,
        &mut results,
        &mut reports,
        &mut world,
        &mut ticker,
        &mut patterns,
    );
    Ok((status, results, reports))
}

// The numbers after a mark.
fn numbers(alloc: Global, more: &str, mark: &str) -> anyhow::Result<Vec<u32>> {
    let mut all = Vec::new(alloc);
    for word in more.split(' ') {
        if let Some(number) = word.strip_prefix(mark) {
            all.push(number.parse::<u32>()?)?;
        }
    }
    Ok(all)
}

// The answers of the ticker: a `1` for each that is true.
fn answers(alloc: Global, more: &str) -> anyhow::Result<Vec<bool>> {
    let mut all = Vec::new(alloc);
    for word in more.split(' ') {
        if let Some(digits) = word.strip_prefix("ticks=") {
            for digit in digits.bytes() {
                all.push(digit == b'1')?;
            }
        }
    }
    Ok(all)
}

// The program's status. What it promises is left out here, so that no proof above carries it along.
fn status_of<R: Threads + Wait + Sync>(
    rt: &R,
    alloc: Global,
    words: &Vec<String>,
    plan: &mut MemSource,
    results: &mut MemSink,
    reports: &mut MemSink,
    world: &mut ScriptWorld,
    ticker: &mut MemTicker,
    patterns: &mut RegexPatterns,
) -> u8
    requires { world.old.opened ≡ [] }
{
    start(
        rt,
        alloc,
        words,
        plan,
        results,
        reports,
        world,
        ticker,
        Reporter::new(stops_past),
        patterns,
    )
}
