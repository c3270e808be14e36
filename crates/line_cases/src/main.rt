//! Runs the cases of what reads, counts and prints lines. A line of its input is a call and what it is given; it prints
//! that line and then what came. A line `plan JSON` sets the plan of the lines after it, and one that begins with `#`
//! says what follows. What must come stands in its file `stdout`.
#![tactic(auto)]

mod adapters;
mod counted;
mod edges;
mod made;
mod printed;
mod schedules;
mod words;

use anyhow::bail;
use element_tree::Plan;
use jm_base::{M, Text};
use plan_maker::make_plan;
use std::alloc::Global;
use words::{parted, plain};

// A text, its copy and its bytes.
fn text_case(alloc: Global, given: &str, out: &mut String) -> M<()> {
    let text = Text::new(alloc, given.as_bytes())?;
    let copy = text.copy(alloc)?;
    let bytes = copy.into_vec();
    write!(out, "= {}\n= {}\n", plain(text.bytes()), plain(&bytes))?;
    Ok(())
}

// Writes what a case gives that fails for nothing but memory.
fn answer_alone(alloc: Global, call: &str, given: &str, out: &mut String) -> anyhow::Result<()> {
    let wrote = match call {
        "text" => text_case(alloc, given, out),
        "header" => printed::header_case(alloc, out),
        "source" => edges::source_case(alloc, given, out),
        "sink" => edges::sink_case(alloc, given, out),
        "reader" => adapters::reader_case(alloc, given, out),
        "writer" => adapters::writer_case(alloc, given, out),
        _ => bail!("no call {call}"),
    };
    Ok(wrote?)
}

// Writes what a case gives.
fn answer(
    alloc: Global,
    plan: &Plan,
    call: &str,
    given: &str,
    out: &mut String,
) -> anyhow::Result<()> {
    match call {
        "rows" => counted::rows_case(alloc, given, out),
        "merge" => counted::merge_case(alloc, given, out),
        "schedule" => schedules::schedule_case(alloc, given, out),
        "result" => printed::result_case(alloc, plan, given, out),
        "times" => printed::times_case(alloc, plan, given, out),
        "end" => printed::end_case(alloc, plan, given, out),
        "report" => printed::report_case(alloc, plan, given, out),
        "write" => Ok(made::write_case(alloc, plan, out)?),
        "make" => made::make_case(alloc, given, out),
        "size" => made::size_case(alloc, given, out),
        _ => answer_alone(alloc, call, given, out),
    }
}

// Prints a line, and below it what it gave. A line `plan` sets the plan.
fn line_case(rt: &impl Print, alloc: Global, plan: &mut Plan, line: &str) -> anyhow::Result<()> {
    let (call, given) = parted(line, ' ');
    let mut text = String::new(alloc);
    match call {
        "#" => {}
        "plan" => *plan = made::read_plan(alloc, given)?,
        _ => answer(alloc, plan, call, given, &mut text)?,
    }
    print!(rt; "{line}\n{text}")?;
    Ok(())
}

// Goes through the lines of the input.
fn answer_all(rt: &(impl Input + Print), alloc: Global, plan: &mut Plan) -> anyhow::Result<()> {
    for line in rt.lines(alloc) {
        line_case(rt, alloc, plan, line?.as_str())?;
    }
    Ok(())
}

fn main(rt: HostRuntime) -> anyhow::Result<()> {
    let mut plan = make_plan(rt.alloc(), 1)?;
    answer_all(&rt, rt.alloc(), &mut plan)
}
