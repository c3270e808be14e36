//! Runs the cases of what a thread of a plan does: the turns of its controllers, the answers of the plan's own replies, and
//! whole threads.
//!
//! Each line of the input is printed again. Its first word says what it is. A case is followed by what it gave:
//!
//! - `run KIND PROPERTIES`: the turns of a controller of this type, element 2 of its plan, with these properties;
//! - `script CALLS`: the answers of the outside over a plan's own replies to calls with `, ` between them, after `told` or
//!   `silent`, which says whether it keeps the list of them;
//! - `solo WORDS`: a thread of a plan from its start to its end; `worker WORDS`: the same a step at a time;
//! - `moves HOW`: the first two moves of a plan's first thread, and two more after a sample and a way out.
//!
//! Any other line is a setting of the cases after it: its first word is the name, the rest the value. `children` and `plan` begin
//! anew, with no other setting.
#![tactic(auto)]

mod controllers;
mod outsides;
mod scenes;
mod settings;
mod show;
mod threads;

use settings::Settings;
use show::print_lines;
use std::alloc::Global;

/// Writes what a case gave, and nothing where the line is a setting.
fn run(
    alloc: Global,
    settings: &mut Settings,
    word: &str,
    rest: &str,
    out: &mut String,
) -> anyhow::Result<()> {
    match word {
        "run" => scenes::turns(alloc, settings, rest, out),
        "script" => outsides::answers(alloc, settings, rest, out),
        "solo" | "worker" | "moves" => threads::run(alloc, settings, word, rest, out),
        _ => settings.put(alloc, word, rest),
    }
}

/// Prints a line, and below it what it gave.
fn answer(
    rt: &impl Print,
    alloc: Global,
    settings: &mut Settings,
    line: &str,
) -> anyhow::Result<()> {
    let (word, rest) = line.split_once(' ').unwrap_or((line, ""));
    let mut given = String::new(alloc);
    run(alloc, settings, word, rest, &mut given)?;
    println!(rt; "{line}")?;
    print_lines(rt, alloc, given.as_str())
}

/// Goes through the lines of the input.
fn answer_all(
    rt: &(impl Input + Print),
    alloc: Global,
    settings: &mut Settings,
) -> anyhow::Result<()> {
    for line in rt.lines(alloc) {
        answer(rt, alloc, settings, line?.as_str())?;
    }
    Ok(())
}

fn main(rt: HostRuntime) -> anyhow::Result<()> {
    let mut settings = Settings::new(rt.alloc());
    answer_all(&rt, rt.alloc(), &mut settings)
}
