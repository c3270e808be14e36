//! Runs the cases of a plan's tree. It prints each line of its input and, after the line of a case, what the call gave.
//!
//! A line begins with a word: `read` (the tree of a text), `build` (its plan, or the first refusal), `plan` (all that the
//! plan tells), `write` (the plan as it is written, and the same of what is written), `fits N` (whether the threads' budgets
//! of N samples fit), `package N` (what applies to the element N), `table N` (the same of a sampler, out of a table of the
//! plan), `links` (where a run goes on from each element) or `path` (a path as it is printed). What follows is a text, or one
//! that `source` makes of a short description. `within BEFORE@AFTER` sets what stands around the texts of the
//! cases below, and `too-large N..` which patterns are too large, counted from 0. Any other line is a title.
#![tactic(auto)]

mod calls;
mod cases;
mod path;
mod plan;
mod sketch;
mod source;
mod tree;
mod words;

use cases::Settings;
use std::alloc::Global;

/// Prints a line, and below it what it gave.
fn answer(
    rt: &impl Print,
    alloc: Global,
    settings: &mut Settings,
    line: &str,
) -> anyhow::Result<()> {
    let mut given = String::new(alloc);
    cases::answer(alloc, settings, line, &mut given)?;
    print!(rt; "{line}\n{given}")?;
    Ok(())
}

/// Goes through the lines of the input.
fn answer_all(
    rt: &(impl Input + Print),
    alloc: Global,
    settings: &mut Settings,
) -> anyhow::Result<()> {
    for line in rt.lines(alloc) {
        answer(rt, alloc, settings, line?.as_str())?;
    }
    Ok(())
}

fn main(rt: HostRuntime) -> anyhow::Result<()> {
    let mut settings = Settings::new(rt.alloc());
    answer_all(&rt, rt.alloc(), &mut settings)
}
