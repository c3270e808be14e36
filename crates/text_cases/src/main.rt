//! Runs the cases of the texts: templates, conditions, JSON paths, schedules, and the expansion of templates with variables,
//! properties and functions. Each line of the input is a case or a setting of the cases after it, and its first word says
//! which. The line is printed again, and after `=>` what the call gave; `stdout` has what must come. A byte of a text may be
//! written as `\n`, `\xNN` and so on, a backslash as `\\`, and the text `@` is the one that the lines `add` before it have put
//! together. A text of more than 200 bytes is shown by its length and its MD5.
#![tactic(auto)]

mod cases;
mod conditions;
mod expansions;
mod paths;
mod schedules;
mod templates;
mod texts;

use cases::Cases;
use std::alloc::Global;

/// Prints a line, and what it gave after it.
fn answer(rt: &impl Print, alloc: Global, cases: &mut Cases, line: &str) -> anyhow::Result<()> {
    let mut given = String::new(alloc);
    cases.run(alloc, line, &mut given)?;
    println!(rt; "{line}{given}")?;
    Ok(())
}

/// Goes through the lines of the input.
fn answer_all(rt: &(impl Input + Print), alloc: Global, cases: &mut Cases) -> anyhow::Result<()> {
    for line in rt.lines(alloc) {
        answer(rt, alloc, cases, line?.as_str())?;
    }
    Ok(())
}

fn main(rt: HostRuntime) -> anyhow::Result<()> {
    let mut cases = Cases::new(rt.alloc())?;
    answer_all(&rt, rt.alloc(), &mut cases)
}
