//! Runs the cases of `element_props`: each line of its input is a case, which it prints, and below it what the call gave.
//! A line that begins with `#` is a heading. In a case `@TEXT*COUNT@` stands for the text as often as the count says, and `\xNN` for a byte.
//!
//! - `read FORM JSON`: the property `p` under the form, among `maximum`, `names` and `test`; the element stands at `/children/7`.
//! - `failing CALLS FORM JSON`: the same where the calls of the maker of patterns with these numbers answer that a text is too large.
//! - `table JSON`: the properties of a table in which every kind of default stands.
//! - `rewritten JSON`: the same, as they are written.
//! - `written TEXT`: a text as it is written.
//! - `maker CALLS`: a maker of patterns for the lines `make PATTERN` below it.
//! - `condition TEMPLATE`: the first condition that can't be read.
//! - `path PLACES NAME`, `words LIST`, `refusals`: the path of a property, the texts of a list, the texts of each refusal.
#![tactic(auto)]

mod calls;
mod case_text;
mod forms;
mod refusals;
mod show;

use calls::{condition, made, path, read, rewritten, table, written};
use case_text::{bytes_of, expanded, numbers};
use element_props::{RegexPatterns, written_is_read_again};
use forms::{form_named, words_named};
use refusals::refusals;
use show::words_shown;
use std::alloc::Global;

/// What a property under a form is, where these calls of the maker fail.
fn read_case(alloc: Global, failing: &str, rest: &str) -> anyhow::Result<String> {
    let (form, json) = rest.split_once(' ').unwrap_or((rest, ""));
    let Some(form) = form_named(form) else {
        return Ok(format!(in alloc; "no such form")?);
    };
    let json = expanded(alloc, json)?;
    let patterns = RegexPatterns::new(numbers(alloc, failing)?);
    read(alloc, form, json.as_str(), patterns)
}

fn failing_case(alloc: Global, rest: &str) -> anyhow::Result<String> {
    let (failing, rest) = rest.split_once(' ').unwrap_or((rest, ""));
    read_case(alloc, failing, rest)
}

fn path_case(alloc: Global, rest: &str) -> anyhow::Result<String> {
    let (places, name) = rest.split_once(' ').unwrap_or((rest, ""));
    path(alloc, places, name)
}

fn words_case(alloc: Global, rest: &str) -> anyhow::Result<String> {
    match words_named(rest) {
        Some(words) => words_shown(alloc, words),
        None => Ok(format!(in alloc; "no such list")?),
    }
}

/// What a case of one line gives.
fn run_case(alloc: Global, call: &str, rest: &str) -> anyhow::Result<String> {
    match call {
        "read" => read_case(alloc, "", rest),
        "failing" => failing_case(alloc, rest),
        "table" => table(alloc, rest),
        "rewritten" => rewritten(alloc, rest),
        "written" => written(alloc, bytes_of(alloc, rest)?.as_slice()),
        "condition" => condition(alloc, rest),
        "path" => path_case(alloc, rest),
        "words" => words_case(alloc, rest),
        "refusals" => refusals(alloc),
        _ => Ok(format!(in alloc; "no such case")?),
    }
}

fn main(rt: HostRuntime) -> anyhow::Result<()> {
    let alloc = rt.alloc();
    written_is_read_again();
    let mut patterns = RegexPatterns::new(Vec::new(alloc));
    for line in rt.lines(alloc) {
        let line = line?;
        let (call, rest) = line.as_str().split_once(' ').unwrap_or((line.as_str(), ""));
        println!(rt; "{line}")?;
        if call == "#" {
            continue;
        }
        if call == "maker" {
            patterns = RegexPatterns::new(numbers(alloc, rest)?);
        } else if call == "make" {
            let text = made(alloc, expanded(alloc, rest)?.as_str(), &mut patterns)?;
            println!(rt; "= {text}")?;
        } else {
            let text = run_case(alloc, call, rest)?;
            println!(rt; "= {text}")?;
        }
    }
    Ok(())
}
