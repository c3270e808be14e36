//! Runs the cases of extractors, assertions, whole samplers and rounds. Each line of the input is a call or what the calls after it are made on; its
//! fields are parted by one tab. A byte of a field may be written as `\n`, `\xNN` and so on, a backslash as `\\`, and a
//! field `@N:TEXT` is the text N times, `@N:TEXT@M:TEXT` such texts one after another.
//!
//! - `vars NAME=VALUE ..`: the variables, anew.
//! - `reply CODE MESSAGE HEADERS BODY ELAPSED`: the reply.
//! - `regex REF PATTERN TEMPLATE MATCH FIELD PICK [DEFAULT]`, `json REF PATH MATCH PICK [DEFAULT]`,
//!   `bounds REF LEFT RIGHT MATCH FIELD PICK [DEFAULT]`: an extractor on the variables as they stand. It prints `ok`, `limit` or
//!   `no memory`, and the variables that are defined of those that the call may set: `REF` and what begins with it, up to match 4
//!   and group 3; and those that the last line `look NAME ..` has.
//! - `check response TEST FIELD FLAGS PATTERN ..`, `check duration MS`, `check size OP SIZE`: an assertion, with flags `n`, `o`
//!   and `i` for `not`, `or` and `ignoreStatus`, or `-`. It prints whether it holds.
//! - `regexes REF PATTERN TEMPLATE MATCH FIELD PICK TEXT ..`: an extraction from each of these texts, by searches that are kept from
//!   one to the next. It prints a line for each as `regex` does.
//! - `checks TEST FLAGS COUNT PATTERN .. BODY ..`: whether a Response Assertion of that many patterns holds of each body, by kept
//!   searches too.
//! - `repeat N`: each extractor after it is called N times, a regular expression's by kept searches.
//! - `plan JSON`: the first thread of this plan, with the variables of the line `vars` before it, over the plan's own replies.
//! - `round`: a round of it begins. It prints `true`, `false`, `limit` or `no memory`, and the variables of `look`.
//! - `sampler N`: the element of this number runs, with its package. It prints the sample (stamp, elapsed time, label, code,
//!   message, success, failure text, bytes, listeners), `null`, `limit` or `no memory`, the pause before it, the elements that took
//!   part so far or last, and the variables of `look`.
//! - `told`: what the outside of the thread was asked so far.
//! - `asked`: the requests among that in full: `script` and the text, or `http`, the host, the port and the bytes.
//!
//! Any other line is for a reader alone. A value of more than 60 bytes is shown by its length and its first 8 bytes.
#![tactic(auto)]

mod calls;
mod cases;
mod checks;
mod extractors_read;
mod samplers;
mod shown;
mod words;

use cases::Cases;
use std::alloc::Global;

/// Prints what a line gave, if anything.
fn answer(rt: &impl Print, alloc: Global, cases: &mut Cases, line: &str) -> anyhow::Result<()> {
    let mut given = String::new(alloc);
    cases.run(alloc, line, &mut given)?;
    if !given.is_empty() {
        println!(rt; "{given}")?;
    }
    Ok(())
}

/// Goes through the lines of the input.
fn answer_all(rt: &(impl Input + Print), alloc: Global, cases: &mut Cases) -> anyhow::Result<()> {
    for line in rt.lines(alloc) {
        answer(rt, alloc, cases, line?.as_str())?;
    }
    Ok(())
}

fn main(rt: HostRuntime) -> anyhow::Result<()> {
    let mut cases = Cases::new(rt.alloc())?;
    answer_all(&rt, rt.alloc(), &mut cases)
}
