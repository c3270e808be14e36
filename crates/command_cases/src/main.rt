//! Runs the cases of the command line that stand in its input, and prints each line of it with what came of it.
//!
//! - `plan:TEXT` gives the plan of the runs after it, and `bytes:TEXT` one in which `\xNN` stands for a byte.
//! - `jm|WORD|WORD` runs the program on these words; after a ` ; ` stand the numbers of the calls that fail, as `reads=0`,
//!   `results=0`, `reports=0` and `patterns=0`, and the answers of the ticker, as `ticks=10`. The status follows, then the results
//!   after `>`, the reports after `!`.
//! - `tally|WORD|WORD` does the same, and prints of results and reports what does not depend on the interval of a sample.
//! - `words|WORD|WORD` reads the words alone, and `errors` shows the errors of that.
//!
//! In a plan and in words `⟨3|,|a#⟩` stands for `a0,a1,a2`. Any other line is a title.
#![tactic(auto)]

mod read;
mod run;
mod show;
mod texts;

use read::{print_errors, print_words};
use run::{print_run, print_tally_of};
use texts::{unescaped, unfolded};

fn main(rt: HostRuntime) -> anyhow::Result<()> {
    let alloc = rt.alloc();
    let mut plan = Vec::new(alloc);
    for line in rt.lines(alloc) {
        let line = line?;
        println!(rt; "{line}")?;
        if let Some(text) = line.strip_prefix("plan:") {
            plan = unfolded(alloc, text)?.into_bytes();
        } else if let Some(text) = line.strip_prefix("bytes:") {
            plan = unescaped(alloc, text)?;
        } else if let Some(words) = line.strip_prefix("jm") {
            print_run(&rt, alloc, words, &plan)?;
        } else if let Some(words) = line.strip_prefix("tally") {
            print_tally_of(&rt, alloc, words, &plan)?;
        } else if let Some(words) = line.strip_prefix("words") {
            print_words(&rt, alloc, words)?;
        } else if line.as_str() == "errors" {
            print_errors(&rt)?;
        }
    }
    Ok(())
}
