// What each line of the input asks for.

use crate::plan::{self, Asked};
use crate::source::{Frame, numbers, text_of};
use crate::{path, tree};
use std::alloc::Global;

/// What holds for the cases below.
#[derive(Drop)]
pub struct Settings {
    /// What stands around each text.
    frame: Frame,
    /// The patterns that are too large, counted from 0 in each case.
    too_large: Vec<u32>,
}

impl Settings {
    /// Nothing around the texts, and no pattern that is too large.
    pub fn new(alloc: Global) -> Settings {
        Settings {
            frame: Frame::new(alloc),
            too_large: Vec::new(alloc),
        }
    }
}

/// Writes what a line gives: the answer of a case, or nothing.
pub fn answer(
    alloc: Global,
    settings: &mut Settings,
    line: &str,
    out: &mut String,
) -> anyhow::Result<()> {
    let (word, rest) = line.split_once(" ").unwrap_or((line, ""));
    match word {
        "within" => settings.frame = Frame::of(alloc, rest)?,
        "too-large" => settings.too_large = numbers(alloc, rest)?,
        "path" => path::answer(alloc, rest, out)?,
        "fits" | "package" | "table" => {
            let (number, rest) = rest.split_once(" ").unwrap_or((rest, ""));
            on_text(alloc, settings, word, number, rest, out)?;
        }
        "read" | "build" | "plan" | "write" | "links" => {
            on_text(alloc, settings, word, "", rest, out)?;
        }
        _ => {}
    }
    Ok(())
}

// What a case asks of a plan, by its word and its number.
fn asked_of(word: &str, number: &str) -> anyhow::Result<Asked> {
    Ok(match word {
        "fits" => Asked::Fits(number.parse::<u32>()?),
        "package" => Asked::Package(number.parse::<u16>()?),
        "table" => Asked::Kept(number.parse::<u16>()?),
        "links" => Asked::Links,
        "plan" => Asked::All,
        "write" => Asked::Text,
        _ => Asked::Counts,
    })
}

// What is asked of the tree of a text, or of its plan.
fn on_text(
    alloc: Global,
    settings: &Settings,
    word: &str,
    number: &str,
    text: &str,
    out: &mut String,
) -> anyhow::Result<()> {
    let text = text_of(alloc, &settings.frame, text)?;
    if word == "read" {
        return tree::answer(alloc, &text, out);
    }
    let asked = asked_of(word, number)?;
    plan::answer(alloc, &settings.too_large, asked, &text, out)
}
