// Paths as they are printed.

use crate::calls;
use crate::source::push_bytes;
use crate::words::word;
use jm_base::{M, Text};
use plan_json::Path;
use std::alloc::Global;

/// The path of these steps, with the property after `;` where one is given, as its text and as it is displayed.
pub fn answer(alloc: Global, description: &str, out: &mut String) -> anyhow::Result<()> {
    let (steps, prop) = match description.split_once(";") {
        Some((steps, name)) => (steps, Some(bytes_of(alloc, name)?)),
        None => (description, None),
    };
    let path = Path {
        places: places(alloc, steps)?,
        prop,
    };
    write_path(alloc, &path, out)?;
    Ok(())
}

fn write_path(alloc: Global, path: &Path, out: &mut String) -> M<()> {
    let text = calls::path_text(alloc, path)?;
    write!(out, "= {} and {path}\n", word(&text))?;
    Ok(())
}

// A text in which `\xNN` stands for a byte.
fn bytes_of(alloc: Global, text: &str) -> anyhow::Result<Text> {
    let mut bytes = Vec::new(alloc);
    push_bytes(&mut bytes, text)?;
    Ok(Text::of(bytes))
}

// The steps of a path, with spaces between them.
fn places(alloc: Global, steps: &str) -> anyhow::Result<Vec<u64>> {
    let mut all = Vec::new(alloc);
    for step in steps.split_whitespace() {
        all.push(step.parse::<u64>()?)?;
    }
    Ok(all)
}
