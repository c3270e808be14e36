// The steps of a JSON path, and the texts that it selects.

use crate::texts::Shown;
use jm_base::Text;
use json_path::{JsonPath, PathError, Step, parse_path, select};
use serde_json::Value;
use std::alloc::{AllocError, Global};

// The reading alone. What it promises is left out here, so that no proof above carries it along.
fn read(alloc: Global, text: &[u8]) -> anyhow::Result<Result<JsonPath, PathError>> {
    if text.len() > 65536 {
        anyhow::bail!("the path has more than 65,536 bytes");
    }
    Ok(parse_path(alloc, text))
}

/// One step.
fn write_step(step: &Step, out: &mut String) -> Result<(), AllocError> {
    match step {
        Step::Name(name) => write!(out, " name '{}'", Shown(name.bytes())),
        Step::Index(place) => write!(out, " place {place}"),
        Step::All => out.push_str(" all"),
    }
}

fn write_steps(path: &JsonPath, out: &mut String) -> Result<(), AllocError> {
    out.push_str(" => steps")?;
    for step in path.steps() {
        write_step(step, out)?;
    }
    Ok(())
}

/// The steps of a path, or why it is not read.
pub fn answer(alloc: Global, text: &[u8], out: &mut String) -> anyhow::Result<()> {
    match read(alloc, text)? {
        Ok(path) => write_steps(&path, out)?,
        Err(error) => write!(out, " => {error}")?,
    }
    Ok(())
}

fn write_texts(texts: &[Text], out: &mut String) -> Result<(), AllocError> {
    out.push_str(" => values")?;
    for text in texts {
        write!(out, " '{}'", Shown(text.bytes()))?;
    }
    Ok(())
}

/// The texts that a path selects from a JSON value.
pub fn selection(alloc: Global, text: &[u8], body: &str, out: &mut String) -> anyhow::Result<()> {
    let path = read(alloc, text)??;
    let Ok(value) = Value::from_str(alloc, body) else {
        anyhow::bail!("the value is not JSON");
    };
    let texts = select(alloc, &path, &value)?;
    write_texts(&texts, out)?;
    Ok(())
}
