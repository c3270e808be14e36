// What a text is worth as a condition.

use crate::texts::Shown;
use cond_expr::{Cond, CondError, CondValue, eval, parse_cond};
use std::alloc::{AllocError, Global};

// The reading alone. What it promises is left out here, so that no proof above carries it along.
fn read(alloc: Global, text: &[u8]) -> anyhow::Result<Result<Cond, CondError>> {
    if text.len() > 65536 {
        anyhow::bail!("the condition has more than 65,536 bytes");
    }
    Ok(parse_cond(alloc, text))
}

/// A value, and which kind it is of.
fn write_value(value: &CondValue, out: &mut String) -> Result<(), AllocError> {
    match value {
        CondValue::Number(number) => write!(out, " => number {number}"),
        CondValue::Text(text) => write!(out, " => text '{}'", Shown(text.bytes())),
        CondValue::Truth(truth) => write!(out, " => truth {truth}"),
    }
}

/// The value of a condition, or why it has none.
fn write_worth(alloc: Global, cond: &Cond, out: &mut String) -> Result<(), AllocError> {
    match eval(alloc, cond) {
        Ok(value) => write_value(&value, out),
        Err(error) => write!(out, " => no value: {error}"),
    }
}

/// The value of a condition, or why it is not read or has no value.
pub fn answer(alloc: Global, text: &[u8], out: &mut String) -> anyhow::Result<()> {
    match read(alloc, text)? {
        Ok(cond) => write_worth(alloc, &cond, out)?,
        Err(error) => write!(out, " => not read: {error}")?,
    }
    Ok(())
}
