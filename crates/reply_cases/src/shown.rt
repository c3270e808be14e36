// Variables as the output shows them.

use std::alloc::{AllocError, Global};
use std::fmt;
use var_functions::{VarError, Vars};

/// The longest value that is shown whole.
const MOST_SHOWN: usize = 60;

/// A value with escapes for bytes that do not print; a long one by its length and its first bytes.
#[derive(Clone, Copy)]
pub struct Shown<'v>(pub &'v [u8]);

impl fmt::Display for Shown<'_> {
    fn fmt<W: fmt::Write>(&self, f: &mut fmt::Formatter<W>) -> fmt::Result {
        let value = self.0;
        if value.len() > MOST_SHOWN {
            return write!(f, "{} bytes: {}..", value.len(), value[..8].escape_ascii());
        }
        write!(f, "{}", value.escape_ascii())
    }
}

/// Writes a variable, where it is defined.
fn write_variable(vars: &Vars, name: &str, out: &mut String) -> Result<(), AllocError> {
    match vars.get(name.as_bytes()) {
        Some(value) => write!(out, "\t{name}={}", Shown(value.bytes())),
        None => Ok(()),
    }
}

/// Writes those of these variables that are defined.
pub fn write_variables(vars: &Vars, names: &[String], out: &mut String) -> Result<(), AllocError> {
    for name in names {
        write_variable(vars, name.as_str(), out)?;
    }
    Ok(())
}

/// Writes a match: its value and its groups, of which the first four are looked for.
fn write_match(
    alloc: Global,
    vars: &Vars,
    name: &str,
    number: &str,
    out: &mut String,
) -> Result<(), AllocError> {
    for group in ["", "_g", "_g0", "_g1", "_g2", "_g3"] {
        let name = format!(in alloc; "{name}{number}{group}")?;
        write_variable(vars, name.as_str(), out)?;
    }
    Ok(())
}

/// Writes what an extractor may have set under a name: the count, the match, and the first four of many.
pub fn write_extracted(
    alloc: Global,
    vars: &Vars,
    name: &str,
    out: &mut String,
) -> Result<(), AllocError> {
    let count = format!(in alloc; "{name}_matchNr")?;
    write_variable(vars, count.as_str(), out)?;
    for number in ["", "_1", "_2", "_3", "_4"] {
        write_match(alloc, vars, name, number, out)?;
    }
    Ok(())
}

/// How a call ended.
pub fn ending(came: Result<(), VarError>) -> &'static str {
    match came {
        Ok(()) => "ok",
        Err(VarError::ValueLimit) => "limit",
        Err(VarError::NoMemory) => "no memory",
    }
}
