// Trees of elements as they are written.

use crate::calls;
use crate::words::word;
use plan_json::RawElement;
use std::alloc::{AllocError, Global};

/// The tree that a text is, an element a line, or why it is not one.
pub fn answer(alloc: Global, text: &[u8], out: &mut String) -> anyhow::Result<()> {
    out.push_str("= ")?;
    match calls::read_tree(alloc, text) {
        Ok(tree) => show(alloc, &tree, "  ", out)?,
        Err(error) => write!(out, "{error:?}: {error}\n")?,
    }
    Ok(())
}

// Appends an element, and after it those below it, each of them this far from the edge.
fn show(
    alloc: Global,
    element: &RawElement,
    margin: &str,
    out: &mut String,
) -> Result<(), AllocError> {
    show_one(element, out)?;
    let deeper = format!(in alloc; "{margin}  ")?;
    for child in &element.children {
        out.push_str(margin)?;
        show(alloc, child, deeper.as_str(), out)?;
    }
    Ok(())
}

// Appends an element alone.
fn show_one(element: &RawElement, out: &mut String) -> Result<(), AllocError> {
    let enabled = if element.enabled {
        "enabled"
    } else {
        "disabled"
    };
    write!(
        out,
        "{:?} named {:?}, {enabled}, {}\n",
        word(&element.kind),
        word(&element.name),
        element.props
    )
}
