// Plans that are read, made and written.

use crate::words::{plain, small};
use anyhow::bail;
use element_tree::{BuildError, Kind, Plan, RegexPatterns, build, write_plan};
use jm_base::{M, ScriptReply};
use plan_json::{RawElement, TreeError, read_tree};
use plan_maker::{SIZE_LIMIT, make_plan};
use std::alloc::{AllocError, Global};

// The tree of a text. What this call and the next promise is left out here, so that no proof above carries it along.
fn tree_of(alloc: Global, text: &str) -> Result<RawElement, TreeError> {
    read_tree(alloc, text.as_bytes())
}

// The plan of a tree.
fn built(alloc: Global, tree: &RawElement) -> Result<Plan, BuildError> {
    let mut patterns = RegexPatterns::new(Vec::new(alloc));
    build(alloc, tree, &mut patterns)
}

/// The plan of a text.
pub fn read_plan(alloc: Global, text: &str) -> anyhow::Result<Plan> {
    let tree = tree_of(alloc, text)?;
    let plan = built(alloc, &tree)?;
    Ok(plan)
}

// The plan of a size.
fn made(alloc: Global, given: &str) -> anyhow::Result<Plan> {
    let size = small(given);
    if size < 1 || size > SIZE_LIMIT {
        bail!("no size {size}");
    }
    Ok(make_plan(alloc, size)?)
}

fn written(alloc: Global, plan: &Plan) -> M<Vec<u8>> {
    write_plan(alloc, plan)
}

/// The plan as it is written.
pub fn write_case(alloc: Global, plan: &Plan, out: &mut String) -> M<()> {
    let bytes = written(alloc, plan)?;
    write!(out, "= {}\n", plain(&bytes))?;
    Ok(())
}

/// The plan of a size, as it is written.
pub fn make_case(alloc: Global, given: &str, out: &mut String) -> anyhow::Result<()> {
    let plan = made(alloc, given)?;
    write_case(alloc, &plan, out)?;
    Ok(())
}

/// How many elements and labels the plan of a size has, and its last element.
pub fn size_case(alloc: Global, given: &str, out: &mut String) -> anyhow::Result<()> {
    let plan = made(alloc, given)?;
    let Some(last) = plan.elements().last() else {
        bail!("no element");
    };
    write!(
        out,
        "= {} elements, {} labels\n= {} of {}\n",
        plan.elements().len(),
        plan.labels(),
        plain(last.name.bytes()),
        last.parent
    )?;
    if let Kind::Script { replies, .. } = &last.kind {
        write_replies(replies.as_slice(), out)?;
    }
    Ok(())
}

// Writes a line for each reply.
fn write_replies(replies: &[ScriptReply], out: &mut String) -> Result<(), AllocError> {
    for reply in replies {
        write!(out, "= code {}, {} ms\n", reply.code, reply.ms)?;
    }
    Ok(())
}
