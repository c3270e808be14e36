// Plans, and why a text is not one.

ghost use Rattle.std.specs.Prelude.{◌≡◌, ◌<◌, length};
ghost use Rattle.scope_resolver.specs.Scoping.{same_class, is_of_class};

use crate::calls;
use crate::words::word;
use element_tree::{Class, Element, Kind, Package, Plan, RegexPatterns};
use jm_base::M;
use node_table::Links;
use plan_json::RawElement;
use std::alloc::{AllocError, Global};

/// What is asked of a plan.
#[derive(Clone, Copy)]
pub enum Asked {
    /// How much there is of everything.
    Counts,
    /// All that it tells.
    All,
    /// How it is written, and how the plan of what is written is.
    Text,
    /// Whether all threads' budgets of that many samples fit.
    Fits(u32),
    /// What applies to the element of this number.
    Package(u16),
    /// What is kept for the sampler of this number in a table of the plan.
    Kept(u16),
    /// Where a run goes on from each element, and the element whose rounds it is in.
    Links,
}

/// What is asked of the plan of a text, or why it is not one.
pub fn answer(
    alloc: Global,
    too_large: &[u32],
    asked: Asked,
    text: &[u8],
    out: &mut String,
) -> anyhow::Result<()> {
    out.push_str("= ")?;
    match plan_of(alloc, too_large, text, out)? {
        Some(plan) => write_asked(alloc, too_large, asked, &plan, out),
        None => Ok(out.push_str("\n")?),
    }
}

fn write_asked(
    alloc: Global,
    too_large: &[u32],
    asked: Asked,
    plan: &Plan,
    out: &mut String,
) -> anyhow::Result<()> {
    match asked {
        Asked::Counts => Ok(write_counts(plan, out)?),
        Asked::All => Ok(write_all(alloc, plan, out)?),
        Asked::Text => write_written(alloc, too_large, plan, out),
        Asked::Fits(budget) => Ok(write!(out, "{}\n", plan.samples_fit(budget))?),
        Asked::Package(number) => Ok(write_package(&calls::package(alloc, plan, number)?, out)?),
        Asked::Kept(number) => write_kept(alloc, plan, number, out),
        Asked::Links => Ok(write_links(alloc, plan, out)?),
    }
}

// The plan of a text, or nothing where the refusal is written.
fn plan_of(
    alloc: Global,
    too_large: &[u32],
    text: &[u8],
    out: &mut String,
) -> Result<Option<Plan>, AllocError> {
    match calls::read_tree(alloc, text) {
        Ok(tree) => plan_of_tree(alloc, too_large, &tree, out),
        Err(error) => {
            write!(out, "{error:?}")?;
            Ok(None)
        }
    }
}

// The plan of a tree, or nothing where the refusal is written.
fn plan_of_tree(
    alloc: Global,
    too_large: &[u32],
    tree: &RawElement,
    out: &mut String,
) -> Result<Option<Plan>, AllocError> {
    let mut patterns = RegexPatterns::new(Vec::from_slice(alloc, too_large)?);
    match calls::build(alloc, tree, &mut patterns) {
        Ok(plan) => Ok(Some(plan)),
        Err(error) => {
            write!(out, "{error:?}")?;
            Ok(None)
        }
    }
}

fn write_counts(plan: &Plan, out: &mut String) -> Result<(), AllocError> {
    write!(
        out,
        "version {}, elements {}, threads {}, labels {}, locks {}\n",
        plan.version(),
        plan.elements().len(),
        plan.threads(),
        plan.labels(),
        plan.locks()
    )
}

// A plan as it is written, and on a line below the plan of that text as it is written.
fn write_written(
    alloc: Global,
    too_large: &[u32],
    plan: &Plan,
    out: &mut String,
) -> anyhow::Result<()> {
    let text = calls::write_plan(alloc, plan)?;
    write!(out, "{}\n  ", std::str::from_utf8(&text)?)?;
    if let Some(plan) = plan_of(alloc, too_large, &text, out)? {
        let again = calls::write_plan(alloc, &plan)?;
        out.push_str(std::str::from_utf8(&again)?)?;
    }
    out.push_str("\n")?;
    Ok(())
}

// What applies to an element, class by class.
fn write_package(package: &Package, out: &mut String) -> Result<(), AllocError> {
    write!(
        out,
        "config {:?}, pre {:?}, timers {:?}, post {:?}, assertions {:?}, listeners {:?}\n",
        package.config,
        package.pre,
        package.timers,
        package.post,
        package.assertions,
        package.listeners
    )
}

fn is_sampler_class(class: Class) -> bool
    ensures { result ≡ same_class (Class.Sampler) class }
{
    matches!(class, Class::Sampler)
}

// Whether the element of this number is a sampler.
fn is_sampler(plan: &Plan, number: u16) -> bool
    ensures { result ≡ is_of_class plan.now.elements (Class.Sampler) number }
{
    match plan.element(number) {
        Some(element) => is_sampler_class(element.kind.element_type().class()),
        None => false,
    }
}

// What a table of the plan keeps for a sampler.
fn write_kept(alloc: Global, plan: &Plan, number: u16, out: &mut String) -> anyhow::Result<()> {
    let table = calls::node_table(alloc, plan)?;
    if is_sampler(plan, number) {
        let kept = table.package(number);
        return Ok(write_package(kept, out)?);
    }
    anyhow::bail!("no sampler: {number}");
}

// The children of an element that run, by their places from 0 on.
fn children(alloc: Global, links: &Links, number: u16) -> M<Vec<u16>> {
    let mut children = Vec::new(alloc);
    for place in 0..u16::MAX {
        match links.child(number, place) {
            Some(child) => children.push(child)?,
            None => return Ok(children),
        }
    }
    Ok(children)
}

// The links of each element, a line each.
fn write_links(alloc: Global, plan: &Plan, out: &mut String) -> M<()> {
    let links = calls::links(alloc, plan)?;
    write!(out, "elements {}\n", plan.elements().len())?;
    for number in 0..plan.elements().len() as u16 {
        let runs = children(alloc, &links, number)?;
        write!(
            out,
            "  {number} runs {runs:?}, first {:?}, after {:?}, in the rounds of {}\n",
            links.first(number),
            links.after(number),
            links.looping(number)
        )?;
    }
    Ok(())
}

// All that a plan tells: how much there is, each element, each thread, each label, and the first request without replies.
fn write_all(alloc: Global, plan: &Plan, out: &mut String) -> M<()> {
    write_counts(plan, out)?;
    write_elements(plan, out)?;
    write_threads(alloc, plan, out)?;
    write_labels(plan, out)?;
    write!(out, "  without replies: {:?}\n", plan.without_replies())?;
    Ok(())
}

fn write_elements(plan: &Plan, out: &mut String) -> Result<(), AllocError> {
    let count = plan.elements().len() as u16;
    for number in 0..count {
        if let Some(element) = plan.element(number) {
            write_element(number, element, out)?;
            write_names(plan, number, &element.kind, out)?;
        }
    }
    out.push_str(match plan.element(count) {
        Some(_) => "  one more element\n",
        None => "  no more elements\n",
    })
}

fn write_element(number: u16, element: &Element, out: &mut String) -> Result<(), AllocError> {
    write!(
        out,
        "  {number} {:?} {:?} below {}, above {:?}",
        element.kind.element_type(),
        word(&element.name),
        element.parent,
        element.children.as_slice()
    )
}

// The label of an element that gives samples, and the lock of a critical section.
fn write_names(plan: &Plan, number: u16, kind: &Kind, out: &mut String) -> Result<(), AllocError>
    requires { number < length plan.now.elements }
{
    match kind {
        Kind::Script { .. } | Kind::Http { .. } | Kind::Transaction => {
            write!(out, ", label {}\n", plan.label_of(number))
        }
        Kind::CriticalSection { .. } => write!(out, ", lock {}\n", plan.lock_of(number)),
        _ => out.push_str("\n"),
    }
}

fn write_threads(alloc: Global, plan: &Plan, out: &mut String) -> M<()> {
    for number in 0..plan.threads() {
        let thread = plan.thread(number);
        let group = plan.group_of(number);
        let name = plan.thread_name(alloc, number)?;
        write!(
            out,
            "  thread {number} {:?}, {thread:?}, group at {group}\n",
            word(&name)
        )?;
    }
    Ok(())
}

fn write_labels(plan: &Plan, out: &mut String) -> Result<(), AllocError> {
    for label in 0..plan.labels() {
        write!(out, "  label {label} {:?}\n", word(plan.label_text(label)))?;
    }
    Ok(())
}
