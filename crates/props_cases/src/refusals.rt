// The texts of the refusals.

use element_props::{BuildError, MakeError, PatternFault, What};
use jm_base::NoMemory;
use plan_json::Path;
use std::alloc::Global;

fn root(alloc: Global) -> Path {
    Path {
        places: Vec::new(alloc),
        prop: None,
    }
}

/// Adds a refusal's text.
fn push(out: &mut String, alloc: Global, error: BuildError) -> anyhow::Result<()> {
    let text = format!(in alloc; "{error}; ")?;
    out.push_str(text.as_str())?;
    Ok(())
}

/// Adds the texts of the refusals of an element, and of where it stands.
fn push_of_elements(out: &mut String, alloc: Global) -> anyhow::Result<()> {
    let path = root(alloc);
    let what = What::Elements;
    push(out, alloc, BuildError::UnknownType { path: root(alloc) })?;
    push(out, alloc, BuildError::MissingProp { path: root(alloc) })?;
    push(out, alloc, BuildError::BadProp { path: root(alloc) })?;
    push(out, alloc, BuildError::TooMany { path, what })?;
    push(out, alloc, BuildError::TooDeep { path: root(alloc) })?;
    push(out, alloc, BuildError::WrongPlace { path: root(alloc) })
}

/// Adds the texts of the refusals of what a property holds, and of a whole plan.
fn push_of_values(out: &mut String, alloc: Global) -> anyhow::Result<()> {
    let path = root(alloc);
    let why = PatternFault::Size;
    push(out, alloc, BuildError::BadPattern { path, why })?;
    let path = root(alloc);
    push(out, alloc, BuildError::BadCond { path, at: 3 })?;
    push(out, alloc, BuildError::NoReplies { path: root(alloc) })?;
    push(out, alloc, BuildError::NoThread)?;
    push(out, alloc, BuildError::from(NoMemory))
}

/// The text of each refusal of a plan, and of the maker's.
pub fn refusals(alloc: Global) -> anyhow::Result<String> {
    let mut out = String::new(alloc);
    push_of_elements(&mut out, alloc)?;
    push_of_values(&mut out, alloc)?;
    let makers = format!(in alloc;
        "{}; {}; {}",
        MakeError::Syntax,
        MakeError::Size,
        MakeError::NoMemory
    )?;
    out.push_str(makers.as_str())?;
    Ok(out)
}
