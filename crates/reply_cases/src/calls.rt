// The calls of cases. They have no clauses, so that no proof carries along what the calls promise.

use assertions::{Answer, check, check_with};
use config_elements::{ConfigState, begin_round};
use element_props::RegexPatterns;
use element_tree::{
    Assertion, BoundaryExtractor, BuildError, JsonExtractor, Plan, RegexExtractor, build,
};
use extractors::{extract_bounds, extract_json, extract_regex, extract_regex_with};
use jm_base::{Heard, M};
use outside_world::ScriptOutside;
use plan_json::{RawElement, TreeError, read_tree};
use reply_search::Searches;
use sampler_pipeline::{Done, run_one};
use scope_resolver::package;
use std::alloc::Global;
use var_functions::{FnState, Props, UserState, VarError, Vars};

/// A call of an extractor.
pub fn regex(
    alloc: Global,
    x: &RegexExtractor,
    text: &[u8],
    pick: u64,
    vars: &mut Vars,
) -> Result<(), VarError> {
    extract_regex(alloc, x, text, pick, vars)
}

/// A call of an extractor, by the searches that are kept from call to call.
pub fn regex_with<'p>(
    alloc: Global,
    x: &'p RegexExtractor,
    text: &[u8],
    pick: u64,
    searches: &mut Searches<'p>,
    vars: &mut Vars,
) -> Result<(), VarError> {
    extract_regex_with(alloc, x, text, pick, searches, vars)
}

/// A call of an extractor.
pub fn json(
    alloc: Global,
    x: &JsonExtractor,
    text: &[u8],
    pick: u64,
    vars: &mut Vars,
) -> anyhow::Result<Result<(), VarError>> {
    if x.path.bytes().len() > 65536 {
        anyhow::bail!("the path has more than 65,536 bytes");
    }
    Ok(extract_json(alloc, x, text, pick, vars))
}

/// A call of an extractor.
pub fn bounds(
    alloc: Global,
    x: &BoundaryExtractor,
    text: &[u8],
    pick: u64,
    vars: &mut Vars,
) -> Result<(), VarError> {
    extract_bounds(alloc, x, text, pick, vars)
}

/// A call of an assertion.
pub fn holds(alloc: Global, assertion: &Assertion, answer: &Answer) -> M<bool> {
    check(alloc, assertion, answer)
}

/// A call of an assertion, by the searches that are kept from call to call.
pub fn holds_with<'p>(
    alloc: Global,
    assertion: &'p Assertion,
    answer: &Answer,
    searches: &mut Searches<'p>,
) -> M<bool> {
    check_with(alloc, assertion, answer, searches)
}

// The tree that a text is.
fn tree_of(alloc: Global, text: &str) -> Result<RawElement, TreeError> {
    read_tree(alloc, text.as_bytes())
}

// The plan of a tree.
fn built(alloc: Global, tree: &RawElement) -> Result<Plan, BuildError> {
    let mut patterns = RegexPatterns::new(Vec::new(alloc));
    build(alloc, tree, &mut patterns)
}

/// The plan that a text is.
pub fn plan(alloc: Global, text: &str) -> anyhow::Result<Plan> {
    let tree = tree_of(alloc, text)?;
    let plan = built(alloc, &tree)?;
    Ok(plan)
}

/// What the functions of a thread keep at its start, without properties, with seed 0.
pub fn functions(alloc: Global) -> anyhow::Result<FnState> {
    let props = Props::read(alloc, b"")?;
    Ok(FnState::new(alloc, &props, 1, 0, 0)?)
}

/// What the first thread of a plan keeps before its first round.
pub fn config(alloc: Global, plan: &Plan) -> M<ConfigState> {
    let _threads = plan.threads();
    ConfigState::new(alloc, plan, 0)
}

/// A call of a round's start.
pub fn round(
    alloc: Global,
    config: &mut ConfigState,
    plan: &Plan,
    user: &mut UserState,
    outside: &mut ScriptOutside,
) -> Result<bool, VarError> {
    begin_round(alloc, config, plan, user, outside)
}

/// A sampler runs with its package.
pub fn sampler(
    alloc: Global,
    plan: &Plan,
    number: u16,
    user: &mut UserState,
    outside: &mut ScriptOutside,
    order: &mut Vec<u16>,
) -> Result<Done, VarError> {
    match package(alloc, plan, number) {
        Ok(scope) => run_one(alloc, plan, &scope, number, user, outside, order),
        Err(_) => Err(VarError::NoMemory),
    }
}

/// What an outside tells of what it was asked.
pub fn told(alloc: Global, outside: &ScriptOutside) -> M<Vec<Heard>> {
    match outside.told(alloc)? {
        Some(told) => Ok(told),
        None => Ok(Vec::new(alloc)),
    }
}
