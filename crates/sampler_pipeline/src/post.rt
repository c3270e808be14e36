// What a sampler does after its reply.

ghost use Rattle.std.specs.Prelude.{◌≡◌, [], Err, slice_get};
ghost use Rattle.jm_base.specs.Run.{over};
ghost use Rattle.jm_base.specs.Outside.{Account, Goes};
ghost use Rattle.var_functions.specs.Came.{CameTo};
ghost use Rattle.var_functions.specs.FunctionState.{IsLater};
ghost use Rattle.trials.specs.Tried.{giving, fine, past_limit};
ghost use Rattle.element_tree.specs.FormedPlan.{HasForms};
ghost use Rattle.sampler_pipeline.specs.SamplerPipeline.{by_kind, picking, extracts, post_process};
ghost use Rattle.sampler_pipeline.specs.PipelineCut.{cut_at, cut_extracting, cut_post};

use element_tree::{BoundaryExtractor, JsonExtractor, Kind, Plan, RegexExtractor};
use extractors::{extract_bounds, extract_json, extract_regex_with};
use itoa::Buffer;
use jm_base::Reply;
use reply_search::{Searches, field_of};
use std::alloc::Global;
use var_functions::{UserState, VarError};

// The word that picks a match, where one is taken at random.
fn pick(match_number: i32, state: &mut UserState) -> u64
    ensures came { (a : Account) → Goes a (picking match_number state.old) [] (over (fine result state.new)) a }
    ensures later { IsLater state.old.fns state.new.fns }
{
    if match_number == 0 {
        state.fns.draw()
    } else {
        0
    }
}

fn number_of_regex(x: &RegexExtractor) -> i32
    ensures { result ≡ x.now.match_ }
{
    x.match_
}

fn take_regex<'p>(
    alloc: Global,
    x: &'p RegexExtractor,
    reply: &Reply,
    state: &mut UserState,
    searches: &mut Searches<'p>,
) -> Result<(), VarError>
    ensures came { (a : Account) → CameTo a (extracts reply.now (Kind.RegexExtractor x.now) state.old) a
        (λ u. over (fine u state.new)) (over (past_limit state.new)) result }
    ensures later { IsLater state.old.fns state.new.fns }
    ensures cut { (a : Account) → result ≡ Err VarError.NoMemory → cut_extracting reply.now (Kind.RegexExtractor x.now) a state.old a state.new }
{
    let pick = pick(number_of_regex(x), state);
    let mut digits = Buffer::new();
    extract_regex_with(
        alloc,
        x,
        field_of(x.field, reply, &mut digits),
        pick,
        searches,
        &mut state.vars,
    )
}

fn number_of_json(x: &JsonExtractor) -> i32
    ensures { result ≡ x.now.match_ }
{
    x.match_
}

fn take_json(
    alloc: Global,
    x: &JsonExtractor,
    reply: &Reply,
    state: &mut UserState,
) -> Result<(), VarError>
    requires forms { HasForms (Kind.JsonExtractor x.now) }
    ensures came { (a : Account) → CameTo a (extracts reply.now (Kind.JsonExtractor x.now) state.old) a
        (λ u. over (fine u state.new)) (over (past_limit state.new)) result }
    ensures later { IsLater state.old.fns state.new.fns }
    ensures cut { (a : Account) → result ≡ Err VarError.NoMemory → cut_extracting reply.now (Kind.JsonExtractor x.now) a state.old a state.new }
{
    let pick = pick(number_of_json(x), state);
    extract_json(alloc, x, reply.body.bytes(), pick, &mut state.vars)
}

fn number_of_bounds(x: &BoundaryExtractor) -> i32
    ensures { result ≡ x.now.match_ }
{
    x.match_
}

fn take_bounds(
    alloc: Global,
    x: &BoundaryExtractor,
    reply: &Reply,
    state: &mut UserState,
) -> Result<(), VarError>
    ensures came { (a : Account) → CameTo a (extracts reply.now (Kind.BoundaryExtractor x.now) state.old) a
        (λ u. over (fine u state.new)) (over (past_limit state.new)) result }
    ensures later { IsLater state.old.fns state.new.fns }
    ensures cut { (a : Account) → result ≡ Err VarError.NoMemory → cut_extracting reply.now (Kind.BoundaryExtractor x.now) a state.old a state.new }
{
    let pick = pick(number_of_bounds(x), state);
    let mut digits = Buffer::new();
    extract_bounds(
        alloc,
        x,
        field_of(x.field, reply, &mut digits),
        pick,
        &mut state.vars,
    )
}

// An extractor; another element does nothing.
fn extract<'p>(
    alloc: Global,
    kind: &'p Kind,
    reply: &Reply,
    state: &mut UserState,
    searches: &mut Searches<'p>,
) -> Result<(), VarError>
    requires forms { HasForms kind.now }
    ensures came { (a : Account) → CameTo a (extracts reply.now kind.now state.old) a
        (λ u. over (fine u state.new)) (over (past_limit state.new)) result }
    ensures later { IsLater state.old.fns state.new.fns }
    ensures cut { (a : Account) → result ≡ Err VarError.NoMemory → cut_extracting reply.now kind.now a state.old a state.new }
{
    match kind {
        Kind::RegexExtractor(x) => take_regex(alloc, x, reply, state, searches),
        Kind::JsonExtractor(x) => take_json(alloc, x, reply, state),
        Kind::BoundaryExtractor(x) => take_bounds(alloc, x, reply, state),
        _ => Ok(()),
    }
}

fn extract_at<'p>(
    alloc: Global,
    plan: &'p Plan,
    number: u16,
    reply: &Reply,
    state: &mut UserState,
    searches: &mut Searches<'p>,
) -> Result<(), VarError>
    ensures came { (a : Account) → CameTo a (by_kind (giving tt) (extracts reply.now) plan.now.elements number state.old) a
        (λ u. over (fine u state.new)) (over (past_limit state.new)) result }
    ensures later { IsLater state.old.fns state.new.fns }
    ensures cut { (a : Account) → result ≡ Err VarError.NoMemory → cut_at (cut_extracting reply.now) (slice_get plan.now.elements number) a state.old a state.new }
{
    let _elements = plan.elements();
    match plan.element(number) {
        Some(element) => extract(alloc, &element.kind, reply, state, searches),
        None => Ok(()),
    }
}

/// The post-processors, one after another.
pub(crate) fn post_process<'p>(
    alloc: Global,
    plan: &'p Plan,
    numbers: &[u16],
    reply: &Reply,
    state: &mut UserState,
    searches: &mut Searches<'p>,
) -> Result<(), VarError>
    ensures came { (a : Account) → CameTo a (post_process plan.now.elements reply.now numbers.now state.old) a
        (λ u. over (fine u state.new)) (over (past_limit state.new)) result }
    ensures later { IsLater state.old.fns state.new.fns }
    ensures cut { (a : Account) → result ≡ Err VarError.NoMemory → cut_post plan.now.elements reply.now numbers.now a state.old a state.new }
{
    'numbers: for number in numbers {
        extract_at(alloc, plan, *number, reply, state, searches)?;
    }
    Ok(())
}
