// What a sampler does before its request.

ghost use Rattle.std.specs.Prelude.{◌≡◌, Err, slice_get};
ghost use Rattle.std.specs.Option.{option_map};
ghost use Rattle.jm_base.specs.Run.{over};
ghost use Rattle.var_functions.specs.Came.{CameTo};
ghost use Rattle.var_functions.specs.FunctionState.{IsLater};
ghost use Rattle.trials.specs.Tried.{giving, fine, past_limit, ◌>=>◌};
ghost use Rattle.http_settings.specs.RequestSettings.{settings};
ghost use Rattle.http_settings.specs.Targets.{target_of, http_request};
ghost use Rattle.sampler_pipeline.specs.SamplerPipeline.{by_kind, prepares, pre_process, pausing, requests, requests_at};
ghost use Rattle.sampler_pipeline.specs.PipelineCut.{cut_at, cut_preparing, cut_pre};

use config_elements::settings;
use element_tree::{Kind, Package, Plan};
use http_settings::request_of;
use jm_base::{Outside, Request};
use std::alloc::Global;
use trials::set_pairs;
use var_functions::{UserState, VarError, expand};

// A pre-processor; another element does nothing.
fn prepare_by<O: Outside>(
    alloc: Global,
    kind: &Kind,
    state: &mut UserState,
    outside: &mut O,
) -> Result<(), VarError>
    ensures came { CameTo (O.account outside.old) (prepares kind.now state.old) (O.account outside.new)
        (λ u. over (fine u state.new)) (over (past_limit state.new)) result }
    ensures later { IsLater state.old.fns state.new.fns }
    ensures cut { result ≡ Err VarError.NoMemory → cut_preparing kind.now (O.account outside.old) state.old (O.account outside.new) state.new }
{
    match kind {
        Kind::UserParameters { vars } => set_pairs(alloc, vars.as_slice(), state, outside),
        _ => Ok(()),
    }
}

fn prepare<O: Outside>(
    alloc: Global,
    plan: &Plan,
    number: u16,
    state: &mut UserState,
    outside: &mut O,
) -> Result<(), VarError>
    ensures came { CameTo (O.account outside.old) (by_kind (giving tt) prepares plan.now.elements number state.old) (O.account outside.new)
        (λ u. over (fine u state.new)) (over (past_limit state.new)) result }
    ensures later { IsLater state.old.fns state.new.fns }
    ensures cut { result ≡ Err VarError.NoMemory
        → cut_at cut_preparing (slice_get plan.now.elements number) (O.account outside.old) state.old (O.account outside.new) state.new }
{
    match plan.element(number) {
        Some(element) => prepare_by(alloc, &element.kind, state, outside),
        None => Ok(()),
    }
}

/// The pre-processors, one after another.
pub(crate) fn pre_process<O: Outside>(
    alloc: Global,
    plan: &Plan,
    numbers: &[u16],
    state: &mut UserState,
    outside: &mut O,
) -> Result<(), VarError>
    ensures came { CameTo (O.account outside.old) (pre_process plan.now.elements numbers.now state.old) (O.account outside.new)
        (λ u. over (fine u state.new)) (over (past_limit state.new)) result }
    ensures later { IsLater state.old.fns state.new.fns }
    ensures cut { result ≡ Err VarError.NoMemory → cut_pre plan.now.elements numbers.now (O.account outside.old) state.old (O.account outside.new) state.new }
{
    'numbers: for number in numbers {
        prepare(alloc, plan, *number, state, outside)?;
    }
    Ok(())
}

/// Pauses that many milliseconds, where it isn't 0.
pub(crate) fn pause<O: Outside>(ms: u32, state: &UserState, outside: &mut O) -> Result<(), VarError>
    ensures came { CameTo (O.account outside.old) (pausing ms state.now) (O.account outside.new)
        (λ u. over (fine u state.now)) (over (past_limit state.now)) result }
{
    if ms == 0 {
        return Ok(());
    }
    outside.pause(ms)?;
    Ok(())
}

// What an HTTP sampler of this number asks for, if its settings have a target.
fn target_request<O: Outside>(
    alloc: Global,
    plan: &Plan,
    scope: &Package,
    sampler: u16,
    state: &mut UserState,
    outside: &mut O,
) -> Result<Option<Request>, VarError>
    ensures came { CameTo (O.account outside.old)
        ((settings plan.now.elements scope.now.config sampler >=> λ s. giving (option_map http_request (target_of s))) state.old)
        (O.account outside.new) (λ request. over (fine request state.new)) (over (past_limit state.new)) result }
    ensures later { IsLater state.old.fns state.new.fns }
    ensures vars { state.new.vars ≡ state.old.vars }
{
    let found = settings(alloc, plan, scope, sampler, state, outside)?;
    let request = request_of(alloc, &found)?;
    Ok(request)
}

// What a sampler of this kind and number asks for.
fn request_by<O: Outside>(
    alloc: Global,
    plan: &Plan,
    scope: &Package,
    sampler: u16,
    kind: &Kind,
    state: &mut UserState,
    outside: &mut O,
) -> Result<Option<Request>, VarError>
    ensures came { CameTo (O.account outside.old) (requests plan.now.elements scope.now sampler kind.now state.old) (O.account outside.new)
        (λ request. over (fine request state.new)) (over (past_limit state.new)) result }
    ensures later { IsLater state.old.fns state.new.fns }
    ensures vars { state.new.vars ≡ state.old.vars }
{
    match kind {
        Kind::Script { request, .. } => {
            let text = expand(alloc, request, state, outside)?;
            Ok(Some(Request::Script(text)))
        }
        Kind::Http { .. } => target_request(alloc, plan, scope, sampler, state, outside),
        _ => Ok(None),
    }
}

/// What the sampler of this number, which has this package, asks for: nothing where its request has no target.
pub(crate) fn request<O: Outside>(
    alloc: Global,
    plan: &Plan,
    scope: &Package,
    sampler: u16,
    state: &mut UserState,
    outside: &mut O,
) -> Result<Option<Request>, VarError>
    ensures came { CameTo (O.account outside.old) (requests_at plan.now.elements scope.now sampler state.old) (O.account outside.new)
        (λ request. over (fine request state.new)) (over (past_limit state.new)) result }
    ensures later { IsLater state.old.fns state.new.fns }
    ensures vars { state.new.vars ≡ state.old.vars }
{
    match plan.element(sampler) {
        Some(element) => request_by(alloc, plan, scope, sampler, &element.kind, state, outside),
        None => Ok(None),
    }
}
