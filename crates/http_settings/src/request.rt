// The settings of an HTTP sampler.

ghost use Rattle.std.specs.Prelude.{◌≡◌, IfOk};
ghost use Rattle.jm_base.specs.Run.{over};
ghost use Rattle.var_functions.specs.Came.{CameTo};
ghost use Rattle.var_functions.specs.FunctionState.{IsLater};
ghost use Rattle.trials.specs.CutShort.{StandsLater};
ghost use Rattle.trials.specs.Tried.{fine, past_limit};
ghost use Rattle.http_settings.specs.RequestSettings.{params_in, params_at, method_in, method_at, merged_headers, texts_of, pairs_seen, address, content, settings_of, settings};

use crate::defaults::{Property, property_text};
use crate::headers::merged_headers;
use crate::texts::texts_of;
use element_props::Pair;
use element_tree::{Kind, Package, Plan};
use http_text::{HttpSettings, NamedText};
use jm_base::{Items, M, Method, Outside, Text};
use std::alloc::Global;
use var_functions::{UserState, VarError};

/// Where a request goes.
#[derive(Drop)]
pub(crate) struct Address {
    pub host: Text,
    pub port: Text,
    pub path: Text,
}

/// What a request takes along.
#[derive(Drop)]
pub(crate) struct Content {
    pub params: Items<NamedText>,
    pub body: Text,
}

fn params_in(kind: &Kind) -> &[Pair]
    ensures { result.now ≡ params_in kind.now }
{
    match kind {
        Kind::Http { params, .. } => params.as_slice(),
        _ => &[],
    }
}

fn params_at(plan: &Plan, number: u16) -> &[Pair]
    ensures { result.now ≡ params_at plan.now.elements number }
{
    match plan.element(number) {
        Some(element) => params_in(&element.kind),
        None => &[],
    }
}

fn method_in(kind: &Kind) -> Method
    ensures { result ≡ method_in kind.now }
{
    match kind {
        Kind::Http { method, .. } => *method,
        _ => Method::Get,
    }
}

fn method_at(plan: &Plan, number: u16) -> Method
    ensures { result ≡ method_at plan.now.elements number }
{
    match plan.element(number) {
        Some(element) => method_in(&element.kind),
        None => Method::Get,
    }
}

// A reference to each of these.
fn pairs_of(alloc: Global, pairs: &[Pair]) -> M<Vec<&Pair>>
    ensures { IfOk result (λ v. pairs_seen v.items ≡ pairs.now) }
{
    let mut all = Vec::new(alloc);
    'pairs: for pair in pairs {
        all.push(pair)?;
    }
    Ok(all)
}

fn param_texts<O: Outside>(
    alloc: Global,
    plan: &Plan,
    sampler: u16,
    state: &mut UserState,
    outside: &mut O,
) -> Result<Items<NamedText>, VarError>
    ensures came { CameTo (O.account outside.old) (texts_of (params_at plan.now.elements sampler) state.old) (O.account outside.new)
        (λ texts. over (fine texts state.new)) (over (past_limit state.new)) result }
    ensures stands { StandsLater state.old state.new }
{
    let pairs = pairs_of(alloc, params_at(plan, sampler))?;
    texts_of(alloc, pairs.as_slice(), state, outside)
}

fn header_texts<O: Outside>(
    alloc: Global,
    plan: &Plan,
    config: &[u16],
    state: &mut UserState,
    outside: &mut O,
) -> Result<Items<NamedText>, VarError>
    ensures came { CameTo (O.account outside.old) (texts_of (merged_headers plan.now.elements config.now) state.old) (O.account outside.new)
        (λ texts. over (fine texts state.new)) (over (past_limit state.new)) result }
    ensures stands { StandsLater state.old state.new }
{
    let pairs = merged_headers(alloc, plan, config)?;
    texts_of(alloc, pairs.as_slice(), state, outside)
}

fn address_of<O: Outside>(
    alloc: Global,
    plan: &Plan,
    config: &[u16],
    sampler: u16,
    state: &mut UserState,
    outside: &mut O,
) -> Result<Address, VarError>
    ensures came { CameTo (O.account outside.old) (address plan.now.elements config.now sampler state.old) (O.account outside.new)
        (λ a. over (fine a state.new)) (over (past_limit state.new)) result }
    ensures stands { StandsLater state.old state.new }
{
    let host = property_text(alloc, Property::Host, plan, config, sampler, state, outside)?;
    let port = property_text(alloc, Property::Port, plan, config, sampler, state, outside)?;
    let path = property_text(alloc, Property::Path, plan, config, sampler, state, outside)?;
    Ok(Address { host, port, path })
}

fn content_of<O: Outside>(
    alloc: Global,
    plan: &Plan,
    config: &[u16],
    sampler: u16,
    state: &mut UserState,
    outside: &mut O,
) -> Result<Content, VarError>
    ensures came { CameTo (O.account outside.old) (content plan.now.elements config.now sampler state.old) (O.account outside.new)
        (λ c. over (fine c state.new)) (over (past_limit state.new)) result }
    ensures stands { StandsLater state.old state.new }
{
    let params = param_texts(alloc, plan, sampler, state, outside)?;
    let body = property_text(alloc, Property::Body, plan, config, sampler, state, outside)?;
    Ok(Content { params, body })
}

fn settings_of(
    method: Method,
    address: Address,
    content: Content,
    headers: Items<NamedText>,
) -> HttpSettings
    ensures { result ≡ settings_of method address content headers }
{
    HttpSettings {
        host: address.host,
        port: address.port,
        path: address.path,
        method,
        params: content.params,
        body: content.body,
        headers,
    }
}

fn settings_with<O: Outside>(
    alloc: Global,
    plan: &Plan,
    config: &[u16],
    sampler: u16,
    state: &mut UserState,
    outside: &mut O,
) -> Result<HttpSettings, VarError>
    ensures came { CameTo (O.account outside.old) (settings plan.now.elements config.now sampler state.old) (O.account outside.new)
        (λ s. over (fine s state.new)) (over (past_limit state.new)) result }
    ensures stands { StandsLater state.old state.new }
{
    let address = address_of(alloc, plan, config, sampler, state, outside)?;
    let content = content_of(alloc, plan, config, sampler, state, outside)?;
    let headers = header_texts(alloc, plan, config, state, outside)?;
    Ok(settings_of(method_at(plan, sampler), address, content, headers))
}

/// The settings of the HTTP sampler of this number, which has this package, with every template expanded.
///
/// The host, the port and the path are the sampler's own where their templates are not the empty text. Each of them is taken
/// otherwise from the innermost HTTP Request Defaults of the package whose template for it is not the empty text, and from the
/// later in the plan of two on one level; where there is none, it is empty. Header fields are those of the package's HTTP
/// Header Managers, each name once: of two fields whose names differ at most in the case of ASCII letters the innermost stays,
/// on one level the later in the plan, and in one list the later.
///
/// Templates are expanded in this order: host, port, path, parameters, body, and the header fields that stay, by the bytes of
/// their names in lower case. The body is expanded also where parameters take its place. An element that is no HTTP sampler has
/// no host, port, path, parameters and body of its own, and the method GET.
///
/// `ValueLimit` comes where a text, or an argument of a call in it, would have more than 65,536 bytes; what functions keep is
/// then what the evaluated part left. No variable changes.
pub fn settings<O: Outside>(
    alloc: Global,
    plan: &Plan,
    scope: &Package,
    sampler: u16,
    state: &mut UserState,
    outside: &mut O,
) -> Result<HttpSettings, VarError>
    ensures came { CameTo (O.account outside.old) (settings plan.now.elements scope.now.config sampler state.old) (O.account outside.new)
        (λ s. over (fine s state.new)) (over (past_limit state.new)) result }
    // After every answer, out of memory included.
    ensures later { IsLater state.old.fns state.new.fns }
    ensures vars { state.new.vars ≡ state.old.vars }
{
    settings_with(
        alloc,
        plan,
        scope.config.as_slice(),
        sampler,
        state,
        outside,
    )
}
