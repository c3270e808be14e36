// The host, the port, the path and the body of an HTTP sampler: its own, or what HTTP Request Defaults give it.

ghost use Rattle.std.specs.Prelude.{◌≡◌, None, Some, if◌then◌else◌};
ghost use Rattle.std.specs.List.{filter, last_or};
ghost use Rattle.std.specs.Option.{option_copied};
ghost use Rattle.jm_base.specs.Run.{over};
ghost use Rattle.template_text.specs.View.{pieces_of};
ghost use Rattle.var_functions.specs.Came.{CameTo};
ghost use Rattle.trials.specs.CutShort.{StandsLater};
ghost use Rattle.trials.specs.Tried.{fine, past_limit};
ghost use Rattle.http_settings.specs.RequestSettings.{template_in, template_at, is_given, gives, giver, template_for, property_text};

use element_tree::{Kind, Plan};
use jm_base::{Outside, Text};
use std::alloc::Global;
use template_text::{Piece, Template};
use var_functions::{UserState, VarError, expand};

/// A property of an HTTP sampler that is a template.
#[derive(Clone, Copy)]
pub(crate) enum Property {
    Host,
    Port,
    Path,
    Body,
}

fn template_in(property: Property, kind: &Kind) -> Option<&Template>
    ensures { option_copied result ≡ template_in property kind.now }
{
    match kind {
        Kind::Http {
            body,
            host,
            path,
            port,
            ..
        } => match property {
            Property::Host => Some(host),
            Property::Port => Some(port),
            Property::Path => Some(path),
            Property::Body => Some(body),
        },
        Kind::HttpDefaults { host, path, port } => match property {
            Property::Host => Some(host),
            Property::Port => Some(port),
            Property::Path => Some(path),
            Property::Body => None,
        },
        _ => None,
    }
}

fn template_at(property: Property, plan: &Plan, number: u16) -> Option<&Template>
    ensures { option_copied result ≡ template_at property plan.now.elements number }
{
    match plan.element(number) {
        Some(element) => template_in(property, &element.kind),
        None => None,
    }
}

// Whether a template of these pieces is not the empty text.
fn is_given(pieces: &[Piece]) -> bool
    ensures { result ≡ is_given (pieces_of pieces.now) }
{
    !pieces.is_empty()
}

// Whether the element of this number gives a property.
fn gives(property: Property, plan: &Plan, number: u16) -> bool
    ensures { result ≡ gives property plan.now.elements number }
{
    match template_at(property, plan, number) {
        Some(template) => is_given(&template.pieces),
        None => false,
    }
}

// The element of this number, if it gives a property, or else the one that was found before it.
fn later_giver(property: Property, plan: &Plan, number: u16, found: Option<u16>) -> Option<u16>
    ensures { result ≡ (if gives property plan.now.elements number then Some number else found) }
{
    if gives(property, plan, number) {
        Some(number)
    } else {
        found
    }
}

// The last of these elements that gives a property.
fn last_giver(property: Property, plan: &Plan, numbers: &[u16]) -> Option<u16>
    ensures { result ≡ last_or None (filter (gives property plan.now.elements) numbers.now) }
{
    let mut found = None;
    'numbers: for number in numbers {
        found = later_giver(property, plan, *number, found);
    }
    found
}

// The element that gives a property to a sampler with these configuration elements.
fn giver(property: Property, plan: &Plan, config: &[u16], sampler: u16) -> Option<u16>
    ensures { result ≡ giver property plan.now.elements config.now sampler }
{
    if gives(property, plan, sampler) {
        Some(sampler)
    } else {
        last_giver(property, plan, config)
    }
}

fn template_for<'p>(
    property: Property,
    plan: &'p Plan,
    config: &[u16],
    sampler: u16,
) -> Option<&'p Template>
    ensures { option_copied result ≡ template_for property plan.now.elements config.now sampler }
{
    match giver(property, plan, config, sampler) {
        Some(number) => template_at(property, plan, number),
        None => None,
    }
}

/// The text of a property of a sampler with these configuration elements; it is empty where nothing gives the property.
pub(crate) fn property_text<O: Outside>(
    alloc: Global,
    property: Property,
    plan: &Plan,
    config: &[u16],
    sampler: u16,
    state: &mut UserState,
    outside: &mut O,
) -> Result<Text, VarError>
    ensures came { CameTo (O.account outside.old) (property_text property plan.now.elements config.now sampler state.old) (O.account outside.new)
        (λ t. over (fine t state.new)) (over (past_limit state.new)) result }
    ensures stands { StandsLater state.old state.new }
{
    match template_for(property, plan, config, sampler) {
        Some(template) => expand(alloc, template, state, outside),
        None => Ok(Text::of(Vec::new(alloc))),
    }
}
