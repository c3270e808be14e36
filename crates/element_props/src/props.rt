// The properties of an element.

ghost use Rattle.std.specs.Prelude.{◌≡◌, ◌≤◌, true, Some, Ok, Err, IfOk, map, option_map, [], ◌∷◌, ◌++◌, List, ℕ, None};
ghost use Rattle.serde_json.specs.View.{view};
ghost use Rattle.serde_json.specs.Find.{as_str, get_member};
ghost use Rattle.plan_json.specs.Shape.{members_in};
ghost use Rattle.element_props.specs.Conditions.{bad_condition, plain_bytes};
ghost use Rattle.element_props.specs.FormRows.{is_short, are_short};
ghost use Rattle.element_props.specs.Reads.{Gives, Answers, or_refuse, judged};
ghost use Rattle.element_props.specs.Answers.{Answered, IsByPlan};
ghost use Rattle.element_props.specs.declared.error.PatternFault.TheVariants.{Size};
ghost use Rattle.element_props.specs.declared.error.BuildError.{BuildError};
ghost use Rattle.plan_json.specs.Place.{Place};
ghost use Rattle.jm_base.specs.FaultCounts.{Rose};
ghost use Rattle.element_props.specs.Forms.{cond_checked, pairs_checked, finished, given, bad_pair, is_pattern, is_test_patterns, AreShort, IsShort};
ghost use Rattle.element_props.specs.Props.{prop_at, absent_value, property, properties, unknown, missing, own_properties, is_template, is_required, has_row};
ghost use Rattle.element_props.specs.RowsSeen.{form_seen, presence_seen, row_seen};

use crate::asking::{pattern_prop, tests_given};
use crate::conditions::bad_condition;
use crate::error::{BuildError, What};
use crate::forms::{is_too_long, value_of};
use crate::named::NamedProp;
use crate::patterns::Patterns;
use crate::place::prop_path;
use crate::prop::{Pair, Prop, Word};
use crate::rows::{Form, Presence, Row, first_word};
use jm_base::{Items, M, Text};
use serde_json::Value;
use std::alloc::Global;
use template_text::{Template, parse_template};

fn template_prop(
    alloc: Global,
    places: &[u64],
    name: &str,
    template: Template,
) -> Result<Prop, BuildError>
    requires { plain_bytes template ≤ 65536 }
    ensures { Answers (λ p. p) (cond_checked (prop_at places.now name.now) template (bad_condition template)) result }
{
    if let Some(at) = bad_condition(alloc, &template)? {
        return Err(BuildError::BadCond {
            path: prop_path(alloc, places, name)?,
            at,
        });
    }
    Ok(Prop::Template(template))
}

/// The first condition of the values that can't be read.
fn bad_pair(alloc: Global, pairs: &[Pair]) -> M<Option<u32>>
    requires { AreShort pairs.now }
    ensures { IfOk result (λ o. o ≡ bad_pair pairs.now) }
{
    for pair in pairs {
        let found = bad_condition(alloc, &pair.value)?;
        if found.is_some() {
            return Ok(found);
        }
    }
    Ok(None)
}

fn pairs_prop(
    alloc: Global,
    places: &[u64],
    name: &str,
    pairs: Items<Pair>,
) -> Result<Prop, BuildError>
    requires { AreShort pairs }
    ensures { Answers (λ p. p) (pairs_checked (prop_at places.now name.now) pairs (bad_pair pairs)) result }
{
    if let Some(at) = bad_pair(alloc, pairs.as_slice())? {
        return Err(BuildError::BadCond {
            path: prop_path(alloc, places, name)?,
            at,
        });
    }
    Ok(Prop::Pairs(pairs))
}

/// A value of its form, whose conditions must be read.
fn finished(alloc: Global, places: &[u64], name: &str, prop: Prop) -> Result<Prop, BuildError>
    requires { IsShort prop }
    ensures { Answers (λ p. p) (finished (prop_at places.now name.now) prop) result }
{
    match prop {
        Prop::Template(template) => template_prop(alloc, places, name, template),
        Prop::Pairs(pairs) => pairs_prop(alloc, places, name, pairs),
        Prop::Absent => Ok(Prop::Absent),
        Prop::Text(text) => Ok(Prop::Text(text)),
        Prop::Number(n) => Ok(Prop::Number(n)),
        Prop::Truth(b) => Ok(Prop::Truth(b)),
        Prop::Word(word) => Ok(Prop::Word(word)),
        Prop::Pattern(pattern) => Ok(Prop::Pattern(pattern)),
        Prop::Replies(replies) => Ok(Prop::Replies(replies)),
        Prop::Texts(texts) => Ok(Prop::Texts(texts)),
        Prop::Patterns {
            texts,
            regexes,
            whole_regexes,
        } => Ok(Prop::Patterns {
            texts,
            regexes,
            whole_regexes,
        }),
    }
}

fn is_pattern(form: Form) -> bool
    ensures { result ≡ is_pattern (form_seen form) }
{
    match form {
        Form::Pattern => true,
        Form::Template | Form::Plain | Form::Filled | Form::Lock | Form::Flag => false,
        Form::TestPatterns | Form::Pairs | Form::Replies | Form::Texts | Form::JsonPath => false,
        Form::Csv(_) => false,
        Form::Whole(_, _) => false,
        Form::UpTo(_) => false,
        Form::Choice(_) => false,
    }
}

fn is_test_patterns(form: Form) -> bool
    ensures { result ≡ is_test_patterns (form_seen form) }
{
    match form {
        Form::TestPatterns => true,
        Form::Template | Form::Plain | Form::Filled | Form::Lock | Form::Flag => false,
        Form::Pattern | Form::Pairs | Form::Replies | Form::Texts | Form::JsonPath => false,
        Form::Csv(_) => false,
        Form::Whole(_, _) => false,
        Form::UpTo(_) => false,
        Form::Choice(_) => false,
    }
}

/// A property that is there.
#[tactic(auto, using(crate::proofs::ReadsLaws::no_memory))]
pub fn given<G: Patterns>(
    alloc: Global,
    form: Form,
    places: &[u64],
    name: &str,
    props: &Value,
    value: &Value,
    patterns: &mut G,
) -> Result<Prop, BuildError>
    ensures { Gives (λ p. p) (G.account patterns.old)
        (given (form_seen form) (members_in (view props.now)) (prop_at places.now name.now) (view value.now)) result (G.account patterns.new) }
{
    if is_too_long(form, value) {
        return Err(BuildError::TooMany {
            path: prop_path(alloc, places, name)?,
            what: What::Text,
        });
    }
    if is_pattern(form) {
        let Some(text) = value.as_str() else {
            return Err(BuildError::BadProp {
                path: prop_path(alloc, places, name)?,
            });
        };
        return pattern_prop(alloc, places, name, text, patterns);
    }
    if is_test_patterns(form) {
        return tests_given(alloc, places, name, props, value, patterns);
    }
    let Some(prop) = value_of(alloc, form, props, value)? else {
        return Err(BuildError::BadProp {
            path: prop_path(alloc, places, name)?,
        });
    };
    finished(alloc, places, name, prop)
}

/// What stands for a property that is absent.
fn absent(alloc: Global, row: &Row) -> M<Prop>
    requires { is_short (presence_seen row.now.presence) ≡ true }
    ensures { IfOk result (λ p. p ≡ absent_value (form_seen row.now.form) (presence_seen row.now.presence)) }
{
    match row.presence {
        Presence::Required => Ok(Prop::Absent),
        Presence::Optional => Ok(Prop::Absent),
        Presence::Text(text) => {
            if is_template(row.form) {
                return Ok(Prop::Template(parse_template(alloc, text.as_bytes())?));
            }
            Ok(Prop::Text(Text::new(alloc, text.as_bytes())?))
        }
        Presence::Number(n) => Ok(Prop::Number(n)),
        Presence::Truth(b) => Ok(Prop::Truth(b)),
        Presence::First => Ok(Prop::Word(Word::of(first_word(row.form)))),
        Presence::NoPairs => Ok(Prop::Pairs(Items::of(Vec::new(alloc)))),
    }
}

fn is_template(form: Form) -> bool
    ensures { result ≡ is_template (form_seen form) }
{
    match form {
        Form::Template => true,
        Form::Pattern | Form::Plain | Form::Filled | Form::Lock | Form::Flag => false,
        Form::TestPatterns | Form::Pairs | Form::Replies | Form::Texts | Form::JsonPath => false,
        Form::Csv(_) => false,
        Form::Whole(_, _) => false,
        Form::UpTo(_) => false,
        Form::Choice(_) => false,
    }
}

/// The property of a row.
#[tactic(auto, using(crate::proofs::ReadsLaws::no_memory))]
fn property<G: Patterns>(
    alloc: Global,
    row: &Row,
    places: &[u64],
    props: &Value,
    patterns: &mut G,
) -> Result<Prop, BuildError>
    requires { is_short (presence_seen row.now.presence) ≡ true }
    ensures { Gives (λ p. p) (G.account patterns.old) (property places.now (members_in (view props.now)) (row_seen row.now)) result (G.account patterns.new) }
{
    match props.get(row.name) {
        Some(value) => given(alloc, row.form, places, row.name, props, value, patterns),
        None => {
            let prop = absent(alloc, row)?;
            Ok(prop)
        }
    }
}

/// The properties of these rows, in their order, each by the name of its row.
#[tactic(auto, using(crate::proofs::ReadsLaws::no_memory))]
fn properties<G: Patterns>(
    alloc: Global,
    rows: &[Row],
    places: &[u64],
    props: &Value,
    patterns: &mut G,
) -> Result<Vec<NamedProp>, BuildError>
    requires { are_short (map row_seen rows.now) ≡ true }
    ensures { Gives (λ v. v.items) (G.account patterns.old) (properties places.now (members_in (view props.now)) (map row_seen rows.now)) result (G.account patterns.new) }
{
    let mut found = Vec::new(alloc);
    'rows: for row in rows {
        found.push(NamedProp::of(row.name, property(alloc, row, places, props, patterns)?))?;
    }
    Ok(found)
}

/// The first property, in byte order, that is in no row.
fn unknown<'a>(rows: &[Row], props: &'a Value) -> Option<&'a str>
    ensures { option_map (λ s. s.now) result ≡ unknown (map row_seen rows.now) (members_in (view props.now)) }
{
    let Value::Object(members) = props else {
        return None;
    };
    for (key, _) in members {
        if !has_row(rows, key) {
            return Some(key);
        }
    }
    None
}

fn has_row(rows: &[Row], name: &str) -> bool
    ensures { result ≡ has_row name.now (map row_seen rows.now) }
{
    for row in rows {
        if name == row.name {
            return true;
        }
    }
    false
}

/// The first required property, in byte order, that is absent.
fn missing(rows: &[Row], props: &Value) -> Option<&'static str>
    ensures { option_map (λ s. s.now) result ≡ missing (members_in (view props.now)) (map row_seen rows.now) }
{
    for row in rows {
        if is_required(row.presence) && props.get(row.name).is_none() {
            return Some(row.name);
        }
    }
    None
}

fn is_required(presence: Presence) -> bool
    ensures { result ≡ is_required (presence_seen presence) }
{
    match presence {
        Presence::Required => true,
        Presence::Optional | Presence::First | Presence::NoPairs => false,
        Presence::Text(_) => false,
        Presence::Number(_) => false,
        Presence::Truth(_) => false,
    }
}

/// The properties of an element.
#[tactic(auto, using(crate::proofs::ReadsLaws::no_memory))]
fn read_own<G: Patterns>(
    alloc: Global,
    rows: &[Row],
    places: &[u64],
    props: &Value,
    patterns: &mut G,
) -> Result<Vec<NamedProp>, BuildError>
    requires { are_short (map row_seen rows.now) ≡ true }
    ensures { Gives (λ v. v.items) (G.account patterns.old) (own_properties places.now (members_in (view props.now)) (map row_seen rows.now)) result (G.account patterns.new) }
{
    if let Some(name) = unknown(rows, props) {
        return Err(BuildError::BadProp {
            path: prop_path(alloc, places, name)?,
        });
    }
    if let Some(name) = missing(rows, props) {
        return Err(BuildError::MissingProp {
            path: prop_path(alloc, places, name)?,
        });
    }
    properties(alloc, rows, places, props, patterns)
}

/// The properties of an element, under the rows of its type, which stand in byte order of their names: a value for each row,
/// by its name, in the same order. The first of these faults is the answer, each with the path of its property: `BadProp` of the least property
/// that has no row; `MissingProp` of the least required one that is absent; and then, property by property, `TooMany` where a
/// text of the value, at any depth, has more than 65,536 bytes, or a lock more than 256, `BadProp` where the value doesn't have
/// the form of its row, `BadPattern` where a pattern holds `${` or is not made, and `BadCond` where a condition can't be read.
pub fn own_properties<G: Patterns>(
    alloc: Global,
    rows: &[Row],
    places: &[u64],
    props: &Value,
    patterns: &mut G,
) -> Result<Vec<NamedProp>, BuildError>
    requires { are_short (map row_seen rows.now) ≡ true }
    // The whole answer: how far the reading came, and which patterns were asked for on the way.
    ensures gives { Gives (λ v. v.items) (G.account patterns.old) (own_properties places.now (members_in (view props.now)) (map row_seen rows.now)) result (G.account patterns.new) }
    // With each pattern judged by the grammar of regular expressions, this is what the properties are, or the first refusal.
    ensures read { IfOk result (λ v. judged (own_properties places.now (members_in (view props.now)) (map row_seen rows.now)) ≡ Ok v.items) }
    ensures refused { (e : BuildError) → result ≡ Err e → IsByPlan e → judged (own_properties places.now (members_in (view props.now)) (map row_seen rows.now)) ≡ Err e }
    // A property without a row comes before one that is missing, and both before every other fault.
    ensures without_row { (name : List ℕ) → unknown (map row_seen rows.now) (members_in (view props.now)) ≡ Some name → Answered result (BuildError.BadProp (prop_at places.now name)) }
    ensures absent { (name : List ℕ) → unknown (map row_seen rows.now) (members_in (view props.now)) ≡ None → missing (members_in (view props.now)) (map row_seen rows.now) ≡ Some name
        → Answered result (BuildError.MissingProp (prop_at places.now name)) }
    // The maker of patterns finds one too large only where it counts it.
    ensures size { (p : Place) → result ≡ Err (BuildError.BadPattern p Size) → Rose (G.account patterns.old).oversize (G.account patterns.new).oversize }
{
    read_own(alloc, rows, places, props, patterns)
}
