// The calls of cases, and what they gave. They have no clauses, so that no proof carries along what the calls promise.

use crate::case_text::places;
use crate::forms::{many_forms, rows_for};
use crate::show::prop_shown;
use element_props::{
    BuildError, Form, NamedProp, NamedShown, Patterns, Prop, RegexPatterns, Shown, bad_condition,
    own_properties, prop_path, written_members,
};
use jm_base::Text;
use serde_json::Value;
use std::alloc::Global;
use template_text::parse_template;

/// A refusal: its variant with its fields, and its text.
fn refusal(alloc: Global, error: &BuildError) -> anyhow::Result<String> {
    Ok(format!(in alloc; "{error:?}: {error}")?)
}

/// The properties that are there, by their names.
fn props_shown(alloc: Global, props: &[NamedProp]) -> anyhow::Result<String> {
    let mut out = String::new(alloc);
    for prop in props {
        if !matches!(prop.value(), Prop::Absent) {
            if !out.is_empty() {
                out.push_str("; ")?;
            }
            out.push_str(prop.name())?;
            out.push_str(": ")?;
            out.push_str(prop_shown(alloc, prop.value())?.as_str())?;
        }
    }
    if out.is_empty() {
        out.push_str("nothing")?;
    }
    Ok(out)
}

/// The property `p` under a form, and those that the form may look at.
pub fn read(
    alloc: Global,
    form: Form,
    json: &str,
    mut patterns: RegexPatterns,
) -> anyhow::Result<String> {
    let value = Value::from_str(alloc, json)?;
    let rows = rows_for(form);
    match own_properties(alloc, &rows, &[7], &value, &mut patterns) {
        Ok(props) => props_shown(alloc, &props),
        Err(error) => refusal(alloc, &error),
    }
}

/// The properties of the table.
pub fn table(alloc: Global, json: &str) -> anyhow::Result<String> {
    let value = Value::from_str(alloc, json)?;
    let rows = many_forms();
    let mut patterns = RegexPatterns::new(Vec::new(alloc));
    match own_properties(alloc, &rows, &[], &value, &mut patterns) {
        Ok(props) => props_shown(alloc, &props),
        Err(error) => refusal(alloc, &error),
    }
}

/// A value as it is written.
fn shown(prop: &Prop) -> Shown<'_> {
    match prop {
        Prop::Absent => Shown::Absent,
        Prop::Template(template) => Shown::Template(template),
        Prop::Text(text) => Shown::Text(text),
        Prop::Number(n) => Shown::Number(*n),
        Prop::Truth(truth) => Shown::Truth(*truth),
        Prop::Word(word) => Shown::Word(word.text()),
        Prop::Pattern(pattern) => Shown::Pattern(pattern),
        Prop::Pairs(pairs) => Shown::Pairs(pairs.as_slice()),
        Prop::Replies(replies) => Shown::Replies(replies.as_slice()),
        Prop::Texts(texts) => Shown::Texts(texts.as_slice()),
        Prop::Patterns {
            texts,
            regexes,
            whole_regexes,
        } => Shown::Patterns {
            texts: texts.as_slice(),
            regexes: regexes.as_slice(),
            whole_regexes: whole_regexes.as_slice(),
        },
    }
}

fn named<'a>(name: &'static str, value: Shown<'a>) -> NamedShown<'a> {
    NamedShown { name, value }
}

/// The properties of the table, as they are written.
pub fn rewritten(alloc: Global, json: &str) -> anyhow::Result<String> {
    let value = Value::from_str(alloc, json)?;
    let rows = many_forms();
    let mut patterns = RegexPatterns::new(Vec::new(alloc));
    let props = own_properties(alloc, &rows, &[], &value, &mut patterns)?;
    let mut values = Vec::new(alloc);
    for prop in &props {
        values.push(named(prop.name(), shown(prop.value())))?;
    }
    let members = written_members(alloc, &rows, &values)?;
    let text = Value::Object(members).to_string(alloc)?;
    Ok(text)
}

/// A text as it is written.
pub fn written(alloc: Global, bytes: &[u8]) -> anyhow::Result<String> {
    let text = Text::new(alloc, bytes)?;
    let rows = rows_for(Form::Plain);
    let values = [
        named("maximum", Shown::Absent),
        named("names", Shown::Absent),
        named("p", Shown::Text(&text)),
    ];
    let members = written_members(alloc, &rows, &values)?;
    let text = Value::Object(members).to_string(alloc)?;
    Ok(text)
}

/// What a maker of patterns makes of a text.
pub fn made(alloc: Global, text: &str, patterns: &mut RegexPatterns) -> anyhow::Result<String> {
    match patterns.make(alloc, text) {
        Ok(regex) => Ok(format!(in alloc; "made {:?}", regex.as_str())?),
        Err(error) => Ok(format!(in alloc; "{error:?}: {error}")?),
    }
}

/// The first condition of a template that can't be read.
#[tactic(auto, using(element_props::proofs::FormLaws::short_template))]
pub fn condition(alloc: Global, text: &str) -> anyhow::Result<String> {
    if text.len() > 65_536 {
        return Ok(format!(in alloc; "too long")?);
    }
    let template = parse_template(alloc, text.as_bytes())?;
    let found = bad_condition(alloc, &template)?;
    Ok(format!(in alloc; "{found:?}")?)
}

/// The path of a property.
pub fn path(alloc: Global, numbers: &str, name: &str) -> anyhow::Result<String> {
    let path = prop_path(alloc, &places(alloc, numbers)?, name)?;
    Ok(format!(in alloc; "{path}")?)
}
