// The values that a path reaches in a JSON value.

ghost use Rattle.std.specs.Prelude.{◌≡◌, ◌++◌, ◌∷◌, [], ℕ, List, true, false, OnOk, IfOk, map, option_map, Some, None};
ghost use Rattle.std.specs.List.{flat_map, filter_map};
ghost use Rattle.serde_json.specs.Data.{Data};
ghost use Rattle.serde_json.specs.View.{view, items_view, members_view};
ghost use Rattle.serde_json.specs.Written.{has_float};
ghost use Rattle.json_path.specs.Selection.{same_text, named, item_at, item_values, member_values, step_values, reached, shown, selected};
ghost use Rattle.json_path.specs.JsonViews.{data_of};

use crate::path::{JsonPath, Step};
use jm_base::{M, Text};
use serde_json::{Map, Value};
use std::alloc::Global;

/// Whether a value holds a number outside the whole numbers of 64 bits.
fn holds_float(value: &Value) -> bool
    ensures { result ≡ has_float (view value.now) }
{
    match value {
        Value::Null | Value::Bool(_) | Value::String(_) => false,
        Value::Number(n) => n.is_f64(),
        Value::Array(items) => {
            for item in items {
                if holds_float(item) {
                    return true;
                }
            }
            false
        }
        Value::Object(members) => {
            for (_, item) in members {
                if holds_float(item) {
                    return true;
                }
            }
            false
        }
    }
}

/// Whether the bytes are the same.
fn same_text(left: &[u8], right: &[u8]) -> bool
    ensures { result ≡ same_text left.now right.now }
{
    left == right
}

/// Adds the value of the member with this name.
fn push_named<'a>(
    reached: &mut Vec<&'a Value>,
    members: &'a Map<String, Value>,
    name: &[u8],
) -> M<()>
    ensures { OnOk result (data_of reached.new.items ≡ data_of reached.old.items ++ named name.now (members_view members.now.entries)) }
{
    for (key, value) in members {
        if same_text(key.as_bytes(), name) {
            reached.push(value)?;
        }
    }
    Ok(())
}

/// Adds the item at a place.
fn push_item<'a>(reached: &mut Vec<&'a Value>, items: &'a [Value], place: u32) -> M<()>
    ensures { OnOk result (data_of reached.new.items ≡ data_of reached.old.items ++ item_at place (items_view items.now)) }
{
    let place = place as usize;
    if place < items.len() {
        reached.push(&items[place])?;
    }
    Ok(())
}

/// Adds every item.
fn push_items<'a>(reached: &mut Vec<&'a Value>, items: &'a [Value]) -> M<()>
    ensures { OnOk result (data_of reached.new.items ≡ data_of reached.old.items ++ item_values (items_view items.now)) }
{
    for value in items {
        reached.push(value)?;
    }
    Ok(())
}

/// Adds every value of an object, in byte order of keys.
fn push_values<'a>(reached: &mut Vec<&'a Value>, members: &'a Map<String, Value>) -> M<()>
    ensures { OnOk result (data_of reached.new.items ≡ data_of reached.old.items ++ member_values (members_view members.now.entries)) }
{
    for (_, value) in members {
        reached.push(value)?;
    }
    Ok(())
}

/// Adds the values that a step reaches from a value.
fn push_step<'a>(reached: &mut Vec<&'a Value>, step: &Step, value: &'a Value) -> M<()>
    ensures { OnOk result (data_of reached.new.items ≡ data_of reached.old.items ++ step_values step.now (view value.now)) }
{
    match (step, value) {
        (Step::Name(name), Value::Object(members)) => push_named(reached, members, name.bytes()),
        (Step::Index(place), Value::Array(items)) => push_item(reached, items, *place),
        (Step::All, Value::Array(items)) => push_items(reached, items),
        (Step::All, Value::Object(members)) => push_values(reached, members),
        _ => Ok(()),
    }
}

/// The values that a step reaches from each of these.
fn take_step<'a>(alloc: Global, step: &Step, values: &[&'a Value]) -> M<Vec<&'a Value>>
    ensures { IfOk result (λ v. data_of v.items ≡ flat_map (step_values step.now) (data_of values.now)) }
{
    let mut reached = Vec::new(alloc);
    for value in values {
        push_step(&mut reached, step, value)?;
    }
    Ok(reached)
}

/// The text of a value: a text bare, any other value as compact JSON, and none where it holds a number outside the whole
/// numbers of 64 bits.
fn shown(alloc: Global, value: &Value) -> M<Option<Text>>
    ensures { IfOk result (λ text. text ≡ shown (view value.now)) }
{
    if holds_float(value) {
        return Ok(None);
    }
    match value {
        Value::String(text) => {
            let text = Text::new(alloc, text.as_bytes())?;
            Ok(Some(text))
        }
        _ => {
            let bytes = value.to_vec(alloc)?;
            Ok(Some(Text::of(bytes)))
        }
    }
}

/// The values that steps reach, in order.
fn reach<'a>(alloc: Global, steps: &[Step], value: &'a Value) -> M<Vec<&'a Value>>
    ensures { IfOk result (λ v. data_of v.items ≡ reached steps.now (view value.now)) }
{
    let mut values = Vec::new(alloc);
    values.push(value)?;
    for step in steps {
        values = take_step(alloc, step, values.as_slice())?;
    }
    Ok(values)
}

/// The texts of values, without those that are passed over.
fn show_all(alloc: Global, values: &[&Value]) -> M<Vec<Text>>
    ensures { IfOk result (λ texts. texts.items ≡ filter_map shown (data_of values.now)) }
{
    let mut texts = Vec::new(alloc);
    for value in values {
        if let Some(text) = shown(alloc, value)? {
            texts.push(text)?;
        }
    }
    Ok(texts)
}

/// The texts of the values that a path reaches, in order: a text bare, any other value as compact JSON. A value that
/// holds a number outside the whole numbers of 64 bits, signed or unsigned, is passed over.
pub fn select(alloc: Global, path: &JsonPath, value: &Value) -> M<Vec<Text>>
    ensures { IfOk result (λ texts. texts.items ≡ selected path.now (view value.now)) }
{
    let values = reach(alloc, path.steps(), value)?;
    let texts = show_all(alloc, values.as_slice())?;
    Ok(texts)
}
