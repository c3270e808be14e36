// Reads a plan's text.

ghost use Rattle.std.specs.Prelude.{◌≡◌, IsTrue, map, ◌++◌, ◌∷◌, [], ◌&&◌, IsUtf8, IfOk, IfErr, IsOk, OnOk, Some, None, codes, option_map, option_and_then, is_some, unwrap_or, not, true, false};
ghost use Rattle.std.specs.List.{list_all};
ghost use Rattle.std.specs.Option.{option_map_or};
ghost use Rattle.serde_json.specs.Read.{read};
ghost use Rattle.serde_json.specs.View.{view, items_view};
ghost use Rattle.serde_json.specs.Data.{Data, no_members};
ghost use Rattle.serde_json.specs.Find.{as_str, as_bool, as_object, as_array, get, get_member};
ghost use Rattle.plan_json.specs.Place.{Place, at};
ghost use Rattle.plan_json.specs.Shape.{shape, shape_of_json, reading_of, is_element, has_other_key, is_key, members_in, fits, at_key, children_in};
ghost use Rattle.plan_json.specs.FirstFault.{no_element, another_key, HasFirstFault, IsTree};
ghost use Rattle.plan_json.specs.TreeSeen.{raw_view, has_objects, Gives, IsElement, ExactlyWhere, SucceedsWhere};

use crate::error::TreeError;
use crate::path::Path;
use crate::raw::RawElement;
use jm_base::Text;
use serde_json::{Map, Value};
use std::alloc::{AllocError, Global};

// The tree of elements that a text is, or the first refusal.
fn tree_of_text(alloc: Global, text: &str) -> Result<RawElement, TreeError>
    ensures tree { Gives raw_view result (shape_of_json (read text.now)) }
    ensures objects { IfOk result (λ tree. has_objects tree ≡ true) }
{
    match Value::from_str(alloc, text) {
        Ok(value) => {
            let mut places = Vec::new(alloc);
            element_of(alloc, &value, &mut places)
        }
        Err(error) if error.is_memory() => Err(TreeError::NoMemory),
        Err(_) => Err(TreeError::NotJson),
    }
}

// The tree of elements that bytes are, or the first refusal.
fn tree_of(alloc: Global, bytes: &[u8]) -> Result<RawElement, TreeError>
    ensures tree { Gives raw_view result (reading_of bytes.now) }
    ensures objects { IfOk result (λ tree. has_objects tree ≡ true) }
{
    let Ok(text) = std::str::from_utf8(bytes) else {
        return Err(TreeError::NotUtf8);
    };
    tree_of_text(alloc, text)
}

/// The tree of elements that the bytes of a plan are. Disabled elements are read and checked as the others.
pub fn read_tree(alloc: Global, bytes: &[u8]) -> Result<RawElement, TreeError>
    ensures exact { Gives raw_view result (reading_of bytes.now) }
    ensures objects { IfOk result (λ tree. IsTrue (has_objects tree)) }

    // When it succeeds, and when each refusal comes.
    ensures accepted { SucceedsWhere result (IsTree bytes.now) }
    ensures not_utf8 { ExactlyWhere result TreeError.NotUtf8 (¬ IsUtf8 bytes.now) }
    ensures not_json { ExactlyWhere result TreeError.NotJson (IsUtf8 bytes.now × (read bytes.now ≡ None)) }
    ensures not_element { (path : Place) → ExactlyWhere result (TreeError.NotElement path) (HasFirstFault bytes.now path no_element) }
    ensures unknown_key { (path : Place) → ExactlyWhere result (TreeError.UnknownKey path) (HasFirstFault bytes.now path another_key) }
{
    tree_of(alloc, bytes)
}

// What a value is at these places. They are as before where it succeeds.
fn element_of(alloc: Global, value: &Value, places: &mut Vec<u64>) -> Result<RawElement, TreeError>
    ensures shape { Gives raw_view result (shape places.old.items (view value.now)) }
    ensures places { OnOk result (places.new.items ≡ places.old.items) }
    ensures objects { IfOk result (λ tree. has_objects tree ≡ true) }
{
    if !is_element(value) {
        return Err(TreeError::NotElement {
            path: path_at(alloc, places)?,
        });
    }
    if has_other_key(value) {
        return Err(TreeError::UnknownKey {
            path: path_at(alloc, places)?,
        });
    }
    let mut children = Vec::new(alloc);
    'below: for (place, item) in items_of(value).iter().enumerate() {
        places.push(place as u64)?;
        children.push(element_of(alloc, item, places)?)?;
        places.pop();
    }
    own_element(alloc, value, children)
}

// The element that a value is, with these children.
fn own_element(
    alloc: Global,
    value: &Value,
    children: Vec<RawElement>,
) -> Result<RawElement, TreeError>
    ensures element { IsElement result (members_in (view value.now)) children.items }
    ensures objects { IfOk result (λ e. has_objects e ≡ list_all (λ b. b) (map has_objects children.items)) }
{
    let kind = text_at(value, "type").unwrap_or("");
    let name = text_at(value, "name").unwrap_or(kind);
    Ok(RawElement {
        kind: Text::new(alloc, kind.as_bytes())?,
        name: Text::new(alloc, name.as_bytes())?,
        enabled: flag_at(value, "enabled").unwrap_or(true),
        props: props_of(alloc, value)?,
        children,
    })
}

// The properties of an element, which may have none.
fn props_of(alloc: Global, value: &Value) -> Result<Value, AllocError>
    ensures members { IfOk result (λ v. members_in (view v) ≡ at_key (codes "props") as_object no_members (members_in (view value.now))) }
    ensures object { IfOk result (λ v. is_some (as_object (view v)) ≡ true) }
{
    match value.get("props") {
        Some(props) if props.is_object() => props.clone(),
        _ => Ok(Value::Object(Map::new(alloc))),
    }
}

// The path of the element at these places.
fn path_at(alloc: Global, places: &Vec<u64>) -> Result<Path, AllocError>
    ensures { IfOk result (λ p. p ≡ at places.now.items) }
{
    Ok(Path {
        places: Vec::from_slice(alloc, places)?,
        prop: None,
    })
}

// An object with a type, in which each of the five keys has a value of its form.
fn is_element(value: &Value) -> bool
    ensures { result ≡ option_map_or is_element (as_object (view value.now)) false }
{
    value.is_object()
        && has_type(value)
        && text_fits(value, "type")
        && text_fits(value, "name")
        && flag_fits(value, "enabled")
        && object_fits(value, "props")
        && list_fits(value, "children")
}

// Whether it has a type, of whatever form.
fn has_type(value: &Value) -> bool
    ensures { result ≡ is_some (get_member (codes "type") (members_in (view value.now))) }
{
    value.get("type").is_some()
}

// Whether there is nothing at the key, or a text.
fn text_fits(value: &Value, key: &str) -> bool
    ensures { result ≡ fits key.now as_str (members_in (view value.now)) }
{
    match value.get(key) {
        Some(found) => found.is_string(),
        None => true,
    }
}

// Whether there is nothing at the key, or `true` or `false`.
fn flag_fits(value: &Value, key: &str) -> bool
    ensures { result ≡ fits key.now as_bool (members_in (view value.now)) }
{
    match value.get(key) {
        Some(found) => found.is_boolean(),
        None => true,
    }
}

// Whether there is nothing at the key, or an object.
fn object_fits(value: &Value, key: &str) -> bool
    ensures { result ≡ fits key.now as_object (members_in (view value.now)) }
{
    match value.get(key) {
        Some(found) => found.is_object(),
        None => true,
    }
}

// Whether there is nothing at the key, or a list.
fn list_fits(value: &Value, key: &str) -> bool
    ensures { result ≡ fits key.now as_array (members_in (view value.now)) }
{
    match value.get(key) {
        Some(found) => found.is_array(),
        None => true,
    }
}

// Whether it has a key that is not one of the five.
fn has_other_key(value: &Value) -> bool
    ensures { result ≡ has_other_key (members_in (view value.now)) }
{
    let Value::Object(members) = value else {
        return false;
    };
    for (key, _) in members {
        if !is_key(key) {
            return true;
        }
    }
    false
}

// Whether it is one of the five keys.
fn is_key(key: &str) -> bool
    ensures { result ≡ is_key key.now }
{
    key == "type" || key == "name" || key == "enabled" || key == "props" || key == "children"
}

// The text at the key.
fn text_at<'a>(value: &'a Value, key: &str) -> Option<&'a str>
    ensures { option_map (λ s. s.now) result ≡ option_and_then as_str (get key.now (view value.now)) }
{
    value.get(key)?.as_str()
}

// The truth at the key.
fn flag_at(value: &Value, key: &str) -> Option<bool>
    ensures { result ≡ option_and_then as_bool (get key.now (view value.now)) }
{
    value.get(key)?.as_bool()
}

// The children as they are written.
fn items_of(value: &Value) -> &[Value]
    ensures { items_view result.now ≡ children_in (members_in (view value.now)) }
{
    match value.get("children") {
        Some(Value::Array(items)) => items,
        _ => &[],
    }
}
