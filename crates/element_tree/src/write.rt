// A plan as it is written.

ghost use Rattle.std.specs.Prelude.{◌≡◌, ℕ, ◌-◌, ◌<◌, IfOk, Some, Ok, slice_get, true};
ghost use Rattle.std.specs.List.{AllByRecursion};
ghost use Rattle.std.specs.Option.{option_copied};
ghost use Rattle.std.specs.Str.Lossy.{utf8_lossy};
ghost use Rattle.serde_json.specs.Data.{string};
ghost use Rattle.serde_json.specs.View.{view, items_view, members_view};
ghost use Rattle.plan_json.specs.Shape.{reading_of};
ghost use Rattle.element_tree.specs.declared.kinds.Element.{Element};
ghost use Rattle.element_tree.specs.FormedPlan.{HasForms};
ghost use Rattle.element_tree.specs.Table.{type_name};
ghost use Rattle.element_tree.specs.Tree.{Nests};
ghost use Rattle.element_tree.specs.Types.{type_of};
ghost use Rattle.element_tree.specs.PlanWritten.{data_of, five_keys, plan_text, plan_tree, written_props, written_tree};

use crate::kinds::{Element, Kind};
use crate::plan::Plan;
use crate::table::{rows, type_name};
use crate::values::values_of;
use element_props::written_members;
use jm_base::M;
use serde_json::{Map, Value};
use std::alloc::Global;

/// How deep the elements of a plan may nest, the root counting as 1.
const NESTING_LIMIT: usize = 32;

fn text_value(alloc: Global, text: &[u8]) -> M<Value>
    ensures { IfOk result (λ v. view v ≡ string (utf8_lossy text.now)) }
{
    let text = String::from_utf8_lossy(alloc, text)?;
    Ok(Value::String(text))
}

fn type_value(alloc: Global, kind: &Kind) -> M<Value>
    ensures { IfOk result (λ v. view v ≡ string (type_name (type_of kind.now))) }
{
    let name = String::from_str(alloc, type_name(kind.element_type()))?;
    Ok(Value::String(name))
}

// The properties of an element in a plan of this version.
fn props_map(alloc: Global, version: u8, kind: &Kind) -> M<Map<String, Value>>
    requires { HasForms kind.now }
    ensures { IfOk result (λ m. members_view m.entries ≡ written_props version kind.now) }
{
    let values = values_of(alloc, kind)?;
    let map = written_members(alloc, rows(version, kind.element_type()), &values)?;
    Ok(map)
}

// An element with all five keys.
fn element_value(alloc: Global, version: u8, element: &Element, children: Vec<Value>) -> M<Value>
    requires { HasForms element.now.kind }
    ensures { IfOk result (λ v. view v ≡ five_keys (type_name (type_of element.now.kind)) (utf8_lossy element.now.name) true (written_props version element.now.kind) (items_view children.items)) }
{
    let kind = type_value(alloc, &element.kind)?;
    let name = text_value(alloc, element.name.bytes())?;
    let props = props_map(alloc, version, &element.kind)?;
    let mut map = Map::new(alloc);
    map.insert(String::from_str(alloc, "children")?, Value::Array(children))?;
    map.insert(String::from_str(alloc, "enabled")?, Value::Bool(true))?;
    map.insert(String::from_str(alloc, "name")?, name)?;
    map.insert(String::from_str(alloc, "props")?, Value::Object(props))?;
    map.insert(String::from_str(alloc, "type")?, kind)?;
    Ok(Value::Object(map))
}

fn element_in(elements: &[Element], number: u16) -> Option<&Element>
    ensures { option_copied result ≡ slice_get elements.now number }
{
    elements.get(usize::from(number))
}

// The element of this number, where elements nest at most that deep.
fn element_at(elements: &[Element], number: u16, depth: usize) -> &Element
    requires { Nests depth elements.now number }
    ensures found { slice_get elements.now number ≡ Some result.now }
    ensures deep { 0 < depth }
    ensures below { AllByRecursion (Nests (depth - 1) elements.now) result.now.children }
{
    match element_in(elements, number) {
        Some(element) => element,
        None => unreachable!(),
    }
}

// The element of this number and those below it, where elements nest at most that deep.
fn tree_value(
    alloc: Global,
    version: u8,
    elements: &[Element],
    number: u16,
    depth: usize,
) -> M<Value>
    requires nests { Nests depth elements.now number }
    requires forms { (n : ℕ) (e : Element) → slice_get elements.now n ≡ Some e → HasForms e.kind }
    ensures { IfOk result (λ v. view v ≡ data_of (written_tree depth (record { version = version; elements = elements.now }) number)) }
{
    let element = element_at(elements, number, depth);
    let mut children = Vec::new(alloc);
    'children: for child in element.children.as_slice() {
        let value = tree_value(alloc, version, elements, *child, depth - 1)?;
        children.push(value)?;
    }
    let value = element_value(alloc, version, element, children)?;
    Ok(value)
}

/// The plan as compact JSON: its elements, all of which are enabled, each with its five keys in byte order, and at `props` exactly
/// the properties whose value differs from the default, in byte order. A text that isn't UTF-8 is written with U+FFFD in the place
/// of each invalid sequence.
pub fn write_plan(alloc: Global, plan: &Plan) -> M<Vec<u8>>
    ensures text { IfOk result (λ text. text.items ≡ plan_text plan.now) }
    // The text is read as the tree of the plan's elements.
    ensures read_back { IfOk result (λ text. reading_of text.items ≡ Ok (plan_tree plan.now)) }
{
    let value = tree_value(alloc, plan.version(), plan.elements(), 0, NESTING_LIMIT)?;
    let text = value.to_vec(alloc)?;
    Ok(text)
}
