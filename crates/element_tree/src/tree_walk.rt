// The walk over a tree, from its elements to a plan.

ghost use Rattle.std.specs.Prelude.{◌≡◌, ◌<◌, ◌≤◌, ◌+◌, ◌||◌, ◌++◌, ◌∷◌, [], length, OnOk, map, IfOk, Some, Ok, Err, codes};
ghost use Rattle.std.specs.List.{list_any};
ghost use Rattle.serde_json.specs.View.{view};
ghost use Rattle.plan_json.specs.Place.{Place, at};
ghost use Rattle.plan_json.specs.Shape.{members_in};
ghost use Rattle.plan_json.specs.TreeSeen.{raw_view, raws_of};
ghost use Rattle.jm_base.specs.FaultCounts.{Rose};
ghost use Rattle.element_props.specs.Answers.{IsByPlan};
ghost use Rattle.element_props.specs.Reads.{Gives, Answers, judged};
ghost use Rattle.element_props.specs.declared.error.BuildError.{BuildError};
ghost use Rattle.element_props.specs.declared.error.PatternFault.TheVariants.{Size};
ghost use Rattle.element_props.specs.declared.error.BuildError.TheVariants.{TooMany, BadPattern};
ghost use Rattle.element_tree.specs.Types.{may_stand, is_root, is_group, is_leaf, is_inner, class_of_type, is_section_type};
ghost use Rattle.element_tree.specs.Threads.{is_group_element};
ghost use Rattle.element_tree.specs.Walk.{is_enabled, has_enabled, is_right, placed, own, own_of, elements, spot_of, Adds, node, with_children, known_version, version_of, version_in, root_spot, counted, walked, tree_of, reading, IsWalked, Refuses};
ghost use Rattle.element_tree.specs.Tree.{AreTables};

use crate::kinds::{Element, Kind};
use crate::make::kind_of;
use crate::names::{Naming, names_of, numbers_in};
use crate::plan::{Plan, Tables};
use crate::table::{rows, type_of_name};
use crate::threads::threads_of;
use crate::types::{Class, ElementType};
use element_props::{BuildError, Patterns, What, own_properties};
use jm_base::{Items, Text};
use plan_json::{Path, RawElement};
use serde_json::Value;
use std::alloc::{AllocError, Global};

/// The most elements that a plan may have.
const ELEMENT_LIMIT: usize = 4096;

/// How deep the elements of a plan may nest, the root counting as 1.
const NESTING_LIMIT: usize = 32;

/// The most bytes that an element's name may have.
const NAME_SIZE: usize = 256;

/// Where an element stands, but for its place among its siblings.
#[derive(Clone, Copy)]
struct Spot {
    above: Option<Class>,
    depth: usize,
    inside: bool,
    parent: u16,
    version: u8,
}

fn is_root(class: Class) -> bool
    ensures { result ≡ is_root class }
{
    matches!(class, Class::Root)
}

fn is_group(class: Class) -> bool
    ensures { result ≡ is_group class }
{
    matches!(class, Class::Group)
}

fn is_inner(class: Class) -> bool
    ensures { result ≡ is_inner class }
{
    matches!(class, Class::Group | Class::Controller)
}

fn is_leaf(class: Class) -> bool
    ensures { result ≡ is_leaf class }
{
    !matches!(
        class,
        Class::Root | Class::Group | Class::Controller | Class::Sampler
    )
}

fn is_section(kind: ElementType) -> bool
    ensures { result ≡ is_section_type kind }
{
    matches!(kind, ElementType::CriticalSection)
}

// Whether an element of this class may stand right below one of that class, or, where nothing is above it, be the root.
fn may_stand(above: Option<Class>, class: Class) -> bool
    ensures { result ≡ may_stand above class }
{
    let Some(above) = above else {
        return is_root(class);
    };
    if is_root(class) {
        false
    } else if is_group(class) {
        is_root(above)
    } else if is_leaf(class) {
        !is_leaf(above)
    } else {
        is_inner(above)
    }
}

fn is_enabled(element: &RawElement) -> bool
    ensures { result ≡ is_enabled (raw_view element.now) }
{
    element.enabled
}

fn any_enabled(children: &[RawElement]) -> bool
    ensures { result ≡ list_any (λ child. is_enabled (raw_view child)) children.now }
{
    children.iter().any(|child| is_enabled(child))
}

fn has_enabled(children: &[RawElement]) -> bool
    ensures { result ≡ has_enabled (raws_of (map raw_view children.now)) }
{
    any_enabled(children)
}

fn is_right(
    spot: Spot,
    enabled: bool,
    children: &[RawElement],
    kind: ElementType,
    places: &[u64],
) -> bool
    ensures { result ≡ is_right (spot_of spot places.now) enabled (raws_of (map raw_view children.now)) kind }
{
    let class = kind.class();
    enabled
        && may_stand(spot.above, class)
        && !(spot.inside && is_section(kind))
        && !(is_leaf(class) && has_enabled(children))
}

fn path_at(alloc: Global, places: &[u64]) -> Result<Path, AllocError>
    ensures { IfOk result (λ p. p ≡ at places.now) }
{
    Ok(Path {
        places: Vec::from_slice(alloc, places)?,
        prop: None,
    })
}

// The checks of an element before its properties, in order.
fn placed(
    alloc: Global,
    spot: Spot,
    number: usize,
    kind: &Text,
    name: &Text,
    enabled: bool,
    children: &[RawElement],
    places: &[u64],
) -> Result<ElementType, BuildError>
    ensures answers { Answers (λ t. t) (placed (spot_of spot places.now) number kind.now name.now enabled (raws_of (map raw_view children.now))) result }
    ensures few { OnOk result (number < ELEMENT_LIMIT) }
    ensures deep { OnOk result (spot.depth ≤ NESTING_LIMIT) }
{
    if number >= ELEMENT_LIMIT {
        return Err(BuildError::TooMany {
            path: path_at(alloc, places)?,
            what: What::Elements,
        });
    }
    let Some(kind) = type_of_name(kind.bytes()) else {
        return Err(BuildError::UnknownType {
            path: path_at(alloc, places)?,
        });
    };
    if spot.depth > NESTING_LIMIT {
        return Err(BuildError::TooDeep {
            path: path_at(alloc, places)?,
        });
    }
    if !is_right(spot, enabled, children, kind, places) {
        return Err(BuildError::WrongPlace {
            path: path_at(alloc, places)?,
        });
    }
    if name.bytes().len() > NAME_SIZE {
        return Err(BuildError::TooMany {
            path: path_at(alloc, places)?,
            what: What::Text,
        });
    }
    Ok(kind)
}

// An element's own type and kind.
fn own<G: Patterns>(
    alloc: Global,
    spot: Spot,
    number: usize,
    raw: &RawElement,
    places: &[u64],
    patterns: &mut G,
) -> Result<(ElementType, Kind), BuildError>
    ensures gives { Gives (λ o. o) (G.account patterns.old) (own_of (spot_of spot places.now) number (raw_view raw.now)) result (G.account patterns.new) }
    ensures few { OnOk result (number < ELEMENT_LIMIT) }
    ensures deep { OnOk result (spot.depth ≤ NESTING_LIMIT) }
{
    let kind = placed(
        alloc,
        spot,
        number,
        &raw.kind,
        &raw.name,
        raw.enabled,
        &raw.children,
        places,
    )?;
    let props = own_properties(
        alloc,
        rows(spot.version, kind),
        places,
        &raw.props,
        patterns,
    )?;
    match kind_of(kind, props) {
        Some(made) => Ok((kind, made)),
        None => Err(BuildError::BadProp {
            path: path_at(alloc, places)?,
        }),
    }
}

// An element whose children are not known yet.
fn childless(alloc: Global, name: &Text, kind: Kind, parent: u16) -> Result<Element, AllocError>
    ensures { IfOk result (λ e. e ≡ node name.now kind parent []) }
{
    Ok(Element {
        name: Text::of(Vec::from_slice(alloc, name.bytes())?),
        kind,
        parent,
        children: Items::of(Vec::new(alloc)),
    })
}

fn set_children(elements: &mut Vec<Element>, number: usize, children: Vec<u16>)
    requires { number < length elements.old.items }
    ensures { elements.new.items ≡ with_children elements.old.items number children.items }
{
    elements[number].children = Items::of(children);
}

// Where the elements below an element of this type and number stand.
fn spot_below(spot: Spot, kind: ElementType, number: u16) -> Spot
    requires { spot.depth ≤ NESTING_LIMIT }
    ensures { result ≡ record { above = Some (class_of_type kind); depth = spot.depth + 1; inside = spot.inside || is_section_type kind; parent = number; version = spot.version } }
{
    Spot {
        above: Some(kind.class()),
        depth: spot.depth + 1,
        inside: spot.inside || is_section(kind),
        parent: number,
        version: spot.version,
    }
}

// The element at this spot, and after it those below it.
fn walk<G: Patterns>(
    alloc: Global,
    spot: Spot,
    raw: &RawElement,
    out: &mut Vec<Element>,
    places: &mut Vec<u64>,
    patterns: &mut G,
) -> Result<(), BuildError>
    ensures adds { Adds (G.account patterns.old) (elements (spot_of spot places.old.items) (length out.old.items) (raw_view raw.now)) out.old.items result out.new.items (G.account patterns.new) }
    ensures places { OnOk result (places.new.items ≡ places.old.items) }
    ensures room { OnOk result (length out.new.items ≤ ELEMENT_LIMIT) }
{
    let number = out.len();
    let (kind, made) = own(alloc, spot, number, raw, places, patterns)?;
    let below = spot_below(spot, kind, number as u16);
    out.push(childless(alloc, &raw.name, made, spot.parent)?)?;
    let mut numbers = Vec::new(alloc);
    'below: for (place, child) in raw.children.iter().enumerate() {
        if !child.enabled {
            continue;
        }
        numbers.push(out.len() as u16)?;
        places.push(place as u64)?;
        walk(alloc, below, child, out, places, patterns)?;
        places.pop();
    }
    set_children(out, number, numbers);
    Ok(())
}

fn known_version(version: u64) -> Option<u8>
    ensures { result ≡ known_version version }
{
    if version == 1 { Some(1) } else { None }
}

// The version of the plan's format that the root's properties give, 1 where they give none that is known.
fn version_of(props: &Value) -> u8
    ensures { result ≡ version_of (members_in (view props.now)) }
{
    match props.get("version") {
        Some(value) => match value.as_u64() {
            Some(version) => known_version(version).unwrap_or(1),
            None => 1,
        },
        None => 1,
    }
}

fn children_path(alloc: Global) -> Result<Path, AllocError>
    ensures { IfOk result (λ p. p ≡ record { places = []; prop = Some (codes "children") }) }
{
    Ok(Path {
        places: Vec::new(alloc),
        prop: Some(Text::of(Vec::from_slice(alloc, "children".as_bytes())?)),
    })
}

fn is_group_element(element: &Element) -> bool
    ensures { result ≡ is_group_element element.now }
{
    matches!(&element.kind, Kind::ThreadGroup { .. })
}

fn has_group(elements: &[Element]) -> bool
    ensures { result ≡ list_any is_group_element elements.now }
{
    elements.iter().any(|element| is_group_element(element))
}

fn version_in(elements: &[Element]) -> u8
    ensures { result ≡ version_in elements.now }
{
    match elements {
        [] => 1,
        [root, ..] => match &root.kind {
            Kind::TestPlan { version } => *version,
            _ => 1,
        },
    }
}

fn too_many(alloc: Global, what: What) -> Result<BuildError, AllocError>
    ensures { IfOk result (λ e. e ≡ TooMany (at []) what) }
{
    Ok(BuildError::TooMany {
        path: path_at(alloc, &[])?,
        what,
    })
}

// What is looked up beside these elements, where there is a thread group and not too much of anything.
fn tables_of(alloc: Global, elements: &[Element]) -> Result<Tables, BuildError>
    requires { length elements.now ≤ ELEMENT_LIMIT }
    ensures answers { Answers (λ t. tree_of elements.now) (counted elements.now) result }
    ensures tables { IfOk result (λ t. AreTables elements.now t.labels t.label_numbers t.locks t.lock_numbers t.threads) }
{
    if !has_group(elements) {
        return Err(BuildError::MissingProp {
            path: children_path(alloc)?,
        });
    }
    let Some(threads) = threads_of(alloc, elements)? else {
        return Err(too_many(alloc, What::Threads)?);
    };
    let Some(labels) = names_of(alloc, Naming::Label, elements)? else {
        return Err(too_many(alloc, What::Labels)?);
    };
    let Some(locks) = names_of(alloc, Naming::Lock, elements)? else {
        return Err(too_many(alloc, What::Locks)?);
    };
    let label_numbers = numbers_in(alloc, Naming::Label, elements, &labels)?;
    let lock_numbers = numbers_in(alloc, Naming::Lock, elements, &locks)?;
    Ok(Tables {
        labels: Items::of(labels),
        label_numbers: Items::of(label_numbers),
        locks: Items::of(locks),
        lock_numbers: Items::of(lock_numbers),
        threads: Items::of(threads),
    })
}

// The plan with these elements, which are those of a tree.
fn plan_of(alloc: Global, elements: Vec<Element>) -> Result<Plan, BuildError>
    requires walked { IsWalked elements.items }
    requires few { length elements.items ≤ ELEMENT_LIMIT }
    ensures { Answers (λ p. p) (counted elements.items) result }
{
    let tables = tables_of(alloc, &elements)?;
    let version = version_in(&elements);
    let plan = Plan::of(version, elements, tables);
    Ok(plan)
}

// The plan of a tree, or the first refusal.
fn plan_in<G: Patterns>(
    alloc: Global,
    tree: &RawElement,
    patterns: &mut G,
) -> Result<Plan, BuildError>
    ensures { Gives (λ p. p) (G.account patterns.old) (reading (raw_view tree.now)) result (G.account patterns.new) }
{
    let mut elements = Vec::new(alloc);
    let mut places = Vec::new(alloc);
    let spot = Spot {
        above: None,
        depth: 1,
        inside: false,
        parent: 0,
        version: version_of(&tree.props),
    };
    walk(alloc, spot, tree, &mut elements, &mut places, patterns)?;
    let plan = plan_of(alloc, elements)?;
    Ok(plan)
}

/// The plan of a tree: its enabled elements in tree order, or the first refusal on the way. At each element its place is
/// judged before its properties, and what is counted over the whole plan comes last. Each regular expression that is met
/// is asked of `patterns`, in the order of the walk, and nothing else is.
pub fn build<G: Patterns>(
    alloc: Global,
    tree: &RawElement,
    patterns: &mut G,
) -> Result<Plan, BuildError>
    // What was asked and answered is what the reading of the tree gives, one pattern after another.
    ensures reading { Gives (λ p. p) (G.account patterns.old) (reading (raw_view tree.now)) result (G.account patterns.new) }
    // A plan is the one that the tree reads as, each pattern being judged by the grammar of regular expressions.
    ensures accepted { IfOk result (λ plan. judged (reading (raw_view tree.now)) ≡ Ok plan) }
    // A refusal, but for a pattern's size and for memory, is the first of the reading.
    ensures refused { (e : BuildError) → result ≡ Err e → IsByPlan e → judged (reading (raw_view tree.now)) ≡ Err e }
    // Where the reading refuses, so does the call: with that refusal, or with the size of a pattern before it, or out of memory.
    ensures exact { (e : BuildError) → judged (reading (raw_view tree.now)) ≡ Err e → Refuses result e }
    // A pattern is refused by its size only where its maker counted one.
    ensures size { (p : Place) → result ≡ Err (BadPattern p Size) → Rose (G.account patterns.old).oversize (G.account patterns.new).oversize }
{
    plan_in(alloc, tree, patterns)
}
