// The levels of the tree that matter to a sampler: the sampler and all elements above it, and what hangs on each.

ghost use Rattle.std.specs.Prelude.{◌≡◌, ◌<◌, ◌≤◌, ◌&&◌, ◌++◌, IfOk, OnOk, length, nat_eq, nat_lt};
ghost use Rattle.std.specs.List.{flat_map};
ghost use Rattle.scope_resolver.specs.Scoping.{parent_in, line_to, hanging_on, applying_to};

use element_tree::{Element, Plan};
use jm_base::M;
use std::alloc::Global;

// The number of an element's parent. The root is its own, and every other element has a parent with a lower number.
fn parent_in(plan: &Plan, number: u16) -> u16
    ensures parent { result ≡ parent_in plan.now.elements number }
    ensures earlier { 0 < number → result < number }
{
    let _elements = plan.elements();
    match plan.element(number) {
        Some(element) => element.parent,
        None => 0,
    }
}

/// An element and all above it, from the root down to it.
pub fn line_to(alloc: Global, plan: &Plan, number: u16) -> M<Vec<u16>>
    ensures line { IfOk result (λ line. line.items ≡ line_to plan.now.elements number) }
{
    let _elements = plan.elements();
    let mut line = Vec::new(alloc);
    let mut here = number;
    'up: while here > 0 {
        line.push(here)?;
        here = parent_in(plan, here);
    }
    line.push(here)?;
    line.reverse();
    Ok(line)
}

// Whether an element, which has this number, hangs directly on the other one. The root hangs on nothing.
fn hangs_on(level: u16, number: usize, element: &Element) -> bool
    ensures { result ≡ (nat_lt 0 number && nat_eq element.now.parent level) }
{
    number > 0 && element.parent == level
}

// Adds what hangs directly on an element, in tree order.
fn add_hanging(elements: &[Element], level: u16, found: &mut Vec<u16>) -> M<()>
    requires { length elements.now ≤ 4096 }
    ensures { OnOk result (found.new.items ≡ found.old.items ++ hanging_on elements.now level) }
{
    'elements: for (number, element) in elements.iter().enumerate() {
        if hangs_on(level, number, element) {
            found.push(number as u16)?;
        }
    }
    Ok(())
}

// What hangs on the elements of a line: level by level, in tree order within a level.
fn hanging_along(alloc: Global, elements: &[Element], line: &[u16]) -> M<Vec<u16>>
    requires { length elements.now ≤ 4096 }
    ensures { IfOk result (λ found. found.items ≡ flat_map (hanging_on elements.now) line.now) }
{
    let mut found = Vec::new(alloc);
    'levels: for level in line {
        add_hanging(elements, *level, &mut found)?;
    }
    Ok(found)
}

/// What hangs on an element or on one above it, of any class: level by level from the root down to the element, in tree
/// order within a level.
#[tactic(auto, unfolding(crate::specs::Ancestry::applying_by))]
pub(crate) fn applying_to(alloc: Global, plan: &Plan, number: u16) -> M<Vec<u16>>
    ensures { IfOk result (λ found. found.items ≡ applying_to plan.now.elements number) }
{
    let line = line_to(alloc, plan, number)?;
    let found = hanging_along(alloc, plan.elements(), line.as_slice())?;
    Ok(found)
}
