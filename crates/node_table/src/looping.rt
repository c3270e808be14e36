// The elements that run in rounds.

ghost use Rattle.std.specs.Prelude.{◌≡◌, if◌then◌else◌, Some};
ghost use Rattle.node_table.specs.ElementLinks.{is_looping_type, is_looping_at};
ghost use Rattle.node_table.specs.Building.{above_at};

use crate::element_links::Link;
use element_tree::{ElementType, Plan};

// Whether elements of this type run in rounds.
fn is_looping_type(element_type: ElementType) -> bool
    ensures { result ≡ is_looping_type element_type }
{
    matches!(
        element_type,
        ElementType::ThreadGroup | ElementType::Loop | ElementType::While | ElementType::ForEach
    )
}

// Whether the element of this number runs in rounds.
fn is_looping_at(plan: &Plan, number: u16) -> bool
    ensures { result ≡ is_looping_at plan.now.elements number }
{
    match plan.element(number) {
        Some(element) => is_looping_type(element.kind.element_type()),
        None => false,
    }
}

// What the links of this number say of the elements above it.
fn above_at(links: &[Link], number: u16) -> Option<u16>
    ensures { result ≡ above_at links.now number }
{
    match links.get(usize::from(number)) {
        Some(link) => link.above,
        None => None,
    }
}

/// The nearest element that runs in rounds, from the parent of an element on upwards. The links are those of all elements
/// before it.
pub fn looping_from(plan: &Plan, links: &[Link], parent: u16) -> Option<u16>
    ensures { result ≡ (if is_looping_at plan.now.elements parent then Some parent else above_at links.now parent) }
{
    if is_looping_at(plan, parent) {
        Some(parent)
    } else {
        above_at(links, parent)
    }
}
