// The children of an element that are run.

ghost use Rattle.std.specs.Prelude.{◌≡◌, IfOk, slice_get};
ghost use Rattle.jm_meaning.specs.Children.{children_of};

use cursor_steps::is_run_at;
use element_tree::{Element, Plan};
use jm_base::M;
use std::alloc::Global;

/// The children of an element that are run, in order.
pub fn children_of(alloc: Global, plan: &Plan, element: &Element) -> M<Vec<u16>>
    ensures { IfOk result (λ children. children.items ≡ children_of plan.now.elements element.now) }
{
    let mut children = Vec::new(alloc);
    for child in element.children.as_slice() {
        if is_run_at(plan, *child) {
            children.push(*child)?;
        }
    }
    children.truncate(65535);
    Ok(children)
}

/// The child at a place, where there is one.
pub fn child_at(children: &[u16], place: u16) -> Option<u16>
    ensures { result ≡ slice_get children.now place }
{
    children.get(usize::from(place)).copied()
}
