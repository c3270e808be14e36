// Where an element of a plan stands in the tree that it was built of.

ghost use Rattle.std.specs.Prelude.{◌≡◌, ◌++◌, IfOk, OnOk, [], slice_get, unwrap_or};
ghost use Rattle.plan_json.specs.TreeSeen.{raw_view};
ghost use Rattle.jm_command.specs.Refusals.{places_of};

use jm_base::{Items, M};
use plan_json::RawElement;
use std::alloc::Global;

/// The steps from the root to the enabled element of this number.
pub(crate) fn places_at(alloc: Global, tree: &RawElement, number: usize) -> M<Vec<u64>>
    ensures { IfOk result (λ places. places.items ≡ unwrap_or (slice_get (places_of [] (raw_view tree.now)) number) []) }
{
    let mut all = Vec::new(alloc);
    let mut here = Vec::new(alloc);
    push_places(alloc, tree, &mut here, &mut all)?;
    match all.get(number) {
        Some(places) => Ok(Vec::from_slice(alloc, places.as_slice())?),
        None => Ok(Vec::new(alloc)),
    }
}

// Appends the steps to an element that is here, and to the enabled elements below it.
fn push_places(
    alloc: Global,
    tree: &RawElement,
    here: &mut Vec<u64>,
    all: &mut Vec<Items<u64>>,
) -> M<()>
    ensures all { OnOk result (all.new.items ≡ all.old.items ++ places_of here.old.items (raw_view tree.now)) }
    ensures here { OnOk result (here.new.items ≡ here.old.items) }
{
    all.push(Items::of(Vec::from_slice(alloc, here)?))?;
    'below: for (place, child) in tree.children.iter().enumerate() {
        if !child.enabled {
            continue;
        }
        here.push(place as u64)?;
        push_places(alloc, child, here, all)?;
        here.pop();
    }
    Ok(())
}
