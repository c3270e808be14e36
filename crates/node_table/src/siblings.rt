// The children that run, and for each element the next one that runs after it among the children of the element above it.

ghost use Rattle.std.specs.Prelude.{◌≡◌, ◌<◌, ℕ, None, length, slice_set, slice_index_or, IfOk};
ghost use Rattle.std.specs.List.{find, filter};
ghost use Rattle.cursor_steps.specs.RunningChildren.{is_run_at};
ghost use Rattle.node_table.specs.Building.{after_or, AreAfters};

use cursor_steps::is_run_at;
use element_tree::Plan;
use jm_base::{Items, M};
use std::alloc::Global;

/// Those of these elements that are controllers or samplers, in order.
pub fn runs_among(alloc: Global, plan: &Plan, numbers: &[u16]) -> M<Items<u16>>
    ensures { IfOk result (λ runs. runs ≡ filter (is_run_at plan.now.elements) numbers.now) }
{
    let runs = numbers
        .iter()
        .copied()
        .filter(|number| is_run_at(plan, *number))
        .collect(alloc)?;
    Ok(Items::of(runs))
}

/// The first of these elements that is a controller or a sampler.
pub fn first_run(plan: &Plan, numbers: &[u16]) -> Option<u16>
    ensures { result ≡ find (is_run_at plan.now.elements) numbers.now }
{
    numbers
        .iter()
        .copied()
        .find(|number| is_run_at(plan, *number))
}

// Sets what comes after an element.
fn put_after(afters: &mut Vec<Option<u16>>, number: u16, after: Option<u16>)
    ensures { afters.new.items ≡ slice_set afters.old.items number after }
{
    if let Some(place) = afters.get_mut(usize::from(number)) {
        *place = after;
    }
}

// Sets for each of these children, from the last to the first, which of them runs after it.
fn link_children(plan: &Plan, children: &[u16], afters: &mut Vec<Option<u16>>)
    ensures count { length afters.new.items ≡ length afters.old.items }
    ensures each { (n : ℕ) → n < length afters.old.items
        → slice_index_or afters.new.items n None ≡ after_or (is_run_at plan.now.elements) children.now n (slice_index_or afters.old.items n None) }
{
    let mut next = None;
    let mut place = children.len();
    'children: while place > 0 {
        place -= 1;
        let child = children[place];
        put_after(afters, child, next);
        if is_run_at(plan, child) {
            next = Some(child);
        }
    }
}

/// For each element, by its number, the next one that runs after it.
pub fn afters_of(alloc: Global, plan: &Plan) -> M<Vec<Option<u16>>>
    ensures { IfOk result (λ afters. AreAfters plan.now.elements afters.items) }
{
    let mut afters = vec![in alloc; None; plan.elements().len()]?;
    'elements: for element in plan.elements() {
        link_children(plan, element.children.as_slice(), &mut afters);
    }
    Ok(afters)
}
