//! Threads may share a plan, since nothing in a plan is a cell.
//!
//! The lemmas say so of each part of a plan, and the engine's threads need them. The two functions need them too: where an
//! element gets a part that threads may not share, their check fails first.
#![tactic(auto)]

ghost use Rattle.std.specs.Prelude.{◌≡◌, length};
ghost use Rattle.element_tree.specs.Types.{type_of};

use element_tree::{ElementType, Kind, Plan};
use std::thread::{Threads, join};

/// The type of an element of this kind, as each of two threads reads it.
pub fn read_kind_at_once<R: Threads>(rt: &R, kind: &Kind) -> (ElementType, ElementType)
    ensures { (result.0 ≡ type_of kind.now) × (result.1 ≡ type_of kind.now) }
{
    join(
        rt,
        move || -> ElementType
            ensures { result ≡ type_of kind.entry.now }
        { kind.element_type() },
        move || -> ElementType
            ensures { result ≡ type_of kind.entry.now }
        { kind.element_type() },
    )
}

/// The number of a plan's elements, as each of two threads counts them.
pub fn read_plan_at_once<R: Threads>(rt: &R, plan: &Plan) -> (usize, usize)
    ensures { (result.0 ≡ length plan.now.elements) × (result.1 ≡ length plan.now.elements) }
{
    join(
        rt,
        move || -> usize
            ensures { result ≡ length plan.entry.now.elements }
        { plan.elements().len() },
        move || -> usize
            ensures { result ≡ length plan.entry.now.elements }
        { plan.elements().len() },
    )
}
