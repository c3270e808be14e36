// The package of a sampler: the elements that apply to it, class by class.

ghost use Rattle.std.specs.Prelude.{◌≡◌, ◌↔◌, ℕ, IfOk, IsTrue, Some};
ghost use Rattle.std.specs.List.{AllPairs, Contains, filter};
ghost use Rattle.element_tree.specs.declared.types.Class.{Class};
ghost use Rattle.element_tree.specs.Types.{is_leaf};
ghost use Rattle.scope_resolver.specs.Scoping.{same_class, class_at, is_of_class, AppliesTo, ActsBefore, list_of, scope_of};

use crate::levels::applying_to;
use element_tree::{Class, Package, Plan};
use jm_base::M;
use std::alloc::Global;

fn same_class(a: Class, b: Class) -> bool
    ensures { result ≡ same_class a b }
{
    a == b
}

fn is_of_class(plan: &Plan, class: Class, number: u16) -> bool
    ensures { result ≡ is_of_class plan.now.elements class number }
{
    match plan.element(number) {
        Some(element) => same_class(class, element.kind.element_type().class()),
        None => false,
    }
}

// Those of these elements that are of this class, in their order.
fn of_class(alloc: Global, plan: &Plan, numbers: &[u16], class: Class) -> M<Vec<u16>>
    ensures { IfOk result (λ found. found.items ≡ filter (is_of_class plan.now.elements class) numbers.now) }
{
    let mut found = Vec::new(alloc);
    'numbers: for number in numbers {
        if is_of_class(plan, class, *number) {
            found.push(*number)?;
        }
    }
    Ok(found)
}

/// The package of a sampler: for each class the numbers of the elements that apply to it, in the order in which they act
/// (the manual's "Scoping Rules" and "Execution order"). What hangs directly on the sampler applies to it, and what hangs
/// on an element above it, up to the plan itself. Those of the outermost level come first, and those of one level in tree
/// order. Of another element than a sampler the lists are the same: what hangs on it and on the elements above it.
pub fn package(alloc: Global, plan: &Plan, sampler: u16) -> M<Package>
    ensures package { IfOk result (λ p. p ≡ scope_of plan.now.elements sampler) }
    ensures members { IfOk result (λ p. (class : Class) → IsTrue (is_leaf class) → (n : ℕ)
        → Contains (list_of p class) n ↔ ((class_at plan.now.elements n ≡ Some class) × AppliesTo plan.now.elements n sampler)) }
    ensures order { IfOk result (λ p. (class : Class) → AllPairs (ActsBefore plan.now.elements) (list_of p class)) }
{
    let _elements = plan.elements();
    let applying = applying_to(alloc, plan, sampler)?;
    let numbers = applying.as_slice();
    Ok(Package {
        config: of_class(alloc, plan, numbers, Class::Config)?,
        pre: of_class(alloc, plan, numbers, Class::PreProcessor)?,
        timers: of_class(alloc, plan, numbers, Class::Timer)?,
        post: of_class(alloc, plan, numbers, Class::PostProcessor)?,
        assertions: of_class(alloc, plan, numbers, Class::Assertion)?,
        listeners: of_class(alloc, plan, numbers, Class::Listener)?,
    })
}
