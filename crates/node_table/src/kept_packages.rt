// The packages of a plan's samplers.

ghost use Rattle.std.specs.Prelude.{◌≡◌, ◌++◌, List, Some, None, [], map, slice_get, slice_index_or, unwrap_or, IfOk, IsSome};
ghost use Rattle.std.specs.List.{range_with_len};
ghost use Rattle.std.specs.Option.{option_copied};
ghost use Rattle.element_tree.specs.declared.kinds.Element.{Element};
ghost use Rattle.element_tree.specs.Tree.{IsPlan};
ghost use Rattle.element_tree.specs.Types.{is_leaf};
ghost use Rattle.scope_resolver.specs.Scoping.{scope_of};
ghost use Rattle.node_table.specs.Building.{IsHanging, no_scope, with_hanging};
ghost use Rattle.node_table.specs.KeptPackages.{kept_of, packages_of, package_at};

use crate::hanging::{Hanging, Numbers, all_hanging};
use element_tree::{Class, Element, Package, Plan};
use jm_base::M;
use std::alloc::Global;
use std::marker::Model;

/// The packages of all samplers of a plan: for each the elements that apply to it, class by class, in the order in which
/// they act (the manual's "Scoping Rules" and "Execution order"). The elements above samplers have theirs too.
pub struct NodeTable {
    packages: Vec<Option<Package>>,
}

// Written out, so that other crates let a table go by one call.
impl Drop for NodeTable {
    fn drop(self) {
        let Self {
            packages: _packages,
        } = self;
    }
}

impl Model for NodeTable {
    ghost use Rattle.std.specs.Prelude.{List, Option};
    ghost use Rattle.element_tree.specs.Scope.{Scope};

    ghost Value = { List (Option Scope) };

    ghost view = { λ t. t.packages.items };
}

// Whether elements of this class only take part in samples.
fn is_leaf(class: Class) -> bool
    ensures { result ≡ is_leaf class }
{
    !matches!(
        class,
        Class::Root | Class::Group | Class::Controller | Class::Sampler
    )
}

// The list of this number.
fn list_at(lists: &[Numbers], number: u16) -> &[u16]
    ensures { result.now ≡ slice_index_or lists.now number [] }
{
    match lists.get(usize::from(number)) {
        Some(list) => list.as_slice(),
        None => &[],
    }
}

// Two lists, one after the other, with room for no more than they have.
fn joined(alloc: Global, above: &[u16], here: &[u16]) -> M<Vec<u16>>
    ensures { IfOk result (λ list. list.items ≡ above.now ++ here.now) }
{
    let mut list = Vec::with_capacity(alloc, above.len().saturating_add(here.len()))?;
    list.extend_from_slice(above)?;
    list.extend_from_slice(here)?;
    Ok(list)
}

// The package above an element, and then what hangs on the element.
fn package_below(alloc: Global, above: &Package, hanging: &Hanging, number: u16) -> M<Package>
    ensures { IfOk result (λ p. p ≡ with_hanging above.now hanging.now number) }
{
    Ok(Package {
        config: joined(
            alloc,
            above.config.as_slice(),
            list_at(hanging.config.as_slice(), number),
        )?,
        pre: joined(
            alloc,
            above.pre.as_slice(),
            list_at(hanging.pre.as_slice(), number),
        )?,
        timers: joined(
            alloc,
            above.timers.as_slice(),
            list_at(hanging.timers.as_slice(), number),
        )?,
        post: joined(
            alloc,
            above.post.as_slice(),
            list_at(hanging.post.as_slice(), number),
        )?,
        assertions: joined(
            alloc,
            above.assertions.as_slice(),
            list_at(hanging.assertions.as_slice(), number),
        )?,
        listeners: joined(
            alloc,
            above.listeners.as_slice(),
            list_at(hanging.listeners.as_slice(), number),
        )?,
    })
}

fn empty_package(alloc: Global) -> Package
    ensures { result ≡ no_scope }
{
    Package {
        config: Vec::new(alloc),
        pre: Vec::new(alloc),
        timers: Vec::new(alloc),
        post: Vec::new(alloc),
        assertions: Vec::new(alloc),
        listeners: Vec::new(alloc),
    }
}

// The package that is kept for the element of this number, where one is.
fn package_at(packages: &[Option<Package>], number: u16) -> Option<&Package>
    ensures { option_copied result ≡ package_at packages.now number }
{
    match packages.get(usize::from(number)) {
        Some(Some(package)) => Some(package),
        _ => None,
    }
}

// The package of an element that is no leaf, over that of its parent. The root is the first, and has none above it.
fn inner_package(
    alloc: Global,
    packages: &[Option<Package>],
    hanging: &Hanging,
    number: u16,
    parent: u16,
) -> M<Package>
    ensures { IfOk result (λ p. p ≡ with_hanging (unwrap_or (package_at packages.now parent) no_scope) hanging.now number) }
{
    match package_at(packages, parent) {
        Some(above) => package_below(alloc, above, hanging, number),
        None => package_below(alloc, &empty_package(alloc), hanging, number),
    }
}

// What is kept for an element. What is kept for all elements before it is there.
fn kept_package(
    alloc: Global,
    plan: &Plan,
    packages: &[Option<Package>],
    hanging: &Hanging,
    number: u16,
    element: &Element,
) -> M<Option<Package>>
    requires plan { IsPlan plan.now }
    requires there { slice_get plan.now.elements number ≡ Some element.now }
    requires packages { packages.now ≡ map (kept_of plan.now.elements) (range_with_len 0 number) }
    requires hanging { IsHanging plan.now.elements hanging.now }
    ensures { IfOk result (λ kept. kept ≡ kept_of plan.now.elements number) }
{
    let _elements = plan.elements();
    if is_leaf(element.kind.element_type().class()) {
        return Ok(None);
    }
    let package = inner_package(alloc, packages, hanging, number, element.parent)?;
    Ok(Some(package))
}

impl NodeTable {
    /// The packages of all samplers of a plan. Together with what was taken for them, they have at most some 9 MB.
    pub fn of(alloc: Global, plan: &Plan) -> M<NodeTable>
        ensures { IfOk result (λ table. table ≡ packages_of plan.now.elements) }
    {
        let elements = plan.elements();
        let hanging = all_hanging(alloc, plan)?;
        let mut packages = Vec::with_capacity(alloc, elements.len())?;
        'elements: for (number, element) in elements.iter().enumerate() {
            let kept = kept_package(alloc, plan, &packages, &hanging, number as u16, element)?;
            packages.push(kept)?;
        }
        Ok(NodeTable { packages })
    }

    /// The package of a sampler.
    pub fn package(&self, sampler: u16) -> &Package
        requires { IsSome (package_at self.now sampler) }
        ensures { (elements : List Element) → self.now ≡ packages_of elements → result.now ≡ scope_of elements sampler }
    {
        match package_at(&self.packages, sampler) {
            Some(package) => package,
            None => unreachable!(),
        }
    }
}
