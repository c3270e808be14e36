// The links between the elements of a plan.

ghost use Rattle.std.specs.Prelude.{◌≡◌, ◌<◌, List, Some, length, map, slice_get, slice_index_or, IfOk};
ghost use Rattle.std.specs.List.{range_with_len};
ghost use Rattle.std.specs.Option.{option_and_then};
ghost use Rattle.element_tree.specs.declared.kinds.Element.{Element};
ghost use Rattle.element_tree.specs.Tree.{IsPlan};
ghost use Rattle.cursor_steps.specs.RunningChildren.{run_count};
ghost use Rattle.node_table.specs.ElementLinks.{child_of, first_of, after_of, looping_of, link_of, links_of};
ghost use Rattle.node_table.specs.Building.{AreAfters};

use crate::looping::looping_from;
use crate::siblings::{afters_of, first_run, runs_among};
use element_tree::{Element, Plan};
use jm_base::{Items, M};
use std::alloc::Global;
use std::marker::Model;

/// Where a run goes on from an element.
#[derive(Drop)]
pub struct Link {
    /// Its children that are controllers or samplers, in order.
    pub runs: Items<u16>,
    /// Its first child that is a controller or a sampler.
    pub first: Option<u16>,
    /// The next of its siblings that is a controller or a sampler.
    pub after: Option<u16>,
    /// The nearest element above it that runs in rounds.
    pub above: Option<u16>,
}

/// For each element of a plan its children, its next sibling and the element whose rounds it is in. Controllers and samplers
/// alone count as children and siblings here.
#[derive(Drop)]
pub struct Links {
    links: Vec<Link>,
}

impl Model for Links {
    ghost use Rattle.std.specs.Prelude.{List};
    ghost use Rattle.node_table.specs.declared.element_links.Link.{Link};

    ghost Value = { List Link };

    ghost view = { λ l. l.links.items };
}

// The next element that runs after the one of this number.
fn after_at(afters: &[Option<u16>], number: usize) -> Option<u16>
    ensures { result ≡ slice_index_or afters.now number None }
{
    match afters.get(number) {
        Some(after) => *after,
        None => None,
    }
}

// The links of an element. Those of all elements before it are there, and what comes after each.
fn link_of(
    alloc: Global,
    plan: &Plan,
    afters: &[Option<u16>],
    links: &[Link],
    number: usize,
    element: &Element,
) -> M<Link>
    requires plan { IsPlan plan.now }
    requires there { slice_get plan.now.elements number ≡ Some element.now }
    requires afters { AreAfters plan.now.elements afters.now }
    requires links { links.now ≡ map (link_of plan.now.elements) (range_with_len 0 number) }
    ensures { IfOk result (λ link. link ≡ link_of plan.now.elements number) }
{
    let children = element.children.as_slice();
    let runs = runs_among(alloc, plan, children)?;
    Ok(Link {
        runs,
        first: first_run(plan, children),
        after: after_at(afters, number),
        above: looping_from(plan, links, element.parent),
    })
}

// The one at this place of a list of children.
fn run_at(links: &[Link], element: u16, place: u16) -> Option<u16>
    ensures { result ≡ option_and_then (λ link. slice_get link.runs place) (slice_get links.now element) }
{
    let link = links.get(usize::from(element))?;
    link.runs.as_slice().get(usize::from(place)).copied()
}

impl Links {
    /// The links of a plan's elements.
    pub fn of(alloc: Global, plan: &Plan) -> M<Links>
        ensures { IfOk result (λ links. links ≡ links_of plan.now.elements) }
    {
        let afters = afters_of(alloc, plan)?;
        let mut links = Vec::with_capacity(alloc, plan.elements().len())?;
        'elements: for (number, element) in plan.elements().iter().enumerate() {
            let link = link_of(alloc, plan, &afters, &links, number, element)?;
            links.push(link)?;
        }
        Ok(Links { links })
    }

    /// The child at this place, from 0, among those of an element that are controllers or samplers.
    pub fn child(&self, element: u16, place: u16) -> Option<u16>
        ensures { (elements : List Element) → self.now ≡ links_of elements → result ≡ child_of elements element place }
    {
        run_at(&self.links, element, place)
    }

    /// How many children of an element are controllers or samplers, in 16 bits, which the children of no plan fill.
    pub fn count(&self, element: u16) -> u16
        requires { element < length self.now }
        ensures { (elements : List Element) (e : Element) → self.now ≡ links_of elements → slice_get elements element ≡ Some e
            → result ≡ run_count elements e }
    {
        self.links[usize::from(element)]
            .runs
            .as_slice()
            .len()
            .min(65535) as u16
    }

    /// The first child of an element that is a controller or a sampler.
    pub fn first(&self, element: u16) -> Option<u16>
        requires { element < length self.now }
        ensures { (elements : List Element) → self.now ≡ links_of elements → result ≡ first_of elements element }
    {
        self.links[usize::from(element)].first
    }

    /// The next sibling of an element, in the order of the plan, that is a controller or a sampler.
    pub fn after(&self, element: u16) -> Option<u16>
        requires { element < length self.now }
        ensures { (elements : List Element) → self.now ≡ links_of elements → result ≡ after_of elements element }
    {
        self.links[usize::from(element)].after
    }

    /// The nearest thread group, Loop, While or ForEach Controller above an element. Where there is none, as above the root
    /// and above what stands right below it, the element itself.
    pub fn looping(&self, element: u16) -> u16
        requires { element < length self.now }
        ensures { (elements : List Element) → self.now ≡ links_of elements → result ≡ looping_of elements element }
    {
        self.links[usize::from(element)].above.unwrap_or(element)
    }
}
