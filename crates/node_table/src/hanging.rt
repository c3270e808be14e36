// What hangs directly on each element, class by class.

ghost use Rattle.std.specs.Prelude.{◌≡◌, ◌++◌, ◌∷◌, ◌&&◌, [], nat_lt, replicate, slice_set, slice_index_or, IfOk, OnOk};
ghost use Rattle.element_tree.specs.Types.{class_of};
ghost use Rattle.scope_resolver.specs.Scoping.{same_class};
ghost use Rattle.node_table.specs.Building.{AreHanging, IsHanging};

use element_tree::{Class, Element, Plan};
use jm_base::{Items, M};
use std::alloc::Global;
use std::marker::Model;

/// The numbers of elements, in tree order.
#[derive(Drop)]
pub struct Numbers {
    numbers: Vec<u16>,
}

impl Model for Numbers {
    ghost use Rattle.std.specs.Prelude.{List, ℕ};

    ghost Value = { List ℕ };

    ghost view = { λ n. n.numbers.items };
}

impl Numbers {
    fn new(alloc: Global) -> Numbers
        ensures { result ≡ [] }
    {
        Numbers {
            numbers: Vec::new(alloc),
        }
    }

    fn push(&mut self, number: u16) -> M<()>
        ensures { OnOk result (self.new ≡ self.old ++ number ∷ []) }
    {
        self.numbers.push(number)?;
        Ok(())
    }

    /// The numbers to read.
    pub fn as_slice(&self) -> &[u16]
        ensures { result.now ≡ self.now }
    {
        &self.numbers
    }
}

/// For each element, by its number, the elements of each class that hang directly on it.
#[derive(Drop)]
pub struct Hanging {
    pub config: Items<Numbers>,
    pub pre: Items<Numbers>,
    pub timers: Items<Numbers>,
    pub post: Items<Numbers>,
    pub assertions: Items<Numbers>,
    pub listeners: Items<Numbers>,
}

fn same_class(a: Class, b: Class) -> bool
    ensures { result ≡ same_class a b }
{
    a == b
}

// That many lists with nothing in them.
fn empty_lists(alloc: Global, count: usize) -> M<Vec<Numbers>>
    ensures { IfOk result (λ lists. lists.items ≡ replicate count []) }
{
    let mut lists = Vec::with_capacity(alloc, count)?;
    'places: for _place in 0..count {
        lists.push(Numbers::new(alloc))?;
    }
    Ok(lists)
}

// Adds a number to one of the lists.
fn add_at(lists: &mut Vec<Numbers>, level: u16, number: u16) -> M<()>
    ensures { OnOk result (lists.new.items ≡ slice_set lists.old.items level (slice_index_or lists.old.items level [] ++ number ∷ [])) }
{
    if let Some(list) = lists.get_mut(usize::from(level)) {
        list.push(number)?;
    }
    Ok(())
}

// Whether an element, which has this number, is of the class. The root hangs on nothing.
fn hangs(class: Class, number: usize, element: &Element) -> bool
    ensures { result ≡ (nat_lt 0 number && same_class class (class_of element.now.kind)) }
{
    number > 0 && same_class(class, element.kind.element_type().class())
}

// For each element, by its number, the elements of a class that hang directly on it, in tree order.
fn hanging_of(alloc: Global, plan: &Plan, class: Class) -> M<Vec<Numbers>>
    ensures { IfOk result (λ lists. AreHanging plan.now.elements class lists.items) }
{
    let elements = plan.elements();
    let mut lists = empty_lists(alloc, elements.len())?;
    'elements: for (number, element) in elements.iter().enumerate() {
        if hangs(class, number, element) {
            add_at(&mut lists, element.parent, number as u16)?;
        }
    }
    Ok(lists)
}

/// What hangs directly on each element, class by class.
pub fn all_hanging(alloc: Global, plan: &Plan) -> M<Hanging>
    ensures { IfOk result (IsHanging plan.now.elements) }
{
    Ok(Hanging {
        config: Items::of(hanging_of(alloc, plan, Class::Config)?),
        pre: Items::of(hanging_of(alloc, plan, Class::PreProcessor)?),
        timers: Items::of(hanging_of(alloc, plan, Class::Timer)?),
        post: Items::of(hanging_of(alloc, plan, Class::PostProcessor)?),
        assertions: Items::of(hanging_of(alloc, plan, Class::Assertion)?),
        listeners: Items::of(hanging_of(alloc, plan, Class::Listener)?),
    })
}
