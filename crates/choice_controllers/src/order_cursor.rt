// The cursor of a Random Order Controller.

ghost use Rattle.std.specs.Prelude.{◌≡◌, ◌+◌, ◌-◌, ◌^◌, ◌<◌, ℕ, slice_get, unwrap_or, [], length, All, Some, OnSome, IfSome, IfNone, IfOk, IsPermutation};
ghost use Rattle.var_functions.specs.FunctionState.{IsLater};
ghost use Rattle.choice_controllers.specs.RandomOrderController.{shuffled, places, order_of};

use cursor_steps::Controller;
use element_tree::{Plan, Turn};
use jm_base::{Items, M, Outside};
use std::alloc::Global;
use var_functions::{FnState, UserState, VarError};

/// What a Random Order Controller does next (the manual's "Random Order Controller"): in each pass it runs each of its
/// children once, in an order that random words make.
#[derive(Drop)]
pub struct OrderCursor {
    /// The number of the controller's element.
    pub element: u16,
    /// The places of the children in the order of this pass. There is none before the first pass.
    pub order: Option<Items<u16>>,
    /// How many of them have been run.
    pub next: usize,
}

/// The places of this many children, in order.
fn places(alloc: Global, children: u16) -> M<Vec<u16>>
    ensures { IfOk result (λ v. v.items ≡ places children) }
{
    let mut places = Vec::new(alloc);
    for place in 0..children {
        places.push(place)?;
    }
    Ok(places)
}

/// Exchanges the place at each index, from the last down to 1, with the one at an index up to it, which a word picks.
pub fn shuffle(places: &mut [u16], fns: &mut FnState)
    ensures order { places.new ≡ (shuffled (length places.old - 1) places.old fns.old).0 }
    ensures fns { fns.new ≡ (shuffled (length places.old - 1) places.old fns.old).1 }
    ensures later { IsLater fns.old fns.new }
    ensures permutation { IsPermutation places.old places.new }
{
    for index in (1..places.len()).rev() {
        let other = (fns.draw() % (index as u64 + 1)) as usize;
        places.swap(index, other);
    }
}

/// The place at this index of an order, where there is one.
fn place_at(order: &Option<Items<u16>>, index: usize) -> Option<u16>
    ensures place { result ≡ slice_get (unwrap_or order.now []) index }
    ensures room { OnSome result (index + 1 < 2 ^ 64) }
{
    match order {
        Some(places) => places.as_slice().get(index).copied(),
        None => None,
    }
}

impl Controller for OrderCursor {
    ghost use Rattle.std.specs.Prelude.{◌≡◌, ◌≤◌, ◌-◌, slice_get, length, None, ⊤};
    ghost use Rattle.element_tree.specs.declared.kinds.Kind.TheVariants as kinds;
    ghost use Rattle.cursor_steps.specs.CursorStep.{at_element};
    ghost use Rattle.cursor_steps.specs.RunningChildren.{run_count};
    ghost use Rattle.choice_controllers.specs.RandomOrderController.{order_of, order_enters, order_next, OrderEntered, RunsOrdered};

    ghost serves = { λ kind. kind ≡ kinds.RandomOrder };

    ghost place = { λ c. c.element };

    ghost fresh = { λ n. record { element = n; order = None; next = 0 } };

    ghost enters = { λ elements c state. at_element (slice_get elements c.element) c state (λ e. order_enters (run_count elements e) c state) };

    ghost entered = { OrderEntered };

    ghost needs = { λ elements c. ⊤ };

    ghost turns = { λ elements round c state. order_next c state };

    ghost turned = { λ elements c state result d after. RunsOrdered (order_of c) result × (d.order ≡ c.order) × (after ≡ state) };

    ghost among = { λ children c. length (order_of c) ≤ children };

    ghost begun = { λ c. 0 };

    ghost left = { λ c. length (order_of c) - c.next };

    fn new(element: u16) -> OrderCursor {
        OrderCursor {
            element,
            order: None,
            next: 0,
        }
    }

    fn element(&self) -> u16 {
        self.element
    }

    // Begins a pass: puts the children in a random order. For i from n - 1 down to 1, where n is the number of children, it
    // draws a random word w and exchanges the children at i and at `w mod (i + 1)`. So it draws n - 1 words, and none where
    // there are no children.
    //
    // The memory for the order is taken before the first word is drawn: a call that refuses, which it does where it runs out
    // of memory alone, leaves the cursor and the thread's state as they were.
    fn enter_among<O: Outside>(
        &mut self,
        alloc: Global,
        _plan: &Plan,
        children: u16,
        state: &mut UserState,
        _outside: &mut O,
    ) -> Result<(), VarError> {
        let Ok(places) = places(alloc, children) else {
            return Err(VarError::NoMemory);
        };
        self.begin(places, &mut state.fns);
        Ok(())
    }

    // The next child in the order of the pass, or `Over` after the last one. It takes no memory.
    fn next<O: Outside>(
        &mut self,
        _alloc: Global,
        _plan: &Plan,
        _round: u64,
        _state: &mut UserState,
        _outside: &mut O,
    ) -> Result<Turn, VarError> {
        match self.next_place() {
            Some(place) => Ok(Turn::Child(place)),
            None => Ok(Turn::Over),
        }
    }
}

impl OrderCursor {
    // Puts these places in a random order, to be run from the first on.
    fn begin(&mut self, places: Vec<u16>, fns: &mut FnState)
        ensures order { self.new ≡ record self.old { order = Some (shuffled (length places.items - 1) places.items fns.old).0; next = 0 } }
        ensures fns { fns.new ≡ (shuffled (length places.items - 1) places.items fns.old).1 }
        ensures later { IsLater fns.old fns.new }
        ensures permutation { IsPermutation places.items (order_of self.new) }
    {
        let mut places = places;
        shuffle(&mut places, fns);
        self.order = Some(Items::of(places));
        self.next = 0;
    }

    // The place of the next child in the order, where one is left. The cursor then stands after it.
    fn next_place(&mut self) -> Option<u16>
        ensures place { result ≡ slice_get (order_of self.old) self.old.next }
        ensures moved { OnSome result (self.new ≡ record self.old { next = self.old.next + 1 }) }
        ensures over { IfNone result (self.new ≡ self.old) }
        ensures child { (children : ℕ) → All (λ place. place < children) (order_of self.old) → IfSome result (λ place. place < children) }
        ensures pass { OnSome result (length (order_of self.new) - self.new.next < length (order_of self.old) - self.old.next) }
    {
        let place = place_at(&self.order, self.next)?;
        self.next += 1;
        Some(place)
    }
}
