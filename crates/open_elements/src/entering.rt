// Elements that are entered.

ghost use Rattle.std.specs.Prelude.{◌≡◌, ◌<◌, slice_get, length, Some, ℕ, List};
ghost use Rattle.element_tree.specs.declared.kinds.Element.{Element};
ghost use Rattle.element_tree.specs.Tree.{Tree};
ghost use Rattle.cursor_steps.specs.CursorStep.{IsThere};
ghost use Rattle.cursor_steps.specs.RunningChildren.{run_count};
ghost use Rattle.jm_meaning.specs.State.{State};
ghost use Rattle.jm_meaning.specs.Children.{Below, children_of};
ghost use Rattle.jm_meaning.specs.Meaning.{kind_meaning};
ghost use Rattle.jm_meaning.specs.declared.signal.Signal.{Signal};
ghost use Rattle.open_elements.specs.Entering.{here_with, entered, EnteredFits, EntersLock, HasEntered};

use crate::cursor::Cursor;
use crate::opens::Enters;
use crate::section::OpenSection;
use crate::transaction::OpenTransaction;
use choice_controllers::{InterleaveCursor, OrderCursor, RandomCursor, SwitchCursor};
use cursor_steps::{Controller, Pass};
use element_tree::{Kind, Plan};
use jm_base::Outside;
use jm_meaning::{Places, Tally};
use logic_controllers::{EachCursor, IfCursor, LoopCursor, OnceCursor, SimpleCursor, WhileCursor};
use std::alloc::Global;
use var_functions::{UserState, VarError};

/// What an element that is entered is.
#[derive(Drop)]
pub enum Entered {
    /// Nothing that runs.
    Nothing,
    /// A sampler.
    Sampler,
    /// A controller, which is open.
    Open(Cursor),
}

// Enters an element that cursors of this type serve.
fn enter_as<C: Enters, O: Outside>(
    alloc: Global,
    plan: &Plan,
    child: u16,
    children: u16,
    state: &mut UserState,
    outside: &mut O,
) -> Result<Entered, VarError>
    requires there { (e : Element) × (slice_get plan.now.elements child ≡ Some e) × C.serves e.kind }
    requires counted { (e : Element) → slice_get plan.now.elements child ≡ Some e → children ≡ run_count plan.now.elements e }
    ensures { (places : List ℕ) → HasEntered plan.now child (O.account outside.old) state.old places (O.account outside.new) state.new places result }
{
    C::laws();
    C::means();
    let mut cursor = C::new(child);
    match cursor.enter_among(alloc, plan, children, state, outside) {
        Ok(()) => Ok(Entered::Open(cursor.open())),
        Err(error) => Err(error),
    }
}

// Enters an Interleave, whose place moves on.
fn enter_interleave<O: Outside>(
    alloc: Global,
    plan: &Plan,
    child: u16,
    children: u16,
    places: &mut Places,
    state: &mut UserState,
    outside: &mut O,
) -> Result<Entered, VarError>
    requires there { (e : Element) × IsThere plan.now.elements child e (Kind.Interleave) }
    requires counted { (e : Element) → slice_get plan.now.elements child ≡ Some e → children ≡ run_count plan.now.elements e }
    ensures { HasEntered plan.now child (O.account outside.old) state.old places.old (O.account outside.new) state.new places.new result }
{
    let mut cursor = InterleaveCursor {
        element: child,
        place: places.of(child),
        chosen: None,
    };
    match cursor.enter_among(alloc, plan, children, state, outside) {
        Ok(()) => {
            places.set(child, cursor.place);
            Ok(Entered::Open(Cursor::Interleave(cursor)))
        }
        Err(error) => Err(error),
    }
}

// A transaction begins a pass over its children, and has counted no sample.
fn enter_transaction(child: u16, children: u16) -> Entered
    ensures came { (plan : Tree) (e : Element) (failure : Signal) (below : Below) (round : ℕ) (s : State) → IsThere plan.elements child e (Kind.Transaction)
        → children ≡ run_count plan.elements e → kind_meaning (here_with plan failure) below child e (Kind.Transaction) round s
        ≡ entered (here_with plan failure) below child round e s result }
    ensures fits { (elements : List Element) (e : Element) → IsThere elements child e (Kind.Transaction)
        → children ≡ run_count elements e → EnteredFits child (length (children_of elements e)) e.kind result }
    ensures lock { (elements : List Element) (kind : Kind) → EntersLock elements kind result }
{
    Entered::Open(Cursor::Transaction(OpenTransaction {
        children: SimpleCursor {
            element: child,
            pass: Pass::over(children),
        },
        tally: Tally::none(),
    }))
}

// A critical section is entered under its lock, and begins a pass over its children.
fn enter_section(plan: &Plan, child: u16, children: u16) -> Entered
    requires within { child < length plan.now.elements }
    requires counted { (e : Element) → slice_get plan.now.elements child ≡ Some e → children ≡ run_count plan.now.elements e }
    ensures came { (e : Element) (name : List ℕ) (failure : Signal) (below : Below) (round : ℕ) (s : State) → IsThere plan.now.elements child e (Kind.CriticalSection name)
        → kind_meaning (here_with plan.now failure) below child e e.kind round s ≡ entered (here_with plan.now failure) below child round e s result }
    ensures fits { (e : Element) (name : List ℕ) → IsThere plan.now.elements child e (Kind.CriticalSection name)
        → EnteredFits child (length (children_of plan.now.elements e)) e.kind result }
    ensures lock { (e : Element) (name : List ℕ) → IsThere plan.now.elements child e (Kind.CriticalSection name) → EntersLock plan.now.elements e.kind result }
{
    let lock = plan.lock_of(child);
    Entered::Open(Cursor::Section(OpenSection {
        children: SimpleCursor {
            element: child,
            pass: Pass::over(children),
        },
        lock,
    }))
}

/// Enters the element of this number, of which this many children are run: a Loop, a Switch or an If without `all` expands
/// its text, and the controllers that choose choose their child, by which an Interleave's place moves on. A critical section
/// is named by the number of its lock. No variable is set. A refusal leaves the places as they were.
pub fn enter<O: Outside>(
    alloc: Global,
    plan: &Plan,
    child: u16,
    children: u16,
    places: &mut Places,
    state: &mut UserState,
    outside: &mut O,
) -> Result<Entered, VarError>
    requires counted { (e : Element) → slice_get plan.now.elements child ≡ Some e → children ≡ run_count plan.now.elements e }
    ensures has_entered { HasEntered plan.now child (O.account outside.old) state.old places.old (O.account outside.new) state.new places.new result }
{
    let Some(element) = plan.element(child) else {
        return Ok(Entered::Nothing);
    };
    match &element.kind {
        Kind::Script { .. } => Ok(Entered::Sampler),
        Kind::Http { .. } => Ok(Entered::Sampler),
        Kind::Simple => enter_as::<SimpleCursor, O>(alloc, plan, child, children, state, outside),
        Kind::OnceOnly => enter_as::<OnceCursor, O>(alloc, plan, child, children, state, outside),
        Kind::Loop { .. } => enter_as::<LoopCursor, O>(
            alloc, plan, child, children, state, outside,
        ),
        Kind::If { .. } => enter_as::<IfCursor, O>(alloc, plan, child, children, state, outside),
        Kind::While { .. } => enter_as::<WhileCursor, O>(
            alloc, plan, child, children, state, outside,
        ),
        Kind::ForEach { .. } => enter_as::<EachCursor, O>(
            alloc, plan, child, children, state, outside,
        ),
        Kind::Interleave => enter_interleave(alloc, plan, child, children, places, state, outside),
        Kind::Random => enter_as::<RandomCursor, O>(alloc, plan, child, children, state, outside),
        Kind::RandomOrder => enter_as::<OrderCursor, O>(
            alloc, plan, child, children, state, outside,
        ),
        Kind::Switch { .. } => enter_as::<SwitchCursor, O>(
            alloc, plan, child, children, state, outside,
        ),
        Kind::Transaction => Ok(enter_transaction(child, children)),
        Kind::CriticalSection { .. } => Ok(enter_section(plan, child, children)),
        _ => Ok(Entered::Nothing),
    }
}
