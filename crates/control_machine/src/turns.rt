// The turns of a machine.

ghost use Rattle.std.specs.Prelude.{◌≡◌, is_some, ◌+◌, ◌-◌, ◌≤◌, ◌<◌, slice_get, Some, List, [], ◌∷◌, IfOk};
ghost use Rattle.element_tree.specs.declared.kinds.Element.{Element};
ghost use Rattle.element_tree.specs.Tree.{Tree, Nests, Apart};
ghost use Rattle.var_functions.specs.FunctionState.{IsLater};
ghost use Rattle.cursor_steps.specs.RunningChildren.{TakesChild};
ghost use Rattle.jm_meaning.specs.Children.{children_of};
ghost use Rattle.jm_meaning.specs.Meaning.{meaning};
ghost use Rattle.jm_meaning.specs.Transactions;
ghost use Rattle.jm_meaning.specs.Beginning.{max_rounds};
ghost use Rattle.jm_meaning.specs.declared.signal.Signal.{Signal};
ghost use Rattle.node_table.specs.ElementLinks.{links_of};
ghost use Rattle.open_elements.specs.Cursors.{shut_of, Summing};
ghost use Rattle.open_elements.specs.ChildrenLeft.{children_left};
ghost use Rattle.control_machine.specs.Left.{StandsIn, left_after, state_at, here_in, open_lock, depth_in};
ghost use Rattle.control_machine.specs.Turns.{Lightens, LeavesOn, opening_move, closing_move, closing_of, left_answered, load_in, IsOpened, TakesTurn, Turns, TurnsOn, SameThread, SameRest};
ghost use Rattle.control_machine.specs.Answers.{with_frames, HasAnswered};
ghost use Rattle.control_machine.specs.Load.{load_of};

use crate::moves::Move;
use crate::position::{Position, Went};
use crate::stack::{Frame, Stack};
use element_tree::{Plan, Turn};
use jm_base::{End, Outside};
use jm_meaning::{Signal, Tally, gives_sample};
use logic_controllers::round_begins;
use node_table::Links;
use open_elements::{Cursor, Entered, enter};
use std::alloc::Global;
use var_functions::{UserState, VarError};

impl Position {
    // On a way out: the innermost open element is left, or the way out is over.
    pub(crate) fn leave_one(&mut self) -> Went
        requires { self.old.group.begun + self.old.rounds ≤ max_rounds }
        ensures leaves { (plan : Tree) → StandsIn plan self.old → (self.old.signal ≡ Signal.Normal → ⊥) → LeavesOn plan self.old self.new result }
        ensures lighter { (elements : List Element) → Lightens result (load_of elements self.old) (load_of elements self.new) }
        ensures thread { SameThread self.old self.new }
    {
        match self.stack.pop() {
            Some(frame) => close(&frame, self.signal),
            None => Went::To(self.leave_round()),
        }
    }

    // On a way out, with no element open: the thread ends, or the group goes on with its next round.
    fn leave_round(&mut self) -> Move
        requires bound { self.old.group.begun + self.old.rounds ≤ max_rounds }
        requires empty { self.old.stack.frames ≡ [] }
        ensures leaves { (plan : Tree) → StandsIn plan self.old → (self.old.signal ≡ Signal.Normal → ⊥) → LeavesOn plan self.old self.new (Went.To result) }
        ensures thread { SameThread self.old self.new }
    {
        if let Signal::Stop(end) = self.signal {
            return Move::Finished(end);
        }
        self.signal = Signal::Normal;
        self.group.pass.next = self.group.pass.children;
        self.next_round()
    }

    // After the last child of a round of the group: the next round begins, or the rounds are over.
    fn next_round(&mut self) -> Move
        requires { self.old.group.begun + self.old.rounds ≤ max_rounds }
        ensures leaves { (plan : Tree) → StandsIn plan self.old → self.old.stack.frames ≡ [] → self.old.signal ≡ Signal.Normal
            → self.old.group.pass.children ≤ self.old.group.pass.next → LeavesOn plan self.old self.new (Went.To result) }
        ensures thread { SameThread self.old self.new }
    {
        let index = self.group.begun;
        if !round_begins(self.group.loops, index) {
            return Move::Finished(End::Completed);
        }
        if self.rounds == 0 {
            return Move::Finished(End::RoundLimit);
        }
        self.rounds -= 1;
        self.group.begun = index + 1;
        self.group.pass.next = 0;
        Move::Iteration(u64::from(index))
    }

    // What the innermost open element answered is followed.
    pub(crate) fn follow<O: Outside>(
        &mut self,
        turn: Turn,
        alloc: Global,
        plan: &Plan,
        state: &mut UserState,
        outside: &mut O,
    ) -> Result<Went, VarError>
        requires normal { self.old.signal ≡ Signal.Normal }
        requires answered { (f : Frame) × (rest : List Frame) × HasAnswered plan.now self.old turn f rest }
        ensures turns { (f : Frame) (rest : List Frame) (e : Element) → HasAnswered plan.now self.old turn f rest → slice_get plan.now.elements f.element ≡ Some e
            → Turns plan.now (O.account outside.old) (λ beside. left_answered plan.now (with_frames self.old rest) f e turn (state_at self.old beside state.old))
            (open_lock (f ∷ rest)) (O.account outside.new) self.new state.new result }
        ensures lighter { IfOk result (λ w. (f old : Frame) (rest : List Frame) → HasAnswered plan.now self.old turn f rest → old.depth ≡ f.depth
            → TakesChild (children_left old.cursor) (children_left f.cursor) turn
            → Lightens w (load_in plan.now.elements self.old (old ∷ rest)) (load_of plan.now.elements self.new)) }
        ensures goes { (f : Frame) (rest : List Frame) → HasAnswered plan.now self.old turn f rest
            → IfOk result (TakesTurn plan.now self.old.rounds (open_lock (f ∷ rest)) self.new) }
        ensures thread { SameThread self.old self.new }
        ensures later { IsLater state.old.fns state.new.fns }
    {
        match turn {
            Turn::Over => Ok(shut(&mut self.stack, self.signal)),
            Turn::Round => {
                if self.rounds == 0 {
                    self.signal = Signal::Stop(End::RoundLimit);
                    return Ok(shut(&mut self.stack, self.signal));
                }
                self.rounds -= 1;
                Ok(Went::On)
            }
            Turn::Child(place) => {
                let Some(frame) = self.stack.top() else {
                    unreachable!();
                };
                let round = frame.cursor.round(frame.round);
                let (element, depth) = (frame.element, frame.depth);
                match child_at(&self.links, element, place) {
                    Some(child) => self.open(alloc, plan, child, round, depth, state, outside),
                    None => Ok(Went::On),
                }
            }
        }
    }

    // With no element open the group comes next: its child, or its next round.
    pub(crate) fn group_turn<O: Outside>(
        &mut self,
        alloc: Global,
        plan: &Plan,
        state: &mut UserState,
        outside: &mut O,
    ) -> Result<Went, VarError>
        requires stands { StandsIn plan.now self.old }
        requires normal { self.old.signal ≡ Signal.Normal }
        requires empty { self.old.stack.frames ≡ [] }
        ensures { TurnsOn plan.now (O.account outside.old) self.old state.old (O.account outside.new) self.new state.new result }
    {
        match self.group.pass.next_child() {
            Some(place) => {
                let round = u64::from(self.group.begun.saturating_sub(1));
                match child_at(&self.links, self.group.element, place) {
                    Some(child) => self.open(alloc, plan, child, round, 30, state, outside),
                    None => Ok(Went::On),
                }
            }
            None => Ok(Went::To(self.next_round())),
        }
    }

    // A child is opened, at which and below which elements nest at most this deep.
    fn open<O: Outside>(
        &mut self,
        alloc: Global,
        plan: &Plan,
        child: u16,
        round: u64,
        depth: u8,
        state: &mut UserState,
        outside: &mut O,
    ) -> Result<Went, VarError>
        requires stands { StandsIn plan.now self.old }
        requires normal { self.old.signal ≡ Signal.Normal }
        requires nests { Nests depth plan.now.elements child }
        requires apart { Apart depth (is_some (open_lock self.old.stack.frames)) plan.now.elements child }
        requires depth { depth ≤ depth_in self.old.stack.frames }
        ensures turns { Turns plan.now (O.account outside.old)
            (λ beside. left_after plan.now self.old (meaning (here_in plan.now self.old) depth child round (state_at self.old beside state.old)))
            (open_lock self.old.stack.frames) (O.account outside.new) self.new state.new result }
        ensures goes { IfOk result (TakesTurn plan.now self.old.rounds (open_lock self.old.stack.frames) self.new) }
        ensures rest { SameRest self.old self.new }
        ensures load { IfOk result (λ w. IsOpened plan.now.elements depth self.old.stack.frames self.new.stack.frames) }
        ensures later { IsLater state.old.fns state.new.fns }
    {
        let children = self.links.count(child);
        match enter(
            alloc,
            plan,
            child,
            children,
            &mut self.places,
            state,
            outside,
        ) {
            Ok(Entered::Nothing) => Ok(Went::On),
            Ok(Entered::Sampler) => Ok(Went::To(Move::RunSampler(child))),
            Ok(Entered::Open(cursor)) => {
                let went = opening_move(&cursor);
                let frame = Frame {
                    element: child,
                    round,
                    depth: depth - 1,
                    cursor,
                };
                match self.stack.push(frame) {
                    Ok(()) => Ok(went),
                    Err(_) => Err(VarError::NoMemory),
                }
            }
            Err(error) => Err(error),
        }
    }
}

// What an element that is opened comes to: a section is entered.
fn opening_move(cursor: &Cursor) -> Went
    ensures { result ≡ opening_move (shut_of cursor.now) }
{
    match cursor {
        Cursor::Section(open) => Went::To(Move::EnterSection(open.lock)),
        _ => Went::On,
    }
}

// The innermost open element is left under this signal.
fn shut(stack: &mut Stack, signal: Signal) -> Went
    ensures { (f : Frame) (rest : List Frame) → stack.old.frames ≡ f ∷ rest → (stack.new.frames ≡ rest) × (result ≡ closing_of signal f) }
{
    match stack.pop() {
        Some(frame) => close(&frame, signal),
        None => Went::On,
    }
}

// What an element that is left under this signal comes to: a transaction that has counted samples gives its own, unless a
// limit ends the thread, and a section is left.
fn close(frame: &Frame, signal: Signal) -> Went
    ensures { result ≡ closing_of signal frame.now }
{
    match &frame.cursor {
        Cursor::Section(open) => Went::To(Move::LeaveSection(open.lock)),
        Cursor::Transaction(open) => close_transaction(frame.element, open.tally, signal),
        _ => Went::On,
    }
}

// The transaction of this number is left under this signal.
fn close_transaction(element: u16, tally: Tally, signal: Signal) -> Went
    ensures { result ≡ closing_move element (Summing tally) (Transactions.gives_sample signal) }
{
    if !gives_sample(signal) || tally.samples == 0 {
        return Went::On;
    }
    Went::To(Move::TransactionSample { element, tally })
}

// The child at this place among those of the element that run, by the links of its plan.
fn child_at(links: &Links, element: u16, place: u16) -> Option<u16>
    ensures { (elements : List Element) (e : Element) → links.now ≡ links_of elements → slice_get elements element ≡ Some e
        → result ≡ slice_get (children_of elements e) place }
{
    if place == u16::MAX {
        return None;
    }
    links.child(element, place)
}
