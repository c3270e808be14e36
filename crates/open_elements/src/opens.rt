// The controllers whose open elements a machine holds.

ghost use Rattle.std.specs.Prelude.{◌≡◌, ◌≤◌, ◌+◌, ℕ, List, Some, Err, length, slice_get};
ghost use Rattle.element_tree.specs.declared.kinds.Element.{Element};
ghost use Rattle.element_tree.specs.Tree.{Tree};
ghost use Rattle.thread_vars.specs.declared.error.VarError.{VarError};
ghost use Rattle.var_functions.specs.declared.state.UserState.{UserState};
ghost use Rattle.var_functions.specs.FunctionState.{IsLater};
ghost use Rattle.cursor_steps.specs.RunningChildren.{run_count};
ghost use Rattle.jm_meaning.specs.declared.signal.Signal.{Signal};
ghost use Rattle.jm_meaning.specs.State.{State};
ghost use Rattle.jm_meaning.specs.Children.{Below, children_of};
ghost use Rattle.jm_meaning.specs.Meaning.{kind_meaning};
ghost use Rattle.jm_meaning.specs.Beginning.{max_rounds};
ghost use Rattle.open_elements.specs.declared.cursor.Cursor.{Cursor};
ghost use Rattle.open_elements.specs.declared.entering.Entered.TheVariants.{Open};
ghost use Rattle.open_elements.specs.Moves.{beginning, stepping};
ghost use Rattle.open_elements.specs.Cursors.{cursor_left, Plain, shut_of, begun_of, round_in, FitsKind};
ghost use Rattle.open_elements.specs.ChildrenLeft.{children_left};
ghost use Rattle.open_elements.specs.Entering.{here_with, entered};
ghost use Rattle.open_elements.specs.ElementCut.{IsCutIn};

use crate::cursor::Cursor;
use choice_controllers::{InterleaveCursor, OrderCursor, RandomCursor, SwitchCursor};
use cursor_steps::Controller;
use logic_controllers::{EachCursor, IfCursor, LoopCursor, OnceCursor, SimpleCursor, WhileCursor};

/// A controller that a machine can hold open.
pub trait Opens: Controller {
    /// The open element that this cursor is.
    ghost opened: { Self → Cursor };

    /// The open element that this cursor is.
    fn open(self) -> Cursor
        ensures { result ≡ opened self };

    /// How its turns and what is left of its elements belong together. It does nothing.
    fn laws()
        ensures goes { (below : Below) (round n : ℕ) (elements : List Element) (e : Element) (c : Self) (s : State) → slice_get elements (Self.place c) ≡ Some e
            → FitsKind n (length (children_of elements e)) e.kind (opened c) → begun_of (opened c) + s.own.rounds ≤ max_rounds
            → cursor_left below round (children_of elements e) e (opened c) s
            ≡ stepping below (λ d. round_in round (opened d)) (children_of elements e) (λ d. cursor_left below round (children_of elements e) e (opened d)) s.own (Self.turns elements round c s.user) }
        ensures needs { (elements : List Element) (e : Element) (c : Self) → slice_get elements (Self.place c) ≡ Some e → Self.serves e.kind → Self.begun c ≤ max_rounds → Self.needs elements c }
        ensures cut { (elements : List Element) (e : Element) (c d : Self) (error : VarError) (old new : UserState) → slice_get elements (Self.place c) ≡ Some e → Self.serves e.kind
            → Self.turned elements c old (Err error) d new → IsLater old.fns new.fns → IsCutIn e (opened c) old new }
        ensures fits { (n : ℕ) (elements : List Element) (e : Element) (c : Self) → Self.place c ≡ n → Self.serves e.kind → Self.among (run_count elements e) c
            → FitsKind n (length (children_of elements e)) e.kind (opened c) }
        ensures stands { (n : ℕ) (elements : List Element) (e : Element) (c : Self) → FitsKind n (length (children_of elements e)) e.kind (opened c)
            → (Self.place c ≡ n) × Self.serves e.kind × Self.among (run_count elements e) c }
        ensures own_place { (n : ℕ) → Self.place (Self.fresh n) ≡ n }
        ensures begun { (c : Self) → begun_of (opened c) ≡ Self.begun c }
        ensures left { (c : Self) → children_left (opened c) ≡ Self.left c }
        ensures shut { (c : Self) → shut_of (opened c) ≡ Plain };
}

/// A controller that is entered by its cursor alone.
pub trait Enters: Opens {
    /// How entering and the meaning of its elements belong together. It does nothing.
    fn means()
        ensures { (plan : Tree) (failure : Signal) (below : Below) (number : ℕ) (e : Element) (round : ℕ) (c : Self) (s : State) → slice_get plan.elements (Self.place c) ≡ Some e → Self.serves e.kind
            → kind_meaning (here_with plan failure) below number e e.kind round s
            ≡ beginning (λ d s. entered (here_with plan failure) below number round e s (Open (Self.opened d))) s.own (Self.enters plan.elements c s.user) };
}

impl Opens for SimpleCursor {
    ghost opened = { Cursor.Simple };

    fn open(self) -> Cursor {
        Cursor::Simple(self)
    }

    fn laws() {}
}

impl Enters for SimpleCursor {
    fn means() {}
}

impl Opens for OnceCursor {
    ghost opened = { Cursor.Once };

    fn open(self) -> Cursor {
        Cursor::Once(self)
    }

    fn laws() {}
}

impl Enters for OnceCursor {
    fn means() {}
}

impl Opens for LoopCursor {
    ghost opened = { Cursor.Loop };

    fn open(self) -> Cursor {
        Cursor::Loop(self)
    }

    fn laws() {}
}

impl Enters for LoopCursor {
    fn means() {}
}

impl Opens for IfCursor {
    ghost opened = { Cursor.If };

    fn open(self) -> Cursor {
        Cursor::If(self)
    }

    fn laws() {}
}

impl Enters for IfCursor {
    fn means() {}
}

impl Opens for WhileCursor {
    ghost opened = { Cursor.While };

    fn open(self) -> Cursor {
        Cursor::While(self)
    }

    fn laws() {}
}

impl Enters for WhileCursor {
    fn means() {}
}

impl Opens for EachCursor {
    ghost opened = { Cursor.Each };

    fn open(self) -> Cursor {
        Cursor::Each(self)
    }

    fn laws() {}
}

impl Enters for EachCursor {
    fn means() {}
}

impl Opens for InterleaveCursor {
    ghost opened = { Cursor.Interleave };

    fn open(self) -> Cursor {
        Cursor::Interleave(self)
    }

    fn laws() {}
}

impl Opens for RandomCursor {
    ghost opened = { Cursor.Random };

    fn open(self) -> Cursor {
        Cursor::Random(self)
    }

    fn laws() {}
}

impl Enters for RandomCursor {
    fn means() {}
}

impl Opens for OrderCursor {
    ghost opened = { Cursor.Order };

    fn open(self) -> Cursor {
        Cursor::Order(self)
    }

    fn laws() {}
}

impl Enters for OrderCursor {
    fn means() {}
}

impl Opens for SwitchCursor {
    ghost opened = { Cursor.Switch };

    fn open(self) -> Cursor {
        Cursor::Switch(self)
    }

    fn laws() {}
}

impl Enters for SwitchCursor {
    fn means() {}
}
