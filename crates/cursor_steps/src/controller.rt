// What the cursors of all controllers have in common.

ghost use Rattle.std.specs.Prelude.{◌≡◌, ◌≤◌, ℕ, List, Result, Some, slice_get, OnOk, OnErr, IfOk};
ghost use Rattle.jm_base.specs.Run.{Run};
ghost use Rattle.element_tree.specs.declared.kinds.Element.{Element};
ghost use Rattle.element_tree.specs.declared.kinds.Kind.{Kind};
ghost use Rattle.element_tree.specs.declared.package.Turn.{Turn};
ghost use Rattle.thread_vars.specs.declared.error.VarError.{VarError};
ghost use Rattle.var_functions.specs.declared.state.UserState.{UserState};
ghost use Rattle.var_functions.specs.FunctionState.{IsLater};
ghost use Rattle.cursor_steps.specs.CursorStep.{Step, StepsTo};
ghost use Rattle.cursor_steps.specs.RunningChildren.{run_count, begun_after, TakesChild};

use crate::pass::run_count;
use element_tree::{Plan, Turn};
use jm_base::Outside;
use std::alloc::Global;
use var_functions::{UserState, VarError};

/// Where an open controller of one kind stands.
pub trait Controller: Drop {
    /// Holds of the kinds of element that it serves.
    ghost serves: { Kind → Type 0 };

    /// The number of its element.
    ghost place: { Self → ℕ };

    /// The cursor of this element, before its first `enter`.
    ghost fresh: { ℕ → Self };

    /// What entering its element comes to, in a plan of these elements.
    ghost enters: { List Element → Self → UserState → Run (Step (Unit {0}) Self) };

    /// What else stands after it has entered an element with this many children that are run: it was this cursor in this
    /// state, and answered this, and now it is that cursor in that state.
    ghost entered: { ℕ → Self → UserState → Result (Unit {0}) VarError → Self → UserState → Type 0 };

    /// What a turn needs, in a plan of these elements.
    ghost needs: { List Element → Self → Type 0 };

    /// What a turn comes to, in this round of the nearest looping element around it.
    ghost turns: { List Element → ℕ → Self → UserState → Run (Step Turn Self) };

    /// What else stands after a turn.
    ghost turned: { List Element → Self → UserState → Result Turn VarError → Self → UserState → Type 0 };

    /// Holds where it stands among this many children that are run.
    ghost among: { ℕ → Self → Type 0 };

    /// How many rounds of its own have begun.
    ghost begun: { Self → ℕ };

    /// How many children are still to be run in this round, at most.
    ghost left: { Self → ℕ };

    /// The cursor of this element, before its first `enter`.
    fn new(element: u16) -> Self
        ensures { result ≡ fresh element };

    /// The number of its element.
    fn element(&self) -> u16
        ensures { result ≡ place self.now };

    /// Enters the element, of which this many children are run. `ValueLimit` comes where a text would be past its limit, and a
    /// call that refuses leaves the cursor as it was.
    fn enter_among<O: Outside>(
        &mut self,
        alloc: Global,
        plan: &Plan,
        children: u16,
        state: &mut UserState,
        outside: &mut O,
    ) -> Result<(), VarError>
        requires there { (e : Element) × (slice_get plan.now.elements (place self.old) ≡ Some e) × serves e.kind }
        requires counted { (e : Element) → slice_get plan.now.elements (place self.old) ≡ Some e → children ≡ run_count plan.now.elements e }
        ensures came { StepsTo (O.account outside.old) (enters plan.now.elements self.old state.old) (O.account outside.new) self.new state.new result }
        ensures stands { (e : Element) → slice_get plan.now.elements (place self.old) ≡ Some e → OnOk result (among (run_count plan.now.elements e) self.new) }
        ensures entered { (e : Element) → slice_get plan.now.elements (place self.old) ≡ Some e → entered (run_count plan.now.elements e) self.old state.old result self.new state.new }
        ensures before { OnOk result (begun self.new ≡ 0) }
        ensures same { place self.new ≡ place self.old }
        ensures kept { OnErr result (self.new ≡ self.old) }
        ensures vars { state.new.vars ≡ state.old.vars }
        ensures later { IsLater state.old.fns state.new.fns };

    /// Enters the element, whose children it counts: as `enter_among` with their number.
    final fn enter<O: Outside>(
        &mut self,
        alloc: Global,
        plan: &Plan,
        state: &mut UserState,
        outside: &mut O,
    ) -> Result<(), VarError>
    where
        Self: Sized,
        requires there { (e : Element) × (slice_get plan.now.elements (place self.old) ≡ Some e) × serves e.kind }
        ensures came { StepsTo (O.account outside.old) (enters plan.now.elements self.old state.old) (O.account outside.new) self.new state.new result }
        ensures stands { (e : Element) → slice_get plan.now.elements (place self.old) ≡ Some e → OnOk result (among (run_count plan.now.elements e) self.new) }
        ensures entered { (e : Element) → slice_get plan.now.elements (place self.old) ≡ Some e → entered (run_count plan.now.elements e) self.old state.old result self.new state.new }
        ensures before { OnOk result (begun self.new ≡ 0) }
        ensures same { place self.new ≡ place self.old }
        ensures kept { OnErr result (self.new ≡ self.old) }
        ensures vars { state.new.vars ≡ state.old.vars }
        ensures later { IsLater state.old.fns state.new.fns }
    {
        let Some(element) = plan.element(self.element()) else {
            unreachable!();
        };
        self.enter_among(alloc, plan, run_count(plan, element), state, outside)
    }

    /// What it does next. `ValueLimit` comes where a text or a variable would be past its limit.
    fn next<O: Outside>(
        &mut self,
        alloc: Global,
        plan: &Plan,
        round: u64,
        state: &mut UserState,
        outside: &mut O,
    ) -> Result<Turn, VarError>
        requires { needs plan.now.elements self.old }
        ensures came { StepsTo (O.account outside.old) (turns plan.now.elements round self.old state.old) (O.account outside.new) self.new state.new result }
        ensures stands { (children : ℕ) → among children self.old → among children self.new }
        ensures turned { turned plan.now.elements self.old state.old result self.new state.new }
        ensures begun { IfOk result (λ turn. begun self.new ≤ begun_after (begun self.old) turn) }
        ensures pass { IfOk result (TakesChild (left self.old) (left self.new)) }
        ensures same { place self.new ≡ place self.old }
        ensures later { IsLater state.old.fns state.new.fns };
}
