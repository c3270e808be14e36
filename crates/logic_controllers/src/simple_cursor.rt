// The cursor of a Simple Controller.

ghost use Rattle.std.specs.Prelude.{◌≡◌, Ok};
ghost use Rattle.var_functions.specs.declared.state.UserState.{UserState};
ghost use Rattle.cursor_steps.specs.CursorStep.{answers};
ghost use Rattle.cursor_steps.specs.RunningChildren.{SurePassTurn};
ghost use Rattle.logic_controllers.specs.SimpleController.{simple_next};

use cursor_steps::{Controller, Pass};
use element_tree::{Plan, Turn};
use jm_base::Outside;
use std::alloc::Global;
use var_functions::{UserState, VarError};

/// What a Simple Controller does next (the manual's "Simple Controller"): it runs its children in order.
#[derive(Clone, Copy)]
pub struct SimpleCursor {
    /// The number of the controller's element.
    pub element: u16,
    /// The children in this pass.
    pub pass: Pass,
}

impl SimpleCursor {
    /// The next child, or `Over` after the last one.
    pub fn take_turn(&mut self) -> Turn
        ensures goes { (state : UserState) → answers result self.new state ≡ simple_next self.old state }
        ensures turned { SurePassTurn self.old.pass self.new.pass (Ok result) }
        ensures same { self.new.element ≡ self.old.element }
    {
        match self.pass.next_child() {
            Some(place) => Turn::Child(place),
            None => Turn::Over,
        }
    }
}

impl Controller for SimpleCursor {
    ghost use Rattle.std.specs.Prelude.{◌≡◌, ◌≤◌, ◌-◌, slice_get, Ok, ⊤};
    ghost use Rattle.element_tree.specs.declared.kinds.Kind.TheVariants as kinds;
    ghost use Rattle.cursor_steps.specs.CursorStep.{at_element};
    ghost use Rattle.cursor_steps.specs.RunningChildren.{run_count, pass_over, SurePassTurn};
    ghost use Rattle.logic_controllers.specs.SimpleController.{simple_enters, simple_next};

    ghost serves = { λ kind. kind ≡ kinds.Simple };

    ghost place = { λ c. c.element };

    ghost fresh = { λ n. record { element = n; pass = pass_over 0 } };

    ghost enters = { λ elements c state. at_element (slice_get elements c.element) c state (λ e. simple_enters (run_count elements e) c state) };

    ghost entered = { λ children c state result d after. (d.pass ≡ pass_over children) × (after ≡ state) × (result ≡ Ok tt) };

    ghost needs = { λ elements c. ⊤ };

    ghost turns = { λ elements round c state. simple_next c state };

    ghost turned = { λ elements c state result d after. SurePassTurn c.pass d.pass result × (after ≡ state) };

    ghost among = { λ children c. c.pass.children ≤ children };

    ghost begun = { λ c. 0 };

    ghost left = { λ c. c.pass.children - c.pass.next };

    fn new(element: u16) -> SimpleCursor {
        SimpleCursor {
            element,
            pass: Pass::over(0),
        }
    }

    fn element(&self) -> u16 {
        self.element
    }

    // Begins a pass. It takes no memory.
    fn enter_among<O: Outside>(
        &mut self,
        _alloc: Global,
        _plan: &Plan,
        children: u16,
        _state: &mut UserState,
        _outside: &mut O,
    ) -> Result<(), VarError> {
        self.pass = Pass::over(children);
        Ok(())
    }

    // The next child, or `Over` after the last one. It takes no memory.
    fn next<O: Outside>(
        &mut self,
        _alloc: Global,
        _plan: &Plan,
        _round: u64,
        _state: &mut UserState,
        _outside: &mut O,
    ) -> Result<Turn, VarError> {
        Ok(self.take_turn())
    }
}
