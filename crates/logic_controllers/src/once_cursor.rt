// The cursor of a Once Only Controller.

use cursor_steps::{Controller, Pass};
use element_tree::{Plan, Turn};
use jm_base::Outside;
use std::alloc::Global;
use var_functions::{UserState, VarError};

/// What a Once Only Controller does next (the manual's "Once Only Controller"): it runs its children in order, in the
/// first round of the nearest thread group, Loop, While or ForEach around it.
#[derive(Clone, Copy)]
pub struct OnceCursor {
    /// The number of the controller's element.
    pub element: u16,
    /// The children in this pass.
    pub pass: Pass,
}

impl Controller for OnceCursor {
    ghost use Rattle.std.specs.Prelude.{◌≡◌, ◌≤◌, ◌-◌, slice_get, Ok, ⊤};
    ghost use Rattle.element_tree.specs.declared.kinds.Kind.TheVariants as kinds;
    ghost use Rattle.cursor_steps.specs.CursorStep.{at_element};
    ghost use Rattle.cursor_steps.specs.RunningChildren.{run_count, pass_over, SurePassTurn};
    ghost use Rattle.logic_controllers.specs.OnceOnlyController.{once_enters, once_next};

    ghost serves = { λ kind. kind ≡ kinds.OnceOnly };

    ghost place = { λ c. c.element };

    ghost fresh = { λ n. record { element = n; pass = pass_over 0 } };

    ghost enters = { λ elements c state. at_element (slice_get elements c.element) c state (λ e. once_enters (run_count elements e) c state) };

    ghost entered = { λ children c state result d after. (d.pass ≡ pass_over children) × (after ≡ state) × (result ≡ Ok tt) };

    ghost needs = { λ elements c. ⊤ };

    ghost turns = { λ elements round c state. once_next round c state };

    ghost turned = { λ elements c state result d after. SurePassTurn c.pass d.pass result × (after ≡ state) };

    ghost among = { λ children c. c.pass.children ≤ children };

    ghost begun = { λ c. 0 };

    ghost left = { λ c. c.pass.children - c.pass.next };

    fn new(element: u16) -> OnceCursor {
        OnceCursor {
            element,
            pass: Pass::over(0),
        }
    }

    fn element(&self) -> u16 {
        self.element
    }

    // Begins a pass. It takes no memory.
    fn enter_among<O: Outside>(
        &mut self,
        _alloc: Global,
        _plan: &Plan,
        children: u16,
        _state: &mut UserState,
        _outside: &mut O,
    ) -> Result<(), VarError> {
        self.pass = Pass::over(children);
        Ok(())
    }

    // The next child where `round` is 0, and `Over` in every other round and after the last child. `round` counts, from 0,
    // the rounds of the nearest looping element around. It takes no memory.
    fn next<O: Outside>(
        &mut self,
        _alloc: Global,
        _plan: &Plan,
        round: u64,
        _state: &mut UserState,
        _outside: &mut O,
    ) -> Result<Turn, VarError> {
        if round != 0 {
            return Ok(Turn::Over);
        }
        match self.pass.next_child() {
            Some(place) => Ok(Turn::Child(place)),
            None => Ok(Turn::Over),
        }
    }
}
