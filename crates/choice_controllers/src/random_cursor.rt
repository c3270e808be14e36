// The cursor of a Random Controller.

ghost use Rattle.std.specs.Prelude.{◌≡◌, ◌<◌, IfSome};
ghost use Rattle.var_functions.specs.FunctionState.{IsLater};
ghost use Rattle.choice_controllers.specs.RandomController.{random_place, random_fns};

use crate::chosen::take_turn;
use cursor_steps::Controller;
use element_tree::{Plan, Turn};
use jm_base::Outside;
use std::alloc::Global;
use var_functions::{FnState, UserState, VarError};

/// What a Random Controller does next (the manual's "Random Controller"): in each pass it runs one child, which a random
/// word picks.
#[derive(Clone, Copy)]
pub struct RandomCursor {
    /// The number of the controller's element.
    pub element: u16,
    /// The place of the child that is still to be run in this pass.
    pub chosen: Option<u16>,
}

/// Draws the place of one of this many children. Without children there is none, and nothing is drawn.
pub fn random_place(children: u16, fns: &mut FnState) -> Option<u16>
    ensures place { result ≡ random_place children fns.old }
    ensures fns { fns.new ≡ random_fns children fns.old }
    ensures child { IfSome result (λ place. place < children) }
    ensures later { IsLater fns.old fns.new }
{
    if children == 0 {
        return None;
    }
    Some((fns.draw() % u64::from(children)) as u16)
}

impl Controller for RandomCursor {
    ghost use Rattle.std.specs.Prelude.{◌≡◌, ◌<◌, slice_get, None, Ok, IfSome, ⊤};
    ghost use Rattle.element_tree.specs.declared.kinds.Kind.TheVariants as kinds;
    ghost use Rattle.cursor_steps.specs.CursorStep.{at_element};
    ghost use Rattle.cursor_steps.specs.RunningChildren.{run_count};
    ghost use Rattle.choice_controllers.specs.Chosen.{waiting, RunsChosen};
    ghost use Rattle.choice_controllers.specs.RandomController.{random_place, random_fns, random_enters, random_next};

    ghost serves = { λ kind. kind ≡ kinds.Random };

    ghost place = { λ c. c.element };

    ghost fresh = { λ n. record { element = n; chosen = None } };

    ghost enters = { λ elements c state. at_element (slice_get elements c.element) c state (λ e. random_enters (run_count elements e) c state) };

    ghost entered = { λ children c state result d after. (d.chosen ≡ random_place children state.fns) × (after.fns ≡ random_fns children state.fns)
        × IfSome d.chosen (λ place. place < children) × (result ≡ Ok tt) };

    ghost needs = { λ elements c. ⊤ };

    ghost turns = { λ elements round c state. random_next c state };

    ghost turned = { λ elements c state result d after. RunsChosen c.chosen result × (d ≡ record c { chosen = None }) × (after ≡ state) };

    ghost among = { λ children c. IfSome c.chosen (λ place. place < children) };

    ghost begun = { λ c. 0 };

    ghost left = { λ c. waiting c.chosen };

    fn new(element: u16) -> RandomCursor {
        RandomCursor {
            element,
            chosen: None,
        }
    }

    fn element(&self) -> u16 {
        self.element
    }

    // Begins a pass: draws a random word w, and chooses the child at `w mod n`, where n is the number of children. Without
    // children nothing is drawn and nothing chosen. It takes no memory.
    fn enter_among<O: Outside>(
        &mut self,
        _alloc: Global,
        _plan: &Plan,
        children: u16,
        state: &mut UserState,
        _outside: &mut O,
    ) -> Result<(), VarError> {
        self.chosen = random_place(children, &mut state.fns);
        Ok(())
    }

    // The child that was chosen, where it is still to be run, or `Over`. It takes no memory.
    fn next<O: Outside>(
        &mut self,
        _alloc: Global,
        _plan: &Plan,
        _round: u64,
        _state: &mut UserState,
        _outside: &mut O,
    ) -> Result<Turn, VarError> {
        Ok(take_turn(&mut self.chosen))
    }
}
