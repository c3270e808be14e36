// The cursor of an Interleave Controller.

ghost use Rattle.std.specs.Prelude.{◌≡◌, ◌<◌, IfSome};
ghost use Rattle.choice_controllers.specs.InterleaveController.{interleaved};

use crate::chosen::take_turn;
use cursor_steps::Controller;
use element_tree::{Plan, Turn};
use jm_base::Outside;
use std::alloc::Global;
use var_functions::{UserState, VarError};

/// What an Interleave Controller does next (the manual's "Interleave Controller"): in each pass it runs one child, the
/// next one, and the first again after the last.
#[derive(Clone, Copy)]
pub struct InterleaveCursor {
    /// The number of the controller's element.
    pub element: u16,
    /// The place of the child that the next pass runs. It lasts from pass to pass.
    pub place: u16,
    /// The place of the child that is still to be run in this pass.
    pub chosen: Option<u16>,
}

impl Controller for InterleaveCursor {
    ghost use Rattle.std.specs.Prelude.{◌≡◌, ◌<◌, slice_get, None, Ok, IfSome, ⊤};
    ghost use Rattle.element_tree.specs.declared.kinds.Kind.TheVariants as kinds;
    ghost use Rattle.cursor_steps.specs.CursorStep.{at_element};
    ghost use Rattle.cursor_steps.specs.RunningChildren.{run_count};
    ghost use Rattle.choice_controllers.specs.Chosen.{waiting, RunsChosen};
    ghost use Rattle.choice_controllers.specs.InterleaveController.{interleaved, interleave_enters, interleave_next};

    ghost serves = { λ kind. kind ≡ kinds.Interleave };

    ghost place = { λ c. c.element };

    ghost fresh = { λ n. record { element = n; place = 0; chosen = None } };

    ghost enters = { λ elements c state. at_element (slice_get elements c.element) c state (λ e. interleave_enters (run_count elements e) c state) };

    ghost entered = { λ children c state result d after. (d ≡ interleaved children c) × IfSome d.chosen (λ place. place < children) × (after ≡ state) × (result ≡ Ok tt) };

    ghost needs = { λ elements c. ⊤ };

    ghost turns = { λ elements round c state. interleave_next c state };

    ghost turned = { λ elements c state result d after. RunsChosen c.chosen result × (d ≡ record c { chosen = None }) × (after ≡ state) };

    ghost among = { λ children c. IfSome c.chosen (λ place. place < children) };

    ghost begun = { λ c. 0 };

    ghost left = { λ c. waiting c.chosen };

    // Its first pass runs the first child.
    fn new(element: u16) -> InterleaveCursor {
        InterleaveCursor {
            element,
            place: 0,
            chosen: None,
        }
    }

    fn element(&self) -> u16 {
        self.element
    }

    // Begins a pass: chooses the child at the place, and moves the place on. Without children nothing is chosen. It takes
    // no memory.
    fn enter_among<O: Outside>(
        &mut self,
        _alloc: Global,
        _plan: &Plan,
        children: u16,
        _state: &mut UserState,
        _outside: &mut O,
    ) -> Result<(), VarError> {
        self.choose(children);
        Ok(())
    }

    // The child that was chosen, where it is still to be run, or `Over`. It takes no memory.
    fn next<O: Outside>(
        &mut self,
        _alloc: Global,
        _plan: &Plan,
        _round: u64,
        _state: &mut UserState,
        _outside: &mut O,
    ) -> Result<Turn, VarError> {
        Ok(take_turn(&mut self.chosen))
    }
}

impl InterleaveCursor {
    // Chooses among this many children.
    fn choose(&mut self, children: u16)
        ensures moved { self.new ≡ interleaved children self.old }
        ensures child { IfSome self.new.chosen (λ place. place < children) }
        ensures same { self.new.element ≡ self.old.element }
    {
        if children == 0 {
            self.chosen = None;
            return;
        }
        self.chosen = Some(self.place % children);
        self.place = ((u32::from(self.place) + 1) % u32::from(children)) as u16;
    }
}
