// The cursor of a While Controller.

ghost use Rattle.std.specs.Prelude.{◌≡◌, ◌≤◌, OnErr};
ghost use Rattle.var_functions.specs.FunctionState.{IsLater};
ghost use Rattle.cursor_steps.specs.CursorStep.{StepsTo};
ghost use Rattle.cursor_steps.specs.RunningChildren.{most_rounds};
ghost use Rattle.logic_controllers.specs.ControllerRounds.{RoundsTurn};
ghost use Rattle.logic_controllers.specs.WhileController.{is_blank, last_ok, goes_on, while_enters, while_goes, while_next, WhileKept};

use crate::rounds::Rounds;
use cursor_steps::Controller;
use element_tree::{Kind, Plan, Turn};
use jm_base::Outside;
use std::alloc::Global;
use template_text::Template;
use var_functions::{UserState, VarError, Vars, expand};

/// What a While Controller does next (the manual's "While Controller"): it runs its children round after round, for as
/// long as the text of its condition says.
#[derive(Clone, Copy)]
pub struct WhileCursor {
    /// The number of the controller's element.
    pub element: u16,
    /// Its rounds in this pass.
    pub rounds: Rounds,
}

/// Whether the text has nothing but spaces.
fn is_blank(text: &[u8]) -> bool
    ensures { result ≡ is_blank text.now }
{
    text.iter().all(|byte| *byte == b' ')
}

/// Whether the thread's last sample succeeded.
pub fn last_ok(vars: &Vars) -> bool
    ensures { result ≡ last_ok vars.now }
{
    match vars.get(b"JMeterThread.last_sample_ok") {
        Some(value) => value.bytes() == b"true".as_slice(),
        None => false,
    }
}

/// Whether a round of this index begins, by the text of the condition.
pub fn goes_on(text: &[u8], index: u32, ok: bool) -> bool
    ensures { result ≡ goes_on text.now index ok }
{
    if is_blank(text) {
        return index == 0 || ok;
    }
    if text == b"LAST".as_slice() {
        return ok;
    }
    !text.eq_ignore_ascii_case(b"false")
}

impl Controller for WhileCursor {
    ghost use Rattle.std.specs.Prelude.{◌≡◌, ◌≤◌, ◌-◌, slice_get, Some, Ok, OnErr};
    ghost use Rattle.template_text.specs.Pieces.{Pieces};
    ghost use Rattle.element_tree.specs.declared.kinds.Element.{Element};
    ghost use Rattle.element_tree.specs.declared.kinds.Kind.TheVariants as kinds;
    ghost use Rattle.cursor_steps.specs.CursorStep.{at_element, IsThere};
    ghost use Rattle.cursor_steps.specs.RunningChildren.{run_count, most_rounds};
    ghost use Rattle.logic_controllers.specs.ControllerRounds.{before_rounds, RoundsTurn};
    ghost use Rattle.logic_controllers.specs.WhileController.{while_enters, while_next_at, WhileKept};

    ghost serves = { λ kind. (condition : Pieces) × (kind ≡ kinds.While condition) };

    ghost place = { λ c. c.element };

    ghost fresh = { λ n. record { element = n; rounds = before_rounds 0 } };

    ghost enters = { λ elements c state. at_element (slice_get elements c.element) c state (λ e. while_enters (run_count elements e) c state) };

    ghost entered = { λ children c state result d after. (d.rounds ≡ before_rounds children) × (after ≡ state) × (result ≡ Ok tt) };

    ghost needs = { λ elements c. ((e : Element) × (condition : Pieces) × IsThere elements c.element e (kinds.While condition)) × (c.rounds.begun ≤ most_rounds) };

    ghost turns = { λ elements round c state. at_element (slice_get elements c.element) c state (λ e. while_next_at e.kind e.name c state) };

    ghost turned = { λ elements c state result d after. RoundsTurn c.rounds d.rounds result
        × ((e : Element) → slice_get elements c.element ≡ Some e → OnErr result (WhileKept e.name c state.vars d after.vars)) };

    ghost among = { λ children c. c.rounds.pass.children ≡ children };

    ghost begun = { λ c. c.rounds.begun };

    ghost left = { λ c. c.rounds.pass.children - c.rounds.pass.next };

    fn new(element: u16) -> WhileCursor {
        WhileCursor {
            element,
            rounds: Rounds::before_first(0),
        }
    }

    fn element(&self) -> u16 {
        self.element
    }

    // Stands before the first round. It takes no memory.
    fn enter_among<O: Outside>(
        &mut self,
        _alloc: Global,
        _plan: &Plan,
        children: u16,
        _state: &mut UserState,
        _outside: &mut O,
    ) -> Result<(), VarError> {
        self.rounds = Rounds::before_first(children);
        Ok(())
    }

    // Opens the round that began last, where that is still to come: sets `__jm__NAME__idx` to the round's index, from 0.
    // Then it is the next child, or after the last one, and before the first round, the condition is expanded: it is
    // `Round` where a further round begins, and else `Over`. Where the variable is refused all is left as it was, and
    // where the expansion is refused the round is open.
    fn next<O: Outside>(
        &mut self,
        alloc: Global,
        plan: &Plan,
        _round: u64,
        state: &mut UserState,
        outside: &mut O,
    ) -> Result<Turn, VarError> {
        let Some(element) = plan.element(self.element) else {
            unreachable!();
        };
        let Kind::While { condition } = &element.kind else {
            unreachable!();
        };
        self.advance(alloc, element.name.bytes(), condition, state, outside)
    }
}

impl WhileCursor {
    // What it does next, at an element of this name, with this condition.
    fn advance<O: Outside>(
        &mut self,
        alloc: Global,
        name: &[u8],
        condition: &Template,
        state: &mut UserState,
        outside: &mut O,
    ) -> Result<Turn, VarError>
        requires { self.old.rounds.begun ≤ most_rounds }
        ensures came { StepsTo (O.account outside.old) (while_next name.now condition.now self.old state.old) (O.account outside.new) self.new state.new result }
        ensures turned { RoundsTurn self.old.rounds self.new.rounds result }
        ensures same { self.new.element ≡ self.old.element }
        ensures kept { OnErr result (WhileKept name.now self.old state.old.vars self.new state.new.vars) }
        ensures later { IsLater state.old.fns state.new.fns }
    {
        match self.rounds.open(alloc, name, &mut state.vars) {
            Ok(()) => self.go_on(alloc, condition, state, outside),
            Err(error) => Err(error),
        }
    }

    // What comes next in a round that is open, or after it.
    fn go_on<O: Outside>(
        &mut self,
        alloc: Global,
        condition: &Template,
        state: &mut UserState,
        outside: &mut O,
    ) -> Result<Turn, VarError>
        requires { self.old.rounds.begun ≤ most_rounds }
        ensures came { StepsTo (O.account outside.old) (while_goes condition.now self.old state.old) (O.account outside.new) self.new state.new result }
        ensures turned { RoundsTurn self.old.rounds self.new.rounds result }
        ensures same { self.new.element ≡ self.old.element }
        ensures kept { OnErr result (self.new ≡ self.old) }
        ensures vars { state.new.vars ≡ state.old.vars }
        ensures later { IsLater state.old.fns state.new.fns }
    {
        if let Some(place) = self.rounds.pass.next_child() {
            return Ok(Turn::Child(place));
        }
        match expand(alloc, condition, state, outside) {
            Ok(text) => {
                if !goes_on(text.bytes(), self.rounds.begun, last_ok(&state.vars)) {
                    return Ok(Turn::Over);
                }
                self.rounds.begin();
                Ok(Turn::Round)
            }
            Err(error) => Err(error),
        }
    }
}
