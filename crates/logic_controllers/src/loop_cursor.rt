// The cursor of a Loop Controller.

ghost use Rattle.std.specs.Prelude.{◌≡◌, ◌≤◌, OnOk, OnErr, Ok};
ghost use Rattle.var_functions.specs.declared.state.UserState.{UserState};
ghost use Rattle.var_functions.specs.FunctionState.{IsLater};
ghost use Rattle.cursor_steps.specs.CursorStep.{StepsTo, answers};
ghost use Rattle.cursor_steps.specs.RunningChildren.{most_rounds};
ghost use Rattle.logic_controllers.specs.ControllerRounds.{before_rounds, RoundsTurn};
ghost use Rattle.logic_controllers.specs.LoopController.{loops_of, round_begins, loop_enters, loop_goes, loop_next};

use crate::rounds::Rounds;
use cursor_steps::{Controller, decimal_number};
use element_tree::{Kind, Loops, Plan, Turn};
use jm_base::Outside;
use std::alloc::Global;
use template_text::Template;
use var_functions::{UserState, VarError, expand};

/// What a Loop Controller does next (the manual's "Loop Controller"): it runs its children round after round, as often
/// as the text of `loops` asked for on entry.
#[derive(Clone, Copy)]
pub struct LoopCursor {
    /// The number of the controller's element.
    pub element: u16,
    /// How many rounds the text asked for.
    pub loops: Loops,
    /// Its rounds in this pass.
    pub rounds: Rounds,
}

/// How many rounds a text asks for.
pub fn loops_of(text: &[u8]) -> Loops
    ensures { result ≡ loops_of text.now }
{
    if text == b"-1".as_slice() {
        return Loops::Forever;
    }
    Loops::Times(decimal_number(text).unwrap_or(0))
}

/// Whether a round of this index begins.
pub fn round_begins(loops: Loops, index: u32) -> bool
    ensures { result ≡ round_begins loops index }
{
    match loops {
        Loops::Forever => true,
        Loops::Times(count) => index < count,
    }
}

impl Controller for LoopCursor {
    ghost use Rattle.std.specs.Prelude.{◌≡◌, ◌≤◌, ◌-◌, slice_get, OnOk, OnErr};
    ghost use Rattle.template_text.specs.Pieces.{Pieces};
    ghost use Rattle.element_tree.specs.declared.kinds.Element.{Element};
    ghost use Rattle.element_tree.specs.declared.kinds.Kind.TheVariants as kinds;
    ghost use Rattle.element_tree.specs.declared.kinds.Loops.TheVariants as loops;
    ghost use Rattle.cursor_steps.specs.CursorStep.{at_element, IsThere};
    ghost use Rattle.cursor_steps.specs.RunningChildren.{run_count, most_rounds};
    ghost use Rattle.logic_controllers.specs.ControllerRounds.{before_rounds, RoundsTurn};
    ghost use Rattle.logic_controllers.specs.LoopController.{loop_enters_at, loop_next};

    ghost serves = { λ kind. (text : Pieces) × (kind ≡ kinds.Loop text) };

    ghost place = { λ c. c.element };

    ghost fresh = { λ n. record { element = n; loops = loops.Times 0; rounds = before_rounds 0 } };

    ghost enters = { λ elements c state. at_element (slice_get elements c.element) c state (λ e. loop_enters_at e.kind (run_count elements e) c state) };

    ghost entered = { λ children c state result d after. OnOk result (d.rounds ≡ before_rounds children) };

    ghost needs = { λ elements c. ((e : Element) × (text : Pieces) × IsThere elements c.element e (kinds.Loop text)) × (c.rounds.begun ≤ most_rounds) };

    ghost turns = { λ elements round c state. at_element (slice_get elements c.element) c state (λ e. loop_next e.name c state) };

    ghost turned = { λ elements c state result d after. RoundsTurn c.rounds d.rounds result × OnErr result ((d ≡ c) × (after ≡ state)) × (after.fns ≡ state.fns) };

    ghost among = { λ children c. c.rounds.pass.children ≡ children };

    ghost begun = { λ c. c.rounds.begun };

    ghost left = { λ c. c.rounds.pass.children - c.rounds.pass.next };

    fn new(element: u16) -> LoopCursor {
        LoopCursor {
            element,
            loops: Loops::Times(0),
            rounds: Rounds::before_first(0),
        }
    }

    fn element(&self) -> u16 {
        self.element
    }

    // Expands `loops`: decimal digits ask for that many rounds, `-1` for rounds without end, any other text for none.
    fn enter_among<O: Outside>(
        &mut self,
        alloc: Global,
        plan: &Plan,
        children: u16,
        state: &mut UserState,
        outside: &mut O,
    ) -> Result<(), VarError> {
        let Some(element) = plan.element(self.element) else {
            unreachable!();
        };
        let Kind::Loop { loops } = &element.kind else {
            unreachable!();
        };
        self.begin(alloc, loops, children, state, outside)
    }

    // Opens the round that began last, where that is still to come: sets `__jm__NAME__idx` to the round's index, from 0.
    // Then it is the next child, or after the last one `Round` where a further round begins, or `Over`. A call that
    // refuses leaves all as it was.
    fn next<O: Outside>(
        &mut self,
        alloc: Global,
        plan: &Plan,
        _round: u64,
        state: &mut UserState,
        outside: &mut O,
    ) -> Result<Turn, VarError> {
        let Some(element) = plan.element(self.element) else {
            unreachable!();
        };
        self.advance(alloc, element.name.bytes(), state, outside)
    }
}

impl LoopCursor {
    // Expands the text of `loops`, with this many children to run in each round.
    fn begin<O: Outside>(
        &mut self,
        alloc: Global,
        loops: &Template,
        children: u16,
        state: &mut UserState,
        outside: &mut O,
    ) -> Result<(), VarError>
        ensures came { StepsTo (O.account outside.old) (loop_enters loops.now children self.old state.old) (O.account outside.new) self.new state.new result }
        ensures rounds { OnOk result (self.new.rounds ≡ before_rounds children) }
        ensures same { self.new.element ≡ self.old.element }
        ensures kept { OnErr result (self.new ≡ self.old) }
        ensures vars { state.new.vars ≡ state.old.vars }
        ensures later { IsLater state.old.fns state.new.fns }
    {
        match expand(alloc, loops, state, outside) {
            Ok(text) => {
                self.loops = loops_of(text.bytes());
                self.rounds = Rounds::before_first(children);
                Ok(())
            }
            Err(error) => Err(error),
        }
    }

    // What it does next, at an element of this name.
    fn advance<O: Outside>(
        &mut self,
        alloc: Global,
        name: &[u8],
        state: &mut UserState,
        outside: &mut O,
    ) -> Result<Turn, VarError>
        requires { self.old.rounds.begun ≤ most_rounds }
        ensures came { StepsTo (O.account outside.old) (loop_next name.now self.old state.old) (O.account outside.new) self.new state.new result }
        ensures turned { RoundsTurn self.old.rounds self.new.rounds result }
        ensures same { self.new.element ≡ self.old.element }
        ensures kept { OnErr result ((self.new ≡ self.old) × (state.new ≡ state.old)) }
        ensures fns { state.new.fns ≡ state.old.fns }
    {
        match self.rounds.open(alloc, name, &mut state.vars) {
            Ok(()) => Ok(self.turn()),
            Err(error) => Err(error),
        }
    }

    // What comes next in a round that is open.
    fn turn(&mut self) -> Turn
        requires { self.old.rounds.begun ≤ most_rounds }
        ensures goes { (state : UserState) → answers result self.new state ≡ loop_goes self.old state }
        ensures turned { RoundsTurn self.old.rounds self.new.rounds (Ok result) }
        ensures same { self.new.element ≡ self.old.element }
    {
        if let Some(place) = self.rounds.pass.next_child() {
            return Turn::Child(place);
        }
        if !round_begins(self.loops, self.rounds.begun) {
            return Turn::Over;
        }
        self.rounds.begin();
        Turn::Round
    }
}
