// The cursor of an If Controller.

ghost use Rattle.std.specs.Prelude.{◌≡◌, ◌<◌, ◌≤◌, IfOk, OnOk, OnErr, if◌then◌else◌};
ghost use Rattle.var_functions.specs.FunctionState.{IsLater};
ghost use Rattle.cursor_steps.specs.CursorStep.{StepsTo};
ghost use Rattle.cursor_steps.specs.RunningChildren.{PassTurn};
ghost use Rattle.logic_controllers.specs.IfController.{is_true, if_enters, if_next};

use cursor_steps::{Controller, Pass};
use element_tree::{Kind, Plan, Turn};
use jm_base::Outside;
use std::alloc::Global;
use template_text::Template;
use var_functions::{UserState, VarError, expand};

/// What an If Controller does next (the manual's "If Controller"): it runs its children in order where its condition is
/// true, on entry or, with `all`, before each child.
#[derive(Clone, Copy)]
pub struct IfCursor {
    /// The number of the controller's element.
    pub element: u16,
    /// The children that are left to run: none where the condition was not true on entry.
    pub pass: Pass,
}

/// Whether the text of a condition is true: `true`, in capitals or not.
pub fn is_true(text: &[u8]) -> bool
    ensures { result ≡ is_true text.now }
{
    text.eq_ignore_ascii_case(b"true")
}

/// All children, where the condition is true, and else none.
fn children_where(holds: bool, children: u16) -> u16
    ensures { result ≡ (if holds then children else 0) }
{
    if holds { children } else { 0 }
}

impl Controller for IfCursor {
    ghost use Rattle.std.specs.Prelude.{◌≡◌, ◌≤◌, ◌-◌, Bool, slice_get, OnOk, OnErr};
    ghost use Rattle.template_text.specs.Pieces.{Pieces};
    ghost use Rattle.element_tree.specs.declared.kinds.Element.{Element};
    ghost use Rattle.element_tree.specs.declared.kinds.Kind.TheVariants as kinds;
    ghost use Rattle.cursor_steps.specs.CursorStep.{at_element, IsThere};
    ghost use Rattle.cursor_steps.specs.RunningChildren.{run_count, pass_over, PassTurn};
    ghost use Rattle.logic_controllers.specs.IfController.{if_enters_at, if_next_at};

    ghost serves = { λ kind. (all : Bool) × (condition : Pieces) × (kind ≡ kinds.If all condition) };

    ghost place = { λ c. c.element };

    ghost fresh = { λ n. record { element = n; pass = pass_over 0 } };

    ghost enters = { λ elements c state. at_element (slice_get elements c.element) c state (λ e. if_enters_at e.kind (run_count elements e) c state) };

    ghost entered = { λ children c state result d after. OnOk result (d.pass.children ≤ children) };

    ghost needs = { λ elements c. (e : Element) × (all : Bool) × (condition : Pieces) × IsThere elements c.element e (kinds.If all condition) };

    ghost turns = { λ elements round c state. at_element (slice_get elements c.element) c state (λ e. if_next_at e.kind c state) };

    ghost turned = { λ elements c state result d after. PassTurn c.pass d.pass result × OnErr result (d ≡ c) × (after.vars ≡ state.vars) };

    ghost among = { λ children c. c.pass.children ≤ children };

    ghost begun = { λ c. 0 };

    ghost left = { λ c. c.pass.children - c.pass.next };

    fn new(element: u16) -> IfCursor {
        IfCursor {
            element,
            pass: Pass::over(0),
        }
    }

    fn element(&self) -> u16 {
        self.element
    }

    // Begins a pass. Without `all` the condition is expanded, and where it isn't true no child is run.
    fn enter_among<O: Outside>(
        &mut self,
        alloc: Global,
        plan: &Plan,
        children: u16,
        state: &mut UserState,
        outside: &mut O,
    ) -> Result<(), VarError> {
        let Some(element) = plan.element(self.element) else {
            unreachable!();
        };
        let Kind::If { all, condition } = &element.kind else {
            unreachable!();
        };
        self.begin(alloc, *all, condition, children, state, outside)
    }

    // The next child, or `Over` after the last one. With `all` the condition is expanded before each child, and it is
    // `Over` where it isn't true. A call that refuses leaves the cursor as it was.
    fn next<O: Outside>(
        &mut self,
        alloc: Global,
        plan: &Plan,
        _round: u64,
        state: &mut UserState,
        outside: &mut O,
    ) -> Result<Turn, VarError> {
        let Some(element) = plan.element(self.element) else {
            unreachable!();
        };
        let Kind::If { all, condition } = &element.kind else {
            unreachable!();
        };
        self.advance(alloc, *all, condition, state, outside)
    }
}

impl IfCursor {
    // Evaluates the condition where it is not to be before each child, with this many children to run.
    fn begin<O: Outside>(
        &mut self,
        alloc: Global,
        all: bool,
        condition: &Template,
        children: u16,
        state: &mut UserState,
        outside: &mut O,
    ) -> Result<(), VarError>
        ensures came { StepsTo (O.account outside.old) (if_enters all condition.now children self.old state.old) (O.account outside.new) self.new state.new result }
        ensures children { OnOk result (self.new.pass.children ≤ children) }
        ensures same { self.new.element ≡ self.old.element }
        ensures kept { OnErr result (self.new ≡ self.old) }
        ensures vars { state.new.vars ≡ state.old.vars }
        ensures later { IsLater state.old.fns state.new.fns }
    {
        if all {
            self.pass = Pass::over(children);
            return Ok(());
        }
        match expand(alloc, condition, state, outside) {
            Ok(text) => {
                self.pass = Pass::over(children_where(is_true(text.bytes()), children));
                Ok(())
            }
            Err(error) => Err(error),
        }
    }

    // What it does next, with this condition.
    fn advance<O: Outside>(
        &mut self,
        alloc: Global,
        all: bool,
        condition: &Template,
        state: &mut UserState,
        outside: &mut O,
    ) -> Result<Turn, VarError>
        ensures came { StepsTo (O.account outside.old) (if_next all condition.now self.old state.old) (O.account outside.new) self.new state.new result }
        ensures turned { PassTurn self.old.pass self.new.pass result }
        ensures same { self.new.element ≡ self.old.element }
        ensures kept { OnErr result (self.new ≡ self.old) }
        ensures vars { state.new.vars ≡ state.old.vars }
        ensures later { IsLater state.old.fns state.new.fns }
    {
        if self.pass.next >= self.pass.children {
            return Ok(Turn::Over);
        }
        if !all {
            return Ok(Turn::Child(self.pass.take_child()));
        }
        match expand(alloc, condition, state, outside) {
            Ok(text) => {
                if !is_true(text.bytes()) {
                    return Ok(Turn::Over);
                }
                Ok(Turn::Child(self.pass.take_child()))
            }
            Err(error) => Err(error),
        }
    }
}
