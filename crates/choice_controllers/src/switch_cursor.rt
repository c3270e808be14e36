// The cursor of a Switch Controller.

ghost use Rattle.std.specs.Prelude.{◌≡◌, ◌<◌, IfSome, OnOk, OnErr};
ghost use Rattle.var_functions.specs.FunctionState.{IsLater};
ghost use Rattle.cursor_steps.specs.CursorStep.{StepsTo};
ghost use Rattle.cursor_steps.specs.RunningChildren.{run_count};
ghost use Rattle.choice_controllers.specs.SwitchController.{name_at, run_names, is_name, place_named, index_among, picks, switch_enters};

use crate::chosen::take_turn;
use cursor_steps::{Controller, decimal_number, is_run_at};
use element_tree::{Element, Kind, Plan, Turn};
use jm_base::Outside;
use std::alloc::Global;
use template_text::Template;
use var_functions::{UserState, VarError, expand};

/// What a Switch Controller does next (the manual's "Switch Controller"): in each pass it runs the one child that the
/// text of `value` picked on entry, by its index or by its name.
#[derive(Clone, Copy)]
pub struct SwitchCursor {
    /// The number of the controller's element.
    pub element: u16,
    /// The place of the child that is still to be run in this pass.
    pub chosen: Option<u16>,
}

/// Whether a name is the one that is sought, capitals of ASCII aside where case does not matter.
fn is_name(name: &[u8], wanted: &[u8], any_case: bool) -> bool
    ensures { result ≡ is_name any_case wanted.now name.now }
{
    if any_case {
        return name.eq_ignore_ascii_case(wanted);
    }
    name == wanted
}

/// The name of the element of this number.
fn name_at(plan: &Plan, number: u16) -> &[u8]
    ensures { result.now ≡ name_at plan.now.elements number }
{
    match plan.element(number) {
        Some(element) => element.name.bytes(),
        None => b"",
    }
}

/// The place of the first child that has the name that is sought, among the children that are run.
fn place_named(plan: &Plan, element: &Element, wanted: &[u8], any_case: bool) -> Option<u16>
    ensures { result ≡ place_named any_case wanted.now (run_names plan.now.elements element.now) }
{
    let mut place: u16 = 0;
    for child in element.children.as_slice() {
        if !is_run_at(plan, *child) {
            continue;
        }
        if place == u16::MAX {
            return None;
        }
        if is_name(name_at(plan, *child), wanted, any_case) {
            return Some(place);
        }
        place += 1;
    }
    None
}

/// An index among this many children; one that is out of range is the first child's.
fn index_among(children: u16, index: u32) -> u16
    ensures among { result ≡ index_among children index }
    ensures below { 0 < children → result < children }
{
    if index < u32::from(children) {
        index as u16
    } else {
        0
    }
}

/// The place of the child that a text picks, among this many children that are run.
pub fn picks(plan: &Plan, element: &Element, children: u16, text: &[u8]) -> Option<u16>
    requires { children ≡ run_count plan.now.elements element.now }
    ensures place { result ≡ picks text.now (run_names plan.now.elements element.now) }
    ensures child { IfSome result (λ place. place < run_count plan.now.elements element.now) }
{
    if children == 0 {
        return None;
    }
    if text.is_empty() {
        return Some(0);
    }
    if let Some(index) = decimal_number(text) {
        return Some(index_among(children, index));
    }
    match place_named(plan, element, text, false) {
        Some(place) => Some(place),
        None => place_named(plan, element, b"default", true),
    }
}

impl Controller for SwitchCursor {
    ghost use Rattle.std.specs.Prelude.{◌≡◌, ◌<◌, slice_get, None, OnOk, IfSome, ⊤};
    ghost use Rattle.template_text.specs.Pieces.{Pieces};
    ghost use Rattle.element_tree.specs.declared.kinds.Kind.TheVariants as kinds;
    ghost use Rattle.cursor_steps.specs.CursorStep.{at_element};
    ghost use Rattle.choice_controllers.specs.Chosen.{waiting, RunsChosen};
    ghost use Rattle.choice_controllers.specs.SwitchController.{run_names, switch_enters_at, switch_next};

    ghost serves = { λ kind. (value : Pieces) × (kind ≡ kinds.Switch value) };

    ghost place = { λ c. c.element };

    ghost fresh = { λ n. record { element = n; chosen = None } };

    ghost enters = { λ elements c state. at_element (slice_get elements c.element) c state (λ e. switch_enters_at e.kind (run_names elements e) c state) };

    ghost entered = { λ children c state result d after. OnOk result (IfSome d.chosen (λ place. place < children)) };

    ghost needs = { λ elements c. ⊤ };

    ghost turns = { λ elements round c state. switch_next c state };

    ghost turned = { λ elements c state result d after. RunsChosen c.chosen result × (d ≡ record c { chosen = None }) × (after ≡ state) };

    ghost among = { λ children c. IfSome c.chosen (λ place. place < children) };

    ghost begun = { λ c. 0 };

    ghost left = { λ c. waiting c.chosen };

    fn new(element: u16) -> SwitchCursor {
        SwitchCursor {
            element,
            chosen: None,
        }
    }

    fn element(&self) -> u16 {
        self.element
    }

    // Begins a pass: expands `value`, and chooses the child that its text picks. Decimal digits pick the child of that
    // index, from 0; an index out of range, or an empty text, picks the first child. Another text picks the first child of
    // that name, case significant; where no child has it, the first one named `default`, in capitals or not; else none.
    fn enter_among<O: Outside>(
        &mut self,
        alloc: Global,
        plan: &Plan,
        children: u16,
        state: &mut UserState,
        outside: &mut O,
    ) -> Result<(), VarError> {
        let Some(element) = plan.element(self.element) else {
            unreachable!();
        };
        let Kind::Switch { value } = &element.kind else {
            unreachable!();
        };
        self.begin(alloc, plan, element, children, value, state, outside)
    }

    // The child that was chosen, where it is still to be run, or `Over`. It takes no memory.
    fn next<O: Outside>(
        &mut self,
        _alloc: Global,
        _plan: &Plan,
        _round: u64,
        _state: &mut UserState,
        _outside: &mut O,
    ) -> Result<Turn, VarError> {
        Ok(take_turn(&mut self.chosen))
    }
}

impl SwitchCursor {
    // Expands the text, which picks one of the children of this element that are run.
    fn begin<O: Outside>(
        &mut self,
        alloc: Global,
        plan: &Plan,
        element: &Element,
        children: u16,
        value: &Template,
        state: &mut UserState,
        outside: &mut O,
    ) -> Result<(), VarError>
        requires { children ≡ run_count plan.now.elements element.now }
        ensures came { StepsTo (O.account outside.old) (switch_enters value.now (run_names plan.now.elements element.now) self.old state.old)
            (O.account outside.new) self.new state.new result }
        ensures child { OnOk result (IfSome self.new.chosen (λ place. place < run_count plan.now.elements element.now)) }
        ensures same { self.new.element ≡ self.old.element }
        ensures kept { OnErr result (self.new ≡ self.old) }
        ensures vars { state.new.vars ≡ state.old.vars }
        ensures later { IsLater state.old.fns state.new.fns }
    {
        match expand(alloc, value, state, outside) {
            Ok(text) => {
                self.chosen = picks(plan, element, children, text.bytes());
                Ok(())
            }
            Err(error) => Err(error),
        }
    }
}
