// The cursor of a ForEach Controller.

ghost use Rattle.std.specs.Prelude.{◌≡◌, ◌+◌, ◌<◌, ◌≤◌, IfOk, IfSome, OnOk, OnErr, None};
ghost use Rattle.std.specs.Option.{option_copied};
ghost use Rattle.jm_base.specs.Run.{Run};
ghost use Rattle.jm_base.specs.Outside.{Account};
ghost use Rattle.thread_vars.specs.Vars.{Puts};
ghost use Rattle.var_functions.specs.FunctionState.{Functions};
ghost use Rattle.var_functions.specs.Came.{CameTo};
ghost use Rattle.cursor_steps.specs.CursorStep.{Step, past_limit, StepsTo};
ghost use Rattle.logic_controllers.specs.ControllerRounds.{opened, RoundsTurn};
ghost use Rattle.logic_controllers.specs.ForEachController.{input_name, value_at, output_vars, each_goes, each_opens, each_next, AllSet, EachKept};

use crate::kept_value::KeptValue;
use crate::rounds::Rounds;
use cursor_steps::Controller;
use element_tree::{Kind, Plan, Turn};
use itoa::Buffer;
use jm_base::{M, Outside, Text};
use smallvec::SmallVec;
use std::alloc::Global;
use var_functions::{UserState, VarError, Vars};

/// What a ForEach Controller does next (the manual's "ForEach Controller"): it runs its children once for each variable
/// of a numbered row, whose value goes to another variable.
#[derive(Drop)]
pub struct EachCursor {
    /// The number of the controller's element.
    pub element: u16,
    /// Its rounds in this pass.
    pub rounds: Rounds,
    /// The value of the round that began last, until it goes to the output.
    pub value: KeptValue,
}

// Names of no more bytes take no memory.
const USUAL_NAME: usize = 32;

/// The name of the variable of this number.
fn input_name(
    alloc: Global,
    input: &[u8],
    separator: bool,
    number: u64,
) -> M<SmallVec<u8, USUAL_NAME>>
    ensures { IfOk result (λ name. name.items ≡ input_name input.now separator number) }
{
    let mut name = SmallVec::from_slice(alloc, input)?;
    if separator {
        name.push(b'_')?;
    }
    name.extend_from_slice(Buffer::new().format(number).as_bytes())?;
    Ok(name)
}

/// Sets the output to a value, where there is one.
fn put_value(
    alloc: Global,
    output: &Text,
    value: Option<&[u8]>,
    vars: &mut Vars,
) -> Result<(), VarError>
    ensures { Puts (output_vars output.now (option_copied value.entry) vars.old) vars.old vars.new result }
{
    match value {
        Some(value) => vars.put_copy(alloc, output.bytes(), value),
        None => Ok(()),
    }
}

/// Which variables of a row are read.
#[derive(Clone, Copy)]
pub struct Span {
    /// Whether `_` stands before their numbers.
    pub separator: bool,
    /// The number before the first one.
    pub start: u32,
    /// The number of the last one.
    pub end: u32,
}

/// The value of the round of this index where it stands, where there is one.
fn lent_value<'a>(
    alloc: Global,
    vars: &'a Vars,
    input: &Text,
    span: Span,
    index: u32,
) -> M<Option<&'a Text>>
    ensures value { IfOk result (λ v. option_copied v ≡ value_at (record { input = input.now; separator = span.separator; start = span.start; end = span.end }) index vars.now) }
    ensures within { IfOk result (λ v. IfSome v (λ t. span.start + 1 + index ≤ span.end)) }
{
    let number = u64::from(span.start) + 1 + u64::from(index);
    if number > u64::from(span.end) {
        return Ok(None);
    }
    let name = input_name(alloc, input.bytes(), span.separator, number)?;
    Ok(vars.get(name.as_slice()))
}

/// A copy of the value of the round of this index, where there is one.
pub fn value_at(alloc: Global, vars: &Vars, input: &Text, span: Span, index: u32) -> M<Option<Text>>
    ensures value { IfOk result (λ v. v ≡ value_at (record { input = input.now; separator = span.separator; start = span.start; end = span.end }) index vars.now) }
    ensures within { IfOk result (λ v. IfSome v (λ t. span.start + 1 + index ≤ span.end)) }
{
    match lent_value(alloc, vars, input, span, index)? {
        Some(value) => {
            let copy = value.copy(alloc)?;
            Ok(Some(copy))
        }
        None => Ok(None),
    }
}

impl Controller for EachCursor {
    ghost use Rattle.std.specs.Prelude.{◌≡◌, ◌-◌, ℕ, List, slice_get, Some, None, Ok, OnErr};
    ghost use Rattle.element_tree.specs.declared.kinds.Element.{Element};
    ghost use Rattle.cursor_steps.specs.CursorStep.{at_element, IsThere};
    ghost use Rattle.cursor_steps.specs.RunningChildren.{run_count};
    ghost use Rattle.logic_controllers.specs.ControllerRounds.{before_rounds, RoundsTurn};
    ghost use Rattle.logic_controllers.specs.ForEachController.{Row, kind_of, each_enters, each_next_at, EachKept};

    ghost serves = { λ kind. (row : Row) × (output : List ℕ) × (kind ≡ kind_of row output) };

    ghost place = { λ c. c.element };

    ghost fresh = { λ n. record { element = n; rounds = before_rounds 0; value = None } };

    ghost enters = { λ elements c state. at_element (slice_get elements c.element) c state (λ e. each_enters (run_count elements e) c state) };

    ghost entered = { λ children c state result d after. (d.rounds ≡ before_rounds children) × (after ≡ state) × (result ≡ Ok tt) };

    ghost needs = { λ elements c. (e : Element) × (row : Row) × (output : List ℕ) × IsThere elements c.element e (kind_of row output) };

    ghost turns = { λ elements round c state. at_element (slice_get elements c.element) c state (λ e. each_next_at e.kind e.name c state) };

    ghost turned = { λ elements c state result d after. RoundsTurn c.rounds d.rounds result
        × ((e : Element) (row : Row) (output : List ℕ) → IsThere elements c.element e (kind_of row output) → OnErr result (EachKept e.name output c state.vars d after.vars))
        × (after.fns ≡ state.fns) };

    ghost among = { λ children c. c.rounds.pass.children ≡ children };

    ghost begun = { λ c. c.rounds.begun };

    ghost left = { λ c. c.rounds.pass.children - c.rounds.pass.next };

    fn new(element: u16) -> EachCursor {
        EachCursor {
            element,
            rounds: Rounds::before_first(0),
            value: KeptValue::none(),
        }
    }

    fn element(&self) -> u16 {
        self.element
    }

    // Stands before the first round. It takes no memory.
    fn enter_among<O: Outside>(
        &mut self,
        _alloc: Global,
        _plan: &Plan,
        children: u16,
        _state: &mut UserState,
        _outside: &mut O,
    ) -> Result<(), VarError> {
        self.rounds = Rounds::before_first(children);
        self.value.forget();
        Ok(())
    }

    // Opens the round that began last, where that is still to come: sets `__jm__NAME__idx` to the round's index, from 0,
    // and then the output to its value. Then it is the next child, or after the last one, and before the first round, the
    // next variable is read: it is `Round` where it is defined and not past the end, and else `Over`.
    fn next<O: Outside>(
        &mut self,
        alloc: Global,
        plan: &Plan,
        _round: u64,
        state: &mut UserState,
        outside: &mut O,
    ) -> Result<Turn, VarError> {
        let Some(element) = plan.element(self.element) else {
            unreachable!();
        };
        let Kind::ForEach {
            end,
            input,
            output,
            separator,
            start,
        } = &element.kind
        else {
            unreachable!();
        };
        let span = Span {
            separator: *separator,
            start: *start,
            end: *end,
        };
        self.advance(
            alloc,
            element.name.bytes(),
            input,
            span,
            output,
            state,
            outside,
        )
    }
}

impl EachCursor {
    // What it does next, at an element of this name, over these variables.
    fn advance<O: Outside>(
        &mut self,
        alloc: Global,
        name: &[u8],
        input: &Text,
        span: Span,
        output: &Text,
        state: &mut UserState,
        outside: &mut O,
    ) -> Result<Turn, VarError>
        ensures came { StepsTo (O.account outside.old)
            (each_next name.now (record { input = input.now; separator = span.separator; start = span.start; end = span.end }) output.now self.old state.old)
            (O.account outside.new) self.new state.new result }
        ensures turned { RoundsTurn self.old.rounds self.new.rounds result }
        ensures same { self.new.element ≡ self.old.element }
        ensures kept { OnErr result (EachKept name.now output.now self.old state.old.vars self.new state.new.vars) }
        ensures fns { state.new.fns ≡ state.old.fns }
    {
        match self.open(alloc, name, output, &mut state.vars) {
            Ok(()) => self.go_on(alloc, input, span, state),
            Err(error) => Err(error),
        }
    }

    // Opens the round that began last, where that is still to come.
    fn open(
        &mut self,
        alloc: Global,
        name: &[u8],
        output: &Text,
        vars: &mut Vars,
    ) -> Result<(), VarError>
        ensures came { (a : Account) (fns : Functions) (next : UserState → Run (Step Turn EachCursor))
            → CameTo a (each_opens name.now output.now self.old (record { vars = vars.old; fns = fns }) next) a
            (λ u. next (record { vars = vars.new; fns = fns })) (past_limit self.new (record { vars = vars.new; fns = fns })) result }
        ensures opened { OnOk result (self.new ≡ record self.old { rounds = opened self.old.rounds; value = None }) }
        ensures vars { OnOk result (AllSet name.now output.now self.old vars.old vars.new) }
        ensures kept { OnErr result (EachKept name.now output.now self.old vars.old self.new vars.new) }
    {
        match self.rounds.open(alloc, name, vars) {
            Ok(()) => self.put_out(alloc, output, vars),
            Err(error) => Err(error),
        }
    }

    // Sets the output to the value that is kept, where there is one. It is kept no more then.
    fn put_out(&mut self, alloc: Global, output: &Text, vars: &mut Vars) -> Result<(), VarError>
        ensures vars { Puts (output_vars output.now self.old.value vars.old) vars.old vars.new result }
        ensures taken { self.new ≡ record self.old { value = None } }
    {
        let put = put_value(alloc, output, self.value.get(), vars);
        self.value.forget();
        put
    }

    // What comes next in a round that is open, or after it.
    fn go_on(
        &mut self,
        alloc: Global,
        input: &Text,
        span: Span,
        state: &UserState,
    ) -> Result<Turn, VarError>
        ensures came { (a : Account) → StepsTo a
            (each_goes (record { input = input.now; separator = span.separator; start = span.start; end = span.end }) self.old state.now) a self.new state.now result }
        ensures turned { RoundsTurn self.old.rounds self.new.rounds result }
        ensures same { self.new.element ≡ self.old.element }
        ensures kept { OnErr result (self.new ≡ self.old) }
    {
        if let Some(place) = self.rounds.pass.next_child() {
            return Ok(Turn::Child(place));
        }
        match lent_value(alloc, &state.vars, input, span, self.rounds.begun) {
            Ok(Some(value)) => {
                self.value.keep(alloc, value.bytes())?;
                self.rounds.begin();
                Ok(Turn::Round)
            }
            Ok(None) => Ok(Turn::Over),
            Err(_) => Err(VarError::NoMemory),
        }
    }
}
