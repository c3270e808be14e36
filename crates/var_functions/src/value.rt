// The values of functions.

ghost use Rattle.std.specs.Prelude.{◌≡◌, ◌≢◌, ◌≤◌, [], All, IfOk, OnErr, length, codes, unwrap_or, option_map};
ghost use Rattle.std.specs.Fmt.{decimal, signed_decimal};
ghost use Rattle.var_functions.specs.RunProps.{property_of};
ghost use Rattle.jm_base.specs.Run.{over};
ghost use Rattle.jm_base.specs.Outside.{Goes};
ghost use Rattle.cond_expr.specs.ConditionMachine.{condition};
ghost use Rattle.cond_expr.specs.ConditionGives.{Gives};
ghost use Rattle.thread_vars.specs.Vars.{most_text, truth_text, value_of};
ghost use Rattle.var_functions.specs.Texts.{value_bytes};
ghost use Rattle.var_functions.specs.Came.{LeftOf};
ghost use Rattle.var_functions.specs.FunctionState.{IsLater};
ghost use Rattle.var_functions.specs.Functions.{argument, second_or, counts, counter_value, random_value, condition_text, value};

use crate::function::Function;
use crate::number::{LIMIT, int_sum, number_within, picked};
use crate::state::FnState;
use crate::texts::{Argument, Value};
use cond_expr::{CondError, CondValue, eval, parse_cond};
use jm_base::{M, Outside, Text};
use std::alloc::Global;
use thread_vars::{Vars, truth_text};

/// The argument at this place.
fn argument<'a>(args: &'a [Argument], place: usize) -> &'a [u8]
    ensures { result.now ≡ argument place args.entry.now }
{
    match args.get(place) {
        Some(text) => text.bytes(),
        None => &[],
    }
}

/// The second argument, where there is one, and else another text.
fn second_or<'a>(other: &'a [u8], args: &'a [Argument]) -> &'a [u8]
    ensures { result.now ≡ second_or other.entry.now args.entry.now }
{
    match args.get(1) {
        Some(text) => text.bytes(),
        None => other,
    }
}

/// A number that is not negative.
fn count_value(number: u64) -> Value<'static>
    ensures { value_bytes result ≡ decimal number }
{
    Value::Number(i128::from(number))
}

/// `true` or `false`.
fn truth_value(truth: bool) -> Value<'static>
    ensures { value_bytes result ≡ truth_text truth }
{
    Value::Lent(truth_text(truth))
}

/// Whether the argument of `__counter` is one of those that count.
fn counts(flag: &[u8]) -> bool
    ensures { result ≡ counts flag.now }
{
    flag == b"TRUE".as_slice() || flag == b"true".as_slice()
}

/// The value of `__counter`.
fn counter_value(flag: &[u8], fns: &mut FnState) -> Option<Value<'static>>
    ensures value { (option_map value_bytes result, fns.new) ≡ counter_value flag.now fns.old }
    ensures later { IsLater fns.old fns.new }
{
    if counts(flag) {
        return Some(count_value(fns.count()));
    }
    None
}

/// The value of `__Random` between two numbers.
fn random_value(least: Option<i64>, most: Option<i64>, fns: &mut FnState) -> Option<Value<'static>>
    ensures value { (option_map value_bytes result, fns.new) ≡ random_value least most fns.old }
    ensures later { IsLater fns.old fns.new }
{
    match (least, most) {
        (Some(least), Some(most)) if least <= most => {
            Some(Value::Number(picked(least, most, fns.draw())))
        }
        _ => None,
    }
}

/// What a text is worth as a condition.
fn condition(alloc: Global, text: &[u8]) -> Result<CondValue, CondError>
    requires { length text.now ≤ 65536 }
    ensures { Gives result (condition text.now) }
{
    match parse_cond(alloc, text) {
        Ok(cond) => eval(alloc, &cond),
        Err(error) => Err(error),
    }
}

/// The text of a condition's value, or no text where it has none.
fn condition_value(alloc: Global, text: &[u8]) -> M<Value<'static>>
    requires { length text.now ≤ 65536 }
    ensures { IfOk result (λ v. value_bytes v ≡ condition_text (condition text.now)) }
{
    match condition(alloc, text) {
        Ok(CondValue::Number(number)) => Ok(Value::Number(i128::from(number))),
        Ok(CondValue::Text(text)) => Ok(Value::Formed(text)),
        Ok(CondValue::Truth(truth)) => Ok(truth_value(truth)),
        Err(CondError::BadCond { at: _ }) => Ok(Value::Lent(b"")),
        Err(CondError::NoMemory) => Err(jm_base::NoMemory),
    }
}

/// The value of a sum, where there is one.
fn sum_value(sum: Option<i64>) -> Option<Value<'static>>
    ensures { option_map value_bytes result ≡ option_map signed_decimal sum }
{
    match sum {
        Some(sum) => Some(Value::Number(i128::from(sum))),
        None => None,
    }
}

/// The value of `__V`.
fn variable_value<'a>(args: &'a [Argument], vars: &'a Vars) -> Value<'a>
    ensures { value_bytes result ≡ unwrap_or (value_of (argument 0 args.entry.now) vars.entry.now) (second_or (argument 0 args.entry.now) args.entry.now) }
{
    match vars.get(argument(args, 0)) {
        Some(value) => Value::Lent(value.bytes()),
        None => Value::Lent(second_or(argument(args, 0), args)),
    }
}

/// The value of `__P`.
fn property_value(alloc: Global, args: &[Argument], fns: &FnState) -> M<Value<'static>>
    ensures { IfOk result (λ v. value_bytes v ≡ unwrap_or (property_of (argument 0 args.now) fns.now.props) (second_or (codes "1") args.now)) }
{
    let text = match fns.property(argument(args, 0)) {
        Some(value) => Text::new(alloc, value)?,
        None => Text::new(alloc, second_or(b"1", args))?,
    };
    Ok(Value::Formed(text))
}

/// The value of a function that asks nothing of the outside.
fn kept_value<'a>(
    alloc: Global,
    function: Function,
    args: &'a [Argument],
    vars: &'a Vars,
    fns: &mut FnState,
) -> M<Option<Value<'a>>>
    requires time { function ≢ Function.Time }
    requires short { All (λ t. length t ≤ most_text) args.now }
    ensures value { IfOk result (λ v. value function args.entry.now vars.entry.now fns.old ≡ over (option_map value_bytes v, fns.new)) }
    ensures left { OnErr result (fns.new ≡ fns.old) }
    ensures later { IsLater fns.old fns.new }
{
    let value = match function {
        Function::ThreadNum => count_value(u64::from(fns.thread_num())),
        Function::Variable => variable_value(args, vars),
        Function::Property => property_value(alloc, args, fns)?,
        Function::IsVarDefined => truth_value(vars.get(argument(args, 0)).is_some()),
        Function::Condition => condition_value(alloc, argument(args, 0))?,
        Function::Counter => return Ok(counter_value(argument(args, 0), fns)),
        Function::Random => {
            let least = number_within(LIMIT, argument(args, 0));
            let most = number_within(LIMIT, argument(args, 1));
            return Ok(random_value(least, most, fns));
        }
        Function::IntSum => return Ok(sum_value(int_sum(args))),
        Function::Time => unreachable!(),
    };
    Ok(Some(value))
}

/// The value of a function at its arguments, or none where they haven't its form. It changes what functions keep.
pub(crate) fn value<'a, O: Outside>(
    alloc: Global,
    function: Function,
    args: &'a [Argument],
    vars: &'a Vars,
    fns: &mut FnState,
    outside: &mut O,
) -> M<Option<Value<'a>>>
    requires { All (λ t. length t ≤ most_text) args.now }
    ensures ok { IfOk result (λ v. Goes (O.account outside.old) (value function args.entry.now vars.entry.now fns.old) [] (over (option_map value_bytes v, fns.new)) (O.account outside.new)) }
    ensures cut { OnErr result (LeftOf (O.account outside.old) (value function args.entry.now vars.entry.now fns.old) (O.account outside.new)) }
    ensures left { OnErr result (fns.new ≡ fns.old) }
    ensures later { IsLater fns.old fns.new }
{
    match function {
        Function::Time => {
            let now = outside.now()?;
            Ok(Some(count_value(now)))
        }
        _ => kept_value(alloc, function, args, vars, fns),
    }
}
