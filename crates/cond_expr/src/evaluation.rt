// The value of a condition: its steps one after another, over the values that they leave.

ghost use Rattle.std.specs.Prelude.{◌≡◌, ◌∷◌, ◌<◌, ℕ, List, vec_len, IfOk, Ok, Err};
ghost use Rattle.cond_expr.specs.declared.value.CondValue.{CondValue};
ghost use Rattle.cond_expr.specs.ConditionWorth.{opposite, equality, numbers, truths, applied, same_text, value_of};
ghost use Rattle.cond_expr.specs.Piles.{pile, Puts, IsReady, Advances};
ghost use Rattle.cond_expr.specs.ConditionGives.{Gives};

use crate::cond::{Cond, Step};
use crate::value::{CondError, CondValue, Operator};
use jm_base::M;
use std::alloc::Global;

/// `!` of a truth.
fn opposite(value: &CondValue) -> Option<bool>
    ensures { result ≡ opposite value.now }
{
    match value {
        CondValue::Truth(truth) => Some(!*truth),
        _ => None,
    }
}

/// Whether the bytes are the same.
fn same_text(left: &[u8], right: &[u8]) -> bool
    ensures { result ≡ same_text left.now right.now }
{
    left == right
}

/// Whether two operands of one kind are equal.
fn equality(left: &CondValue, right: &CondValue) -> Option<bool>
    ensures { result ≡ equality left.now right.now }
{
    match (left, right) {
        (CondValue::Number(x), CondValue::Number(y)) => Some(*x == *y),
        (CondValue::Text(x), CondValue::Text(y)) => Some(same_text(x.bytes(), y.bytes())),
        (CondValue::Truth(p), CondValue::Truth(q)) => Some(*p == *q),
        _ => None,
    }
}

/// Two operands, where both are numbers.
fn numbers(left: &CondValue, right: &CondValue) -> Option<(i64, i64)>
    ensures { result ≡ numbers left.now right.now }
{
    match (left, right) {
        (CondValue::Number(x), CondValue::Number(y)) => Some((*x, *y)),
        _ => None,
    }
}

/// Two operands, where both are truths.
fn truths(left: &CondValue, right: &CondValue) -> Option<(bool, bool)>
    ensures { result ≡ truths left.now right.now }
{
    match (left, right) {
        (CondValue::Truth(p), CondValue::Truth(q)) => Some((*p, *q)),
        _ => None,
    }
}

/// What an operator makes of its operands, where they are of the right kind.
fn applied(operator: Operator, left: &CondValue, right: &CondValue) -> Option<bool>
    ensures { result ≡ applied operator left.now right.now }
{
    match operator {
        Operator::Or => truths(left, right).map(|(p, q)| p || q),
        Operator::And => truths(left, right).map(|(p, q)| p && q),
        Operator::Equal => equality(left, right),
        Operator::NotEqual => equality(left, right).map(|same| !same),
        Operator::Less => numbers(left, right).map(|(x, y)| x < y),
        Operator::LessOrEqual => numbers(left, right).map(|(x, y)| x <= y),
        Operator::Greater => numbers(left, right).map(|(x, y)| x > y),
        Operator::GreaterOrEqual => numbers(left, right).map(|(x, y)| x >= y),
    }
}

/// Puts what an operator made of its operands, or gives its fault.
fn put(values: &mut Vec<CondValue>, at: u32, truth: Option<bool>) -> Result<(), CondError>
    ensures { (below : List CondValue) → values.old.items ≡ pile below → Puts at truth below result values.new.items }
{
    match truth {
        Some(truth) => {
            values.push(CondValue::Truth(truth))?;
            Ok(())
        }
        None => Err(CondError::BadCond { at }),
    }
}

/// `!` over the last value.
fn negate(values: &mut Vec<CondValue>, at: u32) -> Result<(), CondError>
    requires { 0 < vec_len values.old }
    ensures { (v : CondValue) (below : List CondValue) → values.old.items ≡ pile (v ∷ below) → Puts at (opposite v) below result values.new.items }
{
    match values.pop() {
        Some(value) => put(values, at, opposite(&value)),
        None => unreachable!(),
    }
}

/// An operator over the last two values.
fn apply(values: &mut Vec<CondValue>, at: u32, operator: Operator) -> Result<(), CondError>
    requires { 1 < vec_len values.old }
    ensures { (w v : CondValue) (below : List CondValue) → values.old.items ≡ pile (w ∷ v ∷ below) → Puts at (applied operator v w) below result values.new.items }
{
    match (values.pop(), values.pop()) {
        (Some(right), Some(left)) => put(values, at, applied(operator, &left, &right)),
        _ => unreachable!(),
    }
}

/// Does one step over the values that the steps before it have left.
fn advance(alloc: Global, values: &mut Vec<CondValue>, step: &Step) -> Result<(), CondError>
    requires { IsReady step.now (vec_len values.old) }
    ensures { Advances step.now result values.old.items values.new.items }
{
    match step {
        Step::Value(value) => {
            let value = value.copy(alloc)?;
            values.push(value)?;
            Ok(())
        }
        Step::Not(at) => negate(values, *at),
        Step::Apply(at, operator) => apply(values, *at, *operator),
    }
}

/// What a condition is worth. Both sides of an operator are always evaluated, the left before the right, and the first
/// fault counts.
pub fn eval(alloc: Global, cond: &Cond) -> Result<CondValue, CondError>
    ensures value { IfOk result (λ v. value_of cond.now ≡ Ok v) }
    // An operator at this place, the first in the order of evaluation, has an operand of the wrong kind.
    ensures fault { (at : ℕ) → result ≡ Err (CondError.BadCond at) → value_of cond.now ≡ Err at }
{
    let mut values = Vec::new(alloc);
    for step in &cond.steps {
        if let Err(error) = advance(alloc, &mut values, step) {
            return Err(error);
        }
    }
    match values.pop() {
        Some(value) => Ok(value),
        None => unreachable!(),
    }
}
