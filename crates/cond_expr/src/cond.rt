// A condition that was read, and its value.

ghost use Rattle.std.specs.Prelude.{◌≡◌, ℕ, IfOk, Ok, Err};

use crate::value::{CondError, CondValue, Operator};
use std::marker::Model;

/// One step of an evaluation, over the values that the steps before it have left.
#[derive(Drop)]
pub enum Step {
    /// A value of its own.
    Value(CondValue),
    /// `!` at this place, over the last value.
    Not(u32),
    /// The operator at this place, over the last two values.
    Apply(u32, Operator),
}

/// A condition that was read.
#[derive(Drop)]
pub struct Cond {
    pub(crate) steps: Vec<Step>,
}

impl Model for Cond {
    ghost use Rattle.cond_expr.specs.ConditionTree.{Reading};
    ghost use Rattle.cond_expr.specs.Steps.{reading_of_steps, AreSteps, reading_code};

    ghost Value = { Reading };

    ghost coded = { reading_code };

    ghost view = { λ c. reading_of_steps c.steps.items };

    ghost invariant = { λ c. AreSteps c.steps.items };
}
