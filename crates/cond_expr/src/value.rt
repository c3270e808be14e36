// The values of conditions, their operators, and why a condition is refused.

ghost use Rattle.std.specs.Prelude.{◌≡◌, IfOk};

use jm_base::{M, NoMemory, Text};
use std::alloc::{AllocFailed, Global};
use thiserror::Error;

/// What a condition is worth. As text a truth is `true` or `false`, and a number is decimal.
#[derive(Drop)]
pub enum CondValue {
    /// A whole number of 64 bits.
    Number(i64),
    /// A text, without its quotes.
    Text(Text),
    /// A truth.
    Truth(bool),
}

/// An operator between two operands.
#[derive(Clone, Copy, PartialEq, Eq, Debug)]
pub enum Operator {
    /// `||`
    Or,
    /// `&&`
    And,
    /// `==`
    Equal,
    /// `!=`
    NotEqual,
    /// `<`
    Less,
    /// `<=`
    LessOrEqual,
    /// `>`
    Greater,
    /// `>=`
    GreaterOrEqual,
}

/// Why a condition is not read, or has no value.
#[derive(Clone, Copy, PartialEq, Eq, Debug, Error)]
pub enum CondError {
    /// The byte at this place, counted from 0, can't stand there; or, of an evaluation, the operator at this place
    /// has an operand of the wrong kind.
    #[error("bad condition at byte {at}")]
    BadCond { at: u32 },
    /// Out of memory.
    #[error("out of memory")]
    NoMemory,
}

impl From<NoMemory> for CondError {
    ghost use Rattle.std.specs.Prelude.{◌≡◌};
    ghost use Rattle.cond_expr.specs.declared.value.CondError.TheVariants.{NoMemory};

    ghost from_gives = { λ _ e. e ≡ NoMemory };

    fn from(_: NoMemory) -> CondError {
        CondError::NoMemory
    }
}

impl<T: Drop> From<AllocFailed<T>> for CondError {
    ghost use Rattle.std.specs.Prelude.{◌≡◌};
    ghost use Rattle.cond_expr.specs.declared.value.CondError.TheVariants.{NoMemory};

    ghost from_gives = { λ _ e. e ≡ NoMemory };

    fn from(_: AllocFailed<T>) -> CondError {
        CondError::NoMemory
    }
}

impl CondValue {
    /// A second value that is the same.
    pub(crate) fn copy(&self, alloc: Global) -> M<CondValue>
        ensures { IfOk result (λ v. v ≡ self.now) }
    {
        match self {
            CondValue::Number(number) => Ok(CondValue::Number(*number)),
            CondValue::Text(text) => {
                let text = text.copy(alloc)?;
                Ok(CondValue::Text(text))
            }
            CondValue::Truth(truth) => Ok(CondValue::Truth(*truth)),
        }
    }
}
