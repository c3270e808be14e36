// Why a tree of elements is not a plan.

use jm_base::NoMemory;
use plan_json::Path;
use std::alloc::{AllocError, AllocFailed};
use thiserror::Error;

/// What there is too much of.
#[derive(Clone, Copy, PartialEq, Eq, Debug)]
pub enum What {
    /// Bytes of a plan.
    Bytes,
    /// Elements, of which a plan has at most 4,096.
    Elements,
    /// Threads, of which a plan has at most 64.
    Threads,
    /// Names of samplers and transactions, of which a plan has at most 256.
    Labels,
    /// Names of locks, of which a plan has at most 256.
    Locks,
    /// Samples that a run may make.
    Samples,
    /// Bytes of a text.
    Text,
}

/// Why a pattern is refused.
#[derive(Clone, Copy, PartialEq, Eq, Debug)]
pub enum PatternFault {
    /// It holds `${`.
    Reference,
    /// It is not a regular expression, or nests too deep for one.
    Syntax,
    /// It is too large once compiled.
    Size,
}

/// The first fault of a tree.
#[derive(Debug, Drop, Error)]
pub enum BuildError {
    /// The element at this path has a type that isn't known.
    #[error("{path}: unknown type")]
    UnknownType { path: Path },
    /// A required property is absent.
    #[error("{path}: missing property")]
    MissingProp { path: Path },
    /// A property that the type doesn't have, or whose value doesn't have its form.
    #[error("{path}: bad property")]
    BadProp { path: Path },
    /// There is too much of something.
    #[error("{path}: too many or too long")]
    TooMany { path: Path, what: What },
    /// The element is more than 32 deep, the root being 1.
    #[error("{path}: too deep")]
    TooDeep { path: Path },
    /// The element may not stand where it does.
    #[error("{path}: wrong place")]
    WrongPlace { path: Path },
    /// A pattern is refused.
    #[error("{path}: bad pattern")]
    BadPattern { path: Path, why: PatternFault },
    /// A template has a condition that can't be read, `at` being the first byte of the condition that can't stand there.
    #[error("{path}: bad condition at byte {at}")]
    BadCond { path: Path, at: u32 },
    /// An HTTP sampler has no replies, and none is asked elsewhere.
    #[error("{path}: no replies")]
    NoReplies { path: Path },
    /// The plan has no thread of the number asked for.
    #[error("no such thread")]
    NoThread,
    /// Out of memory.
    #[error("out of memory")]
    NoMemory,
}

impl From<NoMemory> for BuildError {
    ghost use Rattle.std.specs.Prelude.{◌≡◌};
    ghost use Rattle.element_props.specs.declared.error.BuildError.TheVariants as errors;

    ghost from_gives = { λ _ e. e ≡ errors.NoMemory };

    fn from(_: NoMemory) -> BuildError {
        BuildError::NoMemory
    }
}

impl From<AllocError> for BuildError {
    ghost use Rattle.std.specs.Prelude.{◌≡◌};
    ghost use Rattle.element_props.specs.declared.error.BuildError.TheVariants as errors;

    ghost from_gives = { λ _ e. e ≡ errors.NoMemory };

    fn from(_: AllocError) -> BuildError {
        BuildError::NoMemory
    }
}

impl<T: Drop> From<AllocFailed<T>> for BuildError {
    ghost use Rattle.std.specs.Prelude.{◌≡◌};
    ghost use Rattle.element_props.specs.declared.error.BuildError.TheVariants as errors;

    ghost from_gives = { λ _ e. e ≡ errors.NoMemory };

    fn from(_: AllocFailed<T>) -> BuildError {
        BuildError::NoMemory
    }
}
