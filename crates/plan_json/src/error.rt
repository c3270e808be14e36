// Why bytes are not a tree of elements.

use crate::path::Path;
use jm_base::NoMemory;
use std::alloc::{AllocError, AllocFailed};
use thiserror::Error;

/// Why bytes are not a tree of elements.
#[derive(Debug, Drop, Error)]
pub enum TreeError {
    /// The bytes are not UTF-8.
    #[error("not UTF-8")]
    NotUtf8,
    /// The text is not JSON, as one that is empty or nests more than 127 deep.
    #[error("not JSON")]
    NotJson,
    /// The value at this path is not an element: it is not an object, lacks `type`, or has one of the five keys with a
    /// value of another form.
    #[error("not an element at {path}")]
    NotElement { path: Path },
    /// The element at this path has a key that is not one of the five.
    #[error("an unknown key at {path}")]
    UnknownKey { path: Path },
    /// Out of memory.
    #[error("out of memory")]
    NoMemory,
}

impl From<NoMemory> for TreeError {
    ghost use Rattle.std.specs.Prelude.{◌≡◌};
    ghost use Rattle.plan_json.specs.declared.error.TreeError.TheVariants as errors;

    ghost from_gives = { λ _ e. e ≡ errors.NoMemory };

    fn from(_: NoMemory) -> TreeError {
        TreeError::NoMemory
    }
}

impl From<AllocError> for TreeError {
    ghost use Rattle.std.specs.Prelude.{◌≡◌};
    ghost use Rattle.plan_json.specs.declared.error.TreeError.TheVariants.{NoMemory};

    ghost from_gives = { λ _ e. e ≡ NoMemory };

    fn from(_: AllocError) -> TreeError {
        TreeError::NoMemory
    }
}

impl<T: Drop> From<AllocFailed<T>> for TreeError {
    ghost use Rattle.std.specs.Prelude.{◌≡◌};
    ghost use Rattle.plan_json.specs.declared.error.TreeError.TheVariants.{NoMemory};

    ghost from_gives = { λ _ e. e ≡ NoMemory };

    fn from(_: AllocFailed<T>) -> TreeError {
        TreeError::NoMemory
    }
}
