// Why a call of this crate is refused.

use jm_base::NoMemory;
use std::alloc::{AllocError, AllocFailed};
use thiserror::Error;

/// Why a variable is not set, or a template not expanded.
#[derive(Clone, Copy, PartialEq, Eq, Debug, Error)]
pub enum VarError {
    /// A text would pass 65,536 bytes, or all names and values of the thread 4,194,304 bytes.
    #[error("a value or the variables pass their limit")]
    ValueLimit,
    /// Out of memory.
    #[error("out of memory")]
    NoMemory,
}

impl From<NoMemory> for VarError {
    ghost use Rattle.std.specs.Prelude.{◌≡◌};
    ghost use Rattle.thread_vars.specs.declared.error.VarError.TheVariants.{NoMemory};

    ghost from_gives = { λ _ e. e ≡ NoMemory };

    fn from(_: NoMemory) -> VarError {
        VarError::NoMemory
    }
}

impl From<AllocError> for VarError {
    ghost use Rattle.std.specs.Prelude.{◌≡◌};
    ghost use Rattle.thread_vars.specs.declared.error.VarError.TheVariants.{NoMemory};

    ghost from_gives = { λ _ e. e ≡ NoMemory };

    fn from(_: AllocError) -> VarError {
        VarError::NoMemory
    }
}

impl<T: Drop> From<AllocFailed<T>> for VarError {
    ghost use Rattle.std.specs.Prelude.{◌≡◌};
    ghost use Rattle.thread_vars.specs.declared.error.VarError.TheVariants.{NoMemory};

    ghost from_gives = { λ _ e. e ≡ NoMemory };

    fn from(_: AllocFailed<T>) -> VarError {
        VarError::NoMemory
    }
}
