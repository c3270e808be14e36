// Why properties are refused.

use jm_base::NoMemory;
use thiserror::Error;

/// Why a text of properties is refused.
#[derive(Clone, Copy, PartialEq, Eq, Debug, Error)]
pub enum PropsError {
    /// A piece between two `&` is not empty and has no `=`.
    #[error("a property has no `=`")]
    BadProps,
    /// Out of memory.
    #[error("out of memory")]
    NoMemory,
}

impl From<NoMemory> for PropsError {
    ghost use Rattle.std.specs.Prelude.{◌≡◌};
    ghost use Rattle.var_functions.specs.declared.error.PropsError.TheVariants.{NoMemory};

    ghost from_gives = { λ _ e. e ≡ NoMemory };

    fn from(_: NoMemory) -> PropsError {
        PropsError::NoMemory
    }
}
