// Why a run gives no books.

use jm_base::NoMemory;
use thiserror::Error;

/// Why a run gives no books.
#[derive(Clone, Copy, PartialEq, Eq, Debug, Error)]
pub enum RunError {
    /// A report was not written whole: the sink has counted a fault.
    #[error("a report was not written whole")]
    WriteFault,
    /// Out of memory.
    #[error("out of memory")]
    NoMemory,
}

impl From<NoMemory> for RunError {
    ghost use Rattle.std.specs.Prelude.{◌≡◌};
    ghost use Rattle.reporter_loop.specs.declared.error.RunError.TheVariants.{NoMemory};

    ghost from_gives = { λ _ e. e ≡ NoMemory };

    fn from(_: NoMemory) -> RunError {
        RunError::NoMemory
    }
}
