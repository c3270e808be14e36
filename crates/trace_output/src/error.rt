// Why a text is not printed whole.

use thiserror::Error;

/// Why a text is not printed whole.
#[derive(Clone, Copy, PartialEq, Eq, Debug, Error)]
pub enum PrintError {
    /// A call of the sink failed.
    #[error("a write failed")]
    WriteFault,
    /// Memory ran out.
    #[error("out of memory")]
    NoMemory,
}
