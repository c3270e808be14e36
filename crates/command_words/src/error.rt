// Why the words of a command line are not read.

use std::alloc::AllocError;
use thiserror::Error;

/// Why the words of a command line are not read.
#[derive(Clone, Copy, PartialEq, Eq, Debug, Error)]
pub enum WordsError {
    /// The words are not a command with its options.
    #[error("the words are no command")]
    BadWords,
    /// Memory ran out.
    #[error("out of memory")]
    NoMemory,
}

impl From<AllocError> for WordsError {
    ghost use Rattle.std.specs.Prelude.{◌≡◌};
    ghost use Rattle.command_words.specs.declared.error.WordsError.TheVariants.{NoMemory};

    ghost from_gives = { λ _ e. e ≡ NoMemory };

    fn from(_: AllocError) -> WordsError {
        WordsError::NoMemory
    }
}
