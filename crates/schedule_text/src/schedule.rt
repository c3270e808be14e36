// A schedule that was read.

ghost use Rattle.std.specs.Prelude.{◌≡◌};

use crate::token::Token;
use jm_base::NoMemory;
use std::marker::Model;
use thiserror::Error;

/// Whose turn it is, turn after turn.
#[derive(Drop)]
pub struct Schedule {
    pub(crate) tokens: Vec<Token>,
}

impl Model for Schedule {
    ghost use Rattle.std.specs.Prelude.{List};
    ghost use Rattle.schedule_text.specs.declared.token.Token.{Token};

    ghost Value = { List Token };

    ghost view = { λ s. s.tokens.items };
}

impl Schedule {
    /// The tokens, from the first.
    pub fn tokens(&self) -> &[Token]
        ensures { result.now ≡ self.now }
    {
        &self.tokens
    }
}

/// Why a text is no schedule.
#[derive(Clone, Copy, PartialEq, Eq, Debug, Error)]
pub enum ScheduleError {
    /// The byte at this place, counted from 0, can't stand there. The place is the text's length where the text ends too early.
    #[error("bad schedule at byte {at}")]
    BadSchedule { at: u32 },
    /// Out of memory.
    #[error("out of memory")]
    NoMemory,
}

impl From<NoMemory> for ScheduleError {
    ghost use Rattle.std.specs.Prelude.{◌≡◌};
    ghost use Rattle.schedule_text.specs.declared.schedule.ScheduleError.TheVariants.{NoMemory};

    ghost from_gives = { λ _ e. e ≡ NoMemory };

    fn from(_: NoMemory) -> ScheduleError {
        ScheduleError::NoMemory
    }
}
