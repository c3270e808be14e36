// Paths and their steps, and why a path is refused.

ghost use Rattle.std.specs.Prelude.{◌≡◌};

use jm_base::{NoMemory, Text};
use std::marker::Model;
use thiserror::Error;

/// One step of a path, from a value to values inside it.
#[derive(Drop)]
pub enum Step {
    /// `.name` or `['name']`: the member of an object with this name.
    Name(Text),
    /// `[n]`: the item of a list at this place, counted from 0.
    Index(u32),
    /// `[*]`: every item of a list, or every value of an object in byte order of keys.
    All,
}

/// A path that was read.
#[derive(Drop)]
pub struct JsonPath {
    steps: Vec<Step>,
}

impl Model for JsonPath {
    ghost use Rattle.std.specs.Prelude.{List};
    ghost use Rattle.json_path.specs.declared.path.Step.{Step};

    ghost Value = { List Step };

    ghost view = { λ p. p.steps.items };
}

impl JsonPath {
    /// A path of these steps.
    pub(crate) fn of(steps: Vec<Step>) -> JsonPath
        ensures { result ≡ steps.items }
    {
        JsonPath { steps }
    }

    /// The steps in order.
    pub fn steps(&self) -> &[Step]
        ensures { result.now ≡ self.now }
    {
        &self.steps
    }
}

/// Why a path is not read.
#[derive(Clone, Copy, PartialEq, Eq, Debug, Error)]
pub enum PathError {
    /// The byte at this place, counted from 0, can't stand there. The place is the text's length where the path is not whole.
    #[error("bad path at byte {at}")]
    BadPath { at: u32 },
    /// Out of memory.
    #[error("out of memory")]
    NoMemory,
}

impl From<NoMemory> for PathError {
    ghost use Rattle.std.specs.Prelude.{◌≡◌};
    ghost use Rattle.json_path.specs.declared.path.PathError.TheVariants.{NoMemory};

    ghost from_gives = { λ _ e. e ≡ NoMemory };

    fn from(_: NoMemory) -> PathError {
        PathError::NoMemory
    }
}
