// One atomic step on one word.

ghost use Rattle.std.specs.Prelude.{◌≡◌};
ghost use Rattle.phaser_core.specs.Plain.{changed};

/// What an atomic step makes of the number that it finds.
#[derive(Clone, Copy, Debug)]
pub enum Change {
    /// It is loaded, and stays.
    Load,
    /// This is added, and the sum wraps at 2^64.
    Add(u64),
    /// The lesser of the two stays.
    Least(u64),
    /// The greater of the two stays.
    Greatest(u64),
    /// This comes in its place.
    Swap(u64),
}

/// A step: which word, and what becomes of it.
#[derive(Clone, Copy, Debug)]
pub struct Step {
    pub word: u32,
    pub change: Change,
}

impl Change {
    /// What becomes of the number found.
    pub fn of(self, found: u64) -> u64
        ensures { result ≡ changed self found }
    {
        match self {
            Change::Load => found,
            Change::Add(amount) => found.wrapping_add(amount),
            Change::Least(bound) => found.min(bound),
            Change::Greatest(bound) => found.max(bound),
            Change::Swap(number) => number,
        }
    }
}
