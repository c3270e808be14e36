// What the core answers.

/// What became of an event.
#[derive(Clone, Copy, PartialEq, Eq, Debug)]
pub enum Applied {
    /// The step was done, and found this number in its word.
    Old(u64),
    /// A look found what the reporter waits for.
    Settled,
    /// A look found another number than the reporter waits for.
    NotYet { seen: u64, want: u64 },
    /// The actor's stage does not enable the event: nothing was done.
    NotEnabled,
}
