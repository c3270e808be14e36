//! What a hook answers.

/// Whether a run goes on after a report.
#[derive(Clone, Copy, PartialEq, Eq, Debug)]
pub enum Verdict {
    /// The run goes on.
    Go,
    /// The threads of the run are to stop.
    Stop,
}
