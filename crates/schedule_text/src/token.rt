// The tokens of a schedule.

/// Whose turn it is.
#[derive(Clone, Copy, PartialEq, Eq, Debug)]
pub enum Token {
    /// `D`: one turn of the thread of this number, 0 to 99.
    Turn(u8),
    /// `Dx`: turns of this thread, at least one, until it owes nothing or finds a section busy.
    Turns(u8),
    /// `r`: one turn of the reporter.
    Reporter,
    /// `R`: turns of the reporter, at least one, until it is idle or has to wait.
    Reporters,
}
