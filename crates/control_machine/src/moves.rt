// What comes next in a thread's plan.

use jm_base::End;
use jm_meaning::Tally;

/// The next move of a thread.
#[derive(Clone, Copy, Debug)]
pub enum Move {
    /// The round of the thread group of this index, from 0, has begun. Its Counters and data sets are to advance before the
    /// next move is asked for.
    Iteration(u64),
    /// The sampler of this number is run.
    RunSampler(u16),
    /// The section of this lock is entered.
    EnterSection(u16),
    /// The section of this lock is left.
    LeaveSection(u16),
    /// The transaction of this number gives its sample.
    TransactionSample { element: u16, tally: Tally },
    /// The thread's rounds are over, by this end: `Completed`, `StopThread`, `StopTest` or `RoundLimit`.
    Finished(End),
}

/// A way out of all open elements (the manual's "Action to be taken after a Sampler error").
#[derive(Clone, Copy)]
pub enum Leave {
    /// The thread goes on with its next round.
    NextLoop,
    /// The thread ends.
    StopThread,
    /// The thread ends, and the test is to be stopped.
    StopTest,
}
