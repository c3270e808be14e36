// What a step of a thread has done.

use jm_base::{End, Entry};

/// What a step has done, and what its caller owes the worker now.
#[derive(Clone, Copy)]
pub enum Step {
    /// A sample was made. The caller owes `Worker::noted`.
    Sampled(Entry),
    /// A sampler gave no sample.
    Null,
    /// The section of this lock is to be entered. The caller owes `Worker::entered`.
    Enter(u16),
    /// The section of this lock was left: the trace says so, and the caller leaves it.
    Leave(u16),
    /// The thread has ended.
    Ended(End),
}
