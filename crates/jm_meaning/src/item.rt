// What a trace shows of a thread, whatever the intervals and places of its samples and sections.

use jm_base::{End, Sample};

/// One item of a bare trace: a trace without interval numbers and places.
#[derive(Drop)]
pub enum Item {
    /// A pause of that many milliseconds.
    Paused(u32),
    /// A sample of a sampler or a transaction.
    Sampled(Sample),
    /// The sampler of this number gave no sample.
    Null(u16),
    /// The section of this lock was entered.
    Entered(u16),
    /// The section of this lock was left.
    Left(u16),
    /// The thread ended.
    Ended(End),
}
