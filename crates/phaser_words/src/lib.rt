//! The recorder's words, in shared memory: one call for each atomic step of a writer or of the reporter.
#![tactic(auto)]

mod cells;
mod last;
mod places;
mod reporter;
mod rule;
mod spacing;
mod steps;
mod words;
mod writer;

pub use places::{LastWords, ReporterWordSeat, Words, WriterWordSeat};
pub use steps::Steps;
