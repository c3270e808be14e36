//! The recorder: writers record entries in at most nine atomic steps and wait for nobody; the reporter closes intervals.
#![tactic(auto)]

mod places;
mod recorder;
mod rows;

pub use phaser_words::Steps;
pub use places::{Books, Closing, Recorder, ReporterSeat, WriterSeat};
pub use recorder::Poll;
