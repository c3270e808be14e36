//! The program `jm` as a call: what its words ask for, done over a source, two sinks and a maker of patterns.
#![tactic(auto)]

mod judge;
mod line;
mod places;
mod plan;
mod print;
mod program;
mod refusal;
mod report;
mod running;
mod status;
mod weaving;
mod words;

pub use program::plain_command;
pub use running::start;
pub use status::Status;
