//! The text of a schedule: whose turn it is, turn after turn.
#![tactic(auto)]

mod parse;
mod schedule;
mod token;

pub use parse::parse_schedule;
pub use schedule::{Schedule, ScheduleError};
pub use token::Token;
