//! What is asked of each closed report, and how an interval is closed while others record.
#![tactic(auto)]

mod closing;
pub mod hook;
mod verdict;

pub use closing::close_interval;
pub use hook::{Reporter, stops_past};
pub use verdict::Verdict;
