//! Rows of counters, and the report of an interval.
#![tactic(auto)]

pub mod report;
pub mod row;

pub use report::{Report, Rows};
pub use row::{NO_SAMPLES, Row};
