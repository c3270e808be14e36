//! Assertions: whether what a sampler was answered is as it should be (the manual's "Response Assertion", "Duration
//! Assertion" and "Size Assertion").
#![tactic(auto)]

mod judging;
mod response;

pub use judging::{Answer, check, check_with};
