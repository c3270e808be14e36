//! What is seen of a reply, and where regular expressions and plain texts are found in it.
#![tactic(auto)]

mod found;
mod search;
mod searches;
mod seen;

pub use found::{groups_of, place_in};
pub use searches::{NextMatch, Searches};
pub use seen::{field_of, text_in};
