//! Extractors: what a regular expression, a JSON path or two boundaries take from a reply into a thread's variables (the
//! manual's "Regular Expression Extractor", "JSON Extractor" and "Boundary Extractor").
//!
//! What each makes of the variables is a list of changes, a function of the list of all its matches; the changes are made
//! one after another, up to the first that would pass a limit.
#![tactic(auto)]

mod all;
mod extract;
mod matches;
mod names;
mod removed;
mod set;
mod taking;
mod templates;
mod which;

pub use extract::{extract_bounds, extract_json, extract_regex, extract_regex_with};
