//! Which elements apply to a sampler, and in which order they act (the manual's "Scoping Rules" and "Execution order").
#![tactic(auto)]

mod levels;
mod scope;

pub use levels::line_to;
pub use scope::package;
