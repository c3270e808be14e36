//! The typed plan: its elements by number, in tree order.
#![tactic(auto)]

mod again;
mod kinds;
mod make;
mod names;
mod package;
mod plan;
mod table;
mod threads;
mod tree_walk;
mod types;
mod values;
mod write;

pub use again::written_is_built_again;
pub use element_props::{
    BuildError, MakeError, Pair, Pattern, PatternFault, Patterns, RegexPatterns, What,
};
pub use kinds::{
    Assertion, AtEnd, BoundaryExtractor, Comparison, Element, Field, JsonExtractor, Kind, Loops,
    OnError, RegexExtractor, Share, TestKind,
};
pub use package::{Package, Turn};
pub use plan::Plan;
pub use threads::Thread;
pub use tree_walk::build;
pub use types::{Class, ElementType};
pub use write::write_plan;
