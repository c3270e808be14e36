//! The shape of a plan: a JSON text read as a tree of elements, or the first refusal.
#![tactic(auto)]

mod error;
mod path;
mod raw;
mod read;

pub use error::TreeError;
pub use path::Path;
pub use raw::RawElement;
pub use read::read_tree;
