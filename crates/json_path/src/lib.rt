//! JSON paths of the JSON Extractor: how a path is read, and which values of a JSON value it reaches.
#![tactic(auto)]

mod parse;
mod path;
mod selection;

pub use parse::parse_path;
pub use path::{JsonPath, PathError, Step};
pub use selection::select;
