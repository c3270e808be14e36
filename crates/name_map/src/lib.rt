//! A map from names to texts, each found by its hash.
#![tactic(auto)]

mod map;
mod text;

pub use map::NameMap;
pub use text::write_over;
