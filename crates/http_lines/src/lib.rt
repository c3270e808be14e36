//! What the text of HTTP requests and of responses has in common (RFC 9112): where a head ends, what its fields say of the length of the
//! body, and lines that are written.
#![tactic(auto)]

mod fields;
mod scan;
mod writing;

pub use fields::{length_of, length_value};
pub use scan::{HEAD, Line, Scan, TRAILER, after_byte};
pub use writing::{add, add_decimal};
