//! Templates: plain text with `${name}` for a variable's value and `${__function(arguments)}` for a function's.
//! Every text has one reading as a template, and a template that was read is spelled as the text that it came from.
#![tactic(auto)]

mod build;
mod builders;
mod law;
mod scan;
mod template;
mod write;

pub use build::parse_template;
pub use law::one_reading;
pub use template::{Piece, Template};
pub use write::{spell, spell_call, spell_variable};
