//! Conditions of If and While Controllers and of `__jexl3`: how a text is read, and what it is worth.
#![tactic(auto)]

mod cond;
mod evaluation;
mod parse;
mod token;
mod value;

pub use cond::Cond;
pub use evaluation::eval;
pub use parse::parse_cond;
pub use value::{CondError, CondValue, Operator};
