//! The variables of a thread, and the limits of their bytes.
#![tactic(auto)]

mod error;
mod table;
mod vars;

pub use error::VarError;
pub use table::{MOST_TEXT, truth_text};
pub use vars::Vars;
