//! An open element of a plan: its cursor, of any kind, what it answers when its turn comes, and how it is entered.
#![tactic(auto)]

mod cursor;
mod entering;
mod opens;
mod section;
mod transaction;

pub use cursor::Cursor;
pub use entering::{Entered, enter};
pub use section::OpenSection;
pub use transaction::OpenTransaction;
