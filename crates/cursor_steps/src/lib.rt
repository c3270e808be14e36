//! What the cursors of controllers share: the trait of a cursor, the children that a controller runs, a pass over them,
//! and what a call of a cursor comes to over any outside.
//!
//! A pass counts the children that are run. What a call comes to is a definition alone (`specs/CursorStep.antt`), which the
//! contracts of the cursors cite.
#![tactic(auto)]

mod controller;
mod numeral;
mod pass;

pub use controller::Controller;
pub use numeral::decimal_number;
pub use pass::{Pass, is_run_at, run_count};
