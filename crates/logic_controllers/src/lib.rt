//! The cursors of the controllers that run their children in order: Simple, Once Only, Loop, If, While and ForEach.
//!
//! A cursor stands for one controller of a plan. `enter` begins a pass; after it each `next` says what the controller
//! does next: it runs a child, begins a new round, or is over.
#![tactic(auto)]

mod each_cursor;
mod if_cursor;
mod kept_value;
mod loop_cursor;
mod once_cursor;
mod rounds;
mod simple_cursor;
mod while_cursor;

pub use cursor_steps::Pass;
pub use each_cursor::{EachCursor, Span, value_at};
pub use if_cursor::{IfCursor, is_true};
pub use kept_value::KeptValue;
pub use loop_cursor::{LoopCursor, loops_of, round_begins};
pub use once_cursor::OnceCursor;
pub use rounds::{Rounds, set_index};
pub use simple_cursor::SimpleCursor;
pub use while_cursor::{WhileCursor, goes_on, last_ok};
