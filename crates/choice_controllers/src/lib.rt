//! The cursors of the controllers that choose among their children: Interleave, Random, Random Order and Switch.
//!
//! A cursor stands for one controller of a plan in one thread. `enter` begins a pass, and chooses what it runs; after it
//! each `next` says what the controller does next: it runs a child, or is over.
#![tactic(auto)]

mod chosen;
mod interleave_cursor;
mod order_cursor;
mod random_cursor;
mod switch_cursor;

pub use interleave_cursor::InterleaveCursor;
pub use order_cursor::{OrderCursor, shuffle};
pub use random_cursor::{RandomCursor, random_place};
pub use switch_cursor::{SwitchCursor, picks};
