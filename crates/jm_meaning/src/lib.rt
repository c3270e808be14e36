//! The meaning of a plan, which the contracts of the layers above cite, and what several of them do for a thread: its ramp-up
//! pause, its first variables, the places of its Interleave Controllers, and what a transaction counts.
#![tactic(auto)]

mod beginning;
mod item;
mod places;
mod ramp_up;
mod signal;
mod transaction;

pub use beginning::{first_user, set_first};
pub use item::Item;
pub use places::Places;
pub use ramp_up::ramp_up_pause;
pub use signal::{Signal, after_sample, signal_of};
pub use transaction::{Tally, gives_sample};
