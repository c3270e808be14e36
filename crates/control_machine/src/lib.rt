//! The machine of a thread's plan: it goes from one move to the next, through the thread's rounds and their open elements.
#![tactic(auto)]

mod machine;
mod moves;
mod position;
mod stack;
mod turns;

pub use jm_meaning::Tally;
pub use machine::Machine;
pub use moves::{Leave, Move};
