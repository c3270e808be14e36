//! The words of the command line, as a value: which command, and its options.
#![tactic(auto)]

mod command;
mod error;
mod parser;
mod reading;
mod value;

pub use command::{Command, Make, Run, Solo, Weave};
pub use error::WordsError;
pub use reading::{names_run, read_words};
