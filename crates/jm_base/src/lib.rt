//! The types that every layer shares: texts and lists that contracts see as plain lists, samples, replies,
//! how a thread ends, and the outside of a thread.
#![tactic(auto)]

pub mod errors;
pub mod outside;
pub mod text;
pub mod types;

pub use errors::{Failed, M, NoMemory};
pub use outside::{Outside, same_events};
pub use text::{Items, Text};
pub use types::{End, Entry, Heard, Method, Outcome, Reply, Request, Sample, ScriptReply, Wire};
