//! One thread of a plan: a worker that takes it from its start to its end a step at a time, and its trace.
#![tactic(auto)]

mod runner;
mod solo;
mod step;
mod trace;
mod worker;

pub use solo::{FinishedThread, run_alone};
pub use step::Step;
pub use trace::TraceItem;
pub use worker::{Worker, a_trace_is_a_prefix};
