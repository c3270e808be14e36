//! The run of a plan's threads at the same time: each worker records its samples and keeps its trace, while the reporter
//! closes intervals and prints their reports.
#![tactic(auto)]

mod ask;
mod beside;
mod books;
mod finish;
mod job;
mod joins;
mod opens;
mod run;
mod samples;
mod seats;
mod team;

pub use ask::RunAsk;
pub use books::RunBooks;
pub use job::Job;
pub use reporter_loop::RunError;
pub use run::run_threads;
