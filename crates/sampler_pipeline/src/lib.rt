//! The sampler pipeline: what one sampler does with the elements that apply to it, in the order of the manual's "Execution
//! order".
#![tactic(auto)]

mod exchange;
mod pipeline;
mod post;
mod pre;
mod run;
mod verdict;

pub use pipeline::Pipeline;
pub use run::{Done, run_one};
