//! A plan of a given size, the same each time: one group of loops, each over one sampler.
#![tactic(auto)]

mod elements;
mod laws;
mod making;
mod values;

pub use laws::small_plan;
pub use making::{SIZE_LIMIT, make_plan};
