// What is to be run.

use element_tree::Plan;
use var_functions::Props;

/// A plan to run, with the options of its run.
#[derive(Drop)]
pub struct RunAsk<'a> {
    /// The plan, whose threads are run at the same time.
    pub plan: &'a Plan,
    /// The properties, of which each thread takes a copy.
    pub props: &'a Props,
    /// The seed of the random words, of which each thread has a stream of its own.
    pub seed: u64,
    /// How many samples and sections together each thread may make at most.
    pub budget: u32,
    /// A report with more errors than this raises stop. At 2^64 - 1 none does.
    pub limit: u64,
}
