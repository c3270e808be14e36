// The commands of the program.

use schedule_text::Schedule;
use var_functions::Props;

/// What a command line asks for.
#[derive(Drop)]
pub enum Command {
    /// `check`: read a plan and write it out whole.
    Check,
    /// `make`: run a plan that is made for a size.
    Make(Make),
    /// `solo`: run one thread of a plan over the plan's own replies.
    Solo(Solo),
    /// `weave`: run all threads of a plan over the plan's own replies, in the order that a schedule says.
    Weave(Weave),
    /// `run`: run all threads of a plan.
    Run(Run),
}

/// The option of `make`.
#[derive(Drop)]
pub struct Make {
    /// `--size`, how many loops the plan has that is made: 1 to 2,047.
    pub size: u16,
}

/// The options of `solo`.
#[derive(Drop)]
pub struct Solo {
    /// `--seed`, of the random words. Each number of 64 bits is one.
    pub seed: u64,
    /// `--props`, which `__P` reads.
    pub props: Props,
    /// `--samples`, the most that the thread may take: 1 to 262,144.
    pub samples: u32,
    /// `--thread`, which one is run, counted from 0 over all groups: at most 63.
    pub thread: u16,
}

/// The options of `weave`.
#[derive(Drop)]
pub struct Weave {
    /// `--seed`, of the random words. Each number of 64 bits is one.
    pub seed: u64,
    /// `--props`, which `__P` reads.
    pub props: Props,
    /// `--samples`, the most that each thread may take: 1 to 262,144.
    pub samples: u32,
    /// `--schedule`, whose turn it is, turn after turn. Where it is not given there are no tokens.
    pub schedule: Schedule,
}

/// The options of `run`.
#[derive(Drop)]
pub struct Run {
    /// `--seed`, of the random words. Each number of 64 bits is one.
    pub seed: u64,
    /// `--props`, which `__P` reads.
    pub props: Props,
    /// `--samples`, the most that each thread may take: 1 to 262,144.
    pub samples: u32,
    /// `--every`, how long an interval lasts: 1 to 3,600,000 milliseconds.
    pub every: u32,
    /// `--limit`, how many errors an interval may have: one with more stops the run. Each number of 64 bits is one.
    pub limit: u64,
}
