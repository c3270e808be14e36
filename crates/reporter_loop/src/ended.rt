// How many workers have ended.

use std::sync::atomic::{AtomicU64, Ordering};

/// How many of a run's workers have ended. It tells the reporter when to end, and no contract says more of it.
#[derive(Drop)]
pub struct Ended {
    count: AtomicU64,
    workers: u16,
}

impl Ended {
    /// None of this many workers has ended yet.
    pub fn new(workers: u16) -> Ended {
        Ended {
            count: AtomicU64::new(0),
            workers,
        }
    }

    /// One more worker has ended.
    pub fn one_more(&self) {
        self.count.fetch_add(1, Ordering::SeqCst);
    }

    /// Whether all of them have.
    pub fn all(&self) -> bool {
        self.count.load(Ordering::SeqCst) >= u64::from(self.workers)
    }
}
