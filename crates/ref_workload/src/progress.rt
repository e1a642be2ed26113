//! How far a run is.
use std::sync::atomic::{AtomicU64, Ordering};

/// How far a run is, for a thread that looks on while others run it: counts that only grow. Each is right by itself; two that are
/// read one after the other may be of different moments.
#[derive(Drop)]
pub struct Progress {
    steps: AtomicU64,
    ended: AtomicU64,
    refused: AtomicU64,
    commits: AtomicU64,
}

impl Progress {
    /// Of a run that hasn't begun.
    pub fn new() -> Progress {
        Progress {
            steps: AtomicU64::new(0),
            ended: AtomicU64::new(0),
            refused: AtomicU64::new(0),
            commits: AtomicU64::new(0),
        }
    }

    /// How many steps the plan has; 0 until it is run.
    pub fn steps(&self) -> u64 {
        self.steps.load(Ordering::Relaxed)
    }

    /// How many of them have ended, the refused ones with the others.
    pub fn ended(&self) -> u64 {
        self.ended.load(Ordering::Relaxed)
    }

    /// How many of them were refused.
    pub fn refused(&self) -> u64 {
        self.refused.load(Ordering::Relaxed)
    }

    /// How many transactions were committed.
    pub fn commits(&self) -> u64 {
        self.commits.load(Ordering::Relaxed)
    }

    // A plan of so many steps is run.
    pub(crate) fn begin(&self, steps: u64) {
        self.steps.store(steps, Ordering::Relaxed);
    }

    // A step has ended.
    pub(crate) fn end_step(&self, is_transaction: bool, is_refused: bool) {
        self.ended.fetch_add(1, Ordering::Relaxed);
        if is_refused {
            self.refused.fetch_add(1, Ordering::Relaxed);
        } else if is_transaction {
            self.commits.fetch_add(1, Ordering::Relaxed);
        }
    }
}
