//! How threads share operations: each takes a batch whenever it has done its last.
//!
//! Operations are shared out by batches of 128 from one counter, in every mode, so that a thread that
//! gets the lock more often does more of them. In the try modes an operation is tries until one gets
//! the lock: with a fixed number of tries a lock whose tries fail more often would look faster.
ghost use Rattle.std.specs.Prelude.{◌≤◌};

use std::sync::atomic::AtomicU64;
use std::sync::atomic::Ordering::SeqCst;

/// The operations of a batch. So few that a thread which gets the lock more often does more of
/// them, and so many that taking a batch costs little beside them.
pub(crate) const BATCH: u64 = 128;

/// Operations, of which some have been taken.
#[derive(Drop)]
pub(crate) struct Shares {
    operations: u64,
    taken: AtomicU64,
}

impl Shares {
    pub(crate) fn new(operations: u64) -> Shares {
        Shares {
            operations,
            taken: AtomicU64::new(0),
        }
    }

    /// Returns how many operations the caller is to do. 0 where none is left.
    pub(crate) fn take(&self) -> u64
        ensures { result ≤ BATCH }
    {
        let before = self.taken.fetch_add(BATCH, SeqCst);
        self.operations.saturating_sub(before).min(BATCH)
    }
}
