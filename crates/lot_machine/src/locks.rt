//! The locks of a machine.
ghost use Rattle.std.specs.Prelude.{◌≡◌, IfOk, map};
ghost use Rattle.lot_machine.specs.Machine.{unlocked, first_word};
ghost use Rattle.spec_locks.specs.Codes.{fills};
ghost use Rattle.spec_locks.specs.Purposes.{rules_of};

use lot_steps::{Kind, Owners};
use std::alloc::{AllocError, Global};

/// The number that a reader adds to the word of a reader-writer lock.
const READER: u64 = 16;

/// A lock of the world.
///
/// The mutex that a condition variable shows, and the permits that are left of a semaphore, are
/// what the word says.
#[derive(Clone, Copy, PartialEq, Eq)]
pub struct Lock {
    pub kind: Kind,
    pub word: u64,
    pub owners: Owners,
    /// Whether as many readers as the limit allows were there once.
    pub filled: bool,
}

impl Lock {
    /// Nobody owns it, and of a semaphore all permits are free.
    pub fn unlocked(kind: Kind) -> Lock
        ensures { result ≡ unlocked kind }
    {
        Lock {
            kind,
            word: first_word(kind),
            owners: Owners::NOBODY,
            filled: false,
        }
    }
}

/// Returns the word of a new lock: 0, or 2 for each permit of a semaphore.
fn first_word(kind: Kind) -> u64
    ensures { result ≡ first_word kind }
{
    match kind {
        Kind::Mutex | Kind::Fair => 0,
        Kind::RwLock { .. } | Kind::Recursive { .. } => 0,
        Kind::Condvar | Kind::Once => 0,
        Kind::Semaphore { permits } => permits.wrapping_mul(2),
    }
}

/// Returns whether the word of a lock has as many readers as its limit allows.
pub(crate) fn is_full(kind: Kind, word: u64) -> bool
    ensures { result ≡ fills (rules_of kind) word }
{
    match kind {
        Kind::RwLock { limit } | Kind::Recursive { limit } => limit <= word / READER,
        Kind::Mutex | Kind::Fair | Kind::Condvar | Kind::Once | Kind::Semaphore { .. } => false,
    }
}

/// Locks of these kinds that nobody owns.
pub(crate) fn unlocked_locks(alloc: Global, kinds: &[Kind]) -> Result<Vec<Lock>, AllocError>
    ensures { IfOk result (λ locks. locks.items ≡ map unlocked kinds.now) }
{
    kinds
        .iter()
        .map(|kind| Lock::unlocked(*kind))
        .collect(alloc)
}
