//! The reader-writer lock, without a value.
//!
//! `RawRwLock` wraps `LotRwLock`, which has the facts: a type with a const parameter may have no model
//! and no ghost field. Its traits are met by `RawRwLock<false>` and by `RawRwLock<true>`, each in files
//! of its own, since the bound of an impl over a parameter is written out anew at each call.
ghost use Rattle.std.specs.Prelude.{◌≡◌, ◌+◌, ◌*◌};

use crate::rwlock_rights::LotRwLock;
use parking_lot_core::Key;

/// The number of threads that may share a lock for which nothing else is chosen.
pub(crate) const MOST_READERS: u64 = 1152921504606846974;

/// A reader-writer lock of a lot. Where it is recursive, a thread that reads may read again beside
/// a writer that waits for the last readers.
#[derive(Drop)]
pub struct RawRwLock<const RECURSIVE: bool> {
    pub(crate) lock: LotRwLock,
}

/// A lock whose readers may read again beside a writer that waits for them.
pub type RawRwLockRecursive = RawRwLock<true>;

impl<const RECURSIVE: bool> RawRwLock<RECURSIVE> {
    ghost use Rattle.raw_rwlocks.specs.RwLockUsers.{word_of};

    /// Returns the key of its main queue.
    pub fn key(&self) -> Key
        ensures { result ≡ 2 * (word_of self.now).number }
    {
        self.lock.key()
    }

    /// Returns the key of the queue of the writer that waits for the last readers.
    pub fn second_key(&self) -> Key
        ensures { result ≡ 2 * (word_of self.now).number + 1 }
    {
        self.lock.second_key()
    }
}
