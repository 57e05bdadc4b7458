//! Why a call was refused.

ghost use Rattle.std.specs.Prelude.{◌≡◌};
ghost use Rattle.core_base.specs.declared.faults.Fault.TheVariants.{NoMemory};

use std::alloc::{AllocError, AllocFailed};
use thiserror::Error;

/// Why a call was refused.
#[derive(Clone, Copy, Debug, PartialEq, Eq, Error)]
pub enum Fault {
    /// Fewer words are left in the lot than a constructor needs.
    #[error("no word left in the lot")]
    LotFull,
    /// Memory was refused.
    #[error("no memory")]
    NoMemory,
    /// The reader count of a reader-writer lock is at its limit.
    #[error("RwLock reader count overflow")]
    ReadersFull,
    /// An earlier run of a `Once` failed.
    #[error("Once instance has previously been poisoned")]
    Poisoned,
    /// A condition variable is in use with another mutex.
    #[error("attempted to use a condition variable with more than one mutex")]
    TwoMutexes,
    /// A reentrant mutex is locked as often as its count can tell.
    #[error("ReentrantMutex lock count overflow")]
    LockCountFull,
    /// A lot can't have so many words, or so many threads.
    #[error("a lot has 1 to 1048576 words and 1 to 1024 threads")]
    SizesOutOfRange,
}

impl<T: Drop> From<(Fault, T)> for Fault {
    ghost from_gives = { λ refused fault. fault ≡ refused.0 };

    /// Lets the value go that was given back.
    fn from(refused: (Fault, T)) -> Fault {
        refused.0
    }
}

impl From<AllocError> for Fault {
    ghost from_gives = { λ _ fault. fault ≡ NoMemory };

    fn from(_refused: AllocError) -> Fault {
        Fault::NoMemory
    }
}

impl<T: Drop> From<AllocFailed<T>> for Fault {
    ghost from_gives = { λ _ fault. fault ≡ NoMemory };

    fn from(_refused: AllocFailed<T>) -> Fault {
        Fault::NoMemory
    }
}
