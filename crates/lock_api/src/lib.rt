//! Mutexes that keep a value, over any raw mutex, and condition variables beside them. A reentrant
//! mutex keeps one too.
#![tactic(auto)]

pub mod condvar;
pub mod guarded;
pub mod guards;
pub mod mapped;
pub mod mutex;
pub mod reaches;
pub mod reentrant;
pub mod showing;
pub mod shows;
pub mod taken;
mod values;
pub mod waits;

pub use condvar::Condvar;
pub use guards::MutexGuard;
pub use lock_raw::{
    GetThreadId, RawCondvar, RawCondvarTimed, RawMutex, RawMutexCounted, RawMutexFair,
    RawMutexTimed, advance_count,
};
pub use lock_values::{LockName, Mapped, Project, Shown, Then, ThenError};
pub use mapped::MappedMutexGuard;
pub use mutex::Mutex;
pub use reentrant::{MappedReentrantMutexGuard, ReentrantMutex, ReentrantMutexGuard};
pub use waits::WaitTimeoutResult;
