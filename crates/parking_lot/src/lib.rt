//! Locks for real threads. Each call runs the steps that the simulated world runs.
#![tactic(auto)]

pub use core_base::{ListQueues, LockPicker, Pick, Picker, Queues, Waiter};
pub use core_queues::BucketQueues;
pub use lock_api;
pub use lock_api::{GetThreadId, WaitTimeoutResult, advance_count};
pub use lock_api_rw;
pub use lock_monitor::Team;
pub use lock_values::{LockName, Mapped, Project, Shown, Then, ThenError};
pub use lot_world;
pub use parking_lot_core::{
    Clock, Did, Director, Fault, Key, Keys, Note, Op, ParkingLot, QueuePlace, Requeue, Right,
    Section, SectionRecord, Slept, SystemClock, TickClock, Ticket, Token, TurnClock, WakeNote,
    Want, Word, WordKind, WrongToken, to_deadline,
};
pub use raw_mutexes::{
    OpenGuard, RawCondvar, RawFairMutex, RawGuard, RawMutex, RawShare, RawThreadId,
};
pub use raw_rwlocks::{
    RawExclusiveGuard, RawRwLock, RawRwLockRecursive, RawSharedGuard, RawUpgradableGuard,
};
pub use run_once_and_semaphores::{
    Once, OnceCell, OnceFault, OnceShown, OnceState, Permit, Semaphore,
};
pub use spec_locks::{
    Access, Answer, Call, CondvarCall, Downgrade, Kind, MutexCall, OnceCall, Patience, RwLockCall,
    SemaphoreCall,
};
pub use steps_condvar::{CondvarPlace, NotifyAt, WaitAt, WaiterFate};
pub use steps_once::{LookAt, OncePlace, RunAt};
pub use steps_rwlock::{Admission, RwLockAt, RwLockPlace, RwLockPurpose};
pub use steps_rwlock_fair::{HandOverAt, HandedAt, RwLockCallPlace, Taken};
pub use steps_semaphore::{AcquireAt, ReleaseAt, SemaphorePlace, TryAt};

/// A mutex of a lot, with its value.
pub type Mutex<T> = lock_api::Mutex<RawMutex, T>;

/// The guard of a [`Mutex`]. It shows the value, and is spent by `unlock`, or by `unlock_fair`.
pub type MutexGuard<'a, T> = lock_api::MutexGuard<'a, RawMutex, T>;

/// Guards the part of a [`Mutex`]'s value that a projection finds.
pub type MappedMutexGuard<'a, T, P> = lock_api::MappedMutexGuard<'a, RawMutex, T, P>;

/// A mutex of a lot, with its value, whose guard hands it to the first that waits.
pub type FairMutex<T> = lock_api::Mutex<RawFairMutex, T>;

/// The guard of a [`FairMutex`].
pub type FairMutexGuard<'a, T> = lock_api::MutexGuard<'a, RawFairMutex, T>;

/// Guards the part of a [`FairMutex`]'s value that a projection finds.
pub type MappedFairMutexGuard<'a, T, P> = lock_api::MappedMutexGuard<'a, RawFairMutex, T, P>;

/// A mutex of a lot that its owner may lock again, with a value that is only read.
pub type ReentrantMutex<T> = lock_api::ReentrantMutex<RawMutex, RawThreadId, T>;

/// The guard of a [`ReentrantMutex`], of which its owner may have several.
pub type ReentrantMutexGuard<'a, T> = lock_api::ReentrantMutexGuard<'a, RawMutex, RawThreadId, T>;

/// Guards the part of a [`ReentrantMutex`]'s value that a projection finds, to read it.
pub type MappedReentrantMutexGuard<'a, T, P> = lock_api::MappedReentrantMutexGuard<
    'a,
    RawMutex,
    RawThreadId,
    T,
    P,
>;

/// Where a thread that has the guard of a [`Mutex`] gives it up and waits to be notified.
///
/// Nobody wakes by itself. `notify_one` returns whether it notified a waiter, and `notify_all` how
/// many it notified.
pub type Condvar = lock_api::Condvar<RawCondvar>;

/// A value of a lot that one thread at a time may use, and `N` condition variables on which threads
/// wait for a change of it.
pub type Monitor<T, const N: usize> = lock_monitor::Monitor<RawCondvar, T, N>;

/// A value of a lot that many threads may read, or one may write. A writer that waits keeps further
/// readers out.
pub type RwLock<T> = lock_api_rw::RwLock<RawRwLock<false>, T>;

/// The guard of a thread that reads.
pub type RwLockReadGuard<'a, T> = lock_api_rw::RwLockReadGuard<'a, RawRwLock<false>, T>;

/// The guard of a thread that reads, and may write later.
pub type RwLockUpgradableReadGuard<'a, T> = lock_api_rw::RwLockUpgradableReadGuard<
    'a,
    RawRwLock<false>,
    T,
>;

/// The guard of a thread that writes.
pub type RwLockWriteGuard<'a, T> = lock_api_rw::RwLockWriteGuard<'a, RawRwLock<false>, T>;

/// Guards the part of an [`RwLock`]'s value that a projection finds, to read it.
pub type MappedRwLockReadGuard<'a, T, P> = lock_api_rw::MappedRwLockReadGuard<
    'a,
    RawRwLock<false>,
    T,
    P,
>;

/// Guards the part of an [`RwLock`]'s value that a projection finds, to write it.
pub type MappedRwLockWriteGuard<'a, T, P> = lock_api_rw::MappedRwLockWriteGuard<
    'a,
    RawRwLock<false>,
    T,
    P,
>;

/// A reader-writer lock that any thread may read while somebody reads, though a writer waits: a
/// reader may read again, and a writer may wait for ever.
pub type RecursiveRwLock<T> = lock_api_rw::RwLock<RawRwLockRecursive, T>;

/// The guard of a thread that reads.
pub type RecursiveRwLockReadGuard<'a, T> = lock_api_rw::RwLockReadGuard<'a, RawRwLockRecursive, T>;

/// The guard of a thread that reads, and may write later.
pub type RecursiveRwLockUpgradableReadGuard<'a, T> = lock_api_rw::RwLockUpgradableReadGuard<
    'a,
    RawRwLockRecursive,
    T,
>;

/// The guard of a thread that writes.
pub type RecursiveRwLockWriteGuard<'a, T> = lock_api_rw::RwLockWriteGuard<
    'a,
    RawRwLockRecursive,
    T,
>;

/// Guards the part of a [`RecursiveRwLock`]'s value that a projection finds, to read it.
pub type MappedRecursiveRwLockReadGuard<'a, T, P> = lock_api_rw::MappedRwLockReadGuard<
    'a,
    RawRwLockRecursive,
    T,
    P,
>;

/// Guards the part of a [`RecursiveRwLock`]'s value that a projection finds, to write it.
pub type MappedRecursiveRwLockWriteGuard<'a, T, P> = lock_api_rw::MappedRwLockWriteGuard<
    'a,
    RawRwLockRecursive,
    T,
    P,
>;
