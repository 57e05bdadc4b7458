//! The names of guards. Each function has the type that a lock's call gives, and its name of this
//! library: another name wouldn't compile.
use super::parts::{Point, TheX};
use parking_lot::{
    FairMutexGuard, MappedFairMutexGuard, MappedMutexGuard, MappedRecursiveRwLockReadGuard,
    MappedRecursiveRwLockWriteGuard, MappedReentrantMutexGuard, MappedRwLockReadGuard,
    MappedRwLockWriteGuard, MutexGuard, RawFairMutex, RawMutex, RawRwLock, RawRwLockRecursive,
    RawThreadId, RecursiveRwLockReadGuard, RecursiveRwLockUpgradableReadGuard,
    RecursiveRwLockWriteGuard, ReentrantMutexGuard, RwLockReadGuard, RwLockUpgradableReadGuard,
    RwLockWriteGuard, lock_api, lock_api_rw,
};

type Barging = RawRwLock<false>;

type Recursive = RawRwLockRecursive;

fn mutex(guard: lock_api::MutexGuard<'_, RawMutex, Point>) -> MutexGuard<'_, Point> {
    guard
}

fn fair_mutex(guard: lock_api::MutexGuard<'_, RawFairMutex, Point>) -> FairMutexGuard<'_, Point> {
    guard
}

fn reentrant(
    guard: lock_api::ReentrantMutexGuard<'_, RawMutex, RawThreadId, Point>,
) -> ReentrantMutexGuard<'_, Point> {
    guard
}

fn mapped_mutex(
    guard: lock_api::MappedMutexGuard<'_, RawMutex, Point, TheX>,
) -> MappedMutexGuard<'_, Point, TheX> {
    guard
}

fn mapped_fair_mutex(
    guard: lock_api::MappedMutexGuard<'_, RawFairMutex, Point, TheX>,
) -> MappedFairMutexGuard<'_, Point, TheX> {
    guard
}

fn mapped_reentrant(
    guard: lock_api::MappedReentrantMutexGuard<'_, RawMutex, RawThreadId, Point, TheX>,
) -> MappedReentrantMutexGuard<'_, Point, TheX> {
    guard
}

fn reads(guard: lock_api_rw::RwLockReadGuard<'_, Barging, Point>) -> RwLockReadGuard<'_, Point> {
    guard
}

fn may_write_later(
    guard: lock_api_rw::RwLockUpgradableReadGuard<'_, Barging, Point>,
) -> RwLockUpgradableReadGuard<'_, Point> {
    guard
}

fn writes(guard: lock_api_rw::RwLockWriteGuard<'_, Barging, Point>) -> RwLockWriteGuard<'_, Point> {
    guard
}

fn mapped_reads(
    guard: lock_api_rw::MappedRwLockReadGuard<'_, Barging, Point, TheX>,
) -> MappedRwLockReadGuard<'_, Point, TheX> {
    guard
}

fn mapped_writes(
    guard: lock_api_rw::MappedRwLockWriteGuard<'_, Barging, Point, TheX>,
) -> MappedRwLockWriteGuard<'_, Point, TheX> {
    guard
}

fn reads_again(
    guard: lock_api_rw::RwLockReadGuard<'_, Recursive, Point>,
) -> RecursiveRwLockReadGuard<'_, Point> {
    guard
}

fn recursive_may_write_later(
    guard: lock_api_rw::RwLockUpgradableReadGuard<'_, Recursive, Point>,
) -> RecursiveRwLockUpgradableReadGuard<'_, Point> {
    guard
}

fn recursive_writes(
    guard: lock_api_rw::RwLockWriteGuard<'_, Recursive, Point>,
) -> RecursiveRwLockWriteGuard<'_, Point> {
    guard
}

fn mapped_recursive_reads(
    guard: lock_api_rw::MappedRwLockReadGuard<'_, Recursive, Point, TheX>,
) -> MappedRecursiveRwLockReadGuard<'_, Point, TheX> {
    guard
}

fn mapped_recursive_writes(
    guard: lock_api_rw::MappedRwLockWriteGuard<'_, Recursive, Point, TheX>,
) -> MappedRecursiveRwLockWriteGuard<'_, Point, TheX> {
    guard
}
