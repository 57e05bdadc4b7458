//! Reader-writer locks that keep a value, over any raw lock.
#![tactic(auto)]

mod fair;
pub mod guards;
pub mod held;
pub mod mapped;
pub mod reaches;
pub mod rights;
pub mod rwlock;
pub mod showing;
pub mod shows;
mod timed;
mod visits;

pub use guards::{RwLockReadGuard, RwLockUpgradableReadGuard, RwLockWriteGuard};
pub use lock_raw::{
    RawRwLock, RawRwLockDowngrade, RawRwLockFair, RawRwLockHalves, RawRwLockTimed,
    RawRwLockUpgrade, RawRwLockUpgradeDowngrade, RawRwLockUpgradeFair, RawRwLockUpgradeTimed,
};
pub use mapped::{MappedRwLockReadGuard, MappedRwLockWriteGuard};
pub use rwlock::RwLock;
