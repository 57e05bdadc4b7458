//! Reader-writer locks of real threads, without a value. Each call runs the steps that the
//! simulated world runs.
#![tactic(auto)]

mod normal;
mod normal_fair;
mod normal_timed;
mod normal_upgrade;
pub mod raw_rwlock;
mod raw_rwlock_timed;
mod recursive;
mod recursive_fair;
mod recursive_timed;
mod recursive_upgrade;
pub mod rwlock_guards;
pub mod rwlock_rights;

pub use raw_rwlock::{RawRwLock, RawRwLockRecursive};
pub use rwlock_guards::{RawExclusiveGuard, RawSharedGuard, RawUpgradableGuard};
pub use rwlock_rights::LotRwLock;
