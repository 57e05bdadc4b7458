//! Mutexes of real threads, without a value. Each call runs the steps that the simulated world
//! runs.
#![tactic(auto)]

pub mod counting;
pub mod guards;
pub mod raw_condvar;
pub mod raw_fair_mutex;
pub mod raw_mutex;

pub use counting::{RawShare, RawThreadId};
pub use guards::{OpenGuard, RawGuard};
pub use raw_condvar::RawCondvar;
pub use raw_fair_mutex::RawFairMutex;
pub use raw_mutex::RawMutex;
