//! A raw reader-writer lock of either sort, for tests of both.
#![tactic(auto)]

pub mod any_rwlock;

pub use any_rwlock::{AnyRwLock, Sort};
