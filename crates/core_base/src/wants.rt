//! Waiters, and their wants.

use crate::keys::Key;

/// The right or the event for which a waiter waits.
#[derive(Clone, Copy, Debug, PartialEq, Eq)]
pub enum Want {
    Exclusive,
    Upgradable,
    Shared,
    /// To be notified, or to see a `Once` done.
    Wait,
    /// To run a `Once`.
    CallOnce,
}

/// A thread that stands in the queue of a key.
#[derive(Clone, Copy, Debug, PartialEq, Eq)]
pub struct Waiter {
    pub key: Key,
    pub thread: usize,
    pub want: Want,
}
