//! The records of which the chain of a bucket is made.

use core_base::{Key, Want};

/// A waiter's key and want, and the next thread of its chain.
#[derive(Clone, Copy)]
pub(crate) struct Record {
    pub key: Key,
    pub want: Want,
    pub next: Option<usize>,
}

/// The first and the last thread of a chain.
#[derive(Clone, Copy)]
pub(crate) struct Ends {
    pub first: usize,
    pub last: usize,
}
