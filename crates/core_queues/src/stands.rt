//! Under which key each thread stands.
//!
//! A requeue writes the key of all waiters under the new key; for those that stood there before it is
//! that key already, so that the requeue need not know which were moved. A thread that is found in two
//! buckets is taken out of the one that it joined first.

use core_base::Key;
use std::alloc::{AllocError, Global};
use std::sync::atomic::AtomicUsize;
use std::sync::atomic::Ordering::SeqCst;

/// The key under which each thread stands, or stood last.
///
/// A key is written inside the section of its bucket. It is read outside, by a thread that gives up: so
/// it finds the bucket, and asks there once more.
#[derive(Drop)]
pub struct Stands {
    keys: Vec<AtomicUsize>,
}

impl Stands {
    /// Makes a key of each of so many threads.
    ///
    /// # Errors
    ///
    /// `AllocError`, where memory was refused.
    pub fn new(alloc: Global, seats: usize) -> Result<Stands, AllocError> {
        let mut keys = Vec::with_capacity(alloc, seats)?;
        for _ in 0..seats {
            keys.push(AtomicUsize::new(0))?;
        }
        Ok(Stands { keys })
    }

    /// Gives the key of a thread.
    pub fn key(&self, thread: usize) -> Key {
        match self.keys.get(thread) {
            Some(key) => key.load(SeqCst),
            None => 0,
        }
    }

    /// Notes that a thread stands under a key.
    pub fn note(&self, thread: usize, key: Key) {
        if let Some(stands) = self.keys.get(thread) {
            stands.store(key, SeqCst);
        }
    }
}
