//! Hashed buckets, each a chain of records.
//!
//! There is a record for each thread, of 40 bytes, and `2^k` buckets, of 24 bytes, where `2^k` is the
//! least power of two that is at least the number of threads. The bucket of a key is the highest `k`
//! bits of the key times 2^64 divided by the golden ratio. Keys that share a bucket share its chain,
//! each in its own order.
//!
//! A chain leads one way: a thread joins after the last, and leaves where a walk from the first finds
//! it. Chains are short where there are as many buckets as threads, and a link back would be one more
//! fact of every record to keep. `chains_of` follows each bucket's first record. A place of a line is
//! 0, or a thread and 1, so that `find` goes on after a thread at once.
ghost use Rattle.std.specs.Prelude.{◌≡◌, ◌≢◌, ◌<◌, ◌≤◌, ◌++◌, ◌∷◌, [], Some, None, IfSome, IfOk, IfErr};
ghost use Rattle.std.specs.Prelude.{MatchOption, length, slice_set, ◌^◌};
ghost use Rattle.core_queues.specs.Chains.{bucket_of, chain, joined, rest_after, IsHashed, IsLeast};
ghost use Rattle.core_base.specs.Lines.{waiter, without, without_first, line, first_of, queued_under, times};
ghost use Rattle.core_base.specs.Lines.{lines};

use crate::formula::bucket_among;
use crate::links::{ends_with, ends_without, link, next, rest_after, standing, unlink, waiter};
use crate::records::{Ends, Record};
use core_base::{Fault, Key, Waiter, Want};
use std::alloc::Global;
use std::marker::Model;

/// The queues of all keys: each thread that waits stands in the chain of its key's bucket. Keys that
/// share a bucket share its chain, each in its own order.
#[derive(Drop)]
pub struct BucketQueues {
    pub(crate) records: Vec<Option<Record>>,
    pub(crate) buckets: Vec<Option<Ends>>,
    // There are 2 to this power of buckets.
    pub(crate) bits: u32,
}

impl Model for BucketQueues {
    ghost use Rattle.std.specs.Prelude.{◌<◌, length};
    ghost use Rattle.core_queues.specs.Chains.{Chained};

    ghost Value = { Chained };

    ghost use Rattle.core_queues.specs.Links.{chains_of, IsLinked};
    ghost use Rattle.core_queues.specs.Chains.{IsLeast};

    ghost view = { λ a. record { chains = chains_of a.records.items a.buckets.items; capacity = length a.records.items; bits = a.bits } };

    ghost invariant = { λ a. (a.bits < 64)
        × IsLinked a.records.items a.buckets.items a.bits (chains_of a.records.items a.buckets.items)
        × IsLeast (length a.records.items) a.bits };
}

impl BucketQueues {
    /// Counts the buckets: the least power of two that is at least the number of threads.
    pub fn buckets(&self) -> usize
        ensures number { (result ≡ length self.now.chains) × (result ≡ 2 ^ self.now.bits) }
        ensures least { IsLeast self.now.capacity self.now.bits }
    {
        self.buckets.len()
    }

    /// Hashes a key to the number of its bucket.
    pub fn bucket(&self, key: Key) -> usize
        ensures bucket { result ≡ bucket_of self.now.bits key }
        ensures within { result < length self.now.chains }
        ensures hashed { IsHashed self.now }
    {
        bucket_among(self.bits, key)
    }

    /// Gives the next waiter of a bucket's chain, or, with no thread before it, the first.
    pub(crate) fn rest_after(&self, bucket: usize, before: Option<usize>) -> Option<Waiter>
        requires within { bucket < length self.now.chains }
        requires stands { IfSome before (λ b. 1 ≤ times b (chain self.now bucket)) }
        ensures hashed { IsHashed self.now }
        ensures found { MatchOption result (rest_after before (chain self.now bucket) ≡ [])
            (λ w. rest_after before (chain self.now bucket)
            ≡ w ∷ rest_after (Some w.thread) (chain self.now bucket)) }
        ensures stands { IfSome result (λ w. 1 ≤ times w.thread (chain self.now bucket)) }
    {
        let ends = self.buckets[bucket];
        let thread = rest_after(&self.records, ends, before);
        waiter(&self.records, thread)
    }

    /// Unlinks a thread from the chain of its bucket. `before` is the thread in front of it; none stands
    /// in front of the first.
    pub(crate) fn leave(&mut self, bucket: usize, before: Option<usize>, thread: usize)
        requires within { bucket < length self.old.chains }
        requires stands { IfSome before (λ b. 1 ≤ times b (chain self.old bucket)) }
        requires first { first_of (rest_after before (chain self.old bucket)) ≡ Some thread }
        ensures chains { self.new.chains
            ≡ slice_set self.old.chains bucket (without thread (chain self.old bucket)) }
        ensures same { (self.new.capacity ≡ self.old.capacity) × (self.new.bits ≡ self.old.bits) }
        ensures lines { lines (joined self.new.chains)
            ≡ lines (without thread (joined self.old.chains)) }
        ensures hashed { IsHashed self.new }
        ensures gone { queued_under thread (joined self.new.chains) ≡ None }
    {
        let next = next(standing(&self.records, thread));
        let ends = self.buckets[bucket];
        unlink(&mut self.records, before, thread);
        self.buckets[bucket] = ends_without(ends, before, next);
    }

    /// Links a thread that stands nowhere to the end of the chain of its key's bucket.
    pub(crate) fn come(&mut self, key: Key, thread: usize, want: Want)
        requires below { thread < self.old.capacity }
        requires alone { queued_under thread (joined self.old.chains) ≡ None }
        ensures chains { self.new.chains ≡ slice_set self.old.chains (bucket_of self.old.bits key)
            (chain self.old (bucket_of self.old.bits key) ++ waiter key thread want ∷ []) }
        ensures same { (self.new.capacity ≡ self.old.capacity) × (self.new.bits ≡ self.old.bits) }
        ensures lines { lines (joined self.new.chains)
            ≡ lines (joined self.old.chains ++ waiter key thread want ∷ []) }
        ensures hashed { IsHashed self.new }
    {
        let bucket = self.bucket(key);
        let ends = self.buckets[bucket];
        link(&mut self.records, ends, key, thread, want);
        self.buckets[bucket] = Some(ends_with(ends, thread));
    }

    /// Gives the key under which a thread stands.
    pub(crate) fn stands_under(&self, thread: usize) -> Option<Key>
        ensures key { result ≡ queued_under thread (joined self.now.chains) }
        ensures stands { IfSome result
            (λ key. 1 ≤ times thread (chain self.now (bucket_of self.now.bits key))) }
        ensures hashed { IsHashed self.now }
    {
        match standing(&self.records, thread) {
            Some(record) => Some(record.key),
            None => None,
        }
    }

    /// Finds the first waiter of a key after a thread, or, with none, in the whole chain, and the
    /// thread in front of it.
    pub(crate) fn first_after(
        &self,
        key: Key,
        bucket: usize,
        mut before: Option<usize>,
    ) -> Option<(Option<usize>, Waiter)>
        requires within { bucket < length self.now.chains }
        requires stands { IfSome before (λ b. 1 ≤ times b (chain self.now bucket)) }
        ensures found { MatchOption result (line key (rest_after before (chain self.now bucket)) ≡ [])
            (λ found. line key (rest_after before (chain self.now bucket))
            ≡ found.1 ∷ line key (rest_after (Some found.1.thread) (chain self.now bucket))) }
        ensures stands { IfSome result (λ found.
            IfSome found.0 (λ b. 1 ≤ times b (chain self.now bucket))
            × (first_of (rest_after found.0 (chain self.now bucket)) ≡ Some found.1.thread)
            × (1 ≤ times found.1.thread (chain self.now bucket))) }
        ensures hashed { IsHashed self.now }
    {
        while let Some(waiter) = self.rest_after(bucket, before) {
            if waiter.key == key {
                return Some((before, waiter));
            }
            before = Some(waiter.thread);
        }
        None
    }

    /// Dequeues the first waiter of a key.
    pub(crate) fn take_under(&mut self, key: Key) -> Option<usize>
        ensures first { result ≡ first_of (line key (joined self.old.chains)) }
        ensures lines { lines (joined self.new.chains)
            ≡ lines (without_first key (joined self.old.chains)) }
        ensures same { (self.new.capacity ≡ self.old.capacity) × (self.new.bits ≡ self.old.bits) }
        ensures gone { IfSome result (λ thread. (thread < self.old.capacity)
            × (queued_under thread (joined self.new.chains) ≡ None)) }
        ensures hashed { IsHashed self.new }
    {
        let bucket = self.bucket(key);
        let Some((before, waiter)) = self.first_after(key, bucket, None) else {
            return None;
        };
        self.leave(bucket, before, waiter.thread);
        Some(waiter.thread)
    }

    /// Dequeues a thread, wherever it stands.
    pub(crate) fn drop_thread(&mut self, thread: usize)
        ensures lines { lines (joined self.new.chains)
            ≡ lines (without thread (joined self.old.chains)) }
        ensures same { (self.new.capacity ≡ self.old.capacity) × (self.new.bits ≡ self.old.bits) }
        ensures gone { queued_under thread (joined self.new.chains) ≡ None }
        ensures hashed { IsHashed self.new }
    {
        let Some(key) = self.stands_under(thread) else {
            return;
        };
        let bucket = self.bucket(key);
        let mut before = None;
        while let Some(waiter) = self.rest_after(bucket, before) {
            if waiter.thread == thread {
                self.leave(bucket, before, thread);
                return;
            }
            before = Some(waiter.thread);
        }
    }
}
