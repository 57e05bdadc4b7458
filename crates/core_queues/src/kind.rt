//! The second kind of queues.
ghost use Rattle.std.specs.Prelude.{◌≡◌, ◌≢◌, ◌+◌, ◌<◌, ◌≤◌, ◌∷◌, [], if◌then◌else◌, length, MatchOption};
ghost use Rattle.std.specs.Prelude.{IfSome, Some};
ghost use Rattle.std.specs.Vec.{vec_len, vec_capacity};
ghost use Rattle.core_queues.specs.Chains.{bucket_of, chain, joined, rest_after, IsHashed, rest_of};
ghost use Rattle.core_queues.specs.Chains.{rest-from_first};
ghost use Rattle.core_base.specs.Lines.{line, lines, times};
ghost use Rattle.core_base.specs.Requeues.{moved_by, requeued};
ghost use Rattle.core_base.specs.declared.requeues.Requeue.TheVariants.{One, All};

use crate::buckets::BucketQueues;
use crate::everybody::Everybody;
use crate::formula::bits_for;
use core_base::{Fault, Key, Pick, Picker, Queues, Requeue, Waiter, Want};
use std::alloc::Global;

impl BucketQueues {
    /// Finds the first waiter of a key after a thread, or, with none, in the whole chain, and the place
    /// after it.
    fn find_after(&self, key: Key, bucket: usize, before: Option<usize>) -> Option<(Waiter, usize)>
        requires bucket { bucket ≡ bucket_of self.now.bits key }
        requires within { bucket < length self.now.chains }
        requires stands { IfSome before (λ b. 1 ≤ times b (chain self.now bucket)) }
        ensures found { MatchOption result (line key (rest_after before (chain self.now bucket)) ≡ [])
            (λ found. line key (rest_after before (chain self.now bucket))
            ≡ found.0 ∷ rest_of self.now key found.1) }
    {
        let _ = &self.records;
        let Some((_, waiter)) = self.first_after(key, bucket, before) else {
            return None;
        };
        Some((waiter, waiter.thread + 1))
    }

    /// Requeues the first waiter of a key, if any, after the last of another.
    fn move_first(&mut self, from: Key, to: Key) -> bool
        ensures moved { (if result then 1 else 0)
            ≡ length (moved_by One (line from (joined self.old.chains))) }
        ensures lines { lines (joined self.new.chains)
            ≡ lines (requeued One from to (joined self.old.chains)) }
        ensures same { (self.new.capacity ≡ self.old.capacity) × (self.new.bits ≡ self.old.bits) }
        ensures hashed { IsHashed self.new }
    {
        let Some(thread) = self.take_under(from) else {
            return false;
        };
        self.come(to, thread, Want::Exclusive);
        true
    }

    /// Requeues all waiters of a key after the last of another, and counts them.
    fn move_all(&mut self, from: Key, to: Key) -> usize
        requires { from ≢ to }
        ensures number { (result ≡ length (line from (joined self.old.chains)))
            × (result ≤ self.old.capacity) }
        ensures lines { lines (joined self.new.chains)
            ≡ lines (requeued All from to (joined self.old.chains)) }
        ensures same { (self.new.capacity ≡ self.old.capacity) × (self.new.bits ≡ self.old.bits) }
    {
        let _ = &self.records;
        let mut number = 0;
        while self.move_first(from, to) {
            number += 1;
        }
        number
    }
}

impl Queues for BucketQueues {
    ghost waiting = { λ q. joined q.chains };

    ghost capacity = { λ q. q.capacity };

    ghost rest = { λ q key place. rest_of q key place };

    fn with_capacity(alloc: Global, threads: usize) -> Result<Self, Fault> {
        let Ok(records) = Vec::from_elem(alloc, None, threads) else {
            return Err(Fault::NoMemory);
        };
        let bits = bits_for(threads);
        let Ok(buckets) = Vec::from_elem(alloc, None, 1 << bits) else {
            return Err(Fault::NoMemory);
        };
        Ok(BucketQueues {
            records,
            buckets,
            bits,
        })
    }

    fn append(&mut self, key: Key, thread: usize, want: Want) {
        self.drop_thread(thread);
        self.come(key, thread, want);
    }

    fn take_first(&mut self, key: Key) -> Option<usize> {
        self.take_under(key)
    }

    fn take_all(&mut self, key: Key, out: &mut Vec<usize>) {
        self.take_by(key, Everybody, out);
    }

    fn take_by<P: Picker + Drop>(&mut self, key: Key, mut picker: P, out: &mut Vec<usize>) {
        let bucket = self.bucket(key);
        let mut before = None;
        while let Some(waiter) = self.rest_after(bucket, before) {
            if waiter.key != key {
                before = Some(waiter.thread);
                continue;
            }
            match picker.pick(waiter.want) {
                Pick::Unpark => {
                    self.leave(bucket, before, waiter.thread);
                    out.push_reserved(waiter.thread);
                }
                Pick::Skip => before = Some(waiter.thread),
                Pick::Stop => return,
            }
        }
    }

    fn requeue(&mut self, from: Key, to: Key, op: Requeue) -> (Option<usize>, usize) {
        let _ = &self.records;
        match op {
            Requeue::One => {
                let moved = self.move_first(from, to);
                (None, usize::from(moved))
            }
            Requeue::All => (None, self.move_all(from, to)),
            Requeue::TakeOneMoveRest => {
                let first = self.take_under(from);
                (first, self.move_all(from, to))
            }
        }
    }

    fn remove(&mut self, thread: usize) {
        self.drop_thread(thread);
    }

    fn count(&self, key: Key) -> usize {
        let _ = &self.records;
        let bucket = self.bucket(key);
        let mut number = 0;
        let mut before = None;
        while let Some((_, waiter)) = self.first_after(key, bucket, before) {
            number += 1;
            before = Some(waiter.thread);
        }
        number
    }

    fn key_of(&self, thread: usize) -> Option<Key> {
        self.stands_under(thread)
    }

    fn find(&self, key: Key, place: usize) -> Option<(Waiter, usize)> {
        let bucket = self.bucket(key);
        if place == 0 {
            return self.find_after(key, bucket, None);
        }
        let thread = place - 1;
        let Some(other) = self.stands_under(thread) else {
            return None;
        };
        if self.bucket(other) != bucket {
            return None;
        }
        self.find_after(key, bucket, Some(thread))
    }

    ghost from_first = { λ q key. rest-from_first q key };
}
