//! One list of all waiters.
//!
//! Each call walks the list of all waiters once or twice, and no threads beside them. This is the plain
//! kind of queues, easy to trust.
ghost use Rattle.std.specs.Prelude.{ℕ, ◌≡◌, ◌≢◌, ◌+◌, ◌≤◌, ◌++◌, [], length, drop, if◌then◌else◌};
ghost use Rattle.std.specs.Vec.{vec_len, vec_capacity};
ghost use Rattle.core_base.specs.Lines.{line, line-from_first, without, without_first, without_key};
ghost use Rattle.core_base.specs.Lines.{first_of, threads_of, times, IsSeated};
ghost use Rattle.core_base.specs.Picks.{picked, without_picked};
ghost use Rattle.core_base.specs.Requeues.{moved_by, moved_to, requeued, standing};
ghost use Rattle.core_base.specs.declared.requeues.Requeue.TheVariants.{One, All};

use crate::faults::Fault;
use crate::keys::Key;
use crate::picks::{Pick, Picker};
use crate::queues::Queues;
use crate::requeues::Requeue;
use crate::wants::{Waiter, Want};
use std::alloc::Global;
use std::marker::Model;

/// Removes a thread. Where it stands nowhere, `retain` only reads.
fn drop_thread(waiters: &mut Vec<Waiter>, thread: usize)
    ensures items { waiters.new.items ≡ without thread waiters.old.items }
    ensures capacity { vec_capacity waiters.new ≡ vec_capacity waiters.old }
{
    waiters.retain(|waiter| waiter.thread != thread);
}

/// Removes all under a key.
fn drop_key(waiters: &mut Vec<Waiter>, key: Key)
    ensures items { waiters.new.items ≡ without_key key waiters.old.items }
    ensures capacity { vec_capacity waiters.new ≡ vec_capacity waiters.old }
{
    waiters.retain(|waiter| waiter.key != key);
}

/// Takes the first under a key.
fn take_under(waiters: &mut Vec<Waiter>, key: Key) -> Option<usize>
    ensures first { result ≡ first_of (line key waiters.old.items) }
    ensures waiting { waiters.new.items ≡ without_first key waiters.old.items }
    ensures capacity { vec_capacity waiters.new ≡ vec_capacity waiters.old }
{
    for at in 0..waiters.len() {
        if waiters[at].key == key {
            return Some(waiters.remove(at).thread);
        }
    }
    None
}

/// Takes the waiters under a key that a picker picks, and pushes them to `out`.
fn take_picked<P: Picker + Drop>(
    waiters: &mut Vec<Waiter>,
    key: Key,
    mut picker: P,
    out: &mut Vec<usize>,
)
    requires { vec_len out.old + vec_len waiters.old ≤ vec_capacity out.old }
    ensures taken { out.new.items
        ≡ out.old.items ++ threads_of (picked P.answer P.next picker (line key waiters.old.items)) }
    ensures room { vec_capacity out.new ≡ vec_capacity out.old }
    ensures waiting { waiters.new.items
        ≡ without_picked P.answer P.next picker key waiters.old.items }
    ensures capacity { vec_capacity waiters.new ≡ vec_capacity waiters.old }
{
    let mut at = 0;
    while at < waiters.len() {
        let waiter = waiters[at];
        if waiter.key != key {
            at += 1;
            continue;
        }
        match picker.pick(waiter.want) {
            Pick::Unpark => {
                waiters.remove(at);
                out.push_reserved(waiter.thread);
            }
            Pick::Skip => at += 1,
            Pick::Stop => return,
        }
    }
}

/// Takes all under a key, and pushes them to `out` in their order.
fn take_key(waiters: &mut Vec<Waiter>, key: Key, out: &mut Vec<usize>)
    requires { vec_len out.old + vec_len waiters.old ≤ vec_capacity out.old }
    ensures taken { out.new.items ≡ out.old.items ++ threads_of (line key waiters.old.items) }
    ensures room { vec_capacity out.new ≡ vec_capacity out.old }
    ensures items { waiters.new.items ≡ without_key key waiters.old.items }
    ensures capacity { vec_capacity waiters.new ≡ vec_capacity waiters.old }
{
    for waiter in &*waiters {
        if waiter.key == key {
            out.push_reserved(waiter.thread);
        }
    }
    drop_key(waiters, key);
}

/// Pushes threads to the end, under a key. They want to own alone.
fn push_each(waiters: &mut Vec<Waiter>, key: Key, threads: &[usize])
    requires { vec_len waiters.old + length threads.now ≤ vec_capacity waiters.old }
    ensures items { waiters.new.items ≡ waiters.old.items ++ standing key threads.now }
    ensures capacity { vec_capacity waiters.new ≡ vec_capacity waiters.old }
{
    for thread in threads {
        waiters.push_reserved(Waiter {
            key,
            thread: *thread,
            want: Want::Exclusive,
        });
    }
}

/// Moves the first under a key after the last under another, where there is one.
fn move_first(waiters: &mut Vec<Waiter>, from: Key, to: Key) -> bool
    ensures moved { (if result then 1 else 0)
        ≡ length (moved_by One (line from waiters.old.items)) }
    ensures waiting { waiters.new.items ≡ requeued One from to waiters.old.items }
    ensures capacity { vec_capacity waiters.new ≡ vec_capacity waiters.old }
{
    let Some(thread) = take_under(waiters, from) else {
        return false;
    };
    waiters.push_reserved(Waiter {
        key: to,
        thread,
        want: Want::Exclusive,
    });
    true
}

/// Moves all under a key after the last under another, and answers how many there were.
fn move_all(waiters: &mut Vec<Waiter>, from: Key, to: Key) -> usize
    requires { from ≢ to }
    ensures number { result ≡ length (line from waiters.old.items) }
    ensures waiting { waiters.new.items ≡ requeued All from to waiters.old.items }
    ensures capacity { vec_capacity waiters.new ≡ vec_capacity waiters.old }
{
    let mut number = 0;
    while move_first(waiters, from, to) {
        number += 1;
    }
    number
}

/// One list of all waiters. A call goes through the whole list, at most; a requeue does so for each
/// that it moves.
#[derive(Drop)]
pub struct ListQueues {
    waiters: Vec<Waiter>,
    capacity: usize,
}

impl Model for ListQueues {
    ghost use Rattle.std.specs.Prelude.{◌≤◌};
    ghost use Rattle.std.specs.Vec.{vec_capacity};
    ghost use Rattle.core_base.specs.Lines.{Waiting, IsSeated};

    ghost Value = { Waiting };

    ghost view = { λ a. record { waiters = a.waiters.items; capacity = a.capacity } };

    ghost invariant = { λ a. (a.capacity ≤ vec_capacity a.waiters)
        × IsSeated a.waiters.items a.capacity };
}

impl ListQueues {
    /// Moves all under a key after the last under another, in one walk of the list, and returns how many
    /// there were. `spare` is an empty list that has room for all threads, and is empty afterwards.
    pub fn move_all(&mut self, from: Key, to: Key, spare: &mut Vec<usize>) -> usize
        requires spare { (spare.old.items ≡ []) × (self.old.capacity ≤ vec_capacity spare.old) }
        ensures number { (result ≡ length (line from self.old.waiters)) × (result ≤ self.old.capacity) }
        ensures waiting { self.new.waiters ≡ requeued All from to self.old.waiters }
        ensures capacity { self.new.capacity ≡ self.old.capacity }
        ensures spare { (spare.new.items ≡ []) × (vec_capacity spare.new ≡ vec_capacity spare.old) }
    {
        take_key(&mut self.waiters, from, spare);
        push_each(&mut self.waiters, to, spare.as_slice());
        let number = spare.len();
        spare.clear();
        number
    }

    /// Moves all under a key after the last under a key of other queues, in which none of them stands, in
    /// one walk of the list, and returns how many there were. `spare` is as in `move_all`.
    pub fn pass_all(
        &mut self,
        other: &mut ListQueues,
        from: Key,
        to: Key,
        spare: &mut Vec<usize>,
    ) -> usize
        requires spare { (spare.old.items ≡ []) × (self.old.capacity ≤ vec_capacity spare.old) }
        requires same { other.old.capacity ≡ self.old.capacity }
        requires apart { (thread : ℕ) → 1 ≤ times thread (line from self.old.waiters)
            → times thread other.old.waiters ≡ 0 }
        ensures number { (result ≡ length (line from self.old.waiters)) × (result ≤ self.old.capacity) }
        ensures left { self.new.waiters ≡ without_key from self.old.waiters }
        ensures passed { other.new.waiters
            ≡ other.old.waiters ++ moved_to to (line from self.old.waiters) }
        ensures capacity { (self.new.capacity ≡ self.old.capacity)
            × (other.new.capacity ≡ other.old.capacity) }
        ensures spare { (spare.new.items ≡ []) × (vec_capacity spare.new ≡ vec_capacity spare.old) }
    {
        take_key(&mut self.waiters, from, spare);
        push_each(&mut other.waiters, to, spare.as_slice());
        let number = spare.len();
        spare.clear();
        number
    }

    /// Lists all waiters.
    pub fn waiters(&self) -> &[Waiter]
        ensures all { result.now ≡ self.now.waiters }
        ensures seated { IsSeated self.now.waiters self.now.capacity }
    {
        self.waiters.as_slice()
    }
}

impl Queues for ListQueues {
    ghost waiting = { λ q. q.waiters };

    ghost capacity = { λ q. q.capacity };

    ghost rest = { λ q key place. line key (drop place q.waiters) };

    fn with_capacity(alloc: Global, threads: usize) -> Result<Self, Fault> {
        match Vec::with_capacity(alloc, threads) {
            Ok(waiters) => Ok(ListQueues {
                waiters,
                capacity: threads,
            }),
            Err(_) => Err(Fault::NoMemory),
        }
    }

    fn append(&mut self, key: Key, thread: usize, want: Want) {
        drop_thread(&mut self.waiters, thread);
        self.waiters.push_reserved(Waiter { key, thread, want });
    }

    fn take_first(&mut self, key: Key) -> Option<usize> {
        take_under(&mut self.waiters, key)
    }

    fn take_all(&mut self, key: Key, out: &mut Vec<usize>) {
        take_key(&mut self.waiters, key, out);
    }

    fn take_by<P: Picker + Drop>(&mut self, key: Key, picker: P, out: &mut Vec<usize>) {
        take_picked(&mut self.waiters, key, picker, out);
    }

    fn requeue(&mut self, from: Key, to: Key, op: Requeue) -> (Option<usize>, usize) {
        match op {
            Requeue::One => {
                let moved = move_first(&mut self.waiters, from, to);
                (None, usize::from(moved))
            }
            Requeue::All => (None, move_all(&mut self.waiters, from, to)),
            Requeue::TakeOneMoveRest => {
                let first = take_under(&mut self.waiters, from);
                (first, move_all(&mut self.waiters, from, to))
            }
        }
    }

    fn remove(&mut self, thread: usize) {
        drop_thread(&mut self.waiters, thread);
    }

    fn count(&self, key: Key) -> usize {
        self.waiters
            .iter()
            .filter(|waiter| waiter.key == key)
            .count()
    }

    fn key_of(&self, thread: usize) -> Option<Key> {
        for waiter in &self.waiters {
            if waiter.thread == thread {
                return Some(waiter.key);
            }
        }
        None
    }

    fn find(&self, key: Key, place: usize) -> Option<(Waiter, usize)> {
        for at in place..self.waiters.len() {
            if self.waiters[at].key == key {
                return Some((self.waiters[at], at + 1));
            }
        }
        None
    }

    ghost from_first = { λ q key. line-from_first key q.waiters };
}
