//! The queues of a bucket, and the lists of those that a section took.
ghost use Rattle.std.specs.Prelude.{◌≡◌, ◌≢◌, ◌<◌, ◌≤◌, [], IfOk, IfErr, IfSome, MatchOption, take, ◌∷◌};
ghost use Rattle.std.specs.Prelude.{◌++◌, length, not, ◌==◌};
ghost use Rattle.std.specs.List.{filter};
ghost use Rattle.std.specs.Vec.{vec_capacity};
ghost use Rattle.core_base.specs.Lines.{waiter, line, lines, without, without_first, without_key, first_of};
ghost use Rattle.core_base.specs.Lines.{threads_of, queued_under};
ghost use Rattle.core_base.specs.Picks.{lock_picked, without_lock_picked};
ghost use Rattle.core_base.specs.Requeues.{taken_by, moved_by, requeued};
ghost use Rattle.core_queues.specs.Chains.{bucket_of};
ghost use Rattle.core_queues.specs.Buckets.{IsOfBucket};
ghost use Rattle.core_queues.specs.Wants.{wants_of, taken_in_line};

use crate::wants::{Everybody, note_first_want, note_wants};
use core_base::{Fault, Key, ListQueues, LockPicker, Queues, Requeue, Want};
use std::alloc::{AllocError, Global};

/// The queues of the keys of one of 2 ^ bits buckets, and the threads that the section that has
/// them took.
#[derive(Drop)]
pub struct SectionQueues {
    pub(crate) queues: ListQueues,
    // In the order in which they were taken. A requeue lists those that it moves here in between.
    pub(crate) taken: Vec<usize>,
    // The want of each of them.
    pub(crate) wants: Vec<Want>,
    // The threads among them that have not been given a right.
    rightless: Vec<usize>,
    // A mark of each thread, which it has inside `doubled` alone.
    pub(crate) marks: Vec<bool>,
    seats: usize,
    number: usize,
    bits: u32,
    ghost of_bucket: { IsOfBucket bits number seats queues.waiters },
    ghost roomy: { (queues.capacity ≡ seats) × (seats ≤ vec_capacity taken)
        × (vec_capacity taken ≤ vec_capacity rightless) × (seats ≤ vec_capacity wants) },
    ghost marked: { length marks.items ≡ seats },
}

fn room(alloc: Global, seats: usize) -> Result<(Vec<usize>, Vec<usize>, Vec<Want>), AllocError>
    ensures { IfOk result
        (λ rooms. (seats ≤ vec_capacity rooms.0) × (vec_capacity rooms.0 ≤ vec_capacity rooms.1)
        × (seats ≤ vec_capacity rooms.2)) }
{
    let taken = Vec::with_capacity(alloc, seats)?;
    let rightless = Vec::with_capacity(alloc, taken.capacity())?;
    let wants = Vec::with_capacity(alloc, seats)?;
    Ok((taken, rightless, wants))
}

// Into an empty list that has room.
fn copy_all(from: &[usize], to: &mut Vec<usize>)
    requires { (to.old.items ≡ []) × (length from.now ≤ vec_capacity to.old) }
    ensures { (to.new.items ≡ from.now) × (vec_capacity to.new ≡ vec_capacity to.old) }
{
    for thread in from {
        to.push_reserved(*thread);
    }
}

fn drop_thread(threads: &mut Vec<usize>, thread: usize)
    ensures items { threads.new.items ≡ filter (λ x. not (x == thread)) threads.old.items }
    ensures capacity { vec_capacity threads.new ≡ vec_capacity threads.old }
{
    threads.retain(|other| *other != thread);
}

// Moves waiters as `requeue` does, in one walk of the list. `spare` is empty before and afterwards.
fn requeue_with(
    queues: &mut ListQueues,
    from: Key,
    to: Key,
    op: Requeue,
    spare: &mut Vec<usize>,
) -> (Option<usize>, usize)
    requires differ { from ≢ to }
    requires spare { (spare.old.items ≡ []) × (queues.old.capacity ≤ vec_capacity spare.old) }
    ensures taken { result.0 ≡ taken_by op (line from queues.old.waiters) }
    ensures seated { IfSome result.0 (λ thread. thread < queues.old.capacity) }
    ensures number { (result.1 ≡ length (moved_by op (line from queues.old.waiters)))
        × (result.1 ≤ queues.old.capacity) }
    ensures lines { lines queues.new.waiters ≡ lines (requeued op from to queues.old.waiters) }
    ensures capacity { queues.new.capacity ≡ queues.old.capacity }
    ensures spare { (spare.new.items ≡ []) × (vec_capacity spare.new ≡ vec_capacity spare.old) }
{
    match op {
        Requeue::One => queues.requeue(from, to, op),
        Requeue::All => (None, queues.move_all(from, to, spare)),
        Requeue::TakeOneMoveRest => {
            let first = queues.take_first(from);
            (first, queues.move_all(from, to, spare))
        }
    }
}

impl SectionQueues {
    ghost use Rattle.core_queues.specs.Places.{IsSameBucket, TookSame};

    /// Nobody waits in a bucket, and there is room for so many threads. It takes all memory that its
    /// calls need.
    ///
    /// # Errors
    ///
    /// `NoMemory`, where memory was refused.
    pub fn with_capacity(
        alloc: Global,
        seats: usize,
        number: usize,
        bits: u32,
    ) -> Result<SectionQueues, Fault>
        ensures ok { IfOk result (λ made. (made.seats ≡ seats) × (made.number ≡ number)
            × (made.bits ≡ bits)) }
        ensures err { IfErr result (λ fault. fault ≡ Fault.NoMemory) }
    {
        let queues = ListQueues::with_capacity(alloc, seats)?;
        let Ok((taken, rightless, wants)) = room(alloc, seats) else {
            return Err(Fault::NoMemory);
        };
        let Ok(marks) = Vec::from_elem(alloc, false, seats) else {
            return Err(Fault::NoMemory);
        };
        Ok(SectionQueues {
            queues,
            taken,
            wants,
            rightless,
            marks,
            seats,
            number,
            bits,
        })
    }

    /// A section begins: nobody has been taken in it.
    pub fn begin(&mut self)
        ensures taken { (self.new.taken.items ≡ []) × (self.new.rightless.items ≡ [])
            × (self.new.wants.items ≡ []) }
        ensures same { (self.new.queues ≡ self.old.queues) × IsSameBucket self.old self.new }
    {
        self.taken.clear();
        self.wants.clear();
        self.rightless.clear();
    }

    // The one that was taken, if any.
    pub(crate) fn note_taken(&mut self, first: Option<usize>)
        requires { (self.old.taken.items ≡ []) × (self.old.rightless.items ≡ [])
            × IfSome first (λ thread. thread < self.old.seats) }
        ensures taken { MatchOption first (self.new.taken.items ≡ [])
            (λ thread. self.new.taken.items ≡ thread ∷ [])
            × (self.new.rightless.items ≡ self.new.taken.items) }
        ensures same { (self.new.queues ≡ self.old.queues)
            × (self.new.wants.items ≡ self.old.wants.items)
            × IsSameBucket self.old self.new }
    {
        if let Some(thread) = first {
            self.taken.push_reserved(thread);
            self.rightless.push_reserved(thread);
        }
    }

    /// Takes the first under a key.
    pub fn take_first(&mut self, key: Key) -> Option<usize>
        requires { (self.old.taken.items ≡ []) × (self.old.rightless.items ≡ [])
            × (self.old.wants.items ≡ []) }
        ensures first { result ≡ first_of (line key self.old.queues.waiters) }
        ensures taken { MatchOption result (self.new.taken.items ≡ [])
            (λ thread. self.new.taken.items ≡ thread ∷ [])
            × (self.new.rightless.items ≡ self.new.taken.items) }
        ensures wants { self.new.wants.items
            ≡ wants_of (take 1 (line key self.old.queues.waiters)) }
        ensures lines { lines self.new.queues.waiters
            ≡ lines (without_first key self.old.queues.waiters) }
        ensures same { IsSameBucket self.old self.new }
    {
        note_first_want(&self.queues, key, &mut self.wants);
        let first = self.queues.take_first(key);
        self.note_taken(first);
        first
    }

    /// Takes all under a key.
    pub fn take_all(&mut self, key: Key)
        requires { (self.old.taken.items ≡ []) × (self.old.rightless.items ≡ [])
            × (self.old.wants.items ≡ []) }
        ensures taken { (self.new.taken.items ≡ threads_of (line key self.old.queues.waiters))
            × (self.new.rightless.items ≡ self.new.taken.items) }
        ensures wants { self.new.wants.items ≡ wants_of (line key self.old.queues.waiters) }
        ensures lines { lines self.new.queues.waiters
            ≡ lines (without_key key self.old.queues.waiters) }
        ensures same { IsSameBucket self.old self.new }
    {
        note_wants(&self.queues, key, Everybody, &mut self.wants);
        self.queues.take_all(key, &mut self.taken);
        copy_all(self.taken.as_slice(), &mut self.rightless);
    }

    /// Takes the waiters that are picked of the main queue of a reader-writer lock.
    pub fn take_picked(&mut self, key: Key, start: Option<Want>, recursive: bool)
        requires { (self.old.taken.items ≡ []) × (self.old.rightless.items ≡ [])
            × (self.old.wants.items ≡ []) }
        ensures taken { (self.new.taken.items
            ≡ threads_of (lock_picked start recursive (line key self.old.queues.waiters)))
            × (self.new.rightless.items ≡ self.new.taken.items) }
        ensures wants { self.new.wants.items
            ≡ wants_of (lock_picked start recursive (line key self.old.queues.waiters)) }
        ensures lines { lines self.new.queues.waiters
            ≡ lines (without_lock_picked start recursive key self.old.queues.waiters) }
        ensures same { IsSameBucket self.old self.new }
    {
        let picker = LockPicker::new(start, recursive);
        note_wants(&self.queues, key, picker, &mut self.wants);
        self.queues.take_by(key, picker, &mut self.taken);
        copy_all(self.taken.as_slice(), &mut self.rightless);
    }

    /// Moves waiters from under a key after the last under another.
    pub fn requeue(&mut self, from: Key, to: Key, op: Requeue) -> (Option<usize>, usize)
        requires none { (self.old.taken.items ≡ []) × (self.old.rightless.items ≡ [])
            × (self.old.wants.items ≡ []) }
        requires differ { from ≢ to }
        requires key { bucket_of self.old.bits to ≡ self.old.number }
        ensures first { result.0 ≡ taken_by op (line from self.old.queues.waiters) }
        ensures taken { MatchOption result.0 (self.new.taken.items ≡ [])
            (λ thread. self.new.taken.items ≡ thread ∷ [])
            × (self.new.rightless.items ≡ self.new.taken.items) }
        ensures wants { self.new.wants.items
            ≡ wants_of (taken_in_line op (line from self.old.queues.waiters)) }
        ensures number { (result.1 ≡ length (moved_by op (line from self.old.queues.waiters)))
            × (result.1 ≤ self.old.seats) }
        ensures lines { lines self.new.queues.waiters
            ≡ lines (requeued op from to self.old.queues.waiters) }
        ensures same { IsSameBucket self.old self.new }
    {
        if op == Requeue::TakeOneMoveRest {
            note_first_want(&self.queues, from, &mut self.wants);
        }
        let (first, moved) = requeue_with(&mut self.queues, from, to, op, &mut self.taken);
        self.note_taken(first);
        (first, moved)
    }

    /// The thread has been given a right.
    pub fn note_right(&mut self, thread: usize)
        ensures rightless { self.new.rightless.items
            ≡ filter (λ x. not (x == thread)) self.old.rightless.items }
        ensures same { (self.new.queues ≡ self.old.queues)
            × (self.new.taken.items ≡ self.old.taken.items)
            × (self.new.wants.items ≡ self.old.wants.items) × IsSameBucket self.old self.new }
    {
        drop_thread(&mut self.rightless, thread);
    }

    /// Returns which bucket it is, the power of two that all buckets are, and for how many threads
    /// there is room.
    pub fn place(&self) -> (usize, u32, usize)
        ensures { (result.0 ≡ self.now.number) × (result.1 ≡ self.now.bits)
            × (result.2 ≡ self.now.seats) }
    {
        (self.number, self.bits, self.seats)
    }

    /// Returns the threads that the section took, in order.
    pub fn taken(&self) -> &[usize]
        ensures { result.now ≡ self.now.taken.items }
    {
        self.taken.as_slice()
    }

    /// Returns the want of each of them, in the same order.
    pub fn wants(&self) -> &[Want]
        ensures { result.now ≡ self.now.wants.items }
    {
        self.wants.as_slice()
    }

    /// Returns the taken threads that have no right yet, in order.
    pub fn rightless(&self) -> &[usize]
        ensures { result.now ≡ self.now.rightless.items }
    {
        self.rightless.as_slice()
    }

    /// Puts a thread after the last under a key. One that stands somewhere leaves that place
    /// first.
    pub fn append(&mut self, key: Key, thread: usize, want: Want)
        requires thread { thread < self.old.seats }
        requires key { bucket_of self.old.bits key ≡ self.old.number }
        ensures lines { lines self.new.queues.waiters
            ≡ lines (without thread self.old.queues.waiters ++ waiter key thread want ∷ []) }
        ensures same { TookSame self.old self.new × IsSameBucket self.old self.new }
    {
        self.queues.append(key, thread, want);
    }

    /// Removes a thread from where it stands.
    pub fn remove(&mut self, thread: usize)
        ensures lines { lines self.new.queues.waiters
            ≡ lines (without thread self.old.queues.waiters) }
        ensures same { TookSame self.old self.new × IsSameBucket self.old self.new }
    {
        self.queues.remove(thread);
    }

    /// Returns how many stand under a key.
    pub fn count(&self, key: Key) -> usize
        ensures { result ≡ length (line key self.now.queues.waiters) }
    {
        self.queues.count(key)
    }

    /// Returns the key under which a thread stands.
    pub fn key_of(&self, thread: usize) -> Option<Key>
        ensures { result ≡ queued_under thread self.now.queues.waiters }
    {
        self.queues.key_of(thread)
    }
}
