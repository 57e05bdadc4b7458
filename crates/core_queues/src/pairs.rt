//! Calls on the queues of two buckets.
ghost use Rattle.std.specs.Prelude.{◌≡◌, ◌≢◌, ◌+◌, ◌<◌, ◌≤◌, ◌↔◌, None, [], ◌∷◌, ◌++◌, IsTrue, MatchOption};
ghost use Rattle.std.specs.Prelude.{length, if◌then◌else◌};
ghost use Rattle.core_base.specs.Lines.{waiter, line, lines, without, queued_under};
ghost use Rattle.core_base.specs.Requeues.{taken_by, moved_by, requeued};
ghost use Rattle.core_base.specs.declared.requeues.Requeue.TheVariants.{One, All};
ghost use Rattle.core_queues.specs.Chains.{bucket_of};
ghost use Rattle.core_queues.specs.Buckets.{AreApart};
ghost use Rattle.core_queues.specs.Wants.{wants_of, taken_in_line};

use crate::bucket_among;
use crate::marks::{first_marked, mark_all};
use crate::section_queues::SectionQueues;
use crate::stands::Stands;
use crate::wants::note_first_want;
use core_base::{Key, Queues, Requeue, Want};

impl SectionQueues {
    ghost use Rattle.core_queues.specs.Places.{AreTwo, IsSameBucket, KeepApart, TookSame};

    /// Returns whether a key has this bucket.
    pub fn holds(&self, key: Key) -> bool
        requires { self.now.bits < 64 }
        ensures { IsTrue result ↔ bucket_of self.now.bits key ≡ self.now.number }
    {
        let (number, bits, _) = self.place();
        bucket_among(bits, key) == number
    }

    /// Finds the first thread under a key that stands in another bucket as well. None where nobody
    /// does.
    pub fn doubled(&mut self, key: Key, other: &SectionQueues) -> Option<usize>
        ensures apart { result ≡ None
            → AreApart key self.new.queues.waiters other.now.queues.waiters }
        ensures same { (self.new.queues ≡ self.old.queues) × TookSame self.old self.new
            × IsSameBucket self.old self.new }
    {
        let others = other.queues.waiters();
        if others.is_empty() {
            return None;
        }
        mark_all(&mut self.marks, others, true);
        let doubled = first_marked(&self.marks, key, self.queues.waiters());
        mark_all(&mut self.marks, others, false);
        doubled
    }

    /// Puts a thread after the last under a key of one of the buckets. One that stands in them leaves
    /// that place first.
    pub fn append_beside(&mut self, other: &mut SectionQueues, key: Key, thread: usize, want: Want)
        requires two { AreTwo self.old other.old × (self.old.bits < 64) }
        requires key { bucket_of self.old.bits key ≢ self.old.number
            → bucket_of self.old.bits key ≡ other.old.number }
        requires thread { thread < self.old.seats }
        ensures lines { lines (self.new.queues.waiters ++ other.new.queues.waiters)
            ≡ lines (without thread (self.old.queues.waiters ++ other.old.queues.waiters)
            ++ waiter key thread want ∷ []) }
        ensures apart { KeepApart self.old other.old self.new other.new }
        ensures same { TookSame self.old self.new × IsSameBucket self.old self.new }
        ensures other { TookSame other.old other.new × IsSameBucket other.old other.new }
    {
        if self.holds(key) {
            self.append(key, thread, want);
            other.remove(thread);
        } else {
            self.remove(thread);
            other.append(key, thread, want);
        }
    }

    /// Removes a thread from where it stands in the buckets.
    pub fn remove_beside(&mut self, other: &mut SectionQueues, thread: usize)
        ensures lines { lines (self.new.queues.waiters ++ other.new.queues.waiters)
            ≡ lines (without thread (self.old.queues.waiters ++ other.old.queues.waiters)) }
        ensures apart { KeepApart self.old other.old self.new other.new }
        ensures same { TookSame self.old self.new × IsSameBucket self.old self.new }
        ensures other { TookSame other.old other.new × IsSameBucket other.old other.new }
    {
        self.remove(thread);
        other.remove(thread);
    }

    /// Returns how many stand under a key of one of the buckets.
    pub fn count_beside(&self, other: &SectionQueues, key: Key) -> usize
        requires two { AreTwo self.now other.now × (self.now.bits < 64) }
        requires key { bucket_of self.now.bits key ≢ self.now.number
            → bucket_of self.now.bits key ≡ other.now.number }
        ensures { result
            ≡ length (line key (self.now.queues.waiters ++ other.now.queues.waiters)) }
    {
        if self.holds(key) {
            self.count(key)
        } else {
            other.count(key)
        }
    }

    /// Returns the key under which a thread stands in the buckets.
    pub fn key_beside(&self, other: &SectionQueues, thread: usize) -> Option<Key>
        ensures { result
            ≡ queued_under thread (self.now.queues.waiters ++ other.now.queues.waiters) }
    {
        match self.key_of(thread) {
            Some(key) => Some(key),
            None => other.key_of(thread),
        }
    }

    /// Notes the key of each thread that stands under it.
    pub fn note_line(&self, stands: &Stands, key: Key) {
        let mut place = 0;
        while let Some((waiter, next)) = self.queues.find(key, place) {
            stands.note(waiter.thread, key);
            place = next;
        }
    }

    // Moves the first under a key after the last under a key of another bucket.
    fn move_first(&mut self, other: &mut SectionQueues, from: Key, to: Key) -> bool
        requires keys { (bucket_of self.old.bits from ≡ self.old.number)
            × (bucket_of other.old.bits to ≡ other.old.number) }
        requires two { AreTwo self.old other.old }
        requires apart { AreApart from self.old.queues.waiters other.old.queues.waiters }
        ensures moved { (if result then 1 else 0) ≡ length (moved_by One
            (line from (self.old.queues.waiters ++ other.old.queues.waiters))) }
        ensures lines { lines (self.new.queues.waiters ++ other.new.queues.waiters)
            ≡ lines (requeued One from to
            (self.old.queues.waiters ++ other.old.queues.waiters)) }
        ensures apart { IsTrue result
            → AreApart from self.new.queues.waiters other.new.queues.waiters }
        ensures same { TookSame self.old self.new × IsSameBucket self.old self.new }
        ensures other { TookSame other.old other.new × IsSameBucket other.old other.new }
    {
        let Some(thread) = self.queues.take_first(from) else {
            return false;
        };
        other.append(to, thread, Want::Exclusive);
        true
    }

    // Moves all under a key after the last under a key of another bucket, in one walk of the list, and
    // answers how many there were.
    fn move_all(&mut self, other: &mut SectionQueues, from: Key, to: Key) -> usize
        requires keys { (bucket_of self.old.bits from ≡ self.old.number)
            × (bucket_of other.old.bits to ≡ other.old.number) × (from ≢ to) }
        requires two { AreTwo self.old other.old }
        requires apart { AreApart from self.old.queues.waiters other.old.queues.waiters }
        requires none { self.old.taken.items ≡ [] }
        ensures number { (result
            ≡ length (line from (self.old.queues.waiters ++ other.old.queues.waiters)))
            × (result ≤ self.old.seats) }
        ensures lines { lines (self.new.queues.waiters ++ other.new.queues.waiters)
            ≡ lines (requeued All from to
            (self.old.queues.waiters ++ other.old.queues.waiters)) }
        ensures same { TookSame self.old self.new × IsSameBucket self.old self.new }
        ensures other { TookSame other.old other.new × IsSameBucket other.old other.new }
    {
        self.queues
            .pass_all(&mut other.queues, from, to, &mut self.taken)
    }

    /// Moves waiters from under a key after the last under a key of another bucket.
    pub fn requeue_beside(
        &mut self,
        other: &mut SectionQueues,
        from: Key,
        to: Key,
        op: Requeue,
    ) -> (Option<usize>, usize)
        requires none { (self.old.taken.items ≡ []) × (self.old.rightless.items ≡ [])
            × (self.old.wants.items ≡ []) }
        requires keys { (bucket_of self.old.bits from ≡ self.old.number)
            × (bucket_of other.old.bits to ≡ other.old.number) × (from ≢ to) }
        requires two { AreTwo self.old other.old }
        requires apart { AreApart from self.old.queues.waiters other.old.queues.waiters }
        ensures first { result.0 ≡ taken_by op
            (line from (self.old.queues.waiters ++ other.old.queues.waiters)) }
        ensures taken { MatchOption result.0 (self.new.taken.items ≡ [])
            (λ thread. self.new.taken.items ≡ thread ∷ [])
            × (self.new.rightless.items ≡ self.new.taken.items) }
        ensures wants { self.new.wants.items ≡ wants_of (taken_in_line op
            (line from (self.old.queues.waiters ++ other.old.queues.waiters))) }
        ensures number { (result.1 ≡ length (moved_by op
            (line from (self.old.queues.waiters ++ other.old.queues.waiters))))
            × (result.1 ≤ self.old.seats) }
        ensures lines { lines (self.new.queues.waiters ++ other.new.queues.waiters)
            ≡ lines (requeued op from to
            (self.old.queues.waiters ++ other.old.queues.waiters)) }
        ensures same { IsSameBucket self.old self.new }
        ensures other { TookSame other.old other.new × IsSameBucket other.old other.new }
    {
        match op {
            Requeue::One => {
                let moved = self.move_first(other, from, to);
                (None, usize::from(moved))
            }
            Requeue::All => (None, self.move_all(other, from, to)),
            Requeue::TakeOneMoveRest => {
                note_first_want(&self.queues, from, &mut self.wants);
                let first = self.queues.take_first(from);
                let moved = self.move_all(other, from, to);
                self.note_taken(first);
                (first, moved)
            }
        }
    }
}
