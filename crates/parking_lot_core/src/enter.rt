//! How threads enter sections.
//!
//! A section has the lock of its key's bucket, or those of two buckets. A thread that is inside one
//! and enters another of the same bucket waits for itself.
//!
//! No two threads wait for one another here: the lock of a bucket is taken before that of a record,
//! and that of a lower bucket before that of a higher one.
//!
//! A thread that finds another inside a section tries the bucket's lock forty times, with twelve rounds
//! of a pause between, for five microseconds, before it sleeps in the kernel. While one thread sleeps
//! there the others sleep at once, and each thread that leaves calls the kernel.
ghost use Rattle.std.specs.Prelude.{ℕ, ◌≡◌, ◌⊎◌, ◌<◌, None, [], length};
ghost use Rattle.std.specs.Sync.Mutex.{mutex_guard_value};
ghost use Rattle.core_base.specs.Lines.{line};
ghost use Rattle.core_queues.specs.Buckets.{AreApart};
ghost use Rattle.core_queues.specs.Chains.{bucket_of};
ghost use Rattle.core_queues.specs.Places.{IsSameBucket};
ghost use Rattle.parking_lot_core.specs.Keys.{AreKeys, IsKeyOf};
ghost use Rattle.parking_lot_core.specs.Pairs.{IsBegun};
ghost use Rattle.core_base.specs.declared.keys.Keys.TheVariants.{Two};

use crate::lot::ParkingLot;
use crate::pauses::pause;
use crate::sections::Section;
use crate::tellings::Tellings;
use crate::tokens::{Did, Token};
use core_base::{Key, Keys};
use core_queues::{SectionQueues, bucket_among};
use std::sync::{Mutex, MutexGuard, Wait};

// How often a thread tries to enter a section before it sleeps until it may, and for how many
// rounds it pauses after a try: in all 5 microseconds, where a round takes 11 nanoseconds. Several
// sections take no longer, unless their threads do not run. The lock then spins for a microsecond
// more and parks; neither yields.
const TRIES: u32 = 40;

const PAUSE: u32 = 12;

// A lock keeps what its type tells alone, so a fact about its lot is tested. The test never fails.
fn hang_forever<R: Wait>(rt: &R) -> ! {
    for _ in rt.forever() {}
    unreachable!()
}

// Takes the lock of a bucket, unless others have it all the while. A section is short, so that falling
// asleep for one mostly takes longer than the wait, and costs the thread that is inside as well, which
// has to wake the sleeper.
fn try_queues(lock: &Mutex<SectionQueues>) -> Option<MutexGuard<'_, SectionQueues>> {
    for _ in 0..TRIES {
        if let Some(section_queues) = lock.try_lock() {
            return Some(section_queues);
        }
        pause(PAUSE);
    }
    None
}

// Finds a thread that stands under one of two keys and in the other's bucket as well.
fn doubled(
    low: Key,
    high: Key,
    first: &mut SectionQueues,
    other: &mut SectionQueues,
) -> Option<usize>
    requires { IsBegun first.old × IsBegun other.old }
    ensures apart { result ≡ None
        → AreApart low first.new.queues.waiters other.new.queues.waiters
        × AreApart high other.new.queues.waiters first.new.queues.waiters }
    ensures same { IsSameBucket first.old first.new × IsSameBucket other.old other.new }
    ensures begun { IsBegun first.new × IsBegun other.new }
{
    match first.doubled(low, other) {
        Some(thread) => Some(thread),
        None => other.doubled(high, first),
    }
}

impl ParkingLot {
    ghost use Rattle.parking_lot_core.specs.Sections.{IsUntouched, told_in};
    ghost use Rattle.parking_lot_core.specs.Tokens.{IsTokenOf, IsSameThread, count_of};

    // Returns the bucket of a key.
    fn bucket(&self, key: Key) -> usize
        ensures { (result ≡ bucket_of self.now.bits key) × (result < length self.now.buckets.items) }
    {
        bucket_among(self.bits, key)
    }

    // Returns the queues of a bucket, with nobody taken.
    fn queues<'a, R: Wait>(&'a self, rt: &R, bucket: usize) -> MutexGuard<'a, SectionQueues>
        requires { bucket < length self.now.buckets.items }
        ensures place { ((mutex_guard_value result).number ≡ bucket)
            × ((mutex_guard_value result).bits ≡ self.now.bits)
            × ((mutex_guard_value result).seats ≡ self.now.records.count) }
        ensures begun { IsBegun (mutex_guard_value result) }
    {
        let lock = &self.buckets[bucket];
        let mut section_queues = match try_queues(lock) {
            Some(section_queues) => section_queues,
            None => lock.lock(rt),
        };
        section_queues.begin();
        if section_queues.place() != (bucket, self.bits, self.records.len()) {
            hang_forever(rt)
        }
        section_queues
    }

    // Returns the queues of a bucket, for a thread that has those of a lower one.
    fn queues_above<'a, R: Wait>(
        &'a self,
        rt: &R,
        lower: &SectionQueues,
        bucket: usize,
    ) -> MutexGuard<'a, SectionQueues>
        requires within { bucket < length self.now.buckets.items }
        requires above { lower.now.number < bucket }
        ensures place { ((mutex_guard_value result).number ≡ bucket)
            × ((mutex_guard_value result).bits ≡ self.now.bits)
            × ((mutex_guard_value result).seats ≡ self.now.records.count) }
        ensures begun { IsBegun (mutex_guard_value result) }
    {
        let _ = lower;
        self.queues(rt, bucket)
    }

    // Takes a thread that stands in two buckets out of the one where it stood before: the section that
    // put it into the other hadn't this one.
    fn leave_older(&self, thread: usize, first: &mut SectionQueues, other: &mut SectionQueues)
        requires { IsBegun first.old × IsBegun other.old }
        ensures same { IsSameBucket first.old first.new × IsSameBucket other.old other.new }
        ensures begun { IsBegun first.new × IsBegun other.new }
    {
        if first.key_of(thread) == Some(self.stands.key(thread)) {
            other.remove(thread);
        } else {
            first.remove(thread);
        }
    }

    // Sees to it that nobody under one of two keys stands in both buckets.
    fn part<R: Wait>(
        &self,
        rt: &R,
        keys: (Key, Key),
        first: &mut SectionQueues,
        other: &mut SectionQueues,
    )
        requires { IsBegun first.old × IsBegun other.old }
        ensures same { IsSameBucket first.old first.new × IsSameBucket other.old other.new }
        ensures begun { IsBegun first.new × IsBegun other.new }
        ensures apart { AreApart keys.0 first.new.queues.waiters other.new.queues.waiters
            × AreApart keys.1 other.new.queues.waiters first.new.queues.waiters }
    {
        for _ in rt.forever() {
            match doubled(keys.0, keys.1, first, other) {
                Some(thread) => self.leave_older(thread, first, other),
                None => return,
            }
        }
        unreachable!()
    }

    // Returns the section of keys that have one bucket.
    fn enter_one<'a, R: Wait>(
        &'a self,
        rt: &R,
        token: &Token,
        keys: Keys,
        bucket: usize,
    ) -> Section<'a>
        requires bucket { bucket < length self.now.buckets.items }
        requires keys { (key : ℕ) → IsKeyOf keys key → bucket_of self.now.bits key ≡ bucket }
        ensures { (result.lot.now ≡ self.now) × (result.keys ≡ keys) × IsUntouched result
            × (result.thread ≡ token.now.number) × (result.since ≡ count_of token.now)
            × (told_in result ≡ []) }
    {
        Section {
            lot: self,
            first: self.queues(rt, bucket),
            other: None,
            keys,
            thread: token.number,
            since: token.step_count(),
            did: Did::Nothing,
            moved: 0,
            told: Tellings::new(),
        }
    }

    // Returns the section of two keys that have two buckets, of which the first key has the lower.
    fn enter_two<'a, R: Wait>(
        &'a self,
        rt: &R,
        token: &Token,
        keys: Keys,
        low: Key,
        high: Key,
    ) -> Section<'a>
        requires keys { (key : ℕ) → IsKeyOf keys key → (key ≡ low) ⊎ (key ≡ high) }
        requires order { bucket_of self.now.bits low < bucket_of self.now.bits high }
        ensures { (result.lot.now ≡ self.now) × (result.keys ≡ keys) × IsUntouched result
            × (result.thread ≡ token.now.number) × (result.since ≡ count_of token.now)
            × (told_in result ≡ []) }
    {
        let mut first = self.queues(rt, self.bucket(low));
        let mut other = self.queues_above(rt, &first, self.bucket(high));
        self.part(rt, (low, high), &mut first, &mut other);
        Section {
            lot: self,
            first,
            other: Some(other),
            keys,
            thread: token.number,
            since: token.step_count(),
            did: Did::Nothing,
            moved: 0,
            told: Tellings::new(),
        }
    }

    // Returns the section of some keys, for a thread.
    pub(crate) fn locked<'a, R: Wait>(&'a self, rt: &R, token: &Token, keys: Keys) -> Section<'a>
        ensures { (result.lot.now ≡ self.now) × (result.keys ≡ keys) × IsUntouched result
            × (result.thread ≡ token.now.number) × (result.since ≡ count_of token.now)
            × (told_in result ≡ []) }
    {
        self.enters();
        match keys {
            Keys::One(key) => self.enter_one(rt, token, keys, self.bucket(key)),
            Keys::Two(from, to) => {
                let one = self.bucket(from);
                let other = self.bucket(to);
                if one == other {
                    self.enter_one(rt, token, keys, one)
                } else if one < other {
                    self.enter_two(rt, token, keys, from, to)
                } else {
                    self.enter_two(rt, token, keys, to, from)
                }
            }
        }
    }

    /// Enters the section of a key, or of two keys that differ, and waits while another thread is
    /// inside one of the same bucket.
    pub fn enter<'a, R: Wait>(&'a self, rt: &R, token: &mut Token, keys: Keys) -> Section<'a>
        requires own { IsTokenOf self.now token.old }
        requires keys { AreKeys keys }
        ensures same { token.new ≡ token.old }
        ensures section { (result.lot.now ≡ self.now) × (result.keys ≡ keys) × IsUntouched result }
        ensures thread { result.thread ≡ token.old.number }
        ensures since { result.since ≡ count_of token.old }
        ensures untold { told_in result ≡ [] }
    {
        self.turn_to_enter(rt, token.number, keys);
        self.locked(rt, token, keys)
    }

    /// Returns how many stand under a key.
    pub fn queued<R: Wait>(&self, rt: &R, token: &mut Token, key: Key) -> usize
        requires { IsTokenOf self.now token.old }
        ensures { token.new ≡ token.old }
    {
        let section = self.enter(rt, token, Keys::One(key));
        let number = section.count(key);
        section.shut();
        number
    }
}
