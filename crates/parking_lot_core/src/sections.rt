//! Sections, in which one thread at a time changes the queues of its keys.
//!
//! A section keeps the threads that it took in a list of its own, with the want of each, noted before
//! the take: a thread that hands a lock over to several gives each the right that it wants. The moved
//! are counted apart from the taken, since only the taken are woken; the record's number is the sum.
//! `Did` keeps the key of a take, since a section of two keys may take under either.
//!
//! The type of a lock says nothing of two locks together, so a section tests what is left, and the
//! tests never fail: that the bucket is the one asked for, that the number of seats is the lot's, and
//! that each waiter of two buckets is in one of them alone. A section of two buckets turns to the bucket
//! of the key under which it takes, by a swap of its guards.
ghost use Rattle.std.specs.Prelude.{◌≡◌, ◌≢◌, ◌<◌, ◌≤◌, ◌+◌, ◌++◌, ◌∷◌, ◌==◌, not, [], Some, Contains};
ghost use Rattle.std.specs.Prelude.{IfErr, IfOk, IsOk, ◌↔◌, MatchOption, length, slice_index, take, true};
ghost use Rattle.std.specs.List.{filter};
ghost use Rattle.std.specs.Sync.Mutex.{mutex_guard_value};
ghost use Rattle.core_base.specs.Lines.{waiter, line, lines, without, without_first, without_key, first_of};
ghost use Rattle.core_base.specs.Lines.{threads_of, queued_under};
ghost use Rattle.core_base.specs.Picks.{lock_picked, without_lock_picked};
ghost use Rattle.core_base.specs.Requeues.{taken_by, moved_by, requeued};
ghost use Rattle.core_queues.specs.Wants.{wants_of, taken_in_line};
ghost use Rattle.core_queues.specs.Chains.{bucket_of};
ghost use Rattle.core_queues.specs.Buckets.{HasNone};
ghost use Rattle.parking_lot_core.specs.Keys.{IsKeyOf, first_key};
ghost use Rattle.std.specs.Option.{ForNone, ForSome};
ghost use Rattle.parking_lot_core.specs.Pairs.{AreApartAt, AreBuckets, HasOneBucket, IsBegun};
ghost use Rattle.parking_lot_core.specs.declared.tokens.Did.TheVariants.{Nothing, TakeFirst, TakeAll};
ghost use Rattle.parking_lot_core.specs.declared.tokens.Did.TheVariants.{TakePicked};
ghost use Rattle.parking_lot_core.specs.declared.tellings.Telling.TheVariants.{Counted, Left, Stood, Took};

use crate::expected::Expected;
use crate::lot::ParkingLot;
use crate::places::QueuePlace;
use crate::step_counts::StepCount;
use crate::tellings::{Telling, Tellings, tell_taken};
use crate::tokens::{Did, SectionRecord, Token};
use core_base::{Key, Keys, Note, Requeue, Want};
use core_queues::SectionQueues;
use core_words::{Owner, Right, Word};
use std::mem::swap;
use std::sync::{MutexGuard, Wait};

/// The right of a thread to the queues of its keys, while no other thread does anything to them.
///
/// A section takes or moves waiters by one call at most, and wakes those that it took as it leaves.
/// It has to be left: it can't be dropped.
pub struct Section<'a> {
    pub(crate) lot: &'a ParkingLot,
    // The bucket of a key: of the one of which it takes or moves waiters, once it did so.
    pub(crate) first: MutexGuard<'a, SectionQueues>,
    // The bucket of the other key, where it is another.
    pub(crate) other: Option<MutexGuard<'a, SectionQueues>>,
    pub(crate) keys: Keys,
    // The thread that is inside.
    pub(crate) thread: usize,
    // How many steps on words that thread had taken as it entered.
    pub(crate) since: StepCount,
    pub(crate) did: Did,
    // How many it moved to another queue.
    pub(crate) moved: usize,
    // What it has told its thread.
    pub(crate) told: Tellings,
    ghost seated: { ((mutex_guard_value first).seats ≡ lot.now.records.count)
        × ((mutex_guard_value first).bits < 64) },
    ghost alone: { ForNone other (HasOneBucket keys (mutex_guard_value first)) },
    ghost two: { ForSome other (λ guard.
        AreBuckets keys (mutex_guard_value first) (mutex_guard_value guard)) },
    ghost fresh: { did ≡ Nothing → IsBegun (mutex_guard_value first)
        × ForSome other (λ guard. IsBegun (mutex_guard_value guard)) × (moved ≡ 0) },
    ghost apart: { did ≡ Nothing → ForSome other (λ guard.
        AreApartAt keys (mutex_guard_value first) (mutex_guard_value guard)) },
    ghost few: { moved ≤ (mutex_guard_value first).seats },
    ghost each_wants: { length (mutex_guard_value first).wants.items
        ≡ length (mutex_guard_value first).taken.items },
}

/// A thread left a section with a token that had not entered it.
#[derive(Clone, Copy, Debug, PartialEq, Eq)]
pub struct WrongToken;

fn first_of_keys(keys: Keys) -> Key
    ensures { result ≡ first_key keys }
{
    match keys {
        Keys::One(key) => key,
        Keys::Two(from, _) => from,
    }
}

impl<'a> Section<'a> {
    ghost use Rattle.parking_lot_core.specs.Places.{IsPlaceOf, thread_of};
    ghost use Rattle.parking_lot_core.specs.Tokens.{IsTokenOf, IsSameThread, count_of, last_of, told_of};
    ghost use Rattle.parking_lot_core.specs.Sections.{others_in, IsUntouched};
    ghost use Rattle.parking_lot_core.specs.Sections.{waiting_in, taken_in, wants_in, rightless_in, moved_in};
    ghost use Rattle.parking_lot_core.specs.Sections.{told_in, visit_of, StaysIn, TookAs, MayNote};
    ghost use Rattle.parking_lot_core.specs.Tokens.{out_of, view_of};
    ghost use Rattle.parking_lot_core.specs.Giving.{owner_given_at, HasEach, less_each};
    ghost use Rattle.core_words.specs.Lots.{IsWordOf};
    ghost use Rattle.core_words.specs.Plays.{left_over};
    ghost use Rattle.core_words.specs.Rights.{named_by};
    ghost use Rattle.core_words.specs.RightsOf.{IsRightOf};
    ghost use Rattle.core_words.specs.Steps.{has};

    // Makes the bucket of a key the first. Nobody has been taken yet.
    fn turn_to(&mut self, key: Key)
        requires key { IsKeyOf self.old.keys key }
        requires first_take { self.old.did ≡ Nothing }
        ensures lines { lines (waiting_in self.new) ≡ lines (waiting_in self.old) }
        ensures here { bucket_of (mutex_guard_value self.new.first).bits key
            ≡ (mutex_guard_value self.new.first).number }
        ensures none { HasNone key (others_in self.new) }
        ensures same { StaysIn self.old self.new × IsUntouched self.new }
        ensures untold { told_in self.new ≡ told_in self.old }
    {
        if let Some(other) = &mut self.other {
            if other.holds(key) {
                swap(&mut self.first, other);
            }
        }
    }

    // Moves waiters from under a key of the first bucket.
    fn move_waiters(&mut self, from: Key, to: Key, op: Requeue) -> (Option<usize>, usize)
        requires keys { IsKeyOf self.old.keys from × IsKeyOf self.old.keys to × (from ≢ to) }
        requires first_take { self.old.did ≡ Nothing }
        requires here { bucket_of (mutex_guard_value self.old.first).bits from
            ≡ (mutex_guard_value self.old.first).number }
        ensures first { result.0 ≡ taken_by op (line from (waiting_in self.old)) }
        ensures taken { MatchOption result.0 (taken_in self.new ≡ [])
            (λ thread. taken_in self.new ≡ thread ∷ [])
            × (rightless_in self.new ≡ taken_in self.new) }
        ensures wants { wants_in self.new
            ≡ wants_of (taken_in_line op (line from (waiting_in self.old))) }
        ensures moved { (result.1 ≡ length (moved_by op (line from (waiting_in self.old))))
            × (moved_in self.new ≡ result.1) }
        ensures lines { lines (waiting_in self.new)
            ≡ lines (requeued op from to (waiting_in self.old)) }
        ensures did { StaysIn self.old self.new × (self.new.did ≡ Did.Requeue from to op) }
        ensures told { told_in self.new
            ≡ told_in self.old ++ Took (Did.Requeue from to op) (length (taken_in self.new)) result.1 ∷ [] }
    {
        self.did = Did::Requeue { from, to, op };
        match &mut self.other {
            Some(other) => {
                let (first, moved) = self.first.requeue_beside(other, from, to, op);
                self.moved = moved;
                tell_taken(&self.first, self.did, moved, &mut self.told);
                (first, moved)
            }
            None => {
                let (first, moved) = self.first.requeue(from, to, op);
                self.moved = moved;
                tell_taken(&self.first, self.did, moved, &mut self.told);
                (first, moved)
            }
        }
    }

    // Notes the key of each thread that stands under it.
    fn note_line(&self, key: Key) {
        if let Some(other) = &self.other {
            other.note_line(&self.lot.stands, key);
        }
        self.first.note_line(&self.lot.stands, key);
    }

    /// Puts a thread after the last under a key, and gives the place. One that stands somewhere in
    /// the buckets of the section leaves that place first. A thread that parks stands nowhere else.
    pub fn append(&mut self, key: Key, thread: usize, want: Want) -> QueuePlace<'a>
        requires key { IsKeyOf self.old.keys key }
        requires thread { thread < self.old.lot.now.records.count }
        ensures lines { lines (waiting_in self.new)
            ≡ lines (without thread (waiting_in self.old) ++ waiter key thread want ∷ []) }
        ensures place { IsPlaceOf self.old.lot.now thread result }
        ensures same { StaysIn self.old self.new × TookAs self.old self.new
            × (rightless_in self.new ≡ rightless_in self.old) }
        ensures told { told_in self.new ≡ told_in self.old ++ Stood key thread want ∷ [] }
    {
        let telling = Telling::Stood { key, thread, want };
        telling.tell(&mut self.told);
        match &mut self.other {
            Some(other) => self.first.append_beside(other, key, thread, want),
            None => self.first.append(key, thread, want),
        }
        self.lot.stands.note(thread, key);
        QueuePlace::new(self.lot, thread)
    }

    /// Removes a thread from where it stands. Its place is spent.
    pub fn remove(&mut self, place: QueuePlace)
        requires place { IsPlaceOf self.old.lot.now (thread_of place) place }
        ensures lines { lines (waiting_in self.new)
            ≡ lines (without (thread_of place.entry) (waiting_in self.old)) }
        ensures same { StaysIn self.old self.new × TookAs self.old self.new
            × (rightless_in self.new ≡ rightless_in self.old) }
        ensures told { told_in self.new ≡ told_in self.old ++ Left (thread_of place.entry) ∷ [] }
    {
        let thread = place.thread();
        let telling = Telling::Left { thread };
        telling.tell(&mut self.told);
        match &mut self.other {
            Some(other) => self.first.remove_beside(other, thread),
            None => self.first.remove(thread),
        }
    }

    /// Takes the first under a key.
    pub fn take_first(&mut self, key: Key) -> Option<usize>
        requires key { IsKeyOf self.old.keys key }
        requires first_take { self.old.did ≡ Nothing }
        ensures first { result ≡ first_of (line key (waiting_in self.old)) }
        ensures taken { MatchOption result (taken_in self.new ≡ [])
            (λ thread. taken_in self.new ≡ thread ∷ [])
            × (rightless_in self.new ≡ taken_in self.new) }
        ensures wants { wants_in self.new ≡ wants_of (take 1 (line key (waiting_in self.old))) }
        ensures lines { lines (waiting_in self.new)
            ≡ lines (without_first key (waiting_in self.old)) }
        ensures did { StaysIn self.old self.new × (self.new.did ≡ TakeFirst key)
            × (moved_in self.new ≡ 0) }
        ensures told { told_in self.new
            ≡ told_in self.old ++ Took (TakeFirst key) (length (taken_in self.new)) 0 ∷ [] }
    {
        self.turn_to(key);
        self.did = Did::TakeFirst(key);
        let first = self.first.take_first(key);
        tell_taken(&self.first, self.did, 0, &mut self.told);
        first
    }

    /// Takes all under a key.
    pub fn take_all(&mut self, key: Key)
        requires key { IsKeyOf self.old.keys key }
        requires first_take { self.old.did ≡ Nothing }
        ensures taken { (taken_in self.new ≡ threads_of (line key (waiting_in self.old)))
            × (rightless_in self.new ≡ taken_in self.new) }
        ensures wants { wants_in self.new ≡ wants_of (line key (waiting_in self.old)) }
        ensures lines { lines (waiting_in self.new)
            ≡ lines (without_key key (waiting_in self.old)) }
        ensures did { StaysIn self.old self.new × (self.new.did ≡ TakeAll key)
            × (moved_in self.new ≡ 0) }
        ensures told { told_in self.new
            ≡ told_in self.old ++ Took (TakeAll key) (length (taken_in self.new)) 0 ∷ [] }
    {
        self.turn_to(key);
        self.did = Did::TakeAll(key);
        self.first.take_all(key);
        tell_taken(&self.first, self.did, 0, &mut self.told);
    }

    /// Takes the waiters that are picked of the main queue of a reader-writer lock. The thread
    /// keeps a right of its own, or none.
    pub fn take_picked(&mut self, key: Key, start: Option<Want>, recursive: bool)
        requires key { IsKeyOf self.old.keys key }
        requires first_take { self.old.did ≡ Nothing }
        ensures taken { (taken_in self.new
            ≡ threads_of (lock_picked start recursive (line key (waiting_in self.old))))
            × (rightless_in self.new ≡ taken_in self.new) }
        ensures wants { wants_in self.new
            ≡ wants_of (lock_picked start recursive (line key (waiting_in self.old))) }
        ensures lines { lines (waiting_in self.new)
            ≡ lines (without_lock_picked start recursive key (waiting_in self.old)) }
        ensures did { StaysIn self.old self.new × (self.new.did ≡ TakePicked key start recursive)
            × (moved_in self.new ≡ 0) }
        ensures told { told_in self.new
            ≡ told_in self.old ++ Took (TakePicked key start recursive) (length (taken_in self.new)) 0 ∷ [] }
    {
        self.turn_to(key);
        self.did = Did::TakePicked {
            key,
            start,
            recursive,
        };
        self.first.take_picked(key, start, recursive);
        tell_taken(&self.first, self.did, 0, &mut self.told);
    }

    /// Moves waiters from under one of its keys after the last under the other. Those that are
    /// moved want to own alone from then on. Returns the thread that was taken, if any, and how
    /// many were moved.
    pub fn requeue(&mut self, from: Key, to: Key, op: Requeue) -> (Option<usize>, usize)
        requires keys { IsKeyOf self.old.keys from × IsKeyOf self.old.keys to × (from ≢ to) }
        requires first_take { self.old.did ≡ Nothing }
        ensures first { result.0 ≡ taken_by op (line from (waiting_in self.old)) }
        ensures taken { MatchOption result.0 (taken_in self.new ≡ [])
            (λ thread. taken_in self.new ≡ thread ∷ [])
            × (rightless_in self.new ≡ taken_in self.new) }
        ensures wants { wants_in self.new
            ≡ wants_of (taken_in_line op (line from (waiting_in self.old))) }
        ensures moved { (result.1 ≡ length (moved_by op (line from (waiting_in self.old))))
            × (moved_in self.new ≡ result.1) }
        ensures lines { lines (waiting_in self.new)
            ≡ lines (requeued op from to (waiting_in self.old)) }
        ensures did { StaysIn self.old self.new × (self.new.did ≡ Did.Requeue from to op) }
        ensures told { told_in self.new
            ≡ told_in self.old ++ Took (Did.Requeue from to op) (length (taken_in self.new)) result.1 ∷ [] }
    {
        self.turn_to(from);
        let (first, moved) = self.move_waiters(from, to, op);
        self.note_line(to);
        (first, moved)
    }

    /// Returns how many stand under a key.
    pub fn count(&self, key: Key) -> usize
        requires { IsKeyOf self.now.keys key }
        ensures { result ≡ length (line key (waiting_in self.now)) }
    {
        match &self.other {
            Some(other) => self.first.count_beside(other, key),
            None => self.first.count(key),
        }
    }

    /// Counts those under a key, and tells the thread.
    pub fn tell_count(&mut self, key: Key) -> usize
        requires { IsKeyOf self.old.keys key }
        ensures count { result ≡ length (line key (waiting_in self.old)) }
        ensures told { told_in self.new ≡ told_in self.old ++ Counted key result ∷ [] }
        ensures same { StaysIn self.old self.new × TookAs self.old self.new
            × (rightless_in self.new ≡ rightless_in self.old)
            × (waiting_in self.new ≡ waiting_in self.old) }
    {
        let number = self.count(key);
        let telling = Telling::Counted { key, number };
        telling.tell(&mut self.told);
        number
    }

    /// Returns the key under which a thread stands.
    pub fn key_of(&self, thread: usize) -> Option<Key>
        ensures { result ≡ queued_under thread (waiting_in self.now) }
    {
        match &self.other {
            Some(other) => self.first.key_beside(other, thread),
            None => self.first.key_of(thread),
        }
    }

    /// Returns the threads that the section took, in order.
    pub fn taken(&self) -> &[usize]
        ensures { result.now ≡ taken_in self.now }
    {
        self.first.taken()
    }

    /// Returns the want of each of them, in the same order. By these a thread that hands a lock
    /// over to several gives each the right that it wants.
    pub fn wants(&self) -> &[Want]
        ensures { result.now ≡ wants_in self.now }
    {
        self.first.wants()
    }

    /// Returns the threads that it took and that have no right yet, in order.
    pub fn rightless(&self) -> &[usize]
        ensures { result.now ≡ rightless_in self.now }
    {
        self.first.rightless()
    }

    /// Returns how many it took and moved.
    pub fn number(&self) -> usize
        ensures { result ≡ length (taken_in self.now) + moved_in self.now }
    {
        self.first.taken().len() + self.moved
    }

    /// Lays a right in the record of a thread that the section took. A right that lies there
    /// already goes with the lot.
    pub fn give<R: Wait>(&mut self, rt: &R, thread: usize, right: Right)
        requires taken { Contains (taken_in self.old) thread }
        requires right { IsRightOf self.old.lot.now.words right }
        ensures rightless { rightless_in self.new
            ≡ filter (λ x. not (x == thread)) (rightless_in self.old) }
        ensures same { StaysIn self.old self.new × TookAs self.old self.new
            × (waiting_in self.new ≡ waiting_in self.old) }
        ensures untold { told_in self.new ≡ told_in self.old }
    {
        self.lay(rt, thread, right);
    }

    /// Gives a right to the first that has none yet. Returns which.
    pub fn give_next<R: Wait>(&mut self, rt: &R, right: Right) -> usize
        requires some { 0 < length (rightless_in self.old) }
        requires right { IsRightOf self.old.lot.now.words right }
        ensures first { result ≡ slice_index (rightless_in self.old) 0 }
        ensures rightless { rightless_in self.new
            ≡ filter (λ x. not (x == result)) (rightless_in self.old) }
        ensures same { StaysIn self.old self.new × TookAs self.old self.new
            × (waiting_in self.new ≡ waiting_in self.old) }
        ensures untold { told_in self.new ≡ told_in self.old }
    {
        let thread = self.first.rightless()[0];
        self.lay(rt, thread, right);
        thread
    }

    fn lay<R: Wait>(&mut self, rt: &R, thread: usize, right: Right)
        requires { IsRightOf self.old.lot.now.words right }
        ensures rightless { rightless_in self.new
            ≡ filter (λ x. not (x == thread)) (rightless_in self.old) }
        ensures same { StaysIn self.old self.new × TookAs self.old self.new
            × (waiting_in self.new ≡ waiting_in self.old) }
        ensures untold { told_in self.new ≡ told_in self.old }
    {
        self.lot.lay(rt, thread, right);
        self.first.note_right(thread);
    }

    /// Gives the thread at a place among those that the section took its right to a lock, by what
    /// it wants and by the value at which the word of the lock is left. The right is split off the
    /// token.
    pub fn give_wanted<R: Wait>(
        &mut self,
        rt: &R,
        token: &mut Token,
        word: Word,
        left: u64,
        place: usize,
    )
        requires own { IsTokenOf self.old.lot.now token.old × IsWordOf self.old.lot.now.words word }
        requires place { place < length (taken_in self.old) }
        requires named { has (named_by word (owner_given_at word left (wants_in self.old) place))
            (view_of token.old).owns ≡ true }
        ensures own { IsSameThread self.old.lot.now token.old token.new
            × (last_of token.new ≡ last_of token.old) }
        ensures token { told_of token.new ≡ told_of token.old }
        ensures left { view_of token.new
            ≡ left_over (named_by word (owner_given_at word left (wants_in self.old) place))
            (view_of token.old) }
        ensures rightless { rightless_in self.new ≡ filter
            (λ x. not (x == slice_index (taken_in self.old) place)) (rightless_in self.old) }
        ensures same { StaysIn self.old self.new × TookAs self.old self.new
            × (waiting_in self.new ≡ waiting_in self.old) }
        ensures untold { told_in self.new ≡ told_in self.old }
    {
        let owner = Owner::given(word.kind(), left, self.first.wants()[place]);
        let right = self.lot.split_owner(token, word, owner);
        let thread = self.first.taken()[place];
        self.lay(rt, thread, right);
    }

    /// Gives each that the section took its right to a lock, by what it wants and by the value at
    /// which the word of the lock is left. The rights are split off the token.
    pub fn give_each<R: Wait>(&mut self, rt: &R, token: &mut Token, word: Word, left: u64)
        requires own { IsTokenOf self.old.lot.now token.old × IsWordOf self.old.lot.now.words word }
        requires named { HasEach word left (wants_in self.old) (view_of token.old).owns }
        requires ungiven { rightless_in self.old ≡ taken_in self.old }
        ensures own { IsSameThread self.old.lot.now token.old token.new
            × (last_of token.new ≡ last_of token.old) }
        ensures token { told_of token.new ≡ told_of token.old }
        ensures left { view_of token.new
            ≡ less_each word left (wants_in self.old) (view_of token.old) }
        ensures given { rightless_in self.new ≡ [] }
        ensures same { StaysIn self.old self.new × TookAs self.old self.new
            × (waiting_in self.new ≡ waiting_in self.old) }
        ensures untold { told_in self.new ≡ told_in self.old }
    {
        for place in 0..self.first.taken().len() {
            self.give_wanted(rt, token, word, left, place);
        }
    }

    /// Leaves a section in which nothing was done. The token keeps no record of it.
    pub fn shut(self)
        requires { (self.did ≡ Nothing) × (told_in self ≡ []) }
    {
        let Section {
            lot,
            first,
            other,
            keys: _,
            thread: _,
            since: _,
            did: _,
            moved: _,
            told: _,
        } = self;
        drop(other);
        drop(first);
        lot.leaves();
    }

    /// Leaves, with the token that entered. The threads that the section took get the note and are
    /// woken, and the token keeps the record of the section and of the visit.
    ///
    /// # Errors
    ///
    /// `WrongToken`, with another token, which keeps no record. The threads are woken then, too.
    #[tactic(auto, unfolding(crate::specs::Tokens::view_of))]
    pub fn leave<R: Wait>(self, rt: &R, token: &mut Token, note: Note) -> Result<(), WrongToken>
        requires own { IsTokenOf self.lot.now token.old }
        requires note { MayNote note (taken_in self) (rightless_in self) }
        ensures own { IsSameThread self.entry.lot.now token.old token.new
            × (view_of token.new ≡ view_of token.old) × (out_of token.new ≡ out_of token.old) }
        ensures thread { IsOk result ↔ self.entry.thread ≡ token.old.number }
        ensures wrong { IfErr result (λ _. token.new ≡ token.old) }
        ensures told { IfOk result (λ _. told_of token.new ≡ told_of token.old
            ++ (told_in self.entry ++ visit_of self.entry (count_of token.old) note ∷ [])) }
        ensures recorded { IfOk result (λ _. last_of token.new
            ≡ Some (record {
              key = first_key self.entry.keys;
              did = self.entry.did;
              number = length (taken_in self.entry) + moved_in self.entry;
            })) }
    {
        let Section {
            lot,
            first,
            other,
            keys,
            thread,
            since,
            did,
            moved,
            told,
        } = self;
        let taken = first.taken().len();
        let woken = lot.tie(first.taken());
        drop(other);
        drop(first);
        if let Some(woken) = woken {
            lot.wake_tied(rt, woken, taken, note);
        }
        lot.leaves();
        if thread != token.number {
            return Err(WrongToken);
        }
        token.record = SectionRecord {
            key: first_of_keys(keys),
            did,
            number: taken + moved,
        };
        token.expected = Expected::recording(token.expected.directed);
        told.pass_on(&mut token.told);
        let to = token.step_count();
        let visited = Telling::Visited {
            keys,
            from: since,
            to,
            note,
        };
        visited.tell(&mut token.told);
        Ok(())
    }
}
