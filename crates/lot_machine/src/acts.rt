//! Each act of a thread of the machine, exactly.
ghost use Rattle.std.specs.Prelude.{◌≡◌, ◌≢◌, ◌==◌, ◌<◌, ◌≤◌, ◌+◌, ◌++◌, vec_len, vec_capacity};
ghost use Rattle.std.specs.Prelude.{IfSome, length, sum, slice_set, if◌then◌else◌};
ghost use Rattle.steps_base.specs.Acts.{holds, takes_effect};
ghost use Rattle.core_base.specs.Lines.{first_of, line, threads_of};
ghost use Rattle.lot_machine.specs.Machine.{queue_at, queues_with_last, queues_without_first};
ghost use Rattle.lot_machine.specs.Machine.{queues_without, place_at, word_at, with_word};
ghost use Rattle.lot_machine.specs.Machine.{state_after_operation, section_is_free, are_free};
ghost use Rattle.lot_machine.specs.Machine.{state_with_sections, state_after_park};
ghost use Rattle.lot_machine.specs.Machine.{state_after_take_first, state_after_take};
ghost use Rattle.lot_machine.specs.Machine.{state_after_requeue, state_after_reply, listed};
ghost use Rattle.lot_machine.specs.Machine.{want_of_successor, shares_with, owners_of_successor};
ghost use Rattle.lot_machine.specs.Machine.{shares_handed_over, state_after_telling};
ghost use Rattle.lot_machine.specs.Machine.{state_after_leave, state_after_act, can_do, reply_to};
ghost use Rattle.lot_machine.specs.Machine.{after};
ghost use Rattle.lot_machine.specs.Fits.{ActFits, KeysFit};

use crate::hands::{
    find_successor, keep_moved, one_if_some, sharers, tell_each, tell_one, tell_taken,
    want_of_successor,
};
use crate::locks::{Lock, is_full};
use crate::machine::Machine;
use crate::shares::{give_shares, nobody_shares, owners_of_successor, set_share_in};
use core_base::{Key, Keys, LockPicker, Queues, Requeue, Want};
use lot_steps::{Act, Check, Op, Owners, Reply, TakeWhich, Wakes};
use steps_base::takes_effect;

/// Lists the waiters under a key.
fn list_line<Q: Queues>(queues: &Q, key: Key, out: &mut Vec<usize>)
    requires { vec_len out.old + Q.capacity queues.now ≤ vec_capacity out.old }
    ensures listed { out.new.items ≡ out.old.items ++ threads_of (line key (Q.waiting queues.now)) }
    ensures room { vec_capacity out.new ≡ vec_capacity out.old }
{
    let mut place = 0;
    while let Some((waiter, afterwards)) = queues.find(key, place) {
        out.push_reserved(waiter.thread);
        place = afterwards;
    }
}

impl<Q: Queues + Drop> Machine<Q> {
    /// Gives a lock a word and owners.
    fn set_word(&mut self, lock: usize, word: u64, owners: Owners)
        requires { lock < length self.old.locks }
        ensures { self.new ≡ with_word self.old lock word owners }
    {
        let Lock { kind, filled, .. } = self.locks[lock];
        self.locks[lock] = Lock {
            kind,
            word,
            owners,
            filled: filled || is_full(kind, word),
        };
    }

    /// Does one operation on one word. Returns the value before.
    fn operate(&mut self, thread: usize, lock: usize, op: Op) -> u64
        requires thread { thread < length self.old.places }
        requires lock { lock < length self.old.locks }
        ensures value { result ≡ word_at self.old lock }
        ensures state { self.new
            ≡ state_after_operation self.old thread (place_at self.old thread) lock op }
    {
        let Lock { word, owners, .. } = self.locks[lock];
        let shares = self.share(lock, thread);
        let shares = self.places[thread].shares_after(word, shares);
        let owners = self.places[thread].owners_after(thread, word, owners);
        self.set_word(lock, op.apply(word), owners);
        self.set_share(lock, thread, shares);
        word
    }

    /// Another number of them, where it changes.
    fn set_share(&mut self, lock: usize, thread: usize, number: Option<usize>)
        requires { lock < length self.old.locks }
        ensures { self.new ≡ record self.old { shares = shares_with self.old lock thread number } }
    {
        if let Some(number) = number {
            let shares = &mut self.shares[lock];
            set_share_in(shares.as_mut_slice(), thread, number);
        }
    }

    /// Does one operation on one word. Where it takes effect, all that the thread has taken own,
    /// each by what it wants. Returns the value before.
    fn hand_over(&mut self, thread: usize, lock: usize, op: Op) -> u64
        requires thread { thread < length self.old.places }
        requires lock { lock < length self.old.locks }
        ensures value { result ≡ word_at self.old lock }
        ensures state { self.new
            ≡ state_after_act self.old thread (place_at self.old thread) (Act.HandOver lock op) }
    {
        let Lock { word, owners, .. } = self.locks[lock];
        if !takes_effect(op, word) {
            return self.operate(thread, lock, op);
        }
        let keeps = self.places[thread].owners_after(thread, word, owners);
        let successor = find_successor(self.places.as_slice(), thread);
        let unshared = self.share_out(lock, thread);
        self.set_word(
            lock,
            op.apply(word),
            owners_of_successor(unshared, successor, keeps),
        );
        self.tell_all(
            thread,
            Reply::HandedBy {
                by: thread,
                alone: unshared,
            },
        );
        word
    }

    /// Gives a right to each that a thread has in hand and that wants to share. Whether nobody
    /// shares then.
    fn share_out(&mut self, lock: usize, thread: usize) -> bool
        requires { lock < length self.old.locks }
        ensures unshared { result ≡ (sum (shares_handed_over self.old thread lock) == 0) }
        ensures state { self.new ≡ record self.old {
          shares = slice_set self.old.shares lock (shares_handed_over self.old thread lock);
        } }
    {
        let shares = &mut self.shares[lock];
        give_shares(shares.as_mut_slice(), self.places.as_slice(), thread);
        nobody_shares(shares.as_slice())
    }

    /// Tells something to all that a thread has in hand.
    fn tell_all(&mut self, thread: usize, reply: Reply)
        ensures { self.new ≡ state_after_telling self.old thread reply }
    {
        tell_taken(self.places.as_mut_slice(), thread, reply);
    }

    /// Returns whether nobody is inside a section.
    pub(crate) fn is_free(&self, key: Key) -> bool
        requires { key < length self.now.sections }
        ensures { result ≡ section_is_free self.now key }
    {
        self.sections[key].is_none()
    }

    /// Returns whether nobody is inside any of the sections.
    fn are_free(&self, keys: Keys) -> bool
        requires { KeysFit (length self.now.sections) keys }
        ensures { result ≡ are_free self.now keys }
    {
        match keys {
            Keys::One(key) => self.is_free(key),
            Keys::Two(first, second) => self.is_free(first) && self.is_free(second),
        }
    }

    /// Says which thread is inside the sections.
    pub(crate) fn fill(&mut self, keys: Keys, thread: Option<usize>)
        requires { KeysFit (length self.old.sections) keys }
        ensures { self.new ≡ state_with_sections self.old keys thread }
    {
        match keys {
            Keys::One(key) => self.sections[key] = thread,
            Keys::Two(first, second) => {
                self.sections[first] = thread;
                self.sections[second] = thread;
            }
        }
    }

    /// Enters the sections, where all of them are free.
    fn enter(&mut self, thread: usize, keys: Keys) -> Option<Reply>
        requires { KeysFit (length self.old.sections) keys }
        ensures reply { result ≡ (if are_free self.old keys then Some Reply.Done else None) }
        ensures state { self.new
            ≡ (if are_free self.old keys then state_with_sections self.old keys (Some thread)
            else self.old) }
    {
        if !self.are_free(keys) {
            return None;
        }
        self.fill(keys, Some(thread));
        Some(Reply::Done)
    }

    /// Stands after the last of a queue, where the check holds.
    fn park(&mut self, thread: usize, lock: usize, key: Key, check: Check, want: Want) -> bool
        requires thread { thread < length self.old.places }
        requires lock { lock < length self.old.locks }
        requires key { key < length self.old.sections }
        ensures reply { result ≡ holds check (word_at self.old lock) }
        ensures state { self.new ≡ state_after_park self.old thread lock key check want }
    {
        if !check.holds(self.locks[lock].word) {
            return false;
        }
        self.append(key, thread, want);
        true
    }

    /// Puts a thread after the last of a queue.
    pub(crate) fn append(&mut self, key: Key, thread: usize, want: Want)
        requires thread { thread < length self.old.places }
        requires key { key < length self.old.sections }
        ensures { self.new
            ≡ record self.old { queues = queues_with_last self.old.queues key thread want } }
    {
        self.queues.append(key, thread, want);
    }

    /// The first of a queue leaves it.
    fn take_from(&mut self, key: Key) -> Option<usize>
        requires { key < length self.old.sections }
        ensures first { result ≡ first_of (queue_at self.old key) }
        ensures seated { IfSome result (λ waiter. waiter < length self.old.places) }
        ensures state { self.new
            ≡ record self.old { queues = queues_without_first self.old.queues key } }
    {
        self.queues.take_first(key)
    }

    /// Returns whether nobody stands in a queue.
    fn is_empty(&self, key: Key) -> bool
        requires { key < length self.now.sections }
        ensures { result ≡ (length (queue_at self.now key) == 0) }
    {
        self.queues.count(key) == 0
    }

    /// Takes waiters of a queue.
    fn take(&mut self, thread: usize, key: Key, whom: TakeWhich) -> Reply
        requires { key < length self.old.sections }
        ensures reply { result ≡ reply_to self.old thread (Act.Take key whom) }
        ensures state { self.new ≡ state_after_take self.old thread key whom }
    {
        match whom {
            TakeWhich::First => self.take_first(thread, key),
            TakeWhich::Picked { start, recursive } => self.take_picked(
                thread, key, start, recursive,
            ),
            TakeWhich::All => self.take_all(thread, key),
        }
    }

    /// Takes all of a queue.
    pub(crate) fn take_all(&mut self, thread: usize, key: Key) -> Reply
        requires { key < length self.old.sections }
        ensures reply { result ≡ reply_to self.old thread (Act.Take key TakeWhich.All) }
        ensures state { self.new ≡ state_after_take self.old thread key TakeWhich.All }
    {
        self.taken.clear();
        self.queues.take_all(key, &mut self.taken);
        tell_each(
            self.places.as_mut_slice(),
            self.taken.as_slice(),
            Reply::TakenBy(thread),
        );
        Reply::Took {
            any: !self.taken.is_empty(),
            none_left: true,
        }
    }

    /// Takes the threads that a reader-writer lock picks of a queue.
    fn take_picked(
        &mut self,
        thread: usize,
        key: Key,
        start: Option<Want>,
        recursive: bool,
    ) -> Reply
        requires { key < length self.old.sections }
        ensures reply { result
            ≡ reply_to self.old thread (Act.Take key (TakeWhich.Picked start recursive)) }
        ensures state { self.new
            ≡ state_after_take self.old thread key (TakeWhich.Picked start recursive) }
    {
        self.taken.clear();
        self.queues
            .take_by(key, LockPicker::new(start, recursive), &mut self.taken);
        tell_each(
            self.places.as_mut_slice(),
            self.taken.as_slice(),
            Reply::TakenBy(thread),
        );
        let places = self.places.as_slice();
        Reply::Picked {
            sharers: sharers(thread, places),
            successor: want_of_successor(find_successor(places, thread)),
            none_left: self.is_empty(key),
        }
    }

    /// Moves waiters of a queue after the last of another, and may take the first of them.
    fn requeue(&mut self, thread: usize, from: Key, to: Key, how: Requeue) -> Reply
        requires keys { (from < length self.old.sections) × (to < length self.old.sections)
            × (from ≢ to) }
        ensures reply { result ≡ reply_to self.old thread (Act.Requeue from to how) }
        ensures state { self.new ≡ state_after_requeue self.old thread from to how }
    {
        self.taken.clear();
        list_line(&self.queues, from, &mut self.taken);
        keep_moved(&mut self.taken, how);
        let (first, moved) = self.queues.requeue(from, to, how);
        let places = self.places.as_mut_slice();
        tell_one(places, first, Reply::TakenBy(thread));
        tell_each(places, self.taken.as_slice(), Reply::MovedTo(to));
        Reply::Requeued {
            number: one_if_some(first) + moved,
            none_left: self.is_empty(from),
        }
    }

    /// Takes the first of a queue.
    fn take_first(&mut self, thread: usize, key: Key) -> Reply
        requires { key < length self.old.sections }
        ensures reply { result ≡ reply_to self.old thread (Act.Take key TakeWhich.First) }
        ensures state { self.new ≡ state_after_take_first self.old thread key }
    {
        let first = self.take_from(key);
        let none_left = self.is_empty(key);
        if let Some(waiter) = first {
            self.deliver_to(waiter, Reply::TakenBy(thread));
        }
        Reply::Took {
            any: first.is_some(),
            none_left,
        }
    }

    /// A thread leaves the queue in which it stands.
    fn remove(&mut self, thread: usize, key: Key) -> Reply
        requires { key < length self.old.sections }
        ensures reply { result ≡ reply_to self.old thread (Act.Remove key) }
        ensures state { self.new
            ≡ record self.old { queues = queues_without self.old.queues thread } }
    {
        self.withdraw(thread);
        Reply::Removed {
            none_left: self.is_empty(key),
        }
    }

    /// A thread leaves all queues.
    fn withdraw(&mut self, thread: usize)
        ensures { self.new ≡ record self.old { queues = queues_without self.old.queues thread } }
    {
        self.queues.remove(thread);
    }

    /// Leads a thread that is asleep to where this befalls it.
    pub(crate) fn deliver_to(&mut self, thread: usize, reply: Reply)
        requires { thread < length self.old.places }
        ensures { self.new ≡ state_after_reply self.old thread reply }
    {
        self.places[thread].step(reply);
    }

    /// Leaves the sections, and wakes.
    fn leave(&mut self, thread: usize, keys: Keys, wakes: Wakes)
        requires { KeysFit (length self.old.sections) keys }
        ensures { self.new ≡ state_after_leave self.old thread keys wakes }
    {
        self.fill(keys, None);
        if let Wakes::All(note) = wakes {
            self.tell_all(thread, Reply::Woken(note));
        }
    }

    /// Does an act, where it is possible, and gives its reply.
    pub(crate) fn perform(&mut self, thread: usize, act: Act) -> Option<Reply>
        requires thread { thread < length self.old.places }
        requires fits { ActFits self.old act }
        ensures reply { result
            ≡ (if can_do self.old act then Some (reply_to self.old thread act) else None) }
        ensures state { self.new
            ≡ (if can_do self.old act
            then state_after_act self.old thread (place_at self.old thread) act
            else self.old) }
    {
        match act {
            Act::Word { lock, op } => Some(Reply::Value(self.operate(thread, lock, op))),
            Act::HandOver { lock, op } => Some(Reply::Value(self.hand_over(thread, lock, op))),
            Act::Accept => Some(Reply::Done),
            Act::Enter(keys) => self.enter(thread, keys),
            Act::Park {
                lock,
                key,
                check,
                want,
            } => { Some(Reply::Parked(self.park(thread, lock, key, check, want))) }
            Act::Stand { key, want } => {
                self.append(key, thread, want);
                Some(Reply::Done)
            }
            Act::Take { key, whom } => Some(self.take(thread, key, whom)),
            Act::Requeue { from, to, how } => Some(self.requeue(thread, from, to, how)),
            Act::Remove(key) => Some(self.remove(thread, key)),
            Act::Leave { keys, wakes } => {
                self.leave(thread, keys, wakes);
                Some(Reply::Done)
            }
            Act::Rest | Act::Sleep | Act::Closure(_) | Act::End(_) => None,
        }
    }
}
