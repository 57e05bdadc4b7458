//! The views of a lock: named iterators in the order of a printed line, without memory.
ghost use Rattle.std.specs.Prelude.{◌≡◌, ◌<◌, ◌^◌, ◌+◌, ◌*◌, ◌++◌, [], MatchOption, IfSome, length, drop};
ghost use Rattle.std.specs.Prelude.{replicate, slice_index_or};
ghost use Rattle.std.specs.Iterator.{YieldsFirst, item_count};
ghost use Rattle.lot_machine.specs.Views.{owners_listed, sharers_listed};

use core_base::{Queues, Waiter, main_key, second_key};
use lot_steps::{Owner, Owners, Pending, Phase};
use std::marker::Model;

/// The owners of a lock, each with its sort, then those that share it by their numbers, once for
/// each right.
#[derive(Drop)]
pub struct OwnersOf<'a> {
    left: Owners,
    shares: &'a [usize],
    sharer: usize,
    rights: usize,
    afterwards: usize,
}

impl<'a> Model for OwnersOf<'a> {
    ghost use Rattle.std.specs.Prelude.{List, ℕ, ◌++◌, drop, replicate};
    ghost use Rattle.steps_base.specs.declared.owners.Owner.{Owner};
    ghost use Rattle.steps_base.specs.declared.owners.Owner.TheVariants.{Shared};
    ghost use Rattle.lot_machine.specs.Views.{owners_listed, sharers_listed};

    ghost Value = { List (Owner × ℕ) };

    ghost view = { λ o. owners_listed o.left
        ++ (replicate o.rights (Shared, o.sharer) ++ sharers_listed o.afterwards (drop o.afterwards o.shares.now)) };
}

impl<'a> OwnersOf<'a> {
    pub fn new(owners: Owners, shares: &'a [usize]) -> OwnersOf<'a>
        ensures { result ≡ owners_listed owners ++ sharers_listed 0 shares.now }
    {
        OwnersOf {
            left: owners,
            shares,
            sharer: 0,
            rights: 0,
            afterwards: 0,
        }
    }
}

/// Returns the first thread from one on that shares a lock, by each thread's number of rights.
fn find_sharer(shares: &[usize], from: usize) -> Option<usize>
    ensures within { IfSome result
        (λ thread. (thread < length shares.now) × (0 < slice_index_or shares.now thread 0)) }
    ensures found { MatchOption result (sharers_listed from (drop from shares.now) ≡ [])
        (λ thread. sharers_listed from (drop from shares.now)
        ≡ replicate (slice_index_or shares.now thread 0) (Owner.Shared, thread)
        ++ sharers_listed (thread + 1) (drop (thread + 1) shares.now)) }
{
    for thread in from..shares.len() {
        if shares[thread] != 0 {
            return Some(thread);
        }
    }
    None
}

impl Iterator for OwnersOf<'_> {
    type Item = (Owner, usize);

    ghost next_gives = { YieldsFirst (λ owners. owners) };

    ghost remaining = { item_count (λ owners. owners) };

    fn next(&mut self) -> Option<(Owner, usize)> {
        if let Some(thread) = self.left.exclusive {
            self.left.exclusive = None;
            return Some((Owner::Exclusive, thread));
        }
        if let Some(Pending { thread, .. }) = self.left.pending {
            self.left.pending = None;
            return Some((Owner::Pending, thread));
        }
        if let Some(thread) = self.left.upgradable {
            self.left.upgradable = None;
            return Some((Owner::Upgradable, thread));
        }
        if let Some(thread) = self.left.phase.runner() {
            self.left.phase = Phase::New;
            return Some((Owner::Running, thread));
        }
        if self.rights != 0 {
            self.rights -= 1;
            return Some((Owner::Shared, self.sharer));
        }
        match find_sharer(self.shares, self.afterwards) {
            Some(thread) => {
                self.sharer = thread;
                self.rights = self.shares[thread] - 1;
                self.afterwards = thread + 1;
                Some((Owner::Shared, thread))
            }
            None => None,
        }
    }
}

/// The waiters of a lock: its main queue from the front, then the waiter aside.
#[derive(Drop)]
pub struct QueueOf<'a, Q: Queues> {
    queues: &'a Q,
    lock: usize,
    place: usize,
    is_aside: bool,
}

impl<'a, Q: Queues> Model for QueueOf<'a, Q> {
    ghost use Rattle.std.specs.Prelude.{List, ◌+◌, ◌*◌, ◌<◌, ◌^◌, ◌++◌, if◌then◌else◌};
    ghost use Rattle.core_base.specs.declared.wants.Waiter.{Waiter};

    ghost Value = { List Waiter };

    ghost view = { λ s. if s.is_aside then Q.rest s.queues.now (2 * s.lock + 1) s.place
        else Q.rest s.queues.now (2 * s.lock) s.place ++ Q.rest s.queues.now (2 * s.lock + 1) 0 };

    ghost invariant = { λ s. s.lock < 2 ^ 63 };
}

impl<'a, Q: Queues> QueueOf<'a, Q> {
    pub fn new(queues: &'a Q, lock: usize) -> QueueOf<'a, Q>
        requires { lock < 2 ^ 63 }
        ensures { result ≡ Q.rest queues.now (2 * lock) 0 ++ Q.rest queues.now (2 * lock + 1) 0 }
    {
        QueueOf {
            queues,
            lock,
            place: 0,
            is_aside: false,
        }
    }
}

impl<Q: Queues> Iterator for QueueOf<'_, Q> {
    type Item = Waiter;

    ghost next_gives = { YieldsFirst (λ waiters. waiters) };

    ghost remaining = { item_count (λ waiters. waiters) };

    fn next(&mut self) -> Option<Waiter> {
        if !self.is_aside {
            if let Some((waiter, place)) = self.queues.find(main_key(self.lock), self.place) {
                self.place = place;
                return Some(waiter);
            }
            self.is_aside = true;
            self.place = 0;
        }
        match self.queues.find(second_key(self.lock), self.place) {
            Some((waiter, place)) => {
                self.place = place;
                Some(waiter)
            }
            None => None,
        }
    }
}
