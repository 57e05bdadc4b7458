//! The queues of all keys.
//!
//! The meaning of `Queues` is one list of keys, threads and wants, but its clauses speak of the line of
//! each key: two lists with the same line under each key can't be told apart, so a kind that keeps
//! waiters in buckets meets the same contract.
//!
//! `find` takes no memory: it returns the first waiter from a place of the queues on, and the place
//! after that. `with_capacity` is a call of the trait, since `World::new` makes the queues of any kind
//! itself.
ghost use Rattle.std.specs.Prelude.{◌≡◌, ◌≢◌, ℕ, ◌+◌, ◌<◌, ◌≤◌, List, ◌∷◌, ◌++◌, [], IfOk, IfErr, IfSome};
ghost use Rattle.std.specs.Prelude.{MatchOption, length, vec_len, vec_capacity};
ghost use Rattle.core_base.specs.declared.wants.Waiter.{Waiter};
ghost use Rattle.core_base.specs.Lines.{waiter, line, lines, without, without_first, without_key, first_of};
ghost use Rattle.core_base.specs.Lines.{threads_of, queued_under};
ghost use Rattle.core_base.specs.Picks.{picked, without_picked};
ghost use Rattle.core_base.specs.Requeues.{taken_by, moved_by, requeued};

use crate::faults::Fault;
use crate::keys::Key;
use crate::picks::Picker;
use crate::requeues::Requeue;
use crate::wants::{Waiter, Want};
use std::alloc::Global;

/// The queues of all keys: one list of waiters, in which each thread stands at most once.
///
/// A caller sees no more of the list than the line of each key, first in, first out. No call but
/// `with_capacity` takes memory.
pub trait Queues {
    /// The list of all waiters.
    ghost waiting: { Self → List Waiter };

    /// Threads below this number may be appended.
    ghost capacity: { Self → ℕ };

    /// The waiters under a key, from a place of the queues on.
    ghost rest: { Self → ℕ → ℕ → List Waiter };

    /// Nobody waits, and there is room for this many threads.
    fn with_capacity(alloc: Global, threads: usize) -> Result<Self, Fault>
        ensures ok { IfOk result (λ queues. (waiting queues ≡ []) × (capacity queues ≡ threads)) }
        ensures err { IfErr result (λ fault. fault ≡ Fault.NoMemory) };

    /// Puts a thread after the last under a key. One that stands somewhere leaves that place
    /// first.
    fn append(&mut self, key: Key, thread: usize, want: Want)
        requires { thread < capacity self.old }
        ensures lines { lines (waiting self.new)
            ≡ lines (without thread (waiting self.old) ++ waiter key thread want ∷ []) }
        ensures capacity { capacity self.new ≡ capacity self.old };

    /// Takes the first under a key.
    fn take_first(&mut self, key: Key) -> Option<usize>
        ensures first { result ≡ first_of (line key (waiting self.old)) }
        ensures seated { IfSome result (λ thread. thread < capacity self.old) }
        ensures lines { lines (waiting self.new) ≡ lines (without_first key (waiting self.old)) }
        ensures capacity { capacity self.new ≡ capacity self.old };

    /// Takes all under a key, and pushes them to `out` in their order.
    fn take_all(&mut self, key: Key, out: &mut Vec<usize>)
        requires { vec_len out.old + capacity self.old ≤ vec_capacity out.old }
        ensures taken { out.new.items ≡ out.old.items ++ threads_of (line key (waiting self.old)) }
        ensures room { vec_capacity out.new ≡ vec_capacity out.old }
        ensures lines { lines (waiting self.new) ≡ lines (without_key key (waiting self.old)) }
        ensures capacity { capacity self.new ≡ capacity self.old };

    /// Takes the waiters under a key that a picker picks, and pushes them to `out` in their order.
    /// The others keep theirs.
    fn take_by<P: Picker + Drop>(&mut self, key: Key, picker: P, out: &mut Vec<usize>)
        requires { vec_len out.old + capacity self.old ≤ vec_capacity out.old }
        ensures taken { out.new.items ≡ out.old.items
            ++ threads_of (picked P.answer P.next picker (line key (waiting self.old))) }
        ensures room { vec_capacity out.new ≡ vec_capacity out.old }
        ensures lines { lines (waiting self.new)
            ≡ lines (without_picked P.answer P.next picker key (waiting self.old)) }
        ensures capacity { capacity self.new ≡ capacity self.old };

    /// Moves waiters from under a key after the last under another. Those that are moved want to
    /// own alone from then on. Returns the thread that was taken, if any, and how many were moved.
    fn requeue(&mut self, from: Key, to: Key, op: Requeue) -> (Option<usize>, usize)
        requires { from ≢ to }
        ensures taken { result.0 ≡ taken_by op (line from (waiting self.old)) }
        ensures seated { IfSome result.0 (λ thread. thread < capacity self.old) }
        ensures number { (result.1 ≡ length (moved_by op (line from (waiting self.old))))
            × (result.1 ≤ capacity self.old) }
        ensures lines { lines (waiting self.new) ≡ lines (requeued op from to (waiting self.old)) }
        ensures capacity { capacity self.new ≡ capacity self.old };

    /// Removes a thread from where it stands.
    fn remove(&mut self, thread: usize)
        ensures lines { lines (waiting self.new) ≡ lines (without thread (waiting self.old)) }
        ensures capacity { capacity self.new ≡ capacity self.old };

    /// Returns how many stand under a key.
    fn count(&self, key: Key) -> usize
        ensures { result ≡ length (line key (waiting self.now)) };

    /// Returns the key under which a thread stands.
    fn key_of(&self, thread: usize) -> Option<Key>
        ensures { result ≡ queued_under thread (waiting self.now) };

    /// Returns the first that stands under a key from a place of the queues on, and the place after
    /// it. The first place is 0.
    fn find(&self, key: Key, place: usize) -> Option<(Waiter, usize)>
        ensures few { length (line key (waiting self.now)) ≤ capacity self.now }
        ensures found { MatchOption result (rest self.now key place ≡ [])
            (λ found. rest self.now key place ≡ found.0 ∷ rest self.now key found.1) };

    /// The line of a key begins at place 0.
    ghost from_first: { (queues : Self) (key : ℕ) → rest queues key 0 ≡ line key (waiting queues) };
}
