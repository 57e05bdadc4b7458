//! The steps of a mutex.
//!
//! | word | means |
//! |---|---|
//! | 0 | unlocked, and nobody waits |
//! | 1, `LOCKED` | owned, and nobody waits |
//! | 2, `PARKED` | unlocked; somebody may stand in the queue |
//! | 3 | owned; somebody may stand in the queue |
ghost use Rattle.std.specs.Prelude.{ℕ, ◌≡◌, ◌<◌, ◌^◌};
ghost use Rattle.steps_base.specs.Acts.{outcome_of};
ghost use Rattle.steps_mutex.specs.MutexProfiles.{mutex_taker, mutex_wants, mutex_late_line, mutex_owes};
ghost use Rattle.steps_mutex.specs.MutexProfiles.{mutex_retries};
ghost use Rattle.steps_mutex.specs.MutexSteps.{is_locked, is_parked, mutex_first, mutex_right, mutex_act};
ghost use Rattle.steps_mutex.specs.MutexSteps.{mutex_next, mutex_respin, mutex_owners};

use crate::hand_off::{HandOffAt, hand_off_act, looked, next_hand_off};
use crate::lock::{Entry, LockAt, lock_act, lock_owners, next_lock, still_retries};
use crate::unlock::{UnlockAt, next_unlock, unlock_act};
use core_base::{Line, Op, Want};
use spec_locks::{Answer, MutexCall, Outcome};
use steps_base::{Act, Next, Owners, Reply};

pub const LOCKED: u64 = 1;

pub const PARKED: u64 = 2;

/// All bits but `PARKED`.
pub const NOT_PARKED: u64 = 18446744073709551613;

/// Where a thread stands in a call of a mutex.
#[derive(Clone, Copy, PartialEq, Eq)]
pub enum MutexPlace {
    /// Locks the mutex. The call `retries` from a wake note on, until the thread stands in the
    /// queue again, owns the mutex or the call ends.
    Lock {
        entry: Entry,
        retries: bool,
        at: LockAt,
    },
    TryLock,
    Unlock(UnlockAt),
    /// Tries a word without `PARKED`.
    UnlockFair,
    /// Loads the word.
    Bump,
    /// Where it `bumps`, the thread locks the mutex again; else its call ends.
    HandOff {
        bumps: bool,
        at: HandOffAt,
    },
}

/// Returns whether somebody owns the mutex whose word this is.
#[inline]
pub fn is_locked(word: u64) -> bool
    ensures { result ≡ is_locked word }
{
    word % 2 == 1
}

/// Returns whether somebody may stand in the queue of the mutex whose word this is.
#[inline]
pub fn is_parked(word: u64) -> bool
    ensures { result ≡ is_parked word }
{
    word / 2 % 2 == 1
}

/// Returns whether a thread has the right that a call needs, of a mutex with these owners.
pub fn mutex_right(call: MutexCall, thread: usize, owners: Owners) -> bool
    ensures { result ≡ mutex_right call thread owners }
{
    match call {
        MutexCall::Lock | MutexCall::LockTimed | MutexCall::TryLock => true,
        MutexCall::Unlock | MutexCall::UnlockFair | MutexCall::Bump => {
            owners.exclusive == Some(thread)
        }
    }
}

impl MutexPlace {
    /// Returns where a call begins; the mutex is a fair one or not.
    pub fn first(call: MutexCall, is_fair: bool) -> MutexPlace
        ensures { result ≡ mutex_first is_fair call }
    {
        match call {
            MutexCall::Lock => Entry::Lock.first_place(),
            MutexCall::LockTimed => Entry::LockTimed.first_place(),
            MutexCall::TryLock => MutexPlace::TryLock,
            MutexCall::Unlock if is_fair => MutexPlace::UnlockFair,
            MutexCall::Unlock => MutexPlace::Unlock(UnlockAt::Subtract),
            MutexCall::UnlockFair => MutexPlace::UnlockFair,
            MutexCall::Bump => MutexPlace::Bump,
        }
    }

    /// Returns the thread's next act.
    pub fn act(self, lock: usize) -> Act
        requires { lock < 2 ^ 63 }
        ensures { result ≡ mutex_act lock self }
    {
        match self {
            MutexPlace::Lock { at, .. } => lock_act(lock, at),
            MutexPlace::TryLock => Act::Word {
                lock,
                op: Op::Or(LOCKED),
            },
            MutexPlace::Unlock(at) => unlock_act(lock, at),
            MutexPlace::UnlockFair => Act::Word {
                lock,
                op: Op::Exchange {
                    from: LOCKED,
                    to: 0,
                },
            },
            MutexPlace::Bump => Act::Word { lock, op: Op::Load },
            MutexPlace::HandOff { at, .. } => hand_off_act(lock, at),
        }
    }

    /// Returns the outcome that a thread is told when it comes here.
    pub fn outcome(self) -> Outcome
        ensures { (l : ℕ) → result ≡ outcome_of (mutex_act l self) }
    {
        match self {
            MutexPlace::Lock {
                at: LockAt::Asleep | LockAt::Taken { .. } | LockAt::Handed { .. },
                ..
            } => Outcome::Sleep,
            _ => Outcome::Step,
        }
    }

    /// Returns where the reply leads the thread.
    pub fn next(self, reply: Reply) -> Next<MutexPlace>
        ensures { result ≡ mutex_next self reply }
    {
        match self {
            MutexPlace::Lock { entry, retries, at } => match next_lock(entry, at, reply) {
                Next::At(at) => Next::At(MutexPlace::Lock {
                    entry,
                    retries: still_retries(retries, reply),
                    at,
                }),
                Next::End(answer) => Next::End(answer),
            },
            MutexPlace::TryLock => match reply {
                Reply::Value(seen) => if is_locked(seen) {
                    Next::End(Answer::No)
                } else {
                    Next::End(Answer::Yes)
                },
                _ => Next::At(self),
            },
            MutexPlace::Unlock(at) => match next_unlock(at, reply) {
                Next::At(at) => Next::At(MutexPlace::Unlock(at)),
                Next::End(answer) => Next::End(answer),
            },
            MutexPlace::UnlockFair => match reply {
                Reply::Value(seen) => looked(false, seen != LOCKED),
                _ => Next::At(self),
            },
            MutexPlace::Bump => match reply {
                Reply::Value(seen) => looked(true, is_parked(seen)),
                _ => Next::At(self),
            },
            MutexPlace::HandOff { bumps, at } => match next_hand_off(at, reply) {
                Next::At(at) => Next::At(MutexPlace::HandOff { bumps, at }),
                Next::End(_) if bumps => Next::At(Entry::Bump.first_place()),
                Next::End(answer) => Next::End(answer),
            },
        }
    }

    /// Returns the owners of the mutex after the thread's operation on the word, which saw this
    /// value. A thread to which it hands the mutex is not among them yet.
    pub fn owners_after(self, thread: usize, seen: u64, owners: Owners) -> Owners
        ensures { result ≡ mutex_owners self thread seen owners }
    {
        match self {
            MutexPlace::Lock { at, .. } => lock_owners(at, thread, seen, owners),
            MutexPlace::TryLock => if is_locked(seen) {
                owners
            } else {
                owners.with_exclusive(Some(thread))
            },
            MutexPlace::Unlock(UnlockAt::Subtract) => owners.with_exclusive(None),
            MutexPlace::UnlockFair => if seen == LOCKED {
                owners.with_exclusive(None)
            } else {
                owners
            },
            MutexPlace::HandOff {
                at: HandOffAt::Store { .. },
                ..
            } => owners.with_exclusive(None),
            _ => owners,
        }
    }

    /// Returns the thread that took this one from the queue, and has not left its section yet.
    pub fn taker(self) -> Option<usize>
        ensures { result ≡ mutex_taker self }
    {
        match self {
            MutexPlace::Lock {
                at: LockAt::Taken { by } | LockAt::Handed { by },
                ..
            } => Some(by),
            _ => None,
        }
    }

    /// Returns what the thread wants, where it waits.
    pub fn wants(self) -> Option<Want>
        ensures { result ≡ mutex_wants self }
    {
        match self {
            MutexPlace::Lock { .. } => Some(Want::Exclusive),
            _ => None,
        }
    }

    /// From where the thread looks at the word once more, in place of an act that leads to sleep.
    pub fn respins_from(self) -> Option<MutexPlace>
        ensures { result ≡ mutex_respin self }
    {
        match self {
            MutexPlace::Lock {
                entry,
                retries,
                at: LockAt::Decide(LOCKED),
            } => Some(MutexPlace::Lock {
                entry,
                retries,
                at: LockAt::Load,
            }),
            _ => None,
        }
    }

    /// Returns the queue in which the thread sleeps, where it may give up.
    pub fn late_line(self) -> Option<Line>
        ensures { result ≡ mutex_late_line self }
    {
        match self {
            MutexPlace::Lock {
                entry,
                at: LockAt::Asleep,
                ..
            } if entry.is_timed() => Some(Line::Main),
            _ => None,
        }
    }

    /// Returns the queue on which the thread owes a wake.
    pub fn owes(self) -> Option<Line>
        ensures { result ≡ mutex_owes self }
    {
        match self {
            MutexPlace::Lock { at, .. } => match at {
                LockAt::Check | LockAt::Leave { .. } => Some(Line::Main),
                LockAt::Remove | LockAt::Clear | LockAt::GiveUp => Some(Line::Main),
                _ => None,
            },
            MutexPlace::Unlock(UnlockAt::Subtract) => None,
            MutexPlace::Unlock(_) | MutexPlace::HandOff { .. } => Some(Line::Main),
            MutexPlace::TryLock | MutexPlace::UnlockFair | MutexPlace::Bump => None,
        }
    }

    /// Returns whether the thread was woken and tries again.
    pub fn retries(self) -> bool
        ensures { result ≡ mutex_retries self }
    {
        match self {
            MutexPlace::Lock { retries, .. } => retries,
            _ => false,
        }
    }
}
