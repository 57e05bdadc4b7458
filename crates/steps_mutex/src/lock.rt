//! How a thread enters a mutex: in `lock`, `lock_timed`, or the second half of `bump`.
//!
//! | place | does | then |
//! |---|---|---|
//! | `First` | exchanges 0 for `LOCKED` | owns it, or `Load` |
//! | `Load` | loads | `Decide` |
//! | `Decide(v)`, unlocked | exchanges `v` for `v + LOCKED` | owns it, or `Decide` again |
//! | `Decide(1)` | exchanges 1 for 3, or goes on from `Load` as it spins | `Decide` |
//! | `Decide(3)` | enters the section of the queue | `Check` |
//! | `Check` | stands after the last of the queue, if the word is still 3 | `Leave` |
//! | `Leave` | leaves the section | `Asleep`, or `Load` where it doesn't stand in the queue |
//! | `Asleep` | sleeps | `Taken`, or `Remove` where its time is up |
//! | `Taken` | sleeps | `Load` at a normal wake, or `Handed` |
//! | `Handed` | sleeps, and owns the mutex | `Accept` |
//! | `Accept` | nothing | owns it |
//! | `Remove` | leaves the queue | `Clear` where nobody is left, else `GiveUp` |
//! | `Clear` | clears `PARKED` | `GiveUp` |
//! | `GiveUp` | leaves the section | ends with `No` |
ghost use Rattle.std.specs.Prelude.{◌≡◌, ◌<◌, ◌^◌};
ghost use Rattle.steps_mutex.specs.MutexSteps.{is_timed, entry_place, entered, next_lock, still_retries};
ghost use Rattle.steps_mutex.specs.MutexSteps.{lock_act, decided, lock_owners};

use crate::places::{LOCKED, MutexPlace, NOT_PARKED, PARKED, is_locked};
use core_base::{Keys, Note, Op, Want, main_key};
use spec_locks::Answer;
use steps_base::{Act, Check, Next, Owners, Reply, Wakes};

/// For which call a thread enters.
#[derive(Clone, Copy, PartialEq, Eq)]
pub enum Entry {
    Lock,
    LockTimed,
    /// The call has handed the mutex over.
    Bump,
}

/// Where a thread stands that enters: in `lock`, `lock_timed`, or the second half of `bump`.
#[derive(Clone, Copy, PartialEq, Eq)]
pub enum LockAt {
    /// Tries a word that is 0.
    First,
    Load,
    /// Decides by the value that it saw last.
    Decide(u64),
    /// Inside the section, before the check.
    Check,
    /// Inside the section, after the check.
    Leave { parked: bool },
    /// In the queue.
    Asleep,
    /// Taken by a thread that has not left its section yet.
    Taken { by: usize },
    /// Asleep, and the owner: the thread that took it has handed it the mutex, and not left its
    /// section yet.
    Handed { by: usize },
    /// The owner, and awake: it has the note of the hand-off.
    Accept,
    /// Late, inside the section and still in the queue.
    Remove,
    /// Late, and none is left in the queue.
    Clear,
    /// Late, after its removal.
    GiveUp,
}

impl Entry {
    pub fn is_timed(self) -> bool
        ensures { result ≡ is_timed self }
    {
        match self {
            Entry::LockTimed => true,
            Entry::Lock | Entry::Bump => false,
        }
    }

    /// Returns the answer of a call that has the mutex: `Yes` of a timed one, and `Ok` of one that
    /// waits for ever.
    fn entered(self) -> Answer
        ensures { result ≡ entered self }
    {
        match self {
            Entry::LockTimed => Answer::Yes,
            Entry::Lock | Entry::Bump => Answer::Ok,
        }
    }

    pub(super) fn first_place(self) -> MutexPlace
        ensures { result ≡ entry_place self }
    {
        MutexPlace::Lock {
            entry: self,
            retries: false,
            at: LockAt::First,
        }
    }
}

/// Returns where a thread that enters goes.
pub(super) fn next_lock(entry: Entry, at: LockAt, reply: Reply) -> Next<LockAt>
    ensures { result ≡ next_lock entry at reply }
{
    match (at, reply) {
        (LockAt::First, Reply::Value(seen)) => if seen == 0 {
            Next::End(entry.entered())
        } else {
            Next::At(LockAt::Load)
        },
        (LockAt::Load, Reply::Value(seen)) => Next::At(LockAt::Decide(seen)),
        (LockAt::Decide(expected), Reply::Value(seen)) => {
            if seen != expected {
                Next::At(LockAt::Decide(seen))
            } else if is_locked(seen) {
                Next::At(LockAt::Decide(LOCKED + PARKED))
            } else {
                Next::End(entry.entered())
            }
        }
        (LockAt::Decide(_), Reply::Done) => Next::At(LockAt::Check),
        (LockAt::Check, Reply::Parked(parked)) => Next::At(LockAt::Leave { parked }),
        (LockAt::Leave { parked }, Reply::Done) => if parked {
            Next::At(LockAt::Asleep)
        } else {
            Next::At(LockAt::Load)
        },
        (LockAt::Asleep, Reply::TakenBy(by)) => Next::At(LockAt::Taken { by }),
        // A running thread sees its wake note alone, and not which thread took it.
        (LockAt::Asleep, Reply::Woken(Note::Normal)) => Next::At(LockAt::Load),
        (LockAt::Asleep, Reply::Woken(Note::HandOff)) => Next::At(LockAt::Accept),
        (LockAt::Taken { .. }, Reply::Woken(Note::Normal)) => Next::At(LockAt::Load),
        (LockAt::Taken { .. }, Reply::HandedBy { by, .. }) => Next::At(LockAt::Handed { by }),
        (LockAt::Handed { .. }, Reply::Woken(Note::HandOff)) => Next::At(LockAt::Accept),
        (LockAt::Accept, Reply::Done) => Next::End(entry.entered()),
        (LockAt::Asleep, Reply::Late) => Next::At(LockAt::Remove),
        (LockAt::Remove, Reply::Removed { none_left }) => if none_left {
            Next::At(LockAt::Clear)
        } else {
            Next::At(LockAt::GiveUp)
        },
        (LockAt::Clear, Reply::Value(_)) => Next::At(LockAt::GiveUp),
        (LockAt::GiveUp, Reply::Done) => Next::End(Answer::No),
        (at, _) => Next::At(at),
    }
}

/// Returns whether a thread retries after the reply.
pub(super) fn still_retries(retries: bool, reply: Reply) -> bool
    ensures { result ≡ still_retries retries reply }
{
    match reply {
        Reply::Woken(Note::Normal) => true,
        Reply::Parked(parked) => retries && !parked,
        Reply::HandedBy { .. } => false,
        _ => retries,
    }
}

/// Returns the next act of a thread that enters.
pub(super) fn lock_act(lock: usize, at: LockAt) -> Act
    requires { lock < 2 ^ 63 }
    ensures { result ≡ lock_act lock at }
{
    match at {
        LockAt::First => Act::Word {
            lock,
            op: Op::Exchange {
                from: 0,
                to: LOCKED,
            },
        },
        LockAt::Load => Act::Word { lock, op: Op::Load },
        LockAt::Decide(seen) => decided(lock, seen),
        LockAt::Check => Act::Park {
            lock,
            key: main_key(lock),
            check: Check::WordIs(LOCKED + PARKED),
            want: Want::Exclusive,
        },
        LockAt::Leave { .. } => Act::Leave {
            keys: Keys::One(main_key(lock)),
            wakes: Wakes::Nobody,
        },
        LockAt::Asleep | LockAt::Taken { .. } | LockAt::Handed { .. } => Act::Sleep,
        LockAt::Accept => Act::Accept,
        LockAt::Remove => Act::Remove(main_key(lock)),
        LockAt::Clear => Act::Word {
            lock,
            op: Op::And(NOT_PARKED),
        },
        LockAt::GiveUp => Act::Leave {
            keys: Keys::One(main_key(lock)),
            wakes: Wakes::Nobody,
        },
    }
}

/// Returns the act of `lock` on a value that it saw. It takes an unlocked mutex, sets `PARKED`
/// beside an owner, and parks where that is set.
pub(super) fn decided(lock: usize, seen: u64) -> Act
    requires { lock < 2 ^ 63 }
    ensures { result ≡ decided lock seen }
{
    if !is_locked(seen) {
        return Act::Word {
            lock,
            op: Op::Exchange {
                from: seen,
                to: seen + LOCKED,
            },
        };
    }
    if seen == LOCKED {
        return Act::Word {
            lock,
            op: Op::Exchange {
                from: LOCKED,
                to: LOCKED + PARKED,
            },
        };
    }
    Act::Enter(Keys::One(main_key(lock)))
}

/// Returns the owners of the mutex after an operation on the word by a thread that enters.
pub(super) fn lock_owners(at: LockAt, thread: usize, seen: u64, owners: Owners) -> Owners
    ensures { result ≡ lock_owners at thread seen owners }
{
    let gets = match at {
        LockAt::First => seen == 0,
        LockAt::Decide(expected) => seen == expected && !is_locked(seen),
        _ => false,
    };
    if gets {
        owners.with_exclusive(Some(thread))
    } else {
        owners
    }
}
