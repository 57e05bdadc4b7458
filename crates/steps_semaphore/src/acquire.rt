//! How a thread waits for a permit, in `acquire` or `acquire_timed`.
//!
//! | place | does | then |
//! |---|---|---|
//! | `Load` | loads | `Decide` |
//! | `Decide(v)`, a permit free | exchanges `v` for `v - 2` | holds it, or `Decide` again |
//! | `Decide(0)` | exchanges 0 for `PARKED`, or goes on from `Load` as it spins | `Decide` |
//! | `Decide(1)` | enters the section of the queue | `Check` |
//! | `Check` | stands after the last of the queue, if the word is still 1 | `Leave` |
//! | `Leave` | leaves the section | `Asleep`, or `Load` where it doesn't stand in the queue |
//! | `Asleep` | sleeps | `Taken`, or `Remove` where its time is up |
//! | `Taken` | sleeps | `Load` at a wake |
//! | `Remove` | leaves the queue | `Clear` where nobody is left, else `GiveUp` |
//! | `Clear` | clears `PARKED` | `GiveUp` |
//! | `GiveUp` | leaves the section | ends with `No` |
ghost use Rattle.std.specs.Prelude.{◌≡◌, ◌<◌, ◌^◌};
ghost use Rattle.steps_semaphore.specs.SemaphoreSteps.{acquired, next_acquire, still_retries, acquire_act};
ghost use Rattle.steps_semaphore.specs.SemaphoreSteps.{decided, acquire_shares};

use crate::places::{NOT_PARKED, ONE_FREE, PARKED, is_free};
use core_base::{Keys, Note, Op, Want, main_key};
use spec_locks::Answer;
use steps_base::{Act, Check, Next, Reply, Wakes};

/// Where a thread stands that waits for a permit.
#[derive(Clone, Copy, PartialEq, Eq)]
pub enum AcquireAt {
    Load,
    /// Decides by the value that it saw last.
    Decide(u64),
    /// Inside the section, before the check.
    Check,
    /// Inside the section, after the check.
    Leave { parked: bool },
    /// In the queue.
    Asleep,
    /// Taken by a thread that has not left its section yet.
    Taken { by: usize },
    /// Late, inside the section and still in the queue.
    Remove,
    /// Late, and none is left in the queue.
    Clear,
    /// Late, after its removal.
    GiveUp,
}

/// Returns the answer of a call that has its permit: `Yes` of a timed one, and `Ok` of one that
/// waits for ever.
fn acquired(timed: bool) -> Answer
    ensures { result ≡ acquired timed }
{
    if timed { Answer::Yes } else { Answer::Ok }
}

/// Returns where a thread that waits for a permit goes.
pub(super) fn next_acquire(timed: bool, at: AcquireAt, reply: Reply) -> Next<AcquireAt>
    ensures { result ≡ next_acquire timed at reply }
{
    match (at, reply) {
        (AcquireAt::Load, Reply::Value(seen)) => Next::At(AcquireAt::Decide(seen)),
        (AcquireAt::Decide(expected), Reply::Value(seen)) => {
            if seen != expected {
                Next::At(AcquireAt::Decide(seen))
            } else if is_free(seen) {
                Next::End(acquired(timed))
            } else {
                Next::At(AcquireAt::Decide(PARKED))
            }
        }
        (AcquireAt::Decide(_), Reply::Done) => Next::At(AcquireAt::Check),
        (AcquireAt::Check, Reply::Parked(parked)) => Next::At(AcquireAt::Leave { parked }),
        (AcquireAt::Leave { parked }, Reply::Done) => if parked {
            Next::At(AcquireAt::Asleep)
        } else {
            Next::At(AcquireAt::Load)
        },
        (AcquireAt::Asleep, Reply::TakenBy(by)) => Next::At(AcquireAt::Taken { by }),
        // A running thread sees its wake note alone, and not which thread took it.
        (AcquireAt::Asleep, Reply::Woken(Note::Normal)) => Next::At(AcquireAt::Load),
        (AcquireAt::Taken { .. }, Reply::Woken(Note::Normal)) => Next::At(AcquireAt::Load),
        (AcquireAt::Asleep, Reply::Late) => Next::At(AcquireAt::Remove),
        (AcquireAt::Remove, Reply::Removed { none_left }) => if none_left {
            Next::At(AcquireAt::Clear)
        } else {
            Next::At(AcquireAt::GiveUp)
        },
        (AcquireAt::Clear, Reply::Value(_)) => Next::At(AcquireAt::GiveUp),
        (AcquireAt::GiveUp, Reply::Done) => Next::End(Answer::No),
        (at, _) => Next::At(at),
    }
}

/// Returns whether a thread retries after the reply.
pub(super) fn still_retries(retries: bool, reply: Reply) -> bool
    ensures { result ≡ still_retries retries reply }
{
    match reply {
        Reply::Woken(Note::Normal) => true,
        Reply::Parked(parked) => retries && !parked,
        _ => retries,
    }
}

/// Returns the next act of a thread that waits for a permit.
pub(super) fn acquire_act(lock: usize, at: AcquireAt) -> Act
    requires { lock < 2 ^ 63 }
    ensures { result ≡ acquire_act lock at }
{
    match at {
        AcquireAt::Load => Act::Word { lock, op: Op::Load },
        AcquireAt::Decide(seen) => decided(lock, seen),
        AcquireAt::Check => Act::Park {
            lock,
            key: main_key(lock),
            check: Check::WordIs(PARKED),
            want: Want::Shared,
        },
        AcquireAt::Asleep | AcquireAt::Taken { .. } => Act::Sleep,
        AcquireAt::Remove => Act::Remove(main_key(lock)),
        AcquireAt::Clear => Act::Word {
            lock,
            op: Op::And(NOT_PARKED),
        },
        AcquireAt::Leave { .. } | AcquireAt::GiveUp => Act::Leave {
            keys: Keys::One(main_key(lock)),
            wakes: Wakes::Nobody,
        },
    }
}

/// Returns the act of a thread on a value that it saw. It takes a free permit, sets `PARKED` where
/// none is free, and parks where that is set.
fn decided(lock: usize, seen: u64) -> Act
    requires { lock < 2 ^ 63 }
    ensures { result ≡ decided lock seen }
{
    if is_free(seen) {
        return Act::Word {
            lock,
            op: Op::Exchange {
                from: seen,
                to: seen - ONE_FREE,
            },
        };
    }
    if seen == 0 {
        return Act::Word {
            lock,
            op: Op::Exchange {
                from: 0,
                to: PARKED,
            },
        };
    }
    Act::Enter(Keys::One(main_key(lock)))
}

/// Returns how many permits a thread holds after an operation on the word that saw this value.
pub(super) fn acquire_shares(at: AcquireAt, seen: u64, shares: usize) -> Option<usize>
    ensures { result ≡ acquire_shares at seen shares }
{
    match at {
        AcquireAt::Decide(expected) if seen == expected && is_free(seen) => {
            Some(shares.wrapping_add(1))
        }
        _ => None,
    }
}
