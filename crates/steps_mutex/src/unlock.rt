//! How an owner releases a mutex by `unlock`.
//!
//! | place | does | then |
//! |---|---|---|
//! | `Subtract` | subtracts `LOCKED`: nobody owns it | `Enter` where it saw `PARKED`, else ends |
//! | `Enter` | enters the section of the queue | `Take` |
//! | `Take` | takes the first waiter | `Clear` where nobody is left, else `Leave` |
//! | `Clear` | clears `PARKED` | `Leave` |
//! | `Leave` | leaves the section, and wakes the one that it took | ends |
ghost use Rattle.std.specs.Prelude.{◌≡◌, ◌<◌, ◌^◌};
ghost use Rattle.steps_mutex.specs.MutexSteps.{next_unlock, unlock_act};

use crate::places::{LOCKED, NOT_PARKED, is_parked};
use core_base::{Keys, Note, Op, main_key};
use spec_locks::Answer;
use steps_base::{Act, Next, Reply, TakeWhich, Wakes};

/// Where a thread stands in `unlock`.
#[derive(Clone, Copy, PartialEq, Eq)]
pub enum UnlockAt {
    Subtract,
    /// The thread saw `PARKED`.
    Enter,
    Take,
    /// None is left in the queue.
    Clear { any: bool },
    Leave { any: bool },
}

/// Returns where `unlock` goes.
pub(super) fn next_unlock(at: UnlockAt, reply: Reply) -> Next<UnlockAt>
    ensures { result ≡ next_unlock at reply }
{
    match (at, reply) {
        (UnlockAt::Subtract, Reply::Value(seen)) => if is_parked(seen) {
            Next::At(UnlockAt::Enter)
        } else {
            Next::End(Answer::Ok)
        },
        (UnlockAt::Enter, Reply::Done) => Next::At(UnlockAt::Take),
        (UnlockAt::Take, Reply::Took { any, none_left }) => if none_left {
            Next::At(UnlockAt::Clear { any })
        } else {
            Next::At(UnlockAt::Leave { any })
        },
        (UnlockAt::Clear { any }, Reply::Value(_)) => Next::At(UnlockAt::Leave { any }),
        (UnlockAt::Leave { .. }, Reply::Done) => Next::End(Answer::Ok),
        (at, _) => Next::At(at),
    }
}

/// Returns the next act of `unlock`.
pub(super) fn unlock_act(lock: usize, at: UnlockAt) -> Act
    requires { lock < 2 ^ 63 }
    ensures { result ≡ unlock_act lock at }
{
    match at {
        UnlockAt::Subtract => Act::Word {
            lock,
            op: Op::Sub(LOCKED),
        },
        UnlockAt::Enter => Act::Enter(Keys::One(main_key(lock))),
        UnlockAt::Take => Act::Take {
            key: main_key(lock),
            whom: TakeWhich::First,
        },
        UnlockAt::Clear { .. } => Act::Word {
            lock,
            op: Op::And(NOT_PARKED),
        },
        UnlockAt::Leave { any } => Act::Leave {
            keys: Keys::One(main_key(lock)),
            wakes: Wakes::taken(any, Note::Normal),
        },
    }
}
