//! How a thread gives a permit back, in `release`.
//!
//! | place | does | then |
//! |---|---|---|
//! | `Add` | adds 2: its permit is free | `Enter` where it saw `PARKED`, else ends |
//! | `Enter` | enters the section of the queue | `Take` |
//! | `Take` | takes the first waiter | `Clear` where nobody is left, else `Leave` |
//! | `Clear` | clears `PARKED` | `Leave` |
//! | `Leave` | leaves the section, and wakes up the one that it took | ends |
ghost use Rattle.std.specs.Prelude.{◌≡◌, ◌<◌, ◌^◌};
ghost use Rattle.steps_semaphore.specs.SemaphoreSteps.{next_release, release_act, release_shares};

use crate::places::{NOT_PARKED, ONE_FREE};
use core_base::{Keys, Note, Op, main_key};
use spec_locks::Answer;
use steps_base::bits::has_parked;
use steps_base::{Act, Next, Reply, TakeWhich, Wakes};

/// Where a thread stands that gives a permit back.
#[derive(Clone, Copy, PartialEq, Eq)]
pub enum ReleaseAt {
    Add,
    /// The thread saw `PARKED`.
    Enter,
    Take,
    /// None is left in the queue.
    Clear { any: bool },
    Leave { any: bool },
}

/// Returns where a release goes.
pub(super) fn next_release(at: ReleaseAt, reply: Reply) -> Next<ReleaseAt>
    ensures { result ≡ next_release at reply }
{
    match (at, reply) {
        (ReleaseAt::Add, Reply::Value(seen)) => if has_parked(seen) {
            Next::At(ReleaseAt::Enter)
        } else {
            Next::End(Answer::Ok)
        },
        (ReleaseAt::Enter, Reply::Done) => Next::At(ReleaseAt::Take),
        (ReleaseAt::Take, Reply::Took { any, none_left }) => if none_left {
            Next::At(ReleaseAt::Clear { any })
        } else {
            Next::At(ReleaseAt::Leave { any })
        },
        (ReleaseAt::Clear { any }, Reply::Value(_)) => Next::At(ReleaseAt::Leave { any }),
        (ReleaseAt::Leave { .. }, Reply::Done) => Next::End(Answer::Ok),
        (at, _) => Next::At(at),
    }
}

/// Returns the next act of a release.
pub(super) fn release_act(lock: usize, at: ReleaseAt) -> Act
    requires { lock < 2 ^ 63 }
    ensures { result ≡ release_act lock at }
{
    match at {
        ReleaseAt::Add => Act::Word {
            lock,
            op: Op::Add(ONE_FREE),
        },
        ReleaseAt::Enter => Act::Enter(Keys::One(main_key(lock))),
        ReleaseAt::Take => Act::Take {
            key: main_key(lock),
            whom: TakeWhich::First,
        },
        ReleaseAt::Clear { .. } => Act::Word {
            lock,
            op: Op::And(NOT_PARKED),
        },
        ReleaseAt::Leave { any } => Act::Leave {
            keys: Keys::One(main_key(lock)),
            wakes: Wakes::taken(any, Note::Normal),
        },
    }
}

/// Returns how many permits the thread holds after an operation on the word.
pub(super) fn release_shares(at: ReleaseAt, shares: usize) -> Option<usize>
    ensures { result ≡ release_shares at shares }
{
    match at {
        ReleaseAt::Add => Some(shares.saturating_sub(1)),
        _ => None,
    }
}
