//! How a thread takes a permit where one is free, in `try_acquire`.
//!
//! | place | does | then |
//! |---|---|---|
//! | `Load` | loads | `Decide` where a permit is free, else ends with `No` |
//! | `Decide(v)` | exchanges `v` for `v - 2` | ends with `Yes`, or as by `Load` |
ghost use Rattle.std.specs.Prelude.{◌≡◌, ◌<◌, ◌^◌};
ghost use Rattle.steps_semaphore.specs.SemaphoreSteps.{looked, next_try, try_act, try_shares};

use crate::places::{ONE_FREE, is_free};
use core_base::Op;
use spec_locks::Answer;
use steps_base::{Act, Next, Reply};

/// Where a thread stands that only tries.
#[derive(Clone, Copy, PartialEq, Eq)]
pub enum TryAt {
    Load,
    /// Decides by the value that it saw last, by which a permit was free.
    Decide(u64),
}

/// Returns where a thread goes by a value that it saw.
fn looked(seen: u64) -> Next<TryAt>
    ensures { result ≡ looked seen }
{
    if is_free(seen) {
        Next::At(TryAt::Decide(seen))
    } else {
        Next::End(Answer::No)
    }
}

/// Returns where a thread that tries goes.
pub(super) fn next_try(at: TryAt, reply: Reply) -> Next<TryAt>
    ensures { result ≡ next_try at reply }
{
    match (at, reply) {
        (TryAt::Load, Reply::Value(seen)) => looked(seen),
        (TryAt::Decide(expected), Reply::Value(seen)) => {
            if seen == expected && is_free(seen) {
                Next::End(Answer::Yes)
            } else {
                looked(seen)
            }
        }
        (at, _) => Next::At(at),
    }
}

/// Returns the next act of a thread that tries.
pub(super) fn try_act(lock: usize, at: TryAt) -> Act
    requires { lock < 2 ^ 63 }
    ensures { result ≡ try_act lock at }
{
    match at {
        TryAt::Decide(seen) if is_free(seen) => Act::Word {
            lock,
            op: Op::Exchange {
                from: seen,
                to: seen - ONE_FREE,
            },
        },
        TryAt::Load | TryAt::Decide(_) => Act::Word { lock, op: Op::Load },
    }
}

/// Returns how many permits the thread holds after an operation on the word that saw this value.
pub(super) fn try_shares(at: TryAt, seen: u64, shares: usize) -> Option<usize>
    ensures { result ≡ try_shares at seen shares }
{
    match at {
        TryAt::Decide(expected) if seen == expected && is_free(seen) => {
            Some(shares.wrapping_add(1))
        }
        _ => None,
    }
}
