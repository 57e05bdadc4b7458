//! The steps of a thread that waits for a `Once` with a deadline, once its time is up.
//!
//! | place | does | then |
//! |---|---|---|
//! | `Remove` | leaves the queue | `Clear` where nobody is left, else `Leave` |
//! | `Clear` | clears `PARKED` | `Leave` |
//! | `Leave` | leaves the section | ends with `No` |
ghost use Rattle.std.specs.Prelude.{◌≡◌, ◌<◌, ◌^◌};
ghost use Rattle.steps_once.specs.OnceSteps.{give_up_act, next_give_up};

use crate::places::NOT_PARKED;
use core_base::{Keys, Op, main_key};
use spec_locks::Answer;
use steps_base::{Act, Next, Reply, Wakes};

/// A place of a thread that gives up, inside the section of the queue.
#[derive(Clone, Copy, PartialEq, Eq)]
pub enum GiveUpAt {
    /// Still in the queue.
    Remove,
    /// Nobody is left in the queue.
    Clear,
    Leave,
}

/// Leads a thread on that gives up.
pub(super) fn next_give_up(at: GiveUpAt, reply: Reply) -> Next<GiveUpAt>
    ensures { result ≡ next_give_up at reply }
{
    match (at, reply) {
        (GiveUpAt::Remove, Reply::Removed { none_left }) => if none_left {
            Next::At(GiveUpAt::Clear)
        } else {
            Next::At(GiveUpAt::Leave)
        },
        (GiveUpAt::Clear, Reply::Value(_)) => Next::At(GiveUpAt::Leave),
        (GiveUpAt::Leave, Reply::Done) => Next::End(Answer::No),
        (at, _) => Next::At(at),
    }
}

/// Gives the next act of a thread that gives up.
pub(super) fn give_up_act(lock: usize, at: GiveUpAt) -> Act
    requires { lock < 2 ^ 63 }
    ensures { result ≡ give_up_act lock at }
{
    match at {
        GiveUpAt::Remove => Act::Remove(main_key(lock)),
        GiveUpAt::Clear => Act::Word {
            lock,
            op: Op::And(NOT_PARKED),
        },
        GiveUpAt::Leave => Act::Leave {
            keys: Keys::One(main_key(lock)),
            wakes: Wakes::Nobody,
        },
    }
}
