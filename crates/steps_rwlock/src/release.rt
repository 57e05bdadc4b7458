//! How a thread gives a right up or turns it into another, and wakes the threads that this lets in.
//!
//! | place | does | then |
//! |---|---|---|
//! | `GiveWay` | one sum or difference on the word (see `purposes`) | ends, or wakes those of a queue; an upgrade beside readers is pending |
//! | `Wake`, `Enter` | enters the section of the queue | `Take` |
//! | `Take` | takes the picked of the main queue, or the writer aside | `Clear` where nobody is left there, and of the second queue always, else `Leave` |
//! | `Clear` | clears the parked bit of the queue | `Leave` |
//! | `Leave` | leaves the section and wakes the threads that it has taken | ends |
//!
//! The last reader wakes the writer aside, where one may stand there; every other release, and
//! every downgrade, those in the main queue.
ghost use Rattle.std.specs.Prelude.{◌≡◌, ◌<◌, ◌^◌};
ghost use Rattle.core_base.specs.Keys.{key_of};
ghost use Rattle.steps_rwlock.specs.RwLockSteps.{wakes, wakes_or_ends, gave_way, whom, wake_act, took};
ghost use Rattle.steps_rwlock.specs.RwLockSteps.{wake_next};

use crate::park::{clears, unparked};
use crate::places::{Admission, RwLockAt, RwLockPlace};
use crate::purposes::{RwLockPurpose, entered};
use core_base::{Keys, Line, Note, Want};
use spec_locks::{Access, Answer};
use steps_base::bits::{count_in, has_aside, has_parked};
use steps_base::{Act, Next, Reply, TakeWhich, Wakes};

#[derive(Clone, Copy, PartialEq, Eq)]
pub enum WakeAt {
    Enter,
    /// Inside the section.
    Take,
    /// None is left in the queue.
    Clear { any: bool },
    Leave { any: bool },
}

/// On its way to wake those of a queue.
pub(super) fn wakes(line: Line) -> RwLockAt
    ensures { result ≡ wakes line }
{
    RwLockAt::Wake {
        line,
        at: WakeAt::Enter,
    }
}

/// Where a thread goes that gave its right up, and saw this.
pub(super) fn gave_way(place: RwLockPlace, seen: u64) -> Next<RwLockPlace>
    ensures { result ≡ gave_way place seen }
{
    match place.purpose {
        RwLockPurpose::Enter {
            access: Access::Shared,
            ..
        }
        | RwLockPurpose::Release(Access::Shared) => {
            sees_waiter(place, Line::Second, has_aside(seen) && count_in(seen) == 1)
        }
        RwLockPurpose::Upgrade(patience) if count_in(seen) == 1 => Next::End(entered(patience)),
        RwLockPurpose::Upgrade(_) => place.goes(RwLockAt::Look, false),
        _ => sees_waiter(place, Line::Main, has_parked(seen)),
    }
}

/// Where a thread goes that saw somebody to wake, or nobody.
fn sees_waiter(place: RwLockPlace, line: Line, is_there: bool) -> Next<RwLockPlace>
    ensures { result ≡ wakes_or_ends place line is_there }
{
    if is_there {
        place.goes(wakes(line), place.retries)
    } else {
        Next::End(Answer::Ok)
    }
}

/// Returns the waiters that a thread takes from a queue: those that the lock lets in, or the writer
/// aside.
fn whom(admission: Admission, start: Option<Want>, line: Line) -> TakeWhich
    ensures { result ≡ whom admission start line }
{
    match line {
        Line::Main => TakeWhich::Picked {
            start,
            recursive: admission.recursive,
        },
        Line::Second => TakeWhich::First,
    }
}

pub(super) fn wake_act(
    lock: usize,
    admission: Admission,
    purpose: RwLockPurpose,
    line: Line,
    at: WakeAt,
) -> Act
    requires { lock < 2 ^ 63 }
    ensures { result ≡ wake_act lock admission purpose line at }
{
    let key = line.key(lock);
    match at {
        WakeAt::Enter => Act::Enter(Keys::One(key)),
        WakeAt::Take => Act::Take {
            key,
            whom: whom(admission, purpose.start(), line),
        },
        WakeAt::Clear { .. } => Act::Word {
            lock,
            op: unparked(line),
        },
        WakeAt::Leave { any } => Act::Leave {
            keys: Keys::One(key),
            wakes: Wakes::taken(any, Note::Normal),
        },
    }
}

/// Returns the place after a take. The parked bit goes where nobody is left in the main queue, and
/// always for the second queue.
fn took(line: Line, any: bool, none_left: bool) -> WakeAt
    ensures { result ≡ took line any none_left }
{
    if clears(line, none_left) {
        WakeAt::Clear { any }
    } else {
        WakeAt::Leave { any }
    }
}

pub(super) fn next_wake(
    place: RwLockPlace,
    line: Line,
    at: WakeAt,
    reply: Reply,
) -> Next<RwLockPlace>
    ensures { result ≡ wake_next place line at reply }
{
    let goes = |at: WakeAt| place.goes(RwLockAt::Wake { line, at }, place.retries);
    match (at, reply) {
        (WakeAt::Enter, Reply::Done) => goes(WakeAt::Take),
        (WakeAt::Take, Reply::Took { any, none_left }) => goes(took(line, any, none_left)),
        (
            WakeAt::Take,
            Reply::Picked {
                sharers,
                successor,
                none_left,
            },
        ) => goes(took(line, sharers != 0 || successor.is_some(), none_left)),
        (WakeAt::Clear { any }, Reply::Value(_)) => goes(WakeAt::Leave { any }),
        (WakeAt::Leave { .. }, Reply::Done) => Next::End(place.purpose.ends_with()),
        _ => goes(at),
    }
}
