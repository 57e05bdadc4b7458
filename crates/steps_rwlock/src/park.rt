//! A thread on its way into one of the queues of a reader-writer lock, and out of it.
//!
//! | place | does | then |
//! |---|---|---|
//! | `Check` | stands after the last, if the word still bars its way | `Leave` |
//! | `Leave` | leaves the section | `Asleep`, or looks again where it doesn't stand in the queue |
//! | `Asleep` | sleeps | `Taken`, or `Remove` where its time is up |
//! | `Taken` | sleeps | looks again at its wake |
//! | `Remove` | leaves the queue | `Clear` where nobody is left, else `GiveUp`; of the second queue always `Clear` |
//! | `Clear` | clears the parked bit of the queue | `GiveUp` |
//! | `GiveUp` | leaves the section | ends with `No`; a pending writer rolls back |
ghost use Rattle.std.specs.Prelude.{◌≡◌, ◌<◌, ◌^◌};
ghost use Rattle.steps_rwlock.specs.RwLockSteps.{IsTold, wanted, unparked, parks_at, looks_again};
ghost use Rattle.steps_rwlock.specs.RwLockSteps.{park_check, park_act, clears, gave_up, park_next};
ghost use Rattle.core_base.specs.Keys.{key_of};
ghost use Rattle.steps_rwlock.specs.RwLockProfiles.{is_inside};

use crate::places::{Admission, NOT_PARKED, NOT_WRITER_PARKED, RwLockAt, RwLockPlace};
use crate::purposes::wanted;
use core_base::{Keys, Line, Note, Op};
use spec_locks::{Access, Answer, Outcome};
use steps_base::{Act, Check, Next, Reply, Wakes};

#[derive(Clone, Copy, PartialEq, Eq)]
pub enum ParkAt {
    /// Inside the section, before the check.
    Check,
    /// Inside the section, after the check.
    Leave { parked: bool },
    /// In the queue.
    Asleep,
    /// Taken by a thread that has not left its section yet.
    Taken { by: usize },
    /// Late, inside the section and still in the queue.
    Remove,
    /// Late, and none is left in the queue.
    Clear,
    /// Late, after its removal.
    GiveUp,
}

impl ParkAt {
    /// Returns the outcome that a thread is told when it comes here.
    pub(super) fn outcome(self) -> Outcome
        ensures { IsTold result self }
    {
        match self {
            ParkAt::Asleep | ParkAt::Taken { .. } => Outcome::Sleep,
            _ => Outcome::Step,
        }
    }
}

impl ParkAt {
    /// Returns whether the thread is inside the section of the queue.
    pub fn is_inside(self) -> bool
        ensures { result ≡ is_inside self }
    {
        !matches!(self, ParkAt::Asleep | ParkAt::Taken { .. })
    }
}

/// Returns the operation that clears the parked bit of a queue.
pub(super) fn unparked(line: Line) -> Op
    ensures { result ≡ unparked line }
{
    match line {
        Line::Main => Op::And(NOT_PARKED),
        Line::Second => Op::And(NOT_WRITER_PARKED),
    }
}

/// Returns a place of a thread on its way into a queue, or out of it.
fn parks_at(line: Line, at: ParkAt) -> RwLockAt
    ensures { result ≡ parks_at line at }
{
    match line {
        Line::Main => RwLockAt::Park(at),
        Line::Second => RwLockAt::Aside(at),
    }
}

/// Where a thread looks again that does not stand in the queue, or was woken.
fn looks_again(line: Line) -> RwLockAt
    ensures { result ≡ looks_again line }
{
    match line {
        Line::Main => RwLockAt::Load,
        Line::Second => RwLockAt::Look,
    }
}

/// Returns the test of the word inside the section.
fn check(admission: Admission, access: Access, line: Line) -> Check
    ensures { result ≡ park_check admission (wanted access) line }
{
    match line {
        Line::Main => Check::Blocked {
            want: wanted(access),
            recursive: admission.recursive,
        },
        Line::Second => Check::ReadersLeft,
    }
}

pub(super) fn park_act(
    lock: usize,
    admission: Admission,
    access: Access,
    line: Line,
    at: ParkAt,
) -> Act
    requires { lock < 2 ^ 63 }
    ensures { result ≡ park_act lock admission (wanted access) line at }
{
    let key = line.key(lock);
    match at {
        ParkAt::Check => Act::Park {
            lock,
            key,
            check: check(admission, access, line),
            want: wanted(access),
        },
        ParkAt::Leave { .. } | ParkAt::GiveUp => Act::Leave {
            keys: Keys::One(key),
            wakes: Wakes::Nobody,
        },
        ParkAt::Asleep | ParkAt::Taken { .. } => Act::Sleep,
        ParkAt::Remove => Act::Remove(key),
        ParkAt::Clear => Act::Word {
            lock,
            op: unparked(line),
        },
    }
}

/// Returns whether a thread that leaves nobody in a queue, or somebody, clears its parked bit: that
/// of the second queue always.
pub(super) fn clears(line: Line, none_left: bool) -> bool
    ensures { result ≡ clears line none_left }
{
    match line {
        Line::Main => none_left,
        Line::Second => true,
    }
}

/// Where a thread goes whose time was up, after the section.
fn gave_up(place: RwLockPlace, line: Line) -> Next<RwLockPlace>
    ensures { result ≡ gave_up place line }
{
    match line {
        Line::Main => Next::End(Answer::No),
        Line::Second => place.goes(RwLockAt::RollBack, place.retries),
    }
}

pub(super) fn next_park(
    place: RwLockPlace,
    line: Line,
    at: ParkAt,
    reply: Reply,
) -> Next<RwLockPlace>
    ensures { result ≡ park_next place line at reply }
{
    let again = looks_again(line);
    let goes = |at: ParkAt| place.goes(parks_at(line, at), place.retries);
    match (at, reply) {
        (ParkAt::Check, Reply::Parked(parked)) => {
            place.goes(
                parks_at(line, ParkAt::Leave { parked }),
                place.retries && !parked,
            )
        }
        (ParkAt::Leave { parked: true }, Reply::Done) => goes(ParkAt::Asleep),
        (ParkAt::Leave { parked: false }, Reply::Done) => place.goes(again, place.retries),
        (ParkAt::Asleep, Reply::TakenBy(by)) => goes(ParkAt::Taken { by }),
        (ParkAt::Asleep | ParkAt::Taken { .. }, Reply::Woken(Note::Normal)) => {
            place.goes(again, true)
        }
        (ParkAt::Asleep, Reply::Late) => goes(ParkAt::Remove),
        (ParkAt::Remove, Reply::Removed { none_left }) => {
            if clears(line, none_left) {
                goes(ParkAt::Clear)
            } else {
                goes(ParkAt::GiveUp)
            }
        }
        (ParkAt::Clear, Reply::Value(_)) => goes(ParkAt::GiveUp),
        (ParkAt::GiveUp, Reply::Done) => gave_up(place, line),
        _ => goes(at),
    }
}
