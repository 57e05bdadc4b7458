//! How an owner that releases fairly, or bumps, hands the lock over.
//!
//! | place | does | then |
//! |---|---|---|
//! | `Load` (upgradable) | loads | `Enter` where somebody may wait, else `Free` |
//! | `Free(v)` | exchanges `v` for `v` without its right | released; else `Enter`, or an upgradable owner looks at the value seen |
//! | `Enter` | enters the section of the main queue | `Take` |
//! | `Take` | takes those that the lock lets in once the owner has gone | `Store`, or `Look` of an upgradable owner |
//! | `Store` (exclusive) | stores the word: all that it has taken own | `Leave` |
//! | `Look` (upgradable) | loads | `Exchange` |
//! | `Exchange` (upgradable) | exchanges the word seen for one in which all that it has taken own; where there is no room for them, it only releases | `Leave`, or `Exchange` again |
//! | `Leave` | leaves the section, and wakes the threads that it has taken: where it handed nothing over, they try again | ends, or enters again as it bumps |
ghost use Rattle.std.specs.Prelude.{◌≡◌, ◌<◌, ◌^◌};
ghost use Rattle.steps_rwlock_fair.specs.FairSteps.{token_of, tokens, any_taken, has_room, parked_as};
ghost use Rattle.steps_rwlock_fair.specs.FairSteps.{word_without, with_taken, looked, freed_next, took};
ghost use Rattle.steps_rwlock_fair.specs.FairSteps.{exchange_act, hand_over_act, hand_over_next, released};
ghost use Rattle.steps_rwlock_fair.specs.FairSteps.{lets_right_go};
ghost use Rattle.steps_rwlock_fair.specs.FairProfiles.{owes_handing};

use crate::places::{RwLockCallPlace, enters_again};
use core_base::{Keys, Note, Op, Want, main_key};
use spec_locks::{Access, Answer};
use steps_base::bits::{count_in, has_parked};
use steps_base::{Act, Next, Reply, TakeWhich, Wakes};
use steps_rwlock::Admission;
use steps_rwlock::places::{PARKED, READER, UPGRADABLE, WRITER};
use steps_rwlock::purposes::token;

/// The waiters that an owner has taken, to hand them the lock.
#[derive(Clone, Copy, PartialEq, Eq)]
pub struct Taken {
    /// How many of them want to share.
    pub sharers: usize,
    /// The want of the one among them that wants more than to share, if there is one.
    pub successor: Option<Want>,
    /// Whether nobody is left in the queue.
    pub none_left: bool,
}

/// Where an owner stands that hands the lock over.
#[derive(Clone, Copy, PartialEq, Eq)]
pub enum HandOverAt {
    Load,
    /// The word that it saw last tells of nobody that waits.
    Free(u64),
    Enter,
    /// Inside the section.
    Take,
    Store(Taken),
    Look(Taken),
    Exchange { taken: Taken, seen: u64 },
    /// Whether it has anybody in hand, and whether it has handed them the lock.
    Leave { any: bool, handed: bool },
}

impl HandOverAt {
    /// Returns whether the operation on the word, which saw this value, gives the right up.
    pub(super) fn gives_up(self, seen: u64) -> bool
        ensures { result ≡ lets_right_go self seen }
    {
        match self {
            HandOverAt::Free(expected) | HandOverAt::Exchange { seen: expected, .. } => {
                seen == expected
            }
            HandOverAt::Store(_) => true,
            _ => false,
        }
    }

    /// Returns whether somebody may wait for the thread: from the step that saw so until it leaves
    /// the section.
    pub(super) fn owes(self) -> bool
        ensures { result ≡ owes_handing self }
    {
        !matches!(self, HandOverAt::Load | HandOverAt::Free(_))
    }
}

/// Returns the number that a successor's right adds to the word.
fn token_of(successor: Option<Want>) -> u64
    ensures { result ≡ token_of successor }
{
    match successor {
        None => 0,
        Some(Want::Shared) => READER,
        Some(Want::Upgradable) => READER + UPGRADABLE,
        Some(_) => WRITER,
    }
}

/// Returns a word with `PARKED` where somebody is left in the queue.
fn parked_as(none_left: bool, word: u64) -> u64
    ensures { result ≡ parked_as none_left word }
{
    let clear = word - word % 2;
    if none_left { clear } else { clear + PARKED }
}

/// Returns the word without a right.
fn without(access: Access, seen: u64) -> u64
    ensures { result ≡ word_without access seen }
{
    seen.wrapping_sub(token(access))
}

impl Taken {
    fn any(self) -> bool
        ensures { result ≡ any_taken self }
    {
        self.sharers != 0 || self.successor.is_some()
    }

    /// Returns the number that their rights add to the word.
    fn tokens(self) -> u64
        ensures { result ≡ tokens self }
    {
        let shared = (self.sharers as u64).wrapping_mul(READER);
        shared.wrapping_add(token_of(self.successor))
    }

    /// Returns whether there is room for them once an upgradable owner has gone that saw this word.
    fn has_room(self, limit: u64, seen: u64) -> bool
        ensures { result ≡ has_room limit self seen }
    {
        let others = count_in(seen).saturating_sub(1);
        if limit < others {
            return false;
        }
        let room = limit - others;
        match self.successor {
            Some(Want::Upgradable) => (self.sharers as u64) < room,
            _ => self.sharers as u64 <= room,
        }
    }

    /// Returns the word in which all of them own, and the one with this right no longer.
    fn handed(self, access: Access, seen: u64) -> u64
        ensures { result ≡ with_taken access self seen }
    {
        parked_as(
            self.none_left,
            without(access, seen).wrapping_add(self.tokens()),
        )
    }
}

/// Returns an exchange hands the lock over where there is room, and else only gives the right up.
fn exchange_act(lock: usize, limit: u64, access: Access, taken: Taken, seen: u64) -> Act
    ensures { result ≡ exchange_act lock limit access taken seen }
{
    if taken.has_room(limit, seen) {
        Act::HandOver {
            lock,
            op: Op::Exchange {
                from: seen,
                to: taken.handed(access, seen),
            },
        }
    } else {
        Act::Word {
            lock,
            op: Op::Exchange {
                from: seen,
                to: parked_as(taken.none_left, without(access, seen)),
            },
        }
    }
}

pub(super) fn hand_over_act(
    lock: usize,
    admission: Admission,
    access: Access,
    at: HandOverAt,
) -> Act
    requires { lock < 2 ^ 63 }
    ensures { result ≡ hand_over_act lock admission access at }
{
    let key = main_key(lock);
    match at {
        HandOverAt::Load | HandOverAt::Look(_) => Act::Word { lock, op: Op::Load },
        HandOverAt::Free(seen) => Act::Word {
            lock,
            op: Op::Exchange {
                from: seen,
                to: without(access, seen),
            },
        },
        HandOverAt::Enter => Act::Enter(Keys::One(key)),
        HandOverAt::Take => Act::Take {
            key,
            whom: TakeWhich::Picked {
                start: None,
                recursive: admission.recursive,
            },
        },
        HandOverAt::Store(taken) => Act::HandOver {
            lock,
            op: Op::Store(parked_as(taken.none_left, taken.tokens())),
        },
        HandOverAt::Exchange { taken, seen } => {
            exchange_act(lock, admission.limit, access, taken, seen)
        }
        HandOverAt::Leave { any, handed } => Act::Leave {
            keys: Keys::One(key),
            wakes: Wakes::taken(any, if handed { Note::HandOff } else { Note::Normal }),
        },
    }
}

/// Returns where an upgradable owner goes by a value that it saw.
fn looked(seen: u64) -> HandOverAt
    ensures { result ≡ looked seen }
{
    if has_parked(seen) {
        HandOverAt::Enter
    } else {
        HandOverAt::Free(seen)
    }
}

/// Returns where an owner goes whose exchange found another value.
fn freed_next(access: Access, seen: u64) -> HandOverAt
    ensures { result ≡ freed_next access seen }
{
    match access {
        Access::Upgradable => looked(seen),
        _ => HandOverAt::Enter,
    }
}

/// Returns the place after a take.
fn took(access: Access, taken: Taken) -> HandOverAt
    ensures { result ≡ took access taken }
{
    match access {
        Access::Upgradable => HandOverAt::Look(taken),
        _ => HandOverAt::Store(taken),
    }
}

/// Returns where a thread goes that has given its right up: a bump enters again.
fn released(access: Access, bumps: bool) -> Next<RwLockCallPlace>
    ensures { result ≡ released access bumps }
{
    if bumps {
        Next::At(enters_again(access))
    } else {
        Next::End(Answer::Ok)
    }
}

pub(super) fn hand_over_next(
    admission: Admission,
    access: Access,
    bumps: bool,
    at: HandOverAt,
    reply: Reply,
) -> Next<RwLockCallPlace>
    ensures { result ≡ hand_over_next admission access bumps at reply }
{
    let goes = |at: HandOverAt| Next::At(RwLockCallPlace::HandOver { access, bumps, at });
    match (at, reply) {
        (HandOverAt::Load, Reply::Value(seen)) => goes(looked(seen)),
        (HandOverAt::Free(expected), Reply::Value(seen)) if seen == expected => {
            released(access, bumps)
        }
        (HandOverAt::Free(_), Reply::Value(seen)) => goes(freed_next(access, seen)),
        (HandOverAt::Enter, Reply::Done) => goes(HandOverAt::Take),
        (
            HandOverAt::Take,
            Reply::Picked {
                sharers,
                successor,
                none_left,
            },
        ) => goes(took(
            access,
            Taken {
                sharers,
                successor,
                none_left,
            },
        )),
        (HandOverAt::Store(taken), Reply::Value(_)) => goes(HandOverAt::Leave {
            any: taken.any(),
            handed: true,
        }),
        (HandOverAt::Look(taken), Reply::Value(seen)) => goes(HandOverAt::Exchange { taken, seen }),
        (
            HandOverAt::Exchange {
                taken,
                seen: expected,
            },
            Reply::Value(seen),
        ) if seen == expected => {
            goes(HandOverAt::Leave {
                any: taken.any(),
                handed: taken.has_room(admission.limit, seen),
            })
        }
        (HandOverAt::Exchange { taken, .. }, Reply::Value(seen)) => {
            goes(HandOverAt::Exchange { taken, seen })
        }
        (HandOverAt::Leave { .. }, Reply::Done) => released(access, bumps),
        _ => goes(at),
    }
}
