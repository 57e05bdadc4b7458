//! How an owner that saw `PARKED` in `unlock_fair` or `bump` hands the mutex over.
//!
//! | place | does | then |
//! |---|---|---|
//! | `Enter` | enters the section of the queue | `Take` |
//! | `Take` | takes the first waiter | `Store` |
//! | `Store` | stores the word: the one that it took owns the mutex | `Leave` |
//! | `Leave` | leaves the section, and wakes the new owner | ends, or enters again as it bumps |
ghost use Rattle.std.specs.Prelude.{◌≡◌, ◌<◌, ◌^◌};
ghost use Rattle.steps_mutex.specs.MutexSteps.{next_hand_off, looked, hand_off_word, hand_off_store};
ghost use Rattle.steps_mutex.specs.MutexSteps.{hand_off_act};

use crate::places::{LOCKED, MutexPlace, PARKED};
use core_base::{Keys, Note, Op, main_key};
use spec_locks::Answer;
use steps_base::{Act, Next, Reply, TakeWhich, Wakes};

/// Where an owner stands that saw `PARKED` in `unlock_fair` or `bump`.
#[derive(Clone, Copy, PartialEq, Eq)]
pub enum HandOffAt {
    Enter,
    Take,
    /// Stores the word, and thereby hands the mutex to the waiter that was taken.
    Store { any: bool, none_left: bool },
    Leave { any: bool },
}

/// Returns where an owner goes that saw `PARKED`.
pub(super) fn next_hand_off(at: HandOffAt, reply: Reply) -> Next<HandOffAt>
    ensures { result ≡ next_hand_off at reply }
{
    match (at, reply) {
        (HandOffAt::Enter, Reply::Done) => Next::At(HandOffAt::Take),
        (HandOffAt::Take, Reply::Took { any, none_left }) => {
            Next::At(HandOffAt::Store { any, none_left })
        }
        (HandOffAt::Store { any, .. }, Reply::Value(_)) => Next::At(HandOffAt::Leave { any }),
        (HandOffAt::Leave { .. }, Reply::Done) => Next::End(Answer::Ok),
        (at, _) => Next::At(at),
    }
}

/// Where an owner goes that looked for waiters: where it saw some, it hands the mutex over.
pub(super) fn looked(bumps: bool, saw_waiters: bool) -> Next<MutexPlace>
    ensures { result ≡ looked bumps saw_waiters }
{
    if saw_waiters {
        Next::At(MutexPlace::HandOff {
            bumps,
            at: HandOffAt::Enter,
        })
    } else {
        Next::End(Answer::Ok)
    }
}

/// Returns the word that a hand-off leaves: unlocked where nobody was taken, and else locked, with
/// `PARKED` where waiters are left.
pub(super) fn hand_off_word(any: bool, none_left: bool) -> u64
    ensures { result ≡ hand_off_word any none_left }
{
    match (any, none_left) {
        (false, _) => 0,
        (true, true) => LOCKED,
        (true, false) => LOCKED + PARKED,
    }
}

/// Stores the word; where somebody was taken, that one owns the mutex from then on.
pub(super) fn hand_off_store(lock: usize, any: bool, none_left: bool) -> Act
    ensures { result ≡ hand_off_store lock any none_left }
{
    let op = Op::Store(hand_off_word(any, none_left));
    if any {
        Act::HandOver { lock, op }
    } else {
        Act::Word { lock, op }
    }
}

/// Returns the next act of an owner that saw `PARKED`.
pub(super) fn hand_off_act(lock: usize, at: HandOffAt) -> Act
    requires { lock < 2 ^ 63 }
    ensures { result ≡ hand_off_act lock at }
{
    match at {
        HandOffAt::Enter => Act::Enter(Keys::One(main_key(lock))),
        HandOffAt::Take => Act::Take {
            key: main_key(lock),
            whom: TakeWhich::First,
        },
        HandOffAt::Store { any, none_left } => hand_off_store(lock, any, none_left),
        HandOffAt::Leave { any } => Act::Leave {
            keys: Keys::One(main_key(lock)),
            wakes: Wakes::taken(any, Note::HandOff),
        },
    }
}
