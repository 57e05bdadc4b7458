//! How a thread notifies the waiters of a condition variable: the first, or all. It has seen that
//! a mutex is shown.
//!
//! | place | does | then |
//! |---|---|---|
//! | `Enter` | enters the sections of the condition variable and of the mutex | `Again` |
//! | `Again` | loads the word of the condition variable | `Leave` where another mutex is shown, or none; else `Mark`, or `Hide` for all |
//! | `Hide` | stores 0 | `Mark` |
//! | `Mark` | loads the word of the mutex | `Set` where somebody owns it, else `Move` |
//! | `Set(v)` | exchanges `v` for 3 | `Move`; where that failed, as after `Mark` |
//! | `Move`, owned | moves the first, or all, to the mutex | `Clear` where it was the last one, else `Leave` |
//! | `Move`, unlocked | takes the first, and for all moves the rest | `Clear` where it was the last one, `MarkMoved` where some were moved, else `Leave` |
//! | `Clear` | stores 0 | `Leave` |
//! | `MarkMoved` | sets the bit `PARKED` of the mutex | `Leave` |
//! | `Leave` | leaves the sections, and wakes the one that it took | ends |
ghost use Rattle.std.specs.Prelude.{◌≡◌, ◌<◌, ◌^◌};
ghost use Rattle.steps_condvar.specs.CondvarSteps.{marks, again_next, moved_all, moved_one, notified};
ghost use Rattle.steps_condvar.specs.CondvarSteps.{next_notify, move_act, notify_act};

use crate::places::shows;
use core_base::{Keys, Note, Op, Requeue, main_key};
use spec_locks::Answer;
use steps_base::{Act, Next, Reply, TakeWhich, Wakes};
use steps_mutex::places::{LOCKED, PARKED, is_locked};

/// Where a thread stands that notifies.
#[derive(Clone, Copy, PartialEq, Eq)]
pub enum NotifyAt {
    Enter,
    Again,
    /// Hides the mutex that is shown, since all waiters will be moved.
    Hide,
    Mark,
    /// Somebody owns the mutex.
    Set(u64),
    /// Whether somebody owned the mutex.
    Move { locked: bool },
    /// The one that it moved or took was the last.
    Clear { any: bool },
    /// The thread has taken one and moved others.
    MarkMoved { number: usize },
    /// Whether it has taken any, and how many it has taken and moved.
    Leave { any: bool, number: usize },
}

/// Returns the answer of a notification that has moved so many.
pub(super) fn notified(all: bool, number: usize) -> Answer
    ensures { result ≡ notified all number }
{
    if all {
        Answer::Number(number)
    } else if number == 0 {
        Answer::No
    } else {
        Answer::Yes
    }
}

/// Returns where a thread goes that has seen this word of the mutex.
fn marks(seen: u64) -> NotifyAt
    ensures { result ≡ marks seen }
{
    if is_locked(seen) {
        NotifyAt::Set(seen)
    } else {
        NotifyAt::Move { locked: false }
    }
}

/// Returns where its second look leads.
fn again_next(all: bool, mutex: usize, seen: u64) -> NotifyAt
    ensures { result ≡ again_next all mutex seen }
{
    if !shows(seen, mutex) {
        NotifyAt::Leave {
            any: false,
            number: 0,
        }
    } else if all {
        NotifyAt::Hide
    } else {
        NotifyAt::Mark
    }
}

/// Returns where a thread goes that has moved or taken the first.
fn moved_one(any: bool, none_left: bool) -> NotifyAt
    ensures { result ≡ moved_one any none_left }
{
    if none_left {
        NotifyAt::Clear { any }
    } else {
        NotifyAt::Leave { any, number: 1 }
    }
}

/// Where a thread goes that has moved all, or taken the first of them.
fn moved_all(locked: bool, number: usize) -> NotifyAt
    ensures { result ≡ moved_all locked number }
{
    if !locked && 1 < number {
        NotifyAt::MarkMoved { number }
    } else {
        NotifyAt::Leave {
            any: !locked,
            number,
        }
    }
}

/// Returns where a notification goes.
pub(super) fn next_notify(all: bool, mutex: usize, at: NotifyAt, reply: Reply) -> Next<NotifyAt>
    ensures { result ≡ next_notify all mutex at reply }
{
    match (at, reply) {
        (NotifyAt::Enter, Reply::Done) => Next::At(NotifyAt::Again),
        (NotifyAt::Again, Reply::Value(seen)) => Next::At(again_next(all, mutex, seen)),
        (NotifyAt::Hide, Reply::Value(_)) => Next::At(NotifyAt::Mark),
        (NotifyAt::Mark, Reply::Value(seen)) => Next::At(marks(seen)),
        (NotifyAt::Set(expected), Reply::Value(seen)) => if seen == expected {
            Next::At(NotifyAt::Move { locked: true })
        } else {
            Next::At(marks(seen))
        },
        (NotifyAt::Move { .. }, Reply::Took { any, none_left }) => {
            Next::At(moved_one(any, none_left))
        }
        (NotifyAt::Move { locked }, Reply::Requeued { number, none_left }) => if all {
            Next::At(moved_all(locked, number))
        } else {
            Next::At(moved_one(false, none_left))
        },
        (NotifyAt::Clear { any }, Reply::Value(_)) => Next::At(NotifyAt::Leave { any, number: 1 }),
        (NotifyAt::MarkMoved { number }, Reply::Value(_)) => {
            Next::At(NotifyAt::Leave { any: true, number })
        }
        (NotifyAt::Leave { number, .. }, Reply::Done) => Next::End(notified(all, number)),
        (at, _) => Next::At(at),
    }
}

/// Returns the act that moves waiters, and takes one where the mutex is free.
fn move_act(all: bool, locked: bool, condvar: usize, mutex: usize) -> Act
    requires { (condvar < 2 ^ 63) × (mutex < 2 ^ 63) }
    ensures { result ≡ move_act all locked condvar mutex }
{
    let (from, to) = (main_key(condvar), main_key(mutex));
    if all {
        let how = if locked {
            Requeue::All
        } else {
            Requeue::TakeOneMoveRest
        };
        return Act::Requeue { from, to, how };
    }
    if locked {
        return Act::Requeue {
            from,
            to,
            how: Requeue::One,
        };
    }
    Act::Take {
        key: from,
        whom: TakeWhich::First,
    }
}

/// Returns the next act of a notification.
pub(super) fn notify_act(all: bool, condvar: usize, mutex: usize, at: NotifyAt) -> Act
    requires { (condvar < 2 ^ 63) × (mutex < 2 ^ 63) }
    ensures { result ≡ notify_act all condvar mutex at }
{
    match at {
        NotifyAt::Enter => Act::Enter(Keys::Two(main_key(condvar), main_key(mutex))),
        NotifyAt::Again => Act::Word {
            lock: condvar,
            op: Op::Load,
        },
        NotifyAt::Hide | NotifyAt::Clear { .. } => Act::Word {
            lock: condvar,
            op: Op::Store(0),
        },
        NotifyAt::Mark => Act::Word {
            lock: mutex,
            op: Op::Load,
        },
        NotifyAt::Set(seen) => Act::Word {
            lock: mutex,
            op: Op::Exchange {
                from: seen,
                to: LOCKED + PARKED,
            },
        },
        NotifyAt::Move { locked } => move_act(all, locked, condvar, mutex),
        NotifyAt::MarkMoved { .. } => Act::Word {
            lock: mutex,
            op: Op::Or(PARKED),
        },
        NotifyAt::Leave { any, .. } => Act::Leave {
            keys: Keys::Two(main_key(condvar), main_key(mutex)),
            wakes: Wakes::taken(any, Note::Normal),
        },
    }
}
