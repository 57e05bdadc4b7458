//! How a thread waits on a condition variable.
//!
//! | place | does | then |
//! |---|---|---|
//! | `Enter` | enters the section of the condition variable | `Show` |
//! | `Show` | exchanges 0 for its mutex | `Stand` where it saw 0 or its mutex, else `Refuse` |
//! | `Stand` | stands after the last of the queue | `Leave` |
//! | `Leave` | leaves the section | `Release` |
//! | `Refuse` | leaves the section | ends with `TwoMutexes`, and owns its mutex |
//! | `Release` | releases its mutex, as `unlock` does | `Asleep`, or `Lock` where it has a note by then |
//! | `Asleep` | sleeps | `Lock` with its note; `Remove` or `RemoveMoved` where its time is up |
//! | `Remove` | leaves the queue | `Hide` where nobody is left, else `GiveUp` |
//! | `Hide` | stores 0 | `GiveUp` |
//! | `GiveUp` | leaves the section | `Lock` |
//! | `RemoveMoved` | leaves the queue of its mutex | `GiveUpMoved` |
//! | `GiveUpMoved` | leaves the section of that queue | `Lock` |
//! | `Lock` | locks its mutex, as `lock` does | ends |
ghost use Rattle.std.specs.Prelude.{◌≡◌, ◌<◌, ◌^◌};
ghost use Rattle.steps_condvar.specs.CondvarProfiles.{is_woken, taker_of, want_of, wait_row};
ghost use Rattle.steps_condvar.specs.CondvarSteps.{comes_from_another, past_release, first_lock};
ghost use Rattle.steps_condvar.specs.CondvarSteps.{late_place, relocked, released, waited, stands_after};
ghost use Rattle.steps_condvar.specs.CondvarSteps.{asleep_next, next_wait, wait_act};

use crate::places::{shown, shows};
use core_base::{Keys, Line, Note, Op, Want, main_key};
use spec_locks::Answer;
use steps_base::{Act, Next, Reply, Wakes};
use steps_mutex::{Entry, LockAt, MutexPlace, UnlockAt};

/// The state of a waiter, by what has befallen it since it joined the queue.
#[derive(Clone, Copy, PartialEq, Eq)]
pub enum WaiterFate {
    /// Nothing: it stands in the queue of the condition variable.
    Listed,
    /// The waiter was moved to the queue of its mutex.
    Moved,
    /// Taken by a thread that has not left its sections yet.
    InHand { by: usize },
    /// The thread that took it has handed it the mutex, and not left its section yet.
    Handed { by: usize },
    /// The waiter has its wake note.
    Noted(Note),
}

/// Where a thread stands that waits.
#[derive(Clone, Copy, PartialEq, Eq)]
pub enum WaitAt {
    Enter,
    Show,
    /// The mutex of the wait is shown.
    Stand,
    Leave,
    /// Another mutex is shown.
    Refuse,
    /// Releases the mutex. The waiter may be moved, taken, handed the mutex and woken meanwhile.
    Release { stands: WaiterFate, at: MutexPlace },
    Asleep(WaiterFate),
    /// Late, inside the section and still in the queue.
    Remove,
    /// Late, and none is left in the queue.
    Hide,
    /// Late, after its removal.
    GiveUp,
    /// Late, inside the section of its mutex, and still in that queue.
    RemoveMoved,
    /// Whether nobody is left in that queue, whose bit it leaves.
    GiveUpMoved { none_left: bool },
    /// Locks the mutex again. The time was up while the waiter stood in the queue of the condition
    /// variable, or somebody moved it.
    Lock { timed_out: bool, at: MutexPlace },
}

impl WaiterFate {
    /// The thread in whose hand it is.
    pub(super) fn taker(self) -> Option<usize>
        ensures { result ≡ taker_of self }
    {
        match self {
            WaiterFate::InHand { by } | WaiterFate::Handed { by } => Some(by),
            _ => None,
        }
    }

    /// Returns what the thread waits for.
    pub(super) fn wants(self) -> Want
        ensures { result ≡ want_of self }
    {
        match self {
            WaiterFate::Listed => Want::Wait,
            _ => Want::Exclusive,
        }
    }

    /// Returns whether it was woken, and not handed its mutex.
    pub(super) fn is_woken(self) -> bool
        ensures { result ≡ is_woken self }
    {
        matches!(self, WaiterFate::Noted(Note::Normal))
    }
}

impl WaitAt {
    /// Returns whether the thread owes a wake on the queue of the condition variable.
    pub(super) fn owes(self) -> bool
        ensures { result ≡ (wait_row 0 self).owes }
    {
        matches!(
            self,
            WaitAt::Show
                | WaitAt::Stand
                | WaitAt::Leave
                | WaitAt::Refuse
                | WaitAt::Remove
                | WaitAt::Hide
                | WaitAt::GiveUp
        )
    }

    /// Returns whether it owes one on the queue of its mutex.
    pub(super) fn owes_mutex(self) -> bool
        ensures { result ≡ (wait_row 0 self).owes_mutex }
    {
        match self {
            WaitAt::Release { at, .. } | WaitAt::Lock { at, .. } => at.owes() == Some(Line::Main),
            WaitAt::RemoveMoved | WaitAt::GiveUpMoved { .. } => true,
            _ => false,
        }
    }
}

/// Returns whether a reply tells what another thread has done to this one.
pub(super) fn comes_from_another(reply: Reply) -> bool
    ensures { result ≡ comes_from_another reply }
{
    matches!(
        reply,
        Reply::TakenBy(_) | Reply::MovedTo(_) | Reply::HandedBy { .. } | Reply::Woken(_)
    )
}

/// Returns how a thread stands after what befell it.
pub(super) fn stands_after(stands: WaiterFate, reply: Reply) -> WaiterFate
    ensures { result ≡ stands_after stands reply }
{
    match reply {
        Reply::TakenBy(by) => WaiterFate::InHand { by },
        Reply::MovedTo(_) => WaiterFate::Moved,
        Reply::HandedBy { by, .. } => WaiterFate::Handed { by },
        Reply::Woken(note) => WaiterFate::Noted(note),
        _ => stands,
    }
}

/// Returns where a thread begins to lock its mutex again.
pub(super) fn first_lock(retries: bool) -> MutexPlace
    ensures { result ≡ first_lock retries }
{
    MutexPlace::Lock {
        entry: Entry::Lock,
        retries,
        at: LockAt::First,
    }
}

/// Returns where a thread goes that has released its mutex.
fn afterwards(stands: WaiterFate) -> WaitAt
    ensures { result ≡ past_release stands }
{
    match stands {
        WaiterFate::Noted(Note::Normal) => WaitAt::Lock {
            timed_out: false,
            at: first_lock(true),
        },
        WaiterFate::Noted(Note::HandOff) => WaitAt::Lock {
            timed_out: false,
            at: MutexPlace::Lock {
                entry: Entry::Lock,
                retries: false,
                at: LockAt::Accept,
            },
        },
        stands => WaitAt::Asleep(stands),
    }
}

/// Where a thread goes whose time is up, by the queue in which it stands.
fn late_place(stands: WaiterFate) -> WaitAt
    ensures { result ≡ late_place stands }
{
    match stands {
        WaiterFate::Listed => WaitAt::Remove,
        WaiterFate::Moved => WaitAt::RemoveMoved,
        stands => WaitAt::Asleep(stands),
    }
}

/// Returns the answer of a wait that has the mutex.
fn waited(timed: bool, timed_out: bool) -> Answer
    ensures { result ≡ waited timed timed_out }
{
    if !timed {
        Answer::Ok
    } else if timed_out {
        Answer::TimedOut
    } else {
        Answer::Notified
    }
}

/// Returns where a thread goes that releases its mutex.
fn released(stands: WaiterFate, next: Next<MutexPlace>) -> WaitAt
    ensures { result ≡ released stands next }
{
    match next {
        Next::At(at) => WaitAt::Release { stands, at },
        Next::End(_) => afterwards(stands),
    }
}

/// Returns where a thread goes that locks its mutex again.
fn relocked(timed: bool, timed_out: bool, next: Next<MutexPlace>) -> Next<WaitAt>
    ensures { result ≡ relocked timed timed_out next }
{
    match next {
        Next::At(at) => Next::At(WaitAt::Lock { timed_out, at }),
        Next::End(_) => Next::End(waited(timed, timed_out)),
    }
}

/// Returns where a thread goes that sleeps.
fn asleep_next(stands: WaiterFate, reply: Reply) -> WaitAt
    ensures { result ≡ asleep_next stands reply }
{
    match reply {
        Reply::Late => late_place(stands),
        reply => afterwards(stands_after(stands, reply)),
    }
}

/// Returns where a wait goes.
pub(super) fn next_wait(mutex: usize, timed: bool, at: WaitAt, reply: Reply) -> Next<WaitAt>
    ensures { result ≡ next_wait mutex timed at reply }
{
    match (at, reply) {
        (WaitAt::Enter, Reply::Done) => Next::At(WaitAt::Show),
        (WaitAt::Show, Reply::Value(seen)) => if seen == 0 || shows(seen, mutex) {
            Next::At(WaitAt::Stand)
        } else {
            Next::At(WaitAt::Refuse)
        },
        (WaitAt::Stand, Reply::Done) => Next::At(WaitAt::Leave),
        (WaitAt::Leave, Reply::Done) => Next::At(WaitAt::Release {
            stands: WaiterFate::Listed,
            at: MutexPlace::Unlock(UnlockAt::Subtract),
        }),
        (WaitAt::Refuse, Reply::Done) => Next::End(Answer::TwoMutexes),
        (WaitAt::Release { stands, at }, reply) => if comes_from_another(reply) {
            Next::At(WaitAt::Release {
                stands: stands_after(stands, reply),
                at,
            })
        } else {
            Next::At(released(stands, at.next(reply)))
        },
        (WaitAt::Asleep(stands), reply) => Next::At(asleep_next(stands, reply)),
        (WaitAt::Remove, Reply::Removed { none_left }) => if none_left {
            Next::At(WaitAt::Hide)
        } else {
            Next::At(WaitAt::GiveUp)
        },
        (WaitAt::Hide, Reply::Value(_)) => Next::At(WaitAt::GiveUp),
        (WaitAt::GiveUp, Reply::Done) => Next::At(WaitAt::Lock {
            timed_out: true,
            at: first_lock(false),
        }),
        (WaitAt::RemoveMoved, Reply::Removed { none_left }) => {
            Next::At(WaitAt::GiveUpMoved { none_left })
        }
        (WaitAt::GiveUpMoved { .. }, Reply::Done) => Next::At(WaitAt::Lock {
            timed_out: false,
            at: first_lock(false),
        }),
        (WaitAt::Lock { timed_out, at }, reply) => relocked(timed, timed_out, at.next(reply)),
        (at, _) => Next::At(at),
    }
}

/// Returns the next act of a wait.
pub(super) fn wait_act(condvar: usize, mutex: usize, at: WaitAt) -> Act
    requires { (condvar < 2 ^ 63) × (mutex < 2 ^ 63) }
    ensures { result ≡ wait_act condvar mutex at }
{
    match at {
        WaitAt::Enter => Act::Enter(Keys::One(main_key(condvar))),
        WaitAt::Show => Act::Word {
            lock: condvar,
            op: Op::Exchange {
                from: 0,
                to: shown(mutex),
            },
        },
        WaitAt::Stand => Act::Stand {
            key: main_key(condvar),
            want: Want::Wait,
        },
        WaitAt::Leave | WaitAt::Refuse | WaitAt::GiveUp => Act::Leave {
            keys: Keys::One(main_key(condvar)),
            wakes: Wakes::Nobody,
        },
        WaitAt::Release { at, .. } | WaitAt::Lock { at, .. } => at.act(mutex),
        WaitAt::Asleep(_) => Act::Sleep,
        WaitAt::Remove => Act::Remove(main_key(condvar)),
        WaitAt::Hide => Act::Word {
            lock: condvar,
            op: Op::Store(0),
        },
        WaitAt::RemoveMoved => Act::Remove(main_key(mutex)),
        WaitAt::GiveUpMoved { .. } => Act::Leave {
            keys: Keys::One(main_key(mutex)),
            wakes: Wakes::Nobody,
        },
    }
}
