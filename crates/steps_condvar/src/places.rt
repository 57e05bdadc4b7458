//! The steps of a condition variable.
//!
//! | word | means |
//! |---|---|
//! | 0 | nobody waits |
//! | `m + 1` | somebody may wait, with the mutex `m` |
//!
//! A thread that waits, and one that a notification takes or moves, is also in a call of its mutex.
ghost use Rattle.std.specs.Prelude.{ℕ, ◌≡◌, ◌<◌, ◌^◌};
ghost use Rattle.steps_base.specs.Acts.{outcome_of};
ghost use Rattle.steps_condvar.specs.CondvarProfiles.{condvar_taker, condvar_wants, condvar_late_key};
ghost use Rattle.steps_condvar.specs.CondvarProfiles.{condvar_owes, condvar_retries};
ghost use Rattle.steps_condvar.specs.CondvarSteps.{HasMutexKey, condvar_act, condvar_first, condvar_respin};
ghost use Rattle.steps_condvar.specs.CondvarSteps.{condvar_next, condvar_owners, condvar_right, is_shown};
ghost use Rattle.steps_condvar.specs.CondvarSteps.{look_next, mutex_beside, mutex_shown, shown_as};

use crate::notify::{NotifyAt, next_notify, notified, notify_act};
use crate::wait::{WaitAt, WaiterFate, next_wait, wait_act};
use core_base::{Key, Op, Want, main_key};
use spec_locks::{CondvarCall, Outcome};
use steps_base::{Act, Next, Owners, Reply};
use steps_mutex::MutexPlace;

/// Where a thread stands in a call of a condition variable.
#[derive(Clone, Copy, PartialEq, Eq)]
pub enum CondvarPlace {
    Wait {
        mutex: usize,
        timed: bool,
        at: WaitAt,
    },
    /// Looks which mutex is shown, to notify the first or all.
    Look {
        all: bool,
    },
    /// Notifies, having seen this mutex.
    Notify {
        all: bool,
        mutex: usize,
        at: NotifyAt,
    },
}

/// Returns the word that shows a mutex.
pub fn shown(mutex: usize) -> u64
    requires { mutex < 2 ^ 63 }
    ensures { result ≡ shown_as mutex }
{
    mutex as u64 + 1
}

/// Returns whether a word shows this mutex.
pub fn shows(word: u64, mutex: usize) -> bool
    ensures { result ≡ is_shown word mutex }
{
    word != 0 && word - 1 == mutex as u64
}

/// Returns where a notification goes by the word that it sees first.
fn look_next(all: bool, seen: u64) -> Next<CondvarPlace>
    ensures { result ≡ look_next all seen }
{
    if seen == 0 {
        return Next::End(notified(all, 0));
    }
    Next::At(CondvarPlace::Notify {
        all,
        mutex: (seen - 1) as usize,
        at: NotifyAt::Enter,
    })
}

/// Returns whether a thread has the right that a call needs: of a wait, to the mutex that it names,
/// with these owners.
pub fn condvar_right(call: CondvarCall, thread: usize, owners: Owners) -> bool
    ensures { result ≡ condvar_right call thread owners }
{
    match call {
        CondvarCall::Wait { .. } => owners.exclusive == Some(thread),
        CondvarCall::Notify { .. } => true,
    }
}

impl CondvarPlace {
    /// Returns where a call begins.
    pub fn first(call: CondvarCall) -> CondvarPlace
        ensures { result ≡ condvar_first call }
    {
        match call {
            CondvarCall::Wait { mutex, timed } => CondvarPlace::Wait {
                mutex,
                timed,
                at: WaitAt::Enter,
            },
            CondvarCall::Notify { all } => CondvarPlace::Look { all },
        }
    }

    /// Returns the mutex that a wait names, or that a notification has seen.
    pub fn mutex(self) -> Option<usize>
        ensures { result ≡ mutex_beside self }
    {
        match self {
            CondvarPlace::Wait { mutex, .. } | CondvarPlace::Notify { mutex, .. } => Some(mutex),
            CondvarPlace::Look { .. } => None,
        }
    }

    /// Returns the thread's next act.
    pub fn act(self, condvar: usize) -> Act
        requires { (condvar < 2 ^ 63) × HasMutexKey self }
        ensures { result ≡ condvar_act condvar self }
    {
        match self {
            CondvarPlace::Wait { mutex, at, .. } => wait_act(condvar, mutex, at),
            CondvarPlace::Look { .. } => Act::Word {
                lock: condvar,
                op: Op::Load,
            },
            CondvarPlace::Notify { all, mutex, at } => notify_act(all, condvar, mutex, at),
        }
    }

    /// Returns the outcome that a thread is told when it comes here.
    pub fn outcome(self) -> Outcome
        ensures { (c : ℕ) → result ≡ outcome_of (condvar_act c self) }
    {
        match self {
            CondvarPlace::Wait {
                at: WaitAt::Asleep(_),
                ..
            } => Outcome::Sleep,
            CondvarPlace::Wait {
                at: WaitAt::Release { at, .. } | WaitAt::Lock { at, .. },
                ..
            } => at.outcome(),
            _ => Outcome::Step,
        }
    }

    /// Returns where the reply leads the thread.
    pub fn next(self, reply: Reply) -> Next<CondvarPlace>
        ensures { result ≡ condvar_next self reply }
    {
        match self {
            CondvarPlace::Wait { mutex, timed, at } => match next_wait(mutex, timed, at, reply) {
                Next::At(at) => Next::At(CondvarPlace::Wait { mutex, timed, at }),
                Next::End(answer) => Next::End(answer),
            },
            CondvarPlace::Look { all } => match reply {
                Reply::Value(seen) => look_next(all, seen),
                _ => Next::At(self),
            },
            CondvarPlace::Notify { all, mutex, at } => match next_notify(all, mutex, at, reply) {
                Next::At(at) => Next::At(CondvarPlace::Notify { all, mutex, at }),
                Next::End(answer) => Next::End(answer),
            },
        }
    }

    /// Returns the owners of the mutex, or the mutex that is shown, after the thread's operation on
    /// a word. The operation saw this value.
    pub fn owners_after(self, thread: usize, seen: u64, owners: Owners) -> Owners
        ensures { result ≡ condvar_owners self thread seen owners }
    {
        match self {
            CondvarPlace::Wait {
                at: WaitAt::Release { at, .. } | WaitAt::Lock { at, .. },
                ..
            } => at.owners_after(thread, seen, owners),
            CondvarPlace::Wait {
                mutex,
                at: WaitAt::Show,
                ..
            } if seen == 0 => owners.with_shown(Some(mutex)),
            CondvarPlace::Wait {
                at: WaitAt::Hide,
                ..
            }
            | CondvarPlace::Notify {
                at: NotifyAt::Hide | NotifyAt::Clear { .. },
                ..
            } => owners.with_shown(None),
            _ => owners,
        }
    }

    /// Returns the thread that took this one from a queue, and has not left its sections yet.
    pub fn taker(self) -> Option<usize>
        ensures { result ≡ condvar_taker self }
    {
        match self {
            CondvarPlace::Wait { at, .. } => match at {
                WaitAt::Release { stands, .. } | WaitAt::Asleep(stands) => stands.taker(),
                WaitAt::Lock { at, .. } => at.taker(),
                _ => None,
            },
            _ => None,
        }
    }

    /// Returns what the thread wants, where it waits: to be notified, or the mutex.
    pub fn wants(self) -> Option<Want>
        ensures { result ≡ condvar_wants self }
    {
        match self {
            CondvarPlace::Wait { at, .. } => match at {
                WaitAt::Release { stands, .. } | WaitAt::Asleep(stands) => Some(stands.wants()),
                WaitAt::RemoveMoved | WaitAt::GiveUpMoved { .. } => Some(Want::Exclusive),
                WaitAt::Lock { at, .. } => at.wants(),
                _ => Some(Want::Wait),
            },
            _ => None,
        }
    }

    /// From where the thread looks at its mutex once more, in place of an act that leads to sleep.
    pub fn respins_from(self) -> Option<CondvarPlace>
        ensures { result ≡ condvar_respin self }
    {
        match self {
            CondvarPlace::Wait {
                mutex,
                timed,
                at: WaitAt::Lock { timed_out, at },
            } => {
                let at = WaitAt::Lock {
                    timed_out,
                    at: at.respins_from()?,
                };
                Some(CondvarPlace::Wait { mutex, timed, at })
            }
            _ => None,
        }
    }

    /// Returns the key under which the thread sleeps, where it may give up.
    pub fn late_key(self, condvar: usize) -> Option<Key>
        requires { (condvar < 2 ^ 63) × HasMutexKey self }
        ensures { result ≡ condvar_late_key condvar self }
    {
        match self {
            CondvarPlace::Wait {
                timed: true,
                mutex,
                at: WaitAt::Asleep(stands),
            } => match stands {
                WaiterFate::Listed => Some(main_key(condvar)),
                WaiterFate::Moved => Some(main_key(mutex)),
                _ => None,
            },
            _ => None,
        }
    }

    /// Returns whether the thread owes a wake on the queue of this lock.
    pub fn owes_on(self, condvar: usize, lock: usize) -> bool
        ensures { result ≡ condvar_owes condvar lock self }
    {
        match self {
            CondvarPlace::Wait { mutex, at, .. } => {
                (at.owes() && lock == condvar) || (at.owes_mutex() && lock == mutex)
            }
            CondvarPlace::Look { .. } => false,
            CondvarPlace::Notify { mutex, at, .. } => {
                !matches!(at, NotifyAt::Enter) && (lock == condvar || lock == mutex)
            }
        }
    }

    /// Returns whether the thread was woken and tries to lock its mutex.
    pub fn retries(self) -> bool
        ensures { result ≡ condvar_retries self }
    {
        match self {
            CondvarPlace::Wait { at, .. } => match at {
                WaitAt::Release { stands, .. } | WaitAt::Asleep(stands) => stands.is_woken(),
                WaitAt::Lock { at, .. } => at.retries(),
                _ => false,
            },
            _ => false,
        }
    }
}
