//! Where a thread stands, and where each step leads it.
//!
//! `advance` has the condition that the lock's number is below 2^63, so that its keys are numbers.
//! Every place of a world meets it.
ghost use Rattle.std.specs.Prelude.{◌≡◌};
ghost use Rattle.steps_base.specs.Acts.{outcome_of};
ghost use Rattle.lot_steps.specs.Steps.{HasKeys, ShowsKeys, first_place, has_right, act_of, next_place};
ghost use Rattle.lot_steps.specs.Steps.{next_act, owners_after, shares_after, taker, wants, respins_from};
ghost use Rattle.lot_steps.specs.Steps.{late_key, owes_on, retries_on, is_idle};

use core_base::{Key, Want};
use spec_locks::{Call, Kind, Outcome};
use steps_base::{Act, Next, Owners, Reply};
use steps_condvar::{CondvarPlace, condvar_right};
use steps_mutex::{MutexPlace, mutex_right};
use steps_once::OncePlace;
use steps_rwlock::Admission;
use steps_rwlock_fair::{RwLockCallPlace, call_right};
use steps_semaphore::{SemaphorePlace, semaphore_right};

/// Where a thread stands: in no call, or in a call of a lock, with all that the call remembers.
#[derive(Clone, Copy, PartialEq, Eq)]
pub enum Place {
    Idle,
    Mutex {
        lock: usize,
        at: MutexPlace,
    },
    RwLock {
        lock: usize,
        admission: Admission,
        at: RwLockCallPlace,
    },
    Once {
        lock: usize,
        at: OncePlace,
    },
    Condvar {
        lock: usize,
        at: CondvarPlace,
    },
    Semaphore {
        lock: usize,
        at: SemaphorePlace,
    },
}

impl Place {
    /// Returns where a call of a lock of this kind begins.
    pub fn first(kind: Kind, call: Call) -> Place
        ensures { result ≡ first_place kind call }
    {
        match call {
            Call::Mutex { lock, call } => Place::Mutex {
                lock,
                at: MutexPlace::first(call, kind.is_fair()),
            },
            Call::RwLock { lock, call } => Place::RwLock {
                lock,
                admission: Admission::of(kind),
                at: RwLockCallPlace::first(call),
            },
            Call::Once { lock, call } => Place::Once {
                lock,
                at: OncePlace::first(call),
            },
            Call::Condvar { lock, call } => Place::Condvar {
                lock,
                at: CondvarPlace::first(call),
            },
            Call::Semaphore { lock, call } => Place::Semaphore {
                lock,
                at: SemaphorePlace::first(call),
            },
        }
    }

    pub fn is_idle(&self) -> bool
        ensures { result ≡ is_idle self.now }
    {
        matches!(self, Place::Idle)
    }

    /// Returns the thread's next act.
    pub fn act(self) -> Act
        requires { HasKeys self }
        ensures { result ≡ act_of self }
    {
        match self {
            Place::Idle => Act::Rest,
            Place::Mutex { lock, at } => at.act(lock),
            Place::RwLock {
                lock,
                admission,
                at,
            } => at.act(lock, admission),
            Place::Once { lock, at } => at.act(lock),
            Place::Condvar { lock, at } => at.act(lock),
            Place::Semaphore { lock, at } => at.act(lock),
        }
    }

    /// Takes the step of `advance`, of a place that is kept: a running thread copies none of it.
    pub fn advance_in_place(&mut self, reply: Reply) -> Act
        requires keys { HasKeys self.old }
        requires shown { ShowsKeys self.old reply }
        ensures place { self.new ≡ next_place self.old reply }
        ensures act { result ≡ next_act self.old reply }
    {
        let answer = match self {
            Place::Idle => return Act::Rest,
            Place::Mutex { lock, at } => match at.next(reply) {
                Next::At(next) => {
                    *at = next;
                    return next.act(*lock);
                }
                Next::End(answer) => answer,
            },
            Place::RwLock {
                lock,
                admission,
                at,
            } => match at.next(*admission, reply) {
                Next::At(next) => {
                    *at = next;
                    return next.act(*lock, *admission);
                }
                Next::End(answer) => answer,
            },
            Place::Once { lock, at } => match at.next(reply) {
                Next::At(next) => {
                    *at = next;
                    return next.act(*lock);
                }
                Next::End(answer) => answer,
            },
            Place::Condvar { lock, at } => match at.next(reply) {
                Next::At(next) => {
                    *at = next;
                    return next.act(*lock);
                }
                Next::End(answer) => answer,
            },
            Place::Semaphore { lock, at } => match at.next(reply) {
                Next::At(next) => {
                    *at = next;
                    return next.act(*lock);
                }
                Next::End(answer) => answer,
            },
        };
        self.end();
        Act::End(answer)
    }

    /// The call is over.
    fn end(&mut self)
        ensures { self.new ≡ Place.Idle }
    {
        *self = Place::Idle;
    }

    /// The step of every call: where the reply to its act leads a thread. Returns what the thread
    /// is told.
    pub fn step(&mut self, reply: Reply) -> Outcome
        ensures place { self.new ≡ next_place self.old reply }
        ensures outcome { result ≡ outcome_of (next_act self.old reply) }
    {
        let answer = match self {
            Place::Idle => return Outcome::Step,
            Place::Mutex { at, .. } => match at.next(reply) {
                Next::At(next) => {
                    *at = next;
                    return next.outcome();
                }
                Next::End(answer) => answer,
            },
            Place::RwLock { admission, at, .. } => match at.next(*admission, reply) {
                Next::At(next) => {
                    *at = next;
                    return next.outcome(*admission);
                }
                Next::End(answer) => answer,
            },
            Place::Once { at, .. } => match at.next(reply) {
                Next::At(next) => {
                    *at = next;
                    return next.outcome();
                }
                Next::End(answer) => answer,
            },
            Place::Condvar { at, .. } => match at.next(reply) {
                Next::At(next) => {
                    *at = next;
                    return next.outcome();
                }
                Next::End(answer) => answer,
            },
            Place::Semaphore { at, .. } => match at.next(reply) {
                Next::At(next) => {
                    *at = next;
                    return next.outcome();
                }
                Next::End(answer) => answer,
            },
        };
        self.end();
        Outcome::End(answer)
    }

    /// Returns the outcome that a thread is told when it comes here.
    pub fn outcome(&self) -> Outcome
        ensures { result ≡ outcome_of (act_of self.now) }
    {
        match self {
            Place::Idle => Outcome::Step,
            Place::Mutex { at, .. } => at.outcome(),
            Place::RwLock { admission, at, .. } => at.outcome(*admission),
            Place::Once { at, .. } => at.outcome(),
            Place::Condvar { at, .. } => at.outcome(),
            Place::Semaphore { at, .. } => at.outcome(),
        }
    }

    /// Where the reply to its act, or what befalls it asleep, leads the thread.
    pub fn next_place(self, reply: Reply) -> Place
        ensures { result ≡ next_place self reply }
    {
        let mut next = self;
        next.step(reply);
        next
    }

    /// Returns the owners of the lock after the thread's operation on its word, which saw this
    /// value. The threads to which the operation hands the lock are told so, and own it too.
    pub fn owners_after(&self, thread: usize, seen: u64, owners: Owners) -> Owners
        ensures { result ≡ owners_after self.now thread seen owners }
    {
        match self {
            Place::Idle => owners,
            Place::Mutex { at, .. } => at.owners_after(thread, seen, owners),
            Place::RwLock { admission, at, .. } => {
                at.owners_after(*admission, thread, seen, owners)
            }
            Place::Once { at, .. } => at.owners_after(thread, seen, owners),
            Place::Condvar { at, .. } => at.owners_after(thread, seen, owners),
            Place::Semaphore { .. } => owners,
        }
    }

    /// Returns how many shared rights of the lock the thread has after its operation on the word,
    /// which saw this value. None where their number stays.
    pub fn shares_after(&self, seen: u64, shares: usize) -> Option<usize>
        ensures { result ≡ shares_after self.now seen shares }
    {
        match self {
            Place::Idle | Place::Mutex { .. } | Place::Once { .. } | Place::Condvar { .. } => None,
            Place::RwLock { admission, at, .. } => at.shares_after(*admission, seen, shares),
            Place::Semaphore { at, .. } => at.shares_after(seen, shares),
        }
    }

    /// Returns what the thread wants, where it waits.
    pub fn wants(&self) -> Option<Want>
        ensures { result ≡ wants self.now }
    {
        match self {
            Place::Idle => None,
            Place::Mutex { at, .. } => at.wants(),
            Place::RwLock { at, .. } => at.wants(),
            Place::Once { at, .. } => at.wants(),
            Place::Condvar { at, .. } => at.wants(),
            Place::Semaphore { at, .. } => at.wants(),
        }
    }

    /// Returns the thread that took this one from its queue, and has not left its section yet.
    pub fn taker(&self) -> Option<usize>
        ensures { result ≡ taker self.now }
    {
        match self {
            Place::Idle => None,
            Place::Mutex { at, .. } => at.taker(),
            Place::RwLock { at, .. } => at.taker(),
            Place::Once { at, .. } => at.taker(),
            Place::Condvar { at, .. } => at.taker(),
            Place::Semaphore { at, .. } => at.taker(),
        }
    }

    /// From where the thread looks at the word once more, in place of an act that leads to sleep.
    pub fn respins_from(self) -> Option<Place>
        ensures { result ≡ respins_from self }
    {
        match self {
            Place::Idle => None,
            Place::Mutex { lock, at } => {
                let at = at.respins_from()?;
                Some(Place::Mutex { lock, at })
            }
            Place::RwLock {
                lock,
                admission,
                at,
            } => {
                let at = at.respins_from(admission)?;
                Some(Place::RwLock {
                    lock,
                    admission,
                    at,
                })
            }
            Place::Once { lock, at } => {
                let at = at.respins_from()?;
                Some(Place::Once { lock, at })
            }
            Place::Condvar { lock, at } => {
                let at = at.respins_from()?;
                Some(Place::Condvar { lock, at })
            }
            Place::Semaphore { lock, at } => {
                let at = at.respins_from()?;
                Some(Place::Semaphore { lock, at })
            }
        }
    }

    /// Returns the key under which the thread sleeps in a timed call, where it may give up.
    pub fn late_key(self) -> Option<Key>
        requires { HasKeys self }
        ensures { result ≡ late_key self }
    {
        match self {
            Place::Idle => None,
            Place::Condvar { lock, at } => at.late_key(lock),
            Place::Mutex { lock, at } => match at.late_line() {
                Some(line) => Some(line.key(lock)),
                None => None,
            },
            Place::RwLock { lock, at, .. } => match at.late_line() {
                Some(line) => Some(line.key(lock)),
                None => None,
            },
            Place::Once { lock, at } => match at.late_line() {
                Some(line) => Some(line.key(lock)),
                None => None,
            },
            Place::Semaphore { lock, at } => match at.late_line() {
                Some(line) => Some(line.key(lock)),
                None => None,
            },
        }
    }

    /// Returns whether the thread owes a wake on a lock: from the step that saw waiters of one of
    /// its queues, or from entering the section, until it leaves that section.
    pub fn owes_on(&self, lock: usize) -> bool
        ensures { result ≡ owes_on self.now lock }
    {
        match self {
            Place::Idle => false,
            Place::Mutex { lock: own, at } => *own == lock && at.owes().is_some(),
            Place::RwLock { lock: own, at, .. } => *own == lock && at.owes().is_some(),
            Place::Once { lock: own, at } => *own == lock && at.owes().is_some(),
            Place::Condvar { lock: own, at } => at.owes_on(*own, lock),
            Place::Semaphore { lock: own, at } => *own == lock && at.owes().is_some(),
        }
    }

    /// Returns whether the thread was woken and tries again on a lock: from the wake note until it
    /// stands in a queue again, owns what it waited for, or its call ends.
    pub fn retries_on(&self, lock: usize) -> bool
        ensures { result ≡ retries_on self.now lock }
    {
        match self {
            Place::Idle => false,
            Place::Mutex { lock: own, at } => *own == lock && at.retries(),
            Place::RwLock { lock: own, at, .. } => *own == lock && at.retries(),
            Place::Once { lock: own, at } => *own == lock && at.retries(),
            Place::Semaphore { lock: own, at } => *own == lock && at.retries(),
            Place::Condvar { at, .. } => at.mutex() == Some(lock) && at.retries(),
        }
    }
}

/// Returns whether a thread has the right that a call needs, of a lock with these owners, which it
/// shares so many times.
pub fn has_right(call: Call, thread: usize, owners: Owners, shares: usize) -> bool
    ensures { result ≡ has_right call thread owners shares }
{
    match call {
        Call::Mutex { call, .. } => mutex_right(call, thread, owners),
        Call::RwLock { call, .. } => call_right(call, thread, owners, shares),
        Call::Once { .. } => true,
        Call::Condvar { call, .. } => condvar_right(call, thread, owners),
        Call::Semaphore { call, .. } => semaphore_right(call, shares),
    }
}

/// Takes the step of every call, with what the thread does next in place of what it is told.
pub fn advance(place: Place, reply: Reply) -> (Place, Act)
    requires keys { HasKeys place }
    requires shown { ShowsKeys place reply }
    ensures place { result.0 ≡ next_place place reply }
    ensures act { result.1 ≡ next_act place reply }
{
    let mut next = place;
    let act = next.advance_in_place(reply);
    (next, act)
}
