//! The steps of a `Once`.
//!
//! | bit of the word | means |
//! |---|---|
//! | 1, `DONE` | a run has succeeded |
//! | 2, `POISONED` | the last run failed |
//! | 4, `LOCKED` | a thread runs its closure |
//! | 8, `PARKED` | somebody may stand in the queue |
//!
//! At most one of the first three is set.
ghost use Rattle.std.specs.Prelude.{ℕ, ◌≡◌, ◌<◌, ◌^◌};
ghost use Rattle.steps_base.specs.Acts.{outcome_of};
ghost use Rattle.steps_once.specs.OnceProfiles.{once_taker, once_wants, once_late_line, once_owes};
ghost use Rattle.steps_once.specs.OnceProfiles.{once_retries};
ghost use Rattle.steps_once.specs.OnceSteps.{once_first, once_act, once_next, once_respin, once_owners};

use crate::give_up::{GiveUpAt, give_up_act, next_give_up};
use crate::look::{
    Course, LookAt, begins_run, course_of, gives_up, is_forced, is_timed, look_act, next_look,
    still_retries, want_of,
};
use crate::run::{RunAt, next_run, phase_afterwards, run_act, state_before};
use core_base::{Line, Want};
use spec_locks::{OnceCall, Outcome};
use steps_base::bits::{is_poisoned, is_running};
use steps_base::{Act, Next, Owners, Phase, Reply};

pub const DONE: u64 = 1;

pub const POISONED: u64 = 2;

pub const LOCKED: u64 = 4;

pub const PARKED: u64 = 8;

/// All bits but `PARKED`.
pub const NOT_PARKED: u64 = 18446744073709551607;

/// Where a thread stands in a call of a `Once`.
#[derive(Clone, Copy, PartialEq, Eq)]
pub enum OncePlace {
    /// Looks how far the `Once` has come, or waits. The call `retries` from a wake note on, until
    /// the thread stands in the queue again, runs its closure or the call ends.
    Look {
        call: OnceCall,
        retries: bool,
        at: LookAt,
    },
    /// Runs the closure, or ends the run.
    Run {
        forced: bool,
        at: RunAt,
    },
    /// The thread has waited with a deadline, and its time is up. It `retries` as it did asleep.
    GiveUp {
        retries: bool,
        at: GiveUpAt,
    },
}

impl OncePlace {
    /// Returns where a call begins.
    pub fn first(call: OnceCall) -> OncePlace
        ensures { result ≡ once_first call }
    {
        OncePlace::Look {
            call,
            retries: false,
            at: LookAt::Load,
        }
    }

    /// Returns the thread's next act.
    pub fn act(self, lock: usize) -> Act
        requires { lock < 2 ^ 63 }
        ensures { result ≡ once_act lock self }
    {
        match self {
            OncePlace::Look { call, at, .. } => look_act(lock, call, at),
            OncePlace::Run { at, .. } => run_act(lock, at),
            OncePlace::GiveUp { at, .. } => give_up_act(lock, at),
        }
    }

    /// Returns the outcome that a thread is told when it comes here.
    pub fn outcome(self) -> Outcome
        ensures { (l : ℕ) → result ≡ outcome_of (once_act l self) }
    {
        match self {
            OncePlace::Look {
                at: LookAt::Asleep | LookAt::Taken { .. },
                ..
            } => Outcome::Sleep,
            OncePlace::Run {
                at: RunAt::Closure { poisoned },
                ..
            } => Outcome::Closure(state_before(poisoned)),
            _ => Outcome::Step,
        }
    }

    /// Returns where the reply leads the thread.
    pub fn next(self, reply: Reply) -> Next<OncePlace>
        ensures { result ≡ once_next self reply }
    {
        match self {
            OncePlace::Look { call, retries, at } => {
                if begins_run(call, at, reply) {
                    return Next::At(OncePlace::Run {
                        forced: is_forced(call),
                        at: RunAt::found(reply),
                    });
                }
                if gives_up(call, at, reply) {
                    return Next::At(OncePlace::GiveUp {
                        retries,
                        at: GiveUpAt::Remove,
                    });
                }
                match next_look(call, at, reply) {
                    Next::At(at) => Next::At(OncePlace::Look {
                        call,
                        retries: still_retries(retries, reply),
                        at,
                    }),
                    Next::End(answer) => Next::End(answer),
                }
            }
            OncePlace::Run { forced, at } => match next_run(at, reply) {
                Next::At(at) => Next::At(OncePlace::Run { forced, at }),
                Next::End(answer) => Next::End(answer),
            },
            OncePlace::GiveUp { retries, at } => match next_give_up(at, reply) {
                Next::At(at) => Next::At(OncePlace::GiveUp { retries, at }),
                Next::End(answer) => Next::End(answer),
            },
        }
    }

    /// Returns how far the `Once` has come after the thread's operation on the word, which saw this
    /// value.
    pub fn owners_after(self, thread: usize, seen: u64, owners: Owners) -> Owners
        ensures { result ≡ once_owners self thread seen owners }
    {
        match self {
            OncePlace::Look { call, at, .. } => {
                if begins_run(call, at, Reply::Value(seen)) {
                    owners.with_phase(Phase::InProgress(thread))
                } else {
                    owners
                }
            }
            OncePlace::Run {
                at: RunAt::Close { succeeded },
                ..
            } => owners.with_phase(phase_afterwards(succeeded)),
            OncePlace::Run { .. } | OncePlace::GiveUp { .. } => owners,
        }
    }

    /// Returns the thread that took this one from the queue, and has not left its section yet.
    pub fn taker(self) -> Option<usize>
        ensures { result ≡ once_taker self }
    {
        match self {
            OncePlace::Look {
                at: LookAt::Taken { by },
                ..
            } => Some(by),
            _ => None,
        }
    }

    /// Returns what the thread wants, where it waits.
    pub fn wants(self) -> Option<Want>
        ensures { result ≡ once_wants self }
    {
        match self {
            OncePlace::Look { call, .. } => Some(want_of(call)),
            OncePlace::Run { .. } => None,
            OncePlace::GiveUp { .. } => Some(Want::Wait),
        }
    }

    /// Gives the queue in which the thread sleeps, where it may give up.
    pub fn late_line(self) -> Option<Line>
        ensures { result ≡ once_late_line self }
    {
        match self {
            OncePlace::Look {
                call,
                at: LookAt::Asleep,
                ..
            } if is_timed(call) => Some(Line::Main),
            _ => None,
        }
    }

    /// From where the thread looks at the word once more, in place of an act that leads to sleep.
    pub fn respins_from(self) -> Option<OncePlace>
        ensures { result ≡ once_respin self }
    {
        match self {
            OncePlace::Look {
                call,
                retries,
                at: LookAt::Decide(seen),
            } if is_running(seen) && course_of(call, seen) == Course::Marks => {
                Some(OncePlace::Look {
                    call,
                    retries,
                    at: LookAt::Load,
                })
            }
            _ => None,
        }
    }

    /// Returns the queue on which the thread owes a wake.
    pub fn owes(self) -> Option<Line>
        ensures { result ≡ once_owes self }
    {
        match self {
            OncePlace::Look {
                at: LookAt::Check | LookAt::Leave { .. },
                ..
            } => Some(Line::Main),
            OncePlace::Run {
                at: RunAt::Enter { .. } | RunAt::Take { .. } | RunAt::Leave { .. },
                ..
            } => Some(Line::Main),
            OncePlace::GiveUp { .. } => Some(Line::Main),
            _ => None,
        }
    }

    /// Returns whether the thread was woken and tries again.
    pub fn retries(self) -> bool
        ensures { result ≡ once_retries self }
    {
        match self {
            OncePlace::Look { retries, .. } | OncePlace::GiveUp { retries, .. } => retries,
            OncePlace::Run { .. } => false,
        }
    }
}
