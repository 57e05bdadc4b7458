//! The steps of a semaphore.
//!
//! | bits of the word | mean |
//! |---|---|
//! | 1, `PARKED` | somebody may stand in the queue |
//! | from 2 on | how many permits are free |
ghost use Rattle.std.specs.Prelude.{ℕ, ◌≡◌, ◌<◌, ◌^◌};
ghost use Rattle.steps_base.specs.Acts.{outcome_of};
ghost use Rattle.steps_semaphore.specs.SemaphoreProfiles.{semaphore_taker, semaphore_wants};
ghost use Rattle.steps_semaphore.specs.SemaphoreProfiles.{semaphore_late_line, semaphore_owes};
ghost use Rattle.steps_semaphore.specs.SemaphoreProfiles.{semaphore_retries};
ghost use Rattle.steps_semaphore.specs.SemaphoreSteps.{free_permits, is_free, semaphore_first};
ghost use Rattle.steps_semaphore.specs.SemaphoreSteps.{semaphore_right, semaphore_act, semaphore_next};
ghost use Rattle.steps_semaphore.specs.SemaphoreSteps.{semaphore_respin, semaphore_shares};

use crate::acquire::{AcquireAt, acquire_act, acquire_shares, next_acquire, still_retries};
use crate::release::{ReleaseAt, next_release, release_act, release_shares};
use crate::tries::{TryAt, next_try, try_act, try_shares};
use core_base::{Line, Want};
use spec_locks::{Outcome, Patience, SemaphoreCall};
use steps_base::{Act, Next, Reply};

pub const PARKED: u64 = 1;

/// All bits but `PARKED`.
pub const NOT_PARKED: u64 = 18446744073709551614;

/// Each permit that is free counts so much.
pub const ONE_FREE: u64 = 2;

/// Where a thread stands in a call of a semaphore.
#[derive(Clone, Copy, PartialEq, Eq)]
pub enum SemaphorePlace {
    /// Waits for a permit, up to a deadline where the call is `timed`. The call `retries` from a
    /// wake note on, until the thread stands in the queue again, holds a permit or the call ends.
    Acquire {
        timed: bool,
        retries: bool,
        at: AcquireAt,
    },
    /// Takes a permit where one is free.
    Try(TryAt),
    /// Gives a permit back.
    Release(ReleaseAt),
}

/// Returns how many permits are free by this word.
#[inline]
pub fn free_permits(word: u64) -> u64
    ensures { result ≡ free_permits word }
{
    word / ONE_FREE
}

/// Returns whether a permit is free by this word.
#[inline]
pub(crate) fn is_free(word: u64) -> bool
    ensures { result ≡ is_free word }
{
    free_permits(word) != 0
}

/// Returns whether a thread that holds so many permits has what a call needs.
pub fn semaphore_right(call: SemaphoreCall, shares: usize) -> bool
    ensures { result ≡ semaphore_right call shares }
{
    match call {
        SemaphoreCall::Acquire(_) => true,
        SemaphoreCall::Release => shares != 0,
    }
}

impl SemaphorePlace {
    /// Returns where a call begins.
    pub fn first(call: SemaphoreCall) -> SemaphorePlace
        ensures { result ≡ semaphore_first call }
    {
        match call {
            SemaphoreCall::Acquire(Patience::Patient) => SemaphorePlace::Acquire {
                timed: false,
                retries: false,
                at: AcquireAt::Load,
            },
            SemaphoreCall::Acquire(Patience::Timed) => SemaphorePlace::Acquire {
                timed: true,
                retries: false,
                at: AcquireAt::Load,
            },
            SemaphoreCall::Acquire(Patience::Try) => SemaphorePlace::Try(TryAt::Load),
            SemaphoreCall::Release => SemaphorePlace::Release(ReleaseAt::Add),
        }
    }

    /// Returns the thread's next act.
    pub fn act(self, lock: usize) -> Act
        requires { lock < 2 ^ 63 }
        ensures { result ≡ semaphore_act lock self }
    {
        match self {
            SemaphorePlace::Acquire { at, .. } => acquire_act(lock, at),
            SemaphorePlace::Try(at) => try_act(lock, at),
            SemaphorePlace::Release(at) => release_act(lock, at),
        }
    }

    /// Returns the outcome that a thread is told when it comes here.
    pub fn outcome(self) -> Outcome
        ensures { (l : ℕ) → result ≡ outcome_of (semaphore_act l self) }
    {
        match self {
            SemaphorePlace::Acquire {
                at: AcquireAt::Asleep | AcquireAt::Taken { .. },
                ..
            } => Outcome::Sleep,
            _ => Outcome::Step,
        }
    }

    /// Returns where the reply leads the thread.
    pub fn next(self, reply: Reply) -> Next<SemaphorePlace>
        ensures { result ≡ semaphore_next self reply }
    {
        match self {
            SemaphorePlace::Acquire { timed, retries, at } => match next_acquire(timed, at, reply) {
                Next::At(at) => Next::At(SemaphorePlace::Acquire {
                    timed,
                    retries: still_retries(retries, reply),
                    at,
                }),
                Next::End(answer) => Next::End(answer),
            },
            SemaphorePlace::Try(at) => match next_try(at, reply) {
                Next::At(at) => Next::At(SemaphorePlace::Try(at)),
                Next::End(answer) => Next::End(answer),
            },
            SemaphorePlace::Release(at) => match next_release(at, reply) {
                Next::At(at) => Next::At(SemaphorePlace::Release(at)),
                Next::End(answer) => Next::End(answer),
            },
        }
    }

    /// Returns how many permits the thread holds after its operation on the word, which saw this
    /// value, where their number changes.
    pub fn shares_after(self, seen: u64, shares: usize) -> Option<usize>
        ensures { result ≡ semaphore_shares self seen shares }
    {
        match self {
            SemaphorePlace::Acquire { at, .. } => acquire_shares(at, seen, shares),
            SemaphorePlace::Try(at) => try_shares(at, seen, shares),
            SemaphorePlace::Release(at) => release_shares(at, shares),
        }
    }

    /// Returns the thread that took this one from the queue, and has not left its section yet.
    pub fn taker(self) -> Option<usize>
        ensures { result ≡ semaphore_taker self }
    {
        match self {
            SemaphorePlace::Acquire {
                at: AcquireAt::Taken { by },
                ..
            } => Some(by),
            _ => None,
        }
    }

    /// Returns what the thread wants, where it waits.
    pub fn wants(self) -> Option<Want>
        ensures { result ≡ semaphore_wants self }
    {
        match self {
            SemaphorePlace::Acquire { .. } => Some(Want::Shared),
            SemaphorePlace::Try(_) | SemaphorePlace::Release(_) => None,
        }
    }

    /// From where the thread looks at the word once more, in place of an act that leads to sleep.
    pub fn respins_from(self) -> Option<SemaphorePlace>
        ensures { result ≡ semaphore_respin self }
    {
        match self {
            SemaphorePlace::Acquire {
                timed,
                retries,
                at: AcquireAt::Decide(0),
            } => Some(SemaphorePlace::Acquire {
                timed,
                retries,
                at: AcquireAt::Load,
            }),
            _ => None,
        }
    }

    /// Returns the queue in which the thread sleeps, where it may give up.
    pub fn late_line(self) -> Option<Line>
        ensures { result ≡ semaphore_late_line self }
    {
        match self {
            SemaphorePlace::Acquire {
                timed: true,
                at: AcquireAt::Asleep,
                ..
            } => Some(Line::Main),
            _ => None,
        }
    }

    /// Returns the queue on which the thread owes a wake.
    pub fn owes(self) -> Option<Line>
        ensures { result ≡ semaphore_owes self }
    {
        match self {
            SemaphorePlace::Acquire { at, .. } => match at {
                AcquireAt::Check | AcquireAt::Leave { .. } => Some(Line::Main),
                AcquireAt::Remove | AcquireAt::Clear | AcquireAt::GiveUp => Some(Line::Main),
                _ => None,
            },
            SemaphorePlace::Try(_) | SemaphorePlace::Release(ReleaseAt::Add) => None,
            SemaphorePlace::Release(_) => Some(Line::Main),
        }
    }

    /// Returns whether the thread was woken and tries again.
    pub fn retries(self) -> bool
        ensures { result ≡ semaphore_retries self }
    {
        match self {
            SemaphorePlace::Acquire { retries, .. } => retries,
            SemaphorePlace::Try(_) | SemaphorePlace::Release(_) => false,
        }
    }
}
