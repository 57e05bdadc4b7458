//! Waits of condition variables that end with a condition, or in time.
//!
//! A wait up to a deadline asks its condition once more after a wait whose time was up, and reports
//! whether that last call still held.
ghost use Rattle.std.specs.Prelude.{◌≡◌, ◌⊎◌, ◌*◌, false, true};
ghost use Rattle.std.specs.Duration.{as_nanos};
ghost use Rattle.std.specs.Iterator.Runs.{CallKeepsClosure};
ghost use Rattle.core_clocks.specs.Clocks.{HasElapsed, HasPassed};
ghost use Rattle.lock_raw.specs.Answers.{GivesBack, GivesBackTimed, LateByClock, timed_answer};
ghost use Rattle.lock_api.specs.Guards.{lock_of};
ghost use Rattle.lock_api.specs.Conditions.{LastAnswered, LastRefused, WaitedOrNot};
ghost use Rattle.lock_api.specs.Waits.{NeverEnds, WaitsInTime, WaitsWhile};

use crate::condvar::{Condvar, TokenOf, Waited};
use crate::guards::MutexGuard;
use core_base::Fault;
use core_clocks::Clock;
use lock_raw::{RawCondvar, RawCondvarTimed};
use std::marker::Model;
use std::sync::Wait;
use std::time::Duration;

/// How a wait with a limit ended.
#[derive(Clone, Copy, Debug, PartialEq, Eq)]
pub struct WaitTimeoutResult {
    timed_out: bool,
}

// In a clause it is whether the time was up.
impl Model for WaitTimeoutResult {
    ghost use Rattle.std.specs.Prelude.{◌≡◌, Bool};

    ghost Value = { Bool };

    ghost view = { λ ended. ended.timed_out };

    ghost inverse = { λ late. record { timed_out = late } };
}

impl WaitTimeoutResult {
    /// Returns whether its time was up.
    pub fn timed_out(self) -> bool
        ensures { result ≡ self }
    {
        self.timed_out
    }
}

/// The answer of a wait with a limit: the guard, and how it ended.
pub type WaitedFor<'a, R, T> = Result<
    (
        MutexGuard<'a, <R as RawCondvar>::RawMutex, T>,
        WaitTimeoutResult,
    ),
    (Fault, MutexGuard<'a, <R as RawCondvar>::RawMutex, T>),
>;

impl<R: RawCondvar> Condvar<R> {
    /// Waits for as long as the condition holds of the value. It is called first, and again after
    /// each wait.
    ///
    /// # Errors
    ///
    /// `TwoMutexes`, as of `wait`.
    pub fn wait_while<'a, W: Wait, T, F: FnMut(&mut T) -> bool + Drop>(
        &self,
        rt: &W,
        token: &mut TokenOf<R>,
        mut guard: MutexGuard<'a, R::RawMutex, T>,
        mut condition: F,
    ) -> Waited<'a, R, T>
        requires token { R.RawMutex.is_token_of (R.lot_of self.now) token.old }
        requires lot { R.RawMutex.lot_of (lock_of guard) ≡ R.lot_of self.now }
        requires callable { F.IsAlwaysCallable condition }
        ensures token { R.RawMutex.is_token_of (R.lot_of self.now) token.new
            × WaitedOrNot R.RawMutex.keeps_rights token.old token.new }
        ensures guard { GivesBack result (λ back. lock_of back ≡ lock_of guard.entry) }
        ensures path { WaitsWhile (R.waited self.now (lock_of guard.entry) false)
            result token.old token.new }
        ensures ended { LastRefused F.step (CallKeepsClosure F.FnMut condition) condition result }
    {
        for _ in rt.forever() {
            if !condition(&mut *guard) {
                return Ok(guard);
            }
            match self.wait(rt, token, guard) {
                Ok(back) => guard = back,
                Err(refused) => return Err(refused),
            }
        }
        unreachable!()
    }
}

impl<R: RawCondvarTimed> Condvar<R> {
    /// Waits as `wait` does, or until so much time, in nanoseconds of the clock, has passed.
    ///
    /// A time that ends past all that a `u64` tells is no limit.
    ///
    /// # Errors
    ///
    /// `TwoMutexes`, as of `wait`.
    #[inline]
    pub fn wait_for<'a, W: Wait, C: Clock, T>(
        &self,
        rt: &W,
        token: &mut TokenOf<R>,
        guard: MutexGuard<'a, R::RawMutex, T>,
        clock: &C,
        timeout: Duration,
    ) -> WaitedFor<'a, R, T>
        requires token { R.RawMutex.is_token_of (R.lot_of self.now) token.old }
        requires lot { R.RawMutex.lot_of (lock_of guard) ≡ R.lot_of self.now }
        ensures token { R.RawMutex.is_token_of (R.lot_of self.now) token.new
            × R.RawMutex.keeps_rights token.old token.new }
        ensures guard { GivesBackTimed result (λ back. lock_of back ≡ lock_of guard.entry) }
        ensures path { R.waited self.now (lock_of guard.entry) true
            (timed_answer result) token.old token.new }
        ensures late { LateByClock result (HasElapsed (C.tells clock.now) (as_nanos timeout)) }
    {
        let (mutex, lot, guard) = guard.close();
        match self
            .raw()
            .wait_for(rt, token, mutex.raw(), guard, clock, timeout)
        {
            Ok((guard, timed_out)) => Ok((mutex.open(lot, guard), WaitTimeoutResult { timed_out })),
            Err((fault, guard)) => Err((fault, mutex.open(lot, guard))),
        }
    }

    /// Waits as `wait` does, or until the clock, in nanoseconds, has come to the deadline.
    ///
    /// # Errors
    ///
    /// `TwoMutexes`, as of `wait`.
    #[inline]
    pub fn wait_until<'a, W: Wait, C: Clock, T>(
        &self,
        rt: &W,
        token: &mut TokenOf<R>,
        guard: MutexGuard<'a, R::RawMutex, T>,
        clock: &C,
        deadline: u64,
    ) -> WaitedFor<'a, R, T>
        requires token { R.RawMutex.is_token_of (R.lot_of self.now) token.old }
        requires lot { R.RawMutex.lot_of (lock_of guard) ≡ R.lot_of self.now }
        ensures token { R.RawMutex.is_token_of (R.lot_of self.now) token.new
            × R.RawMutex.keeps_rights token.old token.new }
        ensures guard { GivesBackTimed result (λ back. lock_of back ≡ lock_of guard.entry) }
        ensures path { R.waited self.now (lock_of guard.entry) true
            (timed_answer result) token.old token.new }
        ensures late { LateByClock result (HasPassed (C.tells clock.now) deadline) }
    {
        let (mutex, lot, guard) = guard.close();
        match self
            .raw()
            .wait_until(rt, token, mutex.raw(), guard, clock, deadline)
        {
            Ok((guard, timed_out)) => Ok((mutex.open(lot, guard), WaitTimeoutResult { timed_out })),
            Err((fault, guard)) => Err((fault, mutex.open(lot, guard))),
        }
    }

    /// Waits for as long as the condition holds of the value, or until the clock, in nanoseconds,
    /// has come to the deadline.
    ///
    /// The condition is called first, and again after each wait, also after one whose time was up.
    /// It timed out where it held at the last call still.
    ///
    /// # Errors
    ///
    /// `TwoMutexes`, as of `wait`.
    pub fn wait_while_until<'a, W: Wait, C: Clock, T, F: FnMut(&mut T) -> bool + Drop>(
        &self,
        rt: &W,
        token: &mut TokenOf<R>,
        mut guard: MutexGuard<'a, R::RawMutex, T>,
        mut condition: F,
        clock: &C,
        deadline: u64,
    ) -> WaitedFor<'a, R, T>
        requires token { R.RawMutex.is_token_of (R.lot_of self.now) token.old }
        requires lot { R.RawMutex.lot_of (lock_of guard) ≡ R.lot_of self.now }
        requires callable { F.IsAlwaysCallable condition }
        ensures token { R.RawMutex.is_token_of (R.lot_of self.now) token.new
            × WaitedOrNot R.RawMutex.keeps_rights token.old token.new }
        ensures guard { GivesBackTimed result (λ back. lock_of back ≡ lock_of guard.entry) }
        ensures path { WaitsInTime (R.waited self.now (lock_of guard.entry) true)
            result token.old token.new }
        ensures ended { LastAnswered F.step (CallKeepsClosure F.FnMut condition) condition result }
        ensures late { LateByClock result (HasPassed (C.tells clock.now) deadline) }
    {
        let mut late = false;
        for _ in rt.forever() {
            let holds = condition(&mut *guard);
            if late || !holds {
                return Ok((guard, WaitTimeoutResult { timed_out: holds }));
            }
            match self.wait_until(rt, token, guard, clock, deadline) {
                Ok((back, ended)) => {
                    guard = back;
                    late = ended.timed_out();
                }
                Err(refused) => return Err(refused),
            }
        }
        unreachable!()
    }

    /// Waits for as long as the condition holds of the value, or until so much time, in nanoseconds
    /// of the clock, has passed.
    ///
    /// The condition is called as by `wait_while_until`. A time that ends past all that a `u64`
    /// tells is no limit.
    ///
    /// # Errors
    ///
    /// `TwoMutexes`, as of `wait`.
    pub fn wait_while_for<'a, W: Wait, C: Clock, T, F: FnMut(&mut T) -> bool + Drop>(
        &self,
        rt: &W,
        token: &mut TokenOf<R>,
        guard: MutexGuard<'a, R::RawMutex, T>,
        condition: F,
        clock: &C,
        timeout: Duration,
    ) -> WaitedFor<'a, R, T>
        requires token { R.RawMutex.is_token_of (R.lot_of self.now) token.old }
        requires lot { R.RawMutex.lot_of (lock_of guard) ≡ R.lot_of self.now }
        requires callable { F.IsAlwaysCallable condition }
        ensures token { R.RawMutex.is_token_of (R.lot_of self.now) token.new
            × WaitedOrNot R.RawMutex.keeps_rights token.old token.new }
        ensures guard { GivesBackTimed result (λ back. lock_of back ≡ lock_of guard.entry) }
        ensures path { WaitsInTime (R.waited self.now (lock_of guard.entry) true)
            result token.old token.new
            ⊎ (NeverEnds (C.tells clock.now) (as_nanos timeout)
            × WaitsWhile (R.waited self.now (lock_of guard.entry) false)
            result token.old token.new) }
        ensures ended { LastAnswered F.step (CallKeepsClosure F.FnMut condition) condition result }
        ensures late { LateByClock result (HasElapsed (C.tells clock.now) (as_nanos timeout)) }
    {
        if let Some(deadline) = R::checked_duration_to_instant(clock.now(), timeout) {
            return self.wait_while_until(rt, token, guard, condition, clock, deadline);
        }
        match self.wait_while(rt, token, guard, condition) {
            Ok(guard) => Ok((guard, WaitTimeoutResult { timed_out: false })),
            Err(refused) => Err(refused),
        }
    }
}
