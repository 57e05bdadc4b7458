//! Waits of a monitor. Each gives its guard back.
ghost use Rattle.std.specs.Prelude.{◌≡◌, ◌<◌, false, true};
ghost use Rattle.std.specs.Fn.{FnOnceReturnsAtMut};
ghost use Rattle.std.specs.Iterator.Runs.{CallKeepsClosure};
ghost use Rattle.std.specs.Sync.Condvar.{AnsweredAt, StoppedAt};
ghost use Rattle.core_clocks.specs.Clocks.{HasPassed};
ghost use Rattle.lock_raw.specs.Answers.{late_answer};
ghost use Rattle.lock_api.specs.Conditions.{WaitedOrNot};
ghost use Rattle.lock_api.specs.Guards.{lock_of, value_of};
ghost use Rattle.lock_monitor.specs.Conditions.{At, CameWaitedAndWent, WaitsAtLast, WaitsOften};
ghost use Rattle.lock_monitor.specs.Conditions.{WaitsOftenInTime};
ghost use Rattle.spec_locks.specs.declared.calls.MutexCall.TheVariants.{Lock, Unlock};
ghost use Rattle.spec_locks.specs.declared.outcomes.Answer.TheVariants as answers;

use crate::monitor::Monitor;
use crate::retries::{wait_on, wait_until_on, wait_while_on, wait_while_until_on};
use core_clocks::Clock;
use lock_api::condvar::TokenOf;
use lock_api::mutex::run_on;
use lock_api::{MutexGuard, RawCondvar, RawCondvarTimed};
use std::sync::Wait;

impl<R: RawCondvar, T, const N: usize> Monitor<R, T, N> {
    /// Gives the mutex up, waits to be notified on a condition variable, and takes the mutex again.
    pub fn wait<'a, W: Wait>(
        &self,
        rt: &W,
        token: &mut TokenOf<R>,
        guard: MutexGuard<'a, R::RawMutex, T>,
        at: usize,
    ) -> MutexGuard<'a, R::RawMutex, T>
        requires token { R.RawMutex.is_token_of (R.RawMutex.lot_of self.now.0) token.old }
        requires mutex { lock_of guard ≡ self.now.0 }
        requires number { at < N }
        ensures token { R.RawMutex.is_token_of (R.RawMutex.lot_of self.now.0) token.new
            × R.RawMutex.keeps_rights token.old token.new }
        ensures guard { lock_of result ≡ self.now.0 }
        ensures path { At self.now.1 at (λ condvar. WaitsAtLast
            (R.waited condvar self.now.0 false) answers.Ok token.old token.new) }
    {
        wait_on(self.condition(at), rt, token, guard)
    }

    /// Waits on a condition variable for as long as the condition holds of the value. It is called
    /// first, and again after each wait.
    pub fn wait_while<'a, W: Wait, F: FnMut(&mut T) -> bool + Drop>(
        &self,
        rt: &W,
        token: &mut TokenOf<R>,
        guard: MutexGuard<'a, R::RawMutex, T>,
        at: usize,
        condition: F,
    ) -> MutexGuard<'a, R::RawMutex, T>
        requires token { R.RawMutex.is_token_of (R.RawMutex.lot_of self.now.0) token.old }
        requires mutex { lock_of guard ≡ self.now.0 }
        requires number { at < N }
        requires callable { F.IsAlwaysCallable condition }
        ensures token { R.RawMutex.is_token_of (R.RawMutex.lot_of self.now.0) token.new
            × WaitedOrNot R.RawMutex.keeps_rights token.old token.new }
        ensures guard { lock_of result ≡ self.now.0 }
        ensures path { At self.now.1 at (λ condvar. WaitsOften
            (R.waited condvar self.now.0 false) answers.Ok token.old token.new) }
        ensures ended { StoppedAt F.step (CallKeepsClosure F.FnMut condition) condition
            (value_of result) }
    {
        wait_while_on(self.condition(at), rt, token, guard, condition)
    }

    /// Locks the mutex, waits on a condition variable for as long as the condition holds of the
    /// value, runs a closure on the value, and unlocks.
    pub fn with_while<W: Wait, U, C: FnMut(&mut T) -> bool + Drop, F: FnOnce(&mut T) -> U>(
        &self,
        rt: &W,
        token: &mut TokenOf<R>,
        at: usize,
        condition: C,
        f: F,
    ) -> U
        requires token { R.RawMutex.is_token_of (R.RawMutex.lot_of self.now.0) token.old }
        requires number { at < N }
        requires callable { C.IsAlwaysCallable condition × F.IsAlwaysCallable f }
        ensures token { R.RawMutex.is_token_of (R.RawMutex.lot_of self.now.0) token.new
            × R.RawMutex.keeps_rights token.old token.new }
        ensures ran { (found : T) × (left : T)
            × StoppedAt C.step (CallKeepsClosure C.FnMut condition) condition found
            × FnOnceReturnsAtMut F.FnOnce f found result left }
        ensures path { CameWaitedAndWent (R.RawMutex.took_steps self.now.0 Lock answers.Ok)
            (λ inside awake. At self.now.1 at (λ condvar. WaitsOften
            (R.waited condvar self.now.0 false) answers.Ok inside awake))
            (λ awake new. R.RawMutex.took_steps self.now.0 Unlock answers.Ok awake new
            × R.RawMutex.released self.now.0 Unlock awake new) token.old token.new }
    {
        let guard = self.lock(rt, token);
        let mut guard = self.wait_while(rt, token, guard, at, condition);
        let answer = run_on(&mut *guard, f);
        guard.unlock(rt, token);
        answer
    }
}

impl<R: RawCondvarTimed, T, const N: usize> Monitor<R, T, N> {
    /// Waits as `wait` does, or until the clock, in nanoseconds, has come to the deadline. Tells
    /// whether that was so.
    pub fn wait_until<'a, W: Wait, C: Clock>(
        &self,
        rt: &W,
        token: &mut TokenOf<R>,
        guard: MutexGuard<'a, R::RawMutex, T>,
        at: usize,
        clock: &C,
        deadline: u64,
    ) -> (MutexGuard<'a, R::RawMutex, T>, bool)
        requires token { R.RawMutex.is_token_of (R.RawMutex.lot_of self.now.0) token.old }
        requires mutex { lock_of guard ≡ self.now.0 }
        requires number { at < N }
        ensures token { R.RawMutex.is_token_of (R.RawMutex.lot_of self.now.0) token.new
            × R.RawMutex.keeps_rights token.old token.new }
        ensures guard { lock_of result.0 ≡ self.now.0 }
        ensures path { At self.now.1 at (λ condvar. WaitsAtLast
            (R.waited condvar self.now.0 true) (late_answer result.1) token.old token.new) }
        ensures late { result.1 ≡ true → HasPassed (C.tells clock.now) deadline }
    {
        wait_until_on(self.condition(at), rt, token, guard, clock, deadline)
    }

    /// Waits as `wait_while` does, or until the clock, in nanoseconds, has come to the deadline.
    /// The condition is called once more then, and the result tells whether it still held.
    pub fn wait_while_until<'a, W: Wait, C: Clock, F: FnMut(&mut T) -> bool + Drop>(
        &self,
        rt: &W,
        token: &mut TokenOf<R>,
        guard: MutexGuard<'a, R::RawMutex, T>,
        at: usize,
        condition: F,
        clock: &C,
        deadline: u64,
    ) -> (MutexGuard<'a, R::RawMutex, T>, bool)
        requires token { R.RawMutex.is_token_of (R.RawMutex.lot_of self.now.0) token.old }
        requires mutex { lock_of guard ≡ self.now.0 }
        requires number { at < N }
        requires callable { F.IsAlwaysCallable condition }
        ensures token { R.RawMutex.is_token_of (R.RawMutex.lot_of self.now.0) token.new
            × WaitedOrNot R.RawMutex.keeps_rights token.old token.new }
        ensures guard { lock_of result.0 ≡ self.now.0 }
        ensures path { At self.now.1 at (λ condvar. WaitsOftenInTime
            (R.waited condvar self.now.0 true) token.old token.new) }
        ensures ended { AnsweredAt F.step (CallKeepsClosure F.FnMut condition) condition
            result.1 (value_of result.0) }
        ensures late { result.1 ≡ true → HasPassed (C.tells clock.now) deadline }
    {
        wait_while_until_on(
            self.condition(at),
            rt,
            token,
            guard,
            condition,
            clock,
            deadline,
        )
    }
}
