//! Waits on a condition variable that are begun again where they are refused.
//!
//! A condition variable refuses a wait while others wait on it with another mutex. Those of a
//! monitor are used with its own mutex alone. No contract knows that.
ghost use Rattle.std.specs.Prelude.{◌≡◌, false, true};
ghost use Rattle.std.specs.Iterator.Runs.{CallKeepsClosure};
ghost use Rattle.std.specs.Sync.Condvar.{AnsweredAt, StoppedAt};
ghost use Rattle.core_clocks.specs.Clocks.{HasPassed};
ghost use Rattle.lock_raw.specs.Answers.{late_answer};
ghost use Rattle.lock_api.specs.Conditions.{WaitedOrNot};
ghost use Rattle.lock_api.specs.Guards.{lock_of, value_of};
ghost use Rattle.lock_monitor.specs.Conditions.{WaitsAtLast, WaitsOften, WaitsOftenInTime};
ghost use Rattle.spec_locks.specs.declared.outcomes.Answer.TheVariants as answers;

use core_clocks::Clock;
use lock_api::condvar::TokenOf;
use lock_api::{Condvar, MutexGuard, RawCondvar, RawCondvarTimed};
use std::sync::Wait;

/// Waits to be notified, as often as that is refused.
pub(crate) fn wait_on<'a, R: RawCondvar, W: Wait, T>(
    condvar: &Condvar<R>,
    rt: &W,
    token: &mut TokenOf<R>,
    mut guard: MutexGuard<'a, R::RawMutex, T>,
) -> MutexGuard<'a, R::RawMutex, T>
    requires token { R.RawMutex.is_token_of (R.lot_of condvar.now) token.old }
    requires lot { R.RawMutex.lot_of (lock_of guard) ≡ R.lot_of condvar.now }
    ensures token { R.RawMutex.is_token_of (R.lot_of condvar.now) token.new
        × R.RawMutex.keeps_rights token.old token.new }
    ensures guard { lock_of result ≡ lock_of guard.entry }
    ensures path { WaitsAtLast (R.waited condvar.now (lock_of guard.entry) false)
        answers.Ok token.old token.new }
{
    for _ in rt.forever() {
        match condvar.wait(rt, token, guard) {
            Ok(back) => return back,
            Err((_, back)) => guard = back,
        }
    }
    unreachable!()
}

/// Waits so for as long as the condition holds of the value.
pub(crate) fn wait_while_on<'a, R: RawCondvar, W: Wait, T, F: FnMut(&mut T) -> bool + Drop>(
    condvar: &Condvar<R>,
    rt: &W,
    token: &mut TokenOf<R>,
    mut guard: MutexGuard<'a, R::RawMutex, T>,
    mut condition: F,
) -> MutexGuard<'a, R::RawMutex, T>
    requires token { R.RawMutex.is_token_of (R.lot_of condvar.now) token.old }
    requires lot { R.RawMutex.lot_of (lock_of guard) ≡ R.lot_of condvar.now }
    requires callable { F.IsAlwaysCallable condition }
    ensures token { R.RawMutex.is_token_of (R.lot_of condvar.now) token.new
        × WaitedOrNot R.RawMutex.keeps_rights token.old token.new }
    ensures guard { lock_of result ≡ lock_of guard.entry }
    ensures path { WaitsOften (R.waited condvar.now (lock_of guard.entry) false)
        answers.Ok token.old token.new }
    ensures ended { StoppedAt F.step (CallKeepsClosure F.FnMut condition) condition
        (value_of result) }
{
    for _ in rt.forever() {
        if !condition(&mut *guard) {
            return guard;
        }
        guard = wait_on(condvar, rt, token, guard);
    }
    unreachable!()
}

/// Waits as `wait_on` does, or up to a deadline. Tells whether the clock had come to it.
pub(crate) fn wait_until_on<'a, R: RawCondvarTimed, W: Wait, C: Clock, T>(
    condvar: &Condvar<R>,
    rt: &W,
    token: &mut TokenOf<R>,
    mut guard: MutexGuard<'a, R::RawMutex, T>,
    clock: &C,
    deadline: u64,
) -> (MutexGuard<'a, R::RawMutex, T>, bool)
    requires token { R.RawMutex.is_token_of (R.lot_of condvar.now) token.old }
    requires lot { R.RawMutex.lot_of (lock_of guard) ≡ R.lot_of condvar.now }
    ensures token { R.RawMutex.is_token_of (R.lot_of condvar.now) token.new
        × R.RawMutex.keeps_rights token.old token.new }
    ensures guard { lock_of result.0 ≡ lock_of guard.entry }
    ensures path { WaitsAtLast (R.waited condvar.now (lock_of guard.entry) true)
        (late_answer result.1) token.old token.new }
    ensures late { result.1 ≡ true → HasPassed (C.tells clock.now) deadline }
{
    for _ in rt.forever() {
        match condvar.wait_until(rt, token, guard, clock, deadline) {
            Ok((back, ended)) => return (back, ended.timed_out()),
            Err((_, back)) => guard = back,
        }
    }
    unreachable!()
}

/// Waits as `wait_while_on` does, or up to a deadline. The condition is called once more then, and
/// the result tells whether it still held.
pub(crate) fn wait_while_until_on<
    'a,
    R: RawCondvarTimed,
    W: Wait,
    C: Clock,
    T,
    F: FnMut(&mut T) -> bool + Drop,
>(
    condvar: &Condvar<R>,
    rt: &W,
    token: &mut TokenOf<R>,
    mut guard: MutexGuard<'a, R::RawMutex, T>,
    mut condition: F,
    clock: &C,
    deadline: u64,
) -> (MutexGuard<'a, R::RawMutex, T>, bool)
    requires token { R.RawMutex.is_token_of (R.lot_of condvar.now) token.old }
    requires lot { R.RawMutex.lot_of (lock_of guard) ≡ R.lot_of condvar.now }
    requires callable { F.IsAlwaysCallable condition }
    ensures token { R.RawMutex.is_token_of (R.lot_of condvar.now) token.new
        × WaitedOrNot R.RawMutex.keeps_rights token.old token.new }
    ensures guard { lock_of result.0 ≡ lock_of guard.entry }
    ensures path { WaitsOftenInTime (R.waited condvar.now (lock_of guard.entry) true)
        token.old token.new }
    ensures ended { AnsweredAt F.step (CallKeepsClosure F.FnMut condition) condition
        result.1 (value_of result.0) }
    ensures late { result.1 ≡ true → HasPassed (C.tells clock.now) deadline }
{
    let mut late = false;
    for _ in rt.forever() {
        let holds = condition(&mut *guard);
        if late || !holds {
            return (guard, holds);
        }
        let (back, ended) = wait_until_on(condvar, rt, token, guard, clock, deadline);
        guard = back;
        late = ended;
    }
    unreachable!()
}
