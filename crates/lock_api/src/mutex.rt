//! The mutex with its value.
//!
//! In a clause a mutex is its raw mutex, since the value changes behind a shared reference. A guard
//! keeps the lot at hand from the step that took the mutex, so that the step that gives it up finds its
//! word by one load less. There is no `update`, whose closure would be that of `with`.
ghost use Rattle.std.specs.Prelude.{◌≡◌, IfNone, IfOk, IfSome, MatchOption, MatchResult};
ghost use Rattle.std.specs.Fn.{FnOnceReturnsAtMut};
ghost use Rattle.std.specs.Arc.{arc_value};
ghost use Rattle.std.specs.Duration.{as_nanos};
ghost use Rattle.core_clocks.specs.Clocks.{HasElapsed, HasPassed};
ghost use Rattle.lock_raw.specs.Answers.{IsRefusal, answer_by};
ghost use Rattle.lock_api.specs.Guards.{lock_of};
ghost use Rattle.lock_api.specs.Visits.{CameAndWent};
ghost use Rattle.spec_locks.specs.declared.calls.MutexCall.TheVariants.{Lock, LockTimed, TryLock, Unlock};
ghost use Rattle.spec_locks.specs.declared.outcomes.Answer.TheVariants as answers;

use crate::guards::MutexGuard;
use core_base::Fault;
use core_clocks::Clock;
use core_parts::{NamesPermit, Place};
use lock_raw::{RawMutex, RawMutexTimed};
use std::marker::Model;
use std::sync::{Arc, Wait};
use std::time::Duration;

/// Calls a closure on a value: what the closure promises of the value as it was and as it is.
pub fn run_on<T, U, F: FnOnce(&mut T) -> U>(value: &mut T, f: F) -> U
    requires { F.IsAlwaysCallable f }
    ensures { FnOnceReturnsAtMut F.FnOnce f value.old result value.new }
{
    f(value)
}

// Names the permit that opens a mutex's value.
#[derive(Drop)]
struct Names<'a, R> {
    raw: &'a R,
}

impl<R: RawMutex> NamesPermit for Names<'_, R> {
    ghost permit = { λ names. R.permit_of names.raw.now };
}

/// A value that one thread at a time may use. It stands in a plain place, which is opened by the
/// permit of the raw mutex's owner.
#[derive(Drop)]
pub struct Mutex<R: RawMutex, T> {
    raw: R,
    pub(crate) place: Place<T>,
    ghost named: { place ≡ R.permit_of raw },
}

// In a clause a mutex is its raw one: the value changes behind a shared reference, so none tells
// it.
impl<R: RawMutex, T> Model for Mutex<R, T> {
    ghost use Rattle.std.specs.Prelude.{◌≡◌};

    ghost Value = { R };

    ghost view = { λ mutex. mutex.raw };
}

impl<R: RawMutex, T> Mutex<R, T> {
    /// Makes a mutex that nobody has, with its value.
    ///
    /// # Errors
    ///
    /// `LotFull`, where the lot has no word left, and `NoMemory`, where memory was refused. The
    /// value is given back.
    #[inline]
    pub fn new(lot: &Arc<R::Lot>, token: &mut R::Token, value: T) -> Result<Mutex<R, T>, (Fault, T)>
        requires { R.is_token_of (arc_value lot.now) token.old }
        ensures token { R.is_token_of (arc_value lot.now) token.new × R.keeps_rights token.old token.new }
        ensures made { MatchResult result (λ mutex. R.lot_of mutex ≡ arc_value lot.now)
            (λ refused. (refused.1 ≡ value)
            × IsRefusal (R.found_full (arc_value lot.now)) token.old token.new refused.0) }
        ensures drawn { IfOk result (λ mutex. R.drew mutex token.old token.new) }
    {
        match R::new(lot, token) {
            Ok(raw) => {
                let place = Place::new(value, &Names { raw: &raw });
                Ok(Mutex { raw, place })
            }
            Err(fault) => Err((fault, value)),
        }
    }

    /// Waits until nobody has the mutex, and takes it.
    #[inline]
    pub fn lock<W: Wait>(&self, rt: &W, token: &mut R::Token) -> MutexGuard<'_, R, T>
        requires { R.is_token_of (R.lot_of self.now) token.old }
        ensures token { R.is_token_of (R.lot_of self.now) token.new × R.keeps_rights token.old token.new }
        ensures guard { lock_of result ≡ self.now }
        ensures path { R.took_steps self.now Lock answers.Ok token.old token.new }
    {
        let lot = self.raw.lot();
        // As `lock` of the raw one. It isn't called, since after each call that may wait a flag is
        // tested.
        let raw = match self.raw.lock_fast(token) {
            Ok(raw) => raw,
            Err(seen) => self.raw.lock_slow(rt, token, seen),
        };
        self.open(lot, raw)
    }

    // Returns the guard of a thread that has the raw one.
    #[inline]
    pub(crate) fn open<'a>(&'a self, lot: &'a R::Lot, raw: R::Guard) -> MutexGuard<'a, R, T>
        requires { R.is_guard_of self.now raw × (lot.now ≡ R.lot_of self.now) }
        ensures { lock_of result ≡ self.now }
    {
        let (opened, permit) = self.raw.open_value(raw);
        MutexGuard::new(self, lot, opened, self.place.open(permit))
    }

    /// Takes the mutex where nobody has it.
    #[inline(always)]
    pub fn try_lock(&self, token: &mut R::Token) -> Option<MutexGuard<'_, R, T>>
        requires { R.is_token_of (R.lot_of self.now) token.old }
        ensures token { R.is_token_of (R.lot_of self.now) token.new × R.keeps_rights token.old token.new }
        ensures guard { IfSome result (λ guard. lock_of guard ≡ self.now) }
        ensures path { R.took_steps self.now TryLock (answer_by result) token.old token.new }
    {
        let lot = self.raw.lot();
        let raw = self.raw.try_lock(token)?;
        Some(self.open(lot, raw))
    }

    /// Returns whether somebody has the mutex.
    #[inline]
    pub fn is_locked(&self, token: &mut R::Token) -> bool
        requires { R.is_token_of (R.lot_of self.now) token.old }
        ensures token { R.is_token_of (R.lot_of self.now) token.new × R.keeps_rights token.old token.new }
        ensures seen { R.looked self.now result token.old token.new }
    {
        self.raw.is_locked(token)
    }
}

impl<R: RawMutex, T> Mutex<R, T> {
    /// Locks the mutex, runs a closure on the value, and unlocks: what the closure promises of the
    /// value that it found.
    pub fn with<W: Wait, U, F: FnOnce(&mut T) -> U>(&self, rt: &W, token: &mut R::Token, f: F) -> U
        requires token { R.is_token_of (R.lot_of self.now) token.old }
        requires callable { F.IsAlwaysCallable f }
        ensures token { R.is_token_of (R.lot_of self.now) token.new × R.keeps_rights token.old token.new }
        ensures ran { (found : T) × (left : T) × FnOnceReturnsAtMut F.FnOnce f found result left }
        ensures path { CameAndWent (R.took_steps self.now) (R.released self.now)
            Lock answers.Ok Unlock token.old token.new }
    {
        let mut guard = self.lock(rt, token);
        let answer = run_on(&mut *guard, f);
        guard.unlock(rt, token);
        answer
    }

    /// Runs a closure on the value where nobody has the mutex. None only where it is locked, and
    /// the closure was not run.
    pub fn try_with<W: Wait, U, F: FnOnce(&mut T) -> U + Drop>(
        &self,
        rt: &W,
        token: &mut R::Token,
        f: F,
    ) -> Option<U>
        requires token { R.is_token_of (R.lot_of self.now) token.old }
        requires callable { F.IsAlwaysCallable f }
        ensures token { R.is_token_of (R.lot_of self.now) token.new × R.keeps_rights token.old token.new }
        ensures ran { IfSome result (λ answer. (found : T) × (left : T)
            × FnOnceReturnsAtMut F.FnOnce f found answer left) }
        ensures path { MatchOption result (R.took_steps self.now TryLock answers.No token.old token.new)
            (λ _. CameAndWent (R.took_steps self.now) (R.released self.now)
            TryLock answers.Yes Unlock token.old token.new) }
    {
        let mut guard = self.try_lock(token)?;
        let answer = run_on(&mut *guard, f);
        guard.unlock(rt, token);
        Some(answer)
    }
}

impl<R: RawMutexTimed, T> Mutex<R, T> {
    /// Waits until nobody has the mutex, and takes it. None once so much time, in nanoseconds of the
    /// clock, has passed.
    ///
    /// A time that ends past all that a `u64` tells is no limit.
    #[inline]
    pub fn try_lock_for<W: Wait, C: Clock>(
        &self,
        rt: &W,
        token: &mut R::Token,
        clock: &C,
        timeout: Duration,
    ) -> Option<MutexGuard<'_, R, T>>
        requires { R.is_token_of (R.lot_of self.now) token.old }
        ensures token { R.is_token_of (R.lot_of self.now) token.new × R.keeps_rights token.old token.new }
        ensures guard { IfSome result (λ guard. lock_of guard ≡ self.now) }
        ensures path { R.took_steps self.now LockTimed (answer_by result) token.old token.new }
        ensures left { IfNone result (R.gave_up self.now token.new) }
        ensures late { IfNone result (HasElapsed (C.tells clock.now) (as_nanos timeout)) }
    {
        let lot = self.raw.lot();
        let raw = self.raw.try_lock_for(rt, token, clock, timeout)?;
        Some(self.open(lot, raw))
    }

    /// Waits until nobody has the mutex, and takes it. None once the clock, in nanoseconds, has
    /// come to the deadline.
    #[inline]
    pub fn try_lock_until<W: Wait, C: Clock>(
        &self,
        rt: &W,
        token: &mut R::Token,
        clock: &C,
        deadline: u64,
    ) -> Option<MutexGuard<'_, R, T>>
        requires { R.is_token_of (R.lot_of self.now) token.old }
        ensures token { R.is_token_of (R.lot_of self.now) token.new × R.keeps_rights token.old token.new }
        ensures guard { IfSome result (λ guard. lock_of guard ≡ self.now) }
        ensures path { R.took_steps self.now LockTimed (answer_by result) token.old token.new }
        ensures left { IfNone result (R.gave_up self.now token.new) }
        ensures late { IfNone result (HasPassed (C.tells clock.now) deadline) }
    {
        let lot = self.raw.lot();
        let raw = self.raw.try_lock_until(rt, token, clock, deadline)?;
        Some(self.open(lot, raw))
    }
}

impl<R: RawMutex, T> Mutex<R, T> {
    /// Returns the raw mutex.
    #[inline]
    pub fn raw(&self) -> &R
        ensures { result.now ≡ self.now }
    {
        &self.raw
    }
}

impl<R: RawMutex + Drop, T> Mutex<R, T> {
    /// Returns the value of a mutex that nobody has. It takes no step.
    #[inline]
    pub fn into_inner(self) -> T {
        let Mutex { raw: _, place } = self;
        place.into_inner()
    }
}
