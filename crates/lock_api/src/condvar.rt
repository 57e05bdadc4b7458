//! Condition variables, with which guards of mutexes wait.
ghost use Rattle.std.specs.Prelude.{◌≡◌, Bool, true, false, IfOk, MatchResult};
ghost use Rattle.std.specs.Arc.{arc_value};
ghost use Rattle.std.specs.Duration.{as_nanos};
ghost use Rattle.core_clocks.specs.Clocks.{HasElapsed, HasPassed};
ghost use Rattle.spec_locks.specs.declared.outcomes.Answer.TheVariants.{Number};
ghost use Rattle.lock_raw.specs.Answers.{GivesBack, IsRefusal, moved_first, notifying_answer, waiting_answer};
ghost use Rattle.lock_api.specs.Guards.{lock_of};

use crate::guards::MutexGuard;
use core_base::Fault;
use lock_raw::{RawCondvar, RawMutex};
use std::fmt;
use std::fmt::{Debug, Formatter, Write};
use std::marker::Model;
use std::sync::{Arc, Wait};

/// The threads of a condition variable's mutexes.
pub type TokenOf<R> = <<R as RawCondvar>::RawMutex as RawMutex>::Token;

/// The answer of a wait: the guard, which is given back too where the wait was refused.
pub type Waited<'a, R, T> = Result<
    MutexGuard<'a, <R as RawCondvar>::RawMutex, T>,
    (Fault, MutexGuard<'a, <R as RawCondvar>::RawMutex, T>),
>;

/// A condition variable: a thread that has a guard releases its mutex and waits until another thread
/// notifies it, and then has the guard again.
///
/// Nobody wakes by itself: a wait ends with a notification, or, where it has a limit, with its
/// time. A notification returns exactly how many waiters it moved. Those whose mutex is locked wait
/// for that next, and come in turn.
#[derive(Drop)]
pub struct Condvar<R: RawCondvar> {
    raw: R,
}

// In a clause a condition variable is its raw one.
impl<R: RawCondvar> Model for Condvar<R> {
    ghost use Rattle.std.specs.Prelude.{◌≡◌};

    ghost Value = { R };

    ghost view = { λ condvar. condvar.raw };
}

impl<R: RawCondvar> Condvar<R> {
    /// Makes a condition variable on which nobody waits.
    ///
    /// # Errors
    ///
    /// `LotFull`, where the lot has no word left, and `NoMemory`, where memory was refused.
    #[inline]
    pub fn new(
        lot: &Arc<<R::RawMutex as RawMutex>::Lot>,
        token: &mut TokenOf<R>,
    ) -> Result<Condvar<R>, Fault>
        requires { R.RawMutex.is_token_of (arc_value lot.now) token.old }
        ensures token { R.RawMutex.is_token_of (arc_value lot.now) token.new
            × R.RawMutex.keeps_rights token.old token.new }
        ensures made { MatchResult result (λ condvar. R.lot_of condvar ≡ arc_value lot.now)
            (IsRefusal (R.RawMutex.found_full (arc_value lot.now)) token.old token.new) }
        ensures drawn { IfOk result (λ condvar. R.drew condvar token.old token.new) }
    {
        Ok(Condvar {
            raw: R::new(lot, token)?,
        })
    }

    /// Gives the mutex up, waits to be notified, and takes the mutex again.
    ///
    /// # Errors
    ///
    /// `TwoMutexes`, where others wait with another mutex. The mutex was not given up then, and the
    /// guard is given back.
    #[inline]
    pub fn wait<'a, W: Wait, T>(
        &self,
        rt: &W,
        token: &mut TokenOf<R>,
        guard: MutexGuard<'a, R::RawMutex, T>,
    ) -> Waited<'a, R, T>
        requires token { R.RawMutex.is_token_of (R.lot_of self.now) token.old }
        requires lot { R.RawMutex.lot_of (lock_of guard) ≡ R.lot_of self.now }
        ensures token { R.RawMutex.is_token_of (R.lot_of self.now) token.new
            × R.RawMutex.keeps_rights token.old token.new }
        ensures guard { GivesBack result (λ back. lock_of back ≡ lock_of guard.entry) }
        ensures path { R.waited self.now (lock_of guard.entry) false
            (waiting_answer result) token.old token.new }
    {
        let (mutex, lot, guard) = guard.close();
        match self.raw.wait(rt, token, mutex.raw(), guard) {
            Ok(guard) => Ok(mutex.open(lot, guard)),
            Err((fault, guard)) => Err((fault, mutex.open(lot, guard))),
        }
    }

    /// Notifies the first waiter, and returns whether there was one. False also where all wait with
    /// another mutex than the one that it saw first, or another notification is about to move them.
    #[inline]
    pub fn notify_one<W: Wait>(&self, rt: &W, token: &mut TokenOf<R>) -> bool
        requires { R.RawMutex.is_token_of (R.lot_of self.now) token.old }
        ensures token { R.RawMutex.is_token_of (R.lot_of self.now) token.new
            × R.RawMutex.keeps_rights token.old token.new }
        ensures path { R.notified self.now false (notifying_answer result) token.old token.new }
        ensures record { R.moved self.now false (moved_first result) token.old token.new }
    {
        // As `notify_one` of the raw one. It isn't called, since after each call that may wait a
        // flag is tested.
        let seen = self.raw.notify_fast(rt, token, false);
        if seen == 0 {
            return false;
        }
        self.raw.notify_one_slow(rt, token, seen)
    }

    /// Notifies all that wait. How many did.
    #[inline]
    pub fn notify_all<W: Wait>(&self, rt: &W, token: &mut TokenOf<R>) -> usize
        requires { R.RawMutex.is_token_of (R.lot_of self.now) token.old }
        ensures token { R.RawMutex.is_token_of (R.lot_of self.now) token.new
            × R.RawMutex.keeps_rights token.old token.new }
        ensures path { R.notified self.now true (Number result) token.old token.new }
        ensures record { R.moved self.now true result token.old token.new }
    {
        let seen = self.raw.notify_fast(rt, token, true);
        if seen == 0 {
            return 0;
        }
        self.raw.notify_all_slow(rt, token, seen)
    }

    /// Returns the raw condition variable.
    #[inline]
    pub fn raw(&self) -> &R
        ensures { result.now ≡ self.now }
    {
        &self.raw
    }
}

impl<R: RawCondvar> Debug for Condvar<R> {
    fn fmt<W: Write>(&self, f: &mut Formatter<W>) -> fmt::Result {
        f.write_str("Condvar { .. }")
    }
}
