//! The mutex with its condition variables.
//!
//! A refused wait is begun again: the condition variables are used with the monitor's own mutex alone,
//! so none is refused, but no contract knows that. The condition variables have numbers and no types,
//! since a struct of a user's own can't be one of the fields of a library's.
ghost use Rattle.std.specs.Prelude.{◌≡◌, ◌<◌, All, IfErr, IfOk, MatchResult, false, length, slice_index_or};
ghost use Rattle.std.specs.Prelude.{true};
ghost use Rattle.std.specs.Arc.{arc_value};
ghost use Rattle.std.specs.Fn.{FnOnceReturnsAtMut};
ghost use Rattle.lock_api.specs.Conditions.{WaitedOrNot};
ghost use Rattle.lock_api.specs.Guards.{lock_of};
ghost use Rattle.lock_api.specs.Visits.{CameAndWent};
ghost use Rattle.lock_raw.specs.Answers.{moved_first, notifying_answer};
ghost use Rattle.lock_monitor.specs.Conditions.{At, IsRefusedAtLast};
ghost use Rattle.spec_locks.specs.declared.calls.MutexCall.TheVariants.{Lock, Unlock};
ghost use Rattle.spec_locks.specs.declared.outcomes.Answer.TheVariants as answers;

use core_base::Fault;
use lock_api::condvar::TokenOf;
use lock_api::{Condvar, Mutex, MutexGuard, RawCondvar, RawMutex};
use std::alloc::Global;
use std::marker::Model;
use std::sync::{Arc, Wait};

/// A value that one thread at a time may use, and `N` condition variables on which threads wait for
/// a change of it. They are numbered from 0, and wait with this mutex alone.
#[derive(Drop)]
pub struct Monitor<R: RawCondvar, T, const N: usize> {
    pub(crate) mutex: Mutex<R::RawMutex, T>,
    pub(crate) conditions: Vec<Condvar<R>>,
    ghost together: { All (λ condition. R.lot_of condition ≡ R.RawMutex.lot_of mutex)
        conditions.items },
    ghost number: { length conditions.items ≡ N },
}

// In a clause a monitor is its raw mutex, and its raw condition variables.
impl<R: RawCondvar, T, const N: usize> Model for Monitor<R, T, N> {
    ghost use Rattle.std.specs.Prelude.{◌≡◌, List};

    ghost Value = { R.RawMutex × List R };

    ghost view = { λ monitor. (monitor.mutex, monitor.conditions.items) };
}

// Makes so many condition variables of a lot.
fn conditions<R: RawCondvar + Drop>(
    alloc: Global,
    lot: &Arc<<R::RawMutex as RawMutex>::Lot>,
    token: &mut TokenOf<R>,
    number: usize,
) -> Result<Vec<Condvar<R>>, Fault>
    requires { R.RawMutex.is_token_of (arc_value lot.now) token.old }
    ensures token { R.RawMutex.is_token_of (arc_value lot.now) token.new
        × WaitedOrNot R.RawMutex.keeps_rights token.old token.new }
    ensures made { IfOk result (λ made. (length made.items ≡ number)
        × All (λ condition. R.lot_of condition ≡ arc_value lot.now) made.items) }
    ensures err { IfErr result
        (IsRefusedAtLast (R.RawMutex.found_full (arc_value lot.now)) token.new) }
{
    let mut made = Vec::with_capacity(alloc, number)?;
    for _ in 0..number {
        match Condvar::new(lot, token) {
            Ok(condition) => made.push(condition)?,
            Err(fault) => return Err(fault),
        }
    }
    Ok(made)
}

impl<R: RawCondvar + Drop, T, const N: usize> Monitor<R, T, N> {
    /// Makes a monitor that nobody has, with its value. It takes a word of the lot, and one for
    /// each condition variable.
    ///
    /// # Errors
    ///
    /// `LotFull`, where the lot has too few words left, and `NoMemory`, where memory was refused.
    /// The value is given back.
    pub fn new(
        alloc: Global,
        lot: &Arc<<R::RawMutex as RawMutex>::Lot>,
        token: &mut TokenOf<R>,
        value: T,
    ) -> Result<Monitor<R, T, N>, (Fault, T)>
        requires { R.RawMutex.is_token_of (arc_value lot.now) token.old }
        ensures token { R.RawMutex.is_token_of (arc_value lot.now) token.new
            × WaitedOrNot R.RawMutex.keeps_rights token.old token.new }
        ensures made { MatchResult result
            (λ monitor. R.RawMutex.lot_of monitor.0 ≡ arc_value lot.now)
            (λ refused. (refused.1 ≡ value) × IsRefusedAtLast
            (R.RawMutex.found_full (arc_value lot.now)) token.new refused.0) }
    {
        match conditions(alloc, lot, token, N) {
            Ok(conditions) => match Mutex::new(lot, token, value) {
                Ok(mutex) => Ok(Monitor { mutex, conditions }),
                Err(refused) => Err(refused),
            },
            Err(fault) => Err((fault, value)),
        }
    }
}

impl<R: RawCondvar, T, const N: usize> Monitor<R, T, N> {
    /// Returns the mutex with the value.
    #[inline]
    pub fn mutex(&self) -> &Mutex<R::RawMutex, T>
        ensures { result.now ≡ self.now.0 }
    {
        &self.mutex
    }

    // Returns the condition variable of this number.
    pub(crate) fn condition(&self, at: usize) -> &Condvar<R>
        requires { at < N }
        ensures { (result.now ≡ slice_index_or self.now.1 at result.now)
            × (R.lot_of result.now ≡ R.RawMutex.lot_of self.now.0) }
    {
        &self.conditions[at]
    }

    /// Waits until nobody has the mutex, and takes it.
    #[inline]
    pub fn lock<W: Wait>(&self, rt: &W, token: &mut TokenOf<R>) -> MutexGuard<'_, R::RawMutex, T>
        requires { R.RawMutex.is_token_of (R.RawMutex.lot_of self.now.0) token.old }
        ensures token { R.RawMutex.is_token_of (R.RawMutex.lot_of self.now.0) token.new
            × R.RawMutex.keeps_rights token.old token.new }
        ensures guard { lock_of result ≡ self.now.0 }
        ensures path { R.RawMutex.took_steps self.now.0 Lock answers.Ok token.old token.new }
    {
        self.mutex.lock(rt, token)
    }

    /// Locks the mutex, runs a closure on the value, and unlocks, as `with` of a mutex.
    pub fn with<W: Wait, U, F: FnOnce(&mut T) -> U>(
        &self,
        rt: &W,
        token: &mut TokenOf<R>,
        f: F,
    ) -> U
        requires token { R.RawMutex.is_token_of (R.RawMutex.lot_of self.now.0) token.old }
        requires callable { F.IsAlwaysCallable f }
        ensures token { R.RawMutex.is_token_of (R.RawMutex.lot_of self.now.0) token.new
            × R.RawMutex.keeps_rights token.old token.new }
        ensures ran { (found : T) × (left : T) × FnOnceReturnsAtMut F.FnOnce f found result left }
        ensures path { CameAndWent (R.RawMutex.took_steps self.now.0) (R.RawMutex.released self.now.0)
            Lock answers.Ok Unlock token.old token.new }
    {
        self.mutex.with(rt, token, f)
    }

    /// Notifies the first that waits on a condition variable. Returns whether anybody did.
    #[inline]
    pub fn notify_one<W: Wait>(&self, rt: &W, token: &mut TokenOf<R>, at: usize) -> bool
        requires token { R.RawMutex.is_token_of (R.RawMutex.lot_of self.now.0) token.old }
        requires number { at < N }
        ensures token { R.RawMutex.is_token_of (R.RawMutex.lot_of self.now.0) token.new
            × R.RawMutex.keeps_rights token.old token.new }
        ensures path { At self.now.1 at (λ condition. R.notified condition false
            (notifying_answer result) token.old token.new) }
        ensures record { At self.now.1 at (λ condition. R.moved condition false
            (moved_first result) token.old token.new) }
    {
        self.condition(at).notify_one(rt, token)
    }

    /// Notifies all that wait on a condition variable. Returns how many did.
    #[inline]
    pub fn notify_all<W: Wait>(&self, rt: &W, token: &mut TokenOf<R>, at: usize) -> usize
        requires token { R.RawMutex.is_token_of (R.RawMutex.lot_of self.now.0) token.old }
        requires number { at < N }
        ensures token { R.RawMutex.is_token_of (R.RawMutex.lot_of self.now.0) token.new
            × R.RawMutex.keeps_rights token.old token.new }
        ensures path { At self.now.1 at (λ condition. R.notified condition true
            (answers.Number result) token.old token.new) }
        ensures record { At self.now.1 at (λ condition. R.moved condition true
            result token.old token.new) }
    {
        self.condition(at).notify_all(rt, token)
    }
}

impl<R: RawCondvar + Drop, T, const N: usize> Monitor<R, T, N>
where
    R::RawMutex: Drop,
{
    /// Returns the value of a monitor that nobody has. It takes no step.
    #[inline]
    pub fn into_inner(self) -> T {
        let Monitor {
            mutex,
            conditions: _,
        } = self;
        mutex.into_inner()
    }
}
