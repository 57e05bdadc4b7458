//! Calls of a reader-writer lock that come in, run a closure on the value, and go.
ghost use Rattle.std.specs.Prelude.{◌≡◌, ◌⊎◌, IfErr, IfSome, MatchOption, MatchResult, None, Some};
ghost use Rattle.std.specs.Fn.{FnOnceReturnsAt, FnOnceReturnsAtMut};
ghost use Rattle.lock_raw.specs.Answers.{IsReadersFull, TriesOrFull};
ghost use Rattle.lock_api.specs.Visits.{CameAndWent};
ghost use Rattle.lock_api_rw.specs.Visits.{CameUpAndWent};
ghost use Rattle.spec_locks.specs.declared.calls.Access.TheVariants as access;
ghost use Rattle.spec_locks.specs.declared.calls.Patience.TheVariants.{Patient, Try};
ghost use Rattle.spec_locks.specs.declared.calls.RwLockCall.TheVariants.{Enter, Release};
ghost use Rattle.spec_locks.specs.declared.outcomes.Answer.TheVariants as answers;

use crate::rwlock::RwLock;
use core_base::Fault;
use lock_api::mutex::run_on;
use lock_raw::{RawRwLock, RawRwLockUpgrade};
use std::sync::Wait;

fn look_at<T, U, F: FnOnce(&T) -> U>(value: &T, f: F) -> U
    requires { F.IsAlwaysCallable f }
    ensures { FnOnceReturnsAt F.FnOnce f value.now result }
{
    f(value)
}

impl<R: RawRwLock, T> RwLock<R, T> {
    /// Comes in to read, runs a closure on the value, and goes: what the closure promises of the
    /// value that it found.
    ///
    /// # Errors
    ///
    /// `ReadersFull`, where as many share the lock as may. The closure was not run.
    pub fn with_read<W: Wait, U, F: FnOnce(&T) -> U + Drop>(
        &self,
        rt: &W,
        token: &mut R::Token,
        f: F,
    ) -> Result<U, Fault>
        requires token { R.is_token_of (R.lot_of self.now) token.old }
        requires callable { F.IsAlwaysCallable f }
        ensures token { R.is_token_of (R.lot_of self.now) token.new × R.keeps_rights token.old token.new }
        ensures ran { MatchResult result
            (λ answer. (found : T) × FnOnceReturnsAt F.FnOnce f found answer) IsReadersFull }
        ensures path { MatchResult result
            (λ _. CameAndWent (R.took_steps self.now) (R.woke_waiters self.now)
            (Enter access.Shared Patient) answers.Ok (Release access.Shared) token.old token.new)
            (λ _. R.took_steps self.now
            (Enter access.Shared Patient) answers.ReadersFull token.old token.new) }
        ensures full { IfErr result (λ _. R.saw_full self.now access.Shared token.old token.new) }
    {
        match self.read(rt, token) {
            Ok(guard) => {
                let answer = look_at(&*guard, f);
                guard.unlock(rt, token);
                Ok(answer)
            }
            Err(fault) => Err(fault),
        }
    }

    /// Takes the lock, runs a closure on the value, and gives the lock up: what the closure
    /// promises of the value that it found.
    pub fn with_write<W: Wait, U, F: FnOnce(&mut T) -> U>(
        &self,
        rt: &W,
        token: &mut R::Token,
        f: F,
    ) -> U
        requires token { R.is_token_of (R.lot_of self.now) token.old }
        requires callable { F.IsAlwaysCallable f }
        ensures token { R.is_token_of (R.lot_of self.now) token.new × R.keeps_rights token.old token.new }
        ensures ran { (found : T) × (left : T) × FnOnceReturnsAtMut F.FnOnce f found result left }
        ensures path { CameAndWent (R.took_steps self.now) (R.woke_waiters self.now)
            (Enter access.Exclusive Patient) answers.Ok (Release access.Exclusive)
            token.old token.new }
    {
        let mut guard = self.write(rt, token);
        let answer = run_on(&mut *guard, f);
        guard.unlock(rt, token);
        answer
    }

    /// Comes in to read where no writer keeps readers out, runs a closure on the value, and goes.
    /// None only where a writer does, and the closure was not run.
    ///
    /// # Errors
    ///
    /// `ReadersFull`, where as many share the lock as may. The closure was not run.
    pub fn try_with_read<W: Wait, U, F: FnOnce(&T) -> U + Drop>(
        &self,
        rt: &W,
        token: &mut R::Token,
        f: F,
    ) -> Result<Option<U>, Fault>
        requires token { R.is_token_of (R.lot_of self.now) token.old }
        requires callable { F.IsAlwaysCallable f }
        ensures token { R.is_token_of (R.lot_of self.now) token.new × R.keeps_rights token.old token.new }
        ensures ran { TriesOrFull result
            (λ answer. (found : T) × FnOnceReturnsAt F.FnOnce f found answer) }
        ensures path { MatchResult result
            (λ tried. MatchOption tried
            (R.took_steps self.now (Enter access.Shared Try) answers.No token.old token.new)
            (λ _. CameAndWent (R.took_steps self.now) (R.woke_waiters self.now)
            (Enter access.Shared Try) answers.Yes (Release access.Shared) token.old token.new))
            (λ _. R.took_steps self.now
            (Enter access.Shared Try) answers.ReadersFull token.old token.new) }
        ensures full { IfErr result (λ _. R.saw_full self.now access.Shared token.old token.new) }
    {
        match self.try_read(rt, token) {
            Ok(Some(guard)) => {
                let answer = look_at(&*guard, f);
                guard.unlock(rt, token);
                Ok(Some(answer))
            }
            Ok(None) => Ok(None),
            Err(fault) => Err(fault),
        }
    }

    /// Takes the lock where its word is 0, runs a closure on the value, and releases the lock. None
    /// where somebody has it or waits, or where a waiter that has gone left its bit; the closure was
    /// not run then.
    pub fn try_with_write<W: Wait, U, F: FnOnce(&mut T) -> U + Drop>(
        &self,
        rt: &W,
        token: &mut R::Token,
        f: F,
    ) -> Option<U>
        requires token { R.is_token_of (R.lot_of self.now) token.old }
        requires callable { F.IsAlwaysCallable f }
        ensures token { R.is_token_of (R.lot_of self.now) token.new × R.keeps_rights token.old token.new }
        ensures ran { IfSome result (λ answer. (found : T) × (left : T)
            × FnOnceReturnsAtMut F.FnOnce f found answer left) }
        ensures path { MatchOption result
            (R.took_steps self.now (Enter access.Exclusive Try) answers.No token.old token.new)
            (λ _. CameAndWent (R.took_steps self.now) (R.woke_waiters self.now)
            (Enter access.Exclusive Try) answers.Yes (Release access.Exclusive)
            token.old token.new) }
    {
        let mut guard = self.try_write(token)?;
        let answer = run_on(&mut *guard, f);
        guard.unlock(rt, token);
        Some(answer)
    }
}

impl<R: RawRwLockUpgrade, T> RwLock<R, T> {
    /// Comes in to read with the right to write later, and runs `look` on the value. Where that
    /// answers something, goes and returns it. Where it answers nothing, upgrades, runs `write`,
    /// and goes. No other writer comes between.
    ///
    /// # Errors
    ///
    /// `ReadersFull`, where as many share the lock as may. No closure was run.
    pub fn with_upgradable<
        W: Wait,
        U,
        L: FnOnce(&T) -> Option<U> + Drop,
        F: FnOnce(&mut T) -> U + Drop,
    >(&self, rt: &W, token: &mut R::Token, look: L, write: F) -> Result<U, Fault>
        requires token { R.is_token_of (R.lot_of self.now) token.old }
        requires callable { L.IsAlwaysCallable look × F.IsAlwaysCallable write }
        ensures token { R.is_token_of (R.lot_of self.now) token.new × R.keeps_rights token.old token.new }
        ensures visit { MatchResult result
            (λ answer. (((found : T) × FnOnceReturnsAt L.FnOnce look found (Some answer))
            × CameAndWent (R.took_steps self.now) (R.woke_waiters self.now) (Enter access.Upgradable Patient)
            answers.Ok (Release access.Upgradable) token.old token.new)
            ⊎ (((found : T) × FnOnceReturnsAt L.FnOnce look found None)
            × ((found : T) × (left : T) × FnOnceReturnsAtMut F.FnOnce write found answer left)
            × CameUpAndWent (R.took_steps self.now) (R.woke_waiters self.now) token.old token.new))
            (λ fault. IsReadersFull fault × R.took_steps self.now
            (Enter access.Upgradable Patient) answers.ReadersFull token.old token.new) }
        ensures full { IfErr result
            (λ _. R.saw_full self.now access.Upgradable token.old token.new) }
    {
        match self.upgradable_read(rt, token) {
            Ok(guard) => match look_at(&*guard, look) {
                Some(answer) => {
                    guard.unlock(rt, token);
                    Ok(answer)
                }
                None => {
                    let mut guard = guard.upgrade(rt, token);
                    let answer = run_on(&mut *guard, write);
                    guard.unlock(rt, token);
                    Ok(answer)
                }
            },
            Err(fault) => Err(fault),
        }
    }
}
