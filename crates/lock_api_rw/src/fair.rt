//! Fair releases and bumps of guards of reader-writer locks with a value.
ghost use Rattle.std.specs.Prelude.{◌≡◌, IfErr, MatchResult};
ghost use Rattle.lock_api_rw.specs.Guards.{lock_of};
ghost use Rattle.lock_raw.specs.Answers.{IsReadersFull, reading_answer};
ghost use Rattle.spec_locks.specs.declared.calls.Access.TheVariants as access;
ghost use Rattle.spec_locks.specs.declared.calls.RwLockCall.TheVariants.{ReleaseFair, Bump};
ghost use Rattle.spec_locks.specs.declared.outcomes.Answer.TheVariants as answers;

use crate::guards::{RwLockReadGuard, RwLockUpgradableReadGuard, RwLockWriteGuard};
use crate::held::Held;
use crate::rights::{Reading, Upgrading, Writing};
use core_base::Fault;
use lock_raw::{RawRwLockFair, RawRwLockUpgradeFair};
use lock_values::{Open, Seen};
use std::sync::Wait;

impl<'a, R: RawRwLockFair, T> Held<Reading<'a, R, T>, Seen<'a, T>> {
    /// Gives the right to read up. The last reader wakes the writer that waits for it, which has
    /// the lock by then.
    #[inline]
    pub fn unlock_fair<W: Wait>(self, rt: &W, token: &mut R::Token)
        requires { R.is_token_of (R.lot_of (lock_of self)) token.old }
        ensures token { R.is_token_of (R.lot_of (lock_of self.entry)) token.new
            × R.keeps_rights token.old token.new }
        ensures path { R.took_steps (lock_of self.entry)
            (ReleaseFair access.Shared) answers.Ok token.old token.new }
        ensures record { R.woke_waiters (lock_of self.entry)
            (ReleaseFair access.Shared) token.old token.new }
    {
        let (lock, raw) = self.close_shared();
        lock.raw().unlock_shared_fair(rt, token, raw);
    }

    /// Lets a writer in that waits for the last readers, and waits to read again. Keeps the right
    /// where no writer does, and on a recursive lock where others read too.
    ///
    /// # Errors
    ///
    /// `ReadersFull`, where it let a writer in and found as many readers as there may be after
    /// that. The right is gone then.
    #[inline]
    pub fn bump<W: Wait>(
        self,
        rt: &W,
        token: &mut R::Token,
    ) -> Result<RwLockReadGuard<'a, R, T>, Fault>
        requires { R.is_token_of (R.lot_of (lock_of self)) token.old }
        ensures token { R.is_token_of (R.lot_of (lock_of self.entry)) token.new
            × R.keeps_rights token.old token.new }
        ensures guard { MatchResult result (λ guard. lock_of guard ≡ lock_of self.entry) IsReadersFull }
        ensures path { R.took_steps (lock_of self.entry) (Bump access.Shared)
            (reading_answer result) token.old token.new }
        ensures full { IfErr result
            (λ _. R.saw_full (lock_of self.entry) access.Shared token.old token.new) }
    {
        let (lock, raw) = self.close_shared();
        match lock.raw().bump_shared(rt, token, raw) {
            Ok(raw) => Ok(lock.open_shared(raw)),
            Err(fault) => Err(fault),
        }
    }
}

impl<'a, R: RawRwLockUpgradeFair, T> Held<Upgrading<'a, R, T>, Seen<'a, T>> {
    /// Hands the lock to those that wait for it and may have it together. Where nobody waits, gives
    /// the right up; where those that wait would be more than may read, they are woken to try
    /// again.
    #[inline]
    pub fn unlock_fair<W: Wait>(self, rt: &W, token: &mut R::Token)
        requires { R.is_token_of (R.lot_of (lock_of self)) token.old }
        ensures token { R.is_token_of (R.lot_of (lock_of self.entry)) token.new
            × R.keeps_rights token.old token.new }
        ensures path { R.took_steps (lock_of self.entry)
            (ReleaseFair access.Upgradable) answers.Ok token.old token.new }
        ensures record { R.woke_waiters (lock_of self.entry)
            (ReleaseFair access.Upgradable) token.old token.new }
    {
        let (lock, raw) = self.close_upgradable();
        lock.raw().unlock_upgradable_fair(rt, token, raw);
    }

    /// Hands the lock to those that wait for it, and waits for the right again. Where nobody waits,
    /// keeps it.
    ///
    /// # Errors
    ///
    /// `ReadersFull`, where it gave its right up and found as many readers as there may be after
    /// that. The right is gone then.
    #[inline]
    pub fn bump<W: Wait>(
        self,
        rt: &W,
        token: &mut R::Token,
    ) -> Result<RwLockUpgradableReadGuard<'a, R, T>, Fault>
        requires { R.is_token_of (R.lot_of (lock_of self)) token.old }
        ensures token { R.is_token_of (R.lot_of (lock_of self.entry)) token.new
            × R.keeps_rights token.old token.new }
        ensures guard { MatchResult result (λ guard. lock_of guard ≡ lock_of self.entry) IsReadersFull }
        ensures path { R.took_steps (lock_of self.entry) (Bump access.Upgradable)
            (reading_answer result) token.old token.new }
        ensures full { IfErr result
            (λ _. R.saw_full (lock_of self.entry) access.Upgradable token.old token.new) }
    {
        let (lock, raw) = self.close_upgradable();
        match lock.raw().bump_upgradable(rt, token, raw) {
            Ok(raw) => Ok(lock.open_upgradable(raw)),
            Err(fault) => Err(fault),
        }
    }
}

impl<'a, R: RawRwLockFair, T> Held<Writing<'a, R, T>, Open<'a, T>> {
    /// Hands the lock to those that wait for it and may have it together. Where nobody waits, gives
    /// it up.
    #[inline]
    pub fn unlock_fair<W: Wait>(self, rt: &W, token: &mut R::Token)
        requires { R.is_token_of (R.lot_of (lock_of self)) token.old }
        ensures token { R.is_token_of (R.lot_of (lock_of self.entry)) token.new
            × R.keeps_rights token.old token.new }
        ensures path { R.took_steps (lock_of self.entry)
            (ReleaseFair access.Exclusive) answers.Ok token.old token.new }
        ensures record { R.woke_waiters (lock_of self.entry)
            (ReleaseFair access.Exclusive) token.old token.new }
    {
        let (lock, raw) = self.close_exclusive();
        lock.raw().unlock_exclusive_fair(rt, token, raw);
    }

    /// Hands the lock to those that wait for it, and waits to have it alone again. Where nobody
    /// waits, keeps it.
    #[inline]
    pub fn bump<W: Wait>(self, rt: &W, token: &mut R::Token) -> RwLockWriteGuard<'a, R, T>
        requires { R.is_token_of (R.lot_of (lock_of self)) token.old }
        ensures token { R.is_token_of (R.lot_of (lock_of self.entry)) token.new
            × R.keeps_rights token.old token.new }
        ensures guard { lock_of result ≡ lock_of self.entry }
        ensures path { R.took_steps (lock_of self.entry)
            (Bump access.Exclusive) answers.Ok token.old token.new }
    {
        let (lock, raw) = self.close_exclusive();
        let raw = lock.raw().bump_exclusive(rt, token, raw);
        lock.open_exclusive(raw)
    }
}
