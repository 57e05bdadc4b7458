//! Guards of reader-writer locks with a value. Each has the raw guard of its lock; it can't be
//! dropped, and is spent by what gives its right up or turns it into another.
ghost use Rattle.std.specs.Prelude.{◌≡◌, IfErr, MatchResult};
ghost use Rattle.std.specs.Duration.{as_nanos};
ghost use Rattle.core_clocks.specs.Clocks.{HasElapsed, HasPassed};
ghost use Rattle.lock_raw.specs.Answers.{upgrade_answer};
ghost use Rattle.lock_api_rw.specs.Guards.{lock_of};
ghost use Rattle.spec_locks.specs.declared.calls.Access.TheVariants as access;
ghost use Rattle.spec_locks.specs.declared.calls.Downgrade.TheVariants as downgrades;
ghost use Rattle.spec_locks.specs.declared.calls.Patience.TheVariants.{Patient, Timed, Try};
ghost use Rattle.spec_locks.specs.declared.calls.RwLockCall.TheVariants.{Release, Downgrade, Upgrade};
ghost use Rattle.spec_locks.specs.declared.outcomes.Answer.TheVariants as answers;

use crate::held::Held;
use crate::rights::{Reading, Upgrading, Writing};
use crate::rwlock::RwLock;
use core_clocks::Clock;
use lock_raw::{
    RawRwLock, RawRwLockDowngrade, RawRwLockUpgrade, RawRwLockUpgradeDowngrade,
    RawRwLockUpgradeTimed,
};
use lock_values::{Open, Seen};
use spec_locks::Access;
use std::sync::Wait;
use std::time::Duration;

/// The value may be read, beside others that read.
pub type RwLockReadGuard<'a, R, T> = Held<Reading<'a, R, T>, Seen<'a, T>>;

/// The value may be read, and written later.
pub type RwLockUpgradableReadGuard<'a, R, T> = Held<Upgrading<'a, R, T>, Seen<'a, T>>;

/// The value may be read and written.
pub type RwLockWriteGuard<'a, R, T> = Held<Writing<'a, R, T>, Open<'a, T>>;

impl<'a, R: RawRwLock, T> Held<Reading<'a, R, T>, Seen<'a, T>> {
    // Shuts the place of the value, which gives the raw guard.
    #[inline]
    pub(crate) fn close_shared(self) -> (&'a RwLock<R, T>, R::SharedGuard)
        ensures { (result.0.now ≡ lock_of self.entry)
            × R.is_shared_of (lock_of self.entry) result.1 }
    {
        let Held { right, value } = self;
        right.close(value)
    }

    /// Gives the right to read up. The last reader wakes the writer that waits for it.
    #[inline(always)]
    pub fn unlock<W: Wait>(self, rt: &W, token: &mut R::Token)
        requires { R.is_token_of (R.lot_of (lock_of self)) token.old }
        ensures token { R.is_token_of (R.lot_of (lock_of self.entry)) token.new
            × R.keeps_rights token.old token.new }
        ensures path { R.took_steps (lock_of self.entry)
            (Release access.Shared) answers.Ok token.old token.new }
        ensures record { R.woke_waiters (lock_of self.entry) (Release access.Shared) token.old token.new }
    {
        let (lock, raw) = self.close_shared();
        if let Some(rest) = lock.raw().unlock_shared_fast(token, raw) {
            lock.raw().unlock_slow(rt, token, Access::Shared, rest);
        }
    }
}

impl<'a, R: RawRwLockUpgrade, T> Held<Upgrading<'a, R, T>, Seen<'a, T>> {
    #[inline]
    pub(crate) fn close_upgradable(self) -> (&'a RwLock<R, T>, R::UpgradableGuard)
        ensures { (result.0.now ≡ lock_of self.entry)
            × R.is_upgradable_of (lock_of self.entry) result.1 }
    {
        let Held { right, value } = self;
        right.close(value)
    }

    /// Gives the right up, and wakes the threads that this lets in.
    #[inline(always)]
    pub fn unlock<W: Wait>(self, rt: &W, token: &mut R::Token)
        requires { R.is_token_of (R.lot_of (lock_of self)) token.old }
        ensures token { R.is_token_of (R.lot_of (lock_of self.entry)) token.new
            × R.keeps_rights token.old token.new }
        ensures path { R.took_steps (lock_of self.entry)
            (Release access.Upgradable) answers.Ok token.old token.new }
        ensures record { R.woke_waiters (lock_of self.entry)
            (Release access.Upgradable) token.old token.new }
    {
        let (lock, raw) = self.close_upgradable();
        if let Some(rest) = lock.raw().unlock_upgradable_fast(token, raw) {
            lock.raw().unlock_slow(rt, token, Access::Upgradable, rest);
        }
    }

    /// One thread at a time has this right: nobody ever has two such guards, so this can't be
    /// called.
    pub fn has_two(self, token: &mut R::Token, other: RwLockUpgradableReadGuard<'a, R, T>) -> !
        requires token { R.is_token_of (R.lot_of (lock_of self)) token.old }
        requires lock { lock_of other ≡ lock_of self }
    {
        let (lock, one) = self.close_upgradable();
        let (_, other) = other.close_upgradable();
        lock.raw().has_two_upgradables(token, one, other)
    }

    /// Turns the right into that of a thread that has the lock alone: further readers are kept out,
    /// and the others are waited for.
    #[inline(always)]
    pub fn upgrade<W: Wait>(self, rt: &W, token: &mut R::Token) -> RwLockWriteGuard<'a, R, T>
        requires { R.is_token_of (R.lot_of (lock_of self)) token.old }
        ensures token { R.is_token_of (R.lot_of (lock_of self.entry)) token.new
            × R.keeps_rights token.old token.new }
        ensures guard { lock_of result ≡ lock_of self.entry }
        ensures path { R.took_steps (lock_of self.entry)
            (Upgrade Patient) answers.Ok token.old token.new }
    {
        let (lock, raw) = self.close_upgradable();
        let raw = lock.raw().upgrade(rt, token, raw);
        lock.open_exclusive(raw)
    }

    /// Upgrades where nobody else reads.
    ///
    /// # Errors
    ///
    /// The guard, where somebody else reads.
    #[inline]
    pub fn try_upgrade<W: Wait>(
        self,
        rt: &W,
        token: &mut R::Token,
    ) -> Result<RwLockWriteGuard<'a, R, T>, RwLockUpgradableReadGuard<'a, R, T>>
        requires { R.is_token_of (R.lot_of (lock_of self)) token.old }
        ensures token { R.is_token_of (R.lot_of (lock_of self.entry)) token.new
            × R.keeps_rights token.old token.new }
        ensures guard { MatchResult result (λ guard. lock_of guard ≡ lock_of self.entry)
            (λ guard. lock_of guard ≡ lock_of self.entry) }
        ensures path { R.took_steps (lock_of self.entry) (Upgrade Try)
            (upgrade_answer result) token.old token.new }
    {
        let (lock, raw) = self.close_upgradable();
        match lock.raw().try_upgrade(rt, token, raw) {
            Ok(raw) => Ok(lock.open_exclusive(raw)),
            Err(raw) => Err(lock.open_upgradable(raw)),
        }
    }
}

impl<'a, R: RawRwLockUpgradeTimed, T> Held<Upgrading<'a, R, T>, Seen<'a, T>> {
    /// Upgrades, and gives up once so much time, in nanoseconds of the clock, has passed.
    ///
    /// # Errors
    ///
    /// The guard, where the time was up.
    #[inline]
    pub fn try_upgrade_for<W: Wait, C: Clock>(
        self,
        rt: &W,
        token: &mut R::Token,
        clock: &C,
        timeout: Duration,
    ) -> Result<RwLockWriteGuard<'a, R, T>, RwLockUpgradableReadGuard<'a, R, T>>
        requires { R.is_token_of (R.lot_of (lock_of self)) token.old }
        ensures token { R.is_token_of (R.lot_of (lock_of self.entry)) token.new
            × R.keeps_rights token.old token.new }
        ensures guard { MatchResult result (λ guard. lock_of guard ≡ lock_of self.entry)
            (λ guard. lock_of guard ≡ lock_of self.entry) }
        ensures path { R.took_steps (lock_of self.entry) (Upgrade Timed)
            (upgrade_answer result) token.old token.new }
        ensures left { IfErr result
            (λ _. R.gave_up (lock_of self.entry) (Upgrade Timed) token.new) }
        ensures late { IfErr result (λ _. HasElapsed (C.tells clock.now) (as_nanos timeout)) }
    {
        let (lock, raw) = self.close_upgradable();
        match lock.raw().try_upgrade_for(rt, token, raw, clock, timeout) {
            Ok(raw) => Ok(lock.open_exclusive(raw)),
            Err(raw) => Err(lock.open_upgradable(raw)),
        }
    }

    /// Upgrades, or gives up at a deadline, in nanoseconds of the clock.
    ///
    /// # Errors
    ///
    /// The guard, where the clock has come to the deadline.
    #[inline]
    pub fn try_upgrade_until<W: Wait, C: Clock>(
        self,
        rt: &W,
        token: &mut R::Token,
        clock: &C,
        deadline: u64,
    ) -> Result<RwLockWriteGuard<'a, R, T>, RwLockUpgradableReadGuard<'a, R, T>>
        requires { R.is_token_of (R.lot_of (lock_of self)) token.old }
        ensures token { R.is_token_of (R.lot_of (lock_of self.entry)) token.new
            × R.keeps_rights token.old token.new }
        ensures guard { MatchResult result (λ guard. lock_of guard ≡ lock_of self.entry)
            (λ guard. lock_of guard ≡ lock_of self.entry) }
        ensures path { R.took_steps (lock_of self.entry) (Upgrade Timed)
            (upgrade_answer result) token.old token.new }
        ensures left { IfErr result
            (λ _. R.gave_up (lock_of self.entry) (Upgrade Timed) token.new) }
        ensures late { IfErr result (λ _. HasPassed (C.tells clock.now) deadline) }
    {
        let (lock, raw) = self.close_upgradable();
        match lock
            .raw()
            .try_upgrade_until(rt, token, raw, clock, deadline)
        {
            Ok(raw) => Ok(lock.open_exclusive(raw)),
            Err(raw) => Err(lock.open_upgradable(raw)),
        }
    }
}

impl<'a, R: RawRwLockUpgradeDowngrade, T> Held<Upgrading<'a, R, T>, Seen<'a, T>> {
    /// Goes on as a reader, and wakes the threads that this lets in.
    #[inline(always)]
    pub fn downgrade<W: Wait>(self, rt: &W, token: &mut R::Token) -> RwLockReadGuard<'a, R, T>
        requires { R.is_token_of (R.lot_of (lock_of self)) token.old }
        ensures token { R.is_token_of (R.lot_of (lock_of self.entry)) token.new
            × R.keeps_rights token.old token.new }
        ensures guard { lock_of result ≡ lock_of self.entry }
        ensures path { R.took_steps (lock_of self.entry) (Downgrade downgrades.UpgradableToShared)
            answers.Ok token.old token.new }
        ensures record { R.woke_waiters (lock_of self.entry)
            (Downgrade downgrades.UpgradableToShared) token.old token.new }
    {
        let (lock, raw) = self.close_upgradable();
        let raw = lock.raw().downgrade_upgradable(rt, token, raw);
        lock.open_shared(raw)
    }
}

impl<'a, R: RawRwLock, T> Held<Writing<'a, R, T>, Open<'a, T>> {
    #[inline]
    pub(crate) fn close_exclusive(self) -> (&'a RwLock<R, T>, R::ExclusiveGuard)
        ensures { (result.0.now ≡ lock_of self.entry)
            × R.is_exclusive_of (lock_of self.entry) result.1 }
    {
        let Held { right, value } = self;
        right.close(value)
    }

    /// Gives the lock up, and wakes the threads that this lets in.
    #[inline(always)]
    pub fn unlock<W: Wait>(self, rt: &W, token: &mut R::Token)
        requires { R.is_token_of (R.lot_of (lock_of self)) token.old }
        ensures token { R.is_token_of (R.lot_of (lock_of self.entry)) token.new
            × R.keeps_rights token.old token.new }
        ensures path { R.took_steps (lock_of self.entry)
            (Release access.Exclusive) answers.Ok token.old token.new }
        ensures record { R.woke_waiters (lock_of self.entry)
            (Release access.Exclusive) token.old token.new }
    {
        let (lock, raw) = self.close_exclusive();
        if let Some(rest) = lock.raw().unlock_exclusive_fast(token, raw) {
            lock.raw().unlock_slow(rt, token, Access::Exclusive, rest);
        }
    }

    /// Two guards that may write exclude each other: nobody ever has both, so this can't be called.
    pub fn has_two(self, token: &mut R::Token, other: RwLockWriteGuard<'a, R, T>) -> !
        requires token { R.is_token_of (R.lot_of (lock_of self)) token.old }
        requires lock { lock_of other ≡ lock_of self }
    {
        let (lock, one) = self.close_exclusive();
        let (_, other) = other.close_exclusive();
        lock.raw().has_two_writers(token, one, other)
    }

    /// A guard that may write excludes those that read: this can't be called either.
    pub fn has_reader(self, token: &mut R::Token, other: RwLockReadGuard<'a, R, T>) -> !
        requires token { R.is_token_of (R.lot_of (lock_of self)) token.old }
        requires lock { lock_of other ≡ lock_of self }
    {
        let (lock, one) = self.close_exclusive();
        let (_, other) = other.close_shared();
        lock.raw().has_writer_and_reader(token, one, other)
    }
}

impl<'a, R: RawRwLockUpgrade, T> Held<Writing<'a, R, T>, Open<'a, T>> {
    /// A guard that may write excludes one that may write later: this can't be called either.
    pub fn has_upgradable(
        self,
        token: &mut R::Token,
        other: RwLockUpgradableReadGuard<'a, R, T>,
    ) -> !
        requires token { R.is_token_of (R.lot_of (lock_of self)) token.old }
        requires lock { lock_of other ≡ lock_of self }
    {
        let (lock, writer) = self.close_exclusive();
        let (_, reader) = other.close_upgradable();
        lock.raw().has_writer_and_upgradable(token, writer, reader)
    }
}

impl<'a, R: RawRwLockDowngrade, T> Held<Writing<'a, R, T>, Open<'a, T>> {
    /// Goes on as a reader, and wakes the threads that this lets in.
    #[inline(always)]
    pub fn downgrade<W: Wait>(self, rt: &W, token: &mut R::Token) -> RwLockReadGuard<'a, R, T>
        requires { R.is_token_of (R.lot_of (lock_of self)) token.old }
        ensures token { R.is_token_of (R.lot_of (lock_of self.entry)) token.new
            × R.keeps_rights token.old token.new }
        ensures guard { lock_of result ≡ lock_of self.entry }
        ensures path { R.took_steps (lock_of self.entry)
            (Downgrade downgrades.ToShared) answers.Ok token.old token.new }
        ensures record { R.woke_waiters (lock_of self.entry)
            (Downgrade downgrades.ToShared) token.old token.new }
    {
        let (lock, raw) = self.close_exclusive();
        let raw = lock.raw().downgrade(rt, token, raw);
        lock.open_shared(raw)
    }
}

impl<'a, R: RawRwLockUpgradeDowngrade, T> Held<Writing<'a, R, T>, Open<'a, T>> {
    /// Goes on as a reader with the upgradable right, and wakes the threads that this lets in.
    #[inline]
    pub fn downgrade_to_upgradable<W: Wait>(
        self,
        rt: &W,
        token: &mut R::Token,
    ) -> RwLockUpgradableReadGuard<'a, R, T>
        requires { R.is_token_of (R.lot_of (lock_of self)) token.old }
        ensures token { R.is_token_of (R.lot_of (lock_of self.entry)) token.new
            × R.keeps_rights token.old token.new }
        ensures guard { lock_of result ≡ lock_of self.entry }
        ensures path { R.took_steps (lock_of self.entry) (Downgrade downgrades.ToUpgradable)
            answers.Ok token.old token.new }
        ensures record { R.woke_waiters (lock_of self.entry)
            (Downgrade downgrades.ToUpgradable) token.old token.new }
    {
        let (lock, raw) = self.close_exclusive();
        let raw = lock.raw().downgrade_to_upgradable(rt, token, raw);
        lock.open_upgradable(raw)
    }
}
