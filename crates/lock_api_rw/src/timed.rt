//! Calls of a reader-writer lock with a value that give up in time.
ghost use Rattle.std.specs.Prelude.{◌≡◌, IfErr, IfNone, IfOk, IfSome};
ghost use Rattle.std.specs.Duration.{as_nanos};
ghost use Rattle.core_clocks.specs.Clocks.{HasElapsed, HasPassed};
ghost use Rattle.lock_raw.specs.Answers.{TriesOrFull, answer_by, counted_answer};
ghost use Rattle.lock_api_rw.specs.Guards.{lock_of};
ghost use Rattle.spec_locks.specs.declared.calls.Access.TheVariants as access;
ghost use Rattle.spec_locks.specs.declared.calls.Patience.TheVariants.{Timed};
ghost use Rattle.spec_locks.specs.declared.calls.RwLockCall.TheVariants.{Enter};

use crate::guards::{RwLockReadGuard, RwLockUpgradableReadGuard, RwLockWriteGuard};
use crate::rwlock::RwLock;
use core_base::Fault;
use core_clocks::Clock;
use lock_raw::{RawRwLockTimed, RawRwLockUpgradeTimed};
use std::sync::Wait;
use std::time::Duration;

impl<R: RawRwLockTimed, T> RwLock<R, T> {
    /// Waits until no writer keeps readers out, and comes in to read. None once so much time, in
    /// nanoseconds of the clock, has passed.
    ///
    /// A time that ends past all that a `u64` tells is no limit.
    ///
    /// # Errors
    ///
    /// `ReadersFull`, where as many share the lock as may.
    #[inline]
    pub fn try_read_for<W: Wait, C: Clock>(
        &self,
        rt: &W,
        token: &mut R::Token,
        clock: &C,
        timeout: Duration,
    ) -> Result<Option<RwLockReadGuard<'_, R, T>>, Fault>
        requires { R.is_token_of (R.lot_of self.now) token.old }
        ensures token { R.is_token_of (R.lot_of self.now) token.new × R.keeps_rights token.old token.new }
        ensures guard { TriesOrFull result (λ guard. lock_of guard ≡ self.now) }
        ensures path { R.took_steps self.now (Enter access.Shared Timed)
            (counted_answer result) token.old token.new }
        ensures full { IfErr result (λ _. R.saw_full self.now access.Shared token.old token.new) }
        ensures left { IfOk result
            (λ entered. IfNone entered (R.gave_up self.now (Enter access.Shared Timed) token.new)) }
        ensures late { IfOk result
            (λ entered. IfNone entered (HasElapsed (C.tells clock.now) (as_nanos timeout))) }
    {
        match self.raw().try_lock_shared_for(rt, token, clock, timeout) {
            Ok(Some(raw)) => Ok(Some(self.open_shared(raw))),
            Ok(None) => Ok(None),
            Err(fault) => Err(fault),
        }
    }

    /// Reads, or gives up at a deadline, in nanoseconds of the clock. None once the clock is there.
    ///
    /// # Errors
    ///
    /// `ReadersFull`, where as many share the lock as may.
    #[inline]
    pub fn try_read_until<W: Wait, C: Clock>(
        &self,
        rt: &W,
        token: &mut R::Token,
        clock: &C,
        deadline: u64,
    ) -> Result<Option<RwLockReadGuard<'_, R, T>>, Fault>
        requires { R.is_token_of (R.lot_of self.now) token.old }
        ensures token { R.is_token_of (R.lot_of self.now) token.new × R.keeps_rights token.old token.new }
        ensures guard { TriesOrFull result (λ guard. lock_of guard ≡ self.now) }
        ensures path { R.took_steps self.now (Enter access.Shared Timed)
            (counted_answer result) token.old token.new }
        ensures full { IfErr result (λ _. R.saw_full self.now access.Shared token.old token.new) }
        ensures left { IfOk result
            (λ entered. IfNone entered (R.gave_up self.now (Enter access.Shared Timed) token.new)) }
        ensures late { IfOk result
            (λ entered. IfNone entered (HasPassed (C.tells clock.now) deadline)) }
    {
        match self.raw().try_lock_shared_until(rt, token, clock, deadline) {
            Ok(Some(raw)) => Ok(Some(self.open_shared(raw))),
            Ok(None) => Ok(None),
            Err(fault) => Err(fault),
        }
    }

    /// Waits until nobody has the lock, and takes it. None once so much time, in nanoseconds of the
    /// clock, has passed.
    ///
    /// A time that ends past all that a `u64` tells is no limit.
    #[inline]
    pub fn try_write_for<W: Wait, C: Clock>(
        &self,
        rt: &W,
        token: &mut R::Token,
        clock: &C,
        timeout: Duration,
    ) -> Option<RwLockWriteGuard<'_, R, T>>
        requires { R.is_token_of (R.lot_of self.now) token.old }
        ensures token { R.is_token_of (R.lot_of self.now) token.new × R.keeps_rights token.old token.new }
        ensures guard { IfSome result (λ guard. lock_of guard ≡ self.now) }
        ensures path { R.took_steps self.now (Enter access.Exclusive Timed)
            (answer_by result) token.old token.new }
        ensures left { IfNone result (R.gave_up self.now (Enter access.Exclusive Timed) token.new) }
        ensures late { IfNone result (HasElapsed (C.tells clock.now) (as_nanos timeout)) }
    {
        let raw = self
            .raw()
            .try_lock_exclusive_for(rt, token, clock, timeout)?;
        Some(self.open_exclusive(raw))
    }

    /// Writes, or gives up at a deadline, in nanoseconds of the clock. None once the clock is there.
    #[inline]
    pub fn try_write_until<W: Wait, C: Clock>(
        &self,
        rt: &W,
        token: &mut R::Token,
        clock: &C,
        deadline: u64,
    ) -> Option<RwLockWriteGuard<'_, R, T>>
        requires { R.is_token_of (R.lot_of self.now) token.old }
        ensures token { R.is_token_of (R.lot_of self.now) token.new × R.keeps_rights token.old token.new }
        ensures guard { IfSome result (λ guard. lock_of guard ≡ self.now) }
        ensures path { R.took_steps self.now (Enter access.Exclusive Timed)
            (answer_by result) token.old token.new }
        ensures left { IfNone result (R.gave_up self.now (Enter access.Exclusive Timed) token.new) }
        ensures late { IfNone result (HasPassed (C.tells clock.now) deadline) }
    {
        let raw = self
            .raw()
            .try_lock_exclusive_until(rt, token, clock, deadline)?;
        Some(self.open_exclusive(raw))
    }
}

impl<R: RawRwLockUpgradeTimed, T> RwLock<R, T> {
    /// Waits until nobody has the lock alone or with the upgradable right, and comes in to read
    /// with that right. None once so much time, in nanoseconds of the clock, has passed.
    ///
    /// A time that ends past all that a `u64` tells is no limit.
    ///
    /// # Errors
    ///
    /// `ReadersFull`, where as many share the lock as may.
    #[inline]
    pub fn try_upgradable_read_for<W: Wait, C: Clock>(
        &self,
        rt: &W,
        token: &mut R::Token,
        clock: &C,
        timeout: Duration,
    ) -> Result<Option<RwLockUpgradableReadGuard<'_, R, T>>, Fault>
        requires { R.is_token_of (R.lot_of self.now) token.old }
        ensures token { R.is_token_of (R.lot_of self.now) token.new × R.keeps_rights token.old token.new }
        ensures guard { TriesOrFull result (λ guard. lock_of guard ≡ self.now) }
        ensures path { R.took_steps self.now (Enter access.Upgradable Timed)
            (counted_answer result) token.old token.new }
        ensures full { IfErr result
            (λ _. R.saw_full self.now access.Upgradable token.old token.new) }
        ensures left { IfOk result
            (λ entered. IfNone entered
            (R.gave_up self.now (Enter access.Upgradable Timed) token.new)) }
        ensures late { IfOk result
            (λ entered. IfNone entered (HasElapsed (C.tells clock.now) (as_nanos timeout))) }
    {
        match self
            .raw()
            .try_lock_upgradable_for(rt, token, clock, timeout)
        {
            Ok(Some(raw)) => Ok(Some(self.open_upgradable(raw))),
            Ok(None) => Ok(None),
            Err(fault) => Err(fault),
        }
    }

    /// Reads upgradably, or gives up at a deadline, in nanoseconds of the clock. None once the
    /// clock has come to it.
    ///
    /// # Errors
    ///
    /// `ReadersFull`, where as many share the lock as may.
    #[inline]
    pub fn try_upgradable_read_until<W: Wait, C: Clock>(
        &self,
        rt: &W,
        token: &mut R::Token,
        clock: &C,
        deadline: u64,
    ) -> Result<Option<RwLockUpgradableReadGuard<'_, R, T>>, Fault>
        requires { R.is_token_of (R.lot_of self.now) token.old }
        ensures token { R.is_token_of (R.lot_of self.now) token.new × R.keeps_rights token.old token.new }
        ensures guard { TriesOrFull result (λ guard. lock_of guard ≡ self.now) }
        ensures path { R.took_steps self.now (Enter access.Upgradable Timed)
            (counted_answer result) token.old token.new }
        ensures full { IfErr result
            (λ _. R.saw_full self.now access.Upgradable token.old token.new) }
        ensures left { IfOk result
            (λ entered. IfNone entered
            (R.gave_up self.now (Enter access.Upgradable Timed) token.new)) }
        ensures late { IfOk result
            (λ entered. IfNone entered (HasPassed (C.tells clock.now) deadline)) }
    {
        match self
            .raw()
            .try_lock_upgradable_until(rt, token, clock, deadline)
        {
            Ok(Some(raw)) => Ok(Some(self.open_upgradable(raw))),
            Ok(None) => Ok(None),
            Err(fault) => Err(fault),
        }
    }
}
