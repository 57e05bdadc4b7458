//! Waits that end, of the reader-writer lock whose readers may read again while a writer waits for them.
use crate::raw_rwlock::RawRwLock;
use crate::rwlock_guards::{RawExclusiveGuard, RawSharedGuard, RawUpgradableGuard};
use parking_lot_core::{Clock, Fault, Token};
use run_base::limits::limit_in;
use std::sync::Wait;
use std::time::Duration;

impl lock_raw::RawRwLockTimed for RawRwLock<true> {
    fn try_lock_shared_for<R: Wait, C: Clock>(
        &self,
        rt: &R,
        token: &mut Token,
        clock: &C,
        timeout: Duration,
    ) -> Result<Option<RawSharedGuard>, Fault> {
        self.read_in_time(rt, token, limit_in(clock, timeout))
    }

    #[inline]
    fn try_lock_shared_until<R: Wait, C: Clock>(
        &self,
        rt: &R,
        token: &mut Token,
        clock: &C,
        deadline: u64,
    ) -> Result<Option<RawSharedGuard>, Fault> {
        self.read_in_time(rt, token, Some((clock, deadline)))
    }

    fn try_lock_exclusive_for<R: Wait, C: Clock>(
        &self,
        rt: &R,
        token: &mut Token,
        clock: &C,
        timeout: Duration,
    ) -> Option<RawExclusiveGuard> {
        self.write_in_time(rt, token, limit_in(clock, timeout))
    }

    #[inline]
    fn try_lock_exclusive_until<R: Wait, C: Clock>(
        &self,
        rt: &R,
        token: &mut Token,
        clock: &C,
        deadline: u64,
    ) -> Option<RawExclusiveGuard> {
        self.write_in_time(rt, token, Some((clock, deadline)))
    }
}

impl lock_raw::RawRwLockUpgradeTimed for RawRwLock<true> {
    fn try_lock_upgradable_for<R: Wait, C: Clock>(
        &self,
        rt: &R,
        token: &mut Token,
        clock: &C,
        timeout: Duration,
    ) -> Result<Option<RawUpgradableGuard>, Fault> {
        self.come_upgradable_in_time(rt, token, limit_in(clock, timeout))
    }

    #[inline]
    fn try_lock_upgradable_until<R: Wait, C: Clock>(
        &self,
        rt: &R,
        token: &mut Token,
        clock: &C,
        deadline: u64,
    ) -> Result<Option<RawUpgradableGuard>, Fault> {
        self.come_upgradable_in_time(rt, token, Some((clock, deadline)))
    }

    fn try_upgrade_for<R: Wait, C: Clock>(
        &self,
        rt: &R,
        token: &mut Token,
        guard: RawUpgradableGuard,
        clock: &C,
        timeout: Duration,
    ) -> Result<RawExclusiveGuard, RawUpgradableGuard> {
        self.upgrade_in_time(rt, token, limit_in(clock, timeout), guard)
    }

    #[inline]
    fn try_upgrade_until<R: Wait, C: Clock>(
        &self,
        rt: &R,
        token: &mut Token,
        guard: RawUpgradableGuard,
        clock: &C,
        deadline: u64,
    ) -> Result<RawExclusiveGuard, RawUpgradableGuard> {
        self.upgrade_in_time(rt, token, Some((clock, deadline)), guard)
    }
}
