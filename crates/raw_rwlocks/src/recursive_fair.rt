//! Fair releases of the reader-writer lock whose readers may read again while a writer waits for them.
use crate::raw_rwlock::RawRwLock;
use crate::rwlock_guards::{RawExclusiveGuard, RawSharedGuard, RawUpgradableGuard};
use parking_lot_core::{Fault, Token};
use spec_locks::Access;
use std::sync::Wait;

impl lock_raw::RawRwLockFair for RawRwLock<true> {
    #[inline]
    fn unlock_shared_fair<R: Wait>(&self, rt: &R, token: &mut Token, guard: RawSharedGuard) {
        let RawSharedGuard { right } = guard;
        self.lock.release(rt, token, Access::Shared, right);
    }

    #[inline]
    fn unlock_exclusive_fair<R: Wait>(&self, rt: &R, token: &mut Token, guard: RawExclusiveGuard) {
        let RawExclusiveGuard { right } = guard;
        self.lock.release_exclusive_fair(rt, token, right);
    }

    #[inline]
    fn bump_shared<R: Wait>(
        &self,
        rt: &R,
        token: &mut Token,
        guard: RawSharedGuard,
    ) -> Result<RawSharedGuard, Fault> {
        let RawSharedGuard { right } = guard;
        match self.lock.bump(rt, token, Access::Shared, right) {
            Ok(right) => Ok(RawSharedGuard { right }),
            Err(fault) => Err(fault),
        }
    }

    #[inline]
    fn bump_exclusive<R: Wait>(
        &self,
        rt: &R,
        token: &mut Token,
        guard: RawExclusiveGuard,
    ) -> RawExclusiveGuard {
        let RawExclusiveGuard { right } = guard;
        match self.lock.bump(rt, token, Access::Exclusive, right) {
            Ok(right) => RawExclusiveGuard { right },
            Err(_) => unreachable!(),
        }
    }
}

impl lock_raw::RawRwLockUpgradeFair for RawRwLock<true> {
    fn unlock_upgradable_fair<R: Wait>(
        &self,
        rt: &R,
        token: &mut Token,
        guard: RawUpgradableGuard,
    ) {
        let RawUpgradableGuard { right } = guard;
        self.lock.release_upgradable_fair(rt, token, right);
    }

    #[inline]
    fn bump_upgradable<R: Wait>(
        &self,
        rt: &R,
        token: &mut Token,
        guard: RawUpgradableGuard,
    ) -> Result<RawUpgradableGuard, Fault> {
        let RawUpgradableGuard { right } = guard;
        match self.lock.bump(rt, token, Access::Upgradable, right) {
            Ok(right) => Ok(RawUpgradableGuard { right }),
            Err(fault) => Err(fault),
        }
    }
}
