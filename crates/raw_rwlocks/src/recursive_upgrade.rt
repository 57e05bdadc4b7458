//! Upgrades of the reader-writer lock whose readers may read again while a writer waits for them.
ghost use Rattle.core_words.specs.Rights.{piece_of};
ghost use Rattle.core_words.specs.declared.owners.Owner.TheVariants.{Exclusive, Upgradable};
ghost use Rattle.raw_rwlocks.specs.RwLockGuards.{IsUpgradableOf, IsUpgradableOf-prop};

use crate::raw_rwlock::RawRwLock;
use crate::rwlock_guards::{RawExclusiveGuard, RawSharedGuard, RawUpgradableGuard};
use lock_values::{Place, Seen, calls};
use parking_lot_core::{Fault, Token, Want};
use run_base::driver::FOR_EVER;
use run_locks::rwlock_calls::SlowPart;
use spec_locks::{Access, Downgrade, Patience};
use std::sync::Wait;

impl lock_raw::RawRwLockUpgrade for RawRwLock<true> {
    ghost use Rattle.raw_rwlocks.specs.RwLockUsers.{lot_of as lot_at, word_of as word_at};

    type UpgradableGuard = RawUpgradableGuard;

    ghost is_upgradable_of = { λ lock guard. IsUpgradableOf (lot_at lock) (word_at lock) guard };

    ghost upgradable_once = { λ lock guard. IsUpgradableOf-prop (lot_at lock)
        (word_at lock) guard };

    ghost upgradable_view = { λ lock. piece_of (word_at lock) Upgradable };

    #[inline(always)]
    fn lock_upgradable<R: Wait>(
        &self,
        rt: &R,
        token: &mut Token,
    ) -> Result<RawUpgradableGuard, Fault> {
        match self.lock_upgradable_fast(token) {
            Ok(Ok(guard)) => Ok(guard),
            Ok(Err(fault)) => Err(fault),
            Err(rest) => self.lock_upgradable_slow(rt, token, rest),
        }
    }

    #[inline]
    fn try_lock_upgradable<R: Wait>(
        &self,
        rt: &R,
        token: &mut Token,
    ) -> Result<Option<RawUpgradableGuard>, Fault> {
        match self
            .lock
            .enter(rt, token, FOR_EVER, Access::Upgradable, Patience::Try)
        {
            Ok(Some(right)) => Ok(Some(RawUpgradableGuard { right })),
            Ok(None) => Ok(None),
            Err(fault) => Err(fault),
        }
    }

    #[inline(always)]
    fn unlock_upgradable<R: Wait>(&self, rt: &R, token: &mut Token, guard: RawUpgradableGuard) {
        if let Some(rest) = self.unlock_upgradable_fast(token, guard) {
            self.lock.release_slow(rt, token, Access::Upgradable, rest);
        }
    }

    #[inline(always)]
    fn lock_upgradable_fast(
        &self,
        token: &mut Token,
    ) -> Result<Result<RawUpgradableGuard, Fault>, SlowPart> {
        match self
            .lock
            .enter_fast(token, FOR_EVER, Access::Upgradable, Patience::Patient)
        {
            Ok(Ok(Some(right))) => Ok(Ok(RawUpgradableGuard { right })),
            Ok(Ok(None)) => unreachable!(),
            Ok(Err(fault)) => Ok(Err(fault)),
            Err(rest) => Err(rest),
        }
    }

    #[inline(always)]
    fn lock_upgradable_slow<R: Wait>(
        &self,
        rt: &R,
        token: &mut Token,
        rest: SlowPart,
    ) -> Result<RawUpgradableGuard, Fault> {
        let (access, patience) = (Access::Upgradable, Patience::Patient);
        match self
            .lock
            .enter_slow(rt, token, FOR_EVER, access, patience, rest)
        {
            Ok(Some(right)) => Ok(RawUpgradableGuard { right }),
            Ok(None) => unreachable!(),
            Err(fault) => Err(fault),
        }
    }

    #[inline(always)]
    fn unlock_upgradable_fast(
        &self,
        token: &mut Token,
        guard: RawUpgradableGuard,
    ) -> Option<SlowPart> {
        let RawUpgradableGuard { right } = guard;
        self.lock.release_fast(token, Access::Upgradable, right)
    }

    #[inline(always)]
    fn upgrade<R: Wait>(
        &self,
        rt: &R,
        token: &mut Token,
        guard: RawUpgradableGuard,
    ) -> RawExclusiveGuard {
        let RawUpgradableGuard { right } = guard;
        match self
            .lock
            .upgrade(rt, token, FOR_EVER, Patience::Patient, right)
        {
            Ok(right) => RawExclusiveGuard { right },
            Err(_) => unreachable!(),
        }
    }

    #[inline]
    fn try_upgrade<R: Wait>(
        &self,
        rt: &R,
        token: &mut Token,
        guard: RawUpgradableGuard,
    ) -> Result<RawExclusiveGuard, RawUpgradableGuard> {
        let RawUpgradableGuard { right } = guard;
        match self.lock.upgrade(rt, token, FOR_EVER, Patience::Try, right) {
            Ok(right) => Ok(RawExclusiveGuard { right }),
            Err(right) => Err(RawUpgradableGuard { right }),
        }
    }

    #[inline]
    fn open_upgradable<'a, T>(
        &self,
        place: &'a Place<T>,
        guard: RawUpgradableGuard,
    ) -> Seen<'a, T> {
        let RawUpgradableGuard { right } = guard;
        calls::open_upgradable(self.lock.words(), place, self.lock.word(), right)
    }

    #[inline]
    fn shut_upgradable<T>(&self, seen: Seen<'_, T>) -> RawUpgradableGuard {
        let right = calls::shut_upgradable(self.lock.words(), self.lock.word(), seen);
        RawUpgradableGuard { right }
    }

    fn has_two_upgradables(
        &self,
        token: &mut Token,
        one: RawUpgradableGuard,
        other: RawUpgradableGuard,
    ) -> ! {
        let RawUpgradableGuard { right: one } = one;
        let RawUpgradableGuard { right: other } = other;
        self.lock
            .has_both(token, Want::Upgradable, one, Want::Upgradable, other)
    }

    fn has_writer_and_upgradable(
        &self,
        token: &mut Token,
        writer: RawExclusiveGuard,
        reader: RawUpgradableGuard,
    ) -> ! {
        let RawExclusiveGuard { right: one } = writer;
        let RawUpgradableGuard { right: other } = reader;
        self.lock
            .has_both(token, Want::Exclusive, one, Want::Upgradable, other)
    }
}

impl lock_raw::RawRwLockUpgradeDowngrade for RawRwLock<true> {
    #[inline]
    fn downgrade_upgradable<R: Wait>(
        &self,
        rt: &R,
        token: &mut Token,
        guard: RawUpgradableGuard,
    ) -> RawSharedGuard {
        let RawUpgradableGuard { right } = guard;
        let downgrade = Downgrade::UpgradableToShared;
        RawSharedGuard {
            right: self.lock.downgrade(rt, token, downgrade, right),
        }
    }

    #[inline]
    fn downgrade_to_upgradable<R: Wait>(
        &self,
        rt: &R,
        token: &mut Token,
        guard: RawExclusiveGuard,
    ) -> RawUpgradableGuard {
        let RawExclusiveGuard { right } = guard;
        let downgrade = Downgrade::ToUpgradable;
        RawUpgradableGuard {
            right: self.lock.downgrade(rt, token, downgrade, right),
        }
    }
}
