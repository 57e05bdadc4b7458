//! A raw reader-writer lock of either sort, so that a test is written once for both.
ghost use Rattle.std.specs.Prelude.{◌≡◌, ◌≤◌, ◌+◌, ◌*◌, IfOk, IfSome, MatchResult};
ghost use Rattle.std.specs.Arc.{arc_value};
ghost use Rattle.parking_lot_core.specs.Tokens.{IsTokenOf};
ghost use Rattle.parking_lot.specs.LotOf.{IsExclusiveOf, IsSharedOf, IsUpgradableOf};
ghost use Rattle.test_any_rwlock.specs.AnyLocks.{limit_of, lot_of, word_of};

use parking_lot::lock_api_rw::{
    RawRwLock as RawLock, RawRwLockDowngrade, RawRwLockFair, RawRwLockHalves, RawRwLockTimed,
    RawRwLockUpgrade, RawRwLockUpgradeDowngrade, RawRwLockUpgradeFair, RawRwLockUpgradeTimed,
};
use parking_lot::{
    Clock, Fault, Key, ParkingLot, RawExclusiveGuard, RawRwLock, RawSharedGuard,
    RawUpgradableGuard, Token,
};
use std::sync::{Arc, Wait};
use std::time::Duration;

/// Whether readers may read again while a writer waits for them.
#[derive(Clone, Copy)]
pub enum Sort {
    /// A writer that waits keeps further readers out.
    Normal,
    /// A thread that reads may read again.
    Recursive,
}

/// A lock of either sort.
#[derive(Drop)]
pub enum AnyRwLock {
    Normal(RawRwLock<false>),
    Recursive(RawRwLock<true>),
}

impl AnyRwLock {
    /// Makes a lock of this sort, which so many may share.
    ///
    /// # Errors
    ///
    /// Where the lot has no word left, or memory was refused.
    pub fn with_limit(
        sort: Sort,
        lot: &Arc<ParkingLot>,
        token: &mut Token,
        limit: u64,
    ) -> Result<AnyRwLock, Fault>
        requires token { IsTokenOf (arc_value lot.now) token.old }
        requires limit { ((arc_value lot.now).records.count ≤ limit) × (limit ≤ 1024) }
        ensures lot { IfOk result (λ lock. lot_of lock ≡ arc_value lot.now) }
        ensures limit { IfOk result (λ lock. limit_of lock ≡ limit) }
    {
        Ok(match sort {
            Sort::Normal => AnyRwLock::Normal(RawRwLock::<false>::with_limit(lot, token, limit)?),
            Sort::Recursive => AnyRwLock::Recursive(RawRwLock::<true>::with_limit(
                lot, token, limit,
            )?),
        })
    }

    /// The key of its main queue.
    pub fn key(&self) -> Key {
        match self {
            AnyRwLock::Normal(lock) => lock.key(),
            AnyRwLock::Recursive(lock) => lock.key(),
        }
    }

    /// The key of the queue of the writer that waits for the last readers.
    pub fn second_key(&self) -> Key {
        match self {
            AnyRwLock::Normal(lock) => lock.second_key(),
            AnyRwLock::Recursive(lock) => lock.second_key(),
        }
    }

    /// Never runs: no two threads write and read at once.
    pub fn has_writer_and_reader(
        &self,
        token: &mut Token,
        writer: RawExclusiveGuard,
        reader: RawSharedGuard,
    ) -> !
        requires token { IsTokenOf (lot_of self.now) token.old }
        requires writer { IsExclusiveOf (lot_of self.now) (word_of self.now) writer }
        requires reader { IsSharedOf (lot_of self.now) (word_of self.now) reader }
    {
        match self {
            AnyRwLock::Normal(lock) => lock.has_writer_and_reader(token, writer, reader),
            AnyRwLock::Recursive(lock) => lock.has_writer_and_reader(token, writer, reader),
        }
    }

    /// Waits, and reads.
    pub fn lock_shared<R: Wait>(&self, rt: &R, token: &mut Token) -> Result<RawSharedGuard, Fault>
        requires { IsTokenOf (lot_of self.now) token.old }
        ensures token { IsTokenOf (lot_of self.now) token.new }
        ensures guard { IfOk result (IsSharedOf (lot_of self.now) (word_of self.now)) }
    {
        match self {
            AnyRwLock::Normal(lock) => lock.lock_shared(rt, token),
            AnyRwLock::Recursive(lock) => lock.lock_shared(rt, token),
        }
    }

    /// Reads, where it may at once.
    pub fn try_lock_shared<R: Wait>(
        &self,
        rt: &R,
        token: &mut Token,
    ) -> Result<Option<RawSharedGuard>, Fault>
        requires { IsTokenOf (lot_of self.now) token.old }
        ensures token { IsTokenOf (lot_of self.now) token.new }
        ensures guard { IfOk result (λ came. IfSome came (IsSharedOf (lot_of self.now) (word_of self.now))) }
    {
        match self {
            AnyRwLock::Normal(lock) => lock.try_lock_shared(rt, token),
            AnyRwLock::Recursive(lock) => lock.try_lock_shared(rt, token),
        }
    }

    /// Ends a read.
    pub fn unlock_shared<R: Wait>(&self, rt: &R, token: &mut Token, guard: RawSharedGuard)
        requires token { IsTokenOf (lot_of self.now) token.old }
        requires guard { IsSharedOf (lot_of self.now) (word_of self.now) guard }
        ensures { IsTokenOf (lot_of self.now) token.new }
    {
        match self {
            AnyRwLock::Normal(lock) => lock.unlock_shared(rt, token, guard),
            AnyRwLock::Recursive(lock) => lock.unlock_shared(rt, token, guard),
        }
    }

    /// Waits, and writes.
    pub fn lock_exclusive<R: Wait>(&self, rt: &R, token: &mut Token) -> RawExclusiveGuard
        requires { IsTokenOf (lot_of self.now) token.old }
        ensures token { IsTokenOf (lot_of self.now) token.new }
        ensures guard { IsExclusiveOf (lot_of self.now) (word_of self.now) result }
    {
        match self {
            AnyRwLock::Normal(lock) => lock.lock_exclusive(rt, token),
            AnyRwLock::Recursive(lock) => lock.lock_exclusive(rt, token),
        }
    }

    /// Writes, where it may at once.
    pub fn try_lock_exclusive(&self, token: &mut Token) -> Option<RawExclusiveGuard>
        requires { IsTokenOf (lot_of self.now) token.old }
        ensures token { IsTokenOf (lot_of self.now) token.new }
        ensures guard { IfSome result (IsExclusiveOf (lot_of self.now) (word_of self.now)) }
    {
        match self {
            AnyRwLock::Normal(lock) => lock.try_lock_exclusive(token),
            AnyRwLock::Recursive(lock) => lock.try_lock_exclusive(token),
        }
    }

    /// Ends a write.
    pub fn unlock_exclusive<R: Wait>(&self, rt: &R, token: &mut Token, guard: RawExclusiveGuard)
        requires token { IsTokenOf (lot_of self.now) token.old }
        requires guard { IsExclusiveOf (lot_of self.now) (word_of self.now) guard }
        ensures { IsTokenOf (lot_of self.now) token.new }
    {
        match self {
            AnyRwLock::Normal(lock) => lock.unlock_exclusive(rt, token, guard),
            AnyRwLock::Recursive(lock) => lock.unlock_exclusive(rt, token, guard),
        }
    }

    /// Returns whether anybody has the lock.
    pub fn is_locked(&self, token: &mut Token) -> bool
        requires { IsTokenOf (lot_of self.now) token.old }
        ensures { IsTokenOf (lot_of self.now) token.new }
    {
        match self {
            AnyRwLock::Normal(lock) => lock.is_locked(token),
            AnyRwLock::Recursive(lock) => lock.is_locked(token),
        }
    }

    /// Returns whether somebody writes.
    pub fn is_locked_exclusive(&self, token: &mut Token) -> bool
        requires { IsTokenOf (lot_of self.now) token.old }
        ensures { IsTokenOf (lot_of self.now) token.new }
    {
        match self {
            AnyRwLock::Normal(lock) => lock.is_locked_exclusive(token),
            AnyRwLock::Recursive(lock) => lock.is_locked_exclusive(token),
        }
    }

    /// Waits, and reads with the upgradable right.
    pub fn lock_upgradable<R: Wait>(
        &self,
        rt: &R,
        token: &mut Token,
    ) -> Result<RawUpgradableGuard, Fault>
        requires { IsTokenOf (lot_of self.now) token.old }
        ensures token { IsTokenOf (lot_of self.now) token.new }
        ensures guard { IfOk result (IsUpgradableOf (lot_of self.now) (word_of self.now)) }
    {
        match self {
            AnyRwLock::Normal(lock) => lock.lock_upgradable(rt, token),
            AnyRwLock::Recursive(lock) => lock.lock_upgradable(rt, token),
        }
    }

    /// Reads with the upgradable right, where it may at once.
    pub fn try_lock_upgradable<R: Wait>(
        &self,
        rt: &R,
        token: &mut Token,
    ) -> Result<Option<RawUpgradableGuard>, Fault>
        requires { IsTokenOf (lot_of self.now) token.old }
        ensures token { IsTokenOf (lot_of self.now) token.new }
        ensures guard { IfOk result (λ came. IfSome came (IsUpgradableOf (lot_of self.now) (word_of self.now))) }
    {
        match self {
            AnyRwLock::Normal(lock) => lock.try_lock_upgradable(rt, token),
            AnyRwLock::Recursive(lock) => lock.try_lock_upgradable(rt, token),
        }
    }

    /// Gives the upgradable right up.
    pub fn unlock_upgradable<R: Wait>(&self, rt: &R, token: &mut Token, guard: RawUpgradableGuard)
        requires token { IsTokenOf (lot_of self.now) token.old }
        requires guard { IsUpgradableOf (lot_of self.now) (word_of self.now) guard }
        ensures { IsTokenOf (lot_of self.now) token.new }
    {
        match self {
            AnyRwLock::Normal(lock) => lock.unlock_upgradable(rt, token, guard),
            AnyRwLock::Recursive(lock) => lock.unlock_upgradable(rt, token, guard),
        }
    }

    /// Ends a read, fairly.
    pub fn unlock_shared_fair<R: Wait>(&self, rt: &R, token: &mut Token, guard: RawSharedGuard)
        requires token { IsTokenOf (lot_of self.now) token.old }
        requires guard { IsSharedOf (lot_of self.now) (word_of self.now) guard }
        ensures { IsTokenOf (lot_of self.now) token.new }
    {
        match self {
            AnyRwLock::Normal(lock) => lock.unlock_shared_fair(rt, token, guard),
            AnyRwLock::Recursive(lock) => lock.unlock_shared_fair(rt, token, guard),
        }
    }

    /// Ends a write, and hands the lock over.
    pub fn unlock_exclusive_fair<R: Wait>(
        &self,
        rt: &R,
        token: &mut Token,
        guard: RawExclusiveGuard,
    )
        requires token { IsTokenOf (lot_of self.now) token.old }
        requires guard { IsExclusiveOf (lot_of self.now) (word_of self.now) guard }
        ensures { IsTokenOf (lot_of self.now) token.new }
    {
        match self {
            AnyRwLock::Normal(lock) => lock.unlock_exclusive_fair(rt, token, guard),
            AnyRwLock::Recursive(lock) => lock.unlock_exclusive_fair(rt, token, guard),
        }
    }

    /// Gives the upgradable right up, fairly.
    pub fn unlock_upgradable_fair<R: Wait>(
        &self,
        rt: &R,
        token: &mut Token,
        guard: RawUpgradableGuard,
    )
        requires token { IsTokenOf (lot_of self.now) token.old }
        requires guard { IsUpgradableOf (lot_of self.now) (word_of self.now) guard }
        ensures { IsTokenOf (lot_of self.now) token.new }
    {
        match self {
            AnyRwLock::Normal(lock) => lock.unlock_upgradable_fair(rt, token, guard),
            AnyRwLock::Recursive(lock) => lock.unlock_upgradable_fair(rt, token, guard),
        }
    }

    /// Lets others in, and reads again.
    pub fn bump_shared<R: Wait>(
        &self,
        rt: &R,
        token: &mut Token,
        guard: RawSharedGuard,
    ) -> Result<RawSharedGuard, Fault>
        requires token { IsTokenOf (lot_of self.now) token.old }
        requires guard { IsSharedOf (lot_of self.now) (word_of self.now) guard }
        ensures token { IsTokenOf (lot_of self.now) token.new }
        ensures guard { IfOk result (IsSharedOf (lot_of self.now) (word_of self.now)) }
    {
        match self {
            AnyRwLock::Normal(lock) => lock.bump_shared(rt, token, guard),
            AnyRwLock::Recursive(lock) => lock.bump_shared(rt, token, guard),
        }
    }

    /// Lets others in, and writes again.
    pub fn bump_exclusive<R: Wait>(
        &self,
        rt: &R,
        token: &mut Token,
        guard: RawExclusiveGuard,
    ) -> RawExclusiveGuard
        requires token { IsTokenOf (lot_of self.now) token.old }
        requires guard { IsExclusiveOf (lot_of self.now) (word_of self.now) guard }
        ensures token { IsTokenOf (lot_of self.now) token.new }
        ensures guard { IsExclusiveOf (lot_of self.now) (word_of self.now) result }
    {
        match self {
            AnyRwLock::Normal(lock) => lock.bump_exclusive(rt, token, guard),
            AnyRwLock::Recursive(lock) => lock.bump_exclusive(rt, token, guard),
        }
    }

    /// Lets others in, and has the upgradable right again.
    pub fn bump_upgradable<R: Wait>(
        &self,
        rt: &R,
        token: &mut Token,
        guard: RawUpgradableGuard,
    ) -> Result<RawUpgradableGuard, Fault>
        requires token { IsTokenOf (lot_of self.now) token.old }
        requires guard { IsUpgradableOf (lot_of self.now) (word_of self.now) guard }
        ensures token { IsTokenOf (lot_of self.now) token.new }
        ensures guard { IfOk result (IsUpgradableOf (lot_of self.now) (word_of self.now)) }
    {
        match self {
            AnyRwLock::Normal(lock) => lock.bump_upgradable(rt, token, guard),
            AnyRwLock::Recursive(lock) => lock.bump_upgradable(rt, token, guard),
        }
    }

    /// Reads, after a write.
    pub fn downgrade<R: Wait>(
        &self,
        rt: &R,
        token: &mut Token,
        guard: RawExclusiveGuard,
    ) -> RawSharedGuard
        requires token { IsTokenOf (lot_of self.now) token.old }
        requires guard { IsExclusiveOf (lot_of self.now) (word_of self.now) guard }
        ensures token { IsTokenOf (lot_of self.now) token.new }
        ensures guard { IsSharedOf (lot_of self.now) (word_of self.now) result }
    {
        match self {
            AnyRwLock::Normal(lock) => lock.downgrade(rt, token, guard),
            AnyRwLock::Recursive(lock) => lock.downgrade(rt, token, guard),
        }
    }

    /// Reads with the upgradable right, after a write.
    pub fn downgrade_to_upgradable<R: Wait>(
        &self,
        rt: &R,
        token: &mut Token,
        guard: RawExclusiveGuard,
    ) -> RawUpgradableGuard
        requires token { IsTokenOf (lot_of self.now) token.old }
        requires guard { IsExclusiveOf (lot_of self.now) (word_of self.now) guard }
        ensures token { IsTokenOf (lot_of self.now) token.new }
        ensures guard { IsUpgradableOf (lot_of self.now) (word_of self.now) result }
    {
        match self {
            AnyRwLock::Normal(lock) => lock.downgrade_to_upgradable(rt, token, guard),
            AnyRwLock::Recursive(lock) => lock.downgrade_to_upgradable(rt, token, guard),
        }
    }

    /// Reads without the upgradable right.
    pub fn downgrade_upgradable<R: Wait>(
        &self,
        rt: &R,
        token: &mut Token,
        guard: RawUpgradableGuard,
    ) -> RawSharedGuard
        requires token { IsTokenOf (lot_of self.now) token.old }
        requires guard { IsUpgradableOf (lot_of self.now) (word_of self.now) guard }
        ensures token { IsTokenOf (lot_of self.now) token.new }
        ensures guard { IsSharedOf (lot_of self.now) (word_of self.now) result }
    {
        match self {
            AnyRwLock::Normal(lock) => lock.downgrade_upgradable(rt, token, guard),
            AnyRwLock::Recursive(lock) => lock.downgrade_upgradable(rt, token, guard),
        }
    }

    /// Writes, once the other readers have left.
    pub fn upgrade<R: Wait>(
        &self,
        rt: &R,
        token: &mut Token,
        guard: RawUpgradableGuard,
    ) -> RawExclusiveGuard
        requires token { IsTokenOf (lot_of self.now) token.old }
        requires guard { IsUpgradableOf (lot_of self.now) (word_of self.now) guard }
        ensures token { IsTokenOf (lot_of self.now) token.new }
        ensures guard { IsExclusiveOf (lot_of self.now) (word_of self.now) result }
    {
        match self {
            AnyRwLock::Normal(lock) => lock.upgrade(rt, token, guard),
            AnyRwLock::Recursive(lock) => lock.upgrade(rt, token, guard),
        }
    }

    /// Writes, where nobody else reads.
    pub fn try_upgrade<R: Wait>(
        &self,
        rt: &R,
        token: &mut Token,
        guard: RawUpgradableGuard,
    ) -> Result<RawExclusiveGuard, RawUpgradableGuard>
        requires token { IsTokenOf (lot_of self.now) token.old }
        requires guard { IsUpgradableOf (lot_of self.now) (word_of self.now) guard }
        ensures token { IsTokenOf (lot_of self.now) token.new }
        ensures guard { MatchResult result (IsExclusiveOf (lot_of self.now) (word_of self.now)) (IsUpgradableOf (lot_of self.now) (word_of self.now)) }
    {
        match self {
            AnyRwLock::Normal(lock) => lock.try_upgrade(rt, token, guard),
            AnyRwLock::Recursive(lock) => lock.try_upgrade(rt, token, guard),
        }
    }

    /// Waits for so long.
    pub fn try_lock_shared_for<R: Wait, C: Clock>(
        &self,
        rt: &R,
        token: &mut Token,
        clock: &C,
        timeout: Duration,
    ) -> Result<Option<RawSharedGuard>, Fault>
        requires { IsTokenOf (lot_of self.now) token.old }
        ensures token { IsTokenOf (lot_of self.now) token.new }
        ensures guard { IfOk result (λ came. IfSome came (IsSharedOf (lot_of self.now) (word_of self.now))) }
    {
        match self {
            AnyRwLock::Normal(lock) => lock.try_lock_shared_for(rt, token, clock, timeout),
            AnyRwLock::Recursive(lock) => lock.try_lock_shared_for(rt, token, clock, timeout),
        }
    }

    /// Waits until a deadline.
    pub fn try_lock_shared_until<R: Wait, C: Clock>(
        &self,
        rt: &R,
        token: &mut Token,
        clock: &C,
        deadline: u64,
    ) -> Result<Option<RawSharedGuard>, Fault>
        requires { IsTokenOf (lot_of self.now) token.old }
        ensures token { IsTokenOf (lot_of self.now) token.new }
        ensures guard { IfOk result (λ came. IfSome came (IsSharedOf (lot_of self.now) (word_of self.now))) }
    {
        match self {
            AnyRwLock::Normal(lock) => lock.try_lock_shared_until(rt, token, clock, deadline),
            AnyRwLock::Recursive(lock) => lock.try_lock_shared_until(rt, token, clock, deadline),
        }
    }

    /// Waits for so long.
    pub fn try_lock_exclusive_for<R: Wait, C: Clock>(
        &self,
        rt: &R,
        token: &mut Token,
        clock: &C,
        timeout: Duration,
    ) -> Option<RawExclusiveGuard>
        requires { IsTokenOf (lot_of self.now) token.old }
        ensures token { IsTokenOf (lot_of self.now) token.new }
        ensures guard { IfSome result (IsExclusiveOf (lot_of self.now) (word_of self.now)) }
    {
        match self {
            AnyRwLock::Normal(lock) => lock.try_lock_exclusive_for(rt, token, clock, timeout),
            AnyRwLock::Recursive(lock) => lock.try_lock_exclusive_for(rt, token, clock, timeout),
        }
    }

    /// Waits until a deadline.
    pub fn try_lock_exclusive_until<R: Wait, C: Clock>(
        &self,
        rt: &R,
        token: &mut Token,
        clock: &C,
        deadline: u64,
    ) -> Option<RawExclusiveGuard>
        requires { IsTokenOf (lot_of self.now) token.old }
        ensures token { IsTokenOf (lot_of self.now) token.new }
        ensures guard { IfSome result (IsExclusiveOf (lot_of self.now) (word_of self.now)) }
    {
        match self {
            AnyRwLock::Normal(lock) => lock.try_lock_exclusive_until(rt, token, clock, deadline),
            AnyRwLock::Recursive(lock) => lock.try_lock_exclusive_until(rt, token, clock, deadline),
        }
    }

    /// Waits for so long.
    pub fn try_lock_upgradable_for<R: Wait, C: Clock>(
        &self,
        rt: &R,
        token: &mut Token,
        clock: &C,
        timeout: Duration,
    ) -> Result<Option<RawUpgradableGuard>, Fault>
        requires { IsTokenOf (lot_of self.now) token.old }
        ensures token { IsTokenOf (lot_of self.now) token.new }
        ensures guard { IfOk result (λ came. IfSome came (IsUpgradableOf (lot_of self.now) (word_of self.now))) }
    {
        match self {
            AnyRwLock::Normal(lock) => lock.try_lock_upgradable_for(rt, token, clock, timeout),
            AnyRwLock::Recursive(lock) => lock.try_lock_upgradable_for(rt, token, clock, timeout),
        }
    }

    /// Waits until a deadline.
    pub fn try_lock_upgradable_until<R: Wait, C: Clock>(
        &self,
        rt: &R,
        token: &mut Token,
        clock: &C,
        deadline: u64,
    ) -> Result<Option<RawUpgradableGuard>, Fault>
        requires { IsTokenOf (lot_of self.now) token.old }
        ensures token { IsTokenOf (lot_of self.now) token.new }
        ensures guard { IfOk result (λ came. IfSome came (IsUpgradableOf (lot_of self.now) (word_of self.now))) }
    {
        match self {
            AnyRwLock::Normal(lock) => lock.try_lock_upgradable_until(rt, token, clock, deadline),
            AnyRwLock::Recursive(lock) => lock.try_lock_upgradable_until(
                rt, token, clock, deadline,
            ),
        }
    }

    /// Waits to write for so long.
    pub fn try_upgrade_for<R: Wait, C: Clock>(
        &self,
        rt: &R,
        token: &mut Token,
        guard: RawUpgradableGuard,
        clock: &C,
        timeout: Duration,
    ) -> Result<RawExclusiveGuard, RawUpgradableGuard>
        requires token { IsTokenOf (lot_of self.now) token.old }
        requires guard { IsUpgradableOf (lot_of self.now) (word_of self.now) guard }
        ensures token { IsTokenOf (lot_of self.now) token.new }
        ensures guard { MatchResult result (IsExclusiveOf (lot_of self.now) (word_of self.now)) (IsUpgradableOf (lot_of self.now) (word_of self.now)) }
    {
        match self {
            AnyRwLock::Normal(lock) => lock.try_upgrade_for(rt, token, guard, clock, timeout),
            AnyRwLock::Recursive(lock) => lock.try_upgrade_for(rt, token, guard, clock, timeout),
        }
    }

    /// Waits to write until a deadline.
    pub fn try_upgrade_until<R: Wait, C: Clock>(
        &self,
        rt: &R,
        token: &mut Token,
        guard: RawUpgradableGuard,
        clock: &C,
        deadline: u64,
    ) -> Result<RawExclusiveGuard, RawUpgradableGuard>
        requires token { IsTokenOf (lot_of self.now) token.old }
        requires guard { IsUpgradableOf (lot_of self.now) (word_of self.now) guard }
        ensures token { IsTokenOf (lot_of self.now) token.new }
        ensures guard { MatchResult result (IsExclusiveOf (lot_of self.now) (word_of self.now)) (IsUpgradableOf (lot_of self.now) (word_of self.now)) }
    {
        match self {
            AnyRwLock::Normal(lock) => lock.try_upgrade_until(rt, token, guard, clock, deadline),
            AnyRwLock::Recursive(lock) => lock.try_upgrade_until(rt, token, guard, clock, deadline),
        }
    }
}
