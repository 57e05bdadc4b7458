//! Calls of a reader-writer lock that give up in time.
use crate::raw_rwlock::RawRwLock;
use crate::rwlock_guards::{RawExclusiveGuard, RawSharedGuard, RawUpgradableGuard};
use parking_lot_core::{Clock, Fault, Token};
use spec_locks::{Access, Patience};
use std::sync::Wait;

impl<const RECURSIVE: bool> RawRwLock<RECURSIVE> {
    ghost use Rattle.std.specs.Prelude.{◌≡◌, IfErr, IfNone, IfOk, IfSome, MatchResult};
    ghost use Rattle.lock_raw.specs.Answers.{answer_by, counted_answer, upgrade_answer};
    ghost use Rattle.core_clocks.specs.Clocks.{TimeIsUp};
    ghost use Rattle.spec_locks.specs.declared.calls.Access.TheVariants as access;
    ghost use Rattle.spec_locks.specs.declared.calls.Patience.TheVariants.{Timed};
    ghost use Rattle.steps_rwlock.specs.declared.purposes.RwLockPurpose.TheVariants.{Enter, Upgrade};
    ghost use Rattle.parking_lot_core.specs.Tokens.{IsTokenOf};
    ghost use Rattle.run_base.specs.RwLockCalls.{HasWalkedRwLock, StaysSettled};
    ghost use Rattle.run_locks.specs.RwLockRefusals.{LeftGivingUp, SawReadersFull};
    ghost use Rattle.raw_rwlocks.specs.RwLockGuards.{IsExclusiveOf, IsSharedOf, IsUpgradableOf};
    ghost use Rattle.raw_rwlocks.specs.RwLockUsers.{admission_of, lot_of, word_of};

    #[inline]
    pub(crate) fn read_in_time<R: Wait, C: Clock>(
        &self,
        rt: &R,
        token: &mut Token,
        limit: Option<(&C, u64)>,
    ) -> Result<Option<RawSharedGuard>, Fault>
        requires { IsTokenOf (lot_of self.now) token.old }
        ensures token { IsTokenOf (lot_of self.now) token.new × StaysSettled token.old token.new }
        ensures guard { MatchResult result
            (λ entered. IfSome entered (IsSharedOf (lot_of self.now) (word_of self.now)))
            (λ fault. fault ≡ Fault.ReadersFull) }
        ensures path { HasWalkedRwLock (word_of self.now).number (admission_of self.now)
            (Enter access.Shared Timed)
            (counted_answer result) token.old token.new }
        ensures full { IfErr result
            (λ _. SawReadersFull (word_of self.now).number
            (admission_of self.now) access.Shared token.old token.new) }
        ensures left { IfOk result (λ entered. IfNone entered
            (LeftGivingUp (word_of self.now).number (admission_of self.now)
            (Enter access.Shared Timed) token.new)) }
        ensures late { IfOk result (λ entered. IfNone entered (TimeIsUp C.tells limit.entry)) }
    {
        match self
            .lock
            .enter(rt, token, &limit, Access::Shared, Patience::Timed)
        {
            Ok(Some(right)) => Ok(Some(RawSharedGuard { right })),
            Ok(None) => Ok(None),
            Err(fault) => Err(fault),
        }
    }

    #[inline]
    pub(crate) fn come_upgradable_in_time<R: Wait, C: Clock>(
        &self,
        rt: &R,
        token: &mut Token,
        limit: Option<(&C, u64)>,
    ) -> Result<Option<RawUpgradableGuard>, Fault>
        requires { IsTokenOf (lot_of self.now) token.old }
        ensures token { IsTokenOf (lot_of self.now) token.new × StaysSettled token.old token.new }
        ensures guard { MatchResult result
            (λ entered. IfSome entered (IsUpgradableOf (lot_of self.now) (word_of self.now)))
            (λ fault. fault ≡ Fault.ReadersFull) }
        ensures path { HasWalkedRwLock (word_of self.now).number (admission_of self.now)
            (Enter access.Upgradable Timed)
            (counted_answer result) token.old token.new }
        ensures full { IfErr result
            (λ _. SawReadersFull (word_of self.now).number
            (admission_of self.now) access.Upgradable token.old token.new) }
        ensures left { IfOk result (λ entered. IfNone entered
            (LeftGivingUp (word_of self.now).number (admission_of self.now)
            (Enter access.Upgradable Timed) token.new)) }
        ensures late { IfOk result (λ entered. IfNone entered (TimeIsUp C.tells limit.entry)) }
    {
        match self
            .lock
            .enter(rt, token, &limit, Access::Upgradable, Patience::Timed)
        {
            Ok(Some(right)) => Ok(Some(RawUpgradableGuard { right })),
            Ok(None) => Ok(None),
            Err(fault) => Err(fault),
        }
    }

    #[inline]
    pub(crate) fn write_in_time<R: Wait, C: Clock>(
        &self,
        rt: &R,
        token: &mut Token,
        limit: Option<(&C, u64)>,
    ) -> Option<RawExclusiveGuard>
        requires { IsTokenOf (lot_of self.now) token.old }
        ensures token { IsTokenOf (lot_of self.now) token.new × StaysSettled token.old token.new }
        ensures guard { IfSome result (IsExclusiveOf (lot_of self.now) (word_of self.now)) }
        ensures path { HasWalkedRwLock (word_of self.now).number (admission_of self.now)
            (Enter access.Exclusive Timed)
            (answer_by result) token.old token.new }
        ensures left { IfNone result
            (LeftGivingUp (word_of self.now).number (admission_of self.now)
            (Enter access.Exclusive Timed) token.new) }
        ensures late { IfNone result (TimeIsUp C.tells limit.entry) }
    {
        match self
            .lock
            .enter(rt, token, &limit, Access::Exclusive, Patience::Timed)
        {
            Ok(Some(right)) => Some(RawExclusiveGuard { right }),
            Ok(None) => None,
            Err(_) => unreachable!(),
        }
    }

    #[inline]
    pub(crate) fn upgrade_in_time<R: Wait, C: Clock>(
        &self,
        rt: &R,
        token: &mut Token,
        limit: Option<(&C, u64)>,
        guard: RawUpgradableGuard,
    ) -> Result<RawExclusiveGuard, RawUpgradableGuard>
        requires token { IsTokenOf (lot_of self.now) token.old }
        requires guard { IsUpgradableOf (lot_of self.now) (word_of self.now) guard }
        ensures token { IsTokenOf (lot_of self.now) token.new × StaysSettled token.old token.new }
        ensures guard { MatchResult result (IsExclusiveOf (lot_of self.now) (word_of self.now))
            (IsUpgradableOf (lot_of self.now) (word_of self.now)) }
        ensures path { HasWalkedRwLock (word_of self.now).number (admission_of self.now)
            (Upgrade Timed)
            (upgrade_answer result) token.old token.new }
        ensures left { IfErr result
            (λ _. LeftGivingUp (word_of self.now).number (admission_of self.now)
            (Upgrade Timed) token.new) }
        ensures late { IfErr result (λ _. TimeIsUp C.tells limit.entry) }
    {
        let RawUpgradableGuard { right } = guard;
        match self.lock.upgrade(rt, token, &limit, Patience::Timed, right) {
            Ok(right) => Ok(RawExclusiveGuard { right }),
            Err(right) => Err(RawUpgradableGuard { right }),
        }
    }
}
