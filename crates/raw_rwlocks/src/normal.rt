//! The reader-writer lock whose waiting writer keeps further readers out.
ghost use Rattle.std.specs.Prelude.{◌≡◌, ◌≤◌, false, IfOk, MatchResult};
ghost use Rattle.std.specs.Arc.{arc_value};
ghost use Rattle.parking_lot_core.specs.Tokens.{IsTokenOf};
ghost use Rattle.run_base.specs.RwLockCalls.{HasWalkedCall, SeesBy, StaysSettled, StaysSettled-on};
ghost use Rattle.run_base.specs.RwLockCalls.{WakesByCall, is_held, is_held_alone};
ghost use Rattle.run_locks.specs.RwLockRefusals.{GaveUpCall, SawReadersFull};
ghost use Rattle.lock_raw.specs.Answers.{IsRefusal};
ghost use Rattle.lock_values.specs.Places.{place_of as place_at};
ghost use Rattle.core_words.specs.Rights.{piece_of};
ghost use Rattle.core_words.specs.declared.owners.Owner.TheVariants.{Exclusive, Shared};
ghost use Rattle.core_words.specs.declared.words.WordKind.TheVariants.{RwLock};
ghost use Rattle.run_base.specs.Drawing.{Drew, FoundFull};
ghost use Rattle.raw_rwlocks.specs.RwLockGuards.{IsExclusiveOf, IsExclusiveOf-prop, IsSharedOf};
ghost use Rattle.raw_rwlocks.specs.RwLockGuards.{IsSharedOf-prop};

use crate::raw_rwlock::{MOST_READERS, RawRwLock};
use crate::rwlock_guards::{RawExclusiveGuard, RawSharedGuard};
use crate::rwlock_rights::LotRwLock;
use lock_raw::RawRwLockHalves;
use lock_values::{Open, Place, Seen, calls};
use parking_lot_core::{Fault, ParkingLot, Token, Want};
use run_base::driver::FOR_EVER;
use run_locks::rwlock_calls::SlowPart;
use spec_locks::{Access, Downgrade, Patience};
use std::sync::{Arc, Wait};
use steps_base::bits::{count_in, has_writer};

impl lock_raw::RawRwLockHalves for RawRwLock<false> {
    ghost use Rattle.raw_rwlocks.specs.RwLockHalves.{HasBegunCall};
    ghost use Rattle.raw_rwlocks.specs.RwLockUsers.{admission_of, lot_lock_in, lot_of as lot_at};
    ghost use Rattle.raw_rwlocks.specs.RwLockUsers.{word_of as word_at};

    type Lot = ParkingLot;

    type Token = Token;

    type SharedGuard = RawSharedGuard;

    type ExclusiveGuard = RawExclusiveGuard;

    type SlowPart = SlowPart;

    ghost lot_of = { lot_at };

    ghost is_token_of = { λ lot token. IsTokenOf lot token };

    ghost keeps_rights = { λ old new. StaysSettled old new };

    ghost keeps_rights_on = { StaysSettled-on };

    ghost is_shared_of = { λ lock guard. IsSharedOf (lot_at lock) (word_at lock) guard };

    ghost shared_once = { λ lock guard. IsSharedOf-prop (lot_at lock) (word_at lock) guard };

    ghost is_exclusive_of = { λ lock guard. IsExclusiveOf (lot_at lock) (word_at lock) guard };

    ghost exclusive_once = { λ lock guard. IsExclusiveOf-prop (lot_at lock) (word_at lock) guard };

    ghost place_of = { λ lock. place_at (lot_at lock).words (word_at lock) };

    ghost shared_view = { λ lock. piece_of (word_at lock) Shared };

    ghost exclusive_view = { λ lock. piece_of (word_at lock) Exclusive };

    ghost took_steps = { λ lock call answer old new. HasWalkedCall (word_at lock).number
        (admission_of lock) call answer old new };

    ghost woke_waiters = { λ lock call old new. WakesByCall (word_at lock).number
        (admission_of lock) call old new };

    ghost begun = { λ lock call rest old new. HasBegunCall (lot_lock_in lock) call rest old new };

    ghost saw_full = { λ lock access old new. SawReadersFull (word_at lock).number
        (admission_of lock) access old new };

    #[inline(always)]
    fn lock_shared_fast(
        &self,
        token: &mut Token,
    ) -> Result<Result<RawSharedGuard, Fault>, SlowPart> {
        match self
            .lock
            .enter_fast(token, FOR_EVER, Access::Shared, Patience::Patient)
        {
            Ok(Ok(Some(right))) => Ok(Ok(RawSharedGuard { right })),
            Ok(Ok(None)) => unreachable!(),
            Ok(Err(fault)) => Ok(Err(fault)),
            Err(rest) => Err(rest),
        }
    }

    #[inline(always)]
    fn lock_shared_slow<R: Wait>(
        &self,
        rt: &R,
        token: &mut Token,
        rest: SlowPart,
    ) -> Result<RawSharedGuard, Fault> {
        let (access, patience) = (Access::Shared, Patience::Patient);
        match self
            .lock
            .enter_slow(rt, token, FOR_EVER, access, patience, rest)
        {
            Ok(Some(right)) => Ok(RawSharedGuard { right }),
            Ok(None) => unreachable!(),
            Err(fault) => Err(fault),
        }
    }

    #[inline(always)]
    fn lock_exclusive_fast(&self, token: &mut Token) -> Result<RawExclusiveGuard, SlowPart> {
        match self
            .lock
            .enter_fast(token, FOR_EVER, Access::Exclusive, Patience::Patient)
        {
            Ok(Ok(Some(right))) => Ok(RawExclusiveGuard { right }),
            Ok(Ok(None) | Err(_)) => unreachable!(),
            Err(rest) => Err(rest),
        }
    }

    #[inline(always)]
    fn lock_exclusive_slow<R: Wait>(
        &self,
        rt: &R,
        token: &mut Token,
        rest: SlowPart,
    ) -> RawExclusiveGuard {
        let (access, patience) = (Access::Exclusive, Patience::Patient);
        match self
            .lock
            .enter_slow(rt, token, FOR_EVER, access, patience, rest)
        {
            Ok(Some(right)) => RawExclusiveGuard { right },
            Ok(None) | Err(_) => unreachable!(),
        }
    }

    #[inline(always)]
    fn unlock_shared_fast(&self, token: &mut Token, guard: RawSharedGuard) -> Option<SlowPart> {
        let RawSharedGuard { right } = guard;
        self.lock.release_fast(token, Access::Shared, right)
    }

    #[inline(always)]
    fn unlock_exclusive_fast(
        &self,
        token: &mut Token,
        guard: RawExclusiveGuard,
    ) -> Option<SlowPart> {
        let RawExclusiveGuard { right } = guard;
        self.lock.release_fast(token, Access::Exclusive, right)
    }

    #[inline(always)]
    fn unlock_slow<R: Wait>(&self, rt: &R, token: &mut Token, access: Access, rest: SlowPart) {
        self.lock.release_slow(rt, token, access, rest);
    }

    #[inline]
    fn open_shared<'a, T>(&self, place: &'a Place<T>, guard: RawSharedGuard) -> Seen<'a, T> {
        let RawSharedGuard { right } = guard;
        calls::open_shared(self.lock.words(), place, self.lock.word(), right)
    }

    #[inline]
    fn shut_shared<T>(&self, seen: Seen<'_, T>) -> RawSharedGuard {
        let right = calls::shut_shared(self.lock.words(), self.lock.word(), seen);
        RawSharedGuard { right }
    }

    #[inline]
    fn open_exclusive<'a, T>(&self, place: &'a Place<T>, guard: RawExclusiveGuard) -> Open<'a, T> {
        let RawExclusiveGuard { right } = guard;
        calls::open_alone(self.lock.words(), place, self.lock.word(), right)
    }

    #[inline]
    fn shut_exclusive<T>(&self, lent: Open<'_, T>) -> RawExclusiveGuard {
        let right = calls::shut_alone(self.lock.words(), self.lock.word(), lent);
        RawExclusiveGuard { right }
    }

    fn has_two_writers(
        &self,
        token: &mut Token,
        one: RawExclusiveGuard,
        other: RawExclusiveGuard,
    ) -> ! {
        let RawExclusiveGuard { right: one } = one;
        let RawExclusiveGuard { right: other } = other;
        self.lock
            .has_both(token, Want::Exclusive, one, Want::Exclusive, other)
    }

    fn has_writer_and_reader(
        &self,
        token: &mut Token,
        writer: RawExclusiveGuard,
        reader: RawSharedGuard,
    ) -> ! {
        let RawExclusiveGuard { right: one } = writer;
        let RawSharedGuard { right: other } = reader;
        self.lock
            .has_both(token, Want::Exclusive, one, Want::Shared, other)
    }
}

impl lock_raw::RawRwLock for RawRwLock<false> {
    ghost use Rattle.raw_rwlocks.specs.RwLockUsers.{admission_of, lot_of as lot_at, word_of as word_at};

    ghost seats_of = { λ lot. lot.records.count };

    ghost limit_of = { λ lock. (admission_of lock).limit };

    ghost drew = { λ lock old new. Drew RwLock (lot_at lock) (word_at lock) old new };

    ghost found_full = { λ lot old new. FoundFull lot old new };

    ghost looked = { λ lock held old new. SeesBy is_held (word_at lock).number held old new };

    ghost looked_for_writer = { λ lock alone old new. SeesBy is_held_alone
        (word_at lock).number alone old new };

    ghost gave_up = { λ lock call new. GaveUpCall (word_at lock).number
        (admission_of lock) call new };

    fn new(lot: &Arc<ParkingLot>, token: &mut Token) -> Result<RawRwLock<false>, Fault>
        requires { IsTokenOf (arc_value lot.now) token.old }
        ensures token { IsTokenOf (arc_value lot.now) token.new × StaysSettled token.old token.new }
        ensures made { MatchResult result
            (λ lock. (lot_at lock ≡ arc_value lot.now)
            × ((admission_of lock).limit ≡ 1152921504606846974))
            (IsRefusal (FoundFull (arc_value lot.now)) token.old token.new) }
        ensures drawn { IfOk result
            (λ lock. Drew RwLock (lot_at lock) (word_at lock) token.old token.new) }
        ensures chosen { IfOk result (λ lock. (admission_of lock).recursive ≡ false) }
    {
        let lock = LotRwLock::with_limit(lot, token, false, MOST_READERS)?;
        Ok(RawRwLock { lock })
    }

    fn with_limit(
        lot: &Arc<ParkingLot>,
        token: &mut Token,
        limit: u64,
    ) -> Result<RawRwLock<false>, Fault>
        requires token { IsTokenOf (arc_value lot.now) token.old }
        requires limit { ((arc_value lot.now).records.count ≤ limit)
            × (limit ≤ 1152921504606846974) }
        ensures token { IsTokenOf (arc_value lot.now) token.new × StaysSettled token.old token.new }
        ensures made { MatchResult result
            (λ lock. (lot_at lock ≡ arc_value lot.now) × ((admission_of lock).limit ≡ limit))
            (IsRefusal (FoundFull (arc_value lot.now)) token.old token.new) }
        ensures drawn { IfOk result
            (λ lock. Drew RwLock (lot_at lock) (word_at lock) token.old token.new) }
        ensures chosen { IfOk result (λ lock. (admission_of lock).recursive ≡ false) }
    {
        let lock = LotRwLock::with_limit(lot, token, false, limit)?;
        Ok(RawRwLock { lock })
    }

    #[inline(always)]
    fn lock_shared<R: Wait>(&self, rt: &R, token: &mut Token) -> Result<RawSharedGuard, Fault> {
        match self.lock_shared_fast(token) {
            Ok(Ok(guard)) => Ok(guard),
            Ok(Err(fault)) => Err(fault),
            Err(rest) => self.lock_shared_slow(rt, token, rest),
        }
    }

    #[inline(always)]
    fn unlock_shared<R: Wait>(&self, rt: &R, token: &mut Token, guard: RawSharedGuard) {
        if let Some(rest) = self.unlock_shared_fast(token, guard) {
            self.unlock_slow(rt, token, Access::Shared, rest);
        }
    }

    #[inline(always)]
    fn lock_exclusive<R: Wait>(&self, rt: &R, token: &mut Token) -> RawExclusiveGuard {
        match self.lock_exclusive_fast(token) {
            Ok(guard) => guard,
            Err(rest) => self.lock_exclusive_slow(rt, token, rest),
        }
    }

    #[inline(always)]
    fn unlock_exclusive<R: Wait>(&self, rt: &R, token: &mut Token, guard: RawExclusiveGuard) {
        if let Some(rest) = self.unlock_exclusive_fast(token, guard) {
            self.unlock_slow(rt, token, Access::Exclusive, rest);
        }
    }

    #[inline]
    fn try_lock_shared<R: Wait>(
        &self,
        rt: &R,
        token: &mut Token,
    ) -> Result<Option<RawSharedGuard>, Fault> {
        match self
            .lock
            .enter(rt, token, FOR_EVER, Access::Shared, Patience::Try)
        {
            Ok(Some(right)) => Ok(Some(RawSharedGuard { right })),
            Ok(None) => Ok(None),
            Err(fault) => Err(fault),
        }
    }

    #[inline]
    fn try_lock_exclusive(&self, token: &mut Token) -> Option<RawExclusiveGuard> {
        let right = self.lock.try_enter_alone(token)?;
        Some(RawExclusiveGuard { right })
    }

    #[inline]
    fn is_locked(&self, token: &mut Token) -> bool {
        let seen = self.lock.load(token);
        has_writer(seen) || count_in(seen) != 0
    }

    #[inline]
    fn is_locked_exclusive(&self, token: &mut Token) -> bool {
        let seen = self.lock.load(token);
        has_writer(seen) && count_in(seen) == 0
    }
}

impl lock_raw::RawRwLockDowngrade for RawRwLock<false> {
    #[inline]
    fn downgrade<R: Wait>(
        &self,
        rt: &R,
        token: &mut Token,
        guard: RawExclusiveGuard,
    ) -> RawSharedGuard {
        let RawExclusiveGuard { right } = guard;
        RawSharedGuard {
            right: self.lock.downgrade(rt, token, Downgrade::ToShared, right),
        }
    }
}
