//! Raw mutexes that their owners lock again.
ghost use Rattle.std.specs.Arc.{arc_value};
ghost use Rattle.raw_mutexes.specs.Counting.{DrewPair, FoundFew, IsCountOf, IsCountOf-prop, IsShareOf};
ghost use Rattle.raw_mutexes.specs.Counting.{IsShareOf-prop, SawCount, StoredCount, thread_of};

use crate::guards::RawGuard;
use crate::raw_mutex::RawMutex;
use core_names::CountShare;
use lock_raw::{GetThreadId, RawMutexCounted, advance_count};
use parking_lot_core::{Fault, ParkingLot, Token, Word};
use std::sync::Arc;

const ONE_THREAD: u64 = 4294967296;

/// Names a thread by its number in the lot.
#[derive(Clone, Copy, Debug, Drop)]
pub struct RawThreadId;

impl GetThreadId<RawMutex> for RawThreadId {
    fn new() -> RawThreadId {
        RawThreadId
    }

    #[inline]
    fn nonzero_thread_id(&self, token: &Token) -> usize {
        token.number() + 1
    }
}

/// One of the times that a mutex is locked. It borrows nothing, can't be dropped, and has no bytes.
pub struct RawShare {
    pub(crate) share: CountShare,
}

impl RawMutexCounted for RawMutex {
    type Count = Word;

    type Share = RawShare;

    ghost is_count_of = { λ mutex count. IsCountOf (arc_value mutex.lot) mutex.word count };

    ghost count_once = { λ mutex count. IsCountOf-prop (arc_value mutex.lot) mutex.word count };

    ghost is_share_of = { λ mutex share. IsShareOf (arc_value mutex.lot) mutex.word share };

    ghost share_once = { λ mutex share. IsShareOf-prop (arc_value mutex.lot) mutex.word share };

    ghost thread_of = { thread_of };

    ghost drew_pair = { λ mutex old new. DrewPair (arc_value mutex.lot) mutex.word old new };

    ghost found_few = { λ lot old new. FoundFew lot old new };

    ghost saw_count = { λ mutex seen old new. SawCount mutex.word.number seen old new };

    ghost stored_count = { λ mutex found left old new.
        StoredCount mutex.word.number found left old new };

    fn new_counted(lot: &Arc<ParkingLot>, token: &mut Token) -> Result<(RawMutex, Word), Fault> {
        let Ok(lot) = Arc::try_clone(lot) else {
            return Err(Fault::NoMemory);
        };
        let (word, count) = lot.new_pair(token)?;
        Ok((RawMutex { lot, word }, count))
    }

    // The thread finds itself named by its number: no other thread changes the count then.
    #[inline]
    fn count_again(
        &self,
        token: &mut Token,
        count: &Word,
        thread: usize,
    ) -> Result<Option<RawShare>, Fault> {
        let lot: &ParkingLot = &self.lot;
        let seen = lot.look_count(token, *count);
        if seen / ONE_THREAD != thread as u64 {
            return Ok(None);
        }
        let next = advance_count(seen, thread - 1)?;
        let share = lot.count_again(token, *count, seen, next);
        Ok(Some(RawShare { share }))
    }

    #[inline]
    fn count_more(
        &self,
        token: &mut Token,
        count: &Word,
        thread: usize,
        share: RawShare,
    ) -> Result<(RawShare, RawShare), (Fault, RawShare)> {
        let lot: &ParkingLot = &self.lot;
        let RawShare { share } = share;
        let seen = lot.see_count(token, *count, share);
        match advance_count(seen, thread - 1) {
            Ok(next) => {
                let another = lot.count_again(token, *count, seen, next);
                let share = lot.give_share(token, *count);
                Ok((RawShare { share }, RawShare { share: another }))
            }
            Err(fault) => {
                lot.look_count(token, *count);
                let share = lot.give_share(token, *count);
                Err((fault, RawShare { share }))
            }
        }
    }

    #[inline]
    fn count_first(
        &self,
        token: &mut Token,
        count: &Word,
        thread: usize,
        guard: RawGuard,
    ) -> RawShare {
        let lot: &ParkingLot = &self.lot;
        let RawGuard { opened, permit } = guard;
        let first = thread as u64 * ONE_THREAD + 1;
        let share = lot.count_first(token, self.word, *count, first, opened, permit);
        RawShare { share }
    }

    #[inline]
    fn count_off(&self, token: &mut Token, count: &Word, share: RawShare) -> Option<RawGuard> {
        let lot: &ParkingLot = &self.lot;
        let RawShare { share } = share;
        let seen = lot.see_count(token, *count, share);
        if seen % ONE_THREAD == 1 {
            let (opened, permit) = lot.count_out(token, self.word, *count, seen);
            return Some(RawGuard { opened, permit });
        }
        lot.count_less(token, *count, seen);
        None
    }

    #[inline]
    fn count_off_only(
        &self,
        token: &mut Token,
        count: &Word,
        share: RawShare,
    ) -> Result<RawGuard, RawShare> {
        let lot: &ParkingLot = &self.lot;
        let RawShare { share } = share;
        let seen = lot.look_by_share(token, *count, share);
        if seen % ONE_THREAD != 1 {
            let share = lot.give_share(token, *count);
            return Err(RawShare { share });
        }
        let (opened, permit) = lot.count_out(token, self.word, *count, seen);
        Ok(RawGuard { opened, permit })
    }

    fn has_two_owners(&self, count: &Word, one: RawShare, other: RawShare) -> ! {
        let lot: &ParkingLot = &self.lot;
        let (RawShare { share }, RawShare { share: another }) = (one, other);
        lot.has_two_owners(*count, share, another)
    }
}
