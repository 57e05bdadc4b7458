//! The mutex whose `unlock` hands it over, without a value.
ghost use Rattle.std.specs.Prelude.{◌≡◌};
ghost use Rattle.std.specs.Arc.{arc_value};
ghost use Rattle.parking_lot_core.specs.Tokens.{IsTokenOf, last_of};
ghost use Rattle.run_base.specs.Calls.{fairly, HasWalkedMutex, SawWhetherLocked, TookIfSeen};
ghost use Rattle.core_words.specs.declared.words.WordKind.TheVariants.{Mutex};
ghost use Rattle.run_base.specs.Drawing.{Drew, FoundFull};
ghost use Rattle.run_base.specs.Stages.{TookNobodyAt};
ghost use Rattle.raw_mutexes.specs.Begun.{HasBegun};
ghost use Rattle.raw_mutexes.specs.MutexGuards.{IsGuardOf, IsGuardOf-prop, IsOpenGuardOf};
ghost use Rattle.raw_mutexes.specs.MutexGuards.{IsOpenGuardOf-prop, permit_in, StaysAs, StaysAs-on};
ghost use Rattle.run_base.specs.Telling.{steps_of};

use crate::guards::{OpenGuard, RawGuard};
use crate::raw_mutex::RawMutex;
use lock_raw::{RawMutexFair, RawMutexTimed};
use parking_lot_core::{Clock, Fault, Key, ParkingLot, Permit, Sort, Token};
use std::marker::Model;
use std::sync::{Arc, Wait};
use std::time::Duration;

/// A mutex of a lot whose `unlock` hands it to the first that waits.
#[derive(Drop)]
pub struct RawFairMutex {
    raw: RawMutex,
}

// In a clause it is its raw mutex.
impl Model for RawFairMutex {
    ghost use Rattle.raw_mutexes.specs.declared.raw_mutex.RawMutex.{RawMutex};

    ghost Value = { RawMutex };

    ghost view = { λ mutex. mutex.raw };
}

impl RawFairMutex {
    ghost use Rattle.std.specs.Prelude.{◌*◌};
    ghost use Rattle.raw_mutexes.specs.Words.{word_of};

    /// Returns the key of its queue.
    pub fn key(&self) -> Key
        ensures { result ≡ 2 * (word_of self.now).number }
    {
        self.raw.key()
    }
}

impl lock_raw::RawMutex for RawFairMutex {
    type Lot = ParkingLot;

    type Token = Token;

    type Guard = RawGuard;

    type Opened = OpenGuard;

    ghost lot_of = { λ mutex. arc_value mutex.lot };

    ghost is_token_of = { λ lot token. IsTokenOf lot token };

    ghost keeps_rights = { λ old new. StaysAs old new };

    ghost keeps_rights_on = { StaysAs-on };

    ghost number_of = { λ token. token.number };

    ghost number_stays = { λ _ _ keeps_rights. keeps_rights.0 };

    ghost is_guard_of = { λ mutex guard. IsGuardOf (arc_value mutex.lot) mutex.word guard };

    ghost guard_once = { λ mutex guard. IsGuardOf-prop (arc_value mutex.lot) mutex.word guard };

    ghost permit_of = { λ mutex. permit_in (arc_value mutex.lot) mutex.word };

    ghost is_opened_of = { λ mutex opened. IsOpenGuardOf (arc_value mutex.lot) mutex.word opened };

    ghost opened_once = { λ mutex opened. IsOpenGuardOf-prop
        (arc_value mutex.lot) mutex.word opened };

    ghost drew = { λ mutex old new. Drew Mutex (arc_value mutex.lot) mutex.word old new };

    ghost found_full = { λ lot old new. FoundFull lot old new };

    ghost took_steps = { λ mutex call answer old new. HasWalkedMutex mutex.word.number
        (fairly call) answer old new };

    ghost released = { λ mutex call old new.
        TookIfSeen mutex.word.number (fairly call) (steps_of old) (steps_of new) (last_of new) };

    ghost begun = { λ mutex call seen old new. HasBegun mutex.word.number
        (fairly call) seen old new };

    ghost looked = { λ mutex locked old new. SawWhetherLocked mutex.word.number locked (steps_of old)
        (steps_of new) };

    fn new(lot: &Arc<ParkingLot>, token: &mut Token) -> Result<RawFairMutex, Fault> {
        let raw = <RawMutex as lock_raw::RawMutex>::new(lot, token)?;
        lot.declares(raw.word, Sort::FairMutex);
        Ok(RawFairMutex { raw })
    }

    #[inline]
    fn lock<R: Wait>(&self, rt: &R, token: &mut Token) -> RawGuard {
        lock_raw::RawMutex::lock(&self.raw, rt, token)
    }

    #[inline]
    fn try_lock(&self, token: &mut Token) -> Option<RawGuard> {
        lock_raw::RawMutex::try_lock(&self.raw, token)
    }

    #[inline]
    fn unlock<R: Wait>(&self, rt: &R, token: &mut Token, guard: RawGuard) {
        self.unlock_fair(rt, token, guard);
    }

    #[inline]
    fn is_locked(&self, token: &mut Token) -> bool {
        lock_raw::RawMutex::is_locked(&self.raw, token)
    }

    #[inline]
    fn open_value(&self, guard: RawGuard) -> (OpenGuard, Permit) {
        lock_raw::RawMutex::open_value(&self.raw, guard)
    }

    #[inline]
    fn close_value(&self, opened: OpenGuard, permit: Permit) -> RawGuard {
        lock_raw::RawMutex::close_value(&self.raw, opened, permit)
    }

    #[inline]
    fn lock_fast(&self, token: &mut Token) -> Result<RawGuard, u64> {
        lock_raw::RawMutex::lock_fast(&self.raw, token)
    }

    fn lock_slow<R: Wait>(&self, rt: &R, token: &mut Token, seen: u64) -> RawGuard {
        lock_raw::RawMutex::lock_slow(&self.raw, rt, token, seen)
    }

    #[inline]
    fn lot(&self) -> &ParkingLot {
        lock_raw::RawMutex::lot(&self.raw)
    }

    #[inline]
    fn unlock_fast(&self, lot: &ParkingLot, token: &mut Token, guard: RawGuard) -> Option<u64> {
        self.raw.unlock_fair_fast(lot, token, guard)
    }

    fn unlock_slow<R: Wait>(&self, rt: &R, token: &mut Token, seen: u64) {
        self.raw.unlock_fair_after(rt, token, seen);
    }

    fn has_two_guards(&self, token: &mut Token, one: RawGuard, other: RawGuard) -> ! {
        lock_raw::RawMutex::has_two_guards(&self.raw, token, one, other)
    }
}

impl RawMutexFair for RawFairMutex {
    #[inline]
    fn unlock_fair<R: Wait>(&self, rt: &R, token: &mut Token, guard: RawGuard) {
        self.raw.unlock_fair(rt, token, guard);
    }

    #[inline]
    fn bump<R: Wait>(&self, rt: &R, token: &mut Token, guard: RawGuard) -> RawGuard {
        self.raw.bump(rt, token, guard)
    }
}

impl RawMutexTimed for RawFairMutex {
    ghost gave_up = { λ mutex token. TookNobodyAt mutex.word.number (last_of token) };

    #[inline]
    fn try_lock_for<R: Wait, C: Clock>(
        &self,
        rt: &R,
        token: &mut Token,
        clock: &C,
        timeout: Duration,
    ) -> Option<RawGuard> {
        self.raw.try_lock_for(rt, token, clock, timeout)
    }

    #[inline]
    fn try_lock_until<R: Wait, C: Clock>(
        &self,
        rt: &R,
        token: &mut Token,
        clock: &C,
        deadline: u64,
    ) -> Option<RawGuard> {
        self.raw.try_lock_until(rt, token, clock, deadline)
    }
}
