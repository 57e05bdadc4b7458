//! The mutex, without a value.
//!
//! The slow half of `lock` returns no right: it leaves the ownership in the token's view, and `lock`
//! splits it off, since a place for the right would cost the fast half. `unlock` asks of its
//! subtraction whether it found 1; an owner finds 1 or 3, so the slow half is told 3, or 0 where the
//! thread waits for its turn.
ghost use Rattle.std.specs.Prelude.{◌≡◌, ◌<◌, ◌*◌, ◌++◌, List, None, true, IfNone, IfSome};
ghost use Rattle.std.specs.Arc.{arc_value};
ghost use Rattle.core_clocks.specs.Clocks.{TimeIsUp};
ghost use Rattle.lock_raw.specs.Answers.{answer_by};
ghost use Rattle.spec_locks.specs.declared.calls.MutexCall.TheVariants.{Bump, Lock, LockTimed, Unlock, UnlockFair};
ghost use Rattle.spec_locks.specs.declared.outcomes.Answer.TheVariants.{Ok as ok};
ghost use Rattle.core_words.specs.Lots.{IsWordOf};
ghost use Rattle.core_words.specs.Plays.{piece, left_over, takes_in};
ghost use Rattle.core_words.specs.Steps.{has};
ghost use Rattle.core_words.specs.declared.words.WordKind.TheVariants.{Mutex};
ghost use Rattle.parking_lot_core.specs.Tokens.{IsTokenOf, IsSameThread, view_of, last_of, told_of};
ghost use Rattle.parking_lot_core.specs.declared.tokens.Token.{Token};
ghost use Rattle.run_base.specs.MutexCourses.{locked_and_parked};
ghost use Rattle.raw_mutexes.specs.Begun.{HasBegun, HasStepped, WaitsToBegin};
ghost use Rattle.core_words.specs.declared.views.WordStep.{WordStep};
ghost use Rattle.run_base.specs.Calls.{MeetAt, purpose_in, IsUnfinished, HasWalkedMutex, SawWhetherLocked};
ghost use Rattle.run_base.specs.Calls.{TookIfSeen, WalksAfter};
ghost use Rattle.run_base.specs.Drawing.{Drew, FoundFull};
ghost use Rattle.raw_mutexes.specs.MutexGuards.{IsGuardOf, IsGuardOf-prop, IsOpenGuardOf};
ghost use Rattle.raw_mutexes.specs.MutexGuards.{IsOpenGuardOf-prop, permit_in, StaysAs, StaysAs-on};
ghost use Rattle.run_base.specs.MutexFitting.{IsMutexOver, mutex_ownership, to_release};
ghost use Rattle.run_base.specs.Stages.{TookNobodyAt};
ghost use Rattle.run_base.specs.Stages.{stage_of};
ghost use Rattle.run_base.specs.Telling.{owns_of, steps_of};

use crate::guards::{OpenGuard, RawGuard};
use core_base::main_key;
use parking_lot_core::{
    CallName, Clock, Deed, Fault, Key, Op, ParkingLot, Permit, Token, Word, WordKind,
};
use run_base::driver::{NO_LIMIT, first_mutex_step, step};
use run_base::limits::limit_in;
use run_mutexes::calls::call_slow;
use run_mutexes::unlocks::unlock_slow;
use spec_locks::{Answer, MutexCall};
use std::sync::{Arc, Wait};
use std::time::Duration;
use steps_mutex::{LOCKED, is_locked, is_parked};

// In place of what a call's first step saw: none is taken, and the thread waits for its turn.
const NOT_BEGUN: u64 = 0;

/// A mutex of a lot. Its word is 1 where it is locked, and 2 where a thread may be parked, or the
/// sum of these.
pub struct RawMutex {
    pub(crate) lot: Arc<ParkingLot>,
    pub(crate) word: Word,
    ghost drawn: { IsWordOf (arc_value lot).words word × (word.kind ≡ Mutex)
        × (word.number < 9223372036854775808) },
}

// The drop is written, and not derived, so that it is proved here and not in each program.
impl Drop for RawMutex {
    fn drop(self) {
        let RawMutex {
            lot: _lot,
            word: _word,
        } = self;
    }
}

impl RawMutex {
    ghost use Rattle.raw_mutexes.specs.Words.{lot_of, word_of};

    /// Returns the key of its queue.
    pub fn key(&self) -> Key
        ensures { result ≡ 2 * (word_of self.now).number }
    {
        main_key(self.word.number())
    }

    // Returns the guard of a thread that has waited for the mutex, and owns it.
    pub(crate) fn split(&self, lot: &ParkingLot, token: &mut Token) -> RawGuard
        requires lot { lot.now ≡ lot_of self.now }
        requires own { IsTokenOf (lot_of self.now) token.old }
        requires held { has (mutex_ownership (word_of self.now).number) (view_of token.old).owns ≡ true }
        ensures own { IsSameThread (lot_of self.now) token.old token.new
            × (last_of token.new ≡ last_of token.old) }
        ensures untold { told_of token.new ≡ told_of token.old }
        ensures left { view_of token.new
            ≡ left_over (mutex_ownership (word_of self.now).number) (view_of token.old) }
        ensures guard { IsGuardOf (lot_of self.now) (word_of self.now) result }
    {
        let (opened, permit) = lot.split_open(token, self.word);
        RawGuard { opened, permit }
    }

    // Spends a guard: the token owns the mutex then.
    pub(crate) fn join(&self, lot: &ParkingLot, token: &mut Token, guard: RawGuard)
        requires lot { lot.now ≡ lot_of self.now }
        requires own { IsTokenOf (lot_of self.now) token.old
            × IsGuardOf (lot_of self.now) (word_of self.now) guard }
        ensures own { IsSameThread (lot_of self.now) token.old token.new
            × (last_of token.new ≡ last_of token.old) }
        ensures untold { told_of token.new ≡ told_of token.old }
        ensures joined { view_of token.new
            ≡ takes_in (view_of token.old) (piece (mutex_ownership (word_of self.now).number)) }
    {
        let RawGuard { opened, permit } = guard;
        lot.join_open(token, self.word, opened, permit);
    }

    // Takes the first step of a fair release, and returns the value seen where the thread still
    // owns the mutex.
    #[inline]
    pub(crate) fn unlock_fair_fast(
        &self,
        lot: &ParkingLot,
        token: &mut Token,
        guard: RawGuard,
    ) -> Option<u64>
        requires lot { lot.now ≡ lot_of self.now }
        requires own { IsTokenOf (lot_of self.now) token.old
            × IsGuardOf (lot_of self.now) (word_of self.now) guard }
        ensures token { IsTokenOf (lot_of self.now) token.new }
        ensures over { IfNone result (StaysAs token.old token.new
            × HasWalkedMutex (word_of self.now).number UnlockFair ok token.old token.new
            × TookIfSeen (word_of self.now).number UnlockFair (steps_of token.old)
            (steps_of token.new) (last_of token.new)) }
        ensures begun { IfSome result
            (λ seen. HasBegun (word_of self.now).number UnlockFair seen token.old token.new) }
    {
        let RawGuard { opened, permit } = guard;
        let seen = lot.unlock_if_alone(token, self.word, opened, permit);
        if seen == LOCKED {
            return None;
        }
        Some(seen)
    }

    // The rest of a fair release.
    pub(crate) fn unlock_fair_after<R: Wait>(&self, rt: &R, token: &mut Token, seen: u64)
        requires token { IsTokenOf (lot_of self.now) token.old }
        requires begun { (before : Token)
            × HasBegun (word_of self.now).number UnlockFair seen before token.old }
        ensures token { IsTokenOf (lot_of self.now) token.new }
        ensures over { (before : Token)
            → HasBegun (word_of self.now).number UnlockFair seen before token.old
            → StaysAs before token.new
            × HasWalkedMutex (word_of self.now).number UnlockFair ok before token.new
            × TookIfSeen (word_of self.now).number UnlockFair (steps_of before) (steps_of token.new)
            (last_of token.new) }
    {
        if seen == NOT_BEGUN {
            self.unlock_fair_in_turn(rt, token);
        } else {
            self.hand_over(rt, token, seen);
        }
    }

    // Does the rest of a fair release whose first step saw a waiter.
    fn hand_over<R: Wait>(&self, rt: &R, token: &mut Token, seen: u64)
        requires token { IsTokenOf (lot_of self.now) token.old }
        requires begun { (before : Token)
            × HasStepped (word_of self.now).number UnlockFair seen before token.old }
        ensures token { IsTokenOf (lot_of self.now) token.new }
        ensures over { (before : Token)
            → HasStepped (word_of self.now).number UnlockFair seen before token.old
            → StaysAs before token.new
            × HasWalkedMutex (word_of self.now).number UnlockFair ok before token.new
            × TookIfSeen (word_of self.now).number UnlockFair (steps_of before) (steps_of token.new)
            (last_of token.new) }
    {
        self.go_on(rt, token, MutexCall::UnlockFair, seen);
    }

    // A fair release of a thread that waits for its turn.
    #[cold]
    #[inline(never)]
    fn unlock_fair_in_turn<R: Wait>(&self, rt: &R, token: &mut Token)
        requires token { IsTokenOf (lot_of self.now) token.old }
        requires waits { (before : Token)
            × WaitsToBegin (word_of self.now).number UnlockFair before token.old }
        ensures token { IsTokenOf (lot_of self.now) token.new }
        ensures over { (before : Token)
            → WaitsToBegin (word_of self.now).number UnlockFair before token.old
            → StaysAs before token.new
            × HasWalkedMutex (word_of self.now).number UnlockFair ok before token.new
            × TookIfSeen (word_of self.now).number UnlockFair (steps_of before) (steps_of token.new)
            (last_of token.new) }
    {
        let lot: &ParkingLot = &self.lot;
        lot.turn_to_begin(rt, token, &Deed::Call(CallName::UnlockFair), &self.word);
        let (opened, permit) = lot.split_open(token, self.word);
        let seen = lot.leave_alone_now(token, self.word, opened, permit);
        if seen != LOCKED {
            self.hand_over(rt, token, seen);
        }
    }

    // Does the slow half of a call without a limit. It takes the mutex by its address, so that the
    // fast half copies nothing.
    #[cold]
    #[inline(never)]
    fn go_on<R: Wait>(&self, rt: &R, token: &mut Token, call: MutexCall, seen: u64) -> Answer
        requires own { MeetAt (lot_of self.now) token.old (word_of self.now) }
        requires goes_on { IsUnfinished (word_of self.now).number call seen
            (view_of token.old).owns }
        ensures own { IsSameThread (lot_of self.now) token.old token.new }
        ensures path { WalksAfter (word_of self.now).number call seen token.old token.new result }
        ensures rest { (more : List WordStep) × (steps_of token.new ≡ steps_of token.old ++ more) }
        ensures over { IsMutexOver ⊥ (word_of self.now).number (owns_of token.old)
            (purpose_in call) result
            (stage_of token.new None) }
    {
        call_slow(rt, &self.lot, token, self.word, NO_LIMIT, call, seen)
    }

    // Does the rest of a bump, whose first step saw a waiter, or that waits for its turn. The thread
    // owns the mutex.
    #[cold]
    #[inline(never)]
    fn bump_slow<R: Wait>(&self, rt: &R, token: &mut Token, seen: u64) -> RawGuard
        requires token { IsTokenOf (lot_of self.now) token.old }
        requires begun { (before : Token)
            × HasBegun (word_of self.now).number Bump seen before token.old }
        ensures token { IsTokenOf (lot_of self.now) token.new }
        ensures guard { IsGuardOf (lot_of self.now) (word_of self.now) result }
        ensures over { (before : Token)
            → HasBegun (word_of self.now).number Bump seen before token.old
            → StaysAs before token.new
            × HasWalkedMutex (word_of self.now).number Bump ok before token.new }
    {
        if seen == NOT_BEGUN {
            return self.bump_in_turn(rt, token);
        }
        self.bump_after(rt, token, seen)
    }

    // Does the rest of a bump whose first step saw a waiter.
    fn bump_after<R: Wait>(&self, rt: &R, token: &mut Token, seen: u64) -> RawGuard
        requires token { IsTokenOf (lot_of self.now) token.old }
        requires begun { (before : Token)
            × HasStepped (word_of self.now).number Bump seen before token.old }
        ensures token { IsTokenOf (lot_of self.now) token.new }
        ensures guard { IsGuardOf (lot_of self.now) (word_of self.now) result }
        ensures over { (before : Token)
            → HasStepped (word_of self.now).number Bump seen before token.old
            → StaysAs before token.new
            × HasWalkedMutex (word_of self.now).number Bump ok before token.new }
    {
        self.go_on(rt, token, MutexCall::Bump, seen);
        self.split(&self.lot, token)
    }

    // A bump of a thread that waits for its turn, and owns the mutex.
    fn bump_in_turn<R: Wait>(&self, rt: &R, token: &mut Token) -> RawGuard
        requires token { IsTokenOf (lot_of self.now) token.old }
        requires waits { (before : Token)
            × WaitsToBegin (word_of self.now).number Bump before token.old }
        ensures token { IsTokenOf (lot_of self.now) token.new }
        ensures guard { IsGuardOf (lot_of self.now) (word_of self.now) result }
        ensures over { (before : Token)
            → WaitsToBegin (word_of self.now).number Bump before token.old
            → StaysAs before token.new
            × HasWalkedMutex (word_of self.now).number Bump ok before token.new }
    {
        let lot: &ParkingLot = &self.lot;
        lot.turn_to_begin(rt, token, &Deed::Call(CallName::Bump), &self.word);
        let guard = self.split(lot, token);
        let seen = lot.step_word_unrecorded(token, self.word, Op::Load);
        if !is_parked(seen) {
            return guard;
        }
        self.join(lot, token, guard);
        self.bump_after(rt, token, seen)
    }

    // The slow half of an unlock, whose first step saw a waiter.
    #[cold]
    #[inline(never)]
    fn wake_first<R: Wait>(&self, rt: &R, token: &mut Token)
        requires own { MeetAt (lot_of self.now) token.old (word_of self.now) }
        ensures own { IsSameThread (lot_of self.now) token.old token.new }
        ensures path { WalksAfter
            (word_of self.now).number Unlock locked_and_parked token.old token.new ok }
        ensures rest { (more : List WordStep) × (steps_of token.new ≡ steps_of token.old ++ more) }
        ensures over { IsMutexOver ⊥ (word_of self.now).number (owns_of token.old) to_release ok
            (stage_of token.new None) }
    {
        unlock_slow(rt, &self.lot, token, self.word);
    }

    // A lock of a thread that waits for its turn.
    fn lock_in_turn<R: Wait>(&self, rt: &R, token: &mut Token) -> RawGuard
        requires token { IsTokenOf (lot_of self.now) token.old }
        requires waits { (before : Token)
            × WaitsToBegin (word_of self.now).number Lock before token.old }
        ensures token { IsTokenOf (lot_of self.now) token.new }
        ensures guard { IsGuardOf (lot_of self.now) (word_of self.now) result }
        ensures over { (before : Token)
            → WaitsToBegin (word_of self.now).number Lock before token.old
            → StaysAs before token.new
            × HasWalkedMutex (word_of self.now).number Lock ok before token.new }
    {
        let lot: &ParkingLot = &self.lot;
        lot.turn_to_begin(rt, token, &Deed::Call(CallName::Lock), &self.word);
        match lot.enter_now(token, self.word) {
            Ok((opened, permit)) => RawGuard { opened, permit },
            Err(seen) => self.lock_after(rt, token, seen),
        }
    }

    // Does the rest of a lock whose first step saw this.
    fn lock_after<R: Wait>(&self, rt: &R, token: &mut Token, seen: u64) -> RawGuard
        requires token { IsTokenOf (lot_of self.now) token.old }
        requires begun { (before : Token)
            × HasStepped (word_of self.now).number Lock seen before token.old }
        ensures token { IsTokenOf (lot_of self.now) token.new }
        ensures guard { IsGuardOf (lot_of self.now) (word_of self.now) result }
        ensures over { (before : Token)
            → HasStepped (word_of self.now).number Lock seen before token.old
            → StaysAs before token.new
            × HasWalkedMutex (word_of self.now).number Lock ok before token.new }
    {
        self.go_on(rt, token, MutexCall::Lock, seen);
        self.split(&self.lot, token)
    }

    // An unlock of a thread that waits for its turn, and owns the mutex.
    #[cold]
    #[inline(never)]
    fn unlock_in_turn<R: Wait>(&self, rt: &R, token: &mut Token)
        requires token { IsTokenOf (lot_of self.now) token.old }
        requires waits { (before : Token)
            × WaitsToBegin (word_of self.now).number Unlock before token.old }
        ensures token { IsTokenOf (lot_of self.now) token.new }
        ensures over { (before : Token)
            → WaitsToBegin (word_of self.now).number Unlock before token.old
            → StaysAs before token.new
            × HasWalkedMutex (word_of self.now).number Unlock ok before token.new
            × TookIfSeen (word_of self.now).number Unlock (steps_of before) (steps_of token.new)
            (last_of token.new) }
    {
        let lot: &ParkingLot = &self.lot;
        lot.turn_to_begin(rt, token, &Deed::Call(CallName::Unlock), &self.word);
        let (opened, permit) = lot.split_open(token, self.word);
        let seen = lot.leave_now(token, self.word, opened, permit);
        if seen != LOCKED {
            self.unlock_after(rt, token, seen);
        }
    }

    // Does the rest of an unlock whose first step saw a waiter.
    fn unlock_after<R: Wait>(&self, rt: &R, token: &mut Token, _seen: u64)
        requires token { IsTokenOf (lot_of self.now) token.old }
        requires begun { (before : Token)
            × HasStepped (word_of self.now).number Unlock _seen before token.old }
        ensures token { IsTokenOf (lot_of self.now) token.new }
        ensures over { (before : Token)
            → HasStepped (word_of self.now).number Unlock _seen before token.old
            → StaysAs before token.new
            × HasWalkedMutex (word_of self.now).number Unlock ok before token.new
            × TookIfSeen (word_of self.now).number Unlock (steps_of before) (steps_of token.new)
            (last_of token.new) }
    {
        self.wake_first(rt, token);
    }

    #[inline]
    fn lock_timed<R: Wait, C: Clock>(
        &self,
        rt: &R,
        token: &mut Token,
        limit: Option<(&C, u64)>,
    ) -> Option<RawGuard>
        requires { IsTokenOf (lot_of self.now) token.old }
        ensures token { IsTokenOf (lot_of self.now) token.new × StaysAs token.old token.new }
        ensures guard { IfSome result (IsGuardOf (lot_of self.now) (word_of self.now)) }
        ensures path { HasWalkedMutex (word_of self.now).number LockTimed
            (answer_by result) token.old token.new }
        ensures left { IfNone result
            (TookNobodyAt (word_of self.now).number (last_of token.new)) }
        ensures late { IfNone result (TimeIsUp C.tells limit.entry) }
    {
        match self.lot.lock_with_permit(token, self.word) {
            Ok((opened, permit)) => Some(RawGuard { opened, permit }),
            Err(seen) => self.go_on_timed(rt, token, limit, seen),
        }
    }

    // Does the slow half of a call with a limit.
    #[cold]
    #[inline(never)]
    fn go_on_timed<R: Wait, C: Clock>(
        &self,
        rt: &R,
        token: &mut Token,
        limit: Option<(&C, u64)>,
        seen: u64,
    ) -> Option<RawGuard>
        requires token { IsTokenOf (lot_of self.now) token.old }
        requires begun { (before : Token)
            × HasBegun (word_of self.now).number LockTimed seen before token.old }
        ensures token { IsTokenOf (lot_of self.now) token.new }
        ensures guard { IfSome result (IsGuardOf (lot_of self.now) (word_of self.now)) }
        ensures over { (before : Token)
            → HasBegun (word_of self.now).number LockTimed seen before token.old
            → StaysAs before token.new
            × HasWalkedMutex (word_of self.now).number LockTimed (answer_by result) before token.new }
        ensures left { IfNone result
            (TookNobodyAt (word_of self.now).number (last_of token.new)) }
        ensures late { IfNone result (TimeIsUp C.tells limit.entry) }
    {
        if seen == NOT_BEGUN {
            return self.lock_timed_in_turn(rt, token, limit);
        }
        self.lock_timed_after(rt, token, limit, seen)
    }

    // Does the rest of a call with a limit, whose first step saw this.
    fn lock_timed_after<R: Wait, C: Clock>(
        &self,
        rt: &R,
        token: &mut Token,
        limit: Option<(&C, u64)>,
        seen: u64,
    ) -> Option<RawGuard>
        requires token { IsTokenOf (lot_of self.now) token.old }
        requires begun { (before : Token)
            × HasStepped (word_of self.now).number LockTimed seen before token.old }
        ensures token { IsTokenOf (lot_of self.now) token.new }
        ensures guard { IfSome result (IsGuardOf (lot_of self.now) (word_of self.now)) }
        ensures over { (before : Token)
            → HasStepped (word_of self.now).number LockTimed seen before token.old
            → StaysAs before token.new
            × HasWalkedMutex (word_of self.now).number LockTimed (answer_by result) before token.new }
        ensures left { IfNone result
            (TookNobodyAt (word_of self.now).number (last_of token.new)) }
        ensures late { IfNone result (TimeIsUp C.tells limit.entry) }
    {
        let lot: &ParkingLot = &self.lot;
        let answer = call_slow(rt, lot, token, self.word, limit, MutexCall::LockTimed, seen);
        if matches!(answer, Answer::No) {
            return None;
        }
        Some(self.split(lot, token))
    }

    // A call with a limit of a thread that waits for its turn.
    fn lock_timed_in_turn<R: Wait, C: Clock>(
        &self,
        rt: &R,
        token: &mut Token,
        limit: Option<(&C, u64)>,
    ) -> Option<RawGuard>
        requires token { IsTokenOf (lot_of self.now) token.old }
        requires waits { (before : Token)
            × WaitsToBegin (word_of self.now).number LockTimed before token.old }
        ensures token { IsTokenOf (lot_of self.now) token.new }
        ensures guard { IfSome result (IsGuardOf (lot_of self.now) (word_of self.now)) }
        ensures over { (before : Token)
            → WaitsToBegin (word_of self.now).number LockTimed before token.old
            → StaysAs before token.new
            × HasWalkedMutex (word_of self.now).number LockTimed (answer_by result) before token.new }
        ensures left { IfNone result
            (TookNobodyAt (word_of self.now).number (last_of token.new)) }
        ensures late { IfNone result (TimeIsUp C.tells limit.entry) }
    {
        let lot: &ParkingLot = &self.lot;
        lot.turn_to_begin(rt, token, &Deed::Call(CallName::LockTimed), &self.word);
        match lot.enter_now(token, self.word) {
            Ok((opened, permit)) => Some(RawGuard { opened, permit }),
            Err(seen) => self.lock_timed_after(rt, token, limit, seen),
        }
    }
}

impl lock_raw::RawMutex for RawMutex {
    type Lot = ParkingLot;

    type Token = Token;

    type Guard = RawGuard;

    type Opened = OpenGuard;

    ghost lot_of = { λ mutex. arc_value mutex.lot };

    ghost is_token_of = { λ lot token. IsTokenOf lot token };

    ghost keeps_rights = { λ old new. StaysAs old new };

    ghost keeps_rights_on = { StaysAs-on };

    ghost number_of = { λ token. token.number };

    ghost number_stays = { λ _ _ keeps_rights. keeps_rights.0 };

    ghost is_guard_of = { λ mutex guard. IsGuardOf (arc_value mutex.lot) mutex.word guard };

    ghost guard_once = { λ mutex guard. IsGuardOf-prop (arc_value mutex.lot) mutex.word guard };

    ghost permit_of = { λ mutex. permit_in (arc_value mutex.lot) mutex.word };

    ghost is_opened_of = { λ mutex opened. IsOpenGuardOf (arc_value mutex.lot) mutex.word opened };

    ghost opened_once = { λ mutex opened. IsOpenGuardOf-prop
        (arc_value mutex.lot) mutex.word opened };

    ghost drew = { λ mutex old new. Drew Mutex (arc_value mutex.lot) mutex.word old new };

    ghost found_full = { λ lot old new. FoundFull lot old new };

    ghost took_steps = { λ mutex call answer old new. HasWalkedMutex mutex.word.number call answer old new };

    ghost released = { λ mutex call old new.
        TookIfSeen mutex.word.number call (steps_of old) (steps_of new) (last_of new) };

    ghost begun = { λ mutex call seen old new. HasBegun mutex.word.number call seen old new };

    ghost looked = { λ mutex locked old new. SawWhetherLocked mutex.word.number locked (steps_of old)
        (steps_of new) };

    fn new(lot: &Arc<ParkingLot>, token: &mut Token) -> Result<RawMutex, Fault> {
        let Ok(lot) = Arc::try_clone(lot) else {
            return Err(Fault::NoMemory);
        };
        let word = lot.new_word(token, WordKind::Mutex)?;
        Ok(RawMutex { lot, word })
    }

    #[inline]
    fn lock<R: Wait>(&self, rt: &R, token: &mut Token) -> RawGuard {
        match self.lock_fast(token) {
            Ok(guard) => guard,
            Err(seen) => self.lock_slow(rt, token, seen),
        }
    }

    #[inline]
    fn try_lock(&self, token: &mut Token) -> Option<RawGuard> {
        let (_, taken) = self.lot.try_lock_with_permit(token, self.word);
        match taken {
            Some((opened, permit)) => Some(RawGuard { opened, permit }),
            None => None,
        }
    }

    #[inline]
    fn unlock<R: Wait>(&self, rt: &R, token: &mut Token, guard: RawGuard) {
        if let Some(seen) = self.unlock_fast(&self.lot, token, guard) {
            self.unlock_slow(rt, token, seen);
        }
    }

    #[inline]
    fn is_locked(&self, token: &mut Token) -> bool {
        let seen = first_mutex_step(&self.lot, token, &Deed::Look, self.word, Op::Load);
        is_locked(seen)
    }

    #[inline]
    fn open_value(&self, guard: RawGuard) -> (OpenGuard, Permit) {
        let RawGuard { opened, permit } = guard;
        (OpenGuard { opened }, permit)
    }

    #[inline]
    fn close_value(&self, opened: OpenGuard, permit: Permit) -> RawGuard {
        let OpenGuard { opened } = opened;
        RawGuard { opened, permit }
    }

    #[inline]
    fn lock_fast(&self, token: &mut Token) -> Result<RawGuard, u64> {
        match self.lot.lock_with_permit(token, self.word) {
            Ok((opened, permit)) => Ok(RawGuard { opened, permit }),
            Err(seen) => Err(seen),
        }
    }

    #[cold]
    #[inline(never)]
    fn lock_slow<R: Wait>(&self, rt: &R, token: &mut Token, seen: u64) -> RawGuard {
        if seen == NOT_BEGUN {
            return self.lock_in_turn(rt, token);
        }
        self.lock_after(rt, token, seen)
    }

    #[inline]
    fn lot(&self) -> &ParkingLot {
        &self.lot
    }

    #[inline]
    fn unlock_fast(&self, lot: &ParkingLot, token: &mut Token, guard: RawGuard) -> Option<u64> {
        let RawGuard { opened, permit } = guard;
        let seen = lot.unlock_with_permit(token, self.word, opened, permit);
        if seen == LOCKED {
            return None;
        }
        Some(seen)
    }

    fn unlock_slow<R: Wait>(&self, rt: &R, token: &mut Token, seen: u64) {
        if seen == NOT_BEGUN {
            self.unlock_in_turn(rt, token);
        } else {
            self.unlock_after(rt, token, seen);
        }
    }

    // A step of a thread that owns the mutex twice would find a word that says so, and there is
    // none.
    fn has_two_guards(&self, token: &mut Token, one: RawGuard, other: RawGuard) -> ! {
        let lot: &ParkingLot = &self.lot;
        self.join(lot, token, one);
        self.join(lot, token, other);
        step(lot, token, self.word, Op::Load);
        unreachable!()
    }
}

impl lock_raw::RawMutexFair for RawMutex {
    #[inline]
    fn unlock_fair<R: Wait>(&self, rt: &R, token: &mut Token, guard: RawGuard) {
        if let Some(seen) = self.unlock_fair_fast(&self.lot, token, guard) {
            self.unlock_fair_after(rt, token, seen);
        }
    }

    #[inline]
    fn bump<R: Wait>(&self, rt: &R, token: &mut Token, guard: RawGuard) -> RawGuard {
        let lot: &ParkingLot = &self.lot;
        if !lot.may_begin(token) {
            self.join(lot, token, guard);
            return self.bump_slow(rt, token, NOT_BEGUN);
        }
        let seen = lot.step_word_unrecorded(token, self.word, Op::Load);
        if !is_parked(seen) {
            return guard;
        }
        self.join(lot, token, guard);
        self.bump_slow(rt, token, seen)
    }
}

impl lock_raw::RawMutexTimed for RawMutex {
    ghost gave_up = { λ mutex token. TookNobodyAt mutex.word.number (last_of token) };

    fn try_lock_for<R: Wait, C: Clock>(
        &self,
        rt: &R,
        token: &mut Token,
        clock: &C,
        timeout: Duration,
    ) -> Option<RawGuard> {
        self.lock_timed(rt, token, limit_in(clock, timeout))
    }

    #[inline]
    fn try_lock_until<R: Wait, C: Clock>(
        &self,
        rt: &R,
        token: &mut Token,
        clock: &C,
        deadline: u64,
    ) -> Option<RawGuard> {
        self.lock_timed(rt, token, Some((clock, deadline)))
    }
}
