//! Semaphores, and the permits that threads hold of them.
//!
//! A permit keeps a reference to its semaphore, so that `release` needs no more than the permit. A
//! semaphore hands nothing over: a release wakes the first waiter, which looks again and passes the
//! turn on where it fails. `available` takes the smaller of what it finds and the number of permits, so
//! that it promises any thread no more than there are.
ghost use Rattle.std.specs.Prelude.{◌≡◌, ◌≢◌, ◌⊎◌, ◌<◌, ◌≤◌, ◌*◌, ◌^◌, ◌++◌, ◌∷◌, ℕ, Bool, true, false};
ghost use Rattle.std.specs.Prelude.{if◌then◌else◌, IfNone, IfSome, MatchResult};
ghost use Rattle.std.specs.Arc.{arc_value};
ghost use Rattle.std.specs.Duration.{as_nanos};
ghost use Rattle.core_clocks.specs.Clocks.{HasElapsed, HasPassed, TimeIsUp};
ghost use Rattle.spec_locks.specs.declared.calls.Patience.TheVariants.{Patient, Timed, Try};
ghost use Rattle.spec_locks.specs.declared.calls.SemaphoreCall.TheVariants.{Acquire, Release};
ghost use Rattle.spec_locks.specs.declared.outcomes.Answer.TheVariants as answers;
ghost use Rattle.steps_semaphore.specs.SemaphoreSteps.{acquired, is_free};
ghost use Rattle.core_words.specs.Lots.{IsWordOf};
ghost use Rattle.core_words.specs.Plays.{left_over};
ghost use Rattle.core_words.specs.RightsOf.{IsHeldOf};
ghost use Rattle.core_words.specs.Steps.{has};
ghost use Rattle.core_words.specs.declared.words.WordKind.TheVariants as kinds;
ghost use Rattle.core_words.specs.declared.owners.Owner.TheVariants.{Shared};
ghost use Rattle.parking_lot_core.specs.Tokens.{IsSameThread, IsTokenOf, last_of, told_of, view_of};
ghost use Rattle.run_base.specs.Drawing.{FoundFull};
ghost use Rattle.run_base.specs.SemaphoreFitting.{SawNoneFree, permit};
ghost use Rattle.run_base.specs.Stages.{TookNobodyAt};
ghost use Rattle.run_base.specs.Telling.{owns_of, steps_of};
ghost use Rattle.run_once_and_semaphores.specs.SemaphoreCalls.{HasGone, HasReleased, HasAcquired, HasWalkedSemaphore};
ghost use Rattle.run_once_and_semaphores.specs.SemaphoreCalls.{StaysAs, permit_answer, deciding, try_place};

use crate::semaphore_calls::{
    acquire_name, acquire_slow, give, give_all, look, look_in_turn, take, try_slow, wake_first,
};
use core_base::main_key;
use parking_lot_core::{CallName, Clock, Deed, Fault, Held, Key, ParkingLot, Token, Want, Word};
use run_base::driver::FOR_EVER;
use run_base::limits::limit_in;
use spec_locks::Answer;
use std::sync::{Arc, Wait};
use std::time::Duration;
use steps_base::bits::has_parked;
use steps_semaphore::free_permits;

/// Lets so many threads at once hold a permit as it has permits. Others wait until one is given
/// back.
///
/// The word of a semaphore counts the permits that are free.
pub struct Semaphore {
    lot: Arc<ParkingLot>,
    word: Word,
    permits: u64,
    ghost drawn: { IsWordOf (arc_value lot).words word × (word.kind ≡ kinds.Semaphore permits)
        × (word.number < 9223372036854775808) },
}

// The drop is written, and not derived, so that it is proved here and not in each program.
impl Drop for Semaphore {
    fn drop(self) {
        let Semaphore {
            lot: _lot,
            word: _word,
            permits: _permits,
        } = self;
    }
}

/// A permit of a semaphore. It is spent by its release, and can't be dropped.
pub struct Permit<'a> {
    semaphore: &'a Semaphore,
    held: Held,
    ghost ours: { IsHeldOf (arc_value semaphore.now.lot).words semaphore.now.word Shared held },
}

impl Semaphore {
    ghost use Rattle.run_once_and_semaphores.specs.SemaphoreUsers.{HasMade, SawFree, lot_of, number_of, permits_of};
    ghost use Rattle.run_once_and_semaphores.specs.SemaphoreUsers.{semaphore_of, word_of};

    /// Makes a semaphore with so many permits, 1 to 2^62, all of them free.
    ///
    /// # Errors
    ///
    /// `LotFull`, and `NoMemory`. Nothing is drawn then.
    pub fn new(lot: &Arc<ParkingLot>, token: &mut Token, permits: u64) -> Result<Semaphore, Fault>
        requires token { IsTokenOf (arc_value lot.now) token.old }
        requires few { (1 ≤ permits) × (permits ≤ 2 ^ 62) }
        ensures token { IsTokenOf (arc_value lot.now) token.new × StaysAs token.old token.new }
        ensures made { MatchResult result
            (λ semaphore. (lot_of semaphore ≡ arc_value lot.now) × (permits_of semaphore ≡ permits)
            × HasMade permits semaphore token.old token.new)
            (λ fault. ((fault ≡ Fault.NoMemory) × (token.new ≡ token.old))
            ⊎ ((fault ≡ Fault.LotFull) × FoundFull (arc_value lot.now) token.old token.new)) }
    {
        let Ok(lot) = Arc::try_clone(lot) else {
            return Err(Fault::NoMemory);
        };
        let word = lot.new_semaphore(token, permits)?;
        give_all(&lot, token, word, permits);
        Ok(Semaphore { lot, word, permits })
    }

    // Does the end of a call that tried again, after an exchange that found this.
    #[cold]
    #[inline(never)]
    fn retry<'a, R: Wait>(&'a self, rt: &R, token: &mut Token, found: u64) -> Option<Permit<'a>>
        requires token { IsTokenOf (lot_of self.now) token.old }
        requires free { is_free found ≡ true }
        ensures token { IsTokenOf (lot_of self.now) token.new × StaysAs token.old token.new }
        ensures permit { IfSome result (λ permit. semaphore_of permit ≡ self.now) }
        ensures path { HasGone (number_of self.now) (try_place (number_of self.now) found)
            (permit_answer answers.Yes result) token.old token.new }
        ensures none { IfNone result (SawNoneFree (number_of self.now) (steps_of token.new)) }
    {
        let answer = try_slow(rt, &self.lot, token, self.word, found);
        if let Answer::No = answer {
            return None;
        }
        Some(self.split(token))
    }

    /// Returns the key of its queue.
    pub fn key(&self) -> Key
        ensures { result ≡ 2 * number_of self.now }
    {
        main_key(self.word.number())
    }

    /// Returns how many permits it has, free or held.
    pub fn permits(&self) -> u64
        ensures { result ≡ permits_of self.now }
    {
        self.permits
    }

    // Returns the permit of a thread that has acquired one.
    #[inline(always)]
    fn split<'a>(&'a self, token: &mut Token) -> Permit<'a>
        requires token { IsTokenOf (lot_of self.now) token.old }
        requires held { has (permit (number_of self.now)) (owns_of token.old) ≡ true }
        ensures token { IsSameThread (lot_of self.now) token.old token.new
            × (last_of token.new ≡ last_of token.old) }
        ensures left { view_of token.new
            ≡ left_over (permit (number_of self.now)) (view_of token.old) }
        ensures untold { told_of token.new ≡ told_of token.old }
        ensures permit { semaphore_of result ≡ self.now }
    {
        let held = self.lot.split_held(token, self.word, Want::Shared);
        Permit {
            semaphore: self,
            held,
        }
    }

    // Waits for a permit, up to a deadline where it is timed. The limit comes by reference, so that a
    // call which gets one at once has no room to clear for it.
    #[inline(always)]
    fn wait<'a, R: Wait, C: Clock>(
        &'a self,
        rt: &R,
        token: &mut Token,
        limit: &Option<(&C, u64)>,
        timed: bool,
    ) -> Option<Permit<'a>>
        requires { IsTokenOf (lot_of self.now) token.old }
        ensures token { IsTokenOf (lot_of self.now) token.new × StaysAs token.old token.new }
        ensures permit { IfSome result (λ permit. semaphore_of permit ≡ self.now) }
        ensures path { HasAcquired (number_of self.now) timed
            (permit_answer (acquired timed) result) token.old token.new }
        ensures left { IfNone result (TookNobodyAt (number_of self.now) (last_of token.new)) }
        ensures late { IfNone result ((timed ≡ true) × TimeIsUp C.tells limit.now) }
    {
        let lot: &ParkingLot = &self.lot;
        if !lot.may_begin(token) {
            let seen = look_in_turn(rt, lot, token, acquire_name(timed), &self.word);
            return self.wait_after(rt, token, limit, timed, seen);
        }
        let seen = look(lot, token, self.word);
        if free_permits(seen) == 0 {
            return self.wait_after(rt, token, limit, timed, seen);
        }
        let found = take(lot, token, self.word, seen);
        if found == seen {
            return Some(self.split(token));
        }
        self.wait_after(rt, token, limit, timed, found)
    }

    // Does the slow half of a call that waits, after a step that saw this.
    #[cold]
    #[inline(never)]
    fn wait_after<'a, R: Wait, C: Clock>(
        &'a self,
        rt: &R,
        token: &mut Token,
        limit: &Option<(&C, u64)>,
        timed: bool,
        seen: u64,
    ) -> Option<Permit<'a>>
        requires { IsTokenOf (lot_of self.now) token.old }
        ensures token { IsTokenOf (lot_of self.now) token.new × StaysAs token.old token.new }
        ensures permit { IfSome result (λ permit. semaphore_of permit ≡ self.now) }
        ensures path { HasGone (number_of self.now) (deciding (number_of self.now) timed seen)
            (permit_answer (acquired timed) result) token.old token.new }
        ensures left { IfNone result (TookNobodyAt (number_of self.now) (last_of token.new)) }
        ensures late { IfNone result ((timed ≡ true) × TimeIsUp C.tells limit.now) }
    {
        let answer = acquire_slow(rt, &self.lot, token, self.word, *limit, timed, seen);
        if let Answer::No = answer {
            return None;
        }
        Some(self.split(token))
    }

    /// Waits for a permit.
    #[inline(always)]
    pub fn acquire<'a, R: Wait>(&'a self, rt: &R, token: &mut Token) -> Permit<'a>
        requires { IsTokenOf (lot_of self.now) token.old }
        ensures token { IsTokenOf (lot_of self.now) token.new × StaysAs token.old token.new }
        ensures permit { semaphore_of result ≡ self.now }
        ensures path { HasWalkedSemaphore (number_of self.now) (Acquire Patient) answers.Ok
            token.old token.new }
    {
        match self.wait(rt, token, FOR_EVER, false) {
            Some(permit) => permit,
            None => unreachable!(),
        }
    }

    /// Takes a permit where one is free. None only where its last step saw none free.
    #[inline]
    pub fn try_acquire<'a, R: Wait>(&'a self, rt: &R, token: &mut Token) -> Option<Permit<'a>>
        requires { IsTokenOf (lot_of self.now) token.old }
        ensures token { IsTokenOf (lot_of self.now) token.new × StaysAs token.old token.new }
        ensures permit { IfSome result (λ permit. semaphore_of permit ≡ self.now) }
        ensures path { HasWalkedSemaphore (number_of self.now) (Acquire Try)
            (permit_answer answers.Yes result) token.old token.new }
        ensures none { IfNone result (SawNoneFree (number_of self.now) (steps_of token.new)) }
    {
        let lot: &ParkingLot = &self.lot;
        if !lot.may_begin(token) {
            let name = &Deed::Call(CallName::TryAcquire);
            let seen = look_in_turn(rt, lot, token, name, &self.word);
            if free_permits(seen) == 0 {
                return None;
            }
            return self.retry(rt, token, seen);
        }
        let seen = look(lot, token, self.word);
        if free_permits(seen) == 0 {
            return None;
        }
        let found = take(lot, token, self.word, seen);
        if found == seen {
            return Some(self.split(token));
        }
        if free_permits(found) == 0 {
            return None;
        }
        self.retry(rt, token, found)
    }

    /// Waits for a permit. None once so much time, in nanoseconds of the clock, has passed.
    ///
    /// A time that ends past all that a `u64` tells is no limit.
    pub fn try_acquire_for<'a, R: Wait, C: Clock>(
        &'a self,
        rt: &R,
        token: &mut Token,
        clock: &C,
        timeout: Duration,
    ) -> Option<Permit<'a>>
        requires { IsTokenOf (lot_of self.now) token.old }
        ensures token { IsTokenOf (lot_of self.now) token.new × StaysAs token.old token.new }
        ensures permit { IfSome result (λ permit. semaphore_of permit ≡ self.now) }
        ensures path { HasWalkedSemaphore (number_of self.now) (Acquire Timed)
            (permit_answer answers.Yes result) token.old token.new }
        ensures left { IfNone result (TookNobodyAt (number_of self.now) (last_of token.new)) }
        ensures late { IfNone result (HasElapsed (C.tells clock.now) (as_nanos timeout)) }
    {
        self.wait(rt, token, &limit_in(clock, timeout), true)
    }

    /// Waits for a permit. None once the clock has come to the deadline, in nanoseconds.
    #[inline]
    pub fn try_acquire_until<'a, R: Wait, C: Clock>(
        &'a self,
        rt: &R,
        token: &mut Token,
        clock: &C,
        deadline: u64,
    ) -> Option<Permit<'a>>
        requires { IsTokenOf (lot_of self.now) token.old }
        ensures token { IsTokenOf (lot_of self.now) token.new × StaysAs token.old token.new }
        ensures permit { IfSome result (λ permit. semaphore_of permit ≡ self.now) }
        ensures path { HasWalkedSemaphore (number_of self.now) (Acquire Timed)
            (permit_answer answers.Yes result) token.old token.new }
        ensures left { IfNone result (TookNobodyAt (number_of self.now) (last_of token.new)) }
        ensures late { IfNone result (HasPassed (C.tells clock.now) deadline) }
    {
        self.wait(rt, token, &Some((clock, deadline)), true)
    }

    /// Returns how many permits are free, by one load, and at most `permits`. The load sees no
    /// more: with those that the token's own view names they are those of the draw, which the
    /// thread that drew it knows.
    #[inline]
    pub fn available(&self, token: &mut Token) -> u64
        requires { IsTokenOf (lot_of self.now) token.old }
        ensures token { IsTokenOf (lot_of self.now) token.new × StaysAs token.old token.new }
        ensures most { result ≤ permits_of self.now }
        ensures seen { SawFree (number_of self.now) (permits_of self.now) result token.old
            token.new }
    {
        free_permits(self.lot.look_free(token, self.word)).min(self.permits)
    }
}

impl<'a> Permit<'a> {
    ghost use Rattle.run_once_and_semaphores.specs.SemaphoreUsers.{lot_of, number_of, semaphore_of};

    /// Gives the permit back, and wakes up the first waiter where a thread may be parked.
    #[inline(always)]
    pub fn release<R: Wait>(self, rt: &R, token: &mut Token)
        requires { IsTokenOf (lot_of (semaphore_of self)) token.old }
        ensures token { IsTokenOf (lot_of (semaphore_of self.entry)) token.new
            × StaysAs token.old token.new }
        ensures path { HasWalkedSemaphore (number_of (semaphore_of self.entry))
            Release answers.Ok token.old token.new }
        ensures woke { HasReleased (number_of (semaphore_of self.entry)) token.old token.new }
    {
        let Permit { semaphore, held } = self;
        let lot: &ParkingLot = &semaphore.lot;
        lot.join_held(token, semaphore.word, Want::Shared, held);
        if !lot.may_begin(token) {
            lot.turn_to_begin(rt, token, &Deed::Call(CallName::Release), &semaphore.word);
        }
        let seen = give(lot, token, semaphore.word);
        if has_parked(seen) {
            wake_first(rt, lot, token, semaphore.word);
        }
    }
}
