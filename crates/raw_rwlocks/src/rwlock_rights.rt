//! A reader-writer lock of a lot, whose rights are got, given up and turned into others.
ghost use Rattle.std.specs.Prelude.{◌≡◌, ◌⊎◌, ◌<◌, ◌≤◌, ◌+◌, ◌*◌, ◌-◌, ◌^◌, ◌++◌, ◌∷◌, [], ℕ, true, IfErr};
ghost use Rattle.std.specs.Prelude.{IfNone, IfOk, IfSome, MatchOption, MatchResult};
ghost use Rattle.std.specs.Arc.{arc_value};
ghost use Rattle.lock_raw.specs.Answers.{IsRefusal, answer_by, reading_answer};
ghost use Rattle.core_clocks.specs.Clocks.{TimeIsUp};
ghost use Rattle.core_base.specs.declared.ops.Op.TheVariants.{Load};
ghost use Rattle.core_base.specs.declared.wants.Want.TheVariants.{Exclusive, Upgradable};
ghost use Rattle.spec_locks.specs.declared.calls.Access.TheVariants as access;
ghost use Rattle.spec_locks.specs.declared.calls.Patience.TheVariants.{Try};
ghost use Rattle.spec_locks.specs.declared.calls.RwLockCall.TheVariants as fair_calls;
ghost use Rattle.steps_rwlock.specs.declared.purposes.RwLockPurpose.TheVariants.{Enter, Release, Upgrade};
ghost use Rattle.steps_rwlock.specs.declared.purposes.RwLockPurpose.TheVariants as purposes_of;
ghost use Rattle.spec_locks.specs.declared.outcomes.Answer.TheVariants.{Ok as ok};
ghost use Rattle.steps_rwlock.specs.RwLockSteps.{from_of, to_of, wanted};
ghost use Rattle.core_words.specs.Lots.{IsWordOf};
ghost use Rattle.core_words.specs.Plays.{left_over, piece, takes_in};
ghost use Rattle.core_words.specs.Rights.{owner_for};
ghost use Rattle.core_words.specs.Steps.{CodesWith, has};
ghost use Rattle.core_words.specs.Views.{owning};
ghost use Rattle.core_words.specs.declared.words.WordKind.TheVariants.{RwLock};
ghost use Rattle.run_base.specs.Drawing.{Drew, FoundFull};
ghost use Rattle.parking_lot_core.specs.Tokens.{IsTokenOf, IsSameThread, view_of, last_of, told_of};
ghost use Rattle.run_base.specs.Paths.{rwlock_at, step};
ghost use Rattle.run_base.specs.RwLockCalls.{Exclude, HasWalkedCall, HasWalkedRwLock, IsRwLockRight};
ghost use Rattle.run_base.specs.RwLockCalls.{ReleasesFairly, StaysBeside, WakesBy, entry_answer};
ghost use Rattle.run_base.specs.RwLockCalls.{turn_answer};
ghost use Rattle.run_base.specs.RwLockFitting.{IsCounted, MayGiveUp};
ghost use Rattle.run_locks.specs.RwLockRefusals.{LeftGivingUp, SawReadersFull};
ghost use Rattle.run_base.specs.Telling.{owns_of, steps_of};
ghost use Rattle.parking_lot_core.specs.declared.tokens.Token.{Token};
ghost use Rattle.run_locks.specs.Halves.{HasBegunRwLock, HasEndedRwLock};

use core_base::{main_key, second_key};
use core_words::LotWords;
use parking_lot_core::{
    CallName, Clock, Deed, Fault, Held, Key, Op, ParkingLot, Sort, Token, Want, Word, WordKind,
};
use run_base::driver::{FOR_EVER, first_step};
use run_locks::rwlock_calls::{SlowPart, call, call_fast, call_in_turn, call_slow, missed};
use run_locks::rwlock_courses::{Settings, greater, lesser};
use run_locks::rwlock_fair_calls::{bump, release_exclusive, release_upgradable};
use spec_locks::{Access, Answer, Downgrade, Patience};
use std::sync::{Arc, Wait};
use steps_rwlock::places::WRITER;
use steps_rwlock::purposes::wanted;
use steps_rwlock::{Admission, RwLockPurpose};

// Takes a word that is 0.
const ENTER: Op = Op::Exchange {
    from: 0,
    to: WRITER,
};

/// A reader-writer lock of a lot, as clauses see it.
pub struct LotRwLock {
    lot: Arc<ParkingLot>,
    word: Word,
    settings: Settings,
    ghost drawn: { IsWordOf (arc_value lot).words word × (word.kind ≡ RwLock)
        × (word.number < 9223372036854775808)
        × (settings.admission.limit < 2 ^ 60 - 1) },
}

// The drop is written, and not derived, so that it is proved here and not in each program.
impl Drop for LotRwLock {
    fn drop(self) {
        let LotRwLock {
            lot: _lot,
            word: _word,
            settings: _settings,
        } = self;
    }
}

impl LotRwLock {
    ghost use Rattle.raw_rwlocks.specs.RwLockUsers.{admission_in, lot_in, word_in};
    ghost use Rattle.raw_rwlocks.specs.RwLockHalves.{HasBegunRelease, HasEntered, HasReleased};

    pub(crate) fn with_limit(
        lot: &Arc<ParkingLot>,
        token: &mut Token,
        recursive: bool,
        limit: u64,
    ) -> Result<LotRwLock, Fault>
        requires token { IsTokenOf (arc_value lot.now) token.old }
        requires limit { limit ≤ 1152921504606846974 }
        ensures token { IsTokenOf (arc_value lot.now) token.new
            × (token.new.number ≡ token.old.number)
            × (owns_of token.new ≡ owns_of token.old) }
        ensures made { MatchResult result
            (λ lock. (lot_in lock ≡ arc_value lot.now) × ((admission_in lock).recursive ≡ recursive)
            × ((admission_in lock).limit ≡ limit))
            (IsRefusal (FoundFull (arc_value lot.now)) token.old token.new) }
        ensures drawn { IfOk result
            (λ lock. Drew RwLock (lot_in lock) (word_in lock) token.old token.new) }
    {
        let Ok(lot) = Arc::try_clone(lot) else {
            return Err(Fault::NoMemory);
        };
        let word = lot.new_word(token, WordKind::RwLock)?;
        let readers = Some(limit);
        lot.declares(word, Sort::RwLock { recursive, readers });
        let settings = Settings::new(Admission { recursive, limit });
        Ok(LotRwLock {
            lot,
            word,
            settings,
        })
    }

    pub(crate) fn key(&self) -> Key
        ensures { result ≡ 2 * (word_in self.now).number }
    {
        main_key(self.word.number())
    }

    pub(crate) fn second_key(&self) -> Key
        ensures { result ≡ 2 * (word_in self.now).number + 1 }
    {
        second_key(self.word.number())
    }

    /// Returns the words of its lot.
    #[inline]
    pub(crate) fn words(&self) -> &LotWords
        ensures { result.now ≡ (lot_in self.now).words }
    {
        self.lot.words()
    }

    /// Returns the word of a right, which is one of these.
    #[inline]
    pub(crate) fn word(&self) -> Word
        ensures { (result ≡ word_in self.now) × IsWordOf (lot_in self.now).words result
            × (result.kind ≡ RwLock) }
    {
        self.word
    }

    #[inline(always)]
    fn split(&self, lot: &ParkingLot, token: &mut Token, want: Want) -> Held
        requires lot { lot.now ≡ lot_in self.now }
        requires own { IsTokenOf (lot_in self.now) token.old }
        requires held { has (owning (rwlock_at (word_in self.now).number) (owner_for want))
            (owns_of token.old) ≡ true }
        ensures own { IsSameThread (lot_in self.now) token.old token.new
            × (last_of token.new ≡ last_of token.old) }
        ensures untold { told_of token.new ≡ told_of token.old }
        ensures left { view_of token.new
            ≡ left_over (owning (rwlock_at (word_in self.now).number) (owner_for want))
            (view_of token.old) }
        ensures right { IsRwLockRight (lot_in self.now) (word_in self.now) (owner_for want) result }
    {
        lot.split_held(token, self.word, want)
    }

    // Spends a right: the token owns it then.
    #[inline(always)]
    fn join(&self, lot: &ParkingLot, token: &mut Token, want: Want, right: Held)
        requires lot { lot.now ≡ lot_in self.now }
        requires own { IsTokenOf (lot_in self.now) token.old }
        requires right { IsRwLockRight (lot_in self.now) (word_in self.now) (owner_for want) right }
        ensures own { IsSameThread (lot_in self.now) token.old token.new
            × (last_of token.new ≡ last_of token.old) }
        ensures untold { told_of token.new ≡ told_of token.old }
        ensures joined { view_of token.new
            ≡ takes_in (view_of token.old)
            (piece (owning (rwlock_at (word_in self.now).number) (owner_for want))) }
    {
        lot.join_held(token, self.word, want, right);
    }

    // Gives the result of a call to enter that is over with this answer.
    #[inline(always)]
    fn entered<C: Clock>(
        &self,
        lot: &ParkingLot,
        token: &mut Token,
        _limit: &Option<(&C, u64)>,
        access: Access,
        _patience: Patience,
        answer: Answer,
    ) -> Result<Option<Held>, Fault>
        requires lot { lot.now ≡ lot_in self.now }
        requires own { IsTokenOf (lot_in self.now) token.old }
        requires ended { (before : Token) × HasEndedRwLock (TimeIsUp C.tells _limit.now) (word_in self.now)
            (admission_in self.now) (Enter access _patience) answer before token.old }
        ensures own { IsTokenOf (lot_in self.now) token.new }
        ensures entered { (before : Token)
            → HasEndedRwLock (TimeIsUp C.tells _limit.now) (word_in self.now) (admission_in self.now)
            (Enter access _patience) answer before token.old
            → HasEntered (TimeIsUp C.tells _limit.now) self.now access _patience result
            before token.new }
    {
        match answer {
            Answer::Ok | Answer::Yes => Ok(Some(self.split(lot, token, wanted(access)))),
            Answer::No => Ok(None),
            _ => Err(Fault::ReadersFull),
        }
    }

    /// Does the fast half of `enter`: all of it, where the thread meets nobody. Else it answers
    /// what is left to `enter_slow`.
    #[inline(always)]
    pub(crate) fn enter_fast<C: Clock>(
        &self,
        token: &mut Token,
        limit: &Option<(&C, u64)>,
        access: Access,
        patience: Patience,
    ) -> Result<Result<Option<Held>, Fault>, SlowPart>
        requires { IsTokenOf (lot_in self.now) token.old }
        ensures own { IsTokenOf (lot_in self.now) token.new }
        ensures over { MatchResult result
            (λ entered. HasEntered (TimeIsUp C.tells limit.now) self.now access patience entered
            token.old token.new)
            (λ rest. HasBegunRwLock (word_in self.now) (admission_in self.now) (Enter access patience)
            rest token.old token.new) }
    {
        let lot: &ParkingLot = &self.lot;
        let purpose = RwLockPurpose::Enter { access, patience };
        match call_fast(lot, token, &self.word, &self.settings, limit, purpose) {
            Ok(answer) => Ok(self.entered(lot, token, limit, access, patience, answer)),
            Err(rest) => Err(rest),
        }
    }

    /// Does the slow half of `enter`.
    #[inline(always)]
    pub(crate) fn enter_slow<R: Wait, C: Clock>(
        &self,
        rt: &R,
        token: &mut Token,
        limit: &Option<(&C, u64)>,
        access: Access,
        patience: Patience,
        rest: SlowPart,
    ) -> Result<Option<Held>, Fault>
        requires own { IsTokenOf (lot_in self.now) token.old }
        requires begun { (before : Token) × HasBegunRwLock (word_in self.now) (admission_in self.now)
            (Enter access patience) rest before token.old }
        ensures own { IsTokenOf (lot_in self.now) token.new }
        ensures entered { (before : Token)
            → HasBegunRwLock (word_in self.now) (admission_in self.now) (Enter access patience) rest
            before token.old
            → HasEntered (TimeIsUp C.tells limit.now) self.now access patience result
            before token.new }
    {
        let lot: &ParkingLot = &self.lot;
        let (word, admission) = (&self.word, &self.settings.admission);
        let purpose = RwLockPurpose::Enter { access, patience };
        match rest {
            SlowPart::GoesOn(seen) => {
                let answer = call_slow(rt, lot, token, word, admission, limit, purpose, seen);
                self.entered(lot, token, limit, access, patience, answer)
            }
            SlowPart::Missed { seen, found } => {
                let answer = missed(rt, lot, token, word, admission, limit, purpose, seen, found);
                self.entered(lot, token, limit, access, patience, answer)
            }
            SlowPart::NotBegun => {
                let answer = call_in_turn(rt, lot, token, word, &self.settings, limit, purpose);
                self.entered(lot, token, limit, access, patience, answer)
            }
        }
    }

    /// Waits for a right: for ever, up to the limit, or not at all. None only where a try finds the
    /// lock blocked, or the time is up.
    ///
    /// # Errors
    ///
    /// `ReadersFull`, where a thread that would read finds as many readers as there may be.
    #[inline(always)]
    pub(crate) fn enter<R: Wait, C: Clock>(
        &self,
        rt: &R,
        token: &mut Token,
        limit: &Option<(&C, u64)>,
        access: Access,
        patience: Patience,
    ) -> Result<Option<Held>, Fault>
        requires { IsTokenOf (lot_in self.now) token.old }
        ensures token { IsTokenOf (lot_in self.now) token.new
            × StaysBeside (word_in self.now).number token.old token.new }
        ensures right { MatchResult result
            (λ entered. IfSome entered
            (IsRwLockRight (lot_in self.now) (word_in self.now) (owner_for (wanted access))))
            (λ fault. fault ≡ Fault.ReadersFull) }
        ensures path { HasWalkedRwLock (word_in self.now).number (admission_in self.now)
            (Enter access patience)
            (entry_answer patience result) token.old token.new }
        ensures late { IfOk result
            (λ entered. IfNone entered (MayGiveUp (TimeIsUp C.tells limit.now) patience)) }
        ensures counted { IfErr result (λ fault. IsCounted access) }
        ensures full { IfErr result
            (λ fault. SawReadersFull (word_in self.now).number
            (admission_in self.now) access token.old token.new) }
        ensures left { IfOk result (λ entered. IfNone entered
            (LeftGivingUp (word_in self.now).number (admission_in self.now)
            (Enter access patience) token.new)) }
    {
        match self.enter_fast(token, limit, access, patience) {
            Ok(entered) => entered,
            Err(rest) => self.enter_slow(rt, token, limit, access, patience, rest),
        }
    }

    /// Takes a word that is 0, by one step.
    #[inline(always)]
    pub(crate) fn try_enter_alone(&self, token: &mut Token) -> Option<Held>
        requires { IsTokenOf (lot_in self.now) token.old }
        ensures token { IsTokenOf (lot_in self.now) token.new
            × StaysBeside (word_in self.now).number token.old token.new }
        ensures right { IfSome result
            (IsRwLockRight (lot_in self.now) (word_in self.now) (owner_for Exclusive)) }
        ensures path { HasWalkedRwLock (word_in self.now).number (admission_in self.now)
            (Enter access.Exclusive Try)
            (answer_by result) token.old token.new }
    {
        let lot: &ParkingLot = &self.lot;
        let name = &Deed::Call(CallName::TryWrite);
        let seen = first_step(lot, token, name, self.word, ENTER);
        if seen == 0 {
            return Some(self.split(lot, token, Want::Exclusive));
        }
        None
    }

    /// Does the fast half of a release: all of it, where there is nobody to wake. Else it answers
    /// what is left to `release_slow`.
    #[inline(always)]
    pub(crate) fn release_fast(
        &self,
        token: &mut Token,
        access: Access,
        right: Held,
    ) -> Option<SlowPart>
        requires token { IsTokenOf (lot_in self.now) token.old }
        requires right { IsRwLockRight (lot_in self.now) (word_in self.now)
            (owner_for (wanted access)) right }
        ensures own { IsTokenOf (lot_in self.now) token.new }
        ensures over { MatchOption result (HasReleased self.now access token.old token.new)
            (λ rest. HasBegunRelease self.now access rest token.old token.new) }
    {
        let lot: &ParkingLot = &self.lot;
        self.join(lot, token, wanted(access), right);
        let purpose = RwLockPurpose::Release(access);
        match call_fast(lot, token, &self.word, &self.settings, FOR_EVER, purpose) {
            Ok(_answer) => None,
            Err(rest) => Some(rest),
        }
    }

    /// The slow half of a release.
    #[inline(always)]
    pub(crate) fn release_slow<R: Wait>(
        &self,
        rt: &R,
        token: &mut Token,
        access: Access,
        rest: SlowPart,
    )
        requires own { IsTokenOf (lot_in self.now) token.old }
        requires begun { (before : Token) × HasBegunRelease self.now access rest
            before token.old }
        ensures own { IsTokenOf (lot_in self.now) token.new }
        ensures over { (before : Token) → HasBegunRelease self.now access rest before token.old
            → HasReleased self.now access before token.new }
    {
        let lot: &ParkingLot = &self.lot;
        let (word, admission) = (&self.word, &self.settings.admission);
        let purpose = RwLockPurpose::Release(access);
        match rest {
            SlowPart::GoesOn(seen) => {
                call_slow(rt, lot, token, word, admission, FOR_EVER, purpose, seen);
            }
            SlowPart::Missed { seen, found } => {
                missed(
                    rt, lot, token, word, admission, FOR_EVER, purpose, seen, found,
                );
            }
            SlowPart::NotBegun => {
                call_in_turn(rt, lot, token, word, &self.settings, FOR_EVER, purpose);
            }
        }
    }

    /// Gives a right up, and wakes the threads that this lets in.
    #[inline(always)]
    pub(crate) fn release<R: Wait>(&self, rt: &R, token: &mut Token, access: Access, right: Held)
        requires token { IsTokenOf (lot_in self.now) token.old }
        requires right { IsRwLockRight (lot_in self.now) (word_in self.now)
            (owner_for (wanted access)) right }
        ensures token { IsTokenOf (lot_in self.now) token.new
            × StaysBeside (word_in self.now).number token.old token.new }
        ensures path { HasWalkedRwLock (word_in self.now).number (admission_in self.now)
            (Release access) ok token.old token.new }
        ensures record { WakesBy (word_in self.now).number (admission_in self.now)
            (Release access) token.old token.new }
    {
        if let Some(rest) = self.release_fast(token, access, right) {
            self.release_slow(rt, token, access, rest);
        }
    }

    /// Gives the exclusive right up, and hands the lock to those that wait.
    #[inline(always)]
    pub(crate) fn release_exclusive_fair<R: Wait>(&self, rt: &R, token: &mut Token, right: Held)
        requires token { IsTokenOf (lot_in self.now) token.old }
        requires right { IsRwLockRight (lot_in self.now) (word_in self.now)
            (owner_for Exclusive) right }
        ensures token { IsTokenOf (lot_in self.now) token.new
            × StaysBeside (word_in self.now).number token.old token.new }
        ensures path { HasWalkedCall (word_in self.now).number (admission_in self.now)
            (fair_calls.ReleaseFair access.Exclusive) ok token.old token.new }
        ensures record { ReleasesFairly (word_in self.now).number
            (admission_in self.now) access.Exclusive token.old token.new }
    {
        let lot: &ParkingLot = &self.lot;
        self.join(lot, token, Want::Exclusive, right);
        release_exclusive(rt, lot, token, &self.word, &self.settings.admission);
    }

    /// Gives the upgradable right up, and hands the lock to those that wait.
    pub(crate) fn release_upgradable_fair<R: Wait>(&self, rt: &R, token: &mut Token, right: Held)
        requires token { IsTokenOf (lot_in self.now) token.old }
        requires right { IsRwLockRight (lot_in self.now) (word_in self.now)
            (owner_for Upgradable) right }
        ensures token { IsTokenOf (lot_in self.now) token.new
            × StaysBeside (word_in self.now).number token.old token.new }
        ensures path { HasWalkedCall (word_in self.now).number (admission_in self.now)
            (fair_calls.ReleaseFair access.Upgradable) ok token.old token.new }
        ensures record { ReleasesFairly (word_in self.now).number
            (admission_in self.now) access.Upgradable token.old token.new }
    {
        let lot: &ParkingLot = &self.lot;
        self.join(lot, token, Want::Upgradable, right);
        release_upgradable(rt, lot, token, &self.word, &self.settings.admission);
    }

    /// Gives a right up where others wait for it, and waits for it again.
    ///
    /// # Errors
    ///
    /// `ReadersFull`, where it finds as many readers as there may be then.
    #[inline(always)]
    pub(crate) fn bump<R: Wait>(
        &self,
        rt: &R,
        token: &mut Token,
        access: Access,
        right: Held,
    ) -> Result<Held, Fault>
        requires token { IsTokenOf (lot_in self.now) token.old }
        requires right { IsRwLockRight (lot_in self.now) (word_in self.now)
            (owner_for (wanted access)) right }
        ensures token { IsTokenOf (lot_in self.now) token.new
            × StaysBeside (word_in self.now).number token.old token.new }
        ensures right { MatchResult result
            (IsRwLockRight (lot_in self.now) (word_in self.now) (owner_for (wanted access)))
            (λ fault. fault ≡ Fault.ReadersFull) }
        ensures path { HasWalkedCall (word_in self.now).number (admission_in self.now)
            (fair_calls.Bump access)
            (reading_answer result) token.old token.new }
        ensures counted { IfErr result (λ fault. IsCounted access) }
        ensures full { IfErr result
            (λ fault. SawReadersFull (word_in self.now).number
            (admission_in self.now) access token.old token.new) }
    {
        let lot: &ParkingLot = &self.lot;
        self.join(lot, token, wanted(access), right);
        match bump(rt, lot, token, &self.word, &self.settings.admission, access) {
            Answer::Ok => Ok(self.split(lot, token, wanted(access))),
            _ => Err(Fault::ReadersFull),
        }
    }

    /// Turns a right into a lesser one, and wakes the threads that this lets in.
    #[inline(always)]
    pub(crate) fn downgrade<R: Wait>(
        &self,
        rt: &R,
        token: &mut Token,
        downgrade: Downgrade,
        right: Held,
    ) -> Held
        requires token { IsTokenOf (lot_in self.now) token.old }
        requires right { IsRwLockRight (lot_in self.now) (word_in self.now)
            (owner_for (wanted (from_of downgrade))) right }
        ensures token { IsTokenOf (lot_in self.now) token.new
            × StaysBeside (word_in self.now).number token.old token.new }
        ensures right { IsRwLockRight (lot_in self.now) (word_in self.now)
            (owner_for (wanted (to_of downgrade))) result }
        ensures path { HasWalkedRwLock (word_in self.now).number (admission_in self.now)
            (purposes_of.Downgrade downgrade) ok token.old token.new }
        ensures record { WakesBy (word_in self.now).number (admission_in self.now)
            (purposes_of.Downgrade downgrade) token.old token.new }
    {
        let lot: &ParkingLot = &self.lot;
        self.join(lot, token, greater(downgrade), right);
        call(
            rt,
            lot,
            token,
            &self.word,
            &self.settings,
            FOR_EVER,
            RwLockPurpose::Downgrade(downgrade),
        );
        self.split(lot, token, lesser(downgrade))
    }

    /// Turns the upgradable right into the exclusive one: for ever, up to the limit, or not at all.
    ///
    /// # Errors
    ///
    /// The right, where a try finds other readers, or the time is up.
    #[inline(always)]
    pub(crate) fn upgrade<R: Wait, C: Clock>(
        &self,
        rt: &R,
        token: &mut Token,
        limit: &Option<(&C, u64)>,
        patience: Patience,
        right: Held,
    ) -> Result<Held, Held>
        requires token { IsTokenOf (lot_in self.now) token.old }
        requires right { IsRwLockRight (lot_in self.now) (word_in self.now)
            (owner_for Upgradable) right }
        ensures token { IsTokenOf (lot_in self.now) token.new
            × StaysBeside (word_in self.now).number token.old token.new }
        ensures right { MatchResult result
            (IsRwLockRight (lot_in self.now) (word_in self.now) (owner_for Exclusive))
            (IsRwLockRight (lot_in self.now) (word_in self.now) (owner_for Upgradable)) }
        ensures path { HasWalkedRwLock (word_in self.now).number (admission_in self.now)
            (Upgrade patience)
            (turn_answer patience result) token.old token.new }
        ensures late { IfErr result (λ right. MayGiveUp (TimeIsUp C.tells limit.now) patience) }
        ensures left { IfErr result
            (λ right. LeftGivingUp (word_in self.now).number (admission_in self.now)
            (Upgrade patience) token.new) }
    {
        let lot: &ParkingLot = &self.lot;
        self.join(lot, token, Want::Upgradable, right);
        let answer = call(
            rt,
            lot,
            token,
            &self.word,
            &self.settings,
            limit,
            RwLockPurpose::Upgrade(patience),
        );
        match answer {
            Answer::No => Err(self.split(lot, token, Want::Upgradable)),
            _ => Ok(self.split(lot, token, Want::Exclusive)),
        }
    }

    /// Takes one load of the word.
    #[inline(always)]
    pub(crate) fn load(&self, token: &mut Token) -> u64
        requires { IsTokenOf (lot_in self.now) token.old }
        ensures token { IsTokenOf (lot_in self.now) token.new
            × StaysBeside (word_in self.now).number token.old token.new }
        ensures saw { steps_of token.new
            ≡ steps_of token.old ++ step (rwlock_at (word_in self.now).number) Load result }
        ensures coded { CodesWith RwLock (rwlock_at (word_in self.now).number) result
            (owns_of token.old) }
    {
        first_step(&self.lot, token, &Deed::Look, self.word, Op::Load)
    }

    // A step of a thread that had both rights would find a word that says so, and there is none.
    pub(crate) fn has_both(
        &self,
        token: &mut Token,
        want: Want,
        one: Held,
        other_want: Want,
        other: Held,
    ) -> !
        requires token { IsTokenOf (lot_in self.now) token.old }
        requires one { IsRwLockRight (lot_in self.now) (word_in self.now) (owner_for want) one }
        requires other { IsRwLockRight (lot_in self.now) (word_in self.now)
            (owner_for other_want) other }
        requires exclude { Exclude (owner_for want) (owner_for other_want) }
    {
        let lot: &ParkingLot = &self.lot;
        self.join(lot, token, want, one);
        self.join(lot, token, other_want, other);
        self.load(token);
        unreachable!()
    }
}
