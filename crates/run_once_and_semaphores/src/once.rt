//! `Once`, and its calls.
//!
//! A call is two halves round its closure. Nothing of the driver is kept while the closure runs: that
//! its run is on is an ownership of the thread (`OwnsRun`), which the end of the run gives up. A thread
//! that has found a `Once` done has an ownership that is never given up (`Witness`).
ghost use Rattle.std.specs.Prelude.{◌≡◌, ◌≢◌, ◌⊎◌, ◌<◌, ◌*◌, ◌∷◌, [], ℕ, List, None, true, false, IfErr};
ghost use Rattle.std.specs.Prelude.{IfOk, MatchResult};
ghost use Rattle.std.specs.Arc.{arc_value};
ghost use Rattle.std.specs.Duration.{as_nanos};
ghost use Rattle.spec_locks.specs.Codes.{is_done};
ghost use Rattle.core_clocks.specs.Clocks.{HasElapsed, HasPassed, TimeIsUp};
ghost use Rattle.spec_locks.specs.declared.calls.OnceCall.TheVariants as calls;
ghost use Rattle.spec_locks.specs.declared.outcomes.Answer.TheVariants as answers;
ghost use Rattle.core_words.specs.Draws.{IsDrawn, IsDrawRefused};
ghost use Rattle.core_words.specs.Lots.{IsWordOf};
ghost use Rattle.core_words.specs.declared.words.WordKind.TheVariants as kinds;
ghost use Rattle.core_words.specs.declared.owners.Ownership.{Ownership};
ghost use Rattle.parking_lot_core.specs.Tokens.{IsTokenOf, last_of, view_of};
ghost use Rattle.run_base.specs.Drawing.{FoundFull};
ghost use Rattle.run_base.specs.OnceFitting.{OwnsAfter, OwnsKnowing, OwnsRun};
ghost use Rattle.run_base.specs.Stages.{TookNobodyAt};
ghost use Rattle.run_base.specs.Courses.{trail_of};
ghost use Rattle.run_base.specs.Telling.{owns_of, steps_of};
ghost use Rattle.parking_lot_core.specs.declared.tokens.Token.{Token};
ghost use Rattle.run_once_and_semaphores.specs.OnceCalls.{EndedAndWoke, EndsRun, HasLookedFirst};
ghost use Rattle.run_once_and_semaphores.specs.Looks.{CameTo, FoundDone, came_by};

use crate::once_calls::{Look, begin, begin_slow, call_name, close};
use core_base::main_key;
use core_words::laws::once_may_step;
use parking_lot_core::{Clock, Fault, Key, Op, ParkingLot, Sort, Token, Word, WordKind};
use run_base::driver::FOR_EVER;
use run_base::limits::limit_in;
use spec_locks::{Answer, OnceCall, OnceState};
use std::sync::{Arc, Wait};
use std::time::Duration;
use steps_base::bits::{is_done, is_poisoned, is_running};
use steps_once::{DONE, LOCKED};
use thiserror::Error;

/// Why a call of a `Once` came to no end that is done.
#[derive(Debug, Drop, Error)]
pub enum OnceFault<E> {
    /// An earlier run failed, and the call was not one that forces a further one.
    #[error("{0}")]
    Refused(Fault),
    /// The call's own closure failed, and leaves the `Once` poisoned.
    #[error("the closure failed, and the Once instance is poisoned")]
    Failed(E),
}

// The end of the rest of a call: in a register, so that the first step has no local to clear for
// it.
pub(crate) enum Came {
    Done,
    Poisoned,
    /// The time of its wait was up.
    Late,
    Runs(OnceState),
}

/// Runs one closure of all that are brought to it. A thread that calls beside that run waits for
/// its end.
///
/// A closure that answers an error leaves it poisoned: then it runs a closure again for
/// `call_once_force` alone.
pub struct Once {
    lot: Arc<ParkingLot>,
    word: Word,
    ghost drawn: { IsWordOf (arc_value lot).words word × (word.kind ≡ kinds.Once)
        × (word.number < 9223372036854775808) },
}

// The drop is written, and not derived, so that it is proved here and not in each program.
impl Drop for Once {
    fn drop(self) {
        let Once {
            lot: _lot,
            word: _word,
        } = self;
    }
}

fn came_by(answer: Answer) -> Came
    ensures { result ≡ came_by answer }
{
    match answer {
        Answer::Ok | Answer::Yes => Came::Done,
        Answer::No => Came::Late,
        _ => Came::Poisoned,
    }
}

impl Once {
    ghost use Rattle.run_once_and_semaphores.specs.Ran.{CalledOnce, DrewUsed, RanNothing, Loaded, MissedStart, SawDone};
    ghost use Rattle.run_once_and_semaphores.specs.Ran.{StaysKnowing, Waited, state_of, deadline_answer};
    ghost use Rattle.run_once_and_semaphores.specs.OnceUsers.{lot_of, number_of};

    /// Makes a `Once` that has run nothing.
    ///
    /// # Errors
    ///
    /// `LotFull`, and `NoMemory`. Nothing is drawn then.
    pub fn new(lot: &Arc<ParkingLot>, token: &mut Token) -> Result<Once, Fault>
        requires { IsTokenOf (arc_value lot.now) token.old }
        ensures token { IsTokenOf (arc_value lot.now) token.new
            × (token.new.number ≡ token.old.number)
            × ((view_of token.new).owns ≡ (view_of token.old).owns) }
        ensures made { MatchResult result (λ once. lot_of once ≡ arc_value lot.now)
            (λ fault. (fault ≡ Fault.NoMemory) ⊎ (fault ≡ Fault.LotFull)) }
        ensures drawn { MatchResult result
            (λ once. IsDrawn (arc_value lot.now).words.count (kinds.Once ∷ []) (number_of once)
            (view_of token.old)
            (view_of token.new))
            (λ fault. ((fault ≡ Fault.NoMemory) × (token.new ≡ token.old))
            ⊎ ((fault ≡ Fault.LotFull)
            × IsDrawRefused (arc_value lot.now).words.count 1 (view_of token.old)
            (view_of token.new))) }
    {
        let Ok(lot) = Arc::try_clone(lot) else {
            return Err(Fault::NoMemory);
        };
        let word = lot.new_word(token, WordKind::Once)?;
        Ok(Once { lot, word })
    }

    // Takes the word of a new `Once` to the end of a run. Whether nobody was there before.
    fn complete(&self, token: &mut Token) -> bool
        requires { IsTokenOf (lot_of self.now) token.old }
        ensures token { IsTokenOf (lot_of self.now) token.new
            × (token.new.number ≡ token.old.number) }
        ensures done { result ≡ true → SawDone (number_of self.now) token.old token.new }
        ensures missed { result ≡ false → MissedStart (number_of self.now) token.old token.new
            × OwnsKnowing (number_of self.now) (owns_of token.old) (owns_of token.new) }
    {
        let start = Op::Exchange {
            from: 0,
            to: LOCKED,
        };
        let seen = self.lot.step_word(token, self.word, start);
        if seen != 0 {
            return false;
        }
        let _running = self.lot.step_word(token, self.word, Op::Swap(DONE));
        self.lot.declares(self.word, Sort::DoneOnce);
        true
    }

    /// Makes a `Once` that is done, and runs nothing.
    ///
    /// # Errors
    ///
    /// `NoMemory`, and `LotFull`, also where somebody stepped on the word before, as nobody does
    /// whose word it isn't.
    pub fn new_completed(lot: &Arc<ParkingLot>, token: &mut Token) -> Result<Once, Fault>
        requires { IsTokenOf (arc_value lot.now) token.old }
        ensures token { IsTokenOf (arc_value lot.now) token.new
            × (token.new.number ≡ token.old.number) }
        ensures made { MatchResult result
            (λ once. (lot_of once ≡ arc_value lot.now)
            × SawDone (number_of once) token.old token.new)
            (λ fault. ((fault ≡ Fault.NoMemory) × (token.new ≡ token.old))
            ⊎ ((fault ≡ Fault.LotFull)
            × (FoundFull (arc_value lot.now) token.old token.new
            ⊎ DrewUsed (arc_value lot.now) token.old token.new))) }
        ensures stays { MatchResult result
            (λ once. StaysKnowing (number_of once) token.old token.new)
            (λ _. (number : ℕ) × StaysKnowing number token.old token.new) }
    {
        let once = Once::new(lot, token)?;
        if once.complete(token) {
            Ok(once)
        } else {
            Err(Fault::LotFull)
        }
    }

    /// Returns the key of its queue.
    pub fn key(&self) -> Key
        ensures { result ≡ 2 * number_of self.now }
    {
        main_key(self.word.number())
    }

    // Takes one load of its word.
    #[inline]
    fn load(&self, token: &mut Token) -> u64
        requires { IsTokenOf (lot_of self.now) token.old }
        ensures token { IsTokenOf (lot_of self.now) token.new
            × StaysKnowing (number_of self.now) token.old token.new }
        ensures loaded { Loaded (number_of self.now) result token.old token.new }
        ensures done { is_done result ≡ true → SawDone (number_of self.now) token.old token.new }
    {
        once_may_step();
        self.lot.load(token, self.word)
    }

    /// Returns how far it has come.
    #[inline]
    pub fn state(&self, token: &mut Token) -> OnceState
        requires { IsTokenOf (lot_of self.now) token.old }
        ensures token { IsTokenOf (lot_of self.now) token.new
            × StaysKnowing (number_of self.now) token.old token.new }
        ensures seen { (seen : ℕ) × Loaded (number_of self.now) seen token.old token.new
            × (result ≡ state_of seen) }
    {
        let seen = self.load(token);
        if is_done(seen) {
            OnceState::Done
        } else if is_running(seen) {
            OnceState::InProgress
        } else if is_poisoned(seen) {
            OnceState::Poisoned
        } else {
            OnceState::New
        }
    }

    /// Returns whether a run has succeeded.
    #[inline]
    pub fn is_completed(&self, token: &mut Token) -> bool
        requires { IsTokenOf (lot_of self.now) token.old }
        ensures token { IsTokenOf (lot_of self.now) token.new
            × StaysKnowing (number_of self.now) token.old token.new }
        ensures seen { (seen : ℕ) × Loaded (number_of self.now) seen token.old token.new
            × (result ≡ is_done seen) }
        ensures done { result ≡ true → SawDone (number_of self.now) token.old token.new }
    {
        is_done(self.load(token))
    }

    // Takes the step with which each call begins, in its turn where a director says when the thread
    // runs.
    #[inline]
    pub(crate) fn begin<R: Wait>(&self, rt: &R, token: &mut Token, call: OnceCall) -> u64
        requires { IsTokenOf (lot_of self.now) token.old }
        ensures token { IsTokenOf (lot_of self.now) token.new }
        ensures seen { HasLookedFirst (number_of self.now) result token.old token.new }
        ensures done { is_done result ≡ true → FoundDone (number_of self.now) token.old token.new }
    {
        let lot: &ParkingLot = &self.lot;
        if !lot.may_begin(token) {
            lot.turn_to_begin(rt, token, call_name(call), &self.word);
        }
        begin(lot, token, self.word)
    }

    // Does the rest of a call whose first step saw this, up to its end or its closure. The limit
    // comes by reference, so that a call which is done has no room to clear for it.
    #[cold]
    #[inline(never)]
    pub(crate) fn go_on<R: Wait, C: Clock>(
        &self,
        rt: &R,
        token: &mut Token,
        limit: &Option<(&C, u64)>,
        call: OnceCall,
        seen: u64,
    ) -> Came
        requires own { IsTokenOf (lot_of self.now) token.old }
        requires seen { (before : Token) × HasLookedFirst (number_of self.now) seen before token.old }
        ensures token { IsTokenOf (lot_of self.now) token.new }
        ensures came { (before : Token) → HasLookedFirst (number_of self.now) seen before token.old
            → CameTo (TimeIsUp C.tells limit.now) (number_of self.now) call before token.new result }
    {
        match begin_slow(rt, &self.lot, token, self.word, *limit, call, seen) {
            Look::Ended(answer) => came_by(answer),
            Look::Runs(state) => Came::Runs(state),
        }
    }

    // The run of a thread that has run the closure ends.
    pub(crate) fn end_run<R: Wait>(&self, rt: &R, token: &mut Token, forced: bool, succeeded: bool)
        requires token { IsTokenOf (lot_of self.now) token.old }
        requires runs { (base : List Ownership)
            × OwnsRun (number_of self.now) base (owns_of token.old) }
        ensures token { IsTokenOf (lot_of self.now) token.new
            × (token.new.number ≡ token.old.number) }
        ensures ends { EndsRun (number_of self.now) token.old.number forced succeeded
            (trail_of token.old None) (trail_of token.new None) }
        ensures closes { EndedAndWoke (number_of self.now) succeeded (steps_of token.old)
            (steps_of token.new) (last_of token.new) }
        ensures owns { (base : List Ownership)
            → OwnsRun (number_of self.now) base (owns_of token.old)
            → OwnsAfter (number_of self.now) succeeded base (owns_of token.new)
            × OwnsKnowing (number_of self.now) base (owns_of token.new) }
    {
        close(rt, &self.lot, token, self.word, forced, succeeded);
    }

    /// Waits until a run has succeeded.
    ///
    /// # Errors
    ///
    /// `Poisoned`, where the last run failed.
    #[inline]
    pub fn wait<R: Wait>(&self, rt: &R, token: &mut Token) -> Result<(), Fault>
        requires { IsTokenOf (lot_of self.now) token.old }
        ensures token { IsTokenOf (lot_of self.now) token.new
            × StaysKnowing (number_of self.now) token.old token.new }
        ensures waited { Waited (number_of self.now) token.old token.new result }
    {
        let call = OnceCall::Wait { forced: false };
        let seen = self.begin(rt, token, call);
        if is_done(seen) {
            return Ok(());
        }
        match self.go_on(rt, token, FOR_EVER, call, seen) {
            Came::Done => Ok(()),
            Came::Poisoned => Err(Fault::Poisoned),
            Came::Late | Came::Runs(_) => unreachable!(),
        }
    }

    /// Waits past runs that failed.
    #[inline]
    pub fn wait_force<R: Wait>(&self, rt: &R, token: &mut Token)
        requires { IsTokenOf (lot_of self.now) token.old }
        ensures token { IsTokenOf (lot_of self.now) token.new
            × StaysKnowing (number_of self.now) token.old token.new }
        ensures done { SawDone (number_of self.now) token.old token.new }
        ensures path { RanNothing (number_of self.now)
            (calls.Wait true) answers.Ok token.old token.new }
    {
        let call = OnceCall::Wait { forced: true };
        let seen = self.begin(rt, token, call);
        if is_done(seen) {
            return;
        }
        match self.go_on(rt, token, FOR_EVER, call, seen) {
            Came::Done => {}
            Came::Poisoned | Came::Late | Came::Runs(_) => unreachable!(),
        }
    }

    // Waits up to a deadline, or without one where that is past all that a clock tells.
    #[inline]
    fn wait_timed<R: Wait, C: Clock>(
        &self,
        rt: &R,
        token: &mut Token,
        limit: Option<(&C, u64)>,
    ) -> Result<bool, Fault>
        requires { IsTokenOf (lot_of self.now) token.old }
        ensures token { IsTokenOf (lot_of self.now) token.new
            × StaysKnowing (number_of self.now) token.old token.new }
        ensures path { RanNothing (number_of self.now) calls.WaitTimed (deadline_answer result)
            token.old token.new }
        ensures done { IfOk result (λ done. done ≡ true
            → SawDone (number_of self.now) token.old token.new) }
        ensures left { IfOk result (λ done. done ≡ false
            → TookNobodyAt (number_of self.now) (last_of token.new)) }
        ensures late { IfOk result (λ done. done ≡ false → TimeIsUp C.tells limit.entry) }
        ensures poisoned { IfErr result (λ fault. fault ≡ Fault.Poisoned) }
    {
        let call = OnceCall::WaitTimed;
        let seen = self.begin(rt, token, call);
        if is_done(seen) {
            return Ok(true);
        }
        match self.go_on(rt, token, &limit, call, seen) {
            Came::Done => Ok(true),
            Came::Late => Ok(false),
            Came::Poisoned => Err(Fault::Poisoned),
            Came::Runs(_) => unreachable!(),
        }
    }

    /// Waits until a run has succeeded. False once so much time, in nanoseconds of the clock, has
    /// passed.
    ///
    /// A time that ends past all that a `u64` tells is no limit.
    ///
    /// # Errors
    ///
    /// `Poisoned`, where the last run failed.
    pub fn wait_for<R: Wait, C: Clock>(
        &self,
        rt: &R,
        token: &mut Token,
        clock: &C,
        timeout: Duration,
    ) -> Result<bool, Fault>
        requires { IsTokenOf (lot_of self.now) token.old }
        ensures token { IsTokenOf (lot_of self.now) token.new
            × StaysKnowing (number_of self.now) token.old token.new }
        ensures path { RanNothing (number_of self.now) calls.WaitTimed (deadline_answer result)
            token.old token.new }
        ensures done { IfOk result (λ done. done ≡ true
            → SawDone (number_of self.now) token.old token.new) }
        ensures left { IfOk result (λ done. done ≡ false
            → TookNobodyAt (number_of self.now) (last_of token.new)) }
        ensures late { IfOk result (λ done. done ≡ false
            → HasElapsed (C.tells clock.now) (as_nanos timeout)) }
        ensures poisoned { IfErr result (λ fault. fault ≡ Fault.Poisoned) }
    {
        self.wait_timed(rt, token, limit_in(clock, timeout))
    }

    /// Waits until a run has succeeded. False once the clock has come to the deadline.
    ///
    /// # Errors
    ///
    /// `Poisoned`, where the last run failed.
    pub fn wait_until<R: Wait, C: Clock>(
        &self,
        rt: &R,
        token: &mut Token,
        clock: &C,
        deadline: u64,
    ) -> Result<bool, Fault>
        requires { IsTokenOf (lot_of self.now) token.old }
        ensures token { IsTokenOf (lot_of self.now) token.new
            × StaysKnowing (number_of self.now) token.old token.new }
        ensures path { RanNothing (number_of self.now) calls.WaitTimed (deadline_answer result)
            token.old token.new }
        ensures done { IfOk result (λ done. done ≡ true
            → SawDone (number_of self.now) token.old token.new) }
        ensures left { IfOk result (λ done. done ≡ false
            → TookNobodyAt (number_of self.now) (last_of token.new)) }
        ensures late { IfOk result (λ done. done ≡ false
            → HasPassed (C.tells clock.now) deadline) }
        ensures poisoned { IfErr result (λ fault. fault ≡ Fault.Poisoned) }
    {
        self.wait_timed(rt, token, Some((clock, deadline)))
    }

    /// Runs the closure where none has succeeded yet, or waits until one has. Where one has, that
    /// is one load.
    ///
    /// # Errors
    ///
    /// `Refused` by `Poisoned`, where an earlier run failed. `Failed`, where its own did, by what
    /// that answered.
    #[inline(always)]
    pub fn call_once<R: Wait, E, F: FnOnce() -> Result<(), E> + Drop>(
        &self,
        rt: &R,
        token: &mut Token,
        f: F,
    ) -> Result<(), OnceFault<E>>
        requires token { IsTokenOf (lot_of self.now) token.old }
        requires callable { F.IsAlwaysCallable f }
        ensures token { IsTokenOf (lot_of self.now) token.new
            × StaysKnowing (number_of self.now) token.old token.new }
        ensures ran { CalledOnce (number_of self.now) false
            (λ _ answer. F.post f answer) token.old token.new result }
    {
        let call = OnceCall::CallOnce { forced: false };
        let seen = self.begin(rt, token, call);
        if is_done(seen) {
            return Ok(());
        }
        match self.go_on(rt, token, FOR_EVER, call, seen) {
            Came::Done => Ok(()),
            Came::Poisoned => Err(OnceFault::Refused(Fault::Poisoned)),
            Came::Late => unreachable!(),
            Came::Runs(_) => match f() {
                Ok(()) => {
                    self.end_run(rt, token, false, true);
                    Ok(())
                }
                Err(error) => {
                    self.end_run(rt, token, false, false);
                    Err(OnceFault::Failed(error))
                }
            },
        }
    }

    /// Runs the closure past runs that failed. The closure is told whether one did.
    ///
    /// # Errors
    ///
    /// `Failed`, where its own run did, by what that answered.
    #[inline(always)]
    pub fn call_once_force<R: Wait, E, F: FnOnce(OnceState) -> Result<(), E> + Drop>(
        &self,
        rt: &R,
        token: &mut Token,
        f: F,
    ) -> Result<(), OnceFault<E>>
        requires token { IsTokenOf (lot_of self.now) token.old }
        requires callable { F.IsAlwaysCallable f }
        ensures token { IsTokenOf (lot_of self.now) token.new
            × StaysKnowing (number_of self.now) token.old token.new }
        ensures ran { CalledOnce (number_of self.now) true
            (λ state answer. F.post f state answer) token.old token.new result }
    {
        let call = OnceCall::CallOnce { forced: true };
        let seen = self.begin(rt, token, call);
        if is_done(seen) {
            return Ok(());
        }
        match self.go_on(rt, token, FOR_EVER, call, seen) {
            Came::Done => Ok(()),
            Came::Poisoned | Came::Late => unreachable!(),
            Came::Runs(state) => match f(state) {
                Ok(()) => {
                    self.end_run(rt, token, true, true);
                    Ok(())
                }
                Err(error) => {
                    self.end_run(rt, token, true, false);
                    Err(OnceFault::Failed(error))
                }
            },
        }
    }
}
