//! `OnceCell`: a value that the first that asks for it makes.
//!
//! A cell makes its value by a forced call, so that the next thread tries again where one failed. The
//! value is in std's `OnceLock`, written inside the closure of the cell's own `Once`. No clause
//! says that the value is there once the `Once` is done, so a thread that met none would stay there. In
//! a clause a cell is a pair, of its `Once` and the name of what holds its value.
ghost use Rattle.std.specs.Prelude.{◌≡◌, ◌⊎◌, ◌∷◌, [], List, Ok, Err, true, IfErr, IfOk, IfSome, MatchResult};
ghost use Rattle.std.specs.Arc.{arc_value};
ghost use Rattle.core_words.specs.Draws.{IsDrawn, IsDrawRefused};
ghost use Rattle.core_words.specs.declared.words.WordKind.TheVariants as kinds;
ghost use Rattle.core_words.specs.declared.owners.Ownership.{Ownership};
ghost use Rattle.parking_lot_core.specs.Tokens.{IsTokenOf, view_of};
ghost use Rattle.run_base.specs.OnceFitting.{KnowsIt, OwnsKnowing, OwnsRun};
ghost use Rattle.run_base.specs.Telling.{owns_of};
ghost use Rattle.spec_locks.specs.declared.calls.OnceCall.TheVariants.{CallOnce};
ghost use Rattle.spec_locks.specs.declared.outcomes.Answer.TheVariants as answers;

use crate::once::{Came, Once};
use parking_lot_core::{Fault, ParkingLot, Token};
use run_base::driver::FOR_EVER;
use spec_locks::OnceCall;
use std::convert::Infallible;
use std::marker::Model;
use std::sync::{Arc, OnceLock, OnceToken, Wait};
use steps_base::bits::is_done;

// Such a thread has met a value that no run made.
fn hang_forever<R: Wait>(rt: &R) -> ! {
    for _ in rt.forever() {}
    unreachable!()
}

// Shows the value of a cell whose `Once` is done.
fn shown_when_done<'a, T, R: Wait>(rt: &R, value: &'a OnceLock<T>) -> OnceToken<'a, T>
    ensures { result.of ≡ value.now.id }
{
    match value.witness() {
        Some(shown) => shown,
        // A run sets the value before it ends.
        None => hang_forever(rt),
    }
}

/// A value that is made once, by the first that asks for it, and then read by all.
///
/// A thread waits while another one makes it. Where making it fails, the next thread that asks
/// makes it.
#[derive(Drop)]
pub struct OnceCell<T> {
    made: Once,
    value: OnceLock<T>,
}

// In a clause a cell is a pair: its `Once`, and the name of what holds its value.
impl<T> Model for OnceCell<T> {
    ghost use Rattle.std.specs.Prelude.{◌≡◌, ℕ};
    ghost use Rattle.run_once_and_semaphores.specs.declared.once.Once.{Once};

    ghost Value = { Once × ℕ };

    ghost view = { λ cell. (cell.made, cell.value.id) };
}

impl<T: Drop> OnceCell<T> {
    ghost use Rattle.run_once_and_semaphores.specs.Ran.{FoundAnothers, FoundOrMade, StaysKnowing};
    ghost use Rattle.run_once_and_semaphores.specs.OnceUsers.{lot_of, number_of};

    /// Makes a cell that is empty.
    ///
    /// # Errors
    ///
    /// `LotFull`, and `NoMemory`.
    pub fn new(lot: &Arc<ParkingLot>, token: &mut Token) -> Result<OnceCell<T>, Fault>
        requires { IsTokenOf (arc_value lot.now) token.old }
        ensures token { IsTokenOf (arc_value lot.now) token.new
            × (token.new.number ≡ token.old.number)
            × ((view_of token.new).owns ≡ (view_of token.old).owns) }
        ensures made { MatchResult result (λ cell. lot_of cell.0 ≡ arc_value lot.now)
            (λ fault. (fault ≡ Fault.NoMemory) ⊎ (fault ≡ Fault.LotFull)) }
        ensures drawn { MatchResult result
            (λ cell. IsDrawn (arc_value lot.now).words.count (kinds.Once ∷ []) (number_of cell.0)
            (view_of token.old)
            (view_of token.new))
            (λ fault. ((fault ≡ Fault.NoMemory) × (token.new ≡ token.old))
            ⊎ ((fault ≡ Fault.LotFull)
            × IsDrawRefused (arc_value lot.now).words.count 1 (view_of token.old)
            (view_of token.new))) }
    {
        let made = Once::new(lot, token)?;
        Ok(OnceCell {
            made,
            value: OnceLock::new(),
        })
    }

    /// The value, once it is made. That is one load, and never waits.
    #[inline]
    pub fn get(&self) -> Option<&T> {
        self.value.get()
    }

    /// Returns what shows the value, once it is made. That is one load, and never waits.
    ///
    /// The token has no bytes. Any two that show the value of one cell agree, whichever threads
    /// have them: `OnceToken::agrees`.
    #[inline]
    pub fn witness(&self) -> Option<OnceToken<'_, T>>
        ensures { IfSome result (λ shown. shown.of ≡ self.now.1) }
    {
        self.value.witness()
    }

    /// Returns the value, by what shows it.
    #[inline]
    pub fn value<'a>(&'a self, shown: &OnceToken<'a, T>) -> &'a T
        requires { shown.now.of ≡ self.now.1 }
        ensures { result.now ≡ shown.now.value }
    {
        self.value.value(shown)
    }

    /// Returns the value, for a thread that has the cell alone.
    pub fn get_mut(&mut self) -> Option<&mut T> {
        self.value.get_mut()
    }

    /// The value, and none of a cell that is empty.
    pub fn into_inner(self) -> Option<T> {
        self.value.into_inner()
    }

    /// Shows the value. Where there is none the closure makes it, or another thread's does, and the
    /// call waits for that one.
    ///
    /// # Errors
    ///
    /// The error of a closure that makes no value. The cell stays empty then.
    #[inline]
    pub fn show_or_try_init<R: Wait, E, F: FnOnce() -> Result<T, E> + Drop>(
        &self,
        rt: &R,
        token: &mut Token,
        f: F,
    ) -> Result<OnceToken<'_, T>, E>
        requires token { IsTokenOf (lot_of self.now.0) token.old }
        requires callable { F.IsAlwaysCallable f }
        ensures token { IsTokenOf (lot_of self.now.0) token.new
            × StaysKnowing (number_of self.now.0) token.old token.new }
        ensures shown { IfOk result (λ shown. shown.of ≡ self.now.1) }
        ensures failed { IfErr result (λ error. F.post f (Err error)) }
        ensures made { IfOk result (λ _. FoundOrMade (number_of self.now.0) token.old token.new) }
        ensures value { IfOk result (λ shown. F.post f (Ok shown.value)
            ⊎ FoundAnothers (number_of self.now.0) token.old token.new) }
    {
        match self.value.witness() {
            Some(shown) => Ok(shown),
            None => self.made.make(rt, token, &self.value, f),
        }
    }

    /// Shows the value, where the closure can't fail.
    #[inline]
    pub fn show_or_init<R: Wait, F: FnOnce() -> T + Drop>(
        &self,
        rt: &R,
        token: &mut Token,
        f: F,
    ) -> OnceToken<'_, T>
        requires token { IsTokenOf (lot_of self.now.0) token.old }
        requires callable { F.IsAlwaysCallable f }
        ensures token { IsTokenOf (lot_of self.now.0) token.new
            × StaysKnowing (number_of self.now.0) token.old token.new }
        ensures shown { result.of ≡ self.now.1 }
        ensures made { FoundOrMade (number_of self.now.0) token.old token.new }
        ensures value { F.post f result.value
            ⊎ FoundAnothers (number_of self.now.0) token.old token.new }
    {
        match self.show_or_try_init(rt, token, move || Ok::<T, Infallible>(f())) {
            Ok(shown) => shown,
            Err(never) => match never {},
        }
    }

    /// Returns the value. It is made as by `show_or_try_init`.
    ///
    /// # Errors
    ///
    /// The error of a closure that makes no value. The cell stays empty then.
    #[inline]
    pub fn get_or_try_init<R: Wait, E, F: FnOnce() -> Result<T, E> + Drop>(
        &self,
        rt: &R,
        token: &mut Token,
        f: F,
    ) -> Result<&T, E>
        requires token { IsTokenOf (lot_of self.now.0) token.old }
        requires callable { F.IsAlwaysCallable f }
        ensures token { IsTokenOf (lot_of self.now.0) token.new
            × StaysKnowing (number_of self.now.0) token.old token.new }
        ensures failed { IfErr result (λ error. F.post f (Err error)) }
        ensures made { IfOk result (λ _. FoundOrMade (number_of self.now.0) token.old token.new) }
        ensures value { IfOk result (λ value. F.post f (Ok value.now)
            ⊎ FoundAnothers (number_of self.now.0) token.old token.new) }
    {
        match self.show_or_try_init(rt, token, f) {
            Ok(shown) => Ok(self.value.value(&shown)),
            Err(error) => Err(error),
        }
    }

    /// Returns the value, where the closure can't fail.
    #[inline]
    pub fn get_or_init<R: Wait, F: FnOnce() -> T + Drop>(
        &self,
        rt: &R,
        token: &mut Token,
        f: F,
    ) -> &T
        requires token { IsTokenOf (lot_of self.now.0) token.old }
        requires callable { F.IsAlwaysCallable f }
        ensures token { IsTokenOf (lot_of self.now.0) token.new
            × StaysKnowing (number_of self.now.0) token.old token.new }
        ensures made { FoundOrMade (number_of self.now.0) token.old token.new }
        ensures value { F.post f result.now
            ⊎ FoundAnothers (number_of self.now.0) token.old token.new }
    {
        let shown = self.show_or_init(rt, token, f);
        self.value.value(&shown)
    }
}

impl Once {
    ghost use Rattle.run_once_and_semaphores.specs.Ran.{RanNothing, SawDone, StaysKnowing};
    ghost use Rattle.run_once_and_semaphores.specs.OnceUsers.{lot_of, number_of};

    // Ends the run of a thread that has filled the cell. Only a value that is set has what shows it, so
    // that no run ends well before its value is there.
    fn end_filled<T, R: Wait>(&self, rt: &R, token: &mut Token, _shown: &OnceToken<'_, T>)
        requires token { IsTokenOf (lot_of self.now) token.old }
        requires runs { (base : List Ownership)
            × OwnsRun (number_of self.now) base (owns_of token.old) }
        ensures token { IsTokenOf (lot_of self.now) token.new
            × (token.new.number ≡ token.old.number) }
        ensures owns { (base : List Ownership)
            → OwnsRun (number_of self.now) base (owns_of token.old)
            → OwnsKnowing (number_of self.now) base (owns_of token.new)
            × KnowsIt (number_of self.now) base (owns_of token.new) }
    {
        self.end_run(rt, token, true, true);
    }

    // Runs the closure of a cell, for a thread that owns the run, and ends the run.
    fn fill<'a, T: Drop, R: Wait, E, F: FnOnce() -> Result<T, E> + Drop>(
        &self,
        rt: &R,
        token: &mut Token,
        value: &'a OnceLock<T>,
        f: F,
    ) -> Result<OnceToken<'a, T>, E>
        requires token { IsTokenOf (lot_of self.now) token.old }
        requires callable { F.IsAlwaysCallable f }
        requires runs { (base : List Ownership)
            × OwnsRun (number_of self.now) base (owns_of token.old) }
        ensures token { IsTokenOf (lot_of self.now) token.new
            × (token.new.number ≡ token.old.number) }
        ensures owns { (base : List Ownership)
            → OwnsRun (number_of self.now) base (owns_of token.old)
            → OwnsKnowing (number_of self.now) base (owns_of token.new)
            × IfOk result (λ _. KnowsIt (number_of self.now) base (owns_of token.new)) }
        ensures shown { IfOk result (λ shown. shown.of ≡ value.now.id) }
        ensures value { MatchResult result (λ shown. F.post f (Ok shown.value))
            (λ error. F.post f (Err error)) }
    {
        match f() {
            Ok(made) => match value.try_set(made) {
                Ok(shown) => {
                    self.end_filled(rt, token, &shown);
                    Ok(shown)
                }
                // Only a thread that runs sets the value, and none runs after it.
                Err(_) => hang_forever(rt),
            },
            Err(error) => {
                self.end_run(rt, token, true, false);
                Err(error)
            }
        }
    }

    // Makes the value of a cell by a run of its own, or waits for another's.
    #[cold]
    #[inline(never)]
    fn make<'a, T: Drop, R: Wait, E, F: FnOnce() -> Result<T, E> + Drop>(
        &self,
        rt: &R,
        token: &mut Token,
        value: &'a OnceLock<T>,
        f: F,
    ) -> Result<OnceToken<'a, T>, E>
        requires token { IsTokenOf (lot_of self.now) token.old }
        requires callable { F.IsAlwaysCallable f }
        ensures token { IsTokenOf (lot_of self.now) token.new
            × StaysKnowing (number_of self.now) token.old token.new }
        ensures ended { MatchResult result (λ _. SawDone (number_of self.now) token.old token.new)
            (λ error. F.post f (Err error)) }
        ensures shown { IfOk result (λ shown. shown.of ≡ value.now.id) }
        ensures value { IfOk result (λ shown. F.post f (Ok shown.value)
            ⊎ RanNothing (number_of self.now) (CallOnce true) answers.Ok token.old token.new) }
    {
        let call = OnceCall::CallOnce { forced: true };
        let seen = self.begin(rt, token, call);
        if is_done(seen) {
            return Ok(shown_when_done(rt, value));
        }
        match self.go_on(rt, token, FOR_EVER, call, seen) {
            Came::Done => Ok(shown_when_done(rt, value)),
            Came::Runs(_) => self.fill(rt, token, value, f),
            Came::Poisoned | Came::Late => unreachable!(),
        }
    }
}
