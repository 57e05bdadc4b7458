//! Guards of locks with a value.
ghost use Rattle.std.specs.Prelude.{◌≡◌};
ghost use Rattle.lock_api.specs.Guards.{lock_of};
ghost use Rattle.spec_locks.specs.declared.calls.MutexCall.TheVariants.{Unlock, UnlockFair, Bump};
ghost use Rattle.spec_locks.specs.declared.outcomes.Answer.TheVariants as answers;

use crate::guarded::Guarded;
use crate::mutex::Mutex;
use crate::taken::Taken;
use core_parts::Open;
use lock_raw::{RawMutex, RawMutexFair};
use std::sync::Wait;

/// The mutex is taken for as long as its guard is not spent. A guard has the raw guard, of this
/// very mutex; it can't be dropped, and `unlock` or `unlock_fair` is its end.
pub type MutexGuard<'a, R, T> = Guarded<Taken<'a, R, T>, Open<'a, T>>;

impl<'a, R: RawMutex, T> Guarded<Taken<'a, R, T>, Open<'a, T>> {
    // Returns the guard of a thread that has taken the mutex, and has opened its value.
    #[inline]
    pub(crate) fn new(
        mutex: &'a Mutex<R, T>,
        lot: &'a R::Lot,
        opened: R::Opened,
        value: Open<'a, T>,
    ) -> MutexGuard<'a, R, T>
        requires { R.is_opened_of mutex.now opened × (lot.now ≡ R.lot_of mutex.now)
            × (value.id ≡ R.permit_of mutex.now) }
        ensures { lock_of result ≡ mutex.now }
    {
        Guarded {
            taken: Taken::new(mutex, lot, opened),
            value,
        }
    }

    // The value is closed, and the mutex is still taken.
    #[inline]
    pub(crate) fn close(self) -> (&'a Mutex<R, T>, &'a R::Lot, R::Guard)
        ensures { (result.0.now ≡ lock_of self.entry)
            × (result.1.now ≡ R.lot_of (lock_of self.entry))
            × R.is_guard_of (lock_of self.entry) result.2 }
    {
        let Guarded { taken, value } = self;
        taken.close(value)
    }

    /// Gives the mutex up, and wakes the first that waits for it.
    #[inline]
    pub fn unlock<W: Wait>(self, rt: &W, token: &mut R::Token)
        requires { R.is_token_of (R.lot_of (lock_of self)) token.old }
        ensures token { R.is_token_of (R.lot_of (lock_of self.entry)) token.new
            × R.keeps_rights token.old token.new }
        ensures path { R.took_steps (lock_of self.entry) Unlock answers.Ok token.old token.new }
        ensures record { R.released (lock_of self.entry) Unlock token.old token.new }
    {
        let (mutex, lot, guard) = self.close();
        let raw = mutex.raw();
        if let Some(seen) = raw.unlock_fast(lot, token, guard) {
            raw.unlock_slow(rt, token, seen);
        }
    }

    /// Two guards of one mutex exclude each other: nobody ever has both, so this can't be called.
    pub fn has_two(self, token: &mut R::Token, other: MutexGuard<'a, R, T>) -> !
        requires token { R.is_token_of (R.lot_of (lock_of self)) token.old }
        requires mutex { lock_of other ≡ lock_of self }
    {
        let (mutex, _, one) = self.close();
        let (_, _, other) = other.close();
        mutex.raw().has_two_guards(token, one, other)
    }
}

impl<'a, R: RawMutexFair, T> Guarded<Taken<'a, R, T>, Open<'a, T>> {
    /// Hands the mutex to the first that waits for it. Where nobody waits, gives it up.
    #[inline]
    pub fn unlock_fair<W: Wait>(self, rt: &W, token: &mut R::Token)
        requires { R.is_token_of (R.lot_of (lock_of self)) token.old }
        ensures token { R.is_token_of (R.lot_of (lock_of self.entry)) token.new
            × R.keeps_rights token.old token.new }
        ensures path { R.took_steps (lock_of self.entry) UnlockFair answers.Ok token.old token.new }
        ensures record { R.released (lock_of self.entry) UnlockFair token.old token.new }
    {
        let (mutex, _, guard) = self.close();
        mutex.raw().unlock_fair(rt, token, guard);
    }

    /// Hands the mutex to the first that waits for it, and waits to take it again. Where nobody
    /// waits, keeps it.
    #[inline]
    pub fn bump<W: Wait>(self, rt: &W, token: &mut R::Token) -> MutexGuard<'a, R, T>
        requires { R.is_token_of (R.lot_of (lock_of self)) token.old }
        ensures token { R.is_token_of (R.lot_of (lock_of self.entry)) token.new
            × R.keeps_rights token.old token.new }
        ensures guard { lock_of result ≡ lock_of self.entry }
        ensures path { R.took_steps (lock_of self.entry) Bump answers.Ok token.old token.new }
    {
        let (mutex, lot, guard) = self.close();
        let guard = mutex.raw().bump(rt, token, guard);
        mutex.open(lot, guard)
    }
}
