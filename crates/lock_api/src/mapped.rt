//! Guards of mutexes, as a map sees them, and mapped ones.
ghost use Rattle.std.specs.Prelude.{◌≡◌, Err, IsOk, MatchResult};
ghost use Rattle.lock_api.specs.Guards.{lock_of, value_of};
ghost use Rattle.spec_locks.specs.declared.calls.MutexCall.TheVariants.{Unlock, UnlockFair};
ghost use Rattle.spec_locks.specs.declared.outcomes.Answer.TheVariants as answers;

use crate::guarded::Guarded;
use crate::guards::MutexGuard;
use crate::shows::{Keeps, Shows, ShowsMut};
use crate::taken::Taken;
use core_parts::Open;
use lock_raw::{RawMutex, RawMutexFair};
use lock_values::{Mapped, Project, Unlocks, UnlocksFair};
use std::ops::{Deref, DerefMut};
use std::sync::Wait;

impl<K: Keeps, V: Shows> lock_values::Shows for Guarded<K, V> {
    ghost use Rattle.std.proofs.Common.{◌∙◌};

    type Value = V::Value;

    ghost shown = { λ guard. V.shown guard.value };

    ghost written = { λ guard value. record guard {
      value = V.written guard.value value;
      tied = V.stays_open guard.value value ∙ guard.tied;
    } };

    ghost shows_written = { λ guard value. V.shows_written guard.value value };

    #[inline]
    fn show(&self) -> &V::Value {
        self.deref()
    }
}

impl<K: Keeps, V: ShowsMut> lock_values::ShowsMut for Guarded<K, V> {
    #[inline]
    fn show_mut(&mut self) -> &mut V::Value {
        self.deref_mut()
    }
}

/// Guards a part of a mutex's value.
pub type MappedMutexGuard<'a, R, T, P> = Mapped<MutexGuard<'a, R, T>, P>;

impl<'a, R: RawMutex, T> Unlocks for Guarded<Taken<'a, R, T>, Open<'a, T>> {
    type Token = R::Token;

    ghost may_unlock = { λ guard token. R.is_token_of (R.lot_of (lock_of guard)) token };

    ghost unlocked = { λ guard old new. R.is_token_of (R.lot_of (lock_of guard)) new
        × R.keeps_rights old new
        × R.took_steps (lock_of guard) Unlock answers.Ok old new
        × R.released (lock_of guard) Unlock old new };

    #[inline]
    fn unlock<W: Wait>(self, rt: &W, token: &mut R::Token) {
        Guarded::<Taken<'a, R, T>, Open<'a, T>>::unlock(self, rt, token);
    }
}

impl<'a, R: RawMutexFair, T> UnlocksFair for Guarded<Taken<'a, R, T>, Open<'a, T>> {
    ghost unlocked_fair = { λ guard old new. R.is_token_of (R.lot_of (lock_of guard)) new
        × R.keeps_rights old new
        × R.took_steps (lock_of guard) UnlockFair answers.Ok old new
        × R.released (lock_of guard) UnlockFair old new };

    #[inline]
    fn unlock_fair<W: Wait>(self, rt: &W, token: &mut R::Token) {
        Guarded::<Taken<'a, R, T>, Open<'a, T>>::unlock_fair(self, rt, token);
    }
}

impl<'a, R: RawMutex, T> Guarded<Taken<'a, R, T>, Open<'a, T>> {
    /// Maps the guard to a part of the value that is there.
    #[inline]
    pub fn map<P: Project<T>>(self, by: P) -> MappedMutexGuard<'a, R, T, P>
        requires { IsOk (P.finds by (value_of self)) }
        ensures { (result.guard ≡ self.entry) × (result.by ≡ by) }
    {
        Mapped::new(self, by)
    }

    /// Maps the guard where the part is there.
    ///
    /// # Errors
    ///
    /// The guard and the projection's reason, where the part is not there.
    #[inline]
    pub fn try_map_or_err<P: Project<T>>(
        self,
        by: P,
    ) -> Result<MappedMutexGuard<'a, R, T, P>, (MutexGuard<'a, R, T>, P::Error)>
        ensures { MatchResult result
            (λ mapped. (mapped.guard ≡ self.entry) × (mapped.by ≡ by))
            (λ refused. (refused.0 ≡ self.entry) × (P.finds by (value_of self.entry) ≡ Err refused.1)) }
    {
        Mapped::try_new(self, by)
    }
}
