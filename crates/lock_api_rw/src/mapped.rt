//! Guards of reader-writer locks, as a map sees them, and mapped ones.
ghost use Rattle.std.specs.Prelude.{◌≡◌, Err, IsOk, MatchResult};
ghost use Rattle.lock_api_rw.specs.Guards.{lock_of};
ghost use Rattle.spec_locks.specs.declared.calls.Access.TheVariants as access;
ghost use Rattle.spec_locks.specs.declared.calls.RwLockCall.TheVariants.{Release, ReleaseFair};
ghost use Rattle.spec_locks.specs.declared.outcomes.Answer.TheVariants as answers;

use crate::guards::{RwLockReadGuard, RwLockWriteGuard};
use crate::held::Held;
use crate::rights::{Reading, Writing};
use crate::shows::{Holds, Shows, ShowsMut};
use lock_raw::{RawRwLock, RawRwLockFair};
use lock_values::{Mapped, Open, Project, Seen, Unlocks, UnlocksFair};
use std::ops::{Deref, DerefMut};
use std::sync::Wait;

impl<K: Holds, V: Shows> lock_values::Shows for Held<K, V> {
    ghost use Rattle.std.proofs.Common.{◌∙◌};

    type Value = V::Value;

    ghost shown = { λ guard. V.shown guard.value };

    ghost written = { λ guard value. record guard {
      value = V.written guard.value value;
      placed = V.stays_opened guard.value value ∙ guard.placed;
      seated = V.stays_opened_by guard.value value ∙ guard.seated;
    } };

    ghost shows_written = { λ guard value. V.shows_written guard.value value };

    #[inline]
    fn show(&self) -> &V::Value {
        self.deref()
    }
}

impl<K: Holds, V: ShowsMut> lock_values::ShowsMut for Held<K, V> {
    #[inline]
    fn show_mut(&mut self) -> &mut V::Value {
        self.deref_mut()
    }
}

/// Guards a part of a value that is read.
pub type MappedRwLockReadGuard<'a, R, T, P> = Mapped<RwLockReadGuard<'a, R, T>, P>;

/// Guards a part of a value that may be written.
pub type MappedRwLockWriteGuard<'a, R, T, P> = Mapped<RwLockWriteGuard<'a, R, T>, P>;

impl<'a, R: RawRwLock, T> Unlocks for Held<Reading<'a, R, T>, Seen<'a, T>> {
    type Token = R::Token;

    ghost may_unlock = { λ guard token. R.is_token_of (R.lot_of (lock_of guard)) token };

    ghost unlocked = { λ guard old new. R.is_token_of (R.lot_of (lock_of guard)) new
        × R.keeps_rights old new
        × R.took_steps (lock_of guard) (Release access.Shared) answers.Ok old new
        × R.woke_waiters (lock_of guard) (Release access.Shared) old new };

    #[inline]
    fn unlock<W: Wait>(self, rt: &W, token: &mut R::Token) {
        Held::<Reading<'a, R, T>, Seen<'a, T>>::unlock(self, rt, token);
    }
}

impl<'a, R: RawRwLockFair, T> UnlocksFair for Held<Reading<'a, R, T>, Seen<'a, T>> {
    ghost unlocked_fair = { λ guard old new. R.is_token_of (R.lot_of (lock_of guard)) new
        × R.keeps_rights old new
        × R.took_steps (lock_of guard) (ReleaseFair access.Shared) answers.Ok old new
        × R.woke_waiters (lock_of guard) (ReleaseFair access.Shared) old new };

    #[inline]
    fn unlock_fair<W: Wait>(self, rt: &W, token: &mut R::Token) {
        Held::<Reading<'a, R, T>, Seen<'a, T>>::unlock_fair(self, rt, token);
    }
}

impl<'a, R: RawRwLock, T> Held<Reading<'a, R, T>, Seen<'a, T>> {
    /// Maps the guard to a part of the value that is there.
    #[inline]
    pub fn map<P: Project<T>>(self, by: P) -> MappedRwLockReadGuard<'a, R, T, P>
        requires { IsOk (P.finds by self.value.value) }
        ensures { (result.guard ≡ self.entry) × (result.by ≡ by) }
    {
        Mapped::new(self, by)
    }

    /// Maps the guard where the part is there.
    ///
    /// # Errors
    ///
    /// The guard and the projection's reason, where the part is not there.
    #[inline]
    pub fn try_map_or_err<P: Project<T>>(
        self,
        by: P,
    ) -> Result<MappedRwLockReadGuard<'a, R, T, P>, (RwLockReadGuard<'a, R, T>, P::Error)>
        ensures { MatchResult result
            (λ mapped. (mapped.guard ≡ self.entry) × (mapped.by ≡ by))
            (λ refused. (refused.0 ≡ self.entry)
            × (P.finds by self.entry.value.value ≡ Err refused.1)) }
    {
        Mapped::try_new(self, by)
    }
}

impl<'a, R: RawRwLock, T> Unlocks for Held<Writing<'a, R, T>, Open<'a, T>> {
    type Token = R::Token;

    ghost may_unlock = { λ guard token. R.is_token_of (R.lot_of (lock_of guard)) token };

    ghost unlocked = { λ guard old new. R.is_token_of (R.lot_of (lock_of guard)) new
        × R.keeps_rights old new
        × R.took_steps (lock_of guard) (Release access.Exclusive) answers.Ok old new
        × R.woke_waiters (lock_of guard) (Release access.Exclusive) old new };

    #[inline]
    fn unlock<W: Wait>(self, rt: &W, token: &mut R::Token) {
        Held::<Writing<'a, R, T>, Open<'a, T>>::unlock(self, rt, token);
    }
}

impl<'a, R: RawRwLockFair, T> UnlocksFair for Held<Writing<'a, R, T>, Open<'a, T>> {
    ghost unlocked_fair = { λ guard old new. R.is_token_of (R.lot_of (lock_of guard)) new
        × R.keeps_rights old new
        × R.took_steps (lock_of guard) (ReleaseFair access.Exclusive) answers.Ok old new
        × R.woke_waiters (lock_of guard) (ReleaseFair access.Exclusive) old new };

    #[inline]
    fn unlock_fair<W: Wait>(self, rt: &W, token: &mut R::Token) {
        Held::<Writing<'a, R, T>, Open<'a, T>>::unlock_fair(self, rt, token);
    }
}

impl<'a, R: RawRwLock, T> Held<Writing<'a, R, T>, Open<'a, T>> {
    /// Maps the guard to a part of the value that is there.
    #[inline]
    pub fn map<P: Project<T>>(self, by: P) -> MappedRwLockWriteGuard<'a, R, T, P>
        requires { IsOk (P.finds by self.value.value) }
        ensures { (result.guard ≡ self.entry) × (result.by ≡ by) }
    {
        Mapped::new(self, by)
    }

    /// Maps the guard where the part is there.
    ///
    /// # Errors
    ///
    /// The guard and the projection's reason, where the part is not there.
    #[inline]
    pub fn try_map_or_err<P: Project<T>>(
        self,
        by: P,
    ) -> Result<MappedRwLockWriteGuard<'a, R, T, P>, (RwLockWriteGuard<'a, R, T>, P::Error)>
        ensures { MatchResult result
            (λ mapped. (mapped.guard ≡ self.entry) × (mapped.by ≡ by))
            (λ refused. (refused.0 ≡ self.entry)
            × (P.finds by self.entry.value.value ≡ Err refused.1)) }
    {
        Mapped::try_new(self, by)
    }
}
