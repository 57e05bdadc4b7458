//! Reader-writer locks that are shown.
ghost use Rattle.std.specs.Prelude.{◌≡◌, ◌⊎◌, IfSome, MatchOption};
ghost use Rattle.lock_api_rw.specs.Guards.{lock_of};
ghost use Rattle.spec_locks.specs.declared.calls.Access.TheVariants as access;
ghost use Rattle.spec_locks.specs.declared.calls.Patience.TheVariants.{Try};
ghost use Rattle.spec_locks.specs.declared.calls.RwLockCall.TheVariants.{Enter};
ghost use Rattle.spec_locks.specs.declared.outcomes.Answer.TheVariants as answers;

use crate::guards::RwLockReadGuard;
use crate::rwlock::RwLock;
use lock_raw::RawRwLock;
use lock_values::{LockName, Shown};
use std::sync::Wait;

impl<R: RawRwLock, T> RwLock<R, T> {
    // One try to read, which a full lock refuses as a writer does.
    fn look<W: Wait>(&self, rt: &W, token: &mut R::Token) -> Option<RwLockReadGuard<'_, R, T>>
        requires { R.is_token_of (R.lot_of self.now) token.old }
        ensures token { R.is_token_of (R.lot_of self.now) token.new × R.keeps_rights token.old token.new }
        ensures guard { IfSome result (λ guard. lock_of guard ≡ self.now) }
        ensures path { MatchOption result
            ((R.took_steps self.now (Enter access.Shared Try) answers.No token.old token.new)
            ⊎ (R.took_steps self.now (Enter access.Shared Try) answers.ReadersFull token.old token.new
            × R.saw_full self.now access.Shared token.old token.new))
            (λ _. R.took_steps self.now (Enter access.Shared Try) answers.Yes token.old token.new) }
    {
        match self.try_read(rt, token) {
            Ok(Some(guard)) => Some(guard),
            Ok(None) => None,
            Err(_) => None,
        }
    }

    /// Shows the lock, by one try to read: its value where the try comes in, and else `<locked>`. A
    /// writer keeps the try out, and so do as many readers as there may be. The call `close` spends
    /// what is shown, and unlocks.
    pub fn show<W: Wait>(&self, rt: &W, token: &mut R::Token) -> Shown<RwLockReadGuard<'_, R, T>>
        requires { R.is_token_of (R.lot_of self.now) token.old }
        ensures token { R.is_token_of (R.lot_of self.now) token.new × R.keeps_rights token.old token.new }
        ensures guard { IfSome result.guard (λ guard. lock_of guard ≡ self.now) }
        ensures path { MatchOption result.guard
            ((R.took_steps self.now (Enter access.Shared Try) answers.No token.old token.new)
            ⊎ (R.took_steps self.now (Enter access.Shared Try) answers.ReadersFull token.old token.new
            × R.saw_full self.now access.Shared token.old token.new))
            (λ _. R.took_steps self.now (Enter access.Shared Try) answers.Yes token.old token.new) }
    {
        let guard = self.look(rt, token);
        Shown::new(LockName::RwLock, guard)
    }
}
