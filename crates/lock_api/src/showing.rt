//! Mutexes that are shown.
ghost use Rattle.std.specs.Prelude.{◌≡◌, ◌⊎◌, ◌+◌, IfSome, MatchOption};
ghost use Rattle.lock_raw.specs.Answers.{answer_by};
ghost use Rattle.lock_raw.specs.Counts.{CountedAgain, SawFull, SawOthers, first_count};
ghost use Rattle.lock_api.specs.Guards.{lock_of};
ghost use Rattle.lock_api.specs.Reentrant.{CameIn, StayedOut};
ghost use Rattle.spec_locks.specs.declared.calls.MutexCall.TheVariants.{TryLock};
ghost use Rattle.spec_locks.specs.declared.outcomes.Answer.TheVariants as answers;

use crate::guards::MutexGuard;
use crate::mutex::Mutex;
use crate::reentrant::{ReentrantMutex, ReentrantMutexGuard};
use lock_raw::{GetThreadId, RawMutex, RawMutexCounted};
use lock_values::{LockName, Shown};

impl<R: RawMutex, T> Mutex<R, T> {
    /// Shows the mutex, by one try: its value where nobody owns it, and `<locked>` where somebody
    /// does. The call `close` spends what is shown, and unlocks.
    pub fn show(&self, token: &mut R::Token) -> Shown<MutexGuard<'_, R, T>>
        requires { R.is_token_of (R.lot_of self.now) token.old }
        ensures token { R.is_token_of (R.lot_of self.now) token.new × R.keeps_rights token.old token.new }
        ensures guard { IfSome result.guard (λ guard. lock_of guard ≡ self.now) }
        ensures path { R.took_steps self.now TryLock (answer_by result.guard) token.old token.new }
    {
        Shown::new(LockName::Mutex, self.try_lock(token))
    }
}

impl<R: RawMutexCounted, G: GetThreadId<R>, T> ReentrantMutex<R, G, T> {
    /// Shows the mutex, by one try: its value where no other thread has it, and `<locked>` where
    /// another does, or where this one has locked it as often as can be counted.
    pub fn show(&self, token: &mut R::Token) -> Shown<ReentrantMutexGuard<'_, R, G, T>>
        requires { R.is_token_of (R.lot_of self.now.0) token.old }
        ensures token { R.is_token_of (R.lot_of self.now.0) token.new × R.keeps_rights token.old token.new }
        ensures guard { IfSome result.guard (λ guard. guard.mutex.now ≡ self.now) }
        ensures named { IfSome result.guard
            (λ guard. R.thread_of guard.share ≡ R.number_of token.old + 1) }
        ensures path { MatchOption result.guard
            (StayedOut (SawOthers (R.saw_count self.now.0) (R.number_of token.old))
            (R.took_steps self.now.0 TryLock answers.No) token.old token.new
            ⊎ SawFull (R.saw_count self.now.0) (R.number_of token.old) token.old token.new)
            (λ _. CameIn
            (CountedAgain (R.saw_count self.now.0) (R.stored_count self.now.0)
            (R.number_of token.old))
            (SawOthers (R.saw_count self.now.0) (R.number_of token.old))
            (R.took_steps self.now.0 TryLock answers.Yes)
            (R.stored_count self.now.0 0 (first_count (R.number_of token.old)))
            token.old token.new) }
    {
        let guard = match self.try_lock(token) {
            Ok(guard) => guard,
            Err(_) => None,
        };
        Shown::new(LockName::ReentrantMutex, guard)
    }
}
