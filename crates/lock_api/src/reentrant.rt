//! Mutexes that their owner may lock again.
//!
//! The value is a plain field, in no place: guards only read it. `GetThreadId` has the raw mutex as its
//! parameter, and its contract ties its answer to the token's number, by which threads are told apart.
ghost use Rattle.std.specs.Prelude.{◌≡◌, ◌≢◌, ◌+◌, Err, IfOk, IfSome, IsOk, MatchOption, MatchResult};
ghost use Rattle.std.specs.Arc.{arc_value};
ghost use Rattle.lock_raw.specs.Answers.{IsRefusal};
ghost use Rattle.lock_raw.specs.Counts.{CountedAgain, CountedLess, CountedMore, CountedOut, CountedOutAlone};
ghost use Rattle.lock_raw.specs.Counts.{SawFull, SawMore, SawOthers, first_count};
ghost use Rattle.lock_api.specs.Reentrant.{Both, Bumped, CameIn, StayedOut, WentOff};
ghost use Rattle.core_base.specs.declared.faults.Fault.TheVariants.{LockCountFull};
ghost use Rattle.spec_locks.specs.declared.calls.MutexCall.TheVariants.{Bump, Lock, TryLock, Unlock};
ghost use Rattle.spec_locks.specs.declared.calls.MutexCall.TheVariants.{UnlockFair};
ghost use Rattle.spec_locks.specs.declared.outcomes.Answer.TheVariants as answers;

use core_base::Fault;
use lock_raw::{GetThreadId, RawMutexCounted, RawMutexFair};
use lock_values::{Mapped, Project, Unlocks, UnlocksFair};
use std::marker::{Model, PhantomData};
use std::ops::Deref;
use std::sync::{Arc, Wait};

/// A value that one thread at a time may read. That thread may lock the mutex as often as it likes.
///
/// The value is in no place that a permit opens: it is never written, so a guard only reads it.
#[derive(Drop)]
pub struct ReentrantMutex<R: RawMutexCounted, G, T> {
    raw: R,
    count: R::Count,
    thread: G,
    value: T,
    ghost pair: { R.is_count_of raw count } by { R.count_once raw count },
}

// In a clause it is its raw mutex, and its value, which is never written.
impl<R: RawMutexCounted, G, T> Model for ReentrantMutex<R, G, T> {
    ghost use Rattle.std.specs.Prelude.{◌≡◌};

    ghost Value = { R × T };

    ghost view = { λ mutex. (mutex.raw, mutex.value) };
}

/// One of the times that a reentrant mutex is locked. The mutex is owned exactly while some guard
/// of it is there. A guard stays in its thread. It can't be dropped: `unlock` or `unlock_fair` is
/// its end.
pub struct ReentrantMutexGuard<'a, R: RawMutexCounted, G, T> {
    mutex: &'a ReentrantMutex<R, G, T>,
    share: R::Share,
    here: PhantomData<*const ()>,
    ghost owned: { R.is_share_of mutex.now.0 share } by { R.share_once mutex.now.0 share },
}

impl<R: RawMutexCounted, G: GetThreadId<R>, T> ReentrantMutex<R, G, T> {
    /// Makes a mutex that nobody has, with its value. It takes two words of the lot.
    ///
    /// # Errors
    ///
    /// `LotFull`, where the lot has fewer than two words left, and `NoMemory`, where memory was
    /// refused. The value is given back.
    pub fn new(
        lot: &Arc<R::Lot>,
        token: &mut R::Token,
        value: T,
    ) -> Result<ReentrantMutex<R, G, T>, (Fault, T)>
        requires { R.is_token_of (arc_value lot.now) token.old }
        ensures token { R.is_token_of (arc_value lot.now) token.new × R.keeps_rights token.old token.new }
        ensures made { MatchResult result
            (λ mutex. (R.lot_of mutex.0 ≡ arc_value lot.now) × (mutex.1 ≡ value)
            × R.drew_pair mutex.0 token.old token.new)
            (λ refused. (refused.1 ≡ value)
            × IsRefusal (R.found_few (arc_value lot.now)) token.old token.new refused.0) }
    {
        match R::new_counted(lot, token) {
            Ok((raw, count)) => Ok(ReentrantMutex {
                raw,
                count,
                thread: G::new(),
                value,
            }),
            Err(fault) => Err((fault, value)),
        }
    }

    #[inline]
    fn guard(&self, share: R::Share) -> ReentrantMutexGuard<'_, R, G, T>
        requires { R.is_share_of self.now.0 share }
        ensures { (result.mutex.now ≡ self.now) × (result.share ≡ share) }
    {
        ReentrantMutexGuard {
            mutex: self,
            share,
            here: PhantomData,
        }
    }

    /// Waits until no other thread has the mutex, and locks it, once more where this one has it.
    ///
    /// # Errors
    ///
    /// `LockCountFull`, where this thread has locked it 4294967295 times.
    #[inline]
    pub fn lock<W: Wait>(
        &self,
        rt: &W,
        token: &mut R::Token,
    ) -> Result<ReentrantMutexGuard<'_, R, G, T>, Fault>
        requires { R.is_token_of (R.lot_of self.now.0) token.old }
        ensures token { R.is_token_of (R.lot_of self.now.0) token.new × R.keeps_rights token.old token.new }
        ensures guard { MatchResult result (λ guard. guard.mutex.now ≡ self.now)
            (λ fault. fault ≡ LockCountFull) }
        ensures named { IfOk result (λ guard. R.thread_of guard.share ≡ R.number_of token.old + 1) }
        ensures path { MatchResult result
            (λ _. CameIn
            (CountedAgain (R.saw_count self.now.0) (R.stored_count self.now.0)
            (R.number_of token.old))
            (SawOthers (R.saw_count self.now.0) (R.number_of token.old))
            (R.took_steps self.now.0 Lock answers.Ok)
            (R.stored_count self.now.0 0 (first_count (R.number_of token.old)))
            token.old token.new)
            (λ _. SawFull (R.saw_count self.now.0) (R.number_of token.old) token.old token.new) }
    {
        let thread = self.thread.nonzero_thread_id(token);
        match self.raw.count_again(token, &self.count, thread)? {
            Some(share) => return Ok(self.guard(share)),
            None => {}
        }
        let guard = self.raw.lock(rt, token);
        let share = self.raw.count_first(token, &self.count, thread, guard);
        Ok(self.guard(share))
    }

    /// Locks where no other thread has the mutex. None only where it saw that this thread hasn't
    /// the mutex, and another had it.
    ///
    /// # Errors
    ///
    /// As of `lock`.
    #[inline]
    pub fn try_lock(
        &self,
        token: &mut R::Token,
    ) -> Result<Option<ReentrantMutexGuard<'_, R, G, T>>, Fault>
        requires { R.is_token_of (R.lot_of self.now.0) token.old }
        ensures token { R.is_token_of (R.lot_of self.now.0) token.new × R.keeps_rights token.old token.new }
        ensures guard { MatchResult result
            (λ taken. IfSome taken (λ guard. guard.mutex.now ≡ self.now))
            (λ fault. fault ≡ LockCountFull) }
        ensures named { IfOk result (λ taken. IfSome taken
            (λ guard. R.thread_of guard.share ≡ R.number_of token.old + 1)) }
        ensures path { MatchResult result
            (λ taken. MatchOption taken
            (StayedOut (SawOthers (R.saw_count self.now.0) (R.number_of token.old))
            (R.took_steps self.now.0 TryLock answers.No) token.old token.new)
            (λ _. CameIn
            (CountedAgain (R.saw_count self.now.0) (R.stored_count self.now.0)
            (R.number_of token.old))
            (SawOthers (R.saw_count self.now.0) (R.number_of token.old))
            (R.took_steps self.now.0 TryLock answers.Yes)
            (R.stored_count self.now.0 0 (first_count (R.number_of token.old)))
            token.old token.new))
            (λ _. SawFull (R.saw_count self.now.0) (R.number_of token.old) token.old token.new) }
    {
        let thread = self.thread.nonzero_thread_id(token);
        match self.raw.count_again(token, &self.count, thread)? {
            Some(share) => return Ok(Some(self.guard(share))),
            None => {}
        }
        let Some(guard) = self.raw.try_lock(token) else {
            return Ok(None);
        };
        let share = self.raw.count_first(token, &self.count, thread, guard);
        Ok(Some(self.guard(share)))
    }
}

impl<R: RawMutexCounted + Drop, G: Drop, T> ReentrantMutex<R, G, T>
where
    R::Count: Drop,
{
    /// Returns the value of a mutex that nobody has. It takes no step.
    pub fn into_inner(self) -> T
        ensures { result ≡ self.1 }
    {
        let ReentrantMutex {
            raw: _,
            count: _,
            thread: _,
            value,
        } = self;
        value
    }
}

impl<R: RawMutexCounted, G, T> ReentrantMutex<R, G, T> {
    /// Returns the raw mutex.
    #[inline]
    pub fn raw(&self) -> &R
        ensures { result.now ≡ self.now.0 }
    {
        &self.raw
    }
}

impl<R: RawMutexCounted, G, T> Deref for ReentrantMutexGuard<'_, R, G, T> {
    type Target = T;

    ghost deref_gives = { λ guard value. value ≡ guard.mutex.now.1 };

    #[inline]
    fn deref(&self) -> &T {
        let mutex = self.mutex;
        &mutex.value
    }
}

impl<R: RawMutexCounted, G, T> ReentrantMutexGuard<'_, R, G, T> {
    /// Gives one share up, by the token that took the guard. The last one gives the mutex up, and
    /// wakes the first that waits for it: the record of the section says whether there was one.
    #[inline]
    pub fn unlock<W: Wait>(self, rt: &W, token: &mut R::Token)
        requires token { R.is_token_of (R.lot_of self.mutex.now.0) token.old }
        requires named { R.thread_of self.share ≡ R.number_of token.old + 1 }
        ensures token { R.is_token_of (R.lot_of self.entry.mutex.now.0) token.new
            × R.keeps_rights token.old token.new }
        ensures path { WentOff (CountedLess (R.stored_count self.entry.mutex.now.0))
            (CountedOut (R.stored_count self.entry.mutex.now.0))
            (Both (R.took_steps self.entry.mutex.now.0 Unlock answers.Ok)
            (R.released self.entry.mutex.now.0 Unlock)) token.old token.new }
    {
        let ReentrantMutexGuard {
            mutex,
            share,
            here: _,
        } = self;
        if let Some(guard) = mutex.raw.count_off(token, &mutex.count, share) {
            mutex.raw.unlock(rt, token, guard);
        }
    }
}

impl<'a, R: RawMutexCounted, G, T> ReentrantMutexGuard<'a, R, G, T> {
    /// Guards of one mutex that two threads took exclude each other: nobody ever has both, so this
    /// can't be called.
    pub fn has_two_owners(self, other: ReentrantMutexGuard<'a, R, G, T>) -> !
        requires mutex { other.mutex.now ≡ self.mutex.now }
        requires differ { R.thread_of self.share ≢ R.thread_of other.share }
    {
        let ReentrantMutexGuard {
            mutex,
            share,
            here: _,
        } = self;
        let ReentrantMutexGuard {
            mutex: _,
            share: another,
            here: _,
        } = other;
        mutex.raw.has_two_owners(&mutex.count, share, another)
    }
}

impl<'a, R: RawMutexCounted, G: GetThreadId<R>, T> ReentrantMutexGuard<'a, R, G, T> {
    /// Locks the mutex once more, by a guard of this thread, which is named on the count word. It
    /// never waits for another to unlock, and is not refused below the limit.
    ///
    /// # Errors
    ///
    /// `LockCountFull` with the guard, where this thread has locked the mutex 4294967295 times.
    #[inline]
    pub fn again(
        self,
        token: &mut R::Token,
    ) -> Result<
        (
            ReentrantMutexGuard<'a, R, G, T>,
            ReentrantMutexGuard<'a, R, G, T>,
        ),
        (Fault, ReentrantMutexGuard<'a, R, G, T>),
    >
        requires token { R.is_token_of (R.lot_of self.mutex.now.0) token.old }
        requires named { R.thread_of self.share ≡ R.number_of token.old + 1 }
        ensures token { R.is_token_of (R.lot_of self.entry.mutex.now.0) token.new
            × R.keeps_rights token.old token.new }
        ensures guard { MatchResult result
            (λ guards. (guards.0.mutex.now ≡ self.entry.mutex.now)
            × (guards.1.mutex.now ≡ self.entry.mutex.now))
            (λ refused. (refused.0 ≡ LockCountFull)
            × (refused.1.mutex.now ≡ self.entry.mutex.now)) }
        ensures named { MatchResult result
            (λ guards. (R.thread_of guards.0.share ≡ R.number_of token.old + 1)
            × (R.thread_of guards.1.share ≡ R.number_of token.old + 1))
            (λ refused. R.thread_of refused.1.share ≡ R.number_of token.old + 1) }
        ensures path { MatchResult result
            (λ _. CountedMore (R.stored_count self.entry.mutex.now.0) (R.number_of token.old)
            token.old token.new)
            (λ _. SawFull (R.saw_count self.entry.mutex.now.0) (R.number_of token.old) token.old
            token.new) }
    {
        let ReentrantMutexGuard {
            mutex,
            share,
            here: _,
        } = self;
        let thread = mutex.thread.nonzero_thread_id(token);
        match mutex.raw.count_more(token, &mutex.count, thread, share) {
            Ok((share, another)) => Ok((mutex.guard(share), mutex.guard(another))),
            Err((fault, share)) => Err((fault, mutex.guard(share))),
        }
    }
}

impl<'a, R: RawMutexCounted + RawMutexFair, G: GetThreadId<R>, T> ReentrantMutexGuard<'a, R, G, T> {
    /// Hands the mutex to the first that waits for it, and waits to take it again. Where nobody
    /// waits, or this thread has locked the mutex more than once, it keeps the mutex. The token is the
    /// one that took the guard.
    #[inline]
    pub fn bump<W: Wait>(self, rt: &W, token: &mut R::Token) -> ReentrantMutexGuard<'a, R, G, T>
        requires token { R.is_token_of (R.lot_of self.mutex.now.0) token.old }
        requires named { R.thread_of self.share ≡ R.number_of token.old + 1 }
        ensures token { R.is_token_of (R.lot_of self.entry.mutex.now.0) token.new
            × R.keeps_rights token.old token.new }
        ensures guard { result.mutex.now ≡ self.entry.mutex.now }
        ensures named { R.thread_of result.share ≡ R.number_of token.old + 1 }
        ensures path { Bumped (SawMore (R.saw_count self.entry.mutex.now.0))
            (CountedOutAlone (R.saw_count self.entry.mutex.now.0)
            (R.stored_count self.entry.mutex.now.0))
            (R.took_steps self.entry.mutex.now.0 Bump answers.Ok)
            (λ inside new. R.stored_count self.entry.mutex.now.0 0
            (first_count (R.number_of inside)) inside new) token.old token.new }
    {
        let ReentrantMutexGuard {
            mutex,
            share,
            here: _,
        } = self;
        match mutex.raw.count_off_only(token, &mutex.count, share) {
            Ok(guard) => {
                let guard = mutex.raw.bump(rt, token, guard);
                let thread = mutex.thread.nonzero_thread_id(token);
                let share = mutex.raw.count_first(token, &mutex.count, thread, guard);
                mutex.guard(share)
            }
            Err(share) => mutex.guard(share),
        }
    }
}

impl<R: RawMutexCounted + RawMutexFair, G, T> ReentrantMutexGuard<'_, R, G, T> {
    /// Releases fairly, and else as `unlock` does.
    #[inline]
    pub fn unlock_fair<W: Wait>(self, rt: &W, token: &mut R::Token)
        requires token { R.is_token_of (R.lot_of self.mutex.now.0) token.old }
        requires named { R.thread_of self.share ≡ R.number_of token.old + 1 }
        ensures token { R.is_token_of (R.lot_of self.entry.mutex.now.0) token.new
            × R.keeps_rights token.old token.new }
        ensures path { WentOff (CountedLess (R.stored_count self.entry.mutex.now.0))
            (CountedOut (R.stored_count self.entry.mutex.now.0))
            (Both (R.took_steps self.entry.mutex.now.0 UnlockFair answers.Ok)
            (R.released self.entry.mutex.now.0 UnlockFair)) token.old token.new }
    {
        let ReentrantMutexGuard {
            mutex,
            share,
            here: _,
        } = self;
        if let Some(guard) = mutex.raw.count_off(token, &mutex.count, share) {
            mutex.raw.unlock_fair(rt, token, guard);
        }
    }
}

impl<R: RawMutexCounted, G, T> lock_values::Shows for ReentrantMutexGuard<'_, R, G, T> {
    ghost use Rattle.std.specs.Prelude.{◌≡◌, refl};

    type Value = T;

    ghost shown = { λ guard. guard.mutex.now.1 };

    ghost written = { λ guard value. record guard {
      mutex = record guard.mutex { now = (guard.mutex.now.0, value) };
      owned = guard.owned;
    } };

    ghost shows_written = { λ _ _. refl };

    #[inline]
    fn show(&self) -> &T {
        self.deref()
    }
}

impl<'a, R: RawMutexCounted, G, T> Unlocks for ReentrantMutexGuard<'a, R, G, T> {
    type Token = R::Token;

    ghost may_unlock = { λ guard token. R.is_token_of (R.lot_of guard.mutex.now.0) token
        × (R.thread_of guard.share ≡ R.number_of token + 1) };

    ghost unlocked = { λ guard old new. R.is_token_of (R.lot_of guard.mutex.now.0) new
        × R.keeps_rights old new
        × WentOff (CountedLess (R.stored_count guard.mutex.now.0))
        (CountedOut (R.stored_count guard.mutex.now.0))
        (Both (R.took_steps guard.mutex.now.0 Unlock answers.Ok)
        (R.released guard.mutex.now.0 Unlock)) old new };

    #[inline]
    fn unlock<W: Wait>(self, rt: &W, token: &mut R::Token) {
        ReentrantMutexGuard::<'a, R, G, T>::unlock(self, rt, token);
    }
}

impl<'a, R: RawMutexCounted + RawMutexFair, G, T> UnlocksFair for ReentrantMutexGuard<'a, R, G, T> {
    ghost unlocked_fair = { λ guard old new. R.is_token_of (R.lot_of guard.mutex.now.0) new
        × R.keeps_rights old new
        × WentOff (CountedLess (R.stored_count guard.mutex.now.0))
        (CountedOut (R.stored_count guard.mutex.now.0))
        (Both (R.took_steps guard.mutex.now.0 UnlockFair answers.Ok)
        (R.released guard.mutex.now.0 UnlockFair)) old new };

    #[inline]
    fn unlock_fair<W: Wait>(self, rt: &W, token: &mut R::Token) {
        ReentrantMutexGuard::<'a, R, G, T>::unlock_fair(self, rt, token);
    }
}

/// Guards a part of a reentrant mutex's value.
pub type MappedReentrantMutexGuard<'a, R, G, T, P> = Mapped<ReentrantMutexGuard<'a, R, G, T>, P>;

impl<'a, R: RawMutexCounted, G, T> ReentrantMutexGuard<'a, R, G, T> {
    /// Maps the guard to a part of the value that is there.
    #[inline]
    pub fn map<P: Project<T>>(self, by: P) -> MappedReentrantMutexGuard<'a, R, G, T, P>
        requires { IsOk (P.finds by self.mutex.now.1) }
        ensures { (result.guard ≡ self.entry) × (result.by ≡ by) }
    {
        Mapped::new(self, by)
    }

    /// Maps the guard where the part is there.
    ///
    /// # Errors
    ///
    /// The guard and the projection's reason, where the part is not there.
    #[inline]
    pub fn try_map_or_err<P: Project<T>>(
        self,
        by: P,
    ) -> Result<
        MappedReentrantMutexGuard<'a, R, G, T, P>,
        (ReentrantMutexGuard<'a, R, G, T>, P::Error),
    >
        ensures { MatchResult result
            (λ mapped. (mapped.guard ≡ self.entry) × (mapped.by ≡ by))
            (λ refused. (refused.0 ≡ self.entry)
            × (P.finds by self.entry.mutex.now.1 ≡ Err refused.1)) }
    {
        Mapped::try_new(self, by)
    }
}
