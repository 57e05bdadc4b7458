//! Raw locks, as generic code sees them.
//!
//! The traits name lots by equality and tokens by a relation to a lot, so that each fact about a token
//! holds for every lock of its lot. That a guard fits its mutex has one proof at most (`guard_once`),
//! so a struct may keep that fact. `RawMutex` has a fast half and a slow half of `lock` and of
//! `unlock`, and between them `begun` says what the thread saw and owns: the fast half takes one step
//! and no `Wait`, so that after it no flag is tested.
#![tactic(auto)]

pub mod condvar;
pub mod counted;
pub mod counts;
pub mod rwlock;
pub mod rwlock_fair;
pub mod rwlock_halves;
pub mod rwlock_upgrade;

ghost use Rattle.std.specs.Prelude.{◌≡◌, ℕ, Bool, MatchResult, IfErr, IfNone, IfOk, IfSome};
ghost use Rattle.std.specs.Arc.{arc_value};
ghost use Rattle.std.specs.Duration.{as_nanos};
ghost use Rattle.core_clocks.specs.Clocks.{HasElapsed, HasPassed};
ghost use Rattle.spec_locks.specs.declared.calls.MutexCall.{MutexCall};
ghost use Rattle.spec_locks.specs.declared.calls.MutexCall.TheVariants.{Lock, LockTimed, TryLock, Unlock};
ghost use Rattle.spec_locks.specs.declared.calls.MutexCall.TheVariants.{UnlockFair, Bump};
ghost use Rattle.spec_locks.specs.declared.outcomes.Answer.{Answer};
ghost use Rattle.spec_locks.specs.declared.outcomes.Answer.TheVariants as answers;
ghost use Rattle.lock_raw.specs.Answers.{IsRefusal, answer_by};
ghost use Rattle.core_parts.specs.PermitIds.{PermitId};

pub use condvar::{RawCondvar, RawCondvarTimed};
use core_base::Fault;
use core_clocks::Clock;
use core_parts::Permit;
pub use counted::{GetThreadId, RawMutexCounted};
pub use counts::advance_count;
pub use rwlock::{RawRwLock, RawRwLockDowngrade, RawRwLockTimed};
pub use rwlock_fair::{RawRwLockFair, RawRwLockUpgradeFair};
pub use rwlock_halves::RawRwLockHalves;
pub use rwlock_upgrade::{RawRwLockUpgrade, RawRwLockUpgradeDowngrade, RawRwLockUpgradeTimed};
use std::sync::{Arc, Wait};
use std::time::Duration;

/// A mutex without a value. A thread that has taken it has its guard, and spends it to give the
/// mutex up.
pub trait RawMutex {
    /// Where the locks and the threads meet.
    type Lot;
    /// A thread of a lot.
    type Token;
    /// The ownership of a mutex, with the permit of the value that this guards. It borrows nothing.
    type Guard;
    /// A guard without the permit, which opens the value.
    type Opened;

    // The lot of a mutex.
    ghost lot_of: { Self → Self.Lot };
    // A thread belongs to a lot.
    ghost is_token_of: { Self.Lot → Self.Token → Type 0 };
    // Two tokens are of one thread, which owns what it did.
    ghost keeps_rights: { Self.Token → Self.Token → Type 0 };
    // What stays through each of two calls stays through both.
    ghost keeps_rights_on: { (first next last : Self.Token) → keeps_rights first next → keeps_rights next last
        → keeps_rights first last };
    // The number of a thread, from 0, which it keeps meanwhile.
    ghost number_of: { Self.Token → ℕ };

    ghost number_stays: { (old new : Self.Token) → keeps_rights old new
        → number_of new ≡ number_of old };
    // A guard is of this mutex.
    ghost is_guard_of: { Self → Self.Guard → Type 0 };
    // The fact that a guard is of a mutex has one proof at most: a struct may keep it as a ghost field.
    ghost guard_once: { (mutex : Self) (guard : Self.Guard) → IsProp (is_guard_of mutex guard) };
    // Which permit opens the value that a mutex guards.
    ghost permit_of: { Self → PermitId };
    // An open guard is of this mutex, and that has one proof at most too.
    ghost is_opened_of: { Self → Self.Opened → Type 0 };

    ghost opened_once: { (mutex : Self) (opened : Self.Opened)
        → IsProp (is_opened_of mutex opened) };
    // Between the two states of a thread it drew the word of this mutex, which nobody has stepped
    // on.
    ghost drew: { Self → Self.Token → Self.Token → Type 0 };
    // Between them its last step found the lot full, and it drew nothing.
    ghost found_full: { Self.Lot → Self.Token → Self.Token → Type 0 };
    // Between them it took the steps of this call of the mutex, to this answer.
    ghost took_steps: { Self → MutexCall → Answer → Self.Token → Self.Token → Type 0 };
    // Between them it gave the mutex up by this call, and took the first that waits where it saw a
    // waiter.
    ghost released: { Self → MutexCall → Self.Token → Self.Token → Type 0 };
    // Between them it took the first step of this call, which saw this, and the call has more to
    // do.
    ghost begun: { Self → MutexCall → ℕ → Self.Token → Self.Token → Type 0 };
    // Between them it took one step, which saw the mutex locked or not.
    ghost looked: { Self → Bool → Self.Token → Self.Token → Type 0 };

    /// Makes a mutex that nobody has.
    ///
    /// # Errors
    ///
    /// `LotFull`, where the lot has no word left, and `NoMemory`, where memory was refused.
    fn new(lot: &Arc<Self::Lot>, token: &mut Self::Token) -> Result<Self, Fault>
        requires { is_token_of (arc_value lot.now) token.old }
        ensures token { is_token_of (arc_value lot.now) token.new × keeps_rights token.old token.new }
        ensures made { MatchResult result (λ mutex. lot_of mutex ≡ arc_value lot.now)
            (IsRefusal (found_full (arc_value lot.now)) token.old token.new) }
        ensures drawn { IfOk result (λ mutex. drew mutex token.old token.new) };

    /// Waits until nobody has the mutex, and takes it.
    fn lock<R: Wait>(&self, rt: &R, token: &mut Self::Token) -> Self::Guard
        requires { is_token_of (lot_of self.now) token.old }
        ensures token { is_token_of (lot_of self.now) token.new × keeps_rights token.old token.new }
        ensures guard { is_guard_of self.now result }
        ensures path { took_steps self.now Lock answers.Ok token.old token.new };

    /// Takes the mutex where nobody has it.
    fn try_lock(&self, token: &mut Self::Token) -> Option<Self::Guard>
        requires { is_token_of (lot_of self.now) token.old }
        ensures token { is_token_of (lot_of self.now) token.new × keeps_rights token.old token.new }
        ensures guard { IfSome result (is_guard_of self.now) }
        ensures path { took_steps self.now TryLock (answer_by result) token.old token.new };

    /// Gives the mutex up, and wakes the first that waits for it. The guard is spent.
    fn unlock<R: Wait>(&self, rt: &R, token: &mut Self::Token, guard: Self::Guard)
        requires token { is_token_of (lot_of self.now) token.old }
        requires guard { is_guard_of self.now guard }
        ensures token { is_token_of (lot_of self.now) token.new × keeps_rights token.old token.new }
        ensures path { took_steps self.now Unlock answers.Ok token.old token.new }
        ensures record { released self.now Unlock token.old token.new };

    /// Returns whether somebody has the mutex.
    fn is_locked(&self, token: &mut Self::Token) -> bool
        requires { is_token_of (lot_of self.now) token.old }
        ensures token { is_token_of (lot_of self.now) token.new × keeps_rights token.old token.new }
        ensures seen { looked self.now result token.old token.new };

    /// Takes the permit of the value out of a guard. It does nothing at run time.
    fn open_value(&self, guard: Self::Guard) -> (Self::Opened, Permit)
        requires { is_guard_of self.now guard }
        ensures { is_opened_of self.now result.0 × (result.1.id ≡ permit_of self.now) };

    /// Lays it back, as little at run time.
    fn close_value(&self, opened: Self::Opened, permit: Permit) -> Self::Guard
        requires { is_opened_of self.now opened × (permit.id ≡ permit_of self.now) }
        ensures { is_guard_of self.now result };

    /// Takes the first step of `lock`, with which a mutex that nobody has is taken: then that was
    /// all.
    ///
    /// # Errors
    ///
    /// What is left to `lock_slow`: the value that the step saw, where somebody has the mutex, or that no
    /// step is taken, where the thread has to wait for its turn first.
    fn lock_fast(&self, token: &mut Self::Token) -> Result<Self::Guard, u64>
        requires { is_token_of (lot_of self.now) token.old }
        ensures token { is_token_of (lot_of self.now) token.new }
        ensures over { IfOk result
            (λ guard. keeps_rights token.old token.new
            × took_steps self.now Lock answers.Ok token.old token.new
            × is_guard_of self.now guard) }
        ensures begun { IfErr result (λ seen. begun self.now Lock seen token.old token.new) };

    /// Does what `lock_fast` has left of a `lock`.
    fn lock_slow<R: Wait>(&self, rt: &R, token: &mut Self::Token, seen: u64) -> Self::Guard
        requires token { is_token_of (lot_of self.now) token.old }
        requires begun { (before : Self.Token) × begun self.now Lock seen before token.old }
        ensures token { is_token_of (lot_of self.now) token.new }
        ensures guard { is_guard_of self.now result }
        ensures over { (before : Self.Token) → begun self.now Lock seen before token.old
            → keeps_rights before token.new × took_steps self.now Lock answers.Ok before token.new };

    /// Returns the lot of the mutex.
    fn lot(&self) -> &Self::Lot
        ensures { result.now ≡ lot_of self.now };

    /// Takes the first step of `unlock`, which spends the guard. Returns what is left to `unlock_slow`,
    /// where the call has more to do: what the step saw, or that none is taken.
    ///
    /// The lot is that of the mutex: a thread that has kept it since the mutex was taken needn't
    /// look for it after an atomic step.
    fn unlock_fast(
        &self,
        lot: &Self::Lot,
        token: &mut Self::Token,
        guard: Self::Guard,
    ) -> Option<u64>
        requires lot { lot.now ≡ lot_of self.now }
        requires token { is_token_of (lot_of self.now) token.old }
        requires guard { is_guard_of self.now guard }
        ensures token { is_token_of (lot_of self.now) token.new }
        ensures over { IfNone result
            (keeps_rights token.old token.new × took_steps self.now Unlock answers.Ok token.old token.new
            × released self.now Unlock token.old token.new) }
        ensures begun { IfSome result (λ seen. begun self.now Unlock seen token.old token.new) };

    /// Does what `unlock_fast` has left of an `unlock`.
    fn unlock_slow<R: Wait>(&self, rt: &R, token: &mut Self::Token, seen: u64)
        requires token { is_token_of (lot_of self.now) token.old }
        requires begun { (before : Self.Token) × begun self.now Unlock seen before token.old }
        ensures token { is_token_of (lot_of self.now) token.new }
        ensures over { (before : Self.Token) → begun self.now Unlock seen before token.old
            → keeps_rights before token.new
            × took_steps self.now Unlock answers.Ok before token.new
            × released self.now Unlock before token.new };

    /// Two guards of one mutex exclude each other: nobody ever has both, so this can't be called.
    fn has_two_guards(&self, token: &mut Self::Token, one: Self::Guard, other: Self::Guard) -> !
        requires token { is_token_of (lot_of self.now) token.old }
        requires guards { is_guard_of self.now one × is_guard_of self.now other };
}

/// A mutex that its owner may hand to the first that waits.
pub trait RawMutexFair: RawMutex {
    /// Hands the mutex to the first that waits for it. Where nobody waits, gives it up. The guard
    /// is spent.
    fn unlock_fair<R: Wait>(&self, rt: &R, token: &mut Self::Token, guard: Self::Guard)
        requires token { Self.is_token_of (Self.lot_of self.now) token.old }
        requires guard { Self.is_guard_of self.now guard }
        ensures token { Self.is_token_of (Self.lot_of self.now) token.new
            × Self.keeps_rights token.old token.new }
        ensures path { Self.took_steps self.now UnlockFair answers.Ok token.old token.new }
        ensures record { Self.released self.now UnlockFair token.old token.new };

    /// Hands the mutex to the first that waits for it, and waits to take it again. Where nobody
    /// waits, keeps it.
    fn bump<R: Wait>(&self, rt: &R, token: &mut Self::Token, guard: Self::Guard) -> Self::Guard
        requires token { Self.is_token_of (Self.lot_of self.now) token.old }
        requires guard { Self.is_guard_of self.now guard }
        ensures token { Self.is_token_of (Self.lot_of self.now) token.new
            × Self.keeps_rights token.old token.new }
        ensures guard { Self.is_guard_of self.now result }
        ensures path { Self.took_steps self.now Bump answers.Ok token.old token.new };
}

/// A mutex whose waiters may give up.
pub trait RawMutexTimed: RawMutex {
    // The thread gave up: the last section that it left was that of the mutex's queue, where it
    // took nobody.
    ghost gave_up: { Self → Self.Token → Type 0 };

    /// Waits until nobody has the mutex, and takes it. None once so much time, in nanoseconds of the
    /// clock, has passed.
    ///
    /// A time that ends past all that a `u64` tells is no limit.
    fn try_lock_for<R: Wait, C: Clock>(
        &self,
        rt: &R,
        token: &mut Self::Token,
        clock: &C,
        timeout: Duration,
    ) -> Option<Self::Guard>
        requires { Self.is_token_of (Self.lot_of self.now) token.old }
        ensures token { Self.is_token_of (Self.lot_of self.now) token.new
            × Self.keeps_rights token.old token.new }
        ensures guard { IfSome result (Self.is_guard_of self.now) }
        ensures path { Self.took_steps self.now LockTimed (answer_by result) token.old token.new }
        ensures left { IfNone result (gave_up self.now token.new) }
        ensures late { IfNone result (HasElapsed (C.tells clock.now) (as_nanos timeout)) };

    /// Waits until nobody has the mutex, and takes it. None once the clock has come to the
    /// deadline.
    fn try_lock_until<R: Wait, C: Clock>(
        &self,
        rt: &R,
        token: &mut Self::Token,
        clock: &C,
        deadline: u64,
    ) -> Option<Self::Guard>
        requires { Self.is_token_of (Self.lot_of self.now) token.old }
        ensures token { Self.is_token_of (Self.lot_of self.now) token.new
            × Self.keeps_rights token.old token.new }
        ensures guard { IfSome result (Self.is_guard_of self.now) }
        ensures path { Self.took_steps self.now LockTimed (answer_by result) token.old token.new }
        ensures left { IfNone result (gave_up self.now token.new) }
        ensures late { IfNone result (HasPassed (C.tells clock.now) deadline) };
}
