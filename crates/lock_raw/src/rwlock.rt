//! Raw reader-writer locks, as generic code sees them.
ghost use Rattle.std.specs.Prelude.{◌≡◌, ◌≤◌, ℕ, Bool, MatchResult, IfErr, IfNone, IfOk, IfSome};
ghost use Rattle.std.specs.Arc.{arc_value};
ghost use Rattle.std.specs.Duration.{as_nanos};
ghost use Rattle.core_clocks.specs.Clocks.{HasElapsed, HasPassed};
ghost use Rattle.spec_locks.specs.declared.calls.Access.{Access};
ghost use Rattle.spec_locks.specs.declared.calls.Access.TheVariants as access;
ghost use Rattle.spec_locks.specs.declared.calls.Downgrade.TheVariants as downgrades;
ghost use Rattle.spec_locks.specs.declared.calls.Patience.TheVariants.{Patient, Timed, Try};
ghost use Rattle.spec_locks.specs.declared.calls.RwLockCall.{RwLockCall};
ghost use Rattle.spec_locks.specs.declared.calls.RwLockCall.TheVariants.{Enter, Release, Downgrade};
ghost use Rattle.spec_locks.specs.declared.outcomes.Answer.{Answer};
ghost use Rattle.spec_locks.specs.declared.outcomes.Answer.TheVariants as answers;
ghost use Rattle.lock_values.specs.Ownership.{PlaceId};
ghost use Rattle.core_words.specs.declared.views.View.{View};
ghost use Rattle.lock_raw.specs.Answers.{IsReadersFull, IsRefusal, TriesOrFull, answer_by, counted_answer};
ghost use Rattle.lock_raw.specs.Answers.{reading_answer};

use crate::rwlock_halves::RawRwLockHalves;
use core_base::Fault;
use core_clocks::Clock;
use std::sync::{Arc, Wait};
use std::time::Duration;

/// A reader-writer lock without a value. A thread that has entered it has a guard, which says how.
/// It spends the guard to leave.
pub trait RawRwLock: RawRwLockHalves {
    // The number of threads that may share a lock.
    ghost limit_of: { Self → ℕ };
    // A lot is of so many threads.
    ghost seats_of: { Self.Lot → ℕ };
    // Between the two states of a thread it drew the word of this lock, which nobody has stepped
    // on.
    ghost drew: { Self → Self.Token → Self.Token → Type 0 };
    // Between them its last step found the lot full, and it drew nothing.
    ghost found_full: { Self.Lot → Self.Token → Self.Token → Type 0 };
    // Between them it took one step, which saw that somebody has the lock, or not.
    ghost looked: { Self → Bool → Self.Token → Self.Token → Type 0 };
    // What a look for an exclusive owner saw.
    ghost looked_for_writer: { Self → Bool → Self.Token → Self.Token → Type 0 };
    // A call that gave up: it left no section after a last step that saw nobody to wake, or one in
    // which it took those that it had kept out, or that of the main queue, where it took nobody.
    ghost gave_up: { Self → RwLockCall → Self.Token → Type 0 };

    /// Makes a lock that nobody has, and that as many may share as there can be.
    ///
    /// # Errors
    ///
    /// `LotFull`, where the lot has no word left, and `NoMemory`, where memory was refused.
    fn new(lot: &Arc<Self::Lot>, token: &mut Self::Token) -> Result<Self, Fault>
        requires { Self.is_token_of (arc_value lot.now) token.old }
        ensures token { Self.is_token_of (arc_value lot.now) token.new
            × Self.keeps_rights token.old token.new }
        ensures made { MatchResult result
            (λ lock. (Self.lot_of lock ≡ arc_value lot.now) × (limit_of lock ≡ 1152921504606846974))
            (IsRefusal (found_full (arc_value lot.now)) token.old token.new) }
        ensures drawn { IfOk result (λ lock. drew lock token.old token.new) };

    /// Makes a lock that nobody has, and that so many threads may share: at least as many as the lot
    /// has threads, and at most 2^60 - 2. An exclusive owner's hand-over to all that wait thereby
    /// never passes the limit.
    ///
    /// # Errors
    ///
    /// `LotFull`, where the lot has no word left, and `NoMemory`, where memory was refused.
    fn with_limit(lot: &Arc<Self::Lot>, token: &mut Self::Token, limit: u64) -> Result<Self, Fault>
        requires token { Self.is_token_of (arc_value lot.now) token.old }
        requires limit { (seats_of (arc_value lot.now) ≤ limit)
            × (limit ≤ 1152921504606846974) }
        ensures token { Self.is_token_of (arc_value lot.now) token.new
            × Self.keeps_rights token.old token.new }
        ensures made { MatchResult result
            (λ lock. (Self.lot_of lock ≡ arc_value lot.now) × (limit_of lock ≡ limit))
            (IsRefusal (found_full (arc_value lot.now)) token.old token.new) }
        ensures drawn { IfOk result (λ lock. drew lock token.old token.new) };

    /// Waits until no writer keeps readers out, and comes in to read.
    ///
    /// # Errors
    ///
    /// `ReadersFull`, where as many share the lock as may.
    fn lock_shared<R: Wait>(
        &self,
        rt: &R,
        token: &mut Self::Token,
    ) -> Result<Self::SharedGuard, Fault>
        requires { Self.is_token_of (Self.lot_of self.now) token.old }
        ensures token { Self.is_token_of (Self.lot_of self.now) token.new
            × Self.keeps_rights token.old token.new }
        ensures guard { MatchResult result (Self.is_shared_of self.now) IsReadersFull }
        ensures path { Self.took_steps self.now (Enter access.Shared Patient)
            (reading_answer result) token.old token.new }
        ensures full { IfErr result (λ _. Self.saw_full self.now access.Shared token.old token.new) };

    /// Comes in to read where no writer keeps readers out. It may have to try again where others
    /// come and go.
    ///
    /// # Errors
    ///
    /// `ReadersFull`, where as many share the lock as may.
    fn try_lock_shared<R: Wait>(
        &self,
        rt: &R,
        token: &mut Self::Token,
    ) -> Result<Option<Self::SharedGuard>, Fault>
        requires { Self.is_token_of (Self.lot_of self.now) token.old }
        ensures token { Self.is_token_of (Self.lot_of self.now) token.new
            × Self.keeps_rights token.old token.new }
        ensures guard { TriesOrFull result (Self.is_shared_of self.now) }
        ensures path { Self.took_steps self.now (Enter access.Shared Try)
            (counted_answer result) token.old token.new }
        ensures full { IfErr result (λ _. Self.saw_full self.now access.Shared token.old token.new) };

    /// Gives the right to read up. The last reader wakes the writer that waits for it.
    fn unlock_shared<R: Wait>(&self, rt: &R, token: &mut Self::Token, guard: Self::SharedGuard)
        requires token { Self.is_token_of (Self.lot_of self.now) token.old }
        requires guard { Self.is_shared_of self.now guard }
        ensures token { Self.is_token_of (Self.lot_of self.now) token.new
            × Self.keeps_rights token.old token.new }
        ensures path { Self.took_steps self.now (Release access.Shared) answers.Ok token.old token.new }
        ensures record { Self.woke_waiters self.now (Release access.Shared) token.old token.new };

    /// Waits until nobody has the lock, and takes it.
    fn lock_exclusive<R: Wait>(&self, rt: &R, token: &mut Self::Token) -> Self::ExclusiveGuard
        requires { Self.is_token_of (Self.lot_of self.now) token.old }
        ensures token { Self.is_token_of (Self.lot_of self.now) token.new
            × Self.keeps_rights token.old token.new }
        ensures guard { Self.is_exclusive_of self.now result }
        ensures path { Self.took_steps self.now
            (Enter access.Exclusive Patient) answers.Ok token.old token.new };

    /// Takes the lock where nobody has it, and nobody waits. It is one step.
    fn try_lock_exclusive(&self, token: &mut Self::Token) -> Option<Self::ExclusiveGuard>
        requires { Self.is_token_of (Self.lot_of self.now) token.old }
        ensures token { Self.is_token_of (Self.lot_of self.now) token.new
            × Self.keeps_rights token.old token.new }
        ensures guard { IfSome result (Self.is_exclusive_of self.now) }
        ensures path { Self.took_steps self.now (Enter access.Exclusive Try)
            (answer_by result) token.old token.new };

    /// Gives the lock up, and wakes the threads that this lets in.
    fn unlock_exclusive<R: Wait>(
        &self,
        rt: &R,
        token: &mut Self::Token,
        guard: Self::ExclusiveGuard,
    )
        requires token { Self.is_token_of (Self.lot_of self.now) token.old }
        requires guard { Self.is_exclusive_of self.now guard }
        ensures token { Self.is_token_of (Self.lot_of self.now) token.new
            × Self.keeps_rights token.old token.new }
        ensures path { Self.took_steps self.now (Release access.Exclusive) answers.Ok token.old token.new }
        ensures record { Self.woke_waiters self.now (Release access.Exclusive) token.old token.new };

    /// Returns whether somebody has the lock, or a writer waits for its last readers.
    fn is_locked(&self, token: &mut Self::Token) -> bool
        requires { Self.is_token_of (Self.lot_of self.now) token.old }
        ensures token { Self.is_token_of (Self.lot_of self.now) token.new
            × Self.keeps_rights token.old token.new }
        ensures seen { looked self.now result token.old token.new };

    /// Returns whether somebody has the lock alone.
    fn is_locked_exclusive(&self, token: &mut Self::Token) -> bool
        requires { Self.is_token_of (Self.lot_of self.now) token.old }
        ensures token { Self.is_token_of (Self.lot_of self.now) token.new
            × Self.keeps_rights token.old token.new }
        ensures seen { looked_for_writer self.now result token.old token.new };
}

/// A lock whose writer may go on as a reader.
pub trait RawRwLockDowngrade: RawRwLock {
    /// Turns the right of a thread that has the lock alone into the right to read, in one step, and
    /// wakes the threads that this lets in.
    fn downgrade<R: Wait>(
        &self,
        rt: &R,
        token: &mut Self::Token,
        guard: Self::ExclusiveGuard,
    ) -> Self::SharedGuard
        requires token { Self.RawRwLockHalves.is_token_of (Self.RawRwLockHalves.lot_of self.now) token.old }
        requires guard { Self.RawRwLockHalves.is_exclusive_of self.now guard }
        ensures token { Self.RawRwLockHalves.is_token_of (Self.RawRwLockHalves.lot_of self.now) token.new
            × Self.RawRwLockHalves.keeps_rights token.old token.new }
        ensures guard { Self.RawRwLockHalves.is_shared_of self.now result }
        ensures path { Self.RawRwLockHalves.took_steps self.now
            (Downgrade downgrades.ToShared) answers.Ok token.old token.new }
        ensures record { Self.RawRwLockHalves.woke_waiters self.now (Downgrade downgrades.ToShared) token.old
            token.new };
}

/// A lock whose waiters may give up.
pub trait RawRwLockTimed: RawRwLock {
    /// Waits until no writer keeps readers out, and comes in to read. None once so much time, in
    /// nanoseconds of the clock, has passed.
    ///
    /// A time that ends past all that a `u64` tells is no limit.
    ///
    /// # Errors
    ///
    /// `ReadersFull`, where as many share the lock as may.
    fn try_lock_shared_for<R: Wait, C: Clock>(
        &self,
        rt: &R,
        token: &mut Self::Token,
        clock: &C,
        timeout: Duration,
    ) -> Result<Option<Self::SharedGuard>, Fault>
        requires { Self.RawRwLockHalves.is_token_of (Self.RawRwLockHalves.lot_of self.now) token.old }
        ensures token { Self.RawRwLockHalves.is_token_of (Self.RawRwLockHalves.lot_of self.now) token.new
            × Self.RawRwLockHalves.keeps_rights token.old token.new }
        ensures guard { TriesOrFull result (Self.RawRwLockHalves.is_shared_of self.now) }
        ensures path { Self.RawRwLockHalves.took_steps self.now (Enter access.Shared Timed)
            (counted_answer result) token.old token.new }
        ensures full { IfErr result
            (λ _. Self.RawRwLockHalves.saw_full self.now access.Shared token.old token.new) }
        ensures left { IfOk result
            (λ entered. IfNone entered
            (Self.RawRwLock.gave_up self.now (Enter access.Shared Timed) token.new)) }
        ensures late { IfOk result
            (λ entered. IfNone entered (HasElapsed (C.tells clock.now) (as_nanos timeout))) };

    /// Shares the lock, or gives up at a deadline, in nanoseconds of the clock. None once the
    /// clock has come to it.
    ///
    /// # Errors
    ///
    /// `ReadersFull`, where as many share the lock as may.
    fn try_lock_shared_until<R: Wait, C: Clock>(
        &self,
        rt: &R,
        token: &mut Self::Token,
        clock: &C,
        deadline: u64,
    ) -> Result<Option<Self::SharedGuard>, Fault>
        requires { Self.RawRwLockHalves.is_token_of (Self.RawRwLockHalves.lot_of self.now) token.old }
        ensures token { Self.RawRwLockHalves.is_token_of (Self.RawRwLockHalves.lot_of self.now) token.new
            × Self.RawRwLockHalves.keeps_rights token.old token.new }
        ensures guard { TriesOrFull result (Self.RawRwLockHalves.is_shared_of self.now) }
        ensures path { Self.RawRwLockHalves.took_steps self.now (Enter access.Shared Timed)
            (counted_answer result) token.old token.new }
        ensures full { IfErr result
            (λ _. Self.RawRwLockHalves.saw_full self.now access.Shared token.old token.new) }
        ensures left { IfOk result
            (λ entered. IfNone entered
            (Self.RawRwLock.gave_up self.now (Enter access.Shared Timed) token.new)) }
        ensures late { IfOk result
            (λ entered. IfNone entered (HasPassed (C.tells clock.now) deadline)) };

    /// Waits until nobody has the lock, and takes it. None once so much time, in nanoseconds of the
    /// clock, has passed.
    ///
    /// A time that ends past all that a `u64` tells is no limit.
    fn try_lock_exclusive_for<R: Wait, C: Clock>(
        &self,
        rt: &R,
        token: &mut Self::Token,
        clock: &C,
        timeout: Duration,
    ) -> Option<Self::ExclusiveGuard>
        requires { Self.RawRwLockHalves.is_token_of (Self.RawRwLockHalves.lot_of self.now) token.old }
        ensures token { Self.RawRwLockHalves.is_token_of (Self.RawRwLockHalves.lot_of self.now) token.new
            × Self.RawRwLockHalves.keeps_rights token.old token.new }
        ensures guard { IfSome result (Self.RawRwLockHalves.is_exclusive_of self.now) }
        ensures path { Self.RawRwLockHalves.took_steps self.now (Enter access.Exclusive Timed)
            (answer_by result) token.old token.new }
        ensures left { IfNone result
            (Self.RawRwLock.gave_up self.now (Enter access.Exclusive Timed) token.new) }
        ensures late { IfNone result (HasElapsed (C.tells clock.now) (as_nanos timeout)) };

    /// Locks exclusively, or gives up at a deadline, in nanoseconds of the clock. None once the
    /// clock has come to it.
    fn try_lock_exclusive_until<R: Wait, C: Clock>(
        &self,
        rt: &R,
        token: &mut Self::Token,
        clock: &C,
        deadline: u64,
    ) -> Option<Self::ExclusiveGuard>
        requires { Self.RawRwLockHalves.is_token_of (Self.RawRwLockHalves.lot_of self.now) token.old }
        ensures token { Self.RawRwLockHalves.is_token_of (Self.RawRwLockHalves.lot_of self.now) token.new
            × Self.RawRwLockHalves.keeps_rights token.old token.new }
        ensures guard { IfSome result (Self.RawRwLockHalves.is_exclusive_of self.now) }
        ensures path { Self.RawRwLockHalves.took_steps self.now (Enter access.Exclusive Timed)
            (answer_by result) token.old token.new }
        ensures left { IfNone result
            (Self.RawRwLock.gave_up self.now (Enter access.Exclusive Timed) token.new) }
        ensures late { IfNone result (HasPassed (C.tells clock.now) deadline) };
}
