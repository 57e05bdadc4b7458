//! The calls of a raw reader-writer lock in halves, and the rights that open a value.
ghost use Rattle.std.specs.Prelude.{◌≡◌, MatchResult, IfErr, IfNone, IfOk, IfSome};
ghost use Rattle.spec_locks.specs.declared.calls.Access.{Access};
ghost use Rattle.spec_locks.specs.declared.calls.Access.TheVariants as access;
ghost use Rattle.spec_locks.specs.declared.calls.Patience.TheVariants.{Patient};
ghost use Rattle.spec_locks.specs.declared.calls.RwLockCall.{RwLockCall};
ghost use Rattle.spec_locks.specs.declared.calls.RwLockCall.TheVariants.{Enter, Release};
ghost use Rattle.spec_locks.specs.declared.outcomes.Answer.{Answer};
ghost use Rattle.spec_locks.specs.declared.outcomes.Answer.TheVariants as answers;
ghost use Rattle.lock_values.specs.Ownership.{PlaceId};
ghost use Rattle.core_words.specs.declared.views.View.{View};
ghost use Rattle.lock_raw.specs.Answers.{IsReadersFull, reading_answer};

use core_base::Fault;
use lock_values::{Open, Place, Seen};
use spec_locks::Access;
use std::sync::Wait;

/// What a lock that keeps a value asks of a raw reader-writer lock, next to its calls: their first
/// steps apart from the rest, and rights that open the value.
pub trait RawRwLockHalves {
    /// Where the locks and the threads meet.
    type Lot;
    /// A thread of a lot.
    type Token;
    /// The right to read. It borrows nothing.
    type SharedGuard;
    /// The right of a thread that has the lock alone. It borrows nothing.
    type ExclusiveGuard;
    /// The rest of a call, which its first half leaves to its second one.
    type SlowPart;

    // The lot of a lock.
    ghost lot_of: { Self → Self.Lot };
    // A thread belongs to a lot.
    ghost is_token_of: { Self.Lot → Self.Token → Type 0 };
    // Two tokens are of one thread, which owns what it did.
    ghost keeps_rights: { Self.Token → Self.Token → Type 0 };
    // What stays through each of two calls stays through both.
    ghost keeps_rights_on: { (first next last : Self.Token) → keeps_rights first next → keeps_rights next last
        → keeps_rights first last };
    // A guard is of this lock. That has one proof at most, so a struct may keep it as a ghost
    // field.
    ghost is_shared_of: { Self → Self.SharedGuard → Type 0 };

    ghost shared_once: { (lock : Self) (guard : Self.SharedGuard)
        → IsProp (is_shared_of lock guard) };

    ghost is_exclusive_of: { Self → Self.ExclusiveGuard → Type 0 };

    ghost exclusive_once: { (lock : Self) (guard : Self.ExclusiveGuard)
        → IsProp (is_exclusive_of lock guard) };
    // The place of the value that a lock guards.
    ghost place_of: { Self → PlaceId };
    // A place that is open to read keeps this of a thread that reads, and one that is open to write
    // that of a thread that has the lock alone.
    ghost shared_view: { Self → View };

    ghost exclusive_view: { Self → View };
    // Between them it took the steps of this call of the lock, to this answer.
    ghost took_steps: { Self → RwLockCall → Answer → Self.Token → Self.Token → Type 0 };
    // Between them it gave a right up by this call, and took those that this lets in where it saw
    // that somebody waits.
    ghost woke_waiters: { Self → RwLockCall → Self.Token → Self.Token → Type 0 };
    // Between them it took the first steps of this call, which leave it this to do.
    ghost begun: { Self → RwLockCall → Self.SlowPart → Self.Token → Self.Token → Type 0 };
    // Between them its last step saw that nobody keeps this right out, and that as many share the
    // lock as may.
    ghost saw_full: { Self → Access → Self.Token → Self.Token → Type 0 };

    /// Takes the first steps of `lock_shared`, which are all of it where the thread meets nobody.
    ///
    /// # Errors
    ///
    /// The rest of the call, for `lock_shared_slow`.
    fn lock_shared_fast(
        &self,
        token: &mut Self::Token,
    ) -> Result<Result<Self::SharedGuard, Fault>, Self::SlowPart>
        requires { is_token_of (lot_of self.now) token.old }
        ensures token { is_token_of (lot_of self.now) token.new }
        ensures over { IfOk result
            (λ entered. keeps_rights token.old token.new
            × MatchResult entered (is_shared_of self.now) IsReadersFull
            × took_steps self.now (Enter access.Shared Patient) (reading_answer entered)
            token.old token.new
            × IfErr entered (λ _. saw_full self.now access.Shared token.old token.new)) }
        ensures begun { IfErr result
            (λ rest. begun self.now (Enter access.Shared Patient) rest token.old token.new) };

    /// Ends a `lock_shared` of which this is left.
    ///
    /// # Errors
    ///
    /// `ReadersFull`, where as many share the lock as may.
    fn lock_shared_slow<R: Wait>(
        &self,
        rt: &R,
        token: &mut Self::Token,
        rest: Self::SlowPart,
    ) -> Result<Self::SharedGuard, Fault>
        requires token { is_token_of (lot_of self.now) token.old }
        requires begun { (before : Self.Token)
            × begun self.now (Enter access.Shared Patient) rest before token.old }
        ensures token { is_token_of (lot_of self.now) token.new }
        ensures guard { MatchResult result (is_shared_of self.now) IsReadersFull }
        ensures over { (before : Self.Token)
            → begun self.now (Enter access.Shared Patient) rest before token.old
            → keeps_rights before token.new
            × took_steps self.now (Enter access.Shared Patient) (reading_answer result)
            before token.new
            × IfErr result (λ _. saw_full self.now access.Shared before token.new) };

    /// Takes the first step of `lock_exclusive`, which is all of it where nobody has the lock.
    ///
    /// # Errors
    ///
    /// The rest of the call, for `lock_exclusive_slow`.
    fn lock_exclusive_fast(
        &self,
        token: &mut Self::Token,
    ) -> Result<Self::ExclusiveGuard, Self::SlowPart>
        requires { is_token_of (lot_of self.now) token.old }
        ensures token { is_token_of (lot_of self.now) token.new }
        ensures over { IfOk result
            (λ guard. keeps_rights token.old token.new
            × took_steps self.now (Enter access.Exclusive Patient) answers.Ok token.old token.new
            × is_exclusive_of self.now guard) }
        ensures begun { IfErr result
            (λ rest. begun self.now (Enter access.Exclusive Patient) rest token.old token.new) };

    /// Ends a `lock_exclusive` of which this is left.
    fn lock_exclusive_slow<R: Wait>(
        &self,
        rt: &R,
        token: &mut Self::Token,
        rest: Self::SlowPart,
    ) -> Self::ExclusiveGuard
        requires token { is_token_of (lot_of self.now) token.old }
        requires begun { (before : Self.Token)
            × begun self.now (Enter access.Exclusive Patient) rest before token.old }
        ensures token { is_token_of (lot_of self.now) token.new }
        ensures guard { is_exclusive_of self.now result }
        ensures over { (before : Self.Token)
            → begun self.now (Enter access.Exclusive Patient) rest before token.old
            → keeps_rights before token.new
            × took_steps self.now (Enter access.Exclusive Patient) answers.Ok before token.new };

    /// Takes the first steps of `unlock_shared`, which are all of it where it wakes nobody up.
    /// Spends the guard, and answers what is left, for `unlock_slow`.
    fn unlock_shared_fast(
        &self,
        token: &mut Self::Token,
        guard: Self::SharedGuard,
    ) -> Option<Self::SlowPart>
        requires token { is_token_of (lot_of self.now) token.old }
        requires guard { is_shared_of self.now guard }
        ensures token { is_token_of (lot_of self.now) token.new }
        ensures over { IfNone result
            (keeps_rights token.old token.new
            × took_steps self.now (Release access.Shared) answers.Ok token.old token.new
            × woke_waiters self.now (Release access.Shared) token.old token.new) }
        ensures begun { IfSome result
            (λ rest. begun self.now (Release access.Shared) rest token.old token.new) };

    /// Takes the first steps of `unlock_exclusive`, which are all of it where it wakes nobody up.
    /// Spends the guard, and answers what is left, for `unlock_slow`.
    fn unlock_exclusive_fast(
        &self,
        token: &mut Self::Token,
        guard: Self::ExclusiveGuard,
    ) -> Option<Self::SlowPart>
        requires token { is_token_of (lot_of self.now) token.old }
        requires guard { is_exclusive_of self.now guard }
        ensures token { is_token_of (lot_of self.now) token.new }
        ensures over { IfNone result
            (keeps_rights token.old token.new
            × took_steps self.now (Release access.Exclusive) answers.Ok token.old token.new
            × woke_waiters self.now (Release access.Exclusive) token.old token.new) }
        ensures begun { IfSome result
            (λ rest. begun self.now (Release access.Exclusive) rest token.old token.new) };

    /// Ends an unlock from this right of which this is left.
    fn unlock_slow<R: Wait>(
        &self,
        rt: &R,
        token: &mut Self::Token,
        access: Access,
        rest: Self::SlowPart,
    )
        requires token { is_token_of (lot_of self.now) token.old }
        requires begun { (before : Self.Token)
            × begun self.now (Release access) rest before token.old }
        ensures token { is_token_of (lot_of self.now) token.new }
        ensures over { (before : Self.Token)
            → begun self.now (Release access) rest before token.old
            → keeps_rights before token.new
            × took_steps self.now (Release access) answers.Ok before token.new
            × woke_waiters self.now (Release access) before token.new };

    /// Opens the value to read, by the right to read, which lies in the value's place meanwhile. It
    /// does nothing at run time.
    fn open_shared<'a, T>(&self, place: &'a Place<T>, guard: Self::SharedGuard) -> Seen<'a, T>
        requires { is_shared_of self.now guard × (place.now ≡ place_of self.now) }
        ensures { (result.of ≡ place_of self.now) × (result.view ≡ shared_view self.now) };

    /// Shuts it, and gives the right back, as little at run time.
    fn shut_shared<T>(&self, seen: Seen<'_, T>) -> Self::SharedGuard
        requires { (seen.of ≡ place_of self.now) × (seen.view ≡ shared_view self.now) }
        ensures { is_shared_of self.now result };

    /// Opens the value to write, by the right of a thread that has the lock alone.
    fn open_exclusive<'a, T>(&self, place: &'a Place<T>, guard: Self::ExclusiveGuard) -> Open<'a, T>
        requires { is_exclusive_of self.now guard × (place.now ≡ place_of self.now) }
        ensures { (result.of ≡ place_of self.now) × (result.view ≡ exclusive_view self.now) };

    /// Shuts it, and gives that right back.
    fn shut_exclusive<T>(&self, lent: Open<'_, T>) -> Self::ExclusiveGuard
        requires { (lent.of ≡ place_of self.now) × (lent.view ≡ exclusive_view self.now) }
        ensures { is_exclusive_of self.now result };

    /// Two that have a lock alone exclude each other: nobody ever has both guards, so this can't be
    /// called.
    fn has_two_writers(
        &self,
        token: &mut Self::Token,
        one: Self::ExclusiveGuard,
        other: Self::ExclusiveGuard,
    ) -> !
        requires token { is_token_of (lot_of self.now) token.old }
        requires guards { is_exclusive_of self.now one × is_exclusive_of self.now other };

    /// Never runs: a thread that has the lock alone excludes readers, so nobody ever has both
    /// guards.
    fn has_writer_and_reader(
        &self,
        token: &mut Self::Token,
        writer: Self::ExclusiveGuard,
        reader: Self::SharedGuard,
    ) -> !
        requires token { is_token_of (lot_of self.now) token.old }
        requires guards { is_exclusive_of self.now writer × is_shared_of self.now reader };
}
