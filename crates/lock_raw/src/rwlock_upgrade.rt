//! Raw reader-writer locks that a reader upgrades, as generic code sees them.
ghost use Rattle.std.specs.Prelude.{◌≡◌, MatchResult, IfErr, IfNone, IfOk, IfSome};
ghost use Rattle.std.specs.Duration.{as_nanos};
ghost use Rattle.core_clocks.specs.Clocks.{HasElapsed, HasPassed};
ghost use Rattle.spec_locks.specs.declared.calls.Access.TheVariants as access;
ghost use Rattle.spec_locks.specs.declared.calls.Downgrade.TheVariants as downgrades;
ghost use Rattle.spec_locks.specs.declared.calls.Patience.TheVariants.{Patient, Timed, Try};
ghost use Rattle.spec_locks.specs.declared.calls.RwLockCall.TheVariants.{Enter, Release, Downgrade, Upgrade};
ghost use Rattle.spec_locks.specs.declared.outcomes.Answer.TheVariants as answers;
ghost use Rattle.core_words.specs.declared.views.View.{View};
ghost use Rattle.lock_raw.specs.Answers.{IsReadersFull, TriesOrFull, counted_answer, reading_answer};
ghost use Rattle.lock_raw.specs.Answers.{upgrade_answer};

use crate::rwlock::RawRwLock;
use core_base::Fault;
use core_clocks::Clock;
use lock_values::{Place, Seen};
use std::sync::Wait;
use std::time::Duration;

/// A lock that one thread at a time may read with the right to own it alone later.
pub trait RawRwLockUpgrade: RawRwLock {
    /// The right to read, and to own alone later. It borrows nothing.
    type UpgradableGuard;

    // A guard is of this lock.
    ghost is_upgradable_of: { Self → Self.UpgradableGuard → Type 0 };

    ghost upgradable_once: { (lock : Self) (guard : Self.UpgradableGuard)
        → IsProp (is_upgradable_of lock guard) };
    // A place that is open to read keeps this of a thread that has this right.
    ghost upgradable_view: { Self → View };

    /// Waits until nobody has the lock alone or with this right, and comes in.
    ///
    /// # Errors
    ///
    /// `ReadersFull`, where as many share the lock as may.
    fn lock_upgradable<R: Wait>(
        &self,
        rt: &R,
        token: &mut Self::Token,
    ) -> Result<Self::UpgradableGuard, Fault>
        requires { Self.RawRwLockHalves.is_token_of (Self.RawRwLockHalves.lot_of self.now) token.old }
        ensures token { Self.RawRwLockHalves.is_token_of (Self.RawRwLockHalves.lot_of self.now) token.new
            × Self.RawRwLockHalves.keeps_rights token.old token.new }
        ensures guard { MatchResult result (is_upgradable_of self.now) IsReadersFull }
        ensures path { Self.RawRwLockHalves.took_steps self.now (Enter access.Upgradable Patient)
            (reading_answer result) token.old token.new }
        ensures full { IfErr result
            (λ _. Self.RawRwLockHalves.saw_full self.now access.Upgradable token.old token.new) };

    /// Comes in where nobody has the lock alone or with this right. It may have to try again where
    /// others come and go.
    ///
    /// # Errors
    ///
    /// `ReadersFull`, where as many share the lock as may.
    fn try_lock_upgradable<R: Wait>(
        &self,
        rt: &R,
        token: &mut Self::Token,
    ) -> Result<Option<Self::UpgradableGuard>, Fault>
        requires { Self.RawRwLockHalves.is_token_of (Self.RawRwLockHalves.lot_of self.now) token.old }
        ensures token { Self.RawRwLockHalves.is_token_of (Self.RawRwLockHalves.lot_of self.now) token.new
            × Self.RawRwLockHalves.keeps_rights token.old token.new }
        ensures guard { TriesOrFull result (is_upgradable_of self.now) }
        ensures path { Self.RawRwLockHalves.took_steps self.now (Enter access.Upgradable Try)
            (counted_answer result) token.old token.new }
        ensures full { IfErr result
            (λ _. Self.RawRwLockHalves.saw_full self.now access.Upgradable token.old token.new) };

    /// Gives the right up, and wakes the threads that this lets in.
    fn unlock_upgradable<R: Wait>(
        &self,
        rt: &R,
        token: &mut Self::Token,
        guard: Self::UpgradableGuard,
    )
        requires token { Self.RawRwLockHalves.is_token_of (Self.RawRwLockHalves.lot_of self.now) token.old }
        requires guard { is_upgradable_of self.now guard }
        ensures token { Self.RawRwLockHalves.is_token_of (Self.RawRwLockHalves.lot_of self.now) token.new
            × Self.RawRwLockHalves.keeps_rights token.old token.new }
        ensures path { Self.RawRwLockHalves.took_steps self.now
            (Release access.Upgradable) answers.Ok token.old token.new }
        ensures record { Self.RawRwLockHalves.woke_waiters self.now (Release access.Upgradable) token.old
            token.new };

    /// Takes the first steps of `lock_upgradable`, which are all of it where the thread meets nobody.
    ///
    /// # Errors
    ///
    /// The rest of the call, for `lock_upgradable_slow`.
    fn lock_upgradable_fast(
        &self,
        token: &mut Self::Token,
    ) -> Result<Result<Self::UpgradableGuard, Fault>, Self::SlowPart>
        requires { Self.RawRwLockHalves.is_token_of (Self.RawRwLockHalves.lot_of self.now) token.old }
        ensures token { Self.RawRwLockHalves.is_token_of (Self.RawRwLockHalves.lot_of self.now) token.new }
        ensures over { IfOk result
            (λ entered. Self.RawRwLockHalves.keeps_rights token.old token.new
            × MatchResult entered (is_upgradable_of self.now) IsReadersFull
            × Self.RawRwLockHalves.took_steps self.now (Enter access.Upgradable Patient)
            (reading_answer entered)
            token.old token.new
            × IfErr entered (λ _. Self.RawRwLockHalves.saw_full self.now access.Upgradable token.old
            token.new)) }
        ensures begun { IfErr result
            (λ rest. Self.RawRwLockHalves.begun self.now (Enter access.Upgradable Patient) rest
            token.old token.new) };

    /// Ends a `lock_upgradable` of which this is left.
    ///
    /// # Errors
    ///
    /// `ReadersFull`, where as many share the lock as may.
    fn lock_upgradable_slow<R: Wait>(
        &self,
        rt: &R,
        token: &mut Self::Token,
        rest: Self::SlowPart,
    ) -> Result<Self::UpgradableGuard, Fault>
        requires token { Self.RawRwLockHalves.is_token_of (Self.RawRwLockHalves.lot_of self.now) token.old }
        requires begun { (before : Self.Token)
            × Self.RawRwLockHalves.begun self.now (Enter access.Upgradable Patient) rest before token.old }
        ensures token { Self.RawRwLockHalves.is_token_of (Self.RawRwLockHalves.lot_of self.now) token.new }
        ensures guard { MatchResult result (is_upgradable_of self.now) IsReadersFull }
        ensures over { (before : Self.Token)
            → Self.RawRwLockHalves.begun self.now (Enter access.Upgradable Patient) rest before token.old
            → Self.RawRwLockHalves.keeps_rights before token.new
            × Self.RawRwLockHalves.took_steps self.now (Enter access.Upgradable Patient)
            (reading_answer result)
            before token.new
            × IfErr result (λ _. Self.RawRwLockHalves.saw_full self.now access.Upgradable before token.new) };

    /// Takes the first steps of `unlock_upgradable`, which are all of it where it wakes nobody up.
    /// Spends the guard, and answers what is left, for `unlock_slow`.
    fn unlock_upgradable_fast(
        &self,
        token: &mut Self::Token,
        guard: Self::UpgradableGuard,
    ) -> Option<Self::SlowPart>
        requires token { Self.RawRwLockHalves.is_token_of (Self.RawRwLockHalves.lot_of self.now) token.old }
        requires guard { is_upgradable_of self.now guard }
        ensures token { Self.RawRwLockHalves.is_token_of (Self.RawRwLockHalves.lot_of self.now) token.new }
        ensures over { IfNone result
            (Self.RawRwLockHalves.keeps_rights token.old token.new
            × Self.RawRwLockHalves.took_steps self.now (Release access.Upgradable) answers.Ok token.old
            token.new
            × Self.RawRwLockHalves.woke_waiters self.now (Release access.Upgradable) token.old token.new) }
        ensures begun { IfSome result
            (λ rest. Self.RawRwLockHalves.begun self.now (Release access.Upgradable) rest token.old
            token.new) };

    /// Turns the right into that of a thread that has the lock alone: further readers are kept out,
    /// and the others are waited for.
    fn upgrade<R: Wait>(
        &self,
        rt: &R,
        token: &mut Self::Token,
        guard: Self::UpgradableGuard,
    ) -> Self::ExclusiveGuard
        requires token { Self.RawRwLockHalves.is_token_of (Self.RawRwLockHalves.lot_of self.now) token.old }
        requires guard { is_upgradable_of self.now guard }
        ensures token { Self.RawRwLockHalves.is_token_of (Self.RawRwLockHalves.lot_of self.now) token.new
            × Self.RawRwLockHalves.keeps_rights token.old token.new }
        ensures guard { Self.RawRwLockHalves.is_exclusive_of self.now result }
        ensures path { Self.RawRwLockHalves.took_steps self.now (Upgrade Patient) answers.Ok token.old
            token.new };

    /// Upgrades where nobody else reads.
    ///
    /// # Errors
    ///
    /// The guard, where somebody else reads.
    fn try_upgrade<R: Wait>(
        &self,
        rt: &R,
        token: &mut Self::Token,
        guard: Self::UpgradableGuard,
    ) -> Result<Self::ExclusiveGuard, Self::UpgradableGuard>
        requires token { Self.RawRwLockHalves.is_token_of (Self.RawRwLockHalves.lot_of self.now) token.old }
        requires guard { is_upgradable_of self.now guard }
        ensures token { Self.RawRwLockHalves.is_token_of (Self.RawRwLockHalves.lot_of self.now) token.new
            × Self.RawRwLockHalves.keeps_rights token.old token.new }
        ensures guard { MatchResult result (Self.RawRwLockHalves.is_exclusive_of self.now)
            (is_upgradable_of self.now) }
        ensures path { Self.RawRwLockHalves.took_steps self.now (Upgrade Try)
            (upgrade_answer result) token.old token.new };

    /// Opens the value to read, by this right, which lies in the value's place meanwhile. It does
    /// nothing at run time.
    fn open_upgradable<'a, T>(
        &self,
        place: &'a Place<T>,
        guard: Self::UpgradableGuard,
    ) -> Seen<'a, T>
        requires { is_upgradable_of self.now guard × (place.now ≡ Self.RawRwLockHalves.place_of self.now) }
        ensures { (result.of ≡ Self.RawRwLockHalves.place_of self.now)
            × (result.view ≡ upgradable_view self.now) };

    /// Shuts it, and gives the right back, as little at run time.
    fn shut_upgradable<T>(&self, seen: Seen<'_, T>) -> Self::UpgradableGuard
        requires { (seen.of ≡ Self.RawRwLockHalves.place_of self.now)
            × (seen.view ≡ upgradable_view self.now) }
        ensures { is_upgradable_of self.now result };

    /// One thread at a time has this right, so this can't be called.
    fn has_two_upgradables(
        &self,
        token: &mut Self::Token,
        one: Self::UpgradableGuard,
        other: Self::UpgradableGuard,
    ) -> !
        requires token { Self.RawRwLockHalves.is_token_of (Self.RawRwLockHalves.lot_of self.now) token.old }
        requires guards { is_upgradable_of self.now one × is_upgradable_of self.now other };

    /// Never runs: a thread that has the lock alone excludes an upgradable owner, so nobody ever
    /// has both guards.
    fn has_writer_and_upgradable(
        &self,
        token: &mut Self::Token,
        writer: Self::ExclusiveGuard,
        reader: Self::UpgradableGuard,
    ) -> !
        requires token { Self.RawRwLockHalves.is_token_of (Self.RawRwLockHalves.lot_of self.now) token.old }
        requires guards { Self.RawRwLockHalves.is_exclusive_of self.now writer
            × is_upgradable_of self.now reader };
}

/// A lock whose upgradable right is turned into others without an upgrade.
pub trait RawRwLockUpgradeDowngrade: RawRwLockUpgrade {
    /// Turns the upgradable right into the right to read, in one step, and wakes the threads that
    /// this lets in.
    fn downgrade_upgradable<R: Wait>(
        &self,
        rt: &R,
        token: &mut Self::Token,
        guard: Self::UpgradableGuard,
    ) -> Self::SharedGuard
        requires token { Self.RawRwLockHalves.is_token_of (Self.RawRwLockHalves.lot_of self.now) token.old }
        requires guard { Self.RawRwLockUpgrade.is_upgradable_of self.now guard }
        ensures token { Self.RawRwLockHalves.is_token_of (Self.RawRwLockHalves.lot_of self.now) token.new
            × Self.RawRwLockHalves.keeps_rights token.old token.new }
        ensures guard { Self.RawRwLockHalves.is_shared_of self.now result }
        ensures path { Self.RawRwLockHalves.took_steps self.now (Downgrade downgrades.UpgradableToShared)
            answers.Ok token.old token.new }
        ensures record { Self.RawRwLockHalves.woke_waiters self.now
            (Downgrade downgrades.UpgradableToShared) token.old token.new };

    /// Turns the right of a thread that has the lock alone into the upgradable one, in one step,
    /// and wakes the threads that this lets in.
    fn downgrade_to_upgradable<R: Wait>(
        &self,
        rt: &R,
        token: &mut Self::Token,
        guard: Self::ExclusiveGuard,
    ) -> Self::UpgradableGuard
        requires token { Self.RawRwLockHalves.is_token_of (Self.RawRwLockHalves.lot_of self.now) token.old }
        requires guard { Self.RawRwLockHalves.is_exclusive_of self.now guard }
        ensures token { Self.RawRwLockHalves.is_token_of (Self.RawRwLockHalves.lot_of self.now) token.new
            × Self.RawRwLockHalves.keeps_rights token.old token.new }
        ensures guard { Self.RawRwLockUpgrade.is_upgradable_of self.now result }
        ensures path { Self.RawRwLockHalves.took_steps self.now (Downgrade downgrades.ToUpgradable)
            answers.Ok token.old token.new }
        ensures record { Self.RawRwLockHalves.woke_waiters self.now
            (Downgrade downgrades.ToUpgradable) token.old token.new };
}

/// A lock with the upgradable right, whose waiters may give up.
pub trait RawRwLockUpgradeTimed: RawRwLockUpgrade {
    /// Waits until nobody has the lock alone or with this right, and comes in. None once so
    /// much time, in nanoseconds of the clock, has passed.
    ///
    /// A time that ends past all that a `u64` tells is no limit.
    ///
    /// # Errors
    ///
    /// `ReadersFull`, where as many share the lock as may.
    fn try_lock_upgradable_for<R: Wait, C: Clock>(
        &self,
        rt: &R,
        token: &mut Self::Token,
        clock: &C,
        timeout: Duration,
    ) -> Result<Option<Self::UpgradableGuard>, Fault>
        requires { Self.RawRwLockHalves.is_token_of (Self.RawRwLockHalves.lot_of self.now) token.old }
        ensures token { Self.RawRwLockHalves.is_token_of (Self.RawRwLockHalves.lot_of self.now) token.new
            × Self.RawRwLockHalves.keeps_rights token.old token.new }
        ensures guard { TriesOrFull result (Self.RawRwLockUpgrade.is_upgradable_of self.now) }
        ensures path { Self.RawRwLockHalves.took_steps self.now (Enter access.Upgradable Timed)
            (counted_answer result) token.old token.new }
        ensures full { IfErr result
            (λ _. Self.RawRwLockHalves.saw_full self.now access.Upgradable token.old token.new) }
        ensures left { IfOk result
            (λ entered. IfNone entered
            (Self.RawRwLock.gave_up self.now (Enter access.Upgradable Timed) token.new)) }
        ensures late { IfOk result
            (λ entered. IfNone entered (HasElapsed (C.tells clock.now) (as_nanos timeout))) };

    /// Locks upgradably, or gives up at a deadline, in nanoseconds of the clock. None once the
    /// clock has come to it.
    ///
    /// # Errors
    ///
    /// `ReadersFull`, where as many share the lock as may.
    fn try_lock_upgradable_until<R: Wait, C: Clock>(
        &self,
        rt: &R,
        token: &mut Self::Token,
        clock: &C,
        deadline: u64,
    ) -> Result<Option<Self::UpgradableGuard>, Fault>
        requires { Self.RawRwLockHalves.is_token_of (Self.RawRwLockHalves.lot_of self.now) token.old }
        ensures token { Self.RawRwLockHalves.is_token_of (Self.RawRwLockHalves.lot_of self.now) token.new
            × Self.RawRwLockHalves.keeps_rights token.old token.new }
        ensures guard { TriesOrFull result (Self.RawRwLockUpgrade.is_upgradable_of self.now) }
        ensures path { Self.RawRwLockHalves.took_steps self.now (Enter access.Upgradable Timed)
            (counted_answer result) token.old token.new }
        ensures full { IfErr result
            (λ _. Self.RawRwLockHalves.saw_full self.now access.Upgradable token.old token.new) }
        ensures left { IfOk result
            (λ entered. IfNone entered
            (Self.RawRwLock.gave_up self.now (Enter access.Upgradable Timed) token.new)) }
        ensures late { IfOk result
            (λ entered. IfNone entered (HasPassed (C.tells clock.now) deadline)) };

    /// Upgrades, and gives up once so much time, in nanoseconds of the clock, has passed.
    ///
    /// # Errors
    ///
    /// The guard, where the time was up.
    fn try_upgrade_for<R: Wait, C: Clock>(
        &self,
        rt: &R,
        token: &mut Self::Token,
        guard: Self::UpgradableGuard,
        clock: &C,
        timeout: Duration,
    ) -> Result<Self::ExclusiveGuard, Self::UpgradableGuard>
        requires token { Self.RawRwLockHalves.is_token_of (Self.RawRwLockHalves.lot_of self.now) token.old }
        requires guard { Self.RawRwLockUpgrade.is_upgradable_of self.now guard }
        ensures token { Self.RawRwLockHalves.is_token_of (Self.RawRwLockHalves.lot_of self.now) token.new
            × Self.RawRwLockHalves.keeps_rights token.old token.new }
        ensures guard { MatchResult result (Self.RawRwLockHalves.is_exclusive_of self.now)
            (Self.RawRwLockUpgrade.is_upgradable_of self.now) }
        ensures path { Self.RawRwLockHalves.took_steps self.now (Upgrade Timed)
            (upgrade_answer result) token.old token.new }
        ensures left { IfErr result
            (λ _. Self.RawRwLock.gave_up self.now (Upgrade Timed) token.new) }
        ensures late { IfErr result (λ _. HasElapsed (C.tells clock.now) (as_nanos timeout)) };

    /// Upgrades, or gives up at a deadline, in nanoseconds of the clock.
    ///
    /// # Errors
    ///
    /// The guard, where the clock had come to the deadline.
    fn try_upgrade_until<R: Wait, C: Clock>(
        &self,
        rt: &R,
        token: &mut Self::Token,
        guard: Self::UpgradableGuard,
        clock: &C,
        deadline: u64,
    ) -> Result<Self::ExclusiveGuard, Self::UpgradableGuard>
        requires token { Self.RawRwLockHalves.is_token_of (Self.RawRwLockHalves.lot_of self.now) token.old }
        requires guard { Self.RawRwLockUpgrade.is_upgradable_of self.now guard }
        ensures token { Self.RawRwLockHalves.is_token_of (Self.RawRwLockHalves.lot_of self.now) token.new
            × Self.RawRwLockHalves.keeps_rights token.old token.new }
        ensures guard { MatchResult result (Self.RawRwLockHalves.is_exclusive_of self.now)
            (Self.RawRwLockUpgrade.is_upgradable_of self.now) }
        ensures path { Self.RawRwLockHalves.took_steps self.now (Upgrade Timed)
            (upgrade_answer result) token.old token.new }
        ensures left { IfErr result
            (λ _. Self.RawRwLock.gave_up self.now (Upgrade Timed) token.new) }
        ensures late { IfErr result (λ _. HasPassed (C.tells clock.now) deadline) };
}
