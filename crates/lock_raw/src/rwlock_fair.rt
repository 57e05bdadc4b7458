//! Fair releases and bumps of raw reader-writer locks, as generic code sees them.
ghost use Rattle.std.specs.Prelude.{IfErr, MatchResult};
ghost use Rattle.spec_locks.specs.declared.calls.Access.TheVariants as access;
ghost use Rattle.spec_locks.specs.declared.calls.RwLockCall.TheVariants.{ReleaseFair, Bump};
ghost use Rattle.spec_locks.specs.declared.outcomes.Answer.TheVariants as answers;
ghost use Rattle.lock_raw.specs.Answers.{IsReadersFull, reading_answer};

use crate::rwlock::RawRwLock;
use crate::rwlock_upgrade::RawRwLockUpgrade;
use core_base::Fault;
use std::sync::Wait;

/// A reader-writer lock that is handed over to those that wait for it.
pub trait RawRwLockFair: RawRwLock {
    /// Gives a right to read up, and as the last reader wakes the writer that waits for it: that
    /// has the lock by then, so there is nothing to hand over. The guard is spent.
    fn unlock_shared_fair<R: Wait>(&self, rt: &R, token: &mut Self::Token, guard: Self::SharedGuard)
        requires token { Self.RawRwLockHalves.is_token_of (Self.RawRwLockHalves.lot_of self.now) token.old }
        requires guard { Self.RawRwLockHalves.is_shared_of self.now guard }
        ensures token { Self.RawRwLockHalves.is_token_of (Self.RawRwLockHalves.lot_of self.now) token.new
            × Self.RawRwLockHalves.keeps_rights token.old token.new }
        ensures path { Self.RawRwLockHalves.took_steps self.now
            (ReleaseFair access.Shared) answers.Ok token.old token.new }
        ensures record { Self.RawRwLockHalves.woke_waiters self.now (ReleaseFair access.Shared) token.old
            token.new };

    /// Hands the lock to those that wait for it and may have it together. Where nobody waits, gives
    /// it up. The guard is spent.
    fn unlock_exclusive_fair<R: Wait>(
        &self,
        rt: &R,
        token: &mut Self::Token,
        guard: Self::ExclusiveGuard,
    )
        requires token { Self.RawRwLockHalves.is_token_of (Self.RawRwLockHalves.lot_of self.now) token.old }
        requires guard { Self.RawRwLockHalves.is_exclusive_of self.now guard }
        ensures token { Self.RawRwLockHalves.is_token_of (Self.RawRwLockHalves.lot_of self.now) token.new
            × Self.RawRwLockHalves.keeps_rights token.old token.new }
        ensures path { Self.RawRwLockHalves.took_steps self.now
            (ReleaseFair access.Exclusive) answers.Ok token.old token.new }
        ensures record { Self.RawRwLockHalves.woke_waiters self.now (ReleaseFair access.Exclusive) token.old
            token.new };

    /// Lets a writer in that waits for the last readers, and waits to read again. Where none does,
    /// keeps the right; on a recursive lock it is kept also beside other readers.
    ///
    /// # Errors
    ///
    /// `ReadersFull`, where it let a writer in and found as many readers as there may be after
    /// that. The right is gone then.
    fn bump_shared<R: Wait>(
        &self,
        rt: &R,
        token: &mut Self::Token,
        guard: Self::SharedGuard,
    ) -> Result<Self::SharedGuard, Fault>
        requires token { Self.RawRwLockHalves.is_token_of (Self.RawRwLockHalves.lot_of self.now) token.old }
        requires guard { Self.RawRwLockHalves.is_shared_of self.now guard }
        ensures token { Self.RawRwLockHalves.is_token_of (Self.RawRwLockHalves.lot_of self.now) token.new
            × Self.RawRwLockHalves.keeps_rights token.old token.new }
        ensures guard { MatchResult result (Self.RawRwLockHalves.is_shared_of self.now) IsReadersFull }
        ensures path { Self.RawRwLockHalves.took_steps self.now (Bump access.Shared)
            (reading_answer result) token.old token.new }
        ensures full { IfErr result
            (λ _. Self.RawRwLockHalves.saw_full self.now access.Shared token.old token.new) };

    /// Hands the lock to those that wait for it, and waits to have it alone again. Where nobody
    /// waits, keeps it.
    fn bump_exclusive<R: Wait>(
        &self,
        rt: &R,
        token: &mut Self::Token,
        guard: Self::ExclusiveGuard,
    ) -> Self::ExclusiveGuard
        requires token { Self.RawRwLockHalves.is_token_of (Self.RawRwLockHalves.lot_of self.now) token.old }
        requires guard { Self.RawRwLockHalves.is_exclusive_of self.now guard }
        ensures token { Self.RawRwLockHalves.is_token_of (Self.RawRwLockHalves.lot_of self.now) token.new
            × Self.RawRwLockHalves.keeps_rights token.old token.new }
        ensures guard { Self.RawRwLockHalves.is_exclusive_of self.now result }
        ensures path { Self.RawRwLockHalves.took_steps self.now
            (Bump access.Exclusive) answers.Ok token.old token.new };
}

/// A lock whose upgradable right is handed over too.
pub trait RawRwLockUpgradeFair: RawRwLockUpgrade {
    /// Hands the lock to those that wait for it and may have it together. Where nobody waits, gives
    /// the right up; where those that wait would be more than may read, they are woken to try
    /// again. The guard is spent.
    fn unlock_upgradable_fair<R: Wait>(
        &self,
        rt: &R,
        token: &mut Self::Token,
        guard: Self::UpgradableGuard,
    )
        requires token { Self.RawRwLockHalves.is_token_of (Self.RawRwLockHalves.lot_of self.now) token.old }
        requires guard { Self.RawRwLockUpgrade.is_upgradable_of self.now guard }
        ensures token { Self.RawRwLockHalves.is_token_of (Self.RawRwLockHalves.lot_of self.now) token.new
            × Self.RawRwLockHalves.keeps_rights token.old token.new }
        ensures path { Self.RawRwLockHalves.took_steps self.now
            (ReleaseFair access.Upgradable) answers.Ok token.old token.new }
        ensures record { Self.RawRwLockHalves.woke_waiters self.now
            (ReleaseFair access.Upgradable) token.old token.new };

    /// Hands the lock to those that wait for it, and waits for the upgradable right again. Where
    /// nobody waits, keeps it.
    ///
    /// # Errors
    ///
    /// `ReadersFull`, where it gave its right up and found as many readers as there may be after
    /// that. The right is gone then.
    fn bump_upgradable<R: Wait>(
        &self,
        rt: &R,
        token: &mut Self::Token,
        guard: Self::UpgradableGuard,
    ) -> Result<Self::UpgradableGuard, Fault>
        requires token { Self.RawRwLockHalves.is_token_of (Self.RawRwLockHalves.lot_of self.now) token.old }
        requires guard { Self.RawRwLockUpgrade.is_upgradable_of self.now guard }
        ensures token { Self.RawRwLockHalves.is_token_of (Self.RawRwLockHalves.lot_of self.now) token.new
            × Self.RawRwLockHalves.keeps_rights token.old token.new }
        ensures guard { MatchResult result
            (Self.RawRwLockUpgrade.is_upgradable_of self.now) IsReadersFull }
        ensures path { Self.RawRwLockHalves.took_steps self.now (Bump access.Upgradable)
            (reading_answer result) token.old token.new }
        ensures full { IfErr result
            (λ _. Self.RawRwLockHalves.saw_full self.now access.Upgradable token.old token.new) };
}
