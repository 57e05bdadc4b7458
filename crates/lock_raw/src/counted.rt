//! Raw mutexes that their owners may lock again.
ghost use Rattle.std.specs.Prelude.{◌≡◌, ◌≢◌, ℕ, ◌+◌, IfErr, IfOk, IfSome, MatchOption, MatchResult};
ghost use Rattle.std.specs.Arc.{arc_value};
ghost use Rattle.lock_raw.specs.Answers.{IsRefusal};
ghost use Rattle.lock_raw.specs.Counts.{CountedAgain, CountedLess, CountedMore, CountedOut, CountedOutAlone};
ghost use Rattle.lock_raw.specs.Counts.{SawFull, SawMore, SawOthers, first_count};
ghost use Rattle.core_base.specs.declared.faults.Fault.TheVariants.{LockCountFull};

use crate::RawMutex;
use core_base::Fault;
use std::sync::Arc;

/// Names the threads of a raw mutex's lot by their numbers.
pub trait GetThreadId<R: RawMutexCounted> {
    /// Makes the value that names threads.
    fn new() -> Self;

    /// Returns one more than the thread's number in its lot.
    fn nonzero_thread_id(&self, token: &R::Token) -> usize
        requires { (lot : R.Lot) × R.is_token_of lot token.now }
        ensures { result ≡ R.number_of token.now + 1 };
}

/// A mutex that is drawn with a second word, which counts how often its owner has locked it.
///
/// Each time that it is locked there is a share of it. While somebody has a share the mutex is
/// owned, by all shares together: its guard is given out for the last one.
pub trait RawMutexCounted: RawMutex {
    /// The word that counts.
    type Count;
    /// One of the times that the mutex is locked.
    type Share;

    // The word was drawn with this mutex. That has one proof at most.
    ghost is_count_of: { Self → Self.Count → Type 0 };

    ghost count_once: { (mutex : Self) (count : Self.Count) → IsProp (is_count_of mutex count) };
    // A share is of this mutex, and that has one proof at most too.
    ghost is_share_of: { Self → Self.Share → Type 0 };

    ghost share_once: { (mutex : Self) (share : Self.Share) → IsProp (is_share_of mutex share) };
    // One more than the number of the thread that a share names.
    ghost thread_of: { Self.Share → ℕ };
    // Between the two states of a thread it drew the words of this mutex, on which nobody has
    // stepped.
    ghost drew_pair: { Self → Self.Token → Self.Token → Type 0 };
    // Between them its last step found fewer than two words left, and it drew nothing.
    ghost found_few: { Self.Lot → Self.Token → Self.Token → Type 0 };
    // Between them it looked at the count, and saw this.
    ghost saw_count: { Self → ℕ → Self.Token → Self.Token → Type 0 };
    // Between them it stored a count: the one that it found, and the one that it left.
    ghost stored_count: { Self → ℕ → ℕ → Self.Token → Self.Token → Type 0 };

    /// Makes a mutex that nobody has, and the word that counts.
    ///
    /// # Errors
    ///
    /// `LotFull`, where the lot has fewer than two words left, and `NoMemory`, where memory was
    /// refused.
    fn new_counted(
        lot: &Arc<Self::Lot>,
        token: &mut Self::Token,
    ) -> Result<(Self, Self::Count), Fault>
        requires { Self.is_token_of (arc_value lot.now) token.old }
        ensures token { Self.is_token_of (arc_value lot.now) token.new
            × Self.keeps_rights token.old token.new }
        ensures made { MatchResult result
            (λ pair. (Self.lot_of pair.0 ≡ arc_value lot.now) × is_count_of pair.0 pair.1
            × drew_pair pair.0 token.old token.new)
            (IsRefusal (found_few (arc_value lot.now)) token.old token.new) };

    /// Counts once more where the thread has the mutex. None where it saw that it hasn't.
    ///
    /// `thread` is one more than the thread's number, here and in the calls below.
    ///
    /// # Errors
    ///
    /// `LockCountFull`, where it has locked the mutex as often as can be counted.
    fn count_again(
        &self,
        token: &mut Self::Token,
        count: &Self::Count,
        thread: usize,
    ) -> Result<Option<Self::Share>, Fault>
        requires token { Self.is_token_of (Self.lot_of self.now) token.old }
        requires count { is_count_of self.now count.now }
        requires thread { thread ≡ Self.number_of token.old + 1 }
        ensures token { Self.is_token_of (Self.lot_of self.now) token.new
            × Self.keeps_rights token.old token.new }
        ensures share { MatchResult result
            (λ taken. MatchOption taken
            (SawOthers (saw_count self.now) (Self.number_of token.old) token.old token.new)
            (λ share. is_share_of self.now share
            × CountedAgain (saw_count self.now) (stored_count self.now) (Self.number_of token.old)
            token.old token.new))
            (λ fault. (fault ≡ LockCountFull)
            × SawFull (saw_count self.now) (Self.number_of token.old) token.old token.new) }
        ensures named { IfOk result (λ taken. IfSome taken (λ share. thread_of share ≡ thread)) };

    /// Counts once more by a share of the thread, which is named on the count word.
    ///
    /// # Errors
    ///
    /// `LockCountFull` with the share, where it has locked the mutex as often as can be counted.
    fn count_more(
        &self,
        token: &mut Self::Token,
        count: &Self::Count,
        thread: usize,
        share: Self::Share,
    ) -> Result<(Self::Share, Self::Share), (Fault, Self::Share)>
        requires token { Self.is_token_of (Self.lot_of self.now) token.old }
        requires count { is_count_of self.now count.now }
        requires thread { thread ≡ Self.number_of token.old + 1 }
        requires share { is_share_of self.now share × (thread_of share ≡ thread) }
        ensures token { Self.is_token_of (Self.lot_of self.now) token.new
            × Self.keeps_rights token.old token.new }
        ensures share { MatchResult result
            (λ shares. is_share_of self.now shares.0 × is_share_of self.now shares.1
            × CountedMore (stored_count self.now) (Self.number_of token.old) token.old token.new)
            (λ refused. (refused.0 ≡ LockCountFull) × is_share_of self.now refused.1
            × SawFull (saw_count self.now) (Self.number_of token.old) token.old token.new) }
        ensures named { MatchResult result
            (λ shares. (thread_of shares.0 ≡ thread) × (thread_of shares.1 ≡ thread))
            (λ refused. thread_of refused.1 ≡ thread) };

    /// Begins to count for a thread that has the mutex. Its guard is spent, and comes back with the
    /// last share.
    fn count_first(
        &self,
        token: &mut Self::Token,
        count: &Self::Count,
        thread: usize,
        guard: Self::Guard,
    ) -> Self::Share
        requires token { Self.is_token_of (Self.lot_of self.now) token.old }
        requires count { is_count_of self.now count.now }
        requires thread { thread ≡ Self.number_of token.old + 1 }
        requires guard { Self.is_guard_of self.now guard }
        ensures token { Self.is_token_of (Self.lot_of self.now) token.new
            × Self.keeps_rights token.old token.new }
        ensures share { is_share_of self.now result }
        ensures begun { stored_count self.now 0 (first_count (Self.number_of token.old)) token.old
            token.new }
        ensures named { thread_of result ≡ thread };

    /// Counts once less, by the thread that the share names. The guard comes back with the last
    /// share.
    fn count_off(
        &self,
        token: &mut Self::Token,
        count: &Self::Count,
        share: Self::Share,
    ) -> Option<Self::Guard>
        requires token { Self.is_token_of (Self.lot_of self.now) token.old }
        requires count { is_count_of self.now count.now }
        requires share { is_share_of self.now share
            × (thread_of share ≡ Self.number_of token.old + 1) }
        ensures token { Self.is_token_of (Self.lot_of self.now) token.new
            × Self.keeps_rights token.old token.new }
        ensures guard { MatchOption result
            (CountedLess (stored_count self.now) token.old token.new)
            (λ guard. Self.is_guard_of self.now guard
            × CountedOut (stored_count self.now) token.old token.new) };

    /// Counts the only share of the thread off, and returns the guard.
    ///
    /// # Errors
    ///
    /// The share, where the thread has others: the call does no more than look then.
    fn count_off_only(
        &self,
        token: &mut Self::Token,
        count: &Self::Count,
        share: Self::Share,
    ) -> Result<Self::Guard, Self::Share>
        requires token { Self.is_token_of (Self.lot_of self.now) token.old }
        requires count { is_count_of self.now count.now }
        requires share { is_share_of self.now share
            × (thread_of share ≡ Self.number_of token.old + 1) }
        ensures token { Self.is_token_of (Self.lot_of self.now) token.new
            × Self.keeps_rights token.old token.new }
        ensures guard { MatchResult result
            (λ guard. Self.is_guard_of self.now guard
            × CountedOutAlone (saw_count self.now) (stored_count self.now) token.old token.new)
            (λ share. is_share_of self.now share
            × SawMore (saw_count self.now) token.old token.new) }
        ensures named { IfErr result (λ kept. thread_of kept ≡ thread_of share) };

    /// Shares of one mutex that name two threads exclude each other: nobody ever has both, so this
    /// can't be called.
    fn has_two_owners(&self, count: &Self::Count, one: Self::Share, other: Self::Share) -> !
        requires count { is_count_of self.now count.now }
        requires shares { is_share_of self.now one × is_share_of self.now other }
        requires differ { thread_of one ≢ thread_of other };
}
