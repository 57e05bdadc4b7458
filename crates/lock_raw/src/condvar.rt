//! Raw condition variables, as generic code sees them.
ghost use Rattle.std.specs.Prelude.{◌≡◌, ◌≢◌, ◌≤◌, ◌+◌, ◌^◌, ℕ, Bool, true, false, MatchOption, MatchResult};
ghost use Rattle.std.specs.Prelude.{IfOk};
ghost use Rattle.std.specs.Arc.{arc_value};
ghost use Rattle.std.specs.Duration.{as_nanos};
ghost use Rattle.core_clocks.specs.Clocks.{HasElapsed, HasPassed};
ghost use Rattle.spec_locks.specs.declared.outcomes.Answer.{Answer};
ghost use Rattle.spec_locks.specs.declared.outcomes.Answer.TheVariants.{No, Number};
ghost use Rattle.lock_raw.specs.Answers.{GivesBack, GivesBackTimed, IsRefusal, LateByClock, moved_first};
ghost use Rattle.lock_raw.specs.Answers.{notifying_answer, timed_answer, waiting_answer};

use crate::RawMutex;
use core_base::Fault;
use core_clocks::{Clock, to_deadline};
use std::sync::{Arc, Wait};
use std::time::Duration;

/// Where a thread that has a mutex gives it up and waits, until another thread notifies it. It has
/// the mutex again then.
///
/// Nobody wakes by itself. Those that wait at a time all wait with one mutex.
pub trait RawCondvar {
    /// The mutexes with which threads wait.
    type RawMutex: RawMutex;

    // The lot of a condition variable.
    ghost lot_of: { Self → Self.RawMutex.Lot };
    // Between the two states of a thread it drew the word of this condition variable, which nobody
    // has stepped on.
    ghost drew: { Self → Self.RawMutex.Token → Self.RawMutex.Token → Type 0 };
    // Between them it took the steps of a wait with this mutex, which gives up in time or not, to
    // this answer.
    ghost waited: { Self → Self.RawMutex → Bool → Answer → Self.RawMutex.Token → Self.RawMutex.Token
        → Type 0 };
    // Between them it took the steps of a notification of the first that waits, or of all, to this
    // answer.
    ghost notified: { Self → Bool → Answer → Self.RawMutex.Token → Self.RawMutex.Token → Type 0 };
    // Between them it looked at the condition variable once, and saw this.
    ghost looked: { Self → ℕ → Self.RawMutex.Token → Self.RawMutex.Token → Type 0 };
    // Between them it took or moved so many, of the first or of all, as its last section tells; or
    // nobody, and it saw that no mutex is shown, or another value than at first.
    ghost moved: { Self → Bool → ℕ → Self.RawMutex.Token → Self.RawMutex.Token → Type 0 };

    /// Makes a condition variable on which nobody waits.
    ///
    /// # Errors
    ///
    /// `LotFull`, where the lot has no word left, and `NoMemory`, where memory was refused.
    fn new(
        lot: &Arc<<Self::RawMutex as RawMutex>::Lot>,
        token: &mut <Self::RawMutex as RawMutex>::Token,
    ) -> Result<Self, Fault>
        requires { Self.RawMutex.is_token_of (arc_value lot.now) token.old }
        ensures token { Self.RawMutex.is_token_of (arc_value lot.now) token.new
            × Self.RawMutex.keeps_rights token.old token.new }
        ensures made { MatchResult result (λ condvar. lot_of condvar ≡ arc_value lot.now)
            (IsRefusal (Self.RawMutex.found_full (arc_value lot.now)) token.old token.new) }
        ensures drawn { IfOk result (λ condvar. drew condvar token.old token.new) };

    /// Gives the mutex up, waits to be notified, and takes the mutex again.
    ///
    /// # Errors
    ///
    /// `TwoMutexes`, where others wait with another mutex. The mutex was not given up then, and the
    /// guard is given back.
    fn wait<R: Wait>(
        &self,
        rt: &R,
        token: &mut <Self::RawMutex as RawMutex>::Token,
        mutex: &Self::RawMutex,
        guard: <Self::RawMutex as RawMutex>::Guard,
    ) -> Result<<Self::RawMutex as RawMutex>::Guard, (Fault, <Self::RawMutex as RawMutex>::Guard)>
        requires token { Self.RawMutex.is_token_of (lot_of self.now) token.old }
        requires lot { Self.RawMutex.lot_of mutex.now ≡ lot_of self.now }
        requires guard { Self.RawMutex.is_guard_of mutex.now guard }
        ensures token { Self.RawMutex.is_token_of (lot_of self.now) token.new
            × Self.RawMutex.keeps_rights token.old token.new }
        ensures guard { GivesBack result (Self.RawMutex.is_guard_of mutex.now) }
        ensures path { waited self.now mutex.now false
            (waiting_answer result) token.old token.new };

    /// Takes the first step of a notification, of one or of all. Returns what it sees of the
    /// condition variable: where that is 0, nobody waits, and the notification is over.
    fn notify_fast<R: Wait>(
        &self,
        rt: &R,
        token: &mut <Self::RawMutex as RawMutex>::Token,
        all: bool,
    ) -> u64
        requires { Self.RawMutex.is_token_of (lot_of self.now) token.old }
        ensures token { Self.RawMutex.is_token_of (lot_of self.now) token.new
            × Self.RawMutex.keeps_rights token.old token.new }
        ensures looked { looked self.now result token.old token.new }
        ensures one { result ≡ 0
            → notified self.now false No token.old token.new
            × moved self.now false 0 token.old token.new }
        ensures all { result ≡ 0 → notified self.now true (Number 0) token.old token.new
            × moved self.now true 0 token.old token.new };

    /// Does the rest of a notification of the first that waits, whose first step saw this. Whether
    /// anybody did.
    fn notify_one_slow<R: Wait>(
        &self,
        rt: &R,
        token: &mut <Self::RawMutex as RawMutex>::Token,
        seen: u64,
    ) -> bool
        requires token { Self.RawMutex.is_token_of (lot_of self.now) token.old }
        requires looked { (before : Self.RawMutex.Token) × looked self.now seen before token.old }
        requires some { seen ≢ 0 }
        ensures token { Self.RawMutex.is_token_of (lot_of self.now) token.new
            × Self.RawMutex.keeps_rights token.old token.new }
        ensures path { (before : Self.RawMutex.Token) → looked self.now seen before token.old
            → notified self.now false (notifying_answer result) before token.new
            × moved self.now false (moved_first result) before token.new };

    /// Does the rest of a notification of all that wait, whose first step saw this. How many did.
    fn notify_all_slow<R: Wait>(
        &self,
        rt: &R,
        token: &mut <Self::RawMutex as RawMutex>::Token,
        seen: u64,
    ) -> usize
        requires token { Self.RawMutex.is_token_of (lot_of self.now) token.old }
        requires looked { (before : Self.RawMutex.Token) × looked self.now seen before token.old }
        requires some { seen ≢ 0 }
        ensures token { Self.RawMutex.is_token_of (lot_of self.now) token.new
            × Self.RawMutex.keeps_rights token.old token.new }
        ensures path { (before : Self.RawMutex.Token) → looked self.now seen before token.old
            → notified self.now true (Number result) before token.new
            × moved self.now true result before token.new };

    /// Notifies the first that waits. Whether anybody did.
    #[inline]
    fn notify_one<R: Wait>(&self, rt: &R, token: &mut <Self::RawMutex as RawMutex>::Token) -> bool
        requires { Self.RawMutex.is_token_of (lot_of self.now) token.old }
        ensures token { Self.RawMutex.is_token_of (lot_of self.now) token.new
            × Self.RawMutex.keeps_rights token.old token.new }
        ensures path { notified self.now false (notifying_answer result) token.old token.new }
        ensures record { moved self.now false (moved_first result) token.old token.new }
    {
        let seen = self.notify_fast(rt, token, false);
        if seen == 0 {
            return false;
        }
        self.notify_one_slow(rt, token, seen)
    }

    /// Notifies all that wait. How many did.
    #[inline]
    fn notify_all<R: Wait>(&self, rt: &R, token: &mut <Self::RawMutex as RawMutex>::Token) -> usize
        requires { Self.RawMutex.is_token_of (lot_of self.now) token.old }
        ensures token { Self.RawMutex.is_token_of (lot_of self.now) token.new
            × Self.RawMutex.keeps_rights token.old token.new }
        ensures path { notified self.now true (Number result) token.old token.new }
        ensures record { moved self.now true result token.old token.new }
    {
        let seen = self.notify_fast(rt, token, true);
        if seen == 0 {
            return 0;
        }
        self.notify_all_slow(rt, token, seen)
    }
}

/// A condition variable whose waiters may give up.
pub trait RawCondvarTimed: RawCondvar {
    /// Returns the time, in nanoseconds, that is this much later. None where no `u64` tells it,
    /// which stands for no limit.
    fn checked_duration_to_instant(now: u64, timeout: Duration) -> Option<u64>
        ensures { MatchOption result (2 ^ 64 ≤ now + as_nanos timeout)
            (λ deadline. deadline ≡ now + as_nanos timeout) }
    {
        to_deadline(now, timeout)
    }

    /// Waits as `wait` does, or until so much time, in nanoseconds of the clock, has passed: it
    /// tells whether that was so.
    ///
    /// A time that ends past all that a `u64` tells is no limit.
    ///
    /// # Errors
    ///
    /// `TwoMutexes`, as of `wait`.
    fn wait_for<R: Wait, C: Clock>(
        &self,
        rt: &R,
        token: &mut <Self::RawMutex as RawMutex>::Token,
        mutex: &Self::RawMutex,
        guard: <Self::RawMutex as RawMutex>::Guard,
        clock: &C,
        timeout: Duration,
    ) -> Result<
        (<Self::RawMutex as RawMutex>::Guard, bool),
        (Fault, <Self::RawMutex as RawMutex>::Guard),
    >
        requires token { Self.RawMutex.is_token_of (Self.lot_of self.now) token.old }
        requires lot { Self.RawMutex.lot_of mutex.now ≡ Self.lot_of self.now }
        requires guard { Self.RawMutex.is_guard_of mutex.now guard }
        ensures token { Self.RawMutex.is_token_of (Self.lot_of self.now) token.new
            × Self.RawMutex.keeps_rights token.old token.new }
        ensures guard { GivesBackTimed result (Self.RawMutex.is_guard_of mutex.now) }
        ensures path { Self.waited self.now mutex.now true
            (timed_answer result) token.old token.new }
        ensures late { LateByClock result (HasElapsed (C.tells clock.now) (as_nanos timeout)) };

    /// Waits as `wait` does, or until the clock has come to the deadline: it tells whether that was
    /// so.
    ///
    /// # Errors
    ///
    /// `TwoMutexes`, as of `wait`.
    fn wait_until<R: Wait, C: Clock>(
        &self,
        rt: &R,
        token: &mut <Self::RawMutex as RawMutex>::Token,
        mutex: &Self::RawMutex,
        guard: <Self::RawMutex as RawMutex>::Guard,
        clock: &C,
        deadline: u64,
    ) -> Result<
        (<Self::RawMutex as RawMutex>::Guard, bool),
        (Fault, <Self::RawMutex as RawMutex>::Guard),
    >
        requires token { Self.RawMutex.is_token_of (Self.lot_of self.now) token.old }
        requires lot { Self.RawMutex.lot_of mutex.now ≡ Self.lot_of self.now }
        requires guard { Self.RawMutex.is_guard_of mutex.now guard }
        ensures token { Self.RawMutex.is_token_of (Self.lot_of self.now) token.new
            × Self.RawMutex.keeps_rights token.old token.new }
        ensures guard { GivesBackTimed result (Self.RawMutex.is_guard_of mutex.now) }
        ensures path { Self.waited self.now mutex.now true
            (timed_answer result) token.old token.new }
        ensures late { LateByClock result (HasPassed (C.tells clock.now) deadline) };
}
