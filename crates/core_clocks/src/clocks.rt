//! Clocks, and deadlines on them.
//!
//! `Clock::tells` says of a clock and a time that the clock has reported it. Generic code knows of a
//! clock only what a look ensures, so that no thread is called late by a clock at which nobody looked.
//! A clock that can't be read reports the last of all times, so that a timed sleeper ends.
ghost use Rattle.std.specs.Prelude.{◌≡◌, ℕ, ◌+◌, ◌≤◌, ◌^◌, MatchOption};
ghost use Rattle.std.specs.Duration.{as_nanos};

use crossbeam_utils::sync::Parker;
use std::sync::Wait;
use std::time::Duration;

/// A clock, which reports the time to a sleeper with a deadline.
pub trait Clock {
    /// Says that the clock reported this time. Code that knows nothing else of a clock learns that
    /// only by a look at the clock.
    ghost tells: { Self → ℕ → Type 0 };

    /// Returns nanoseconds since some start, which don't go back.
    fn now(&self) -> u64
        ensures { tells self.now result };

    /// Waits for a while, `left` nanoseconds at most. A sleeper that parks by pauses looks for its wake
    /// between two of them, so they are to be short.
    fn pause(&self, left: u64);

    /// Sleeps until another thread unparks the parker, or for `left` nanoseconds. May return early: the
    /// caller looks whether it was woken.
    ///
    /// A clock that leaves this out pauses.
    fn park<W: Wait>(&self, _rt: &W, _parker: &Parker, left: u64) {
        self.pause(left);
    }
}

/// Returns the time, in nanoseconds, that is this much later. None where no `u64` holds it, which
/// stands for no limit.
pub fn to_deadline(now: u64, timeout: Duration) -> Option<u64>
    ensures { MatchOption result (2 ^ 64 ≤ now + as_nanos timeout)
        (λ deadline. deadline ≡ now + as_nanos timeout) }
{
    match u64::try_from(timeout.as_nanos()) {
        Ok(nanos) => now.checked_add(nanos),
        Err(_) => None,
    }
}
