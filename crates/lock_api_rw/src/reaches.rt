//! The value of a reader-writer lock that nobody else can use, reached without a step.
ghost use Rattle.std.specs.Prelude.{◌≡◌};
ghost use Rattle.std.specs.Borrow.{Lends, sem};
ghost use Rattle.lock_api_rw.specs.contracts.rwlock.RwLock.{the_row};

use crate::rwlock::RwLock;
use lock_raw::RawRwLock;

impl<R: RawRwLock, T> RwLock<R, T> {
    /// Returns the value, of a lock that nobody else can use meanwhile. It takes no step, and the
    /// lock is the same after it.
    #[inline]
    pub fn get_mut(&mut self) -> &mut T
        ensures* same { sem 𝓛
            (Lends (the_row R.row T.row R.Lot.row R.Token.row R.SharedGuard.row
            R.ExclusiveGuard.row R.SlowPart.row (record {
              limit_of = R.limit_of;
              seats_of = R.seats_of;
              drew = R.drew;
              found_full = R.found_full;
              looked = R.looked;
              looked_for_writer = R.looked_for_writer;
              gave_up = R.gave_up;
            }) R.RawRwLockHalves)
            T.row
            self.entry result (λ _. self.old)) }
    {
        self.place.get_mut()
    }
}
