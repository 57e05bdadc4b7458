//! A thread that has a mutex for itself reaches its value without a step.
ghost use Rattle.std.specs.Prelude.{◌≡◌};
ghost use Rattle.std.specs.Borrow.{Lends, sem};
ghost use Rattle.lock_api.specs.contracts.mutex.Mutex.{the_row};

use crate::mutex::Mutex;
use lock_raw::RawMutex;

impl<R: RawMutex, T> Mutex<R, T> {
    /// Returns the value, of a mutex that nobody else can use meanwhile. It takes no step, and the
    /// mutex is the same after it.
    #[inline]
    pub fn get_mut(&mut self) -> &mut T
        ensures* same { sem 𝓛
            (Lends (the_row R.row T.row R.Lot.row R.Token.row R.Guard.row R.Opened.row R.RawMutex)
            T.row
            self.entry result (λ _. self.old)) }
    {
        self.place.get_mut()
    }
}
