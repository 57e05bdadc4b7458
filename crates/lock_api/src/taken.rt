//! A mutex that is taken, whose permit is out.
ghost use Rattle.std.specs.Prelude.{◌≡◌};

use crate::mutex::Mutex;
use crate::shows::Keeps;
use core_parts::Open;
use lock_raw::RawMutex;
use std::marker::Model;

/// A mutex, with the raw guard of a thread that has taken it. The raw guard comes out only for a
/// value that is closed then.
pub struct Taken<'a, R: RawMutex, T> {
    mutex: &'a Mutex<R, T>,
    // The lot of the mutex, kept so that the atomic step which releases the mutex doesn't wait until
    // the lot is found.
    lot: &'a R::Lot,
    opened: R::Opened,
    ghost met: { lot.now ≡ R.lot_of mutex.now },
    ghost owned: { R.is_opened_of mutex.now opened } by { R.opened_once mutex.now opened },
}

// In a clause it is the raw mutex.
impl<'a, R: RawMutex, T> Model for Taken<'a, R, T> {
    ghost Value = { R };

    ghost view = { λ taken. taken.mutex.now };
}

impl<R: RawMutex, T> Keeps for Taken<'_, R, T> {
    ghost permit = { λ mutex. R.permit_of mutex };
}

impl<'a, R: RawMutex, T> Taken<'a, R, T> {
    #[inline]
    pub(crate) fn new(mutex: &'a Mutex<R, T>, lot: &'a R::Lot, opened: R::Opened) -> Taken<'a, R, T>
        requires { R.is_opened_of mutex.now opened × (lot.now ≡ R.lot_of mutex.now) }
        ensures { result ≡ mutex.now }
    {
        Taken { mutex, lot, opened }
    }

    // Closes the value, and only then gives up what says that it is open.
    #[inline]
    pub(crate) fn close(self, value: Open<'_, T>) -> (&'a Mutex<R, T>, &'a R::Lot, R::Guard)
        requires { value.id ≡ R.permit_of self }
        ensures { (result.0.now ≡ self.entry) × (result.1.now ≡ R.lot_of self.entry)
            × R.is_guard_of self.entry result.2 }
    {
        let Taken { mutex, lot, opened } = self;
        let permit = value.close();
        (mutex, lot, mutex.raw().close_value(opened, permit))
    }
}
