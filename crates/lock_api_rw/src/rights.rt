//! Reader-writer locks that are held, each by a right that lies in the place of its value.
ghost use Rattle.std.specs.Prelude.{◌≡◌};

use crate::rwlock::RwLock;
use crate::shows::Holds;
use lock_raw::{RawRwLock, RawRwLockUpgrade};
use lock_values::{Open, Seen};
use std::marker::Model;

/// A lock that is held to read.
pub struct Reading<'a, R: RawRwLock, T> {
    lock: &'a RwLock<R, T>,
}

// In a clause it is the raw lock.
impl<'a, R: RawRwLock, T> Model for Reading<'a, R, T> {
    ghost Value = { R };

    ghost view = { λ right. right.lock.now };
}

impl<R: RawRwLock, T> Holds for Reading<'_, R, T> {
    ghost place = { λ lock. R.place_of lock };

    ghost right_view = { λ lock. R.shared_view lock };
}

impl<'a, R: RawRwLock, T> Reading<'a, R, T> {
    #[inline]
    pub(crate) fn new(lock: &'a RwLock<R, T>) -> Reading<'a, R, T>
        ensures { result ≡ lock.now }
    {
        Reading { lock }
    }

    // Shuts the place of the value, which gives the raw guard.
    #[inline]
    pub(crate) fn close(self, value: Seen<'_, T>) -> (&'a RwLock<R, T>, R::SharedGuard)
        requires { (value.of ≡ R.place_of self) × (value.view ≡ R.shared_view self) }
        ensures { (result.0.now ≡ self.entry) × R.is_shared_of self.entry result.1 }
    {
        let Reading { lock } = self;
        (lock, lock.raw().shut_shared(value))
    }
}

/// A lock that is held to read, and to own alone later.
pub struct Upgrading<'a, R: RawRwLockUpgrade, T> {
    lock: &'a RwLock<R, T>,
}

// In a clause it is the raw lock.
impl<'a, R: RawRwLockUpgrade, T> Model for Upgrading<'a, R, T> {
    ghost Value = { R };

    ghost view = { λ right. right.lock.now };
}

impl<R: RawRwLockUpgrade, T> Holds for Upgrading<'_, R, T> {
    ghost place = { λ lock. R.place_of lock };

    ghost right_view = { λ lock. R.upgradable_view lock };
}

impl<'a, R: RawRwLockUpgrade, T> Upgrading<'a, R, T> {
    #[inline]
    pub(crate) fn new(lock: &'a RwLock<R, T>) -> Upgrading<'a, R, T>
        ensures { result ≡ lock.now }
    {
        Upgrading { lock }
    }

    // Shuts the place of the value, which gives the raw guard.
    #[inline]
    pub(crate) fn close(self, value: Seen<'_, T>) -> (&'a RwLock<R, T>, R::UpgradableGuard)
        requires { (value.of ≡ R.place_of self) × (value.view ≡ R.upgradable_view self) }
        ensures { (result.0.now ≡ self.entry) × R.is_upgradable_of self.entry result.1 }
    {
        let Upgrading { lock } = self;
        (lock, lock.raw().shut_upgradable(value))
    }
}

/// A lock that is held alone.
pub struct Writing<'a, R: RawRwLock, T> {
    lock: &'a RwLock<R, T>,
}

// In a clause it is the raw lock.
impl<'a, R: RawRwLock, T> Model for Writing<'a, R, T> {
    ghost Value = { R };

    ghost view = { λ right. right.lock.now };
}

impl<R: RawRwLock, T> Holds for Writing<'_, R, T> {
    ghost place = { λ lock. R.place_of lock };

    ghost right_view = { λ lock. R.exclusive_view lock };
}

impl<'a, R: RawRwLock, T> Writing<'a, R, T> {
    #[inline]
    pub(crate) fn new(lock: &'a RwLock<R, T>) -> Writing<'a, R, T>
        ensures { result ≡ lock.now }
    {
        Writing { lock }
    }

    // Shuts the place of the value, which gives the raw guard.
    #[inline]
    pub(crate) fn close(self, value: Open<'_, T>) -> (&'a RwLock<R, T>, R::ExclusiveGuard)
        requires { (value.of ≡ R.place_of self) × (value.view ≡ R.exclusive_view self) }
        ensures { (result.0.now ≡ self.entry) × R.is_exclusive_of self.entry result.1 }
    {
        let Writing { lock } = self;
        (lock, lock.raw().shut_exclusive(value))
    }
}
