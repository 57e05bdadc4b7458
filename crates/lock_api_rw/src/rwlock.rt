//! The reader-writer lock with its value.
ghost use Rattle.std.specs.Prelude.{◌≡◌, ◌≤◌, IfErr, IfOk, IfSome, MatchResult};
ghost use Rattle.std.specs.Arc.{arc_value};
ghost use Rattle.lock_raw.specs.Answers.{IsReadersFull, IsRefusal, TriesOrFull, answer_by, counted_answer};
ghost use Rattle.lock_raw.specs.Answers.{reading_answer};
ghost use Rattle.lock_api_rw.specs.Guards.{lock_of};
ghost use Rattle.spec_locks.specs.declared.calls.Access.TheVariants as access;
ghost use Rattle.spec_locks.specs.declared.calls.Patience.TheVariants.{Patient, Try};
ghost use Rattle.spec_locks.specs.declared.calls.RwLockCall.TheVariants.{Enter};
ghost use Rattle.spec_locks.specs.declared.outcomes.Answer.TheVariants as answers;

use crate::guards::{RwLockReadGuard, RwLockUpgradableReadGuard, RwLockWriteGuard};
use crate::held::Held;
use crate::rights::{Reading, Upgrading, Writing};
use core_base::Fault;
use lock_raw::{RawRwLock, RawRwLockUpgrade};
use lock_values::{NamesPlace, Place};
use std::marker::Model;
use std::sync::{Arc, Wait};

// Names the place in which a lock's value stands.
#[derive(Drop)]
struct Names<'a, R> {
    raw: &'a R,
}

impl<R: RawRwLock> NamesPlace for Names<'_, R> {
    ghost place = { λ names. R.place_of names.raw.now };
}

/// A value that many threads may read, or one may write. It stands in a plain place, which is
/// opened by the right of a thread that has the raw lock.
#[derive(Drop)]
pub struct RwLock<R: RawRwLock, T> {
    raw: R,
    pub(crate) place: Place<T>,
    ghost named: { place ≡ R.place_of raw },
}

// In a clause a lock is its raw one: the value changes behind a shared reference, so none tells it.
impl<R: RawRwLock, T> Model for RwLock<R, T> {
    ghost use Rattle.std.specs.Prelude.{◌≡◌};

    ghost Value = { R };

    ghost view = { λ lock. lock.raw };
}

impl<R: RawRwLock, T> RwLock<R, T> {
    /// Makes a lock that nobody has, with its value, which up to 2^60 - 2 threads may share.
    ///
    /// # Errors
    ///
    /// `LotFull`, where the lot has no word left, and `NoMemory`, where memory was refused. The
    /// value is given back.
    #[inline]
    pub fn new(
        lot: &Arc<R::Lot>,
        token: &mut R::Token,
        value: T,
    ) -> Result<RwLock<R, T>, (Fault, T)>
        requires { R.is_token_of (arc_value lot.now) token.old }
        ensures token { R.is_token_of (arc_value lot.now) token.new × R.keeps_rights token.old token.new }
        ensures made { MatchResult result
            (λ lock. (R.lot_of lock ≡ arc_value lot.now) × (R.limit_of lock ≡ 1152921504606846974))
            (λ refused. (refused.1 ≡ value)
            × IsRefusal (R.found_full (arc_value lot.now)) token.old token.new refused.0) }
        ensures drawn { IfOk result (λ lock. R.drew lock token.old token.new) }
    {
        match R::new(lot, token) {
            Ok(raw) => {
                let place = Place::new(value, &Names { raw: &raw });
                Ok(RwLock { raw, place })
            }
            Err(fault) => Err((fault, value)),
        }
    }

    /// Makes a lock that nobody has and so many threads may share, with its value: at least as many
    /// as the lot has threads, and at most 2^60 - 2. An exclusive owner's hand-over to all that wait
    /// thereby never passes the limit.
    ///
    /// # Errors
    ///
    /// `LotFull`, where the lot has no word left, and `NoMemory`, where memory was refused. The
    /// value is given back.
    #[inline]
    pub fn with_limit(
        lot: &Arc<R::Lot>,
        token: &mut R::Token,
        value: T,
        limit: u64,
    ) -> Result<RwLock<R, T>, (Fault, T)>
        requires token { R.is_token_of (arc_value lot.now) token.old }
        requires limit { (R.seats_of (arc_value lot.now) ≤ limit)
            × (limit ≤ 1152921504606846974) }
        ensures token { R.is_token_of (arc_value lot.now) token.new × R.keeps_rights token.old token.new }
        ensures made { MatchResult result
            (λ lock. (R.lot_of lock ≡ arc_value lot.now) × (R.limit_of lock ≡ limit))
            (λ refused. (refused.1 ≡ value)
            × IsRefusal (R.found_full (arc_value lot.now)) token.old token.new refused.0) }
        ensures drawn { IfOk result (λ lock. R.drew lock token.old token.new) }
    {
        match R::with_limit(lot, token, limit) {
            Ok(raw) => {
                let place = Place::new(value, &Names { raw: &raw });
                Ok(RwLock { raw, place })
            }
            Err(fault) => Err((fault, value)),
        }
    }

    // Returns the guard of a thread that has the raw one.
    #[inline]
    pub(crate) fn open_shared(&self, raw: R::SharedGuard) -> RwLockReadGuard<'_, R, T>
        requires { R.is_shared_of self.now raw }
        ensures { lock_of result ≡ self.now }
    {
        Held {
            right: Reading::new(self),
            value: self.raw.open_shared(&self.place, raw),
        }
    }

    #[inline]
    pub(crate) fn open_exclusive(&self, raw: R::ExclusiveGuard) -> RwLockWriteGuard<'_, R, T>
        requires { R.is_exclusive_of self.now raw }
        ensures { lock_of result ≡ self.now }
    {
        Held {
            right: Writing::new(self),
            value: self.raw.open_exclusive(&self.place, raw),
        }
    }

    /// Waits until no writer keeps readers out, and comes in to read.
    ///
    /// # Errors
    ///
    /// `ReadersFull`, where as many share the lock as may.
    #[inline(always)]
    pub fn read<W: Wait>(
        &self,
        rt: &W,
        token: &mut R::Token,
    ) -> Result<RwLockReadGuard<'_, R, T>, Fault>
        requires { R.is_token_of (R.lot_of self.now) token.old }
        ensures token { R.is_token_of (R.lot_of self.now) token.new × R.keeps_rights token.old token.new }
        ensures guard { MatchResult result (λ guard. lock_of guard ≡ self.now) IsReadersFull }
        ensures path { R.took_steps self.now (Enter access.Shared Patient)
            (reading_answer result) token.old token.new }
        ensures full { IfErr result (λ _. R.saw_full self.now access.Shared token.old token.new) }
    {
        let entered = match self.raw.lock_shared_fast(token) {
            Ok(entered) => entered,
            Err(rest) => self.raw.lock_shared_slow(rt, token, rest),
        };
        match entered {
            Ok(raw) => Ok(self.open_shared(raw)),
            Err(fault) => Err(fault),
        }
    }

    /// Comes in to read where no writer keeps readers out.
    ///
    /// # Errors
    ///
    /// `ReadersFull`, where as many share the lock as may.
    #[inline]
    pub fn try_read<W: Wait>(
        &self,
        rt: &W,
        token: &mut R::Token,
    ) -> Result<Option<RwLockReadGuard<'_, R, T>>, Fault>
        requires { R.is_token_of (R.lot_of self.now) token.old }
        ensures token { R.is_token_of (R.lot_of self.now) token.new × R.keeps_rights token.old token.new }
        ensures guard { TriesOrFull result (λ guard. lock_of guard ≡ self.now) }
        ensures path { R.took_steps self.now (Enter access.Shared Try)
            (counted_answer result) token.old token.new }
        ensures full { IfErr result (λ _. R.saw_full self.now access.Shared token.old token.new) }
    {
        match self.raw.try_lock_shared(rt, token) {
            Ok(Some(raw)) => Ok(Some(self.open_shared(raw))),
            Ok(None) => Ok(None),
            Err(fault) => Err(fault),
        }
    }

    /// Waits until nobody has the lock, and takes it.
    #[inline(always)]
    pub fn write<W: Wait>(&self, rt: &W, token: &mut R::Token) -> RwLockWriteGuard<'_, R, T>
        requires { R.is_token_of (R.lot_of self.now) token.old }
        ensures token { R.is_token_of (R.lot_of self.now) token.new × R.keeps_rights token.old token.new }
        ensures guard { lock_of result ≡ self.now }
        ensures path { R.took_steps self.now
            (Enter access.Exclusive Patient) answers.Ok token.old token.new }
    {
        let raw = match self.raw.lock_exclusive_fast(token) {
            Ok(raw) => raw,
            Err(rest) => self.raw.lock_exclusive_slow(rt, token, rest),
        };
        self.open_exclusive(raw)
    }

    /// Takes the lock where its word is 0. None where somebody has it or waits, or where a waiter
    /// that has gone left its bit.
    #[inline]
    pub fn try_write(&self, token: &mut R::Token) -> Option<RwLockWriteGuard<'_, R, T>>
        requires { R.is_token_of (R.lot_of self.now) token.old }
        ensures token { R.is_token_of (R.lot_of self.now) token.new × R.keeps_rights token.old token.new }
        ensures guard { IfSome result (λ guard. lock_of guard ≡ self.now) }
        ensures path { R.took_steps self.now (Enter access.Exclusive Try)
            (answer_by result) token.old token.new }
    {
        let raw = self.raw.try_lock_exclusive(token)?;
        Some(self.open_exclusive(raw))
    }

    /// Returns whether somebody has the lock, or a writer waits for its last readers.
    #[inline]
    pub fn is_locked(&self, token: &mut R::Token) -> bool
        requires { R.is_token_of (R.lot_of self.now) token.old }
        ensures token { R.is_token_of (R.lot_of self.now) token.new × R.keeps_rights token.old token.new }
        ensures seen { R.looked self.now result token.old token.new }
    {
        self.raw.is_locked(token)
    }

    /// Returns whether somebody has the lock alone.
    #[inline]
    pub fn is_locked_exclusive(&self, token: &mut R::Token) -> bool
        requires { R.is_token_of (R.lot_of self.now) token.old }
        ensures token { R.is_token_of (R.lot_of self.now) token.new × R.keeps_rights token.old token.new }
        ensures seen { R.looked_for_writer self.now result token.old token.new }
    {
        self.raw.is_locked_exclusive(token)
    }
}

impl<R: RawRwLockUpgrade, T> RwLock<R, T> {
    #[inline]
    pub(crate) fn open_upgradable(
        &self,
        raw: R::UpgradableGuard,
    ) -> RwLockUpgradableReadGuard<'_, R, T>
        requires { R.is_upgradable_of self.now raw }
        ensures { lock_of result ≡ self.now }
    {
        Held {
            right: Upgrading::new(self),
            value: self.raw.open_upgradable(&self.place, raw),
        }
    }

    /// Waits until nobody has the lock alone or with the upgradable right, and comes in to read
    /// with that right.
    ///
    /// # Errors
    ///
    /// `ReadersFull`, where as many share the lock as may.
    #[inline(always)]
    pub fn upgradable_read<W: Wait>(
        &self,
        rt: &W,
        token: &mut R::Token,
    ) -> Result<RwLockUpgradableReadGuard<'_, R, T>, Fault>
        requires { R.is_token_of (R.lot_of self.now) token.old }
        ensures token { R.is_token_of (R.lot_of self.now) token.new × R.keeps_rights token.old token.new }
        ensures guard { MatchResult result (λ guard. lock_of guard ≡ self.now) IsReadersFull }
        ensures path { R.took_steps self.now (Enter access.Upgradable Patient)
            (reading_answer result) token.old token.new }
        ensures full { IfErr result
            (λ _. R.saw_full self.now access.Upgradable token.old token.new) }
    {
        let entered = match self.raw.lock_upgradable_fast(token) {
            Ok(entered) => entered,
            Err(rest) => self.raw.lock_upgradable_slow(rt, token, rest),
        };
        match entered {
            Ok(raw) => Ok(self.open_upgradable(raw)),
            Err(fault) => Err(fault),
        }
    }

    /// Comes in so where nobody has the lock alone or with the upgradable right.
    ///
    /// # Errors
    ///
    /// `ReadersFull`, where as many share the lock as may.
    #[inline]
    pub fn try_upgradable_read<W: Wait>(
        &self,
        rt: &W,
        token: &mut R::Token,
    ) -> Result<Option<RwLockUpgradableReadGuard<'_, R, T>>, Fault>
        requires { R.is_token_of (R.lot_of self.now) token.old }
        ensures token { R.is_token_of (R.lot_of self.now) token.new × R.keeps_rights token.old token.new }
        ensures guard { TriesOrFull result (λ guard. lock_of guard ≡ self.now) }
        ensures path { R.took_steps self.now (Enter access.Upgradable Try)
            (counted_answer result) token.old token.new }
        ensures full { IfErr result
            (λ _. R.saw_full self.now access.Upgradable token.old token.new) }
    {
        match self.raw.try_lock_upgradable(rt, token) {
            Ok(Some(raw)) => Ok(Some(self.open_upgradable(raw))),
            Ok(None) => Ok(None),
            Err(fault) => Err(fault),
        }
    }
}

impl<R: RawRwLock, T> RwLock<R, T> {
    /// Returns the raw lock.
    #[inline]
    pub fn raw(&self) -> &R
        ensures { result.now ≡ self.now }
    {
        &self.raw
    }
}

impl<R: RawRwLock + Drop, T> RwLock<R, T> {
    /// Returns the value of a lock that nobody has. It takes no step.
    #[inline]
    pub fn into_inner(self) -> T {
        let RwLock { raw: _, place } = self;
        place.into_inner()
    }
}
