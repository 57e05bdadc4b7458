//! The operations on reader-writer locks.
ghost use Rattle.std.specs.Prelude.{◌≡◌, IfOk};
ghost use Rattle.std.specs.Arc.{arc_value};
ghost use Rattle.parking_lot.specs.LotOf.{lot_of_rwlock};
ghost use Rattle.parking_lot_core.specs.Tokens.{IsTokenOf};

use crate::made::{both, unless_refused};
use parking_lot::lock_api_rw::{RawRwLock as RawLock, RawRwLockDowngrade, RawRwLockUpgrade};
use parking_lot::{Fault, ParkingLot, RawRwLock, RecursiveRwLock, RwLock, Token, lock_api_rw};
use std::sync::{Arc, Wait};

// One operation in so many writes, where some read and some write.
const ONE_IN: u64 = 16;

/// A reader-writer lock without a value, one with, and a recursive one, of one lot.
#[derive(Drop)]
pub(crate) struct RwLocks {
    pub(crate) raw: RawRwLock<false>,
    pub(crate) value: RwLock<u64>,
    pub(crate) recursive: RecursiveRwLock<u64>,
    ghost together: { (lot_of_rwlock value ≡ lot_of_rwlock raw) × (lot_of_rwlock recursive ≡ lot_of_rwlock raw) },
}

/// How many words they take of their lot.
pub(crate) const RWLOCKS: usize = 3;

/// The locks, drawn from the lot.
pub(crate) fn rwlocks_of(lot: &Arc<ParkingLot>, token: &mut Token) -> Result<RwLocks, Fault>
    requires { IsTokenOf (arc_value lot.now) token.old }
    ensures token { IsTokenOf (arc_value lot.now) token.new }
    ensures made { IfOk result (λ locks. lot_of_rwlock locks.raw ≡ arc_value lot.now) }
{
    let raw = RawRwLock::<false>::new(lot, token);
    let value = unless_refused(RwLock::new(lot, token, 0));
    let recursive = unless_refused(RecursiveRwLock::new(lot, token, 0));
    let (raw, (value, recursive)) = both(raw, both(value, recursive))?;
    Ok(RwLocks {
        raw,
        value,
        recursive,
    })
}

/// Returns the value that was written.
pub(crate) fn value_in<R: Wait>(rt: &R, lock: &RwLock<u64>, token: &mut Token) -> u64
    requires { IsTokenOf (lot_of_rwlock lock.now) token.old }
{
    lock.with_write(rt, token, |value: &mut u64| *value)
}

/// Comes in to read and leaves, so many times.
#[inline(never)]
pub(crate) fn read_raw<const SECOND: bool, L: RawLock, R: Wait>(
    rt: &R,
    lock: &L,
    token: &mut L::Token,
    times: u64,
)
    requires { L.is_token_of (L.lot_of lock.now) token.old }
    ensures { L.is_token_of (L.lot_of lock.now) token.new }
{
    for _ in 0..times {
        if let Ok(guard) = lock.lock_shared(rt, token) {
            lock.unlock_shared(rt, token, guard);
        }
    }
}

#[inline(never)]
pub(crate) fn write_raw<const SECOND: bool, L: RawLock, R: Wait>(
    rt: &R,
    lock: &L,
    token: &mut L::Token,
    times: u64,
)
    requires { L.is_token_of (L.lot_of lock.now) token.old }
    ensures { L.is_token_of (L.lot_of lock.now) token.new }
{
    for _ in 0..times {
        let guard = lock.lock_exclusive(rt, token);
        lock.unlock_exclusive(rt, token, guard);
    }
}

/// Reads the value.
#[inline(never)]
pub(crate) fn read_value<const SECOND: bool, L: RawLock, R: Wait>(
    rt: &R,
    lock: &lock_api_rw::RwLock<L, u64>,
    token: &mut L::Token,
    times: u64,
)
    requires { L.is_token_of (L.lot_of lock.now) token.old }
    ensures { L.is_token_of (L.lot_of lock.now) token.new }
{
    for _ in 0..times {
        if let Ok(guard) = lock.read(rt, token) {
            let _value = *guard;
            guard.unlock(rt, token);
        }
    }
}

/// Adds 1 to the value.
#[inline(never)]
pub(crate) fn write_value<const SECOND: bool, L: RawLock, R: Wait>(
    rt: &R,
    lock: &lock_api_rw::RwLock<L, u64>,
    token: &mut L::Token,
    times: u64,
)
    requires { L.is_token_of (L.lot_of lock.now) token.old }
    ensures { L.is_token_of (L.lot_of lock.now) token.new }
{
    for _ in 0..times {
        let mut guard = lock.write(rt, token);
        *guard = guard.wrapping_add(1);
        guard.unlock(rt, token);
    }
}

/// Reads the value, and adds 1 to it now and then.
#[inline(never)]
pub(crate) fn mix_value<const SECOND: bool, L: RawLock, R: Wait>(
    rt: &R,
    lock: &lock_api_rw::RwLock<L, u64>,
    token: &mut L::Token,
    times: u64,
)
    requires { L.is_token_of (L.lot_of lock.now) token.old }
    ensures { L.is_token_of (L.lot_of lock.now) token.new }
{
    for turn in 0..times {
        if turn % ONE_IN == 0 {
            let mut guard = lock.write(rt, token);
            *guard = guard.wrapping_add(1);
            guard.unlock(rt, token);
        } else if let Ok(guard) = lock.read(rt, token) {
            let _value = *guard;
            guard.unlock(rt, token);
        }
    }
}

/// Comes in to read and perhaps write, and leaves.
#[inline(never)]
pub(crate) fn come_upgradable<const SECOND: bool, L: RawRwLockUpgrade, R: Wait>(
    rt: &R,
    lock: &lock_api_rw::RwLock<L, u64>,
    token: &mut L::Token,
    times: u64,
)
    requires { L.is_token_of (L.lot_of lock.now) token.old }
    ensures { L.is_token_of (L.lot_of lock.now) token.new }
{
    for _ in 0..times {
        if let Ok(guard) = lock.upgradable_read(rt, token) {
            let _value = *guard;
            guard.unlock(rt, token);
        }
    }
}

/// Comes in to read, upgrades, and adds 1 to the value.
#[inline(never)]
pub(crate) fn upgrade_value<const SECOND: bool, L: RawRwLockUpgrade, R: Wait>(
    rt: &R,
    lock: &lock_api_rw::RwLock<L, u64>,
    token: &mut L::Token,
    times: u64,
)
    requires { L.is_token_of (L.lot_of lock.now) token.old }
    ensures { L.is_token_of (L.lot_of lock.now) token.new }
{
    for _ in 0..times {
        if let Ok(guard) = lock.upgradable_read(rt, token) {
            let mut guard = guard.upgrade(rt, token);
            *guard = guard.wrapping_add(1);
            guard.unlock(rt, token);
        }
    }
}

/// Adds 1 to the value, and reads on.
#[inline(never)]
pub(crate) fn downgrade_value<const SECOND: bool, L: RawRwLockDowngrade, R: Wait>(
    rt: &R,
    lock: &lock_api_rw::RwLock<L, u64>,
    token: &mut L::Token,
    times: u64,
)
    requires { L.is_token_of (L.lot_of lock.now) token.old }
    ensures { L.is_token_of (L.lot_of lock.now) token.new }
{
    for _ in 0..times {
        let mut guard = lock.write(rt, token);
        *guard = guard.wrapping_add(1);
        guard.downgrade(rt, token).unlock(rt, token);
    }
}
