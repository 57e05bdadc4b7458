//! The operations on mutexes.
ghost use Rattle.std.specs.Prelude.{◌≡◌, ◌+◌, IfOk};
ghost use Rattle.std.specs.Arc.{arc_value};
ghost use Rattle.parking_lot.specs.LotOf.{lock_of, lot_of, thread_of};
ghost use Rattle.parking_lot_core.specs.Tokens.{IsSameThread, IsTokenOf};

use crate::made::{both, unless_refused};
use parking_lot::lock_api::RawMutex as RawLock;
use parking_lot::{
    FairMutex, Fault, Mutex, ParkingLot, RawMutex, ReentrantMutex, ReentrantMutexGuard, Token,
    lock_api,
};
use std::sync::{Arc, Wait};

/// A mutex without a value, one with, a fair one and a reentrant one, of one lot.
#[derive(Drop)]
pub(crate) struct Mutexes {
    pub(crate) raw: RawMutex,
    pub(crate) value: Mutex<u64>,
    pub(crate) fair: FairMutex<u64>,
    pub(crate) again: ReentrantMutex<u64>,
    ghost together: { (lot_of value ≡ lot_of raw) × (lot_of fair ≡ lot_of raw)
        × (lot_of again.0 ≡ lot_of raw) },
}

/// How many words they take of their lot.
pub(crate) const MUTEXES: usize = 5;

/// The mutexes, drawn from the lot.
pub(crate) fn mutexes_of(lot: &Arc<ParkingLot>, token: &mut Token) -> Result<Mutexes, Fault>
    requires { IsTokenOf (arc_value lot.now) token.old }
    ensures token { IsTokenOf (arc_value lot.now) token.new }
    ensures made { IfOk result (λ mutexes. lot_of mutexes.raw ≡ arc_value lot.now) }
{
    let raw = RawMutex::new(lot, token);
    let value = unless_refused(Mutex::new(lot, token, 0));
    let fair = unless_refused(FairMutex::new(lot, token, 0));
    let again = unless_refused(ReentrantMutex::new(lot, token, 0));
    let ((raw, again), (value, fair)) = both(both(raw, again), both(value, fair))?;
    Ok(Mutexes {
        raw,
        value,
        fair,
        again,
    })
}

/// Returns the value that was written.
pub(crate) fn value_in<M: RawLock, R: Wait>(
    rt: &R,
    mutex: &lock_api::Mutex<M, u64>,
    token: &mut M::Token,
) -> u64
    requires { M.is_token_of (M.lot_of mutex.now) token.old }
{
    mutex.with(rt, token, |value: &mut u64| *value)
}

#[inline]
fn raw_by_tries<M: RawLock, R: Wait>(rt: &R, mutex: &M, token: &mut M::Token) -> M::Guard
    requires { M.is_token_of (M.lot_of mutex.now) token.old }
    ensures token { M.is_token_of (M.lot_of mutex.now) token.new }
    ensures guard { M.is_guard_of mutex.now result }
{
    for _ in rt.forever() {
        if let Some(guard) = mutex.try_lock(token) {
            return guard;
        }
    }
    unreachable!()
}

#[inline(always)]
fn guard_by_tries<'a, M: RawLock, R: Wait>(
    rt: &R,
    mutex: &'a lock_api::Mutex<M, u64>,
    token: &mut M::Token,
) -> lock_api::MutexGuard<'a, M, u64>
    requires { M.is_token_of (M.lot_of mutex.now) token.old }
    ensures token { M.is_token_of (M.lot_of mutex.now) token.new }
    ensures guard { lock_of result ≡ mutex.now }
{
    for _ in rt.forever() {
        if let Some(guard) = mutex.try_lock(token) {
            return guard;
        }
    }
    unreachable!()
}

#[inline(never)]
pub(crate) fn lock_raw<const SECOND: bool, M: RawLock, R: Wait>(
    rt: &R,
    mutex: &M,
    token: &mut M::Token,
    times: u64,
)
    requires { M.is_token_of (M.lot_of mutex.now) token.old }
    ensures { M.is_token_of (M.lot_of mutex.now) token.new }
{
    for _ in 0..times {
        let guard = mutex.lock(rt, token);
        mutex.unlock(rt, token, guard);
    }
}

#[inline(never)]
pub(crate) fn try_raw<const SECOND: bool, M: RawLock, R: Wait>(
    rt: &R,
    mutex: &M,
    token: &mut M::Token,
    times: u64,
)
    requires { M.is_token_of (M.lot_of mutex.now) token.old }
    ensures { M.is_token_of (M.lot_of mutex.now) token.new }
{
    for _ in 0..times {
        let guard = raw_by_tries(rt, mutex, token);
        mutex.unlock(rt, token, guard);
    }
}

#[inline(never)]
pub(crate) fn lock_value<const SECOND: bool, M: RawLock, R: Wait>(
    rt: &R,
    mutex: &lock_api::Mutex<M, u64>,
    token: &mut M::Token,
    times: u64,
)
    requires { M.is_token_of (M.lot_of mutex.now) token.old }
    ensures { M.is_token_of (M.lot_of mutex.now) token.new }
{
    for _ in 0..times {
        let mut guard = mutex.lock(rt, token);
        *guard = guard.wrapping_add(1);
        guard.unlock(rt, token);
    }
}

#[inline(never)]
pub(crate) fn try_value<const SECOND: bool, M: RawLock, R: Wait>(
    rt: &R,
    mutex: &lock_api::Mutex<M, u64>,
    token: &mut M::Token,
    times: u64,
)
    requires { M.is_token_of (M.lot_of mutex.now) token.old }
    ensures { M.is_token_of (M.lot_of mutex.now) token.new }
{
    for _ in 0..times {
        let mut guard = guard_by_tries(rt, mutex, token);
        *guard = guard.wrapping_add(1);
        guard.unlock(rt, token);
    }
}

// Once, or once more. The count is far below its limit.
#[inline]
fn guard_of<'a, R: Wait>(
    rt: &R,
    mutex: &'a ReentrantMutex<u64>,
    token: &mut Token,
) -> ReentrantMutexGuard<'a, u64>
    requires { IsTokenOf (lot_of mutex.now.0) token.old }
    ensures token { IsSameThread (lot_of mutex.now.0) token.old token.new }
    ensures guard { (result.mutex.now ≡ mutex.now)
        × (thread_of result.share ≡ token.old.number + 1) }
{
    for _ in rt.forever() {
        if let Ok(guard) = mutex.lock(rt, token) {
            return guard;
        }
    }
    unreachable!()
}

#[inline(never)]
pub(crate) fn lock_once<const SECOND: bool, R: Wait>(
    rt: &R,
    mutex: &ReentrantMutex<u64>,
    token: &mut Token,
    times: u64,
)
    requires { IsTokenOf (lot_of mutex.now.0) token.old }
    ensures { IsTokenOf (lot_of mutex.now.0) token.new }
{
    for _ in 0..times {
        let guard = guard_of(rt, mutex, token);
        guard.unlock(rt, token);
    }
}

#[inline(never)]
pub(crate) fn lock_again<const SECOND: bool, R: Wait>(
    rt: &R,
    mutex: &ReentrantMutex<u64>,
    token: &mut Token,
    times: u64,
)
    requires { IsTokenOf (lot_of mutex.now.0) token.old }
    ensures { IsTokenOf (lot_of mutex.now.0) token.new }
{
    for _ in 0..times {
        let outer = guard_of(rt, mutex, token);
        let inner = guard_of(rt, mutex, token);
        inner.unlock(rt, token);
        outer.unlock(rt, token);
    }
}
