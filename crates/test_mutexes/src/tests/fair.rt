//! Releases that hand the mutex over, and fair mutexes.
ghost use Rattle.std.specs.Prelude.{◌≡◌};
ghost use Rattle.parking_lot_core.specs.Tokens.{IsTokenOf};
ghost use Rattle.parking_lot.specs.LotOf.{lock_of, lot_of};

use super::crowds::{Part, for_rooms};
use super::{check_eq, fair_mutex_alone};
use parking_lot::{Key, Mutex, MutexGuard, ParkingLot, RawFairMutex, Token, lock_api};
use std::sync::Wait;
use std::sync::atomic::AtomicBool;
use std::sync::atomic::Ordering::SeqCst;
use std::thread::yield_now;

const TURNS: usize = 1_000_000;

pub(super) const TRIES: usize = 1000;

pub(super) fn wait_until<R: Wait>(rt: &R, flag: &AtomicBool) {
    for _ in rt.forever() {
        if flag.load(SeqCst) {
            break;
        }
        yield_now();
    }
}

// Returns whether a thread came to wait under a key.
pub(super) fn is_waited_for<R: Wait>(rt: &R, lot: &ParkingLot, key: Key, token: &mut Token) -> bool
    requires { IsTokenOf lot.now token.old }
    ensures { IsTokenOf lot.now token.new }
{
    for _ in 0..TURNS {
        if lot.queued(rt, token, key) == 1 {
            return true;
        }
        yield_now();
    }
    false
}

// Returns whether a try gets the mutex, which is unlocked then.
fn gets<R: Wait>(rt: &R, mutex: &Mutex<u64>, token: &mut Token) -> bool
    requires { IsTokenOf (lot_of mutex.now) token.old }
    ensures { IsTokenOf (lot_of mutex.now) token.new }
{
    match mutex.try_lock(token) {
        Some(guard) => {
            guard.unlock(rt, token);
            true
        }
        None => false,
    }
}

// Returns whether the mutex refuses every try.
fn refuses_tries<R: Wait>(rt: &R, mutex: &Mutex<u64>, token: &mut Token) -> bool
    requires { IsTokenOf (lot_of mutex.now) token.old }
    ensures { IsTokenOf (lot_of mutex.now) token.new }
{
    for _ in 0..TRIES {
        if gets(rt, mutex, token) {
            return false;
        }
    }
    true
}

// Locks the mutex once it is held, and keeps it until it is told. It has written 1 under the mutex
// then.
pub(super) fn take_and_keep<R: Wait>(
    rt: &R,
    mutex: &Mutex<u64>,
    token: &mut Token,
    held: &AtomicBool,
    told: &AtomicBool,
)
    requires { IsTokenOf (lot_of mutex.now) token.old }
    ensures { IsTokenOf (lot_of mutex.now) token.new }
{
    wait_until(rt, held);
    mutex.with(rt, token, move |value: &mut u64| {
        *value = 1;
        wait_until(rt, told);
    });
}

// Hands the mutex to a thread that waits: whether it refuses tries for as long as that one is not
// told to unlock.
fn hand_over<R: Wait>(
    rt: &R,
    mutex: &Mutex<u64>,
    token: &mut Token,
    guard: MutexGuard<'_, u64>,
    told: &AtomicBool,
) -> bool
    requires token { IsTokenOf (lot_of mutex.now) token.old }
    requires guard { lock_of guard ≡ mutex.now }
    ensures { IsTokenOf (lot_of mutex.now) token.new }
{
    guard.unlock_fair(rt, token);
    let refuses = refuses_tries(rt, mutex, token);
    told.store(true, SeqCst);
    refuses && is_written(rt, mutex, token)
}

// Bumps the mutex for a thread that waits: whether that one had it before the mutex was there
// again.
fn bump<R: Wait>(rt: &R, token: &mut Token, guard: MutexGuard<'_, u64>) -> bool
    requires { IsTokenOf (lot_of (lock_of guard)) token.old }
    ensures { IsTokenOf (lot_of (lock_of guard.entry)) token.new }
{
    let guard = guard.bump(rt, token);
    let had = *guard == 1;
    guard.unlock(rt, token);
    had
}

// Unlocks the mutex for a thread that waits, and waits until that one has had it.
fn release<R: Wait>(
    rt: &R,
    mutex: &Mutex<u64>,
    token: &mut Token,
    guard: MutexGuard<'_, u64>,
) -> bool
    requires token { IsTokenOf (lot_of mutex.now) token.old }
    requires guard { lock_of guard ≡ mutex.now }
    ensures { IsTokenOf (lot_of mutex.now) token.new }
{
    guard.unlock(rt, token);
    for _ in rt.forever() {
        if is_written(rt, mutex, token) {
            break;
        }
        yield_now();
    }
    true
}

fn is_written<R: Wait>(rt: &R, mutex: &Mutex<u64>, token: &mut Token) -> bool
    requires { IsTokenOf (lot_of mutex.now) token.old }
    ensures { IsTokenOf (lot_of mutex.now) token.new }
{
    mutex.with(rt, token, |value: &mut u64| *value == 1)
}

#[derive(Clone, Copy)]
pub(super) enum GivesUp {
    Plain,
    Fair,
    Bump,
}

// Holds the mutex until somebody waits for it, and gives it up. Whether one came, and has what it
// is to have.
pub(super) fn give_up<R: Wait>(
    rt: &R,
    lot: &ParkingLot,
    mutex: &Mutex<u64>,
    token: &mut Token,
    held: &AtomicBool,
    told: &AtomicBool,
    by: GivesUp,
) -> bool
    requires { IsTokenOf lot.now token.old × (lot_of mutex.now ≡ lot.now) }
    ensures { IsTokenOf lot.now token.new }
{
    let guard = mutex.lock(rt, token);
    held.store(true, SeqCst);
    let came = is_waited_for(rt, lot, mutex.raw().key(), token);
    let has = match by {
        GivesUp::Plain => release(rt, mutex, token, guard),
        GivesUp::Fair => hand_over(rt, mutex, token, guard, told),
        GivesUp::Bump => bump(rt, token, guard),
    };
    came && has
}

#[test]
fn a_waiter_gets_the_mutex_by_a_release(rt: HostRuntime) {
    for_rooms(
        &rt,
        rt.alloc(),
        2,
        Part::GiveUp(GivesUp::Plain),
        (true, 1, 0),
    );
}

#[test]
fn a_waiter_is_handed_the_mutex(rt: HostRuntime) {
    for_rooms(
        &rt,
        rt.alloc(),
        2,
        Part::GiveUp(GivesUp::Fair),
        (true, 1, 0),
    );
}

#[test]
fn a_waiter_has_the_mutex_during_a_bump(rt: HostRuntime) {
    for_rooms(
        &rt,
        rt.alloc(),
        2,
        Part::GiveUp(GivesUp::Bump),
        (true, 1, 0),
    );
}

#[test]
fn the_value_of_a_fair_mutex_comes_out(rt: HostRuntime) {
    let (mutex, _token) = fair_mutex_alone(&rt, rt.alloc(), 10);
    // A `FairMutex` is this one, by type.
    let mut mutex: lock_api::Mutex<RawFairMutex, u64> = mutex;
    check_eq(&rt, *mutex.get_mut(), 10);
    *mutex.get_mut() = 20;
    check_eq(&rt, mutex.into_inner(), 20);
}
