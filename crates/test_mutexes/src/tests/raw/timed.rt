//! Raw mutexes whose waiters may give up.
ghost use Rattle.std.specs.Prelude.{IfSome};
ghost use Rattle.parking_lot_core.specs.Tokens.{IsTokenOf};
ghost use Rattle.parking_lot.specs.LotOf.{lot_of};

use super::super::fair::wait_until;
use super::super::{check, check_eq};
use super::{Part, play, seats, stands};
use parking_lot::lock_api::{RawMutex as RawLock, RawMutexTimed as RawTimedLock};
use parking_lot::{RawMutex, TickClock, Token};
use parking_lot_core::pauses::{SHORT_PAUSE, pause};
use std::sync::Wait;
use std::sync::atomic::Ordering::SeqCst;
use std::sync::atomic::{AtomicBool, AtomicU64};
use std::time::Duration;

const ROUNDS: u64 = 200;

// The rounds for which a thread holds the mutex: long enough for others to come meanwhile.
const LINGER: u32 = 8 * SHORT_PAUSE;

#[test]
fn an_owner_waits_for_its_own_mutex_in_vain(rt: HostRuntime) {
    let (lot, mutex, mut token, _others) = seats(&rt, rt.alloc(), 0);
    let clock = TickClock::new();
    let guard = mutex.lock(&rt, &mut token);
    for deadline in [0, 1, 20] {
        match mutex.try_lock_until(&rt, &mut token, &clock, deadline) {
            Some(other) => mutex.has_two_guards(&mut token, guard, other),
            None => {}
        }
        stands(&rt, &lot, &mutex, &mut token, true);
    }
    mutex.unlock(&rt, &mut token, guard);
    check(&rt, !mutex.is_locked(&mut token));
}

// Unlocks, if it was got. Whether it was.
pub(super) fn give_back<M: RawLock, R: Wait>(
    rt: &R,
    mutex: &M,
    token: &mut M::Token,
    got: Option<M::Guard>,
) -> bool
    requires token { M.is_token_of (M.lot_of mutex.now) token.old }
    requires guard { IfSome got (M.is_guard_of mutex.now) }
    ensures { M.is_token_of (M.lot_of mutex.now) token.new }
{
    match got {
        Some(guard) => {
            mutex.unlock(rt, token, guard);
            true
        }
        None => false,
    }
}

// Takes the mutex by each timed call, through the bound. Whether it got it each time.
fn takes_a_free_one<M: RawTimedLock, R: Wait>(rt: &R, mutex: &M, token: &mut M::Token) -> bool
    requires { M.is_token_of (M.lot_of mutex.now) token.old }
    ensures { M.is_token_of (M.lot_of mutex.now) token.new }
{
    let clock = TickClock::new();
    let in_no_time = mutex.try_lock_for(rt, token, &clock, Duration::ZERO);
    let first = give_back(rt, mutex, token, in_no_time);
    let without_limit = mutex.try_lock_for(rt, token, &clock, Duration::MAX);
    let second = give_back(rt, mutex, token, without_limit);
    let by_the_past = mutex.try_lock_until(rt, token, &clock, 0);
    give_back(rt, mutex, token, by_the_past) && first && second
}

#[test]
fn a_free_mutex_is_taken_though_the_time_is_up(rt: HostRuntime) {
    let (_lot, mutex, mut token, _others) = seats(&rt, rt.alloc(), 0);
    check(&rt, takes_a_free_one(&rt, &mutex, &mut token));
}

// Once the mutex is held, waits for it, up to a deadline that doesn't come or without a limit.
// Whether it got it.
pub(super) fn wait_for_held<R: Wait>(
    rt: &R,
    mutex: &RawMutex,
    token: &mut Token,
    held: &AtomicBool,
    deadline: Option<u64>,
) -> bool
    requires { IsTokenOf (lot_of mutex.now) token.old }
    ensures { IsTokenOf (lot_of mutex.now) token.new }
{
    wait_until(rt, held);
    let clock = TickClock::new();
    let got = match deadline {
        Some(deadline) => mutex.try_lock_until(rt, token, &clock, deadline),
        None => mutex.try_lock_for(rt, token, &clock, Duration::MAX),
    };
    give_back(rt, mutex, token, got)
}

#[test]
fn a_release_wakes_a_waiter_with_a_limit(rt: HostRuntime) {
    for deadline in [Some(u64::MAX), None] {
        check_eq(&rt, play(&rt, rt.alloc(), Part::MeetTimed(deadline)), 2);
    }
}

// Takes the mutex many times, each time up to a deadline that is soon, and adds 1 under it. It
// counts beside that how often it got it.
pub(super) fn race<R: Wait>(
    rt: &R,
    mutex: &RawMutex,
    token: &mut Token,
    got: &AtomicU64,
    hits: &AtomicU64,
) -> bool
    requires { IsTokenOf (lot_of mutex.now) token.old }
    ensures { IsTokenOf (lot_of mutex.now) token.new }
{
    let clock = TickClock::new();
    for round in 0..ROUNDS {
        clock.restart();
        match mutex.try_lock_until(rt, token, &clock, round % 8) {
            Some(guard) => {
                let seen = hits.load(SeqCst);
                pause(LINGER);
                hits.store(seen.wrapping_add(1), SeqCst);
                mutex.unlock(rt, token, guard);
                got.fetch_add(1, SeqCst);
            }
            None => {}
        }
    }
    true
}

#[test]
fn deadlines_race_releases(rt: HostRuntime) {
    let (got, hits) = (AtomicU64::new(0), AtomicU64::new(0));
    check_eq(&rt, play(&rt, rt.alloc(), Part::Race(&got, &hits)), 2);
    check(&rt, got.load(SeqCst) > 0);
    check_eq(&rt, hits.load(SeqCst), got.load(SeqCst));
}
