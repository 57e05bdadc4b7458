//! Calls of a mutex with a value that give up in time.
ghost use Rattle.std.specs.Prelude.{◌≤◌};
ghost use Rattle.parking_lot_core.specs.Tokens.{IsTicketOf, IsTokenOf};
ghost use Rattle.parking_lot.specs.LotOf.{lot_of};

use super::{check_eq, fair_mutex_alone, mutex_alone, mutex_of, next_of, seats};
use parking_lot::{Clock, Mutex, TickClock, Ticket, Token, lock_api};
use std::sync::Wait;
use std::time::Duration;

const FAR: u64 = 1000;

// Returns whether it gets any mutex within so many nanoseconds.
fn gets_within<M: lock_api::RawMutexTimed, R: Wait>(
    rt: &R,
    mutex: &lock_api::Mutex<M, u64>,
    token: &mut M::Token,
    clock: &TickClock,
    nanos: u64,
) -> bool
    requires { M.is_token_of (M.lot_of mutex.now) token.old }
    ensures { M.is_token_of (M.lot_of mutex.now) token.new }
{
    match mutex.try_lock_for(rt, token, clock, Duration::from_nanos(nanos)) {
        Some(guard) => {
            guard.unlock(rt, token);
            true
        }
        None => false,
    }
}

// Returns whether it gets any mutex before the clock comes to a time.
fn gets_before<M: lock_api::RawMutexTimed, R: Wait>(
    rt: &R,
    mutex: &lock_api::Mutex<M, u64>,
    token: &mut M::Token,
    clock: &TickClock,
    deadline: u64,
) -> bool
    requires { M.is_token_of (M.lot_of mutex.now) token.old }
    ensures { M.is_token_of (M.lot_of mutex.now) token.new }
{
    match mutex.try_lock_until(rt, token, clock, deadline) {
        Some(guard) => {
            guard.unlock(rt, token);
            true
        }
        None => false,
    }
}

// A clock that is far from 0, so that a deadline which forgets the time of now has passed on it.
fn far_clock() -> TickClock {
    let clock = TickClock::new();
    for _ in 0..FAR {
        clock.now();
    }
    clock
}

// Returns whether the clock came to a time, and has not been looked at often since.
fn is_just_past(clock: &TickClock, time: u64) -> bool
    requires { time ≤ 10000 }
{
    let now = clock.now();
    time < now && now < time + 10
}

// Waits in vain, for a time and up to a deadline. Whether it gave up each time, no sooner than it
// was to, and soon after that.
fn gives_up<M: lock_api::RawMutexTimed, R: Wait>(
    rt: &R,
    mutex: &lock_api::Mutex<M, u64>,
    token: &mut M::Token,
    clock: &TickClock,
) -> bool
    requires { M.is_token_of (M.lot_of mutex.now) token.old }
    ensures { M.is_token_of (M.lot_of mutex.now) token.new }
{
    let got = gets_within(rt, mutex, token, clock, 30);
    let in_time = is_just_past(clock, FAR + 30);
    let got_later = gets_before(rt, mutex, token, clock, FAR + 80);
    !got && in_time && !got_later && is_just_past(clock, FAR + 80)
}

/// What became of two tries that may wait, one while the mutex is held and one while it is free.
#[derive(Clone, Copy, Debug, PartialEq, Eq)]
struct Timed {
    gave_up: bool,
    got: bool,
    locked_then: bool,
}

// A waiter gives up while the mutex is held, and gets it once it is free.
const IN_TIME: Timed = Timed {
    gave_up: true,
    got: true,
    locked_then: false,
};

// Tries for a while beside a thread that holds the mutex, and again once that is free.
fn gives_up_and_gets<M: lock_api::RawMutexTimed, R: Wait>(
    rt: &R,
    mutex: &lock_api::Mutex<M, u64>,
    token: &mut M::Token,
) -> Timed
    requires { M.is_token_of (M.lot_of mutex.now) token.old }
{
    let clock = far_clock();
    let guard = mutex.lock(rt, token);
    let gave_up = gives_up(rt, mutex, token, &clock);
    guard.unlock(rt, token);
    let got = gets_within(rt, mutex, token, &clock, 5);
    Timed {
        gave_up,
        got,
        locked_then: mutex.is_locked(token),
    }
}

#[test]
fn a_waiter_gives_up_in_time(rt: HostRuntime) {
    let (mutex, mut token) = mutex_alone(&rt, rt.alloc(), 0u64);
    let seen = gives_up_and_gets(&rt, &mutex, &mut token);
    check_eq(&rt, seen, IN_TIME);
}

#[test]
fn a_waiter_of_a_fair_mutex_gives_up_in_time(rt: HostRuntime) {
    let (mutex, mut token) = fair_mutex_alone(&rt, rt.alloc(), 0);
    let seen = gives_up_and_gets(&rt, &mutex, &mut token);
    check_eq(&rt, seen, IN_TIME);
}

/// Whether tries past their deadline got the mutex.
#[derive(Clone, Copy, Debug, PartialEq, Eq)]
struct PastDeadline {
    free: bool,
    held: bool,
    free_again: bool,
}

// Tries past the deadline while the mutex is free, is held by another thread, and is free again.
fn tries_in_turn<R: Wait>(
    rt: &R,
    mutex: &Mutex<u64>,
    holder: &mut Token,
    waiter: Ticket,
) -> PastDeadline
    requires { IsTokenOf (lot_of mutex.now) holder.old × IsTicketOf (lot_of mutex.now) waiter }
{
    let mut waiter = waiter.enter();
    let clock = TickClock::new();
    let free = gets_before(rt, mutex, &mut waiter, &clock, 0);
    let guard = mutex.lock(rt, holder);
    let held = gets_before(rt, mutex, &mut waiter, &clock, 0);
    guard.unlock(rt, holder);
    PastDeadline {
        free,
        held,
        free_again: gets_before(rt, mutex, &mut waiter, &clock, 0),
    }
}

#[test]
fn a_free_mutex_is_got_past_the_deadline(rt: HostRuntime) {
    let (lot, mut holder, mut others) = seats(&rt, rt.alloc(), 1, 2);
    let mutex = mutex_of(&rt, &lot, &mut holder, 0u64);
    let Some(waiter) = next_of(&lot, &mut others) else {
        panic!(rt; "no second thread");
    };
    let got = tries_in_turn(&rt, &mutex, &mut holder, waiter);
    let expected = PastDeadline {
        free: true,
        held: false,
        free_again: true,
    };
    check_eq(&rt, got, expected);
}
