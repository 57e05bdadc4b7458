//! Many threads that wait, and one that notifies all of them.
ghost use Rattle.std.specs.Prelude.{◌≡◌, IfSome};
ghost use Rattle.parking_lot.specs.LotOf.{IsTokenOf, lock_of, lot_of};

use super::rooms::{Part, Room, play};
use super::{Limit, TURNS, check_eq, wait, wait_long};
use parking_lot::{MutexGuard, TickClock, Token};
use std::sync::Wait;
use std::thread::yield_now;

// The waiters that a thread notifies, and whether it has the mutex then.
#[derive(Clone, Copy)]
pub(super) enum Whom {
    AllUnderMutex,
    AllFree,
    // One, which notifies the next.
    One,
}

// Waits once more for a short time, and notifies the next.
fn pass_on<R: Wait>(rt: &R, room: &Room, token: &mut Token)
    requires { IsTokenOf (lot_of room.now.mutex) token.old }
    ensures { IsTokenOf (lot_of room.now.mutex) token.new }
{
    let clock = TickClock::new();
    let guard = room.mutex.lock(rt, token);
    let (guard, _) = wait(rt, &room.condvar, token, guard, &clock, Limit::For(1000));
    room.condvar.notify_one(rt, token);
    guard.unlock(rt, token);
}

// Adds 1 under the mutex, and waits. Whether it was notified. It may pass that on.
pub(super) fn add_and_wait<R: Wait>(rt: &R, room: &Room, token: &mut Token, whom: Whom) -> bool
    requires { IsTokenOf (lot_of room.now.mutex) token.old }
    ensures { IsTokenOf (lot_of room.now.mutex) token.new }
{
    let mut guard = room.mutex.lock(rt, token);
    *guard = guard.wrapping_add(1);
    let (guard, ended) = wait_long(rt, &room.condvar, token, guard);
    guard.unlock(rt, token);
    if matches!(whom, Whom::One) {
        pass_on(rt, room, token);
    }
    ended.is_notified()
}

// The guard of a mutex under which so many have added 1.
fn guard_after<'r, R: Wait>(
    rt: &R,
    room: &'r Room,
    token: &mut Token,
    threads: usize,
) -> Option<MutexGuard<'r, usize>>
    requires { IsTokenOf (lot_of room.now.mutex) token.old }
    ensures token { IsTokenOf (lot_of room.now.mutex) token.new }
    ensures guard { IfSome result (λ guard. lock_of guard ≡ room.now.mutex) }
{
    for _ in 0..TURNS {
        let guard = room.mutex.lock(rt, token);
        if *guard == threads {
            return Some(guard);
        }
        guard.unlock(rt, token);
        yield_now();
    }
    None
}

// Notifies, and gives the mutex up: how many it told.
fn notify<R: Wait>(
    rt: &R,
    room: &Room,
    token: &mut Token,
    guard: MutexGuard<'_, usize>,
    whom: Whom,
) -> usize
    requires token { IsTokenOf (lot_of room.now.mutex) token.old }
    requires guard { lot_of (lock_of guard) ≡ lot_of room.now.mutex }
    ensures { IsTokenOf (lot_of room.now.mutex) token.new }
{
    if matches!(whom, Whom::AllUnderMutex) {
        let number = room.condvar.notify_all(rt, token);
        guard.unlock(rt, token);
        return number;
    }
    guard.unlock(rt, token);
    if matches!(whom, Whom::AllFree) {
        room.condvar.notify_all(rt, token)
    } else {
        usize::from(room.condvar.notify_one(rt, token))
    }
}

// Notifies once so many wait. Whether it told all of them, and a further notification nobody; or
// the one that it told passes that on.
pub(super) fn notify_slow<R: Wait>(
    rt: &R,
    room: &Room,
    token: &mut Token,
    threads: usize,
    whom: Whom,
) -> bool
    requires { IsTokenOf (lot_of room.now.mutex) token.old }
    ensures { IsTokenOf (lot_of room.now.mutex) token.new }
{
    let Some(guard) = guard_after(rt, room, token, threads) else {
        return false;
    };
    let told = notify(rt, room, token, guard, whom);
    if matches!(whom, Whom::One) {
        told == 1
    } else {
        told == threads && room.condvar.notify_all(rt, token) == 0
    }
}

#[test]
fn two_waiters_are_notified_under_the_mutex(rt: HostRuntime) {
    let part = Part::Notify(Whom::AllUnderMutex, 2);
    check_eq(&rt, play(&rt, rt.alloc(), 3, part), (true, 2));
}

#[test]
fn ten_waiters_are_notified_under_the_mutex(rt: HostRuntime) {
    let part = Part::Notify(Whom::AllUnderMutex, 10);
    check_eq(&rt, play(&rt, rt.alloc(), 11, part), (true, 10));
}

#[test]
fn ten_waiters_are_notified_where_nobody_has_the_mutex(rt: HostRuntime) {
    let part = Part::Notify(Whom::AllFree, 10);
    check_eq(&rt, play(&rt, rt.alloc(), 11, part), (true, 10));
}

#[test]
fn a_notification_is_passed_on(rt: HostRuntime) {
    let part = Part::Notify(Whom::One, 4);
    check_eq(&rt, play(&rt, rt.alloc(), 5, part), (true, 4));
}

// Notifies one each time the value has come to the next number.
pub(super) fn notify_in_turn<R: Wait>(rt: &R, room: &Room, token: &mut Token, turns: usize) -> bool
    requires { IsTokenOf (lot_of room.now.mutex) token.old }
    ensures { IsTokenOf (lot_of room.now.mutex) token.new }
{
    for turn in 1..=turns {
        let Some(guard) = guard_after(rt, room, token, turn) else {
            return false;
        };
        room.condvar.notify_one(rt, token);
        guard.unlock(rt, token);
    }
    true
}

// A condition is called again after each of four notifications.
#[test]
fn a_condition_is_called_after_each_wait(rt: HostRuntime) {
    check_eq(&rt, play(&rt, rt.alloc(), 2, Part::Turns(4)), (true, 5));
}
