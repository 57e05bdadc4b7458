//! One thread that waits, and one that notifies it.
ghost use Rattle.std.specs.Prelude.{◌≡◌};
ghost use Rattle.parking_lot.specs.LotOf.{IsTokenOf, lot_of};

use super::rooms::{Part, Room, look, play};
use super::{Ended, Limit, TURNS, check_eq, is_just_past, wait, wait_long};
use parking_lot::{Fault, ParkingLot, TickClock, Token};
use std::sync::Wait;
use std::sync::atomic::AtomicBool;
use std::sync::atomic::Ordering::SeqCst;
use std::thread::yield_now;

// The nanoseconds of a wait to whose end no test comes.
const LONG: u64 = 3_600_000_000_000;

// How the one waits, and how the other comes to notify it.
#[derive(Clone, Copy)]
pub(super) enum Way {
    // Under the mutex, for which it had to wait.
    UnderMutex,
    // While nobody has the mutex.
    Free,
    // Under the mutex, for which it had waited before the other gave it up.
    InLine,
    // As the first, and the other waits with a limit.
    Timed,
}

fn await_flag<R: Wait>(rt: &R, flag: &AtomicBool) {
    for _ in rt.forever() {
        if flag.load(SeqCst) {
            break;
        }
        yield_now();
    }
}

// Returns whether one came to wait for the mutex, or on the condition variable, by the key of its
// queue.
fn is_waited_for<R: Wait>(rt: &R, lot: &ParkingLot, token: &mut Token, key: usize) -> bool
    requires { IsTokenOf lot.now token.old }
    ensures { IsTokenOf lot.now token.new }
{
    for _ in 0..TURNS {
        if lot.queued(rt, token, key) == 1 {
            return true;
        }
        yield_now();
    }
    false
}

// Locks, tells so, and waits. Whether it was notified.
pub(super) fn lock_and_wait<R: Wait>(
    rt: &R,
    lot: &ParkingLot,
    room: &Room,
    token: &mut Token,
    locked: &AtomicBool,
    way: Way,
) -> bool
    requires { IsTokenOf lot.now token.old × (lot_of room.now.mutex ≡ lot.now) }
    ensures { IsTokenOf lot.now token.new }
{
    let guard = room.mutex.lock(rt, token);
    locked.store(true, SeqCst);
    let (came, limit) = match way {
        Way::InLine => (
            is_waited_for(rt, lot, token, room.mutex.raw().key()),
            Limit::None,
        ),
        Way::Timed => (true, Limit::For(LONG)),
        _ => (true, Limit::None),
    };
    let (guard, ended) = wait(rt, &room.condvar, token, guard, &TickClock::new(), limit);
    guard.unlock(rt, token);
    came && ended.is_notified()
}

// Notifies one. Whether there was one.
pub(super) fn notify<R: Wait>(
    rt: &R,
    room: &Room,
    token: &mut Token,
    locked: &AtomicBool,
    way: Way,
) -> bool
    requires { IsTokenOf (lot_of room.now.mutex) token.old }
    ensures { IsTokenOf (lot_of room.now.mutex) token.new }
{
    await_flag(rt, locked);
    let guard = room.mutex.lock(rt, token);
    if matches!(way, Way::Free) {
        guard.unlock(rt, token);
        room.condvar.notify_one(rt, token)
    } else {
        let notified = room.condvar.notify_one(rt, token);
        guard.unlock(rt, token);
        notified
    }
}

#[test]
fn a_waiter_is_notified_under_the_mutex(rt: HostRuntime) {
    check_eq(
        &rt,
        play(&rt, rt.alloc(), 2, Part::Meet(Way::UnderMutex)),
        (true, 0),
    );
}

#[test]
fn a_waiter_is_notified_where_nobody_has_the_mutex(rt: HostRuntime) {
    check_eq(
        &rt,
        play(&rt, rt.alloc(), 2, Part::Meet(Way::Free)),
        (true, 0),
    );
}

#[test]
fn a_wait_lets_in_a_waiter_of_the_mutex(rt: HostRuntime) {
    check_eq(
        &rt,
        play(&rt, rt.alloc(), 2, Part::Meet(Way::InLine)),
        (true, 0),
    );
}

#[test]
fn a_waiter_with_a_limit_is_notified_in_time(rt: HostRuntime) {
    check_eq(
        &rt,
        play(&rt, rt.alloc(), 2, Part::Meet(Way::Timed)),
        (true, 0),
    );
}

// Holds the mutex, and bumps it until it has notified one.
pub(super) fn bump_until_notified<R: Wait>(rt: &R, room: &Room, token: &mut Token) -> bool
    requires { IsTokenOf (lot_of room.now.mutex) token.old }
    ensures { IsTokenOf (lot_of room.now.mutex) token.new }
{
    let mut guard = room.mutex.lock(rt, token);
    for _ in rt.forever() {
        if room.condvar.notify_one(rt, token) {
            break;
        }
        guard = guard.bump(rt, token);
        yield_now();
    }
    guard.unlock(rt, token);
    true
}

#[test]
fn a_waiter_is_moved_to_a_mutex_that_is_held(rt: HostRuntime) {
    check_eq(&rt, play(&rt, rt.alloc(), 2, Part::Bump), (true, 0));
}

// Waits with another mutex. Whether that was refused, and the mutex is locked still.
fn is_refused<R: Wait>(rt: &R, room: &Room, token: &mut Token) -> bool
    requires { IsTokenOf (lot_of room.now.mutex) token.old }
    ensures { IsTokenOf (lot_of room.now.mutex) token.new }
{
    let guard = room.other.lock(rt, token);
    let (guard, ended) = wait_long(rt, &room.condvar, token, guard);
    let locked = room.other.is_locked(token);
    guard.unlock(rt, token);
    locked && matches!(ended, Ended::Refused(Fault::TwoMutexes))
}

// Waits with another mutex, in vain. Whether that timed out, at its deadline.
fn times_out<R: Wait>(rt: &R, room: &Room, token: &mut Token) -> bool
    requires { IsTokenOf (lot_of room.now.mutex) token.old }
    ensures { IsTokenOf (lot_of room.now.mutex) token.new }
{
    let clock = TickClock::new();
    let guard = room.other.lock(rt, token);
    let (guard, ended) = wait(rt, &room.condvar, token, guard, &clock, Limit::Until(20));
    guard.unlock(rt, token);
    ended.is_late() && is_just_past(&clock, 20)
}

// Comes with another mutex while one waits, notifies that one, and comes again. Whether it was
// refused, notified one, and timed out.
pub(super) fn come_with_another<R: Wait>(
    rt: &R,
    lot: &ParkingLot,
    room: &Room,
    token: &mut Token,
) -> bool
    requires { IsTokenOf lot.now token.old × (lot_of room.now.mutex ≡ lot.now) }
    ensures { IsTokenOf lot.now token.new }
{
    is_waited_for(rt, lot, token, room.condvar.raw().key());
    let refused = is_refused(rt, room, token);
    look(rt, room, token);
    let notified = room.condvar.notify_one(rt, token);
    let late = times_out(rt, room, token);
    refused && notified && late
}

#[test]
fn waiters_at_a_time_have_one_mutex(rt: HostRuntime) {
    check_eq(&rt, play(&rt, rt.alloc(), 2, Part::Another), (true, 0));
}
