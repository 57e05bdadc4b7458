//! One thread, which nobody notifies.
ghost use Rattle.std.specs.Prelude.{◌<◌, ◌≤◌};
ghost use Rattle.parking_lot.specs.LotOf.{IsTokenOf, lot_of};

use super::rooms::{Room, look, room_for};
use super::{Limit, TURNS, check, check_eq, is_just_past, wait};
use parking_lot::{TickClock, Token};
use std::alloc::Global;
use std::process::Abort;
use std::sync::Wait;
use std::test::Fail;
use std::time::Duration;

const FAR: u64 = 1000;

// A room that one thread has for itself, in a lot of so many seats.
fn room_among<A: Abort>(rt: &A, alloc: Global, seats: usize) -> (Room, Token)
    requires { (0 < seats) × (seats ≤ 1024) }
    ensures { IsTokenOf (lot_of result.0.mutex) result.1 }
{
    let (_lot, room, token, _others) = room_for(rt, alloc, seats);
    (room, token)
}

// Makes a room where no other thread has a seat.
fn room_alone<A: Abort>(rt: &A, alloc: Global) -> (Room, Token)
    ensures { IsTokenOf (lot_of result.0.mutex) result.1 }
{
    room_among(rt, alloc, 1)
}

#[test]
fn nobody_is_notified_where_nobody_waits(rt: HostRuntime) {
    let (room, mut token) = room_alone(&rt, rt.alloc());
    check(&rt, !room.condvar.notify_one(&rt, &mut token));
    check_eq(&rt, room.condvar.notify_all(&rt, &mut token), 0);
}

// Waits for as long as a condition was called at most so often, and counts the calls. Whether that
// was not refused.
pub(super) fn wait_turns<R: Wait>(rt: &R, room: &Room, token: &mut Token, turns: usize) -> bool
    requires { IsTokenOf (lot_of room.now.mutex) token.old }
    ensures { IsTokenOf (lot_of room.now.mutex) token.new }
{
    let guard = room.mutex.lock(rt, token);
    let ended = room
        .condvar
        .wait_while(rt, token, guard, move |calls: &mut usize| {
            *calls = calls.wrapping_add(1);
            *calls <= turns
        });
    let (guard, came) = match ended {
        Ok(guard) => (guard, true),
        Err((_, guard)) => (guard, false),
    };
    guard.unlock(rt, token);
    came
}

#[test]
fn a_condition_that_does_not_hold_is_called_once(rt: HostRuntime) {
    let (room, mut token) = room_alone(&rt, rt.alloc());
    check(&rt, wait_turns(&rt, &room, &mut token, 0));
    check_eq(&rt, look(&rt, &room, &mut token), 1);
}

// Waits within a time, or up to a deadline. Answers how often the condition was called, and whether
// the wait timed out.
fn calls_in_time<R: Wait>(
    rt: &R,
    room: &Room,
    token: &mut Token,
    turns: usize,
    clock: &TickClock,
    limit: Limit,
) -> Option<(usize, bool)>
    requires { IsTokenOf (lot_of room.now.mutex) token.old }
    ensures { IsTokenOf (lot_of room.now.mutex) token.new }
{
    let guard = room.mutex.lock(rt, token);
    let again = move |calls: &mut usize| {
        *calls = calls.wrapping_add(1);
        *calls <= turns
    };
    let ended = match limit {
        Limit::Until(deadline) => room
            .condvar
            .wait_while_until(rt, token, guard, again, clock, deadline),
        Limit::For(nanos) => {
            let time = Duration::from_nanos(nanos);
            room.condvar
                .wait_while_for(rt, token, guard, again, clock, time)
        }
        Limit::None => {
            guard.unlock(rt, token);
            return None;
        }
    };
    let (guard, late) = match ended {
        Ok((guard, ended)) => (guard, Some(ended.timed_out())),
        Err((_, guard)) => (guard, None),
    };
    let calls = *guard;
    guard.unlock(rt, token);
    late.map(|late| (calls, late))
}

// Waits in vain in a lot of so many seats: up to a deadline that has passed, and up to one to come.
fn waits_past_its_time<R: Wait + Abort>(rt: &R, alloc: Global, seats: usize)
    requires { (0 < seats) × (seats ≤ 1024) }
{
    let (room, mut token) = room_among(rt, alloc, seats);
    let clock = TickClock::new();
    let told = calls_in_time(rt, &room, &mut token, 1, &clock, Limit::Until(0));
    check_eq(rt, told, Some((2, false)));
    let told = calls_in_time(rt, &room, &mut token, 9, &clock, Limit::Until(40));
    check_eq(rt, told, Some((4, true)));
    check(rt, is_just_past(&clock, 40));
}

// By queues of one bucket, of eight, and of 64.
#[test]
fn a_condition_is_called_again_where_the_time_is_up(rt: HostRuntime) {
    waits_past_its_time(&rt, rt.alloc(), 1);
    waits_past_its_time(&rt, rt.alloc(), 8);
    waits_past_its_time(&rt, rt.alloc(), 64);
}

// By a time that passes, of a clock that is far from 0.
#[test]
fn a_condition_that_holds_times_out(rt: HostRuntime) {
    let (room, mut token) = room_alone(&rt, rt.alloc());
    let clock = TickClock::starting_at(FAR);
    let told = calls_in_time(&rt, &room, &mut token, TURNS, &clock, Limit::For(30));
    check_eq(&rt, told, Some((2, true)));
    check(&rt, is_just_past(&clock, FAR + 30));
}

// Waits for so long, in vain. Whether it timed out, and the mutex is free after it.
fn gives_up<R: Wait>(rt: &R, room: &Room, token: &mut Token, clock: &TickClock) -> bool
    requires { IsTokenOf (lot_of room.now.mutex) token.old }
    ensures { IsTokenOf (lot_of room.now.mutex) token.new }
{
    let guard = room.mutex.lock(rt, token);
    let (guard, ended) = wait(rt, &room.condvar, token, guard, clock, Limit::For(20));
    guard.unlock(rt, token);
    ended.is_late() && !room.mutex.is_locked(token)
}

#[test]
fn a_waiter_gives_up_in_time(rt: HostRuntime) {
    let (room, mut token) = room_alone(&rt, rt.alloc());
    let clock = TickClock::starting_at(FAR);
    check(&rt, gives_up(&rt, &room, &mut token, &clock));
    check(&rt, is_just_past(&clock, FAR + 20));
    check(&rt, !room.condvar.notify_one(&rt, &mut token));
}

#[test]
fn tells_that_it_is_a_condition_variable(rt: HostRuntime) -> Result<(), Fail> {
    let (room, _token) = room_alone(&rt, rt.alloc());
    check_eq(
        &rt,
        format!(in rt.alloc(); "{:?}", room.condvar)?.as_str(),
        "Condvar { .. }",
    );
    Ok(())
}
