//! Calls of one semaphore, by one thread and by many.
mod crowds;

ghost use Rattle.std.specs.Prelude.{◌≡◌, ◌≤◌, ◌^◌, IfSome};
ghost use Rattle.std.specs.Arc.{arc_value};
ghost use Rattle.run_once_and_semaphores.specs.SemaphoreUsers.{IsTokenOf, lot_of, semaphore_of};

use super::{check_eq, seats};
use parking_lot_core::{Fault, ParkingLot, TickClock, Token};
use run_once_and_semaphores::{Permit, Semaphore};
use std::alloc::Global;
use std::process::Abort;
use std::sync::{Arc, Wait};
use std::time::Duration;

const MOST_PERMITS: u64 = 4611686018427387904;

// A semaphore of a lot.
fn semaphore_of<A: Abort>(
    rt: &A,
    lot: &Arc<ParkingLot>,
    token: &mut Token,
    permits: u64,
) -> Semaphore
    requires token { IsTokenOf (arc_value lot.now) token.old }
    requires few { (1 ≤ permits) × (permits ≤ 2 ^ 62) }
    ensures token { IsTokenOf (arc_value lot.now) token.new }
    ensures semaphore { lot_of result ≡ arc_value lot.now }
{
    match Semaphore::new(lot, token, permits) {
        Ok(semaphore) => semaphore,
        Err(_) => panic!(rt; "no semaphore"),
    }
}

// A semaphore that one thread has for itself, and its lot.
fn alone<A: Abort>(rt: &A, alloc: Global, permits: u64) -> (Arc<ParkingLot>, Semaphore, Token)
    requires { (1 ≤ permits) × (permits ≤ 2 ^ 62) }
    ensures { IsTokenOf (lot_of result.1) result.2 × (lot_of result.1 ≡ arc_value result.0) }
{
    let (lot, mut token, _others) = seats(rt, alloc, 1);
    let semaphore = semaphore_of(rt, &lot, &mut token, permits);
    (lot, semaphore, token)
}

// Checks that this many permits are free, by one look.
fn has_free(rt: &impl Abort, semaphore: &Semaphore, token: &mut Token, wanted: u64)
    requires { IsTokenOf (lot_of semaphore.now) token.old }
    ensures { IsTokenOf (lot_of semaphore.now) token.new }
{
    check_eq(rt, semaphore.available(token), wanted);
}

// Returns whether a try gets a permit. It is given back.
fn tries<R: Wait>(rt: &R, semaphore: &Semaphore, token: &mut Token) -> bool
    requires { IsTokenOf (lot_of semaphore.now) token.old }
    ensures { IsTokenOf (lot_of semaphore.now) token.new }
{
    match semaphore.try_acquire(rt, token) {
        Some(permit) => {
            permit.release(rt, token);
            true
        }
        None => false,
    }
}

// The limit of a wait.
#[derive(Clone, Copy)]
enum Limit {
    /// Is over after so many nanoseconds.
    For(u64),
    /// Is over at a time of the clock.
    Until(u64),
}

// The permit of a wait up to a limit.
fn permit_within<'a, R: Wait>(
    rt: &R,
    semaphore: &'a Semaphore,
    token: &mut Token,
    clock: &TickClock,
    limit: Limit,
) -> Option<Permit<'a>>
    requires { IsTokenOf (lot_of semaphore.now) token.old }
    ensures token { IsTokenOf (lot_of semaphore.now) token.new }
    ensures permit { IfSome result (λ permit. semaphore_of permit ≡ semaphore.now) }
{
    match limit {
        Limit::For(nanos) => {
            semaphore.try_acquire_for(rt, token, clock, Duration::from_nanos(nanos))
        }
        Limit::Until(time) => semaphore.try_acquire_until(rt, token, clock, time),
    }
}

// Returns whether such a wait gets a permit. It is given back.
fn waits<R: Wait>(
    rt: &R,
    semaphore: &Semaphore,
    token: &mut Token,
    clock: &TickClock,
    limit: Limit,
) -> bool
    requires { IsTokenOf (lot_of semaphore.now) token.old }
    ensures { IsTokenOf (lot_of semaphore.now) token.new }
{
    match permit_within(rt, semaphore, token, clock, limit) {
        Some(permit) => {
            permit.release(rt, token);
            true
        }
        None => false,
    }
}

// The first is over in time, and the others are past.
const LIMITS: &[Limit] = &[Limit::For(30), Limit::For(0), Limit::Until(0)];

// Each such wait gets a permit, or each is in vain.
fn all_wait<R: Wait + Abort>(rt: &R, semaphore: &Semaphore, token: &mut Token, wanted: bool)
    requires { IsTokenOf (lot_of semaphore.now) token.old }
    ensures { IsTokenOf (lot_of semaphore.now) token.new }
{
    let clock = TickClock::new();
    for limit in LIMITS {
        check_eq(rt, waits(rt, semaphore, token, &clock, *limit), wanted);
    }
}

// How many permits are free while the thread has one more, and whether a try gets one.
fn beside_one_more<R: Wait>(rt: &R, semaphore: &Semaphore, token: &mut Token) -> (u64, bool)
    requires { IsTokenOf (lot_of semaphore.now) token.old }
    ensures { IsTokenOf (lot_of semaphore.now) token.new }
{
    let permit = semaphore.acquire(rt, token);
    let seen = (semaphore.available(token), tries(rt, semaphore, token));
    permit.release(rt, token);
    seen
}

#[test]
fn as_many_have_a_permit_as_there_are(rt: HostRuntime) {
    let (_lot, semaphore, mut token) = alone(&rt, rt.alloc(), 2);
    check_eq(&rt, semaphore.permits(), 2);
    has_free(&rt, &semaphore, &mut token, 2);
    let permit = semaphore.acquire(&rt, &mut token);
    let full = beside_one_more(&rt, &semaphore, &mut token);
    let given = tries(&rt, &semaphore, &mut token);
    has_free(&rt, &semaphore, &mut token, 1);
    permit.release(&rt, &mut token);
    check_eq(&rt, (full, given), ((0, false), true));
    has_free(&rt, &semaphore, &mut token, 2);
}

#[test]
fn a_wait_that_gives_up_leaves_nothing_after(rt: HostRuntime) {
    let (lot, semaphore, mut token) = alone(&rt, rt.alloc(), 1);
    let permit = semaphore.acquire(&rt, &mut token);
    all_wait(&rt, &semaphore, &mut token, false);
    let queued = lot.queued(&rt, &mut token, semaphore.key());
    permit.release(&rt, &mut token);
    check_eq(&rt, queued, 0);
    // Past the deadline too a permit that is free is given.
    all_wait(&rt, &semaphore, &mut token, true);
    has_free(&rt, &semaphore, &mut token, 1);
}

#[test]
fn a_semaphore_may_have_very_many_permits(rt: HostRuntime) {
    let (lot, semaphore, mut token) = alone(&rt, rt.alloc(), MOST_PERMITS);
    let permit = semaphore.acquire(&rt, &mut token);
    let left = semaphore.available(&mut token);
    permit.release(&rt, &mut token);
    check_eq(&rt, left, MOST_PERMITS - 1);
    has_free(&rt, &semaphore, &mut token, MOST_PERMITS);
    // The lot has a second word and no third.
    let _second = semaphore_of(&rt, &lot, &mut token, 1);
    check_eq(
        &rt,
        matches!(Semaphore::new(&lot, &mut token, 1), Err(Fault::LotFull)),
        true,
    );
}
