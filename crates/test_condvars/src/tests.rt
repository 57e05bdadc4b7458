//! Condition variables of one thread, of two and of many.
mod alone;
mod many;
mod queues;
mod races;
mod rooms;
mod two;

ghost use Rattle.std.specs.Prelude.{◌≡◌, ◌<◌, ◌≤◌, All, IfSome};
ghost use Rattle.std.specs.Arc.{arc_value};
ghost use Rattle.parking_lot.specs.LotOf.{IsTicketOf, IsTokenOf, lock_of, lot_of, lot_of_condvar};

use parking_lot::{Clock, Condvar, Fault, Mutex, MutexGuard, ParkingLot, TickClock, Ticket, Token};
use std::alloc::Global;
use std::fmt::Debug;
use std::process::Abort;
use std::sync::{Arc, Wait};
use std::time::Duration;

// Asserts that the thing found is the thing wanted. All tests share this one assertion, since each
// is proved where it stands.
fn check_eq<T: PartialEq + Debug + Drop>(rt: &impl Abort, found: T, wanted: T) {
    assert_eq!(rt; found, wanted);
}

// Asserts that a condition holds.
fn check(rt: &impl Abort, truth: bool) {
    assert!(rt; truth);
}

// Returns whether the clock came to a time, and has not been looked at often since.
fn is_just_past(clock: &TickClock, time: u64) -> bool
    requires { time ≤ 10000 }
{
    let now = clock.now();
    time < now && now < time + 10
}

const TURNS: usize = 1_000_000;

fn next_of(lot: &ParkingLot, tickets: &mut Vec<Ticket>) -> Option<Ticket>
    requires { All (IsTicketOf lot.now) tickets.old.items }
    ensures left { All (IsTicketOf lot.now) tickets.new.items }
    ensures one { IfSome result (IsTicketOf lot.now) }
{
    tickets.pop()
}

// Makes a lot of three words and so many threads, with the token of the first thread, and the
// tickets of the others. A maker of lots, and of locks in them, gives up where memory is refused,
// so that no test has anything to drop in its midst.
fn seats<A: Abort>(rt: &A, alloc: Global, threads: usize) -> (Arc<ParkingLot>, Token, Vec<Ticket>)
    requires { (0 < threads) × (threads ≤ 1024) }
    ensures { IsTokenOf (arc_value result.0) result.1
        × All (IsTicketOf (arc_value result.0)) result.2.items }
{
    let Ok((lot, mut tickets)) = ParkingLot::new(alloc, 3, threads) else {
        panic!(rt; "no lot");
    };
    match next_of(&lot, &mut tickets) {
        Some(first) => (lot, first.enter(), tickets),
        None => panic!(rt; "no seat"),
    }
}

fn mutex_of<T: Drop, A: Abort>(
    rt: &A,
    lot: &Arc<ParkingLot>,
    token: &mut Token,
    value: T,
) -> Mutex<T>
    requires { IsTokenOf (arc_value lot.now) token.old }
    ensures token { IsTokenOf (arc_value lot.now) token.new }
    ensures mutex { lot_of result ≡ arc_value lot.now }
{
    match Mutex::new(lot, token, value) {
        Ok(mutex) => mutex,
        Err(_) => panic!(rt; "no mutex"),
    }
}

fn condvar_of<A: Abort>(rt: &A, lot: &Arc<ParkingLot>, token: &mut Token) -> Condvar
    requires { IsTokenOf (arc_value lot.now) token.old }
    ensures token { IsTokenOf (arc_value lot.now) token.new }
    ensures condvar { lot_of_condvar result ≡ arc_value lot.now }
{
    match Condvar::new(lot, token) {
        Ok(condvar) => condvar,
        Err(_) => panic!(rt; "no condition variable"),
    }
}

// How long a thread waits: for so many nanoseconds, or up to a deadline.
#[derive(Clone, Copy)]
enum Limit {
    None,
    For(u64),
    Until(u64),
}

// How a wait ended.
#[derive(Clone, Copy)]
enum Ended {
    Notified,
    Late,
    Refused(Fault),
}

impl Ended {
    fn by_time(late: bool) -> Ended {
        if late { Ended::Late } else { Ended::Notified }
    }

    fn is_notified(self) -> bool {
        matches!(self, Ended::Notified)
    }

    fn is_late(self) -> bool {
        matches!(self, Ended::Late)
    }
}

// Waits without a limit.
fn wait_long<'m, T, R: Wait>(
    rt: &R,
    condvar: &Condvar,
    token: &mut Token,
    guard: MutexGuard<'m, T>,
) -> (MutexGuard<'m, T>, Ended)
    requires token { IsTokenOf (lot_of (lock_of guard)) token.old }
    requires condvar { lot_of_condvar condvar.now ≡ lot_of (lock_of guard) }
    ensures token { IsTokenOf (lot_of (lock_of guard.entry)) token.new }
    ensures guard { lock_of result.0 ≡ lock_of guard.entry }
{
    match condvar.wait(rt, token, guard) {
        Ok(guard) => (guard, Ended::Notified),
        Err((fault, guard)) => (guard, Ended::Refused(fault)),
    }
}

// Waits once.
fn wait<'m, T, R: Wait>(
    rt: &R,
    condvar: &Condvar,
    token: &mut Token,
    guard: MutexGuard<'m, T>,
    clock: &TickClock,
    limit: Limit,
) -> (MutexGuard<'m, T>, Ended)
    requires token { IsTokenOf (lot_of (lock_of guard)) token.old }
    requires condvar { lot_of_condvar condvar.now ≡ lot_of (lock_of guard) }
    ensures token { IsTokenOf (lot_of (lock_of guard.entry)) token.new }
    ensures guard { lock_of result.0 ≡ lock_of guard.entry }
{
    let ended = match limit {
        Limit::None => return wait_long(rt, condvar, token, guard),
        Limit::For(nanos) => {
            condvar.wait_for(rt, token, guard, clock, Duration::from_nanos(nanos))
        }
        Limit::Until(deadline) => condvar.wait_until(rt, token, guard, clock, deadline),
    };
    match ended {
        Ok((guard, ended)) => (guard, Ended::by_time(ended.timed_out())),
        Err((fault, guard)) => (guard, Ended::Refused(fault)),
    }
}
