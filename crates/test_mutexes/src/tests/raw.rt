//! Threads that meet at one raw mutex.
mod moved;
mod timed;

ghost use Rattle.std.specs.Prelude.{◌≡◌, ◌≤◌, All};
ghost use Rattle.std.specs.Arc.{arc_value};
ghost use Rattle.parking_lot_core.specs.Tokens.{IsTicketOf, IsTokenOf};
ghost use Rattle.parking_lot.specs.LotOf.{lot_of};

use super::fair::{is_waited_for, wait_until};
use super::{check, check_eq, next_of};
use moved::{hold_and_move, wait_moved};
use parking_lot::lock_api::RawMutex as RawLock;
use parking_lot::{ParkingLot, RawMutex, Ticket, Token};
use std::alloc::Global;
use std::process::Abort;
use std::sync::atomic::Ordering::SeqCst;
use std::sync::atomic::{AtomicBool, AtomicU64, AtomicUsize};
use std::sync::{Arc, Wait};
use std::thread::{Threads, map_vec, yield_now};
use timed::{give_back, race, wait_for_held};

// Nobody waits for the mutex, which is locked or free.
fn stands<R: Wait + Abort>(
    rt: &R,
    lot: &ParkingLot,
    mutex: &RawMutex,
    token: &mut Token,
    locked: bool,
)
    requires { IsTokenOf lot.now token.old × (lot_of mutex.now ≡ lot.now) }
    ensures { IsTokenOf lot.now token.new }
{
    check_eq(rt, mutex.is_locked(token), locked);
    check_eq(rt, lot.queued(rt, token, mutex.key()), 0);
}

// A mutex of a lot of so many threads and one more, with the token of this one and the tickets of
// the others. It gives up where memory is refused, so that no test has anything to drop in its
// midst.
fn seats<A: Abort>(
    rt: &A,
    alloc: Global,
    others: usize,
) -> (Arc<ParkingLot>, RawMutex, Token, Vec<Ticket>)
    requires { others ≤ 100 }
    ensures { (lot_of result.1 ≡ arc_value result.0) × IsTokenOf (arc_value result.0) result.2
        × All (IsTicketOf (arc_value result.0)) result.3.items }
{
    let Ok((lot, mut tickets)) = ParkingLot::new(alloc, 1, others + 1) else {
        panic!(rt; "no lot");
    };
    let Some(ticket) = next_of(&lot, &mut tickets) else {
        panic!(rt; "no seat");
    };
    let mut token = ticket.enter();
    match RawMutex::new(&lot, &mut token) {
        Ok(mutex) => (lot, mutex, token, tickets),
        Err(_) => panic!(rt; "no mutex"),
    }
}

/// The parts of two threads, by the order in which they come.
#[derive(Clone, Copy)]
enum Part<'a> {
    /// Both try once, and hold what they got until both have tried.
    Try,
    /// The first holds the mutex until the other waits for it.
    Meet,
    /// The other thread waits up to a deadline that doesn't come, or for the longest time.
    MeetTimed(Option<u64>),
    /// The first thread moves the other to a queue in which it doesn't wait.
    Move,
    /// Both take the mutex often, and count here how often they got it, and under the mutex.
    Race(&'a AtomicU64, &'a AtomicU64),
}

/// The flags and counts that the threads share.
#[derive(Drop)]
struct Told {
    came: AtomicUsize,
    tried: AtomicUsize,
    held: AtomicBool,
    up: AtomicBool,
    gone: AtomicBool,
    content: AtomicUsize,
}

impl Told {
    fn new() -> Told {
        Told {
            came: AtomicUsize::new(0),
            tried: AtomicUsize::new(0),
            held: AtomicBool::new(false),
            up: AtomicBool::new(false),
            gone: AtomicBool::new(false),
            content: AtomicUsize::new(0),
        }
    }
}

// Does one thread's part. Whether the thread is content with it.
fn take_part<R: Wait>(
    rt: &R,
    lot: &ParkingLot,
    mutex: &RawMutex,
    token: &mut Token,
    told: &Told,
    part: Part<'_>,
) -> bool
    requires { IsTokenOf lot.now token.old × (lot_of mutex.now ≡ lot.now) }
    ensures { IsTokenOf lot.now token.new }
{
    let is_first = told.came.fetch_add(1, SeqCst) == 0;
    match part {
        Part::Try => try_once(rt, mutex, token, &told.tried),
        Part::Race(got, hits) => race(rt, mutex, token, got, hits),
        Part::Move if is_first => hold_and_move(rt, lot, mutex, token, told),
        Part::Move => wait_moved(rt, mutex, token, told),
        _ if is_first => hold(rt, lot, mutex, token, &told.held),
        Part::MeetTimed(deadline) => wait_for_held(rt, mutex, token, &told.held, deadline),
        Part::Meet => lock_held(rt, mutex, token, &told.held),
    }
}

// How many of two threads were content with their parts. The mutex is free after them, and nobody
// waits for it.
fn play<R: Threads + Wait + Abort + Sync>(rt: &R, alloc: Global, part: Part<'_>) -> usize {
    let (lot, mutex, mut token, tickets) = seats(rt, alloc, 2);
    let told = Told::new();
    let (lot, mutex, told) = (&*lot, &mutex, &told);
    let ended = map_vec(
        rt,
        tickets,
        &|ticket: Ticket|
            requires { IsTicketOf lot.now ticket × (lot_of mutex.now ≡ lot.now) }
        {
            let mut token = ticket.enter();
            if take_part(rt, lot, mutex, &mut token, told, part) {
                told.content.fetch_add(1, SeqCst);
            }
            drop(token.leave());
        },
    );
    check(rt, ended.is_ok());
    stands(rt, lot, mutex, &mut token, false);
    check(rt, try_alone(rt, mutex, &mut token));
    told.content.load(SeqCst)
}

// Tries once, and holds what it got until both have tried.
fn try_once<R: Wait>(rt: &R, mutex: &RawMutex, token: &mut Token, tried: &AtomicUsize) -> bool
    requires { IsTokenOf (lot_of mutex.now) token.old }
    ensures { IsTokenOf (lot_of mutex.now) token.new }
{
    let guard = mutex.try_lock(token);
    tried.fetch_add(1, SeqCst);
    for _ in rt.forever() {
        if tried.load(SeqCst) == 2 {
            break;
        }
        yield_now();
    }
    give_back(rt, mutex, token, guard)
}

// Returns whether a try gets the mutex, which is locked then and free afterwards.
fn try_alone<R: Wait>(rt: &R, mutex: &RawMutex, token: &mut Token) -> bool
    requires { IsTokenOf (lot_of mutex.now) token.old }
    ensures { IsTokenOf (lot_of mutex.now) token.new }
{
    let guard = mutex.try_lock(token);
    let locked = mutex.is_locked(token);
    give_back(rt, mutex, token, guard) && locked && !mutex.is_locked(token)
}

#[test]
fn one_of_two_tries_gets_a_free_mutex(rt: HostRuntime) {
    check_eq(&rt, play(&rt, rt.alloc(), Part::Try), 1);
}

// Holds the mutex until somebody waits for it. Whether that was seen.
fn hold<R: Wait>(
    rt: &R,
    lot: &ParkingLot,
    mutex: &RawMutex,
    token: &mut Token,
    held: &AtomicBool,
) -> bool
    requires { IsTokenOf lot.now token.old × (lot_of mutex.now ≡ lot.now) }
    ensures { IsTokenOf lot.now token.new }
{
    let guard = mutex.lock(rt, token);
    held.store(true, SeqCst);
    let seen = is_waited_for(rt, lot, mutex.key(), token);
    mutex.unlock(rt, token, guard);
    seen
}

fn lock_held<R: Wait>(rt: &R, mutex: &RawMutex, token: &mut Token, held: &AtomicBool) -> bool
    requires { IsTokenOf (lot_of mutex.now) token.old }
    ensures { IsTokenOf (lot_of mutex.now) token.new }
{
    wait_until(rt, held);
    let guard = mutex.lock(rt, token);
    let locked = mutex.is_locked(token);
    mutex.unlock(rt, token, guard);
    locked
}

#[test]
fn a_release_wakes_a_waiter(rt: HostRuntime) {
    check_eq(&rt, play(&rt, rt.alloc(), Part::Meet), 2);
}
