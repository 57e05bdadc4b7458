//! Threads that meet at one semaphore.
ghost use Rattle.std.specs.Prelude.{◌≡◌, ◌≤◌};
ghost use Rattle.run_once_and_semaphores.specs.SemaphoreUsers.{IsTicketOf, IsTokenOf, lot_of};

use super::super::meets::come_to_wait;
use super::super::{check_eq, seats};
use super::semaphore_of;
use parking_lot_core::{ParkingLot, TickClock, Ticket, Token};
use run_once_and_semaphores::Semaphore;
use std::alloc::Global;
use std::process::Abort;
use std::sync::Wait;
use std::sync::atomic::Ordering::SeqCst;
use std::sync::atomic::{AtomicBool, AtomicU64, AtomicUsize};
use std::thread::{Threads, map_vec, yield_now};
use std::time::Duration;

const TIMES: u64 = 1000;

const TURNS: usize = 1_000_000;

/// The part of each thread of a crowd.
#[derive(Clone, Copy)]
enum Part {
    /// Counts up beside as many as there are permits.
    Count,
    /// Counts by waits that may give up.
    CountInTime,
    /// Holds a permit until the other holds one too.
    Meet,
    /// The first holds the permit until the other waits for it.
    Wake,
}

/// The flags and counts that the threads share.
#[derive(Drop)]
struct Told {
    came: AtomicUsize,
    /// How many hold a permit, and how many did at most.
    inside: AtomicU64,
    most: AtomicU64,
    /// Added to by a load and a store, so that two that add at once lose a number.
    count: AtomicU64,
    flags: (AtomicBool, AtomicBool),
}

// Adds 1 while it holds a permit.
fn add_inside(told: &Told) {
    let inside = told.inside.fetch_add(1, SeqCst).wrapping_add(1);
    told.most.fetch_max(inside, SeqCst);
    told.count
        .store(told.count.load(SeqCst).wrapping_add(1), SeqCst);
    told.inside.fetch_sub(1, SeqCst);
}

fn count_up<R: Wait>(rt: &R, semaphore: &Semaphore, token: &mut Token, told: &Told)
    requires { IsTokenOf (lot_of semaphore.now) token.old }
    ensures { IsTokenOf (lot_of semaphore.now) token.new }
{
    for _ in 0..TIMES {
        let permit = semaphore.acquire(rt, token);
        add_inside(told);
        permit.release(rt, token);
    }
}

// Adds 1, where it gets a permit in a short time.
fn add_in_time<R: Wait>(
    rt: &R,
    semaphore: &Semaphore,
    token: &mut Token,
    clock: &TickClock,
    told: &Told,
) -> bool
    requires { IsTokenOf (lot_of semaphore.now) token.old }
    ensures { IsTokenOf (lot_of semaphore.now) token.new }
{
    match semaphore.try_acquire_for(rt, token, clock, Duration::from_nanos(3)) {
        Some(permit) => {
            add_inside(told);
            permit.release(rt, token);
            true
        }
        None => false,
    }
}

// Adds as often, however many waits give up.
fn count_in_time<R: Wait>(rt: &R, semaphore: &Semaphore, token: &mut Token, told: &Told)
    requires { IsTokenOf (lot_of semaphore.now) token.old }
    ensures { IsTokenOf (lot_of semaphore.now) token.new }
{
    let clock = TickClock::new();
    let mut added = 0;
    for _ in rt.forever() {
        if added >= TIMES {
            break;
        }
        if add_in_time(rt, semaphore, token, &clock, told) {
            added += 1;
        }
    }
}

// Returns whether a flag was seen.
fn sees(flag: &AtomicBool) -> bool {
    for _ in 0..TURNS {
        if flag.load(SeqCst) {
            return true;
        }
        yield_now();
    }
    false
}

// Holds a permit, and looks for the flag of a thread that holds the other. Whether it was seen.
fn meet<R: Wait>(
    rt: &R,
    semaphore: &Semaphore,
    token: &mut Token,
    own: &AtomicBool,
    other: &AtomicBool,
) -> bool
    requires { IsTokenOf (lot_of semaphore.now) token.old }
    ensures { IsTokenOf (lot_of semaphore.now) token.new }
{
    let permit = semaphore.acquire(rt, token);
    own.store(true, SeqCst);
    let seen = sees(other);
    permit.release(rt, token);
    seen
}

// Holds the permit until another waits for it. Whether that was seen.
fn hold<R: Wait>(
    rt: &R,
    lot: &ParkingLot,
    semaphore: &Semaphore,
    token: &mut Token,
    held: &AtomicBool,
) -> bool
    requires { IsTokenOf lot.now token.old × (lot_of semaphore.now ≡ lot.now) }
    ensures { IsTokenOf lot.now token.new }
{
    let permit = semaphore.acquire(rt, token);
    held.store(true, SeqCst);
    let seen = come_to_wait(rt, lot, token, semaphore.key(), 1);
    permit.release(rt, token);
    seen
}

// Waits for the permit that another holds.
fn wait_beside<R: Wait>(rt: &R, semaphore: &Semaphore, token: &mut Token, held: &AtomicBool) -> bool
    requires { IsTokenOf (lot_of semaphore.now) token.old }
    ensures { IsTokenOf (lot_of semaphore.now) token.new }
{
    let seen = sees(held);
    semaphore.acquire(rt, token).release(rt, token);
    seen
}

// Does one thread's part. Whether the thread is content with it.
fn take_part<R: Wait>(
    rt: &R,
    lot: &ParkingLot,
    semaphore: &Semaphore,
    token: &mut Token,
    told: &Told,
    part: Part,
) -> bool
    requires { IsTokenOf lot.now token.old × (lot_of semaphore.now ≡ lot.now) }
    ensures { IsTokenOf lot.now token.new }
{
    let is_first = told.came.fetch_add(1, SeqCst) == 0;
    let (one, other) = (&told.flags.0, &told.flags.1);
    match part {
        Part::Count => count_up(rt, semaphore, token, told),
        Part::CountInTime => count_in_time(rt, semaphore, token, told),
        Part::Meet if is_first => return meet(rt, semaphore, token, one, other),
        Part::Meet => return meet(rt, semaphore, token, other, one),
        Part::Wake if is_first => return hold(rt, lot, semaphore, token, one),
        Part::Wake => return wait_beside(rt, semaphore, token, one),
    }
    true
}

// Returns whether so many threads were content with their parts at a semaphore of so many permits,
// how many held one at once at most, and what they counted. All permits are free then.
fn play<R: Threads + Wait + Abort + Sync>(
    rt: &R,
    alloc: Global,
    threads: usize,
    permits: u64,
    part: Part,
) -> (bool, u64, u64)
    requires { (threads ≤ 100) × (1 ≤ permits) × (permits ≤ 100) }
{
    let (lot, mut token, tickets) = seats(rt, alloc, threads + 1);
    let semaphore = semaphore_of(rt, &lot, &mut token, permits);
    let told = Told {
        came: AtomicUsize::new(0),
        inside: AtomicU64::new(0),
        most: AtomicU64::new(0),
        count: AtomicU64::new(0),
        flags: (AtomicBool::new(false), AtomicBool::new(false)),
    };
    let (shared_lot, shared, with) = (&*lot, &semaphore, &told);
    let found = map_vec(
        rt,
        tickets,
        &|ticket: Ticket|
            requires { IsTicketOf shared_lot.now ticket × (lot_of shared.now ≡ shared_lot.now) }
        {
            let mut token = ticket.enter();
            let content = take_part(rt, shared_lot, shared, &mut token, with, part);
            drop(token.leave());
            content
        },
    );
    let content = found.is_ok_and(|found| found.iter().all(|content| *content));
    let all_free = semaphore.available(&mut token) == permits;
    (
        content && all_free,
        told.most.load(SeqCst),
        told.count.load(SeqCst),
    )
}

#[test]
fn six_threads_count_under_one_permit(rt: HostRuntime) {
    let found = play(&rt, rt.alloc(), 6, 1, Part::Count);
    check_eq(&rt, found, (true, 1, 6 * TIMES));
}

#[test]
fn no_more_hold_a_permit_than_there_are(rt: HostRuntime) {
    let (content, most, _) = play(&rt, rt.alloc(), 6, 3, Part::Count);
    check_eq(&rt, (content, most <= 3), (true, true));
}

#[test]
fn waits_that_give_up_lose_no_permit(rt: HostRuntime) {
    let found = play(&rt, rt.alloc(), 4, 1, Part::CountInTime);
    check_eq(&rt, found, (true, 1, 4 * TIMES));
}

#[test]
fn two_hold_a_permit_at_once(rt: HostRuntime) {
    let (content, _, _) = play(&rt, rt.alloc(), 2, 2, Part::Meet);
    check_eq(&rt, content, true);
}

#[test]
fn a_release_wakes_a_waiter(rt: HostRuntime) {
    let (content, _, _) = play(&rt, rt.alloc(), 2, 1, Part::Wake);
    check_eq(&rt, content, true);
}
