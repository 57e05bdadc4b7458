//! A notification beside the unlock of the mutex, with nobody who comes after the two.
ghost use Rattle.std.specs.Prelude.{◌≡◌, All};
ghost use Rattle.parking_lot.specs.LotOf.{IsTicketOf, IsTokenOf, lot_of, lot_of_condvar};

use super::{check, condvar_of, mutex_of, seats, wait_long};
use parking_lot::{Condvar, Mutex, Ticket, Token};
use parking_lot_core::pauses::pause;
use std::alloc::Global;
use std::process::Abort;
use std::sync::Wait;
use std::sync::atomic::AtomicUsize;
use std::sync::atomic::Ordering::SeqCst;
use std::thread::{Threads, map_vec, yield_now};

const ROUNDS: usize = 1000;

// How often a thread looks at a round before it yields.
const LOOKS: usize = 2000;

// A mutex, and a waiter for it. Each number is of the last round in which something has happened.
#[derive(Drop)]
struct Meeting {
    mutex: Mutex<u32>,
    condvar: Condvar,
    // A thread waits, or is about to.
    waits: AtomicUsize,
    // Another one has the mutex, and unlocks it.
    locked: AtomicUsize,
    // The first has been woken.
    woken: AtomicUsize,
    ghost together: { lot_of_condvar condvar ≡ lot_of mutex },
}

fn new_meeting<A: Abort>(rt: &A, alloc: Global) -> (Meeting, Vec<Ticket>)
    ensures { All (IsTicketOf (lot_of result.0.mutex)) result.1.items }
{
    let (lot, mut token, others) = seats(rt, alloc, 4);
    let mutex = mutex_of(rt, &lot, &mut token, 0u32);
    let condvar = condvar_of(rt, &lot, &mut token);
    let meeting = Meeting {
        mutex,
        condvar,
        waits: AtomicUsize::new(0),
        locked: AtomicUsize::new(0),
        woken: AtomicUsize::new(0),
    };
    (meeting, others)
}

// Waits until something has happened in a round. It spins, so that two threads go on at once.
fn await_round<R: Wait>(rt: &R, last: &AtomicUsize, round: usize) {
    let mut looks = 0usize;
    for _ in rt.forever() {
        if last.load(SeqCst) >= round {
            break;
        }
        looks = looks.wrapping_add(1);
        if looks % LOOKS == 0 {
            yield_now();
        }
    }
}

fn wait_each<R: Wait>(rt: &R, meeting: &Meeting, token: &mut Token)
    requires { IsTokenOf (lot_of meeting.now.mutex) token.old }
    ensures { IsTokenOf (lot_of meeting.now.mutex) token.new }
{
    for round in 1..=ROUNDS {
        let guard = meeting.mutex.lock(rt, token);
        meeting.waits.store(round, SeqCst);
        let (guard, _) = wait_long(rt, &meeting.condvar, token, guard);
        guard.unlock(rt, token);
        meeting.woken.store(round, SeqCst);
    }
}

// Has the mutex for a while, which is another one in each round.
fn unlock_each<R: Wait>(rt: &R, meeting: &Meeting, token: &mut Token)
    requires { IsTokenOf (lot_of meeting.now.mutex) token.old }
    ensures { IsTokenOf (lot_of meeting.now.mutex) token.new }
{
    for round in 1..=ROUNDS {
        await_round(rt, &meeting.waits, round);
        let guard = meeting.mutex.lock(rt, token);
        meeting.locked.store(round, SeqCst);
        pause((round % 64) as u32);
        guard.unlock(rt, token);
        await_round(rt, &meeting.woken, round);
    }
}

fn notify_each<R: Wait>(rt: &R, meeting: &Meeting, token: &mut Token)
    requires { IsTokenOf (lot_of meeting.now.mutex) token.old }
    ensures { IsTokenOf (lot_of meeting.now.mutex) token.new }
{
    for round in 1..=ROUNDS {
        await_round(rt, &meeting.locked, round);
        meeting.condvar.notify_one(rt, token);
    }
}

// Returns in how many rounds the waiter was woken. Each of three threads has a part of its own.
fn meet<R: Threads + Wait + Sync>(rt: &R, meeting: &Meeting, tickets: Vec<Ticket>) -> usize
    requires { All (IsTicketOf (lot_of meeting.now.mutex)) tickets.items }
{
    let came = &AtomicUsize::new(0);
    let ended = map_vec(
        rt,
        tickets,
        &|ticket: Ticket|
            requires { IsTicketOf (lot_of meeting.now.mutex) ticket }
        {
            let mut token = ticket.enter();
            match came.fetch_add(1, SeqCst) {
                0 => wait_each(rt, meeting, &mut token),
                1 => unlock_each(rt, meeting, &mut token),
                _ => notify_each(rt, meeting, &mut token),
            }
            drop(token.leave());
        },
    );
    match ended {
        Ok(_) => meeting.woken.load(SeqCst),
        Err(_) => 0,
    }
}

#[test]
fn a_notification_beside_an_unlock_is_not_lost(rt: HostRuntime) {
    let (meeting, tickets) = new_meeting(&rt, rt.alloc());
    let woken = meet(&rt, &meeting, tickets);
    check(&rt, woken == ROUNDS);
}
