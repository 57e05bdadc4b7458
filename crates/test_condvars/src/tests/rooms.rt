//! Rooms in which the threads of a lot wait and notify.
ghost use Rattle.std.specs.Prelude.{◌≡◌, ◌<◌, ◌≤◌, All};
ghost use Rattle.std.specs.Arc.{arc_value};
ghost use Rattle.parking_lot.specs.LotOf.{IsTicketOf, IsTokenOf, lot_of, lot_of_condvar};

use super::alone::wait_turns;
use super::many::{Whom, add_and_wait, notify_in_turn, notify_slow};
use super::two::{Way, bump_until_notified, come_with_another, lock_and_wait, notify};
use super::{check, condvar_of, mutex_of, seats};
use parking_lot::{Condvar, Mutex, ParkingLot, Ticket, Token};
use std::alloc::Global;
use std::process::Abort;
use std::sync::atomic::Ordering::SeqCst;
use std::sync::atomic::{AtomicBool, AtomicUsize};
use std::sync::{Arc, Wait};
use std::thread::{Threads, map_vec};

// A number under a mutex, a condition variable of the same lot, and another mutex of it.
#[derive(Drop)]
pub(super) struct Room {
    pub(super) mutex: Mutex<usize>,
    pub(super) other: Mutex<usize>,
    pub(super) condvar: Condvar,
    ghost together: { (lot_of_condvar condvar ≡ lot_of mutex) × (lot_of other ≡ lot_of mutex) },
}

// A room for so many threads, its lot, the token of the first and the tickets of the others.
pub(super) fn room_for<A: Abort>(
    rt: &A,
    alloc: Global,
    threads: usize,
) -> (Arc<ParkingLot>, Room, Token, Vec<Ticket>)
    requires { (0 < threads) × (threads ≤ 1024) }
    ensures { (lot_of result.1.mutex ≡ arc_value result.0)
        × IsTokenOf (arc_value result.0) result.2
        × All (IsTicketOf (arc_value result.0)) result.3.items }
{
    let (lot, mut token, others) = seats(rt, alloc, threads);
    let mutex = mutex_of(rt, &lot, &mut token, 0usize);
    let other = mutex_of(rt, &lot, &mut token, 0usize);
    let condvar = condvar_of(rt, &lot, &mut token);
    let room = Room {
        mutex,
        other,
        condvar,
    };
    (lot, room, token, others)
}

// Returns the number, under the mutex.
pub(super) fn look<R: Wait>(rt: &R, room: &Room, token: &mut Token) -> usize
    requires { IsTokenOf (lot_of room.now.mutex) token.old }
    ensures { IsTokenOf (lot_of room.now.mutex) token.new }
{
    room.mutex.with(rt, token, |value: &mut usize| *value)
}

/// The parts of the threads of a room. Each case speaks first of the thread that comes first.
#[derive(Clone, Copy)]
pub(super) enum Part {
    /// One waits, and another notifies it.
    Meet(Way),
    /// One waits, and another holds the mutex, and bumps it until it has notified that one.
    Bump,
    /// One waits, and another comes with another mutex.
    Another,
    /// One notifies so many others, once all wait.
    Notify(Whom, usize),
    /// One notifies another so often, once that one waits again.
    Turns(usize),
}

// Does one thread's part. Whether the thread is content with it.
fn take_part<R: Wait>(
    rt: &R,
    lot: &ParkingLot,
    room: &Room,
    token: &mut Token,
    place: usize,
    locked: &AtomicBool,
    part: Part,
) -> bool
    requires { IsTokenOf lot.now token.old × (lot_of room.now.mutex ≡ lot.now) }
    ensures { IsTokenOf lot.now token.new }
{
    match (part, place == 0) {
        (Part::Meet(way), true) => lock_and_wait(rt, lot, room, token, locked, way),
        (Part::Meet(way), false) => notify(rt, room, token, locked, way),
        (Part::Bump | Part::Another, true) => {
            lock_and_wait(rt, lot, room, token, locked, Way::UnderMutex)
        }
        (Part::Bump, false) => bump_until_notified(rt, room, token),
        (Part::Another, false) => come_with_another(rt, lot, room, token),
        (Part::Notify(whom, threads), true) => notify_slow(rt, room, token, threads, whom),
        (Part::Notify(whom, _), false) => add_and_wait(rt, room, token, whom),
        (Part::Turns(turns), true) => notify_in_turn(rt, room, token, turns),
        (Part::Turns(turns), false) => wait_turns(rt, room, token, turns),
    }
}

// Returns whether so many threads were content with their parts, and what the number came to.
// Nobody waits after them.
pub(super) fn play<R: Threads + Wait + Abort + Sync>(
    rt: &R,
    alloc: Global,
    threads: usize,
    part: Part,
) -> (bool, usize)
    requires { threads ≤ 100 }
{
    let (lot, room, mut token, tickets) = room_for(rt, alloc, threads + 1);
    let (lot, room) = (&*lot, &room);
    let (came, locked) = (&AtomicUsize::new(0), &AtomicBool::new(false));
    let found = map_vec(
        rt,
        tickets,
        &|ticket: Ticket|
            requires { IsTicketOf (lot_of room.now.mutex) ticket
                × (lot_of room.now.mutex ≡ lot.now) }
        {
            let mut token = ticket.enter();
            let place = came.fetch_add(1, SeqCst);
            let content = take_part(rt, lot, room, &mut token, place, locked, part);
            drop(token.leave());
            content
        },
    );
    let content = found.is_ok_and(|found| found.iter().all(|content| *content));
    check(rt, !room.condvar.notify_one(rt, &mut token));
    (content, look(rt, room, &mut token))
}
