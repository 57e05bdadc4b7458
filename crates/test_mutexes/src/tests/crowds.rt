//! Threads that meet at a mutex and a fair one.
ghost use Rattle.std.specs.Prelude.{◌≡◌, ◌<◌, ◌≤◌};
ghost use Rattle.parking_lot_core.specs.Tokens.{IsTicketOf, IsTokenOf};
ghost use Rattle.parking_lot.specs.LotOf.{lot_of};

use super::fair::{GivesUp, give_up, take_and_keep};
use super::fair_unlocks::{take_in_turn, unlock_in_turn};
use super::{check_eq, fair_mutex_of, keep, mutex_of, seats};
use parking_lot::{FairMutex, Mutex, ParkingLot, Ticket, Token, lock_api};
use std::alloc::Global;
use std::process::Abort;
use std::sync::Wait;
use std::sync::atomic::Ordering::SeqCst;
use std::sync::atomic::{AtomicBool, AtomicUsize};
use std::thread::{Threads, map_vec};

const TIMES: u64 = 1000;

// A number under a mutex, another under a fair mutex of the same lot, and what the threads tell
// one another.
#[derive(Drop)]
struct Hall {
    plain: Mutex<u64>,
    fair: FairMutex<u64>,
    came: AtomicUsize,
    held: AtomicBool,
    told: AtomicBool,
    ghost together: { lot_of fair ≡ lot_of plain },
}

/// The part of each thread of a crowd.
#[derive(Clone, Copy)]
pub(super) enum Part {
    Add,
    AddFair,
    /// The first gives the mutex up so, and the other waits for it.
    GiveUp(GivesUp),
    /// The first unlocks the fair mutex, and the other waits for it.
    UnlockFair,
}

// Adds 1 under any raw mutex.
fn add_one<M: lock_api::RawMutex, R: Wait>(
    rt: &R,
    mutex: &lock_api::Mutex<M, u64>,
    token: &mut M::Token,
)
    requires { M.is_token_of (M.lot_of mutex.now) token.old }
    ensures { M.is_token_of (M.lot_of mutex.now) token.new }
{
    mutex.with(rt, token, |value: &mut u64| *value = value.wrapping_add(1));
}

fn add_many<R: Wait>(rt: &R, hall: &Hall, token: &mut Token, fair: bool)
    requires { IsTokenOf (lot_of hall.now.plain) token.old }
    ensures { IsTokenOf (lot_of hall.now.plain) token.new }
{
    for _ in 0..TIMES {
        if fair {
            add_one(rt, &hall.fair, token);
        } else {
            add_one(rt, &hall.plain, token);
        }
    }
}

// Does one thread's part. Whether the thread is content with it.
fn take_part<R: Wait>(rt: &R, lot: &ParkingLot, hall: &Hall, token: &mut Token, part: Part) -> bool
    requires { IsTokenOf lot.now token.old × (lot_of hall.now.plain ≡ lot.now) }
    ensures { IsTokenOf lot.now token.new }
{
    let (plain, held, told) = (&hall.plain, &hall.held, &hall.told);
    let is_first = hall.came.fetch_add(1, SeqCst) == 0;
    match part {
        Part::GiveUp(by) if is_first => {
            return give_up(rt, lot, plain, token, held, told, by);
        }
        Part::GiveUp(_) => take_and_keep(rt, plain, token, held, told),
        Part::UnlockFair if is_first => {
            return unlock_in_turn(rt, lot, &hall.fair, token, held, told);
        }
        Part::UnlockFair => take_in_turn(rt, &hall.fair, token, held, told),
        Part::Add => add_many(rt, hall, token, false),
        Part::AddFair => add_many(rt, hall, token, true),
    }
    true
}

// Returns whether so many threads of a lot of so many seats were content with their parts, and what
// the numbers came to.
fn play<R: Threads + Wait + Abort + Sync>(
    rt: &R,
    alloc: Global,
    room: usize,
    threads: usize,
    part: Part,
) -> (bool, u64, u64)
    requires { (0 < room) × (room ≤ 100) }
{
    let (lot, mut token, mut tickets) = seats(rt, alloc, 2, room);
    keep(&lot, &mut tickets, threads);
    let plain = mutex_of(rt, &lot, &mut token, 0);
    let fair = fair_mutex_of(rt, &lot, &mut token, 0);
    let hall = Hall {
        plain,
        fair,
        came: AtomicUsize::new(0),
        held: AtomicBool::new(false),
        told: AtomicBool::new(!matches!(part, Part::GiveUp(GivesUp::Fair) | Part::UnlockFair)),
    };
    let (lot, shared) = (&*lot, &hall);
    let found = map_vec(
        rt,
        tickets,
        &|ticket: Ticket|
            requires { IsTicketOf (lot_of shared.now.plain) ticket
                × (lot_of shared.now.plain ≡ lot.now) }
        {
            let mut token = ticket.enter();
            let content = take_part(rt, lot, shared, &mut token, part);
            drop(token.leave());
            content
        },
    );
    let content = found.is_ok_and(|found| found.iter().all(|content| *content));
    (content, hall.plain.into_inner(), hall.fair.into_inner())
}

// The threads find the same in lots of few and of many seats.
pub(super) fn for_rooms<R: Threads + Wait + Abort + Sync>(
    rt: &R,
    alloc: Global,
    threads: usize,
    part: Part,
    wanted: (bool, u64, u64),
) {
    check_eq(rt, play(rt, alloc, 8, threads, part), wanted);
    check_eq(rt, play(rt, alloc, 64, threads, part), wanted);
}

#[test]
fn six_threads_add_under_one_mutex(rt: HostRuntime) {
    for_rooms(&rt, rt.alloc(), 6, Part::Add, (true, 6 * TIMES, 0));
}

#[test]
fn six_threads_add_under_one_fair_mutex(rt: HostRuntime) {
    for_rooms(&rt, rt.alloc(), 6, Part::AddFair, (true, 0, 6 * TIMES));
}
