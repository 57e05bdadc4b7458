//! Threads that meet at a `Once` and a cell.
ghost use Rattle.std.specs.Prelude.{◌≡◌, ◌≤◌};
ghost use Rattle.run_once_and_semaphores.specs.OnceUsers.{IsTicketOf, IsTokenOf, lot_of};

use super::cells::shared_value_of;
use super::meets::{call_beside, let_go, run_long, wait_beside};
use super::timed::{fail_long, race, wait_long};
use super::{cell_of, check_eq, count_run, fail, once_of, seats};
use parking_lot_core::{ParkingLot, Ticket, Token};
use run_once_and_semaphores::{Once, OnceCell};
use std::alloc::Global;
use std::process::Abort;
use std::sync::Wait;
use std::sync::atomic::Ordering::SeqCst;
use std::sync::atomic::{AtomicBool, AtomicUsize};
use std::thread::{Threads, map_vec};

// A `Once`, and a cell of the same lot.
#[derive(Drop)]
struct Room {
    once: Once,
    cell: OnceCell<u64>,
    ghost together: { lot_of cell.0 ≡ lot_of once },
}

/// The part of each thread.
#[derive(Clone, Copy)]
pub(super) enum Part {
    /// Calls the `Once`.
    Call,
    /// Asks for the value of the cell.
    Ask,
    /// One runs, and two come beside it until another lets the run go. An earlier run may have
    /// failed.
    Meet { poisoned: bool },
    /// One runs, and two wait for it with a deadline that is far off, until another lets it go.
    InTime { fails: bool },
    /// One runs, and the others wait for it up to deadlines that are soon over, and then for its end.
    Race,
}

/// The flags and counts that the threads share.
#[derive(Drop)]
pub(super) struct Told {
    came: AtomicUsize,
    pub(super) runs: AtomicUsize,
    pub(super) inside: AtomicBool,
    pub(super) go: AtomicBool,
}

// Does one thread's part. Whether the thread is content with what came of it.
fn take_part<R: Wait>(
    rt: &R,
    lot: &ParkingLot,
    room: &Room,
    token: &mut Token,
    told: &Told,
    part: Part,
) -> bool
    requires { IsTokenOf lot.now token.old × (lot_of room.now.once ≡ lot.now) }
    ensures { IsTokenOf lot.now token.new }
{
    let once = &room.once;
    let place = told.came.fetch_add(1, SeqCst);
    match part {
        Part::Call => count_run(rt, once, token, &told.runs) == "ok",
        Part::Ask => shared_value_of(rt, &room.cell, token, &told.came, &told.runs) == Some(0),
        Part::Meet { .. } => match place {
            0 => run_long(rt, once, token, told),
            1 => call_beside(rt, once, token, told),
            2 => wait_beside(rt, once, token, told),
            _ => let_go(rt, lot, once, token, told),
        },
        Part::InTime { fails } => match place {
            0 => if fails {
                fail_long(rt, once, token, told)
            } else {
                run_long(rt, once, token, told)
            },
            1 | 2 => {
                let wanted = if fails { "poisoned" } else { "yes" };
                wait_long(rt, once, token, told, wanted)
            }
            _ => let_go(rt, lot, once, token, told),
        },
        Part::Race => if place == 0 {
            run_long(rt, once, token, told)
        } else {
            race(rt, once, token, told)
        },
    }
}

// Returns whether so many threads were content with their parts, whether the `Once` is done then,
// and how many runs they counted.
pub(super) fn play<R: Threads + Wait + Abort + Sync>(
    rt: &R,
    alloc: Global,
    threads: usize,
    part: Part,
) -> (bool, bool, usize)
    requires { threads ≤ 100 }
{
    let (lot, mut token, tickets) = seats(rt, alloc, threads + 1);
    let once = once_of(rt, &lot, &mut token);
    let cell = cell_of(rt, &lot, &mut token);
    let room = Room { once, cell };
    if matches!(part, Part::Meet { poisoned: true }) {
        check_eq(rt, fail(rt, &room.once, &mut token), "failed");
    }
    let told = Told {
        came: AtomicUsize::new(0),
        runs: AtomicUsize::new(0),
        inside: AtomicBool::new(false),
        go: AtomicBool::new(false),
    };
    let (lot, room, told) = (&*lot, &room, &told);
    let found = map_vec(
        rt,
        tickets,
        &|ticket: Ticket|
            requires { IsTicketOf lot.now ticket × (lot_of room.now.once ≡ lot.now) }
        {
            let mut token = ticket.enter();
            let content = take_part(rt, lot, room, &mut token, told, part);
            drop(token.leave());
            content
        },
    );
    let content = found.is_ok_and(|found| found.iter().all(|content| *content));
    let done = room.once.is_completed(&mut token);
    (content, done, told.runs.load(SeqCst))
}

#[test]
fn ten_threads_come_at_once(rt: HostRuntime) {
    check_eq(&rt, play(&rt, rt.alloc(), 10, Part::Call), (true, true, 1));
}
