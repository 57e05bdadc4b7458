//! Threads that meet at one reader-writer lock.
ghost use Rattle.std.specs.Prelude.{◌≡◌, ◌<◌};
ghost use Rattle.parking_lot_core.specs.Tokens.{IsTicketOf, IsTokenOf};
ghost use Rattle.test_any_rwlock.specs.AnyLocks.{lot_of};

use super::fixtures::{AnyRwLock, Inside, Sort, seats};
use super::mixes::mix;
use super::timed::{come_after, give_up, read_on};
use parking_lot::{Fault, ParkingLot, Ticket, Token};
use std::alloc::Global;
use std::sync::Wait;
use std::sync::atomic::Ordering::SeqCst;
use std::sync::atomic::{AtomicBool, AtomicUsize};
use std::thread::{Threads, map_vec};

/// The part of each thread.
#[derive(Clone, Copy)]
pub(super) enum Part {
    /// Makes all calls, in an order of its own.
    Mix,
    /// Reads as the first, gives up as the next, by an upgrade or not, and comes after it as the
    /// third.
    LetIn(bool),
}

/// The flags and counts that the threads share.
#[derive(Drop)]
pub(super) struct Told {
    parts: AtomicUsize,
    pub(super) held: AtomicBool,
    pub(super) up: AtomicBool,
    pub(super) came: AtomicUsize,
}

// Does one thread's part. Whether the thread is content with it.
fn take_part<R: Wait>(
    rt: &R,
    lot: &ParkingLot,
    lock: &AnyRwLock,
    token: &mut Token,
    told: &Told,
    inside: &Inside,
    part: Part,
) -> bool
    requires { IsTokenOf lot.now token.old × (lot_of lock.now ≡ lot.now) }
    ensures { IsTokenOf lot.now token.new }
{
    let place = told.parts.fetch_add(1, SeqCst);
    match part {
        Part::Mix => mix(rt, lock, token, inside, place.wrapping_add(1)),
        Part::LetIn(upgrades) => match place {
            0 => read_on(rt, lot, lock, token, told),
            1 => give_up(rt, lock, token, upgrades, told),
            _ => come_after(rt, lot, lock, token, told),
        },
    }
}

// Returns whether all threads were content with their parts, and none found another where none may
// be.
pub(super) fn play<R: Threads + Wait + Sync>(
    sort: Sort,
    rt: &R,
    alloc: Global,
    threads: usize,
    part: Part,
) -> Result<bool, Fault>
    requires { threads < 1000 }
{
    let (lot, lock, tickets) = seats(sort, alloc, threads, 1000)?;
    let told = Told {
        parts: AtomicUsize::new(0),
        held: AtomicBool::new(false),
        up: AtomicBool::new(false),
        came: AtomicUsize::new(0),
    };
    let (lot, lock, told, inside) = (&*lot, &lock, &told, &Inside::new());
    let ended = map_vec(
        rt,
        tickets,
        &|ticket: Ticket|
            requires { IsTicketOf (lot_of lock.now) ticket × (lot_of lock.now ≡ lot.now) }
        {
            let mut token = ticket.enter();
            let content = take_part(rt, lot, lock, &mut token, told, inside, part);
            drop(token.leave());
            content
        },
    );
    let content = ended.is_ok_and(|ended| ended.iter().all(|content| *content));
    Ok(content && inside.wrongs() == 0)
}
