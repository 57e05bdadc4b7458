//! A lock with the tickets of its threads, waits that end, and a count of the threads inside.
mod inside;

ghost use Rattle.std.specs.Prelude.{◌≡◌, ◌≤◌, ◌<◌, ◌↔◌, All, IfOk, IfSome, IsSome, length};
ghost use Rattle.std.specs.Arc.{arc_value};
ghost use Rattle.parking_lot_core.specs.Tokens.{IsTicketOf, IsTokenOf};
ghost use Rattle.test_any_rwlock.specs.AnyLocks.{limit_of, lot_of};

pub(super) use inside::Inside;
use parking_lot::{Fault, ParkingLot, Ticket, Token};
use std::alloc::Global;
use std::sync::atomic::Ordering::SeqCst;
use std::sync::atomic::{AtomicBool, AtomicUsize};
use std::sync::{Arc, Wait};
use std::thread::yield_now;
pub(super) use test_any_rwlock::{AnyRwLock, Sort};

/// How often a thread looks for what it waits for before it gives up.
pub(super) const TURNS: usize = 1_000_000;

fn lock_by(
    sort: Sort,
    lot: &Arc<ParkingLot>,
    ticket: Ticket,
    limit: u64,
) -> Result<AnyRwLock, Fault>
    requires { IsTicketOf (arc_value lot.now) ticket
        × ((arc_value lot.now).records.count ≤ limit) × (limit ≤ 1024) }
    ensures lot { IfOk result (λ lock. lot_of lock ≡ arc_value lot.now) }
    ensures limit { IfOk result (λ lock. limit_of lock ≡ limit) }
{
    let mut token = ticket.enter();
    AnyRwLock::with_limit(sort, lot, &mut token, limit)
}

/// A lot, a lock of it that so many may share, and the tickets of so many threads.
///
/// The lot has one thread more, which has made the lock.
///
/// # Errors
///
/// Where memory was refused.
pub(super) fn seats(
    sort: Sort,
    alloc: Global,
    threads: usize,
    limit: u64,
) -> Result<(Arc<ParkingLot>, AnyRwLock, Vec<Ticket>), Fault>
    requires { (threads < limit) × (limit ≤ 1024) }
    ensures lot { IfOk result (λ made. lot_of made.1 ≡ arc_value made.0) }
    ensures limit { IfOk result (λ made. limit_of made.1 ≡ limit) }
    ensures tickets { IfOk result (λ made. All (IsTicketOf (arc_value made.0)) made.2.items) }
{
    let (lot, mut tickets) = ParkingLot::new(alloc, 1, threads + 1)?;
    let Some(ticket) = next_of(&lot, &mut tickets) else {
        return Err(Fault::NoMemory);
    };
    let lock = lock_by(sort, &lot, ticket, limit)?;
    Ok((lot, lock, tickets))
}

/// A ticket of those that are left.
pub(super) fn next_of(lot: &ParkingLot, tickets: &mut Vec<Ticket>) -> Option<Ticket>
    requires { All (IsTicketOf lot.now) tickets.old.items }
    ensures some { IsSome result ↔ (0 < length tickets.old.items) }
    ensures one { IfSome result (IsTicketOf lot.now) }
    ensures left { All (IsTicketOf lot.now) tickets.new.items }
{
    tickets.pop()
}

/// A lock that so many may share, and the token of a thread that has it to itself.
///
/// # Errors
///
/// Where memory was refused.
pub(super) fn lock_alone(sort: Sort, alloc: Global, limit: u64) -> Result<(AnyRwLock, Token), Fault>
    requires { (2 ≤ limit) × (limit ≤ 1024) }
    ensures limit { IfOk result (λ made. limit_of made.0 ≡ limit) }
    ensures token { IfOk result (λ made. IsTokenOf (lot_of made.0) made.1) }
{
    let (lot, lock, mut tickets) = seats(sort, alloc, 1, limit)?;
    let Some(ticket) = next_of(&lot, &mut tickets) else {
        return Err(Fault::NoMemory);
    };
    Ok((lock, ticket.enter()))
}

/// Waits until a flag is set.
pub(super) fn await_flag<R: Wait>(rt: &R, flag: &AtomicBool) {
    for _ in rt.forever() {
        if flag.load(SeqCst) {
            break;
        }
        yield_now();
    }
}

/// Returns whether a number came to be so great.
pub(super) fn comes_to(number: &AtomicUsize, least: usize) -> bool {
    for _ in 0..TURNS {
        if least <= number.load(SeqCst) {
            return true;
        }
        yield_now();
    }
    false
}

/// Returns whether so many came to stand in the main queue of a lock, and in that of the writer
/// that waits for the last readers.
pub(super) fn queue_up<R: Wait>(
    rt: &R,
    lot: &ParkingLot,
    lock: &AnyRwLock,
    token: &mut Token,
    main: usize,
    second: usize,
) -> bool
    requires { IsTokenOf lot.now token.old }
    ensures { IsTokenOf lot.now token.new }
{
    for _ in 0..TURNS {
        let waiting = lot.queued(rt, token, lock.key());
        let aside = lot.queued(rt, token, lock.second_key());
        if waiting == main && aside == second {
            return true;
        }
        yield_now();
    }
    false
}
