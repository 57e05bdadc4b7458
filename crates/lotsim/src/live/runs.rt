//! The threads, and what comes of them.
ghost use Rattle.std.specs.Prelude.{◌≡◌, All, IfOk, IfSome};
ghost use Rattle.std.specs.Arc.{arc_value};
ghost use Rattle.parking_lot.specs.LotOf.{lot_of, lot_of_rwlock};
ghost use Rattle.parking_lot_core.specs.Tokens.{IsTicketOf, IsTokenOf};

use super::lines::Told;
use parking_lot::{Fault, Mutex, ParkingLot, RwLock, Ticket, Token};
use std::alloc::Global;
use std::sync::atomic::AtomicUsize;
use std::sync::atomic::Ordering::SeqCst;
use std::sync::{Arc, Wait};
use std::thread::{Threads, scope, scope_env, yield_now};

// The number of threads that read at once.
const READERS: usize = 2;

// How often each reader looks for the other.
const TURNS: u32 = 1_000_000;

const COUNTERS: usize = 6;

// How often each thread adds 1.
const TIMES: u32 = 1_000;

// The value that is written, and then read.
const WRITTEN: u64 = 7;

// The locks of one lot.
#[derive(Drop)]
struct Locks {
    value: RwLock<u64>,
    total: Mutex<u64>,
    ghost together: { lot_of_rwlock value ≡ lot_of total },
}

fn one_of(lot: &ParkingLot, tickets: &mut Vec<Ticket>) -> Option<Ticket>
    requires { All (IsTicketOf lot.now) tickets.old.items }
    ensures left { All (IsTicketOf lot.now) tickets.new.items }
    ensures one { IfSome result (IsTicketOf lot.now) }
{
    tickets.pop()
}

fn put_to(lot: &ParkingLot, tickets: &mut Vec<Ticket>, ticket: Ticket) -> Result<(), Fault>
    requires { All (IsTicketOf lot.now) tickets.old.items × IsTicketOf lot.now ticket }
    ensures { All (IsTicketOf lot.now) tickets.new.items }
{
    match tickets.push(ticket) {
        Ok(()) => Ok(()),
        Err(_) => Err(Fault::NoMemory),
    }
}

// Two of the tickets, by themselves.
fn two_of(lot: &ParkingLot, alloc: Global, tickets: &mut Vec<Ticket>) -> Result<Vec<Ticket>, Fault>
    requires { All (IsTicketOf lot.now) tickets.old.items }
    ensures left { All (IsTicketOf lot.now) tickets.new.items }
    ensures two { IfOk result (λ two. All (IsTicketOf lot.now) two.items) }
{
    let mut two = Vec::new(alloc);
    let (Some(one), Some(other)) = (one_of(lot, tickets), one_of(lot, tickets)) else {
        return Err(Fault::NoMemory);
    };
    put_to(lot, &mut two, one)?;
    put_to(lot, &mut two, other)?;
    Ok(two)
}

// The locks, made by the thread of a ticket.
fn locks_by(lot: &Arc<ParkingLot>, ticket: Ticket) -> Result<(Locks, Token), Fault>
    requires { IsTicketOf (arc_value lot.now) ticket }
    ensures { IfOk result
        (λ made. (lot_of made.0.total ≡ arc_value lot.now) × IsTokenOf (arc_value lot.now) made.1) }
{
    let mut token = ticket.enter();
    let value = match RwLock::new(lot, &mut token, 0) {
        Ok(lock) => lock,
        Err((fault, _)) => return Err(fault),
    };
    match Mutex::new(lot, &mut token, 0) {
        Ok(total) => Ok((Locks { value, total }, token)),
        Err((fault, _)) => Err(fault),
    }
}

// Returns whether a reader sees another that reads at the same time.
fn meets<R: Wait>(rt: &R, lock: &RwLock<u64>, ticket: Ticket, arrived: &AtomicUsize) -> bool
    requires { IsTicketOf (lot_of_rwlock lock.now) ticket }
{
    let mut token = ticket.enter();
    let Ok(guard) = lock.read(rt, &mut token) else {
        return false;
    };
    arrived.fetch_add(1, SeqCst);
    let met = sees_all(arrived);
    guard.unlock(rt, &mut token);
    drop(token.leave());
    met
}

fn sees_all(arrived: &AtomicUsize) -> bool {
    for _ in 0..TURNS {
        if arrived.load(SeqCst) >= READERS {
            return true;
        }
        yield_now();
    }
    false
}

// Returns the value that is read of what was written before.
fn write_and_read<R: Wait>(rt: &R, lock: &RwLock<u64>, token: &mut Token) -> Result<u64, Fault>
    requires { IsTokenOf (lot_of_rwlock lock.now) token.old }
    ensures { IsTokenOf (lot_of_rwlock lock.now) token.new }
{
    lock.with_write(rt, token, |value: &mut u64| {
        *value = WRITTEN;
    });
    lock.with_read(rt, token, |value: &u64| *value)
}

fn count<R: Wait>(rt: &R, total: &Mutex<u64>, ticket: Ticket)
    requires { IsTicketOf (lot_of total.now) ticket }
{
    let mut token = ticket.enter();
    for _ in 0..TIMES {
        total.with(rt, &mut token, |value: &mut u64| {
            *value = value.wrapping_add(1);
        });
    }
    drop(token.leave());
}

// Returns whether two readers met. A thread that the system refuses is told as such, and its call is
// not run in another's place.
fn met<R: Threads + Wait + Sync>(
    rt: &R,
    lock: &RwLock<u64>,
    tickets: Vec<Ticket>,
) -> Result<bool, Fault>
    requires { All (IsTicketOf (lot_of_rwlock lock.now)) tickets.items }
{
    let (arrivals, meetings) = (AtomicUsize::new(0), AtomicUsize::new(0));
    let (arrived, seen) = (&arrivals, &meetings);
    let all_run = scope(
        scope_env(),
        rt,
        |scope|
            requires { All (IsTicketOf (lot_of_rwlock lock.now)) tickets.items }
        {
            for ticket in tickets {
                let reader = move ||
                    requires { IsTicketOf (lot_of_rwlock lock.now) ticket }
                {
                    if meets(rt, lock, ticket, arrived) {
                        seen.fetch_add(1, SeqCst);
                    }
                };
                if scope.spawn(reader).is_err() {
                    return false;
                }
            }
            true
        },
    );
    if !all_run {
        return Err(Fault::NoMemory);
    }
    Ok(meetings.load(SeqCst) == READERS)
}

fn all_count<R: Threads + Wait + Sync>(
    rt: &R,
    total: Mutex<u64>,
    tickets: Vec<Ticket>,
) -> Result<u64, Fault>
    requires { All (IsTicketOf (lot_of total)) tickets.items }
{
    let shared = &total;
    let all_run = scope(
        scope_env(),
        rt,
        |scope|
            requires { All (IsTicketOf (lot_of shared.now)) tickets.items }
        {
            for ticket in tickets {
                let counter = move ||
                    requires { IsTicketOf (lot_of shared.now) ticket }
                {
                    count(rt, shared, ticket);
                };
                if scope.spawn(counter).is_err() {
                    return false;
                }
            }
            true
        },
    );
    if !all_run {
        return Err(Fault::NoMemory);
    }
    Ok(total.into_inner())
}

/// Runs all of them, one job after the other.
pub(crate) fn tried<R: Threads + Wait + Sync>(rt: &R, alloc: Global) -> Result<Told, Fault> {
    let (lot, mut tickets) = ParkingLot::new(alloc, 2, 1 + READERS + COUNTERS)?;
    let Some(first) = one_of(&lot, &mut tickets) else {
        return Err(Fault::NoMemory);
    };
    let readers = two_of(&lot, alloc, &mut tickets)?;
    let (locks, mut token) = locks_by(&lot, first)?;
    let met = met(rt, &locks.value, readers)?;
    let read = write_and_read(rt, &locks.value, &mut token)?;
    drop(token.leave());
    let count = all_count(rt, locks.total, tickets)?;
    Ok(Told { met, read, count })
}
