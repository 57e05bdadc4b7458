//! A thread that is spawned, and shares a mutex by an `Arc`.
ghost use Rattle.std.specs.Prelude.{All, IfSome};
ghost use Rattle.std.specs.Arc.{arc_value};
ghost use Rattle.parking_lot.specs.LotOf.{IsTicketOf, lot_of};

use super::check_eq;
use parking_lot::{Fault, Mutex, ParkingLot, Ticket};
use std::alloc::AllocError;
use std::sync::{Arc, Wait};
use std::test::Fail;
use std::thread::{JoinHandle, Threads, spawn};

// Takes a ticket, which is of the lot as all of them are.
fn next_of(lot: &ParkingLot, tickets: &mut Vec<Ticket>) -> Option<Ticket>
    requires { All (IsTicketOf lot.now) tickets.old.items }
    ensures left { All (IsTicketOf lot.now) tickets.new.items }
    ensures one { IfSome result (IsTicketOf lot.now) }
{
    tickets.pop()
}

// Enters the lot by the ticket, adds 1, and leaves.
fn add<R: Wait>(rt: &R, total: &Mutex<u64>, ticket: Ticket)
    requires { IsTicketOf (lot_of total.now) ticket }
{
    let mut token = ticket.enter();
    total.with(rt, &mut token, |value: &mut u64| {
        *value = value.wrapping_add(1);
    });
    drop(token.leave());
}

// Starts a thread that adds 1.
fn start<R: Threads + Wait + Copy + Send + 'static>(
    rt: R,
    total: &Arc<Mutex<u64>>,
    ticket: Ticket,
) -> Result<JoinHandle<()>, AllocError>
    requires { IsTicketOf (lot_of (arc_value total.now)) ticket }
{
    let theirs = Arc::try_clone(total)?;
    let thread = spawn(
        &rt,
        move ||
            requires { IsTicketOf (lot_of (arc_value theirs)) ticket }
        { add(&rt, &theirs, ticket) },
    )?;
    Ok(thread)
}

#[test]
fn a_thread_that_is_spawned(rt: HostRuntime) -> Result<(), Fail> {
    let (lot, mut tickets) = ParkingLot::for_threads(rt.alloc(), 2)?;
    let (Some(mine), Some(theirs)) = (next_of(&lot, &mut tickets), next_of(&lot, &mut tickets))
    else {
        return Err(Fail::from(Fault::NoMemory));
    };
    let mut token = mine.enter();
    let total = Arc::new(rt.alloc(), Mutex::new(&lot, &mut token, 0u64)?)?;
    let other = start(rt, &total, theirs)?;
    add(&rt, &total, token.leave());
    other.join(&rt);
    let total = Arc::try_unwrap(total).map(|total| total.into_inner());
    check_eq(&rt, total.ok(), Some(2));
    Ok(())
}
