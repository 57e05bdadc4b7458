//! Memory that is refused: `trials/each_refusal.py` refuses each allocation of this test in turn.
ghost use Rattle.std.specs.Prelude.{All};
ghost use Rattle.std.specs.Arc.{arc_value};
ghost use Rattle.parking_lot_core.specs.Tokens.{IsTicketOf, IsTokenOf};

use super::{check, check_eq, next_of};
use parking_lot::{
    Condvar, FairMutex, Fault, Mutex, Once, OnceCell, ParkingLot, RecursiveRwLock, ReentrantMutex,
    RwLock, Semaphore, Ticket, Token,
};
use std::process::Abort;
use std::sync::Arc;

// How many words are drawn at most.
const WORDS: usize = 16;

// Makes a mutex of each sort and a condition variable, and tells whether none was refused.
fn mutexes_are_made(lot: &Arc<ParkingLot>, token: &mut Token) -> bool
    requires { IsTokenOf (arc_value lot.now) token.old }
    ensures { IsTokenOf (arc_value lot.now) token.new }
{
    let plain = Mutex::new(lot, token, 0u64).is_ok();
    let fair = FairMutex::new(lot, token, 0u64).is_ok();
    let reentrant = ReentrantMutex::new(lot, token, 0u64).is_ok();
    let condvar = Condvar::new(lot, token).is_ok();
    plain && fair && reentrant && condvar
}

// Makes a reader-writer lock of each sort and a semaphore, and tells whether none was refused.
fn shared_locks_are_made(lot: &Arc<ParkingLot>, token: &mut Token) -> bool
    requires { IsTokenOf (arc_value lot.now) token.old }
    ensures { IsTokenOf (arc_value lot.now) token.new }
{
    let normal = RwLock::new(lot, token, 0u64).is_ok();
    let recursive = RecursiveRwLock::new(lot, token, 0u64).is_ok();
    let semaphore = Semaphore::new(lot, token, 1).is_ok();
    normal && recursive && semaphore
}

// Makes a `Once`, one that is completed and a cell, and tells whether none was refused.
fn onces_are_made(lot: &Arc<ParkingLot>, token: &mut Token) -> bool
    requires { IsTokenOf (arc_value lot.now) token.old }
    ensures { IsTokenOf (arc_value lot.now) token.new }
{
    let once = Once::new(lot, token).is_ok();
    let completed = Once::new_completed(lot, token).is_ok();
    let cell = OnceCell::<u64>::new(lot, token).is_ok();
    once && completed && cell
}

fn all_are_made(lot: &Arc<ParkingLot>, ticket: Ticket) -> bool
    requires { IsTicketOf (arc_value lot.now) ticket }
{
    let mut token = ticket.enter();
    let mutexes = mutexes_are_made(lot, &mut token);
    let shared = shared_locks_are_made(lot, &mut token);
    let onces = onces_are_made(lot, &mut token);
    drop(token.leave());
    mutexes && shared && onces
}

fn make_all<A: Abort>(rt: &A, lot: Arc<ParkingLot>, tickets: Vec<Ticket>)
    requires { All (IsTicketOf (arc_value lot)) tickets.items }
{
    let mut tickets = tickets;
    match next_of(&lot, &mut tickets) {
        Some(ticket) => check(rt, all_are_made(&lot, ticket)),
        None => check(rt, false),
    }
}

#[test]
fn a_lot_is_made_or_refused_and_its_locks_are_made(rt: HostRuntime) {
    match ParkingLot::new(rt.alloc(), WORDS, 2) {
        Ok((lot, tickets)) => make_all(&rt, lot, tickets),
        Err(fault) => check_eq(&rt, fault, Fault::NoMemory),
    }
}
