//! Mutexes of one thread, of two and of many, raw and with a value; and what a live run writes.
mod crowds;
mod fair;
mod fair_unlocks;
mod mutexes;
mod raw;
mod refusals;
mod timed;

ghost use Rattle.std.specs.Prelude.{◌≡◌, ◌<◌, ◌≤◌, All, IfSome};
ghost use Rattle.std.specs.Arc.{arc_value};
ghost use Rattle.parking_lot_core.specs.Tokens.{IsTicketOf, IsTokenOf};
ghost use Rattle.parking_lot.specs.LotOf.{lot_of};

use parking_lot::{FairMutex, Mutex, ParkingLot, Ticket, Token};
use std::alloc::Global;
use std::fmt::Debug;
use std::process::Abort;
use std::sync::Arc;

// Asserts that the thing found is the thing wanted. All tests share this one assertion, since each
// is proved where it stands.
fn check_eq<T: PartialEq + Debug + Drop>(rt: &impl Abort, found: T, wanted: T) {
    assert_eq!(rt; found, wanted);
}

// Asserts that a condition holds.
fn check(rt: &impl Abort, truth: bool) {
    assert!(rt; truth);
}

fn next_of(lot: &ParkingLot, tickets: &mut Vec<Ticket>) -> Option<Ticket>
    requires { All (IsTicketOf lot.now) tickets.old.items }
    ensures left { All (IsTicketOf lot.now) tickets.new.items }
    ensures one { IfSome result (IsTicketOf lot.now) }
{
    tickets.pop()
}

// Keeps so many of the tickets.
fn keep(lot: &ParkingLot, tickets: &mut Vec<Ticket>, number: usize)
    requires { All (IsTicketOf lot.now) tickets.old.items }
    ensures { All (IsTicketOf lot.now) tickets.new.items }
{
    for _ in number..tickets.len() {
        drop(next_of(lot, tickets));
    }
}

// Makes a lot of so many words and threads, with the token of the first and the tickets of the
// others. A maker of lots and mutexes gives up where memory is refused, so that no test has
// anything to drop in its midst.
fn seats<A: Abort>(
    rt: &A,
    alloc: Global,
    words: usize,
    threads: usize,
) -> (Arc<ParkingLot>, Token, Vec<Ticket>)
    requires { (0 < words) × (words ≤ 100) × (0 < threads) × (threads ≤ 1024) }
    ensures { IsTokenOf (arc_value result.0) result.1
        × All (IsTicketOf (arc_value result.0)) result.2.items }
{
    let Ok((lot, mut tickets)) = ParkingLot::new(alloc, words, threads) else {
        panic!(rt; "no lot");
    };
    match next_of(&lot, &mut tickets) {
        Some(first) => (lot, first.enter(), tickets),
        None => panic!(rt; "no seat"),
    }
}

// A lot of one word, with its one thread.
fn lone<A: Abort>(rt: &A, alloc: Global) -> (Arc<ParkingLot>, Token)
    ensures { IsTokenOf (arc_value result.0) result.1 }
{
    let (lot, token, _others) = seats(rt, alloc, 1, 1);
    (lot, token)
}

// A mutex of a lot.
fn mutex_of<T: Drop, A: Abort>(
    rt: &A,
    lot: &Arc<ParkingLot>,
    token: &mut Token,
    value: T,
) -> Mutex<T>
    requires { IsTokenOf (arc_value lot.now) token.old }
    ensures token { IsTokenOf (arc_value lot.now) token.new }
    ensures mutex { lot_of result ≡ arc_value lot.now }
{
    match Mutex::new(lot, token, value) {
        Ok(mutex) => mutex,
        Err(_) => panic!(rt; "no mutex"),
    }
}

fn fair_mutex_of<T: Drop, A: Abort>(
    rt: &A,
    lot: &Arc<ParkingLot>,
    token: &mut Token,
    value: T,
) -> FairMutex<T>
    requires { IsTokenOf (arc_value lot.now) token.old }
    ensures token { IsTokenOf (arc_value lot.now) token.new }
    ensures mutex { lot_of result ≡ arc_value lot.now }
{
    match FairMutex::new(lot, token, value) {
        Ok(mutex) => mutex,
        Err(_) => panic!(rt; "no fair mutex"),
    }
}

// A mutex that one thread has for itself.
fn mutex_alone<T: Drop, A: Abort>(rt: &A, alloc: Global, value: T) -> (Mutex<T>, Token)
    ensures { IsTokenOf (lot_of result.0) result.1 }
{
    let (lot, mut token) = lone(rt, alloc);
    let mutex = mutex_of(rt, &lot, &mut token, value);
    (mutex, token)
}

// A fair mutex that one thread has for itself.
fn fair_mutex_alone<A: Abort>(rt: &A, alloc: Global, value: u64) -> (FairMutex<u64>, Token)
    ensures { IsTokenOf (lot_of result.0) result.1 }
{
    let (lot, mut token) = lone(rt, alloc);
    let mutex = fair_mutex_of(rt, &lot, &mut token, value);
    (mutex, token)
}
