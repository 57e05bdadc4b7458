//! Calls of one `Once`, by one thread and by many.
mod cells;
mod crowds;
mod meets;
mod permits;
mod scripts;
mod timed;

ghost use Rattle.std.specs.Prelude.{◌≡◌, ◌<◌, ◌≤◌, All, IfSome};
ghost use Rattle.std.specs.Arc.{arc_value};
ghost use Rattle.run_once_and_semaphores.specs.OnceUsers.{IsTicketOf, IsTokenOf, lot_of};

use parking_lot_core::{Fault, ParkingLot, Ticket, Token};
use run_once_and_semaphores::{Once, OnceCell, OnceFault};
use std::alloc::Global;
use std::fmt::Debug;
use std::process::Abort;
use std::sync::atomic::AtomicUsize;
use std::sync::atomic::Ordering::SeqCst;
use std::sync::{Arc, Wait};

/// Asserts that the thing found is the thing wanted. The tests share this one assertion, since each
/// is proved where it stands.
fn check_eq<T: PartialEq + Debug + Drop>(rt: &impl Abort, found: T, wanted: T) {
    assert_eq!(rt; found, wanted);
}

fn next_of(lot: &ParkingLot, tickets: &mut Vec<Ticket>) -> Option<Ticket>
    requires { All (IsTicketOf lot.now) tickets.old.items }
    ensures left { All (IsTicketOf lot.now) tickets.new.items }
    ensures one { IfSome result (IsTicketOf lot.now) }
{
    tickets.pop()
}

// Makes a lot of two words with so many threads, the token of the first, and the tickets of the
// others. A maker of lots, and of locks in them, gives up where memory is refused, so that no test
// has anything to drop in its midst.
fn seats<A: Abort>(rt: &A, alloc: Global, threads: usize) -> (Arc<ParkingLot>, Token, Vec<Ticket>)
    requires { (0 < threads) × (threads ≤ 1024) }
    ensures { IsTokenOf (arc_value result.0) result.1
        × All (IsTicketOf (arc_value result.0)) result.2.items }
{
    let Ok((lot, mut tickets)) = ParkingLot::new(alloc, 2, threads) else {
        panic!(rt; "no lot");
    };
    match next_of(&lot, &mut tickets) {
        Some(first) => (lot, first.enter(), tickets),
        None => panic!(rt; "no seat"),
    }
}

// A `Once` of a lot.
fn once_of<A: Abort>(rt: &A, lot: &Arc<ParkingLot>, token: &mut Token) -> Once
    requires { IsTokenOf (arc_value lot.now) token.old }
    ensures token { IsTokenOf (arc_value lot.now) token.new }
    ensures once { lot_of result ≡ arc_value lot.now }
{
    match Once::new(lot, token) {
        Ok(once) => once,
        Err(_) => panic!(rt; "no Once"),
    }
}

// A cell of a lot.
fn cell_of<A: Abort>(rt: &A, lot: &Arc<ParkingLot>, token: &mut Token) -> OnceCell<u64>
    requires { IsTokenOf (arc_value lot.now) token.old }
    ensures token { IsTokenOf (arc_value lot.now) token.new }
    ensures cell { lot_of result.0 ≡ arc_value lot.now }
{
    match OnceCell::new(lot, token) {
        Ok(cell) => cell,
        Err(_) => panic!(rt; "no cell"),
    }
}

// A `Once` that one thread has for itself.
fn once_alone<A: Abort>(rt: &A, alloc: Global) -> (Once, Token)
    ensures { IsTokenOf (lot_of result.0) result.1 }
{
    let (lot, mut token, _others) = seats(rt, alloc, 1);
    let once = once_of(rt, &lot, &mut token);
    (once, token)
}

// How it answers, in a word.
fn told(answer: Result<(), OnceFault<u32>>) -> &'static str {
    match answer {
        Ok(()) => "ok",
        Err(OnceFault::Refused(Fault::Poisoned)) => "poisoned",
        Err(OnceFault::Refused(_)) => "refused",
        Err(OnceFault::Failed(_)) => "failed",
    }
}

// A call that counts the runs of its closure.
fn count_run<R: Wait>(rt: &R, once: &Once, token: &mut Token, runs: &AtomicUsize) -> &'static str
    requires { IsTokenOf (lot_of once.now) token.old }
    ensures { IsTokenOf (lot_of once.now) token.new }
{
    let answer: Result<(), OnceFault<u32>> = once.call_once(rt, token, move || {
        runs.fetch_add(1, SeqCst);
        Ok(())
    });
    told(answer)
}

// The text of a fault of a `Once`.
fn text_of<A: Abort>(rt: &A, alloc: Global, fault: &OnceFault<u8>) -> String {
    match format!(in alloc; "{fault}") {
        Ok(text) => text,
        Err(_) => panic!(rt; "no memory"),
    }
}

#[test]
fn faults_of_a_once_say_what_was(rt: HostRuntime) {
    let refused = text_of(&rt, rt.alloc(), &OnceFault::Refused(Fault::Poisoned));
    check_eq(
        &rt,
        refused.as_str(),
        "Once instance has previously been poisoned",
    );
    let failed = text_of(&rt, rt.alloc(), &OnceFault::Failed(7));
    check_eq(
        &rt,
        failed.as_str(),
        "the closure failed, and the Once instance is poisoned",
    );
}

// Calls with a closure that fails.
fn fail<R: Wait>(rt: &R, once: &Once, token: &mut Token) -> &'static str
    requires { IsTokenOf (lot_of once.now) token.old }
    ensures { IsTokenOf (lot_of once.now) token.new }
{
    told(once.call_once(rt, token, || Err(7u32)))
}
