//! The unlock of a fair mutex, which hands it to the first thread that waits.
ghost use Rattle.std.specs.Prelude.{◌≡◌, All};
ghost use Rattle.parking_lot_core.specs.Tokens.{IsTicketOf, IsTokenOf};
ghost use Rattle.parking_lot.specs.LotOf.{lot_of};

use super::crowds::{Part, for_rooms};
use super::fair::{TRIES, is_waited_for, wait_until};
use super::{check, fair_mutex_of, next_of, seats};
use parking_lot::lock_api::RawMutex as RawLock;
use parking_lot::{FairMutex, ParkingLot, RawFairMutex, Ticket, Token};
use std::process::Abort;
use std::sync::Wait;
use std::sync::atomic::AtomicBool;
use std::sync::atomic::Ordering::SeqCst;
use std::thread::join;

// Locks the fair mutex once it is held, writes 1 there, and keeps it until the thread is told.
pub(super) fn take_in_turn<R: Wait>(
    rt: &R,
    mutex: &FairMutex<u64>,
    token: &mut Token,
    held: &AtomicBool,
    told: &AtomicBool,
)
    requires { IsTokenOf (lot_of mutex.now) token.old }
    ensures { IsTokenOf (lot_of mutex.now) token.new }
{
    wait_until(rt, held);
    mutex.with(rt, token, move |value: &mut u64| {
        *value = 1;
        wait_until(rt, told);
    });
}

// Returns whether the mutex refuses every try.
fn refuses<R: Wait>(rt: &R, mutex: &FairMutex<u64>, token: &mut Token) -> bool
    requires { IsTokenOf (lot_of mutex.now) token.old }
    ensures { IsTokenOf (lot_of mutex.now) token.new }
{
    for _ in 0..TRIES {
        if let Some(guard) = mutex.try_lock(token) {
            guard.unlock(rt, token);
            return false;
        }
    }
    true
}

// Holds the fair mutex until another thread waits for it, and unlocks it. Whether one came, and had
// the mutex from the unlock on until it was told.
pub(super) fn unlock_in_turn<R: Wait>(
    rt: &R,
    lot: &ParkingLot,
    mutex: &FairMutex<u64>,
    token: &mut Token,
    held: &AtomicBool,
    told: &AtomicBool,
) -> bool
    requires { IsTokenOf lot.now token.old × (lot_of mutex.now ≡ lot.now) }
    ensures { IsTokenOf lot.now token.new }
{
    let guard = mutex.lock(rt, token);
    held.store(true, SeqCst);
    let came = is_waited_for(rt, lot, mutex.raw().key(), token);
    guard.unlock(rt, token);
    let had = refuses(rt, mutex, token);
    told.store(true, SeqCst);
    came && had && mutex.with(rt, token, |value: &mut u64| *value == 1)
}

#[test]
fn a_waiter_is_handed_a_fair_mutex_by_its_unlock(rt: HostRuntime) {
    for_rooms(&rt, rt.alloc(), 2, Part::UnlockFair, (true, 0, 1));
}

fn ticket_of<A: Abort>(rt: &A, lot: &ParkingLot, tickets: &mut Vec<Ticket>) -> Ticket
    requires { All (IsTicketOf lot.now) tickets.old.items }
    ensures one { IsTicketOf lot.now result }
    ensures left { All (IsTicketOf lot.now) tickets.new.items }
{
    match next_of(lot, tickets) {
        Some(ticket) => ticket,
        None => panic!(rt; "no seat"),
    }
}

// Holds the fair mutex until another thread waits for it, and unlocks it by halves. Whether a second
// token saw it locked between them.
fn unlock_by_halves<R: Wait>(
    rt: &R,
    lot: &ParkingLot,
    mutex: &RawFairMutex,
    own: Ticket,
    other: Ticket,
    held: &AtomicBool,
) -> bool
    requires { IsTicketOf lot.now own × IsTicketOf lot.now other × (lot_of mutex.now ≡ lot.now) }
{
    let (mut token, mut beside) = (own.enter(), other.enter());
    let guard = mutex.lock(rt, &mut token);
    held.store(true, SeqCst);
    let came = is_waited_for(rt, lot, mutex.key(), &mut token);
    let mut stayed = false;
    if let Some(seen) = mutex.unlock_fast(lot, &mut token, guard) {
        stayed = mutex.is_locked(&mut beside);
        mutex.unlock_slow(rt, &mut token, seen);
    }
    drop(token.leave());
    drop(beside.leave());
    came && stayed
}

// Locks the fair mutex once it is held, and unlocks it.
fn take_held<R: Wait>(
    rt: &R,
    lot: &ParkingLot,
    mutex: &RawFairMutex,
    ticket: Ticket,
    held: &AtomicBool,
)
    requires { IsTicketOf lot.now ticket × (lot_of mutex.now ≡ lot.now) }
{
    let mut token = ticket.enter();
    wait_until(rt, held);
    let guard = mutex.lock(rt, &mut token);
    mutex.unlock(rt, &mut token, guard);
    drop(token.leave());
}

#[test]
fn a_fair_mutex_stays_locked_between_the_halves_of_its_unlock(rt: HostRuntime) {
    let (lot, mut token, mut others) = seats(&rt, rt.alloc(), 1, 3);
    let mutex = fair_mutex_of(&rt, &lot, &mut token, 0u64);
    let own = token.leave();
    let beside = ticket_of(&rt, &lot, &mut others);
    let other = ticket_of(&rt, &lot, &mut others);
    let held = AtomicBool::new(false);
    let (rt, lot, raw, held) = (&rt, &*lot, mutex.raw(), &held);
    let (stayed, _) = join(
        rt,
        move || unlock_by_halves(rt, lot, raw, own, beside, held),
        move || take_held(rt, lot, raw, other, held),
    );
    check(rt, stayed);
}
