//! A reader of a recursive lock, which reads again.
ghost use Rattle.std.specs.Prelude.{◌≡◌};
ghost use Rattle.std.specs.Arc.{arc_value};
ghost use Rattle.lock_api_rw.specs.Guards.{lock_of};
ghost use Rattle.parking_lot_core.specs.Tokens.{IsTokenOf};
ghost use Rattle.parking_lot.specs.LotOf.{lot_of_rwlock};

use super::{check, next_of};
use parking_lot::{ParkingLot, RecursiveRwLock, RecursiveRwLockReadGuard, TickClock, Token};
use std::alloc::Global;
use std::process::Abort;
use std::sync::Wait;

// A lock that one thread has for itself.
fn lock_alone<A: Abort>(rt: &A, alloc: Global) -> (RecursiveRwLock<u64>, Token)
    ensures { IsTokenOf (lot_of_rwlock result.0) result.1 }
{
    let Ok((lot, mut tickets)) = ParkingLot::new(alloc, 1, 1) else {
        panic!(rt; "no lot");
    };
    let Some(ticket) = next_of(&lot, &mut tickets) else {
        panic!(rt; "no seat");
    };
    let mut token = ticket.enter();
    match RecursiveRwLock::new(&lot, &mut token, 3) {
        Ok(lock) => (lock, token),
        Err(_) => panic!(rt; "no lock"),
    }
}

// Waits to write while a reader is inside, whose guard comes back. It gives up in time: that a
// writer came in is refuted by their guards.
fn give_up<'l, R: Wait>(
    rt: &R,
    lock: &'l RecursiveRwLock<u64>,
    token: &mut Token,
    guard: RecursiveRwLockReadGuard<'l, u64>,
) -> RecursiveRwLockReadGuard<'l, u64>
    requires token { IsTokenOf (lot_of_rwlock lock.now) token.old }
    requires guard { lock_of guard ≡ lock.now }
    ensures token { IsTokenOf (lot_of_rwlock lock.now) token.new }
    ensures guard { lock_of result ≡ lock.now }
{
    match lock.try_write_until(rt, token, &TickClock::new(), 20) {
        Some(writer) => writer.has_reader(token, guard),
        None => guard,
    }
}

// Reads, and returns the value, or nothing where that was refused.
fn value_of<R: Wait>(rt: &R, lock: &RecursiveRwLock<u64>, token: &mut Token) -> Option<u64>
    requires { IsTokenOf (lot_of_rwlock lock.now) token.old }
    ensures { IsTokenOf (lot_of_rwlock lock.now) token.new }
{
    let Ok(guard) = lock.read(rt, token) else {
        return None;
    };
    let value = *guard;
    guard.unlock(rt, token);
    Some(value)
}

// Returns whether a reader reads again, after a writer that gave up in time.
fn reads_again<R: Wait>(rt: &R, lock: &RecursiveRwLock<u64>, token: &mut Token) -> bool
    requires { IsTokenOf (lot_of_rwlock lock.now) token.old }
{
    let Ok(guard) = lock.read(rt, token) else {
        return false;
    };
    let guard = give_up(rt, lock, token, guard);
    let again = value_of(rt, lock, token);
    let value = *guard;
    guard.unlock(rt, token);
    again == Some(value)
}

#[test]
fn a_reader_of_a_recursive_lock_reads_again(rt: HostRuntime) {
    let (lock, mut token) = lock_alone(&rt, rt.alloc());
    check(&rt, reads_again(&rt, &lock, &mut token));
}
