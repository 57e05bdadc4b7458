//! Reader-writer locks with a value.
mod crowds;
mod fair;
mod guards;
mod recursive;
mod timed;
mod values;

ghost use Rattle.std.specs.Prelude.{◌≡◌, ◌<◌, ◌≤◌, All, IfSome};
ghost use Rattle.std.specs.Arc.{arc_value};
ghost use Rattle.lock_api_rw.specs.Guards.{lock_of};
ghost use Rattle.parking_lot_core.specs.Tokens.{IsTicketOf, IsTokenOf};
ghost use Rattle.parking_lot.specs.LotOf.{lot_of_rwlock};

use parking_lot::{
    ParkingLot, RwLock, RwLockReadGuard, RwLockUpgradableReadGuard, RwLockWriteGuard, Ticket, Token,
};
use std::alloc::Global;
use std::fmt::Debug;
use std::process::Abort;
use std::sync::{Arc, Wait};

// An act on a guard that several tests have is a function here, since a call by the trait of a lock
// is dear to prove, and a call of such a function is not.
type Lock = RwLock<u64>;

type Reader<'l> = RwLockReadGuard<'l, u64>;

type Upgradable<'l> = RwLockUpgradableReadGuard<'l, u64>;

type Writer<'l> = RwLockWriteGuard<'l, u64>;

// Asserts that the thing found is the thing wanted. All tests share this one assertion, since each
// is proved where it stands.
fn check_eq<T: PartialEq + Debug + Drop>(rt: &impl Abort, found: T, wanted: T) {
    assert_eq!(rt; found, wanted);
}

// Asserts that a condition holds.
fn check(rt: &impl Abort, truth: bool) {
    assert!(rt; truth);
}

fn next_of(lot: &ParkingLot, tickets: &mut Vec<Ticket>) -> Option<Ticket>
    requires { All (IsTicketOf lot.now) tickets.old.items }
    ensures left { All (IsTicketOf lot.now) tickets.new.items }
    ensures one { IfSome result (IsTicketOf lot.now) }
{
    tickets.pop()
}

// A lock, which only 1024 may share where it is limited. A maker of lots and locks gives up where
// memory is refused, so that no test has anything to drop in its midst.
fn lock_in<A: Abort>(
    rt: &A,
    lot: &Arc<ParkingLot>,
    token: &mut Token,
    value: u64,
    limited: bool,
) -> Lock
    requires { IsTokenOf (arc_value lot.now) token.old
        × ((arc_value lot.now).records.count ≤ 1024) }
    ensures token { IsTokenOf (arc_value lot.now) token.new }
    ensures lock { lot_of_rwlock result ≡ arc_value lot.now }
{
    let made = if limited {
        RwLock::with_limit(lot, token, value, 1024)
    } else {
        RwLock::new(lot, token, value)
    };
    match made {
        Ok(lock) => lock,
        Err(_) => panic!(rt; "no lock"),
    }
}

// Keeps so many of the tickets.
fn keep(lot: &ParkingLot, tickets: &mut Vec<Ticket>, number: usize)
    requires { All (IsTicketOf lot.now) tickets.old.items }
    ensures { All (IsTicketOf lot.now) tickets.new.items }
{
    for _ in number..tickets.len() {
        drop(next_of(lot, tickets));
    }
}

// A lock in a lot of so many threads and one more, with the token of this one and the tickets of
// the others.
fn seats<A: Abort>(
    rt: &A,
    alloc: Global,
    others: usize,
    value: u64,
    limited: bool,
) -> (Arc<ParkingLot>, Lock, Token, Vec<Ticket>)
    requires { others < 100 }
    ensures { (lot_of_rwlock result.1 ≡ arc_value result.0) × IsTokenOf (arc_value result.0) result.2
        × All (IsTicketOf (arc_value result.0)) result.3.items }
{
    let Ok((lot, mut tickets)) = ParkingLot::new(alloc, 1, others + 1) else {
        panic!(rt; "no lot");
    };
    let Some(ticket) = next_of(&lot, &mut tickets) else {
        panic!(rt; "no seat");
    };
    let mut token = ticket.enter();
    let lock = lock_in(rt, &lot, &mut token, value, limited);
    (lot, lock, token, tickets)
}

// A lock that one thread has for itself.
fn lock_alone<A: Abort>(rt: &A, alloc: Global, value: u64, limited: bool) -> (Lock, Token)
    ensures { IsTokenOf (lot_of_rwlock result.0) result.1 }
{
    let (_lot, lock, token, _others) = seats(rt, alloc, 0, value, limited);
    (lock, token)
}

// A guard to read, or nothing where that was refused.
fn read<'l, R: Wait>(rt: &R, lock: &'l Lock, token: &mut Token) -> Option<Reader<'l>>
    requires { IsTokenOf (lot_of_rwlock lock.now) token.old }
    ensures token { IsTokenOf (lot_of_rwlock lock.now) token.new }
    ensures guard { IfSome result (λ guard. lock_of guard ≡ lock.now) }
{
    match lock.read(rt, token) {
        Ok(guard) => Some(guard),
        Err(_) => None,
    }
}

// A guard to read and to write later.
fn read_upgradable<'l, R: Wait>(rt: &R, lock: &'l Lock, token: &mut Token) -> Option<Upgradable<'l>>
    requires { IsTokenOf (lot_of_rwlock lock.now) token.old }
    ensures token { IsTokenOf (lot_of_rwlock lock.now) token.new }
    ensures guard { IfSome result (λ guard. lock_of guard ≡ lock.now) }
{
    match lock.upgradable_read(rt, token) {
        Ok(guard) => Some(guard),
        Err(_) => None,
    }
}

fn write<'l, R: Wait>(rt: &R, lock: &'l Lock, token: &mut Token) -> Writer<'l>
    requires { IsTokenOf (lot_of_rwlock lock.now) token.old }
    ensures token { IsTokenOf (lot_of_rwlock lock.now) token.new }
    ensures guard { lock_of result ≡ lock.now }
{
    lock.write(rt, token)
}

// Returns the value that a guard shows. Each kind is dear to prove, and is asked here alone.
fn read_value(guard: &Reader<'_>) -> u64 {
    **guard
}

fn upgradable_value(guard: &Upgradable<'_>) -> u64 {
    **guard
}

fn written_value(guard: &Writer<'_>) -> u64 {
    **guard
}

// Reads, and goes: what it found.
fn end_reader<R: Wait>(rt: &R, token: &mut Token, guard: Reader<'_>) -> u64
    requires { IsTokenOf (lot_of_rwlock (lock_of guard)) token.old }
    ensures { IsTokenOf (lot_of_rwlock (lock_of guard.entry)) token.new }
{
    let found = read_value(&guard);
    guard.unlock(rt, token);
    found
}

fn end_upgradable<R: Wait>(rt: &R, token: &mut Token, guard: Upgradable<'_>) -> u64
    requires { IsTokenOf (lot_of_rwlock (lock_of guard)) token.old }
    ensures { IsTokenOf (lot_of_rwlock (lock_of guard.entry)) token.new }
{
    let found = upgradable_value(&guard);
    guard.unlock(rt, token);
    found
}

fn end_writer<R: Wait>(rt: &R, token: &mut Token, guard: Writer<'_>) -> u64
    requires { IsTokenOf (lot_of_rwlock (lock_of guard)) token.old }
    ensures { IsTokenOf (lot_of_rwlock (lock_of guard.entry)) token.new }
{
    let found = written_value(&guard);
    guard.unlock(rt, token);
    found
}

// Goes on with the right to read and to write later.
fn to_upgradable<'l, R: Wait>(rt: &R, token: &mut Token, guard: Writer<'l>) -> Upgradable<'l>
    requires { IsTokenOf (lot_of_rwlock (lock_of guard)) token.old }
    ensures token { IsTokenOf (lot_of_rwlock (lock_of guard.entry)) token.new }
    ensures guard { lock_of result ≡ lock_of guard.entry }
{
    guard.downgrade_to_upgradable(rt, token)
}

// Goes on as a reader.
fn to_reader<'l, R: Wait>(rt: &R, token: &mut Token, guard: Upgradable<'l>) -> Reader<'l>
    requires { IsTokenOf (lot_of_rwlock (lock_of guard)) token.old }
    ensures token { IsTokenOf (lot_of_rwlock (lock_of guard.entry)) token.new }
    ensures guard { lock_of result ≡ lock_of guard.entry }
{
    guard.downgrade(rt, token)
}

// Returns the value that a closure reads.
fn value_of<R: Wait>(rt: &R, lock: &Lock, token: &mut Token) -> Option<u64>
    requires { IsTokenOf (lot_of_rwlock lock.now) token.old }
    ensures { IsTokenOf (lot_of_rwlock lock.now) token.new }
{
    match lock.with_read(rt, token, |value: &u64| *value) {
        Ok(value) => Some(value),
        Err(_) => None,
    }
}

// Writes a value by a closure: what was there before.
fn replace<R: Wait>(rt: &R, lock: &Lock, token: &mut Token, new: u64) -> u64
    requires { IsTokenOf (lot_of_rwlock lock.now) token.old }
    ensures { IsTokenOf (lot_of_rwlock lock.now) token.new }
{
    lock.with_write(rt, token, move |value: &mut u64| {
        let before = *value;
        *value = new;
        before
    })
}

#[test]
fn what_was_written_is_read(rt: HostRuntime) {
    let (lock, mut token) = lock_alone(&rt, rt.alloc(), 5, false);
    // An `RwLock` is this one, by type.
    let mut lock: RwLock<u64> = lock;
    check_eq(&rt, replace(&rt, &lock, &mut token, 7), 5);
    check_eq(&rt, value_of(&rt, &lock, &mut token), Some(7));
    *lock.get_mut() = 20;
    check_eq(&rt, lock.into_inner(), 20);
}

// Returns whether a try to read comes in.
fn reads<R: Wait>(rt: &R, lock: &Lock, token: &mut Token) -> bool
    requires { IsTokenOf (lot_of_rwlock lock.now) token.old }
    ensures { IsTokenOf (lot_of_rwlock lock.now) token.new }
{
    match lock.try_read(rt, token) {
        Ok(Some(guard)) => {
            end_reader(rt, token, guard);
            true
        }
        _ => false,
    }
}

// Returns whether a try to read and to write later does.
fn comes_upgradable<R: Wait>(rt: &R, lock: &Lock, token: &mut Token) -> bool
    requires { IsTokenOf (lot_of_rwlock lock.now) token.old }
    ensures { IsTokenOf (lot_of_rwlock lock.now) token.new }
{
    match lock.try_upgradable_read(rt, token) {
        Ok(Some(guard)) => {
            end_upgradable(rt, token, guard);
            true
        }
        _ => false,
    }
}

// Returns whether a try to write does.
fn writes<R: Wait>(rt: &R, lock: &Lock, token: &mut Token) -> bool
    requires { IsTokenOf (lot_of_rwlock lock.now) token.old }
    ensures { IsTokenOf (lot_of_rwlock lock.now) token.new }
{
    match lock.try_write(token) {
        Some(guard) => {
            end_writer(rt, token, guard);
            true
        }
        None => false,
    }
}
