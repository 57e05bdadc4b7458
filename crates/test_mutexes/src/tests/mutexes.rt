//! Mutexes with a value.
ghost use Rattle.std.specs.Prelude.{◌≡◌};
ghost use Rattle.std.specs.Arc.{arc_value};
ghost use Rattle.parking_lot_core.specs.Tokens.{IsTokenOf};
ghost use Rattle.parking_lot.specs.LotOf.{lock_of, lot_of, value_of};

use super::{check, check_eq, lone, mutex_alone, mutex_of};
use parking_lot::{Fault, Mutex, MutexGuard, Token};
use std::alloc::Global;
use std::mem;
use std::process::Abort;
use std::sync::atomic::AtomicUsize;
use std::sync::atomic::Ordering::SeqCst;
use std::sync::{Arc, Wait};

// Writes through a guard, which stays that of its mutex.
fn cleared<'a>(mut guard: MutexGuard<'a, u8>) -> MutexGuard<'a, u8>
    ensures lock { lock_of result ≡ lock_of guard.entry }
    ensures value { value_of result ≡ 0 }
{
    *guard = 0;
    guard
}

// Puts another value under the mutex, and answers the one before.
fn replace<R: Wait>(rt: &R, mutex: &Mutex<u8>, token: &mut Token, value: u8) -> u8
    requires { IsTokenOf (lot_of mutex.now) token.old }
    ensures { IsTokenOf (lot_of mutex.now) token.new }
{
    mutex.with(rt, token, move |found: &mut u8| mem::replace(found, value))
}

// Clears the value, through a guard that goes about.
fn clear<R: Wait>(rt: &R, mutex: &Mutex<u8>, token: &mut Token) -> u8
    requires { IsTokenOf (lot_of mutex.now) token.old }
    ensures { IsTokenOf (lot_of mutex.now) token.new }
{
    let guard = mutex.lock(rt, token);
    let before = *guard;
    cleared(guard).unlock(rt, token);
    before
}

#[test]
fn what_was_written_is_there(rt: HostRuntime) {
    let (mutex, mut token) = mutex_alone(&rt, rt.alloc(), 5);
    let seen = [
        replace(&rt, &mutex, &mut token, 7),
        clear(&rt, &mutex, &mut token),
        mutex.replace(&rt, &mut token, 1),
    ];
    check_eq(&rt, seen, [5, 7, 0]);
}

#[test]
fn a_value_that_is_set_is_got(rt: HostRuntime) {
    let (mutex, mut token) = mutex_alone(&rt, rt.alloc(), 5);
    let before = mutex.get(&rt, &mut token);
    mutex.set(&rt, &mut token, 9);
    let seen = [before, mutex.get(&rt, &mut token)];
    check_eq(&rt, seen, [5, 9]);
    check(&rt, !mutex.is_locked(&mut token));
}

// Pushes under the mutex. Whether that value alone is there.
fn push<R: Wait>(rt: &R, mutex: &Mutex<Vec<u8>>, token: &mut Token) -> bool
    requires { IsTokenOf (lot_of mutex.now) token.old }
{
    let mut guard = mutex.lock(rt, token);
    let pushed = guard.push(3).is_ok();
    let is_alone = guard.as_slice() == [3].as_slice();
    guard.unlock(rt, token);
    pushed && is_alone
}

#[test]
fn a_guard_lends_its_value(rt: HostRuntime) {
    let (mutex, mut token) = mutex_alone(&rt, rt.alloc(), Vec::new(rt.alloc()));
    check(&rt, push(&rt, &mutex, &mut token));
    check_eq(&rt, mutex.into_inner().as_slice(), [3].as_slice());
}

// Returns whether the mutex is locked and a try gets it: before another try that gets it, under
// that one's guard, and after.
fn tries<R: Wait>(rt: &R, mutex: &Mutex<u8>, token: &mut Token) -> Option<[(bool, bool); 3]>
    requires { IsTokenOf (lot_of mutex.now) token.old }
{
    let before = look(rt, mutex, token);
    let guard = mutex.try_lock(token)?;
    let under = look(rt, mutex, token);
    guard.unlock(rt, token);
    Some([before, under, look(rt, mutex, token)])
}

fn look<R: Wait>(rt: &R, mutex: &Mutex<u8>, token: &mut Token) -> (bool, bool)
    requires { IsTokenOf (lot_of mutex.now) token.old }
    ensures { IsTokenOf (lot_of mutex.now) token.new }
{
    let locked = mutex.is_locked(token);
    match mutex.try_lock(token) {
        Some(guard) => {
            guard.unlock(rt, token);
            (locked, true)
        }
        None => (locked, false),
    }
}

#[test]
fn a_try_gets_a_free_mutex_alone(rt: HostRuntime) {
    let (mutex, mut token) = mutex_alone(&rt, rt.alloc(), 0);
    let seen = tries(&rt, &mutex, &mut token);
    check_eq(
        &rt,
        seen,
        Some([(false, true), (true, false), (false, true)]),
    );
}

// Adds 1 where nobody has the mutex. The sum.
fn add_where_free<R: Wait>(rt: &R, mutex: &Mutex<u8>, token: &mut Token) -> Option<u8>
    requires { IsTokenOf (lot_of mutex.now) token.old }
    ensures { IsTokenOf (lot_of mutex.now) token.new }
{
    mutex.try_with(rt, token, |value: &mut u8| {
        *value = value.wrapping_add(1);
        *value
    })
}

// Tries to add before a thread has the mutex, while it has it, and after.
fn add_around<R: Wait>(rt: &R, mutex: &Mutex<u8>, token: &mut Token) -> [Option<u8>; 3]
    requires { IsTokenOf (lot_of mutex.now) token.old }
{
    let before = add_where_free(rt, mutex, token);
    let guard = mutex.lock(rt, token);
    let beside = add_where_free(rt, mutex, token);
    guard.unlock(rt, token);
    [before, beside, add_where_free(rt, mutex, token)]
}

#[test]
fn a_closure_is_not_run_while_another_has_the_mutex(rt: HostRuntime) {
    let (mutex, mut token) = mutex_alone(&rt, rt.alloc(), 5);
    let sums = add_around(&rt, &mutex, &mut token);
    check_eq(&rt, sums, [Some(6), None, Some(7)]);
}

#[test]
fn the_value_comes_out(rt: HostRuntime) {
    let (mut mutex, mut token) = mutex_alone(&rt, rt.alloc(), 10);
    check_eq(&rt, replace(&rt, &mutex, &mut token, 15), 10);
    check_eq(&rt, *mutex.get_mut(), 15);
    *mutex.get_mut() = 20;
    check_eq(&rt, mutex.into_inner(), 20);
}

// Counts how often it is dropped.
struct Counts<'a>(&'a AtomicUsize);

impl Drop for Counts<'_> {
    fn drop(self) {
        let Counts(drops) = self;
        drops.fetch_add(1, SeqCst);
    }
}

#[test]
fn the_value_is_dropped_once(rt: HostRuntime) {
    let drops = AtomicUsize::new(0);
    let (mutex, _token) = mutex_alone(&rt, rt.alloc(), Counts(&drops));
    let value = mutex.into_inner();
    check_eq(&rt, drops.load(SeqCst), 0);
    drop(value);
    check_eq(&rt, drops.load(SeqCst), 1);
}

#[test]
fn the_value_is_dropped_with_its_mutex(rt: HostRuntime) {
    let drops = AtomicUsize::new(0);
    let (mutex, _token) = mutex_alone(&rt, rt.alloc(), Counts(&drops));
    check_eq(&rt, drops.load(SeqCst), 0);
    drop(mutex);
    check_eq(&rt, drops.load(SeqCst), 1);
}

#[test]
fn a_value_that_is_replaced_is_dropped_once(rt: HostRuntime) {
    let drops = AtomicUsize::new(0);
    let (mutex, mut token) = mutex_alone(&rt, rt.alloc(), Counts(&drops));
    mutex.set(&rt, &mut token, Counts(&drops));
    check_eq(&rt, drops.load(SeqCst), 1);
    drop(mutex);
    check_eq(&rt, drops.load(SeqCst), 2);
}

#[test]
fn a_full_lot_gives_the_value_back(rt: HostRuntime) {
    let (lot, mut token) = lone(&rt, rt.alloc());
    let mutex = mutex_of(&rt, &lot, &mut token, 8);
    let refused = Mutex::new(&lot, &mut token, 9).err();
    check_eq(&rt, refused, Some((Fault::LotFull, 9)));
    check_eq(&rt, mutex.into_inner(), 8);
}

// A mutex that goes about with a thread of its lot.
#[derive(Drop)]
struct Room {
    mutex: Arc<Mutex<u64>>,
    token: Token,
    ghost met: { IsTokenOf (lot_of (arc_value mutex)) token },
}

impl Room {
    fn new<A: Abort>(rt: &A, alloc: Global) -> Room {
        let (mutex, token) = mutex_alone(rt, alloc, 1);
        match Arc::new(alloc, mutex) {
            Ok(mutex) => Room { mutex, token },
            Err(_) => panic!(rt; "no room"),
        }
    }

    fn double<R: Wait>(&mut self, rt: &R) -> u64 {
        let Room { mutex, token } = self;
        double(rt, mutex, token)
    }
}

fn double<R: Wait>(rt: &R, mutex: &Mutex<u64>, token: &mut Token) -> u64
    requires { IsTokenOf (lot_of mutex.now) token.old }
    ensures { IsTokenOf (lot_of mutex.now) token.new }
{
    mutex.with(rt, token, |value: &mut u64| {
        *value = value.wrapping_mul(2);
        *value
    })
}

fn double_inside<R: Wait>(rt: &R, mutex: &Mutex<Room>, token: &mut Token) -> u64
    requires { IsTokenOf (lot_of mutex.now) token.old }
    ensures { IsTokenOf (lot_of mutex.now) token.new }
{
    mutex.with(rt, token, move |room: &mut Room| room.double(rt))
}

#[test]
fn a_mutex_stands_inside_another(rt: HostRuntime) {
    let (mutex, mut token) = mutex_alone(&rt, rt.alloc(), Room::new(&rt, rt.alloc()));
    check_eq(&rt, double_inside(&rt, &mutex, &mut token), 2);
    check_eq(&rt, double_inside(&rt, &mutex, &mut token), 4);
}
