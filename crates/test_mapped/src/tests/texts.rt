//! The texts of locks that are shown.
ghost use Rattle.std.specs.Prelude.{◌≡◌};
ghost use Rattle.parking_lot_core.specs.Tokens.{IsTokenOf};
ghost use Rattle.parking_lot.specs.LotOf.{lot_of};

use super::{check_eq, lone, mutex_alone, rwlock_alone};
use parking_lot::lock_api_rw::{RawRwLock, RwLock};
use parking_lot::{Condvar, Fault, Mutex, Once, Token};
use std::alloc::Global;
use std::fmt::Debug;
use std::process::Abort;
use std::sync::Wait;

// The text of what is shown.
pub(super) fn text_of<A: Abort, T: Debug>(rt: &A, alloc: Global, shown: &T) -> String {
    match format!(in alloc; "{shown:?}") {
        Ok(text) => text,
        Err(_) => panic!(rt; "no memory"),
    }
}

fn free_text<R: Wait + Abort>(
    rt: &R,
    alloc: Global,
    mutex: &Mutex<[u8; 2]>,
    token: &mut Token,
) -> String
    requires { IsTokenOf (lot_of mutex.now) token.old }
    ensures { IsTokenOf (lot_of mutex.now) token.new }
{
    let shown = mutex.show(token);
    let text = text_of(rt, alloc, &shown);
    shown.close(rt, token);
    text
}

fn locked_text<R: Wait + Abort>(
    rt: &R,
    alloc: Global,
    mutex: &Mutex<[u8; 2]>,
    token: &mut Token,
) -> String
    requires { IsTokenOf (lot_of mutex.now) token.old }
    ensures { IsTokenOf (lot_of mutex.now) token.new }
{
    let guard = mutex.lock(rt, token);
    let text = free_text(rt, alloc, mutex, token);
    guard.unlock(rt, token);
    text
}

#[test]
fn a_mutex_shows_its_value_where_nobody_owns_it(rt: HostRuntime) {
    let (mutex, mut token) = mutex_alone(&rt, rt.alloc(), [0, 10]);
    let locked = locked_text(&rt, rt.alloc(), &mutex, &mut token);
    check_eq(&rt, locked.as_str(), "Mutex { data: <locked> }");
    let free = free_text(&rt, rt.alloc(), &mutex, &mut token);
    check_eq(&rt, free.as_str(), "Mutex { data: [0, 10] }");
    check_eq(&rt, mutex.is_locked(&mut token), false);
}

#[test]
fn a_once_and_a_condition_variable_show_themselves(rt: HostRuntime) -> Result<(), Fault> {
    let (lot, mut token) = lone(&rt, rt.alloc());
    let once = Once::new(&lot, &mut token)?;
    let new = text_of(&rt, rt.alloc(), &once.show(&mut token));
    check_eq(&rt, new.as_str(), "Once { state: New }");
    let condvar = Condvar::new(&lot, &mut token)?;
    let text = text_of(&rt, rt.alloc(), &condvar);
    check_eq(&rt, text.as_str(), "Condvar { .. }");
    Ok(())
}

// The texts of a lock that nobody has, and of one that somebody writes. It is proved for any raw
// lock, since each call of a known one is dear.
fn rwlock_texts<L: RawRwLock, R: Wait + Abort>(
    rt: &R,
    alloc: Global,
    lock: &RwLock<L, [u8; 2]>,
    token: &mut L::Token,
) -> (String, String)
    requires { L.is_token_of (L.lot_of lock.now) token.old }
{
    let shown = lock.show(rt, token);
    let free = text_of(rt, alloc, &shown);
    shown.close(rt, token);
    let guard = lock.write(rt, token);
    let shown = lock.show(rt, token);
    let locked = text_of(rt, alloc, &shown);
    shown.close(rt, token);
    guard.unlock(rt, token);
    (free, locked)
}

#[test]
fn a_reader_writer_lock_shows_its_value_where_nobody_writes(rt: HostRuntime) {
    let (lock, mut token) = rwlock_alone(&rt, rt.alloc(), [0, 10]);
    let (free, locked) = rwlock_texts(&rt, rt.alloc(), &lock, &mut token);
    check_eq(&rt, free.as_str(), "RwLock { data: [0, 10] }");
    check_eq(&rt, locked.as_str(), "RwLock { data: <locked> }");
}
