//! Threads that come to a lock that is held.
ghost use Rattle.parking_lot_core.specs.Tokens.{IsTokenOf};
ghost use Rattle.test_any_rwlock.specs.AnyLocks.{lot_of};

use super::super::fixtures::{AnyRwLock, await_flag};
use super::scene::{Coming, Scene, Told};
use parking_lot::{TickClock, Token};
use std::sync::Wait;
use std::sync::atomic::Ordering::SeqCst;

// No clock that a test has comes to it.
const NEVER: u64 = 18446744073709551615;

// Comes in, tells so, and goes.
fn come<R: Wait>(rt: &R, lock: &AnyRwLock, token: &mut Token, coming: Coming, told: &Told)
    requires { IsTokenOf (lot_of lock.now) token.old }
{
    match coming {
        Coming::Reader => match lock.lock_shared(rt, token) {
            Ok(guard) => {
                told.inside.read();
                told.note_coming();
                lock.unlock_shared(rt, token, guard);
            }
            Err(_) => {}
        },
        Coming::Upgradable => match lock.lock_upgradable(rt, token) {
            Ok(guard) => {
                told.inside.read_upgradable();
                told.note_coming();
                lock.unlock_upgradable(rt, token, guard);
            }
            Err(_) => {}
        },
        Coming::Writer => {
            let guard = lock.lock_exclusive(rt, token);
            told.inside.write();
            told.note_coming();
            lock.unlock_exclusive(rt, token, guard);
        }
        _ => come_in_time(rt, lock, token, coming, told),
    }
}

// Comes in before a deadline that never comes, tells so, and goes.
fn come_in_time<R: Wait>(rt: &R, lock: &AnyRwLock, token: &mut Token, coming: Coming, told: &Told)
    requires { IsTokenOf (lot_of lock.now) token.old }
{
    let clock = TickClock::new();
    match coming {
        Coming::TimedReader => match lock.try_lock_shared_until(rt, token, &clock, NEVER) {
            Ok(Some(guard)) => {
                told.inside.read();
                told.note_coming();
                lock.unlock_shared(rt, token, guard);
            }
            _ => {}
        },
        Coming::TimedUpgradable => match lock.try_lock_upgradable_until(rt, token, &clock, NEVER) {
            Ok(Some(guard)) => {
                told.inside.read_upgradable();
                told.note_coming();
                lock.unlock_upgradable(rt, token, guard);
            }
            _ => {}
        },
        _ => match lock.try_lock_exclusive_until(rt, token, &clock, NEVER) {
            Some(guard) => {
                told.inside.write();
                told.note_coming();
                lock.unlock_exclusive(rt, token, guard);
            }
            None => {}
        },
    }
}

// Comes in its role, once the lock is held.
pub(super) fn come_later<R: Wait>(
    rt: &R,
    lock: &AnyRwLock,
    token: &mut Token,
    scene: &Scene,
    told: &Told,
)
    requires { IsTokenOf (lot_of lock.now) token.old }
{
    await_flag(rt, &told.held);
    let role = told.roles.fetch_add(1, SeqCst);
    match scene.coming.get(role) {
        Some(coming) => come(rt, lock, token, *coming, told),
        None => {}
    }
}
