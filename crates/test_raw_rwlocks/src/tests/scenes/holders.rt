//! Threads that hold a lock until others wait for it, and let them in.
ghost use Rattle.std.specs.Prelude.{◌≡◌};
ghost use Rattle.parking_lot_core.specs.Tokens.{IsTokenOf};
ghost use Rattle.parking_lot.specs.LotOf.{IsExclusiveOf, IsSharedOf, IsUpgradableOf};
ghost use Rattle.test_any_rwlock.specs.AnyLocks.{lot_of, word_of};

use super::super::fixtures::{AnyRwLock, comes_to, queue_up};
use super::scene::{Manner, Scene, Told};
use parking_lot::{ParkingLot, RawExclusiveGuard, RawSharedGuard, RawUpgradableGuard, Token};
use std::sync::Wait;
use std::sync::atomic::Ordering::SeqCst;

// A writer goes for which others wait. Where it hands the lock over, whether somebody had it at
// once; where it bumps, whether somebody came in before it had the lock again.
fn go_alone<R: Wait>(
    rt: &R,
    lock: &AnyRwLock,
    token: &mut Token,
    manner: Manner,
    told: &Told,
    guard: RawExclusiveGuard,
) -> bool
    requires token { IsTokenOf (lot_of lock.now) token.old }
    requires guard { IsExclusiveOf (lot_of lock.now) (word_of lock.now) guard }
{
    match manner {
        Manner::Handed => {
            told.keep_inside(true);
            lock.unlock_exclusive_fair(rt, token, guard);
            let held = lock.is_locked(token);
            told.keep_inside(false);
            held
        }
        Manner::Bumped => {
            let guard = lock.bump_exclusive(rt, token, guard);
            let came = told.has_come();
            lock.unlock_exclusive(rt, token, guard);
            came
        }
        _ => {
            lock.unlock_exclusive(rt, token, guard);
            true
        }
    }
}

// Goes on with the upgradable right.
fn go_upgradable<R: Wait>(
    rt: &R,
    lock: &AnyRwLock,
    token: &mut Token,
    manner: Manner,
    told: &Told,
    guard: RawUpgradableGuard,
) -> bool
    requires token { IsTokenOf (lot_of lock.now) token.old }
    requires guard { IsUpgradableOf (lot_of lock.now) (word_of lock.now) guard }
{
    match manner {
        Manner::UpgradableHanded => {
            told.keep_inside(true);
            lock.unlock_upgradable_fair(rt, token, guard);
            let held = lock.is_locked(token);
            told.keep_inside(false);
            held
        }
        Manner::UpgradableBumped => match lock.bump_upgradable(rt, token, guard) {
            Ok(guard) => {
                let came = told.has_come();
                lock.unlock_upgradable(rt, token, guard);
                came
            }
            Err(_) => false,
        },
        _ => {
            lock.unlock_upgradable(rt, token, guard);
            true
        }
    }
}

// A reader bumps beside a writer that waits for it. Whether that came in.
fn go_shared<R: Wait>(
    rt: &R,
    lock: &AnyRwLock,
    token: &mut Token,
    told: &Told,
    guard: RawSharedGuard,
) -> bool
    requires token { IsTokenOf (lot_of lock.now) token.old }
    requires guard { IsSharedOf (lot_of lock.now) (word_of lock.now) guard }
{
    match lock.bump_shared(rt, token, guard) {
        Ok(guard) => {
            let came = told.has_come();
            lock.unlock_shared_fair(rt, token, guard);
            came
        }
        Err(_) => false,
    }
}

// Holds the lock alone until all stand in its queues, and lets them in. Whether they stood, and
// came beside it.
fn hold_alone<R: Wait>(
    rt: &R,
    lot: &ParkingLot,
    lock: &AnyRwLock,
    token: &mut Token,
    scene: &Scene,
    told: &Told,
) -> bool
    requires { IsTokenOf lot.now token.old × (lot_of lock.now ≡ lot.now) }
{
    let guard = lock.lock_exclusive(rt, token);
    told.held.store(true, SeqCst);
    let stood = queue_up(rt, lot, lock, token, scene.main, scene.second);
    let came = match scene.manner {
        Manner::Downgraded => {
            let guard = lock.downgrade(rt, token, guard);
            let came = comes_to(&told.came, scene.beside);
            lock.unlock_shared(rt, token, guard);
            came
        }
        Manner::ToUpgradable => {
            let guard = lock.downgrade_to_upgradable(rt, token, guard);
            let came = comes_to(&told.came, scene.beside);
            lock.unlock_upgradable(rt, token, guard);
            came
        }
        _ => go_alone(rt, lock, token, scene.manner, told, guard),
    };
    stood && came
}

// Holds the upgradable right.
fn hold_upgradable<R: Wait>(
    rt: &R,
    lot: &ParkingLot,
    lock: &AnyRwLock,
    token: &mut Token,
    scene: &Scene,
    told: &Told,
) -> bool
    requires { IsTokenOf lot.now token.old × (lot_of lock.now ≡ lot.now) }
{
    let Ok(guard) = lock.lock_upgradable(rt, token) else {
        return false;
    };
    told.held.store(true, SeqCst);
    let stood = queue_up(rt, lot, lock, token, scene.main, scene.second);
    match scene.manner {
        Manner::UpgradableToReader => {
            let guard = lock.downgrade_upgradable(rt, token, guard);
            let came = comes_to(&told.came, scene.beside);
            lock.unlock_shared(rt, token, guard);
            stood && came
        }
        _ => {
            let went = go_upgradable(rt, lock, token, scene.manner, told, guard);
            stood && went
        }
    }
}

// Returns whether a reader comes in, which goes then.
fn read<R: Wait>(rt: &R, lock: &AnyRwLock, token: &mut Token) -> bool
    requires { IsTokenOf (lot_of lock.now) token.old }
    ensures { IsTokenOf (lot_of lock.now) token.new }
{
    match lock.lock_shared(rt, token) {
        Ok(guard) => {
            lock.unlock_shared(rt, token, guard);
            true
        }
        Err(_) => false,
    }
}

// Holds the lock as a reader until all stand in its queues, and lets them in. Whether they stood,
// and came in where it bumps, or it came in again.
fn hold_shared<R: Wait>(
    rt: &R,
    lot: &ParkingLot,
    lock: &AnyRwLock,
    token: &mut Token,
    scene: &Scene,
    told: &Told,
) -> bool
    requires { IsTokenOf lot.now token.old × (lot_of lock.now ≡ lot.now) }
{
    let Ok(guard) = lock.lock_shared(rt, token) else {
        return false;
    };
    told.held.store(true, SeqCst);
    let stood = queue_up(rt, lot, lock, token, scene.main, scene.second);
    let went = match scene.manner {
        Manner::ReaderBumped => go_shared(rt, lock, token, told, guard),
        Manner::ReaderAgain => {
            let again = read(rt, lock, token);
            lock.unlock_shared(rt, token, guard);
            again
        }
        _ => {
            lock.unlock_shared(rt, token, guard);
            true
        }
    };
    stood && went
}

pub(super) fn hold<R: Wait>(
    rt: &R,
    lot: &ParkingLot,
    lock: &AnyRwLock,
    token: &mut Token,
    scene: &Scene,
    told: &Told,
) -> bool
    requires { IsTokenOf lot.now token.old × (lot_of lock.now ≡ lot.now) }
{
    match scene.manner {
        Manner::Unlocked
        | Manner::Downgraded
        | Manner::ToUpgradable
        | Manner::Handed
        | Manner::Bumped => { hold_alone(rt, lot, lock, token, scene, told) }
        Manner::UpgradableToReader
        | Manner::UpgradableGone
        | Manner::UpgradableHanded
        | Manner::UpgradableBumped => { hold_upgradable(rt, lot, lock, token, scene, told) }
        Manner::ReaderGone | Manner::ReaderAgain | Manner::ReaderBumped => {
            hold_shared(rt, lot, lock, token, scene, told)
        }
    }
}
