//! Guards of a part of a value, the texts of locks that are shown, and reentrant mutexes.
mod aliases;
mod parts;
mod reentrant;
mod texts;

ghost use Rattle.std.specs.Prelude.{◌≡◌, ◌<◌, ◌≤◌};
ghost use Rattle.std.specs.Arc.{arc_value};
ghost use Rattle.parking_lot_core.specs.Tokens.{IsTokenOf};
ghost use Rattle.parking_lot.specs.LotOf.{lot_of, lot_of_rwlock};

use parking_lot::{Mutex, ParkingLot, RwLock, Token};
use std::alloc::Global;
use std::fmt::Debug;
use std::process::Abort;
use std::sync::Arc;

// Asserts that the thing found is the thing wanted. All tests share this one assertion, since each
// is proved where it stands.
fn check_eq<T: PartialEq + Debug + Drop>(rt: &impl Abort, found: T, wanted: T) {
    assert_eq!(rt; found, wanted);
}

// A lot of three words, with its one thread.
fn lone<A: Abort>(rt: &A, alloc: Global) -> (Arc<ParkingLot>, Token)
    ensures { IsTokenOf (arc_value result.0) result.1 }
{
    let Ok((lot, mut tickets)) = ParkingLot::new(alloc, 3, 1) else {
        panic!(rt; "no lot");
    };
    match tickets.pop() {
        Some(first) => (lot, first.enter()),
        None => panic!(rt; "no seat"),
    }
}

// A mutex that one thread has for itself.
fn mutex_alone<T: Drop, A: Abort>(rt: &A, alloc: Global, value: T) -> (Mutex<T>, Token)
    ensures { IsTokenOf (lot_of result.0) result.1 }
{
    let (lot, mut token) = lone(rt, alloc);
    match Mutex::new(&lot, &mut token, value) {
        Ok(mutex) => (mutex, token),
        Err(_) => panic!(rt; "no mutex"),
    }
}

// A reader-writer lock that one thread has for itself.
fn rwlock_alone<T: Drop, A: Abort>(rt: &A, alloc: Global, value: T) -> (RwLock<T>, Token)
    ensures { IsTokenOf (lot_of_rwlock result.0) result.1 }
{
    let (lot, mut token) = lone(rt, alloc);
    match RwLock::new(&lot, &mut token, value) {
        Ok(lock) => (lock, token),
        Err(_) => panic!(rt; "no lock"),
    }
}
