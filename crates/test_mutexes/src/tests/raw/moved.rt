//! A waiter that another thread moves to a queue in which it doesn't wait.
ghost use Rattle.std.specs.Prelude.{◌≡◌};
ghost use Rattle.parking_lot_core.specs.Tokens.{IsTokenOf};
ghost use Rattle.parking_lot.specs.LotOf.{lot_of};

use super::super::check_eq;
use super::super::fair::{is_waited_for, wait_until};
use super::timed::give_back;
use super::{Part, Told, play};
use parking_lot::lock_api::{RawMutex as RawLock, RawMutexTimed as RawTimedLock};
use parking_lot::{Clock, Key, Keys, Note, ParkingLot, RawMutex, Requeue, Token};
use std::sync::Wait;
use std::sync::atomic::AtomicBool;
use std::sync::atomic::Ordering::SeqCst;
use std::thread::yield_now;

// A key of no lock.
const ELSEWHERE: Key = 77;

// A clock on which a time is up once a flag is set.
#[derive(Drop)]
struct FlagClock<'a>(&'a AtomicBool);

impl Clock for FlagClock<'_> {
    ghost tells = { λ _ _. Unit {0} };

    fn now(&self) -> u64 {
        if self.0.load(SeqCst) { 2 } else { 0 }
    }

    fn pause(&self, _left: u64) {
        yield_now();
    }
}

// Waits for the mutex until the time is up. Whether it got it.
pub(super) fn wait_moved<R: Wait>(rt: &R, mutex: &RawMutex, token: &mut Token, told: &Told) -> bool
    requires { IsTokenOf (lot_of mutex.now) token.old }
    ensures { IsTokenOf (lot_of mutex.now) token.new }
{
    wait_until(rt, &told.held);
    let taken = mutex.try_lock_until(rt, token, &FlagClock(&told.up), 1);
    let got = give_back(rt, mutex, token, taken);
    told.gone.store(true, SeqCst);
    got
}

// Moves a thread that waits for the mutex to another queue, as nobody does that knows it.
fn move_away<R: Wait>(rt: &R, lot: &ParkingLot, mutex: &RawMutex, token: &mut Token)
    requires { IsTokenOf lot.now token.old × (lot_of mutex.now ≡ lot.now) }
    ensures { IsTokenOf lot.now token.new }
{
    let mut section = lot.enter(rt, token, Keys::Two(mutex.key(), ELSEWHERE));
    section.requeue(mutex.key(), ELSEWHERE, Requeue::One);
    section.leave(rt, token, Note::Normal).unwrap();
}

// Lets the mutex go once its waiter stands elsewhere, and the waiter's time be up then. Whether the
// waiter came, and nobody stands there in the end.
pub(super) fn hold_and_move<R: Wait>(
    rt: &R,
    lot: &ParkingLot,
    mutex: &RawMutex,
    token: &mut Token,
    told: &Told,
) -> bool
    requires { IsTokenOf lot.now token.old × (lot_of mutex.now ≡ lot.now) }
    ensures { IsTokenOf lot.now token.new }
{
    let guard = mutex.lock(rt, token);
    told.held.store(true, SeqCst);
    let came = is_waited_for(rt, lot, mutex.key(), token);
    move_away(rt, lot, mutex, token);
    mutex.unlock(rt, token, guard);
    told.up.store(true, SeqCst);
    wait_until(rt, &told.gone);
    came && lot.queued(rt, token, ELSEWHERE) == 0
}

#[test]
fn a_moved_waiter_that_is_late_leaves_its_new_queue(rt: HostRuntime) {
    check_eq(&rt, play(&rt, rt.alloc(), Part::Move), 2);
}
