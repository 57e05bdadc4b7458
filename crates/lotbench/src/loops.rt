//! The loops over a lock, each a function of its own, which is inlined nowhere.
ghost use Rattle.std.specs.Prelude.{◌≡◌, []};
ghost use Rattle.lotbench.specs.Seats.{IsSeatOfLeast};

use crate::least::LeastLock;
use atomic_table::Seat;
use std::sync::Wait;
use std::thread::yield_now;

// Waits until the word is free, as no thread has to here: so a loop may wait, as a lock may.
#[cold]
#[inline(never)]
fn wait<R: Wait>(rt: &R, lock: &LeastLock) {
    for _ in rt.forever() {
        if lock.is_free() {
            break;
        }
        yield_now();
    }
}

// As a `Once` is called that is done. It may wait, as each of these may.
#[inline]
fn look<R: Wait>(rt: &R, lock: &LeastLock, seat: &mut Seat<(), ()>)
    requires { IsSeatOfLeast lock.now seat.old }
    ensures { IsSeatOfLeast lock.now seat.new }
{
    if lock.load(seat) != 0 {
        wait(rt, lock);
    }
}

// As a lock is taken.
#[inline]
fn take<R: Wait>(rt: &R, lock: &LeastLock, seat: &mut Seat<(), ()>)
    requires { IsSeatOfLeast lock.now seat.old }
    ensures { IsSeatOfLeast lock.now seat.new }
{
    if !lock.take(seat) {
        wait(rt, lock);
    }
}

// Gives the lock up.
#[inline]
fn give<R: Wait>(rt: &R, lock: &LeastLock, seat: &mut Seat<(), ()>)
    requires { IsSeatOfLeast lock.now seat.old }
    ensures { IsSeatOfLeast lock.now seat.new }
{
    if !lock.give(seat) {
        wait(rt, lock);
    }
}

#[cold]
#[inline(never)]
fn enter_after<R: Wait>(rt: &R, lock: &LeastLock, seat: &mut Seat<(), ()>) -> Seat<(), ()>
    requires { IsSeatOfLeast lock.now seat.old }
    ensures { IsSeatOfLeast lock.now seat.new × IsSeatOfLeast lock.now result × (result.me.1 ≡ []) }
{
    wait(rt, lock);
    lock.split(seat)
}

// As a lock is taken by a thread that owns it apart from its thread.
#[inline]
fn enter<R: Wait>(rt: &R, lock: &LeastLock, seat: &mut Seat<(), ()>) -> Seat<(), ()>
    requires { IsSeatOfLeast lock.now seat.old }
    ensures { IsSeatOfLeast lock.now seat.new × IsSeatOfLeast lock.now result × (result.me.1 ≡ []) }
{
    match lock.enter(seat) {
        Some(owner) => owner,
        None => enter_after(rt, lock, seat),
    }
}

// Gives the lock up.
#[inline]
fn leave<R: Wait>(rt: &R, lock: &LeastLock, seat: &mut Seat<(), ()>, owner: Seat<(), ()>)
    requires { IsSeatOfLeast lock.now seat.old × IsSeatOfLeast lock.now owner × (owner.me.1 ≡ []) }
    ensures { IsSeatOfLeast lock.now seat.new }
{
    if !lock.leave(seat, owner) {
        wait(rt, lock);
    }
}

/// A thread's word on its last section, until it steps again.
#[derive(Drop)]
pub(crate) struct Told {
    pub(crate) is_told: bool,
}

impl Told {
    // As a token forgets its last section.
    #[inline]
    fn forget(&mut self) {
        if self.is_told {
            self.clear();
        }
    }

    #[cold]
    #[inline(never)]
    fn clear(&mut self) {
        self.is_told = false;
    }
}

/// Looks at the word.
#[inline(never)]
pub(crate) fn look_often<R: Wait>(rt: &R, lock: &LeastLock, seat: &mut Seat<(), ()>, times: u64)
    requires { IsSeatOfLeast lock.now seat.old }
{
    for _ in 0..times {
        look(rt, lock, seat);
    }
}

/// Takes the lock and gives it up, with nothing that says which thread owns it.
#[inline(never)]
pub(crate) fn take_often<R: Wait>(rt: &R, lock: &LeastLock, seat: &mut Seat<(), ()>, times: u64)
    requires { IsSeatOfLeast lock.now seat.old }
{
    for _ in 0..times {
        take(rt, lock, seat);
        give(rt, lock, seat);
    }
}

/// Steps, splits off what the guard has apart from its thread, and joins it.
#[inline(never)]
pub(crate) fn hold_often<R: Wait>(rt: &R, lock: &LeastLock, seat: &mut Seat<(), ()>, times: u64)
    requires { IsSeatOfLeast lock.now seat.old }
{
    for _ in 0..times {
        let owner = enter(rt, lock, seat);
        leave(rt, lock, seat, owner);
    }
}

/// Steps, and asks each time whether a section is told.
#[inline(never)]
pub(crate) fn hold_told<R: Wait>(
    rt: &R,
    lock: &LeastLock,
    seat: &mut Seat<(), ()>,
    told: &mut Told,
    times: u64,
)
    requires { IsSeatOfLeast lock.now seat.old }
{
    for _ in 0..times {
        told.forget();
        let owner = enter(rt, lock, seat);
        told.forget();
        leave(rt, lock, seat, owner);
    }
}
