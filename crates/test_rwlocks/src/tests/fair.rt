//! Guards of reader-writer locks that are given up fairly, or bumped.
ghost use Rattle.std.specs.Prelude.{◌≡◌};
ghost use Rattle.parking_lot_core.specs.Tokens.{IsTokenOf};
ghost use Rattle.parking_lot.specs.LotOf.{lot_of_rwlock};

use super::crowds::{Part, play};
use super::guards::is_waited_for;
use super::{
    Lock, check, end_reader, end_upgradable, end_writer, read, read_upgradable, value_of, write,
};
use parking_lot::{ParkingLot, Token};
use std::alloc::Global;
use std::process::Abort;
use std::sync::Wait;
use std::sync::atomic::AtomicBool;
use std::thread::Threads;

// Returns whether a reader saw a writer come for which it gave the lock up, or which it let in by a
// bump.
fn give_as_reader<R: Wait>(
    rt: &R,
    lot: &ParkingLot,
    lock: &Lock,
    token: &mut Token,
    held: &AtomicBool,
    bumps: bool,
) -> bool
    requires { IsTokenOf lot.now token.old × (lot_of_rwlock lock.now ≡ lot.now) }
    ensures { IsTokenOf lot.now token.new }
{
    let Some(guard) = read(rt, lock, token) else {
        return false;
    };
    let came = is_waited_for(rt, lot, lock, token, held);
    if !bumps {
        guard.unlock_fair(rt, token);
        return came;
    }
    match guard.bump(rt, token) {
        Ok(guard) => end_reader(rt, token, guard) == 7 && came,
        Err(_) => false,
    }
}

// Gives the lock up fairly with the upgradable right.
fn give_as_upgradable<R: Wait>(
    rt: &R,
    lot: &ParkingLot,
    lock: &Lock,
    token: &mut Token,
    held: &AtomicBool,
    bumps: bool,
) -> bool
    requires { IsTokenOf lot.now token.old × (lot_of_rwlock lock.now ≡ lot.now) }
    ensures { IsTokenOf lot.now token.new }
{
    let Some(guard) = read_upgradable(rt, lock, token) else {
        return false;
    };
    let came = is_waited_for(rt, lot, lock, token, held);
    if !bumps {
        guard.unlock_fair(rt, token);
        return came;
    }
    match guard.bump(rt, token) {
        Ok(guard) => end_upgradable(rt, token, guard) == 7 && came,
        Err(_) => false,
    }
}

// Gives the lock up fairly as a writer.
fn give_as_writer<R: Wait>(
    rt: &R,
    lot: &ParkingLot,
    lock: &Lock,
    token: &mut Token,
    held: &AtomicBool,
    bumps: bool,
) -> bool
    requires { IsTokenOf lot.now token.old × (lot_of_rwlock lock.now ≡ lot.now) }
    ensures { IsTokenOf lot.now token.new }
{
    let guard = write(rt, lock, token);
    let came = is_waited_for(rt, lot, lock, token, held);
    if !bumps {
        guard.unlock_fair(rt, token);
        return came;
    }
    let guard = guard.bump(rt, token);
    end_writer(rt, token, guard) == 7 && came
}

#[derive(Clone, Copy)]
pub(super) enum Giver {
    Reader,
    Upgradable,
    Writer,
}

// Returns whether a writer waited, and had written by the time at which the giver read again.
pub(super) fn give<R: Wait>(
    rt: &R,
    lot: &ParkingLot,
    lock: &Lock,
    token: &mut Token,
    held: &AtomicBool,
    giver: Giver,
    bumps: bool,
) -> bool
    requires { IsTokenOf lot.now token.old × (lot_of_rwlock lock.now ≡ lot.now) }
    ensures { IsTokenOf lot.now token.new }
{
    let came = match giver {
        Giver::Reader => give_as_reader(rt, lot, lock, token, held, bumps),
        Giver::Upgradable => give_as_upgradable(rt, lot, lock, token, held, bumps),
        Giver::Writer => give_as_writer(rt, lot, lock, token, held, bumps),
    };
    value_of(rt, lock, token) == Some(7) && came
}

fn all_give<R: Threads + Wait + Abort + Sync>(rt: &R, alloc: Global, bumps: bool) {
    for giver in [Giver::Reader, Giver::Upgradable, Giver::Writer] {
        check(rt, play(rt, alloc, 2, 2, Part::Give(giver, bumps)).0);
    }
}

#[test]
fn a_waiter_is_handed_the_lock(rt: HostRuntime) {
    all_give(&rt, rt.alloc(), false);
}

#[test]
fn a_waiter_has_the_lock_during_a_bump(rt: HostRuntime) {
    all_give(&rt, rt.alloc(), true);
}
