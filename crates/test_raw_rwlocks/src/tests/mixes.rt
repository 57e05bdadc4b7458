//! Threads that do all that a reader-writer lock has, each in an order of its own.
ghost use Rattle.std.specs.Prelude.{IfOk, IfSome};
ghost use Rattle.parking_lot_core.specs.Tokens.{IsTokenOf};
ghost use Rattle.parking_lot.specs.LotOf.{IsExclusiveOf, IsSharedOf, IsUpgradableOf};
ghost use Rattle.test_any_rwlock.specs.AnyLocks.{lot_of, word_of};

use super::check;
use super::crowds::{Part, play};
use super::fixtures::{AnyRwLock, Inside, Sort};
use parking_lot::{Fault, RawExclusiveGuard, RawSharedGuard, RawUpgradableGuard, TickClock, Token};
use std::sync::Wait;
use std::test::Fail;

const ROUNDS: usize = 300;

// Reads where it came in, and goes.
fn read_by<R: Wait>(
    rt: &R,
    lock: &AnyRwLock,
    token: &mut Token,
    inside: &Inside,
    came: Result<Option<RawSharedGuard>, Fault>,
)
    requires token { IsTokenOf (lot_of lock.now) token.old }
    requires guard { IfOk came
        (λ came. IfSome came (IsSharedOf (lot_of lock.now) (word_of lock.now))) }
    ensures { IsTokenOf (lot_of lock.now) token.new }
{
    match came {
        Ok(Some(guard)) => {
            inside.read();
            lock.unlock_shared(rt, token, guard);
        }
        _ => {}
    }
}

// Reads with the upgradable right.
fn read_upgradable_by<R: Wait>(
    rt: &R,
    lock: &AnyRwLock,
    token: &mut Token,
    inside: &Inside,
    came: Result<Option<RawUpgradableGuard>, Fault>,
)
    requires token { IsTokenOf (lot_of lock.now) token.old }
    requires guard { IfOk came
        (λ came. IfSome came (IsUpgradableOf (lot_of lock.now) (word_of lock.now))) }
    ensures { IsTokenOf (lot_of lock.now) token.new }
{
    match came {
        Ok(Some(guard)) => {
            inside.read_upgradable();
            lock.unlock_upgradable(rt, token, guard);
        }
        _ => {}
    }
}

// Writes.
fn write_by<R: Wait>(
    rt: &R,
    lock: &AnyRwLock,
    token: &mut Token,
    inside: &Inside,
    came: Option<RawExclusiveGuard>,
)
    requires token { IsTokenOf (lot_of lock.now) token.old }
    requires guard { IfSome came (IsExclusiveOf (lot_of lock.now) (word_of lock.now)) }
    ensures { IsTokenOf (lot_of lock.now) token.new }
{
    match came {
        Some(guard) => {
            inside.write();
            lock.unlock_exclusive(rt, token, guard);
        }
        None => {}
    }
}

fn read<R: Wait>(rt: &R, lock: &AnyRwLock, token: &mut Token, inside: &Inside)
    requires { IsTokenOf (lot_of lock.now) token.old }
    ensures { IsTokenOf (lot_of lock.now) token.new }
{
    match lock.lock_shared(rt, token) {
        Ok(guard) => read_by(rt, lock, token, inside, Ok(Some(guard))),
        Err(_) => {}
    }
}

fn write<R: Wait>(rt: &R, lock: &AnyRwLock, token: &mut Token, inside: &Inside)
    requires { IsTokenOf (lot_of lock.now) token.old }
    ensures { IsTokenOf (lot_of lock.now) token.new }
{
    let guard = lock.lock_exclusive(rt, token);
    write_by(rt, lock, token, inside, Some(guard));
}

// Reads, writes by an upgrade, and reads again in lesser and lesser rights.
fn go_up_and_down<R: Wait>(rt: &R, lock: &AnyRwLock, token: &mut Token, inside: &Inside)
    requires { IsTokenOf (lot_of lock.now) token.old }
    ensures { IsTokenOf (lot_of lock.now) token.new }
{
    let Ok(guard) = lock.lock_upgradable(rt, token) else {
        return;
    };
    inside.read_upgradable();
    let guard = lock.upgrade(rt, token, guard);
    inside.write();
    let guard = lock.downgrade_to_upgradable(rt, token, guard);
    inside.read_upgradable();
    let guard = lock.downgrade_upgradable(rt, token, guard);
    read_by(rt, lock, token, inside, Ok(Some(guard)));
}

// Writes, and reads.
fn go_down<R: Wait>(rt: &R, lock: &AnyRwLock, token: &mut Token, inside: &Inside)
    requires { IsTokenOf (lot_of lock.now) token.old }
    ensures { IsTokenOf (lot_of lock.now) token.new }
{
    let guard = lock.lock_exclusive(rt, token);
    inside.write();
    let guard = lock.downgrade(rt, token, guard);
    read_by(rt, lock, token, inside, Ok(Some(guard)));
}

// Upgrades where that succeeds before a deadline, or at once where there is none.
fn upgrade_soon<R: Wait>(
    rt: &R,
    lock: &AnyRwLock,
    token: &mut Token,
    inside: &Inside,
    deadline: Option<u64>,
)
    requires { IsTokenOf (lot_of lock.now) token.old }
    ensures { IsTokenOf (lot_of lock.now) token.new }
{
    let clock = TickClock::new();
    let Ok(guard) = lock.lock_upgradable(rt, token) else {
        return;
    };
    inside.read_upgradable();
    let turned = match deadline {
        Some(deadline) => lock.try_upgrade_until(rt, token, guard, &clock, deadline),
        None => lock.try_upgrade(rt, token, guard),
    };
    match turned {
        Ok(guard) => write_by(rt, lock, token, inside, Some(guard)),
        Err(guard) => read_upgradable_by(rt, lock, token, inside, Ok(Some(guard))),
    }
}

// All that may fail: within a time, and at once.
fn try_all<R: Wait>(rt: &R, lock: &AnyRwLock, token: &mut Token, inside: &Inside, deadline: u64)
    requires { IsTokenOf (lot_of lock.now) token.old }
    ensures { IsTokenOf (lot_of lock.now) token.new }
{
    let clock = TickClock::new();
    let came = lock.try_lock_exclusive_until(rt, token, &clock, deadline);
    write_by(rt, lock, token, inside, came);
    clock.restart();
    let came = lock.try_lock_shared_until(rt, token, &clock, deadline);
    read_by(rt, lock, token, inside, came);
    clock.restart();
    let came = lock.try_lock_upgradable_until(rt, token, &clock, deadline);
    read_upgradable_by(rt, lock, token, inside, came);
    let came = lock.try_lock_exclusive(token);
    write_by(rt, lock, token, inside, came);
    let came = lock.try_lock_shared(rt, token);
    read_by(rt, lock, token, inside, came);
    let came = lock.try_lock_upgradable(rt, token);
    read_upgradable_by(rt, lock, token, inside, came);
}

// Reads, bumps and gives its right up fairly: to read alone, with the upgradable right, and as a
// writer.
fn read_fairly<R: Wait>(rt: &R, lock: &AnyRwLock, token: &mut Token, inside: &Inside)
    requires { IsTokenOf (lot_of lock.now) token.old }
    ensures { IsTokenOf (lot_of lock.now) token.new }
{
    let Ok(guard) = lock.lock_shared(rt, token) else {
        return;
    };
    inside.read();
    if let Ok(guard) = lock.bump_shared(rt, token, guard) {
        inside.read();
        lock.unlock_shared_fair(rt, token, guard);
    }
}

fn read_upgradable_fairly<R: Wait>(rt: &R, lock: &AnyRwLock, token: &mut Token, inside: &Inside)
    requires { IsTokenOf (lot_of lock.now) token.old }
    ensures { IsTokenOf (lot_of lock.now) token.new }
{
    let Ok(guard) = lock.lock_upgradable(rt, token) else {
        return;
    };
    inside.read_upgradable();
    if let Ok(guard) = lock.bump_upgradable(rt, token, guard) {
        inside.read_upgradable();
        lock.unlock_upgradable_fair(rt, token, guard);
    }
}

fn write_fairly<R: Wait>(rt: &R, lock: &AnyRwLock, token: &mut Token, inside: &Inside)
    requires { IsTokenOf (lot_of lock.now) token.old }
    ensures { IsTokenOf (lot_of lock.now) token.new }
{
    let guard = lock.lock_exclusive(rt, token);
    inside.write();
    let guard = lock.bump_exclusive(rt, token, guard);
    inside.write();
    lock.unlock_exclusive_fair(rt, token, guard);
}

// Takes one turn of a thread, by a number.
fn turn<R: Wait>(rt: &R, lock: &AnyRwLock, token: &mut Token, inside: &Inside, number: usize)
    requires { IsTokenOf (lot_of lock.now) token.old }
    ensures { IsTokenOf (lot_of lock.now) token.new }
{
    match number % 10 {
        0 => write(rt, lock, token, inside),
        1 => go_up_and_down(rt, lock, token, inside),
        2 => go_down(rt, lock, token, inside),
        3 => upgrade_soon(rt, lock, token, inside, None),
        4 => upgrade_soon(rt, lock, token, inside, Some(9)),
        5 => try_all(rt, lock, token, inside, 5),
        6 => read_fairly(rt, lock, token, inside),
        7 => read_upgradable_fairly(rt, lock, token, inside),
        8 => write_fairly(rt, lock, token, inside),
        _ => read(rt, lock, token, inside),
    }
}

// Many turns of a thread, in an order of its own.
pub(super) fn mix<R: Wait>(
    rt: &R,
    lock: &AnyRwLock,
    token: &mut Token,
    inside: &Inside,
    start: usize,
) -> bool
    requires { IsTokenOf (lot_of lock.now) token.old }
    ensures { IsTokenOf (lot_of lock.now) token.new }
{
    for round in 0..ROUNDS {
        let number = start.wrapping_mul(round).wrapping_add(round / 5);
        turn(rt, lock, token, inside, number);
    }
    true
}

#[test]
fn six_threads_mix_all_calls(rt: HostRuntime) -> Result<(), Fail> {
    check(&rt, play(Sort::Normal, &rt, rt.alloc(), 6, Part::Mix)?);
    Ok(())
}

#[test]
fn six_threads_mix_all_calls_of_a_recursive_lock(rt: HostRuntime) -> Result<(), Fail> {
    check(&rt, play(Sort::Recursive, &rt, rt.alloc(), 6, Part::Mix)?);
    Ok(())
}
