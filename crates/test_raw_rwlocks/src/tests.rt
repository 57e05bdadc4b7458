//! Raw reader-writer locks of one thread.
mod crowds;
mod fixtures;
mod mixes;
mod scenes;
mod timed;

ghost use Rattle.std.specs.Prelude.{IfOk, IfSome, MatchResult};
ghost use Rattle.parking_lot_core.specs.Tokens.{IsTokenOf};
ghost use Rattle.parking_lot.specs.LotOf.{IsExclusiveOf, IsSharedOf, IsUpgradableOf};
ghost use Rattle.test_any_rwlock.specs.AnyLocks.{lot_of, word_of};

use fixtures::{AnyRwLock, Sort, lock_alone};
use parking_lot::{Fault, RawExclusiveGuard, RawSharedGuard, RawUpgradableGuard, Token};
use std::alloc::Global;
use std::process::Abort;
use std::sync::Wait;
use std::test::Fail;

// Asserts that a condition holds.
fn check(rt: &impl Abort, truth: bool) {
    assert!(rt; truth);
}

// Goes, where it came in to read. Whether it had, or nothing where it was refused.
fn goes<R: Wait>(
    rt: &R,
    lock: &AnyRwLock,
    token: &mut Token,
    came: Result<Option<RawSharedGuard>, Fault>,
) -> Option<bool>
    requires token { IsTokenOf (lot_of lock.now) token.old }
    requires guard { IfOk came
        (λ came. IfSome came (IsSharedOf (lot_of lock.now) (word_of lock.now))) }
    ensures { IsTokenOf (lot_of lock.now) token.new }
{
    match came {
        Ok(Some(guard)) => {
            lock.unlock_shared(rt, token, guard);
            Some(true)
        }
        Ok(None) => Some(false),
        Err(_) => None,
    }
}

// Goes on with the upgradable right.
fn goes_upgradable<R: Wait>(
    rt: &R,
    lock: &AnyRwLock,
    token: &mut Token,
    came: Result<Option<RawUpgradableGuard>, Fault>,
) -> Option<bool>
    requires token { IsTokenOf (lot_of lock.now) token.old }
    requires guard { IfOk came
        (λ came. IfSome came (IsUpgradableOf (lot_of lock.now) (word_of lock.now))) }
    ensures { IsTokenOf (lot_of lock.now) token.new }
{
    match came {
        Ok(Some(guard)) => {
            lock.unlock_upgradable(rt, token, guard);
            Some(true)
        }
        Ok(None) => Some(false),
        Err(_) => None,
    }
}

// Goes on as a writer.
fn goes_writing<R: Wait>(
    rt: &R,
    lock: &AnyRwLock,
    token: &mut Token,
    came: Option<RawExclusiveGuard>,
) -> bool
    requires token { IsTokenOf (lot_of lock.now) token.old }
    requires guard { IfSome came (IsExclusiveOf (lot_of lock.now) (word_of lock.now)) }
    ensures { IsTokenOf (lot_of lock.now) token.new }
{
    match came {
        Some(guard) => {
            lock.unlock_exclusive(rt, token, guard);
            true
        }
        None => false,
    }
}

// Returns whether a try to read gets the lock.
fn reads<R: Wait>(rt: &R, lock: &AnyRwLock, token: &mut Token) -> bool
    requires { IsTokenOf (lot_of lock.now) token.old }
    ensures { IsTokenOf (lot_of lock.now) token.new }
{
    let came = lock.try_lock_shared(rt, token);
    matches!(goes(rt, lock, token, came), Some(true))
}

// Returns whether a try to come in with the upgradable right gets it.
fn comes_upgradable<R: Wait>(rt: &R, lock: &AnyRwLock, token: &mut Token) -> bool
    requires { IsTokenOf (lot_of lock.now) token.old }
    ensures { IsTokenOf (lot_of lock.now) token.new }
{
    let came = lock.try_lock_upgradable(rt, token);
    matches!(goes_upgradable(rt, lock, token, came), Some(true))
}

// Returns whether a try to own the lock alone gets it.
fn writes<R: Wait>(rt: &R, lock: &AnyRwLock, token: &mut Token) -> bool
    requires { IsTokenOf (lot_of lock.now) token.old }
    ensures { IsTokenOf (lot_of lock.now) token.new }
{
    let came = lock.try_lock_exclusive(token);
    goes_writing(rt, lock, token, came)
}

/// What one look at a lock tells: whether it is held, and is held alone, and which tries get it.
#[derive(Clone, Copy, PartialEq, Eq)]
struct Seen {
    locked: bool,
    exclusively: bool,
    reads: bool,
    comes_upgradable: bool,
    writes: bool,
}

// Looks at a lock, and tries it with each right.
fn look<R: Wait>(rt: &R, lock: &AnyRwLock, token: &mut Token) -> Seen
    requires { IsTokenOf (lot_of lock.now) token.old }
    ensures { IsTokenOf (lot_of lock.now) token.new }
{
    Seen {
        locked: lock.is_locked(token),
        exclusively: lock.is_locked_exclusive(token),
        reads: reads(rt, lock, token),
        comes_upgradable: comes_upgradable(rt, lock, token),
        writes: writes(rt, lock, token),
    }
}

const FREE: Seen = Seen {
    locked: false,
    exclusively: false,
    reads: true,
    comes_upgradable: true,
    writes: true,
};

const READ: Seen = Seen {
    locked: true,
    exclusively: false,
    reads: true,
    comes_upgradable: true,
    writes: false,
};

const UPGRADABLE: Seen = Seen {
    locked: true,
    exclusively: false,
    reads: true,
    comes_upgradable: false,
    writes: false,
};

const WRITTEN: Seen = Seen {
    locked: true,
    exclusively: true,
    reads: false,
    comes_upgradable: false,
    writes: false,
};

// Checks all that is seen beside a reader, and after it.
fn sees_readers<R: Wait>(rt: &R, lock: &AnyRwLock, token: &mut Token) -> bool
    requires { IsTokenOf (lot_of lock.now) token.old }
    ensures { IsTokenOf (lot_of lock.now) token.new }
{
    let Ok(guard) = lock.lock_shared(rt, token) else {
        return false;
    };
    let beside = look(rt, lock, token);
    lock.unlock_shared(rt, token, guard);
    beside == READ && look(rt, lock, token) == FREE
}

// Sees upgradable owners, and becomes a reader.
fn sees_upgradables<R: Wait>(rt: &R, lock: &AnyRwLock, token: &mut Token) -> bool
    requires { IsTokenOf (lot_of lock.now) token.old }
    ensures { IsTokenOf (lot_of lock.now) token.new }
{
    let Ok(guard) = lock.lock_upgradable(rt, token) else {
        return false;
    };
    let beside = look(rt, lock, token);
    let guard = lock.downgrade_upgradable(rt, token, guard);
    let turned = look(rt, lock, token);
    lock.unlock_shared(rt, token, guard);
    beside == UPGRADABLE && turned == READ
}

// Sees writers, and becomes a reader.
fn sees_writers<R: Wait>(rt: &R, lock: &AnyRwLock, token: &mut Token) -> bool
    requires { IsTokenOf (lot_of lock.now) token.old }
    ensures { IsTokenOf (lot_of lock.now) token.new }
{
    let guard = lock.lock_exclusive(rt, token);
    let beside = look(rt, lock, token);
    let guard = lock.downgrade(rt, token, guard);
    let turned = look(rt, lock, token);
    lock.unlock_shared(rt, token, guard);
    beside == WRITTEN && turned == READ
}

// Sees a writer that has the upgradable right then, and is a writer again.
fn sees_turns<R: Wait>(rt: &R, lock: &AnyRwLock, token: &mut Token) -> bool
    requires { IsTokenOf (lot_of lock.now) token.old }
    ensures { IsTokenOf (lot_of lock.now) token.new }
{
    let guard = lock.lock_exclusive(rt, token);
    let guard = lock.downgrade_to_upgradable(rt, token, guard);
    let lesser = look(rt, lock, token);
    let guard = lock.upgrade(rt, token, guard);
    let greater = look(rt, lock, token);
    lock.unlock_exclusive(rt, token, guard);
    lesser == UPGRADABLE && greater == WRITTEN && look(rt, lock, token) == FREE
}

// Looks, and goes. Whether it had become a writer, and what was seen.
fn look_and_go<R: Wait>(
    rt: &R,
    lock: &AnyRwLock,
    token: &mut Token,
    turned: Result<RawExclusiveGuard, RawUpgradableGuard>,
) -> (bool, Seen)
    requires token { IsTokenOf (lot_of lock.now) token.old }
    requires guard { MatchResult turned (IsExclusiveOf (lot_of lock.now) (word_of lock.now))
        (IsUpgradableOf (lot_of lock.now) (word_of lock.now)) }
    ensures { IsTokenOf (lot_of lock.now) token.new }
{
    let seen = look(rt, lock, token);
    match turned {
        Ok(guard) => {
            lock.unlock_exclusive(rt, token, guard);
            (true, seen)
        }
        Err(guard) => {
            lock.unlock_upgradable(rt, token, guard);
            (false, seen)
        }
    }
}

// A try to upgrade: whether it succeeded, and what was seen then.
fn try_to_upgrade<R: Wait>(rt: &R, lock: &AnyRwLock, token: &mut Token) -> (bool, Seen)
    requires { IsTokenOf (lot_of lock.now) token.old }
    ensures { IsTokenOf (lot_of lock.now) token.new }
{
    let Ok(guard) = lock.lock_upgradable(rt, token) else {
        return (false, FREE);
    };
    let turned = lock.try_upgrade(rt, token, guard);
    look_and_go(rt, lock, token, turned)
}

// Returns whether a try to upgrade fails beside another reader, keeps its right, and succeeds
// alone.
fn tries_to_upgrade<R: Wait>(rt: &R, lock: &AnyRwLock, token: &mut Token) -> bool
    requires { IsTokenOf (lot_of lock.now) token.old }
    ensures { IsTokenOf (lot_of lock.now) token.new }
{
    let Ok(reader) = lock.lock_shared(rt, token) else {
        return false;
    };
    let beside = try_to_upgrade(rt, lock, token);
    lock.unlock_shared(rt, token, reader);
    beside == (false, UPGRADABLE) && try_to_upgrade(rt, lock, token) == (true, WRITTEN)
}

// Returns whether all rights of a lock keep out the threads that they are to.
fn sees_all(sort: Sort, rt: &impl Wait, alloc: Global) -> Result<bool, Fault> {
    let (lock, mut token) = lock_alone(sort, alloc, 10)?;
    let held = sees_readers(rt, &lock, &mut token)
        && sees_upgradables(rt, &lock, &mut token)
        && sees_writers(rt, &lock, &mut token);
    let turned = sees_turns(rt, &lock, &mut token) && tries_to_upgrade(rt, &lock, &mut token);
    Ok(held && turned && look(rt, &lock, &mut token) == FREE)
}

#[test]
fn rights_keep_out_the_others(rt: HostRuntime) -> Result<(), Fail> {
    check(&rt, sees_all(Sort::Normal, &rt, rt.alloc())?);
    check(&rt, sees_all(Sort::Recursive, &rt, rt.alloc())?);
    Ok(())
}

// Returns whether the lock has as many readers as may share it.
fn is_full<R: Wait>(rt: &R, lock: &AnyRwLock, token: &mut Token) -> bool
    requires { IsTokenOf (lot_of lock.now) token.old }
    ensures { IsTokenOf (lot_of lock.now) token.new }
{
    match lock.lock_shared(rt, token) {
        Ok(guard) => {
            lock.unlock_shared(rt, token, guard);
            false
        }
        Err(fault) => fault == Fault::ReadersFull,
    }
}

// Returns whether two readers fill a lock, the second with the upgradable right, and one doesn't.
fn fills<R: Wait>(rt: &R, lock: &AnyRwLock, token: &mut Token) -> bool
    requires { IsTokenOf (lot_of lock.now) token.old }
    ensures { IsTokenOf (lot_of lock.now) token.new }
{
    let Ok(first) = lock.lock_upgradable(rt, token) else {
        return false;
    };
    let before = is_full(rt, lock, token);
    let filled = match lock.lock_shared(rt, token) {
        Ok(second) => {
            let full = is_full(rt, lock, token) && !reads(rt, lock, token);
            lock.unlock_shared(rt, token, second);
            full
        }
        Err(_) => false,
    };
    let afterwards = is_full(rt, lock, token);
    lock.unlock_upgradable(rt, token, first);
    filled && !before && !afterwards
}

#[test]
fn a_full_lock_refuses_readers(rt: HostRuntime) -> Result<(), Fail> {
    let (lock, mut token) = lock_alone(Sort::Normal, rt.alloc(), 2)?;
    check(&rt, fills(&rt, &lock, &mut token));
    check(&rt, look(&rt, &lock, &mut token) == FREE);
    Ok(())
}
