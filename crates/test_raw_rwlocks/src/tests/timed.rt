//! Waits for a reader-writer lock that end in time.
ghost use Rattle.std.specs.Prelude.{◌≡◌};
ghost use Rattle.parking_lot_core.specs.Tokens.{IsTokenOf};
ghost use Rattle.parking_lot.specs.LotOf.{IsSharedOf};
ghost use Rattle.test_any_rwlock.specs.AnyLocks.{lot_of, word_of};

use super::crowds::{Part, Told, play};
use super::fixtures::{AnyRwLock, Sort, await_flag, comes_to, lock_alone, queue_up};
use super::{
    FREE, READ, Seen, UPGRADABLE, WRITTEN, check, goes, goes_upgradable, goes_writing, look,
    look_and_go,
};
use parking_lot::{Clock, Fault, ParkingLot, RawSharedGuard, TickClock, Token};
use std::alloc::Global;
use std::sync::Wait;
use std::sync::atomic::Ordering::SeqCst;
use std::sync::atomic::{AtomicBool, AtomicUsize};
use std::test::Fail;
use std::thread::yield_now;
use std::time::Duration;

// A deadline that is come to soon, on a clock that begins at 0.
const EARLY: u64 = 20;

// As long a time, from the beginning of such a clock.
fn soon() -> Duration {
    Duration::from_nanos(EARLY)
}

// Returns whether a thread that gave up did so long before twice its time was up.
fn gave_up_soon(clock: &TickClock) -> bool {
    clock.now() < 2 * EARLY - 10
}

// Returns whether a reader that waits gives up, and soon.
fn reads_in_vain<R: Wait>(rt: &R, lock: &AnyRwLock, token: &mut Token, until: bool) -> bool
    requires { IsTokenOf (lot_of lock.now) token.old }
    ensures { IsTokenOf (lot_of lock.now) token.new }
{
    let clock = TickClock::new();
    let taken = if until {
        lock.try_lock_shared_until(rt, token, &clock, EARLY)
    } else {
        lock.try_lock_shared_for(rt, token, &clock, soon())
    };
    matches!(goes(rt, lock, token, taken), Some(false)) && gave_up_soon(&clock)
}

// Comes as an upgradable reader, in vain.
fn comes_upgradable_in_vain<R: Wait>(
    rt: &R,
    lock: &AnyRwLock,
    token: &mut Token,
    until: bool,
) -> bool
    requires { IsTokenOf (lot_of lock.now) token.old }
    ensures { IsTokenOf (lot_of lock.now) token.new }
{
    let clock = TickClock::new();
    let taken = if until {
        lock.try_lock_upgradable_until(rt, token, &clock, EARLY)
    } else {
        lock.try_lock_upgradable_for(rt, token, &clock, soon())
    };
    matches!(goes_upgradable(rt, lock, token, taken), Some(false)) && gave_up_soon(&clock)
}

// Comes as a writer, in vain.
fn writes_in_vain<R: Wait>(rt: &R, lock: &AnyRwLock, token: &mut Token, until: bool) -> bool
    requires { IsTokenOf (lot_of lock.now) token.old }
    ensures { IsTokenOf (lot_of lock.now) token.new }
{
    let clock = TickClock::new();
    let taken = if until {
        lock.try_lock_exclusive_until(rt, token, &clock, EARLY)
    } else {
        lock.try_lock_exclusive_for(rt, token, &clock, soon())
    };
    !goes_writing(rt, lock, token, taken) && gave_up_soon(&clock)
}

// Returns whether the waits for each right end without it, and soon.
fn waits_in_vain<R: Wait>(rt: &R, lock: &AnyRwLock, token: &mut Token, until: bool) -> bool
    requires { IsTokenOf (lot_of lock.now) token.old }
    ensures { IsTokenOf (lot_of lock.now) token.new }
{
    let read = reads_in_vain(rt, lock, token, until);
    let read_upgradable = comes_upgradable_in_vain(rt, lock, token, until);
    let written = writes_in_vain(rt, lock, token, until);
    read && read_upgradable && written
}

// Returns whether a thread that waits beside a writer gives up, and leaves the lock as it is.
fn gives_up_beside_a_writer<R: Wait>(rt: &R, lock: &AnyRwLock, token: &mut Token) -> bool
    requires { IsTokenOf (lot_of lock.now) token.old }
    ensures { IsTokenOf (lot_of lock.now) token.new }
{
    let guard = lock.lock_exclusive(rt, token);
    let in_vain = waits_in_vain(rt, lock, token, false);
    let until_in_vain = waits_in_vain(rt, lock, token, true);
    let beside = look(rt, lock, token);
    lock.unlock_exclusive(rt, token, guard);
    in_vain && until_in_vain && beside == WRITTEN && look(rt, lock, token) == FREE
}

// Waits to write beside a reader, whose guard comes back. It gives up in time: that a writer came
// in beside a reader is refuted by their guards.
fn give_up_beside<R: Wait>(
    rt: &R,
    lock: &AnyRwLock,
    token: &mut Token,
    guard: RawSharedGuard,
) -> RawSharedGuard
    requires token { IsTokenOf (lot_of lock.now) token.old }
    requires guard { IsSharedOf (lot_of lock.now) (word_of lock.now) guard }
    ensures token { IsTokenOf (lot_of lock.now) token.new }
    ensures guard { IsSharedOf (lot_of lock.now) (word_of lock.now) result }
{
    match lock.try_lock_exclusive_until(rt, token, &TickClock::new(), EARLY) {
        Some(writer) => lock.has_writer_and_reader(token, writer, guard),
        None => guard,
    }
}

// Returns whether a writer that waits beside a reader gives up, and readers come in then.
fn gives_up_beside_a_reader<R: Wait>(rt: &R, lock: &AnyRwLock, token: &mut Token) -> bool
    requires { IsTokenOf (lot_of lock.now) token.old }
    ensures { IsTokenOf (lot_of lock.now) token.new }
{
    let Ok(guard) = lock.lock_shared(rt, token) else {
        return false;
    };
    let guard = give_up_beside(rt, lock, token, guard);
    let beside = look(rt, lock, token);
    lock.unlock_shared(rt, token, guard);
    beside == READ && look(rt, lock, token) == FREE
}

// Tries whether an upgrade beside a reader gives up soon and keeps its right, and one alone
// doesn't.
fn upgrades_in_time<R: Wait>(rt: &R, lock: &AnyRwLock, token: &mut Token) -> Option<Seen>
    requires { IsTokenOf (lot_of lock.now) token.old }
    ensures { IsTokenOf (lot_of lock.now) token.new }
{
    let clock = TickClock::new();
    let Ok(guard) = lock.lock_upgradable(rt, token) else {
        return None;
    };
    let turned = lock.try_upgrade_for(rt, token, guard, &clock, soon());
    let (upgraded, seen) = look_and_go(rt, lock, token, turned);
    if upgraded || gave_up_soon(&clock) {
        Some(seen)
    } else {
        None
    }
}

fn upgrades_beside_a_reader<R: Wait>(rt: &R, lock: &AnyRwLock, token: &mut Token) -> bool
    requires { IsTokenOf (lot_of lock.now) token.old }
    ensures { IsTokenOf (lot_of lock.now) token.new }
{
    let Ok(guard) = lock.lock_shared(rt, token) else {
        return false;
    };
    let beside = upgrades_in_time(rt, lock, token);
    lock.unlock_shared(rt, token, guard);
    beside == Some(UPGRADABLE) && upgrades_in_time(rt, lock, token) == Some(WRITTEN)
}

fn all_give_up(sort: Sort, rt: &impl Wait, alloc: Global) -> Result<bool, Fault> {
    let (lock, mut token) = lock_alone(sort, alloc, 10)?;
    let given_up = gives_up_beside_a_writer(rt, &lock, &mut token)
        && gives_up_beside_a_reader(rt, &lock, &mut token);
    Ok(given_up && upgrades_beside_a_reader(rt, &lock, &mut token))
}

#[test]
fn a_waiter_gives_up_in_time(rt: HostRuntime) -> Result<(), Fail> {
    check(&rt, all_give_up(Sort::Normal, &rt, rt.alloc())?);
    check(&rt, all_give_up(Sort::Recursive, &rt, rt.alloc())?);
    Ok(())
}

// A clock on which a time is up once a flag is set.
#[derive(Drop)]
struct FlagClock<'a>(&'a AtomicBool);

impl Clock for FlagClock<'_> {
    ghost tells = { λ _ _. Unit {0} };

    fn now(&self) -> u64 {
        if self.0.load(SeqCst) { 1 } else { 0 }
    }

    fn pause(&self, _left: u64) {
        yield_now();
    }
}

// Waits beside a reader to own the lock alone, until the time is up. Whether it gave up.
fn write_in_vain<R: Wait>(
    rt: &R,
    lock: &AnyRwLock,
    token: &mut Token,
    clock: &FlagClock<'_>,
) -> bool
    requires { IsTokenOf (lot_of lock.now) token.old }
    ensures { IsTokenOf (lot_of lock.now) token.new }
{
    let came = lock.try_lock_exclusive_until(rt, token, clock, 1);
    !goes_writing(rt, lock, token, came)
}

// Waits beside a reader to upgrade, until the time is up. Returns whether it gave up, and a reader came
// in beside the upgradable right that it has still.
fn upgrade_in_vain<R: Wait>(
    rt: &R,
    lock: &AnyRwLock,
    token: &mut Token,
    clock: &FlagClock<'_>,
    came: &AtomicUsize,
) -> bool
    requires { IsTokenOf (lot_of lock.now) token.old }
    ensures { IsTokenOf (lot_of lock.now) token.new }
{
    let Ok(guard) = lock.lock_upgradable(rt, token) else {
        return false;
    };
    match lock.try_upgrade_until(rt, token, guard, clock, 1) {
        Ok(guard) => !goes_writing(rt, lock, token, Some(guard)),
        Err(guard) => {
            let let_in = comes_to(came, 1);
            lock.unlock_upgradable(rt, token, guard);
            let_in
        }
    }
}

// Waits once a reader holds the lock. Whether it gave up.
pub(super) fn give_up<R: Wait>(
    rt: &R,
    lock: &AnyRwLock,
    token: &mut Token,
    upgrades: bool,
    told: &Told,
) -> bool
    requires { IsTokenOf (lot_of lock.now) token.old }
    ensures { IsTokenOf (lot_of lock.now) token.new }
{
    await_flag(rt, &told.held);
    let clock = FlagClock(&told.up);
    if upgrades {
        upgrade_in_vain(rt, lock, token, &clock, &told.came)
    } else {
        write_in_vain(rt, lock, token, &clock)
    }
}

// Reads once a writer waits, which keeps it out at first.
pub(super) fn come_after<R: Wait>(
    rt: &R,
    lot: &ParkingLot,
    lock: &AnyRwLock,
    token: &mut Token,
    told: &Told,
) -> bool
    requires { IsTokenOf lot.now token.old × (lot_of lock.now ≡ lot.now) }
    ensures { IsTokenOf lot.now token.new }
{
    let aside = queue_up(rt, lot, lock, token, 0, 1);
    match lock.lock_shared(rt, token) {
        Ok(guard) => {
            told.came.fetch_add(1, SeqCst);
            lock.unlock_shared(rt, token, guard);
            aside
        }
        Err(_) => false,
    }
}

// Reads until the writer gave up, and another reader came in for that reason.
pub(super) fn read_on<R: Wait>(
    rt: &R,
    lot: &ParkingLot,
    lock: &AnyRwLock,
    token: &mut Token,
    told: &Told,
) -> bool
    requires { IsTokenOf lot.now token.old × (lot_of lock.now ≡ lot.now) }
    ensures { IsTokenOf lot.now token.new }
{
    let Ok(guard) = lock.lock_shared(rt, token) else {
        return false;
    };
    told.held.store(true, SeqCst);
    let stood = queue_up(rt, lot, lock, token, 1, 1);
    told.up.store(true, SeqCst);
    let came = comes_to(&told.came, 1);
    lock.unlock_shared(rt, token, guard);
    stood && came
}

#[test]
fn a_writer_that_gives_up_lets_readers_in(rt: HostRuntime) -> Result<(), Fail> {
    check(
        &rt,
        play(Sort::Normal, &rt, rt.alloc(), 3, Part::LetIn(false))?,
    );
    Ok(())
}

#[test]
fn an_upgrade_that_gives_up_lets_readers_in(rt: HostRuntime) -> Result<(), Fail> {
    check(
        &rt,
        play(Sort::Normal, &rt, rt.alloc(), 3, Part::LetIn(true))?,
    );
    Ok(())
}
