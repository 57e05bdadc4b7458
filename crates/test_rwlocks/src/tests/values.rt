//! Values of reader-writer locks: several see one at once, conversions keep it, and each is dropped
//! once.
ghost use Rattle.std.specs.Prelude.{◌≡◌};
ghost use Rattle.lock_api_rw.specs.Guards.{lock_of};
ghost use Rattle.parking_lot_core.specs.Tokens.{IsTokenOf};
ghost use Rattle.parking_lot.specs.LotOf.{lot_of_rwlock};

use super::crowds::{Part, add_under, play};
use super::{
    Lock, Upgradable, check_eq, end_reader, end_upgradable, end_writer, lock_alone, next_of, read,
    read_upgradable, read_value, to_reader, to_upgradable, upgradable_value, write, written_value,
};
use parking_lot::{Fault, ParkingLot, RwLock, Token};
use std::alloc::Global;
use std::process::Abort;
use std::sync::Wait;
use std::sync::atomic::Ordering::SeqCst;
use std::sync::atomic::{AtomicU64, AtomicUsize};
use std::thread::yield_now;

// Waits until so many have come.
fn wait_until<R: Wait>(rt: &R, came: &AtomicUsize, wanted: usize) {
    for _ in rt.forever() {
        if came.load(SeqCst) == wanted {
            break;
        }
        yield_now();
    }
}

// Reads until so many do at once. Whether the value was whole throughout.
pub(super) fn read_together<R: Wait>(
    rt: &R,
    lock: &Lock,
    token: &mut Token,
    inside: &AtomicUsize,
    wanted: usize,
) -> bool
    requires { IsTokenOf (lot_of_rwlock lock.now) token.old }
    ensures { IsTokenOf (lot_of_rwlock lock.now) token.new }
{
    let Some(guard) = read(rt, lock, token) else {
        return false;
    };
    let before = read_value(&guard);
    inside.fetch_add(1, SeqCst);
    wait_until(rt, inside, wanted);
    end_reader(rt, token, guard) == before
}

#[test]
fn four_threads_read_a_value_at_once(rt: HostRuntime) {
    let inside = AtomicUsize::new(0);
    let found = play(&rt, rt.alloc(), 4, 4, Part::Meet(&inside, 4));
    check_eq(&rt, found, (true, 0));
}

// Two guards of one thread show the value at once: what they show.
fn shown_twice<R: Wait>(rt: &R, lock: &Lock, token: &mut Token) -> Option<(u64, u64)>
    requires { IsTokenOf (lot_of_rwlock lock.now) token.old }
    ensures { IsTokenOf (lot_of_rwlock lock.now) token.new }
{
    let later = read_upgradable(rt, lock, token)?;
    let Some(guard) = read(rt, lock, token) else {
        end_upgradable(rt, token, later);
        return None;
    };
    let shown = (upgradable_value(&later), read_value(&guard));
    end_reader(rt, token, guard);
    end_upgradable(rt, token, later);
    Some(shown)
}

type Tried = (Result<Option<u64>, Fault>, Option<u64>);

// Runs closures where the lock is free: what one reads, and what another writes.
fn try_both<R: Wait>(rt: &R, lock: &Lock, token: &mut Token) -> Tried
    requires { IsTokenOf (lot_of_rwlock lock.now) token.old }
    ensures { IsTokenOf (lot_of_rwlock lock.now) token.new }
{
    let read = lock.try_with_read(rt, token, |value: &u64| *value);
    let written = lock.try_with_write(rt, token, |value: &mut u64| {
        *value = value.wrapping_add(1);
        *value
    });
    (read, written)
}

// Tries while a writer has the lock, and after.
fn try_around<R: Wait>(rt: &R, lock: &Lock, token: &mut Token) -> [Tried; 2]
    requires { IsTokenOf (lot_of_rwlock lock.now) token.old }
    ensures { IsTokenOf (lot_of_rwlock lock.now) token.new }
{
    let guard = write(rt, lock, token);
    let beside = try_both(rt, lock, token);
    end_writer(rt, token, guard);
    [beside, try_both(rt, lock, token)]
}

#[test]
fn a_busy_lock_runs_no_closure(rt: HostRuntime) {
    let (lock, mut token) = lock_alone(&rt, rt.alloc(), 5, false);
    let tried = try_around(&rt, &lock, &mut token);
    check_eq(&rt, tried, [(Ok(None), None), (Ok(Some(5)), Some(6))]);
}

// Upgrades where nobody else reads, adds 1, and goes on as a reader by way of the upgradable right:
// what each right showed.
fn convert<R: Wait>(rt: &R, token: &mut Token, guard: Upgradable<'_>) -> Option<[u64; 4]>
    requires { IsTokenOf (lot_of_rwlock (lock_of guard)) token.old }
    ensures { IsTokenOf (lot_of_rwlock (lock_of guard.entry)) token.new }
{
    let first = upgradable_value(&guard);
    match guard.try_upgrade(rt, token) {
        Ok(guard) => {
            let (_, guard) = add_under(guard);
            let written = written_value(&guard);
            let guard = to_upgradable(rt, token, guard);
            let kept = upgradable_value(&guard);
            let guard = to_reader(rt, token, guard);
            Some([first, written, kept, end_reader(rt, token, guard)])
        }
        Err(guard) => {
            end_upgradable(rt, token, guard);
            None
        }
    }
}

// A conversion beside another reader, and one after it.
fn convert_twice<R: Wait>(rt: &R, lock: &Lock, token: &mut Token) -> [Option<[u64; 4]>; 2]
    requires { IsTokenOf (lot_of_rwlock lock.now) token.old }
    ensures { IsTokenOf (lot_of_rwlock lock.now) token.new }
{
    let Some(guard) = read(rt, lock, token) else {
        return [None, None];
    };
    let beside = convert_in(rt, lock, token);
    end_reader(rt, token, guard);
    [beside, convert_in(rt, lock, token)]
}

// Comes in with the upgradable right, and converts it.
fn convert_in<R: Wait>(rt: &R, lock: &Lock, token: &mut Token) -> Option<[u64; 4]>
    requires { IsTokenOf (lot_of_rwlock lock.now) token.old }
    ensures { IsTokenOf (lot_of_rwlock lock.now) token.new }
{
    let guard = read_upgradable(rt, lock, token)?;
    convert(rt, token, guard)
}

#[test]
fn rights_show_the_value_through_conversions(rt: HostRuntime) {
    let (lock, mut token) = lock_alone(&rt, rt.alloc(), 5, false);
    check_eq(&rt, shown_twice(&rt, &lock, &mut token), Some((5, 5)));
    check_eq(
        &rt,
        convert_twice(&rt, &lock, &mut token),
        [None, Some([5, 6, 6, 6])],
    );
    check_eq(&rt, lock.into_inner(), 6);
}

// A value whose drops are counted.
struct Counted<'a> {
    drops: &'a AtomicU64,
}

impl Drop for Counted<'_> {
    fn drop(self) {
        let Counted { drops } = self;
        drops.fetch_add(1, SeqCst);
    }
}

// A lock with such a value, which was opened to write and to read.
fn used<'a, R: Wait + Abort>(rt: &R, alloc: Global, drops: &'a AtomicU64) -> RwLock<Counted<'a>> {
    let Ok((lot, mut tickets)) = ParkingLot::new(alloc, 1, 1) else {
        panic!(rt; "no lot");
    };
    let Some(ticket) = next_of(&lot, &mut tickets) else {
        panic!(rt; "no seat");
    };
    let mut token = ticket.enter();
    let Ok(lock) = RwLock::new(&lot, &mut token, Counted { drops }) else {
        panic!(rt; "no lock");
    };
    let guard = lock.write(rt, &mut token);
    let guard = guard.downgrade(rt, &mut token);
    guard.unlock(rt, &mut token);
    lock
}

fn counts(drops: &AtomicU64) -> u64 {
    drops.load(SeqCst)
}

#[test]
fn a_value_is_dropped_once(rt: HostRuntime) {
    let drops = AtomicU64::new(0);
    let value = used(&rt, rt.alloc(), &drops).into_inner();
    check_eq(&rt, counts(&drops), 0);
    drop(value);
    check_eq(&rt, counts(&drops), 1);
    drop(used(&rt, rt.alloc(), &drops));
    check_eq(&rt, counts(&drops), 2);
    let mut lock = used(&rt, rt.alloc(), &drops);
    *lock.get_mut() = Counted { drops: &drops };
    check_eq(&rt, counts(&drops), 3);
    drop(lock);
    check_eq(&rt, counts(&drops), 4);
}
