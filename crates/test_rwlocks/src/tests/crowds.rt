//! Crowds at reader-writer locks with a value, as the Rust crate's own tests have them.
ghost use Rattle.std.specs.Prelude.{◌≡◌, ◌<◌};
ghost use Rattle.lock_api_rw.specs.Guards.{lock_of};
ghost use Rattle.parking_lot_core.specs.Tokens.{IsTicketOf, IsTokenOf};
ghost use Rattle.parking_lot.specs.LotOf.{lot_of_rwlock};

use super::fair::{Giver, give};
use super::guards::read_twice;
use super::values::read_together;
use super::{
    Lock, Writer, check, check_eq, end_reader, end_writer, keep, read_upgradable, replace, seats,
    upgradable_value, value_of, write,
};
use parking_lot::{ParkingLot, Ticket, Token};
use parking_lot_core::pauses::{SHORT_PAUSE, pause};
use std::alloc::Global;
use std::process::Abort;
use std::sync::Wait;
use std::sync::atomic::Ordering::SeqCst;
use std::sync::atomic::{AtomicBool, AtomicU64, AtomicUsize};
use std::thread::{Threads, map_vec, yield_now};

const TIMES: u64 = 1000;

// The rounds for which a thread holds the lock: long enough for others to come meanwhile.
const LINGER: u32 = 8 * SHORT_PAUSE;

// The value while a thread writes.
const TORN: u64 = u64::MAX;

// Adds 1 to a value that is torn meanwhile, and returns the value before.
fn add_torn(value: &mut u64) -> u64 {
    let before = *value;
    *value = TORN;
    pause(LINGER);
    *value = before.wrapping_add(1);
    before
}

// Adds under a guard, which stays that of its lock.
pub(super) fn add_under<'l>(mut guard: Writer<'l>) -> (u64, Writer<'l>)
    ensures { lock_of result.1 ≡ lock_of guard.entry }
{
    let before = add_torn(&mut *guard);
    (before, guard)
}

// Adds a number of times. Whether it found the value whole each time.
fn add_torn_often(value: &mut u64, times: usize) -> bool {
    let mut whole = true;
    for _ in 0..times {
        whole = add_torn(value) != TORN && whole;
    }
    whole
}

// Adds 1 so often, under one guard.
fn add_at_once<R: Wait>(rt: &R, lock: &Lock, token: &mut Token, times: usize) -> bool
    requires { IsTokenOf (lot_of_rwlock lock.now) token.old }
    ensures { IsTokenOf (lot_of_rwlock lock.now) token.new }
{
    lock.with_write(rt, token, move |value: &mut u64| {
        add_torn_often(value, times)
    })
}

// Adds 1, goes on as a reader, and finds what it wrote.
fn add_and_read<R: Wait>(rt: &R, lock: &Lock, token: &mut Token) -> bool
    requires { IsTokenOf (lot_of_rwlock lock.now) token.old }
    ensures { IsTokenOf (lot_of_rwlock lock.now) token.new }
{
    let (before, guard) = add_under(write(rt, lock, token));
    let guard = guard.downgrade(rt, token);
    pause(LINGER);
    let found = end_reader(rt, token, guard);
    before != TORN && found == before.wrapping_add(1)
}

// Reads, and adds 1 by an upgrade. Whether it found the value whole, and the same after its
// upgrade.
fn add_by_upgrade<R: Wait>(rt: &R, lock: &Lock, token: &mut Token) -> bool
    requires { IsTokenOf (lot_of_rwlock lock.now) token.old }
    ensures { IsTokenOf (lot_of_rwlock lock.now) token.new }
{
    let Some(guard) = read_upgradable(rt, lock, token) else {
        return false;
    };
    let before = upgradable_value(&guard);
    pause(LINGER);
    let (found, guard) = add_under(guard.upgrade(rt, token));
    end_writer(rt, token, guard);
    found == before && before != TORN
}

// How 1 is added.
#[derive(Clone, Copy)]
pub(super) enum Way {
    Write,
    Downgrade,
    Upgrade,
}

// Adds 1 so often, each time under a guard of its own. Whether all was well each time.
fn add_often<R: Wait>(rt: &R, lock: &Lock, token: &mut Token, way: Way, times: usize) -> bool
    requires { IsTokenOf (lot_of_rwlock lock.now) token.old }
    ensures { IsTokenOf (lot_of_rwlock lock.now) token.new }
{
    let mut well = true;
    for _ in 0..times {
        let found = match way {
            Way::Write => add_at_once(rt, lock, token, 1),
            Way::Downgrade => add_and_read(rt, lock, token),
            Way::Upgrade => add_by_upgrade(rt, lock, token),
        };
        well = found && well;
    }
    well
}

// Returns whether a thread writes next: one time in ten, by numbers that are the same in each run.
fn writes_next(number: &mut u64) -> bool {
    *number = number
        .wrapping_mul(6364136223846793005)
        .wrapping_add(1442695040888963407);
    (*number >> 33) % 10 == 0
}

// Adds 1 or reads, many times, and tells how often it wrote.
fn come_often<R: Wait>(rt: &R, lock: &Lock, token: &mut Token, written: &AtomicU64) -> bool
    requires { IsTokenOf (lot_of_rwlock lock.now) token.old }
    ensures { IsTokenOf (lot_of_rwlock lock.now) token.new }
{
    let mut number = token.number() as u64;
    let mut whole = true;
    for _ in 0..TIMES {
        if writes_next(&mut number) {
            whole = add_at_once(rt, lock, token, 1) && whole;
            written.fetch_add(1, SeqCst);
        } else {
            whole = is_whole(rt, lock, token) && whole;
        }
    }
    whole
}

// Returns whether a thread that reads finds the value whole.
fn is_whole<R: Wait>(rt: &R, lock: &Lock, token: &mut Token) -> bool
    requires { IsTokenOf (lot_of_rwlock lock.now) token.old }
    ensures { IsTokenOf (lot_of_rwlock lock.now) token.new }
{
    value_of(rt, lock, token).unwrap_or(TORN) != TORN
}

// The thread of place 0 writes, ten times or at once, the next upgrade, and the others read.
// Whether this one found the value whole.
fn tear_or_look<R: Wait>(
    rt: &R,
    lock: &Lock,
    token: &mut Token,
    place: usize,
    upgraders: usize,
) -> bool
    requires { IsTokenOf (lot_of_rwlock lock.now) token.old }
    ensures { IsTokenOf (lot_of_rwlock lock.now) token.new }
{
    if place == 0 && upgraders == 0 {
        add_at_once(rt, lock, token, 10)
    } else if place == 0 {
        add_often(rt, lock, token, Way::Write, 10)
    } else if place <= upgraders {
        add_by_upgrade(rt, lock, token)
    } else {
        is_whole(rt, lock, token)
    }
}

// Writes once somebody has the lock.
fn write_later<R: Wait>(rt: &R, lock: &Lock, token: &mut Token, held: &AtomicBool) -> bool
    requires { IsTokenOf (lot_of_rwlock lock.now) token.old }
    ensures { IsTokenOf (lot_of_rwlock lock.now) token.new }
{
    for _ in rt.forever() {
        if held.load(SeqCst) {
            break;
        }
        yield_now();
    }
    replace(rt, lock, token, 7) == 0
}

/// The part of each thread of a crowd.
#[derive(Clone, Copy)]
pub(super) enum Part<'a> {
    /// Adds 1, a hundred times.
    Add(Way),
    /// Reads mostly, and counts here how often it writes.
    Come(&'a AtomicU64),
    /// Writes as the first, upgrades as one of the next, and reads as another.
    Tear(usize),
    /// Reads once more beside a writer, as the first.
    ReadTwice,
    /// Reads until so many do at once, which count themselves here.
    Meet(&'a AtomicUsize, usize),
    /// Gives the lock up to a writer, as the first.
    Give(Giver, bool),
}

// The flags and counts that the threads of a crowd share.
#[derive(Drop)]
struct Told {
    came: AtomicUsize,
    // Whether the first of them has the lock.
    held: AtomicBool,
}

// Does one thread's part. Whether the thread is content with it.
fn take_part<R: Wait>(
    rt: &R,
    lot: &ParkingLot,
    lock: &Lock,
    token: &mut Token,
    told: &Told,
    part: Part<'_>,
) -> bool
    requires { IsTokenOf lot.now token.old × (lot_of_rwlock lock.now ≡ lot.now) }
    ensures { IsTokenOf lot.now token.new }
{
    let place = told.came.fetch_add(1, SeqCst);
    let held = &told.held;
    match part {
        Part::Add(way) => add_often(rt, lock, token, way, 100),
        Part::Come(written) => come_often(rt, lock, token, written),
        Part::Tear(upgraders) => tear_or_look(rt, lock, token, place, upgraders),
        Part::Meet(inside, wanted) => read_together(rt, lock, token, inside, wanted),
        Part::ReadTwice if place == 0 => read_twice(rt, lot, lock, token, held),
        Part::Give(giver, bumps) if place == 0 => give(rt, lot, lock, token, held, giver, bumps),
        _ => write_later(rt, lock, token, held),
    }
}

// Returns whether so many threads of a lot of so many seats were content with their part, and what
// the value came to.
pub(super) fn play<R: Threads + Wait + Abort + Sync>(
    rt: &R,
    alloc: Global,
    room: usize,
    threads: usize,
    part: Part<'_>,
) -> (bool, u64)
    requires { room < 100 }
{
    let (lot, lock, _token, mut tickets) = seats(rt, alloc, room, 0, false);
    keep(&lot, &mut tickets, threads);
    let told = Told {
        came: AtomicUsize::new(0),
        held: AtomicBool::new(false),
    };
    let (lot, shared, told) = (&*lot, &lock, &told);
    let found = map_vec(
        rt,
        tickets,
        &|ticket: Ticket|
            requires { IsTicketOf (lot_of_rwlock shared.now) ticket × (lot_of_rwlock shared.now ≡ lot.now) }
        {
            let mut token = ticket.enter();
            let content = take_part(rt, lot, shared, &mut token, told, part);
            drop(token.leave());
            content
        },
    );
    let content = found.is_ok_and(|found| found.iter().all(|content| *content));
    (content, lock.into_inner())
}

#[test]
fn eight_threads_read_what_they_wrote(rt: HostRuntime) {
    let found = play(&rt, rt.alloc(), 8, 8, Part::Add(Way::Downgrade));
    check_eq(&rt, found, (true, 800));
    let found = play(&rt, rt.alloc(), 63, 8, Part::Add(Way::Downgrade));
    check_eq(&rt, found, (true, 800));
}

#[test]
fn upgrades_let_nobody_write_between(rt: HostRuntime) {
    let found = play(&rt, rt.alloc(), 6, 6, Part::Add(Way::Upgrade));
    check_eq(&rt, found, (true, 600));
}

#[test]
fn ten_threads_read_and_write(rt: HostRuntime) {
    let written = AtomicU64::new(0);
    let found = play(&rt, rt.alloc(), 10, 10, Part::Come(&written));
    let times = written.load(SeqCst);
    check(&rt, 500 < times);
    check_eq(&rt, found, (true, times));
}

// A writer, and five readers beside it.
#[test]
fn readers_find_no_writer_in_the_act(rt: HostRuntime) {
    let found = play(&rt, rt.alloc(), 6, 6, Part::Tear(0));
    check_eq(&rt, found, (true, 10));
}

// A writer, five upgraders and five readers.
#[test]
fn upgraders_find_no_writer_in_the_act(rt: HostRuntime) {
    let found = play(&rt, rt.alloc(), 11, 11, Part::Tear(5));
    check_eq(&rt, found, (true, 15));
    let found = play(&rt, rt.alloc(), 63, 11, Part::Tear(5));
    check_eq(&rt, found, (true, 15));
}
