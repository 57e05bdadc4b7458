//! The straight course of a lock whose mutex is owned, and for which others wait already: it stands
//! after the last of them, sleeps, and is handed the mutex.
ghost use Rattle.std.specs.Prelude.{◌≡◌, None, IsTrue};
ghost use Rattle.core_clocks.specs.Clocks.{TimeIsUp};
ghost use Rattle.run_base.specs.Queued.{HasPlace};
ghost use Rattle.run_base.specs.Turns.{HasEnded, IsAtPlace};
ghost use Rattle.steps_mutex.specs.MutexSteps.{entered};
ghost use Rattle.steps_mutex.specs.declared.lock.LockAt.TheVariants as lock;
ghost use Rattle.run_mutexes.specs.LockCourses.{locks_at};

use crate::finish::finish_by_driver;
use core_base::main_key;
use lot_steps::{Check, Place, Reply, Wakes};
use parking_lot_core::{Clock, Keys, Note, Op, ParkingLot, QueuePlace, Section, Token, Want};
use run_base::turns::{end, turn_enter, turn_leave, turn_park, turn_sleep, turn_word};
use run_base::words::Words;
use spec_locks::Answer;
use std::sync::Wait;
use steps_mutex::{Entry, LOCKED, LockAt, MutexPlace, PARKED};

// Returns where a thread stands that locks.
#[inline]
fn locks(mutex: usize, entry: Entry, at: LockAt) -> Place
    ensures { result ≡ locks_at mutex entry at }
{
    Place::Mutex {
        lock: mutex,
        at: MutexPlace::Lock {
            entry,
            retries: false,
            at,
        },
    }
}

// Returns the answer of a call that has the mutex.
#[inline]
fn entered(entry: Entry) -> Answer
    ensures { result ≡ entered entry }
{
    if entry.is_timed() {
        Answer::Yes
    } else {
        Answer::Ok
    }
}

// Sleeps in the queue. Where it is handed the mutex it accepts that, and the call is over.
fn fall_asleep<'a, R: Wait, C: Clock>(
    rt: &R,
    lot: &'a ParkingLot,
    token: &mut Token,
    words: Words,
    limit: Option<(&C, u64)>,
    section: Option<Section<'a>>,
    queue: Option<QueuePlace<'a>>,
    mutex: usize,
    entry: Entry,
) -> Answer
    requires at { IsAtPlace (TimeIsUp C.tells limit) lot.now words
        (locks_at mutex entry lock.Asleep) token.old section }
    requires queued { HasPlace lot.now token.old.number queue }
    ensures { HasEnded (TimeIsUp C.tells limit.entry) lot.now words
        (locks_at mutex entry lock.Asleep) result token.old section.entry token.new }
{
    let mut section = section;
    let mut queue = queue;
    let place = locks(mutex, entry, LockAt::Asleep);
    let reply = turn_sleep(
        rt,
        lot,
        token,
        words,
        limit,
        &mut section,
        &mut queue,
        place,
    );
    if matches!(reply, Reply::Woken(Note::HandOff)) {
        end(section);
        return entered(entry);
    }
    let next = place.next_place(reply);
    finish_by_driver(rt, lot, token, words, limit, section, queue, next)
}

// Stands after the last that waits, if the mutex is owned still, and sleeps.
fn park<R: Wait, C: Clock>(
    rt: &R,
    lot: &ParkingLot,
    token: &mut Token,
    words: Words,
    limit: Option<(&C, u64)>,
    mutex: usize,
    entry: Entry,
) -> Answer
    requires { IsAtPlace (TimeIsUp C.tells limit) lot.now words
        (locks_at mutex entry (lock.Decide 3)) token.old None }
    ensures { HasEnded (TimeIsUp C.tells limit.entry) lot.now words
        (locks_at mutex entry (lock.Decide 3)) result token.old None token.new }
{
    let key = main_key(mutex);
    let keys = Keys::One(key);
    let mut section = None;
    let mut queue = None;
    turn_enter(rt, lot, token, words, limit, &mut section, keys);
    let parked = turn_park(
        lot,
        token,
        words,
        limit,
        &mut section,
        &mut queue,
        mutex,
        key,
        Check::WordIs(LOCKED + PARKED),
        Want::Exclusive,
    );
    let wakes = Wakes::Nobody;
    turn_leave(rt, lot, token, words, limit, &mut section, keys, wakes);
    if parked {
        return fall_asleep(rt, lot, token, words, limit, section, queue, mutex, entry);
    }
    let place = locks(mutex, entry, LockAt::Load);
    finish_by_driver(rt, lot, token, words, limit, section, None, place)
}

/// A lock whose first step saw a waiter, from there to its answer.
#[cold]
#[inline(never)]
pub(crate) fn lock_course<R: Wait, C: Clock>(
    rt: &R,
    lot: &ParkingLot,
    token: &mut Token,
    words: Words,
    limit: Option<(&C, u64)>,
    mutex: usize,
    entry: Entry,
) -> Answer
    requires { IsAtPlace (TimeIsUp C.tells limit) lot.now words
        (locks_at mutex entry lock.Load) token.old None }
    ensures { HasEnded (TimeIsUp C.tells limit.entry) lot.now words
        (locks_at mutex entry lock.Load) result token.old None token.new }
{
    let section = None;
    let seen = turn_word(lot, token, words, limit, &section, mutex, Op::Load);
    if seen == LOCKED + PARKED {
        end(section);
        return park(rt, lot, token, words, limit, mutex, entry);
    }
    let place = locks(mutex, entry, LockAt::Decide(seen));
    finish_by_driver(rt, lot, token, words, limit, section, None, place)
}
