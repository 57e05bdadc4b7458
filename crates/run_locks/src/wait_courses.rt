//! The straight course of a wait.
//!
//! No part of a wait is inlined: it sleeps, or is about to.
ghost use Rattle.std.specs.Prelude.{◌≡◌, ◌==◌, ◌||◌, None, false};
ghost use Rattle.core_clocks.specs.Clocks.{TimeIsUp};
ghost use Rattle.steps_condvar.specs.CondvarSteps.{is_shown, waited};
ghost use Rattle.steps_condvar.specs.declared.wait.WaiterFate.TheVariants.{Listed};
ghost use Rattle.steps_condvar.specs.declared.wait.WaitAt.TheVariants as wait;
ghost use Rattle.parking_lot_core.specs.Places.{IsPlaceOf};
ghost use Rattle.run_base.specs.Turns.{HasEnded, IsAtPlace};
ghost use Rattle.steps_mutex.specs.MutexSteps.{is_locked};
ghost use Rattle.steps_mutex.specs.declared.lock.LockAt.TheVariants as lock;
ghost use Rattle.steps_mutex.specs.declared.unlock.UnlockAt.TheVariants as unlock;
ghost use Rattle.run_locks.specs.CondvarCourses.{locks_at, releases_at, wait_at};
ghost use Rattle.run_base.specs.MutexCourses.{taken_on};

use crate::condvar_courses::{Pair, finish_by_driver};
use core_base::main_key;
use lot_steps::{Reply, Wakes};
use parking_lot_core::{Clock, Keys, Note, Op, ParkingLot, QueuePlace, Section, Token, Want};
use run_base::turns::{
    end, turn_enter, turn_leave, turn_sleep, turn_stand, turn_take_first, turn_word,
};
use spec_locks::Answer;
use std::sync::Wait;
use steps_condvar::{WaitAt, WaiterFate, shown, shows};
use steps_mutex::{Entry, LOCKED, LockAt, MutexPlace, PARKED, is_locked, is_parked};

// Returns the answer of a wait that was notified.
fn notified_answer(timed: bool) -> Answer
    ensures { result ≡ waited timed false }
{
    if timed { Answer::Notified } else { Answer::Ok }
}

// Returns where a thread locks the mutex again.
fn locks(at: LockAt) -> WaitAt
    ensures { result ≡ locks_at at }
{
    WaitAt::Lock {
        timed_out: false,
        at: MutexPlace::Lock {
            entry: Entry::Lock,
            retries: true,
            at,
        },
    }
}

// Takes the mutex, whose word told of no owner.
fn lock_free<'a, R: Wait, C: Clock>(
    rt: &R,
    lot: &'a ParkingLot,
    token: &mut Token,
    pair: Pair,
    limit: Option<(&C, u64)>,
    section: Option<Section<'a>>,
    timed: bool,
    seen: u64,
) -> Answer
    requires at { IsAtPlace (TimeIsUp C.tells limit) lot.now pair.words
        (wait_at pair.condvar pair.mutex timed (locks_at (lock.Decide seen))) token.old section }
    requires free { is_locked seen ≡ false }
    ensures { HasEnded (TimeIsUp C.tells limit.entry) lot.now pair.words
        (wait_at pair.condvar pair.mutex timed (locks_at (lock.Decide seen))) result token.old section.entry token.new }
{
    let op = Op::Exchange {
        from: seen,
        to: seen + LOCKED,
    };
    let found = turn_word(lot, token, pair.words, limit, &section, pair.mutex, op);
    if found == seen {
        end(section);
        return notified_answer(timed);
    }
    let place = pair.waits(timed, locks(LockAt::Decide(seen)));
    let next = place.next_place(Reply::Value(found));
    finish_by_driver(rt, lot, token, pair.words, limit, section, None, next)
}

// Looks which thread owns the mutex, whose word was not 0.
fn lock_seen<'a, R: Wait, C: Clock>(
    rt: &R,
    lot: &'a ParkingLot,
    token: &mut Token,
    pair: Pair,
    limit: Option<(&C, u64)>,
    section: Option<Section<'a>>,
    timed: bool,
) -> Answer
    requires { IsAtPlace (TimeIsUp C.tells limit) lot.now pair.words
        (wait_at pair.condvar pair.mutex timed (locks_at lock.Load)) token.old section }
    ensures { HasEnded (TimeIsUp C.tells limit.entry) lot.now pair.words
        (wait_at pair.condvar pair.mutex timed (locks_at lock.Load)) result token.old section.entry token.new }
{
    let seen = turn_word(
        lot,
        token,
        pair.words,
        limit,
        &section,
        pair.mutex,
        Op::Load,
    );
    if is_locked(seen) {
        let place = pair.waits(timed, locks(LockAt::Decide(seen)));
        return finish_by_driver(rt, lot, token, pair.words, limit, section, None, place);
    }
    lock_free(rt, lot, token, pair, limit, section, timed, seen)
}

// Locks the mutex again, woken and not handed it.
fn lock_again<'a, R: Wait, C: Clock>(
    rt: &R,
    lot: &'a ParkingLot,
    token: &mut Token,
    pair: Pair,
    limit: Option<(&C, u64)>,
    section: Option<Section<'a>>,
    timed: bool,
) -> Answer
    requires { IsAtPlace (TimeIsUp C.tells limit) lot.now pair.words
        (wait_at pair.condvar pair.mutex timed (locks_at lock.First)) token.old section }
    ensures { HasEnded (TimeIsUp C.tells limit.entry) lot.now pair.words
        (wait_at pair.condvar pair.mutex timed (locks_at lock.First)) result token.old section.entry token.new }
{
    let op = Op::Exchange {
        from: 0,
        to: LOCKED,
    };
    let seen = turn_word(lot, token, pair.words, limit, &section, pair.mutex, op);
    if seen == 0 {
        end(section);
        return notified_answer(timed);
    }
    lock_seen(rt, lot, token, pair, limit, section, timed)
}

// Sleeps, in the queue of the condition variable.
fn fall_asleep<'a, R: Wait, C: Clock>(
    rt: &R,
    lot: &'a ParkingLot,
    token: &mut Token,
    pair: Pair,
    limit: Option<(&C, u64)>,
    section: Option<Section<'a>>,
    queue: QueuePlace<'a>,
    timed: bool,
) -> Answer
    requires at { IsAtPlace (TimeIsUp C.tells limit) lot.now pair.words
        (wait_at pair.condvar pair.mutex timed (wait.Asleep Listed)) token.old section }
    requires queued { IsPlaceOf lot.now token.old.number queue }
    ensures { HasEnded (TimeIsUp C.tells limit.entry) lot.now pair.words
        (wait_at pair.condvar pair.mutex timed (wait.Asleep Listed)) result token.old section.entry token.new }
{
    let mut section = section;
    let place = pair.waits(timed, WaitAt::Asleep(WaiterFate::Listed));
    let mut queue = Some(queue);
    let reply = turn_sleep(
        rt,
        lot,
        token,
        pair.words,
        limit,
        &mut section,
        &mut queue,
        place,
    );
    if matches!(reply, Reply::Woken(Note::Normal)) {
        return lock_again(rt, lot, token, pair, limit, section, timed);
    }
    let next = place.next_place(reply);
    finish_by_driver(rt, lot, token, pair.words, limit, section, queue, next)
}

// Leaves the section of the mutex, wakes the one that it took there, if any, and sleeps.
fn wake_and_sleep<'a, R: Wait, C: Clock>(
    rt: &R,
    lot: &'a ParkingLot,
    token: &mut Token,
    pair: Pair,
    limit: Option<(&C, u64)>,
    section: Option<Section<'a>>,
    queue: QueuePlace<'a>,
    timed: bool,
    any: bool,
) -> Answer
    requires at { IsAtPlace (TimeIsUp C.tells limit) lot.now pair.words
        (wait_at pair.condvar pair.mutex timed (releases_at (unlock.Leave any))) token.old section }
    requires queued { IsPlaceOf lot.now token.old.number queue }
    ensures { HasEnded (TimeIsUp C.tells limit.entry) lot.now pair.words
        (wait_at pair.condvar pair.mutex timed (releases_at (unlock.Leave any))) result token.old section.entry token.new }
{
    let mut section = section;
    let keys = Keys::One(main_key(pair.mutex));
    let wakes = Wakes::taken(any, Note::Normal);
    turn_leave(rt, lot, token, pair.words, limit, &mut section, keys, wakes);
    fall_asleep(rt, lot, token, pair, limit, section, queue, timed)
}

// Goes on from its take: where none is left, nobody waits for the mutex any more.
fn clear_and_sleep<'a, R: Wait, C: Clock>(
    rt: &R,
    lot: &'a ParkingLot,
    token: &mut Token,
    pair: Pair,
    limit: Option<(&C, u64)>,
    section: Option<Section<'a>>,
    queue: QueuePlace<'a>,
    timed: bool,
    any: bool,
    none_left: bool,
) -> Answer
    requires at { IsAtPlace (TimeIsUp C.tells limit) lot.now pair.words
        (wait_at pair.condvar pair.mutex timed (releases_at (taken_on any none_left))) token.old section }
    requires queued { IsPlaceOf lot.now token.old.number queue }
    ensures { HasEnded (TimeIsUp C.tells limit.entry) lot.now pair.words
        (wait_at pair.condvar pair.mutex timed (releases_at (taken_on any none_left))) result token.old section.entry token.new }
{
    if none_left {
        let op = Op::And(!PARKED);
        turn_word(lot, token, pair.words, limit, &section, pair.mutex, op);
        return wake_and_sleep(rt, lot, token, pair, limit, section, queue, timed, any);
    }
    wake_and_sleep(rt, lot, token, pair, limit, section, queue, timed, any)
}

// Wakes the first that waits for the mutex, which it has released, and sleeps.
fn wake_first_and_sleep<'a, R: Wait, C: Clock>(
    rt: &R,
    lot: &'a ParkingLot,
    token: &mut Token,
    pair: Pair,
    limit: Option<(&C, u64)>,
    section: Option<Section<'a>>,
    queue: QueuePlace<'a>,
    timed: bool,
) -> Answer
    requires at { IsAtPlace (TimeIsUp C.tells limit) lot.now pair.words
        (wait_at pair.condvar pair.mutex timed (releases_at unlock.Enter)) token.old section }
    requires queued { IsPlaceOf lot.now token.old.number queue }
    ensures { HasEnded (TimeIsUp C.tells limit.entry) lot.now pair.words
        (wait_at pair.condvar pair.mutex timed (releases_at unlock.Enter)) result token.old section.entry token.new }
{
    let mut section = section;
    let words = pair.words;
    let key = main_key(pair.mutex);
    turn_enter(rt, lot, token, words, limit, &mut section, Keys::One(key));
    let (any, none_left) = turn_take_first(lot, token, words, limit, &mut section, key);
    clear_and_sleep(
        rt, lot, token, pair, limit, section, queue, timed, any, none_left,
    )
}

// Releases the mutex, and sleeps.
fn release<'a, R: Wait, C: Clock>(
    rt: &R,
    lot: &'a ParkingLot,
    token: &mut Token,
    pair: Pair,
    limit: Option<(&C, u64)>,
    section: Option<Section<'a>>,
    queue: QueuePlace<'a>,
    timed: bool,
) -> Answer
    requires at { IsAtPlace (TimeIsUp C.tells limit) lot.now pair.words
        (wait_at pair.condvar pair.mutex timed (releases_at unlock.Subtract)) token.old section }
    requires queued { IsPlaceOf lot.now token.old.number queue }
    ensures { HasEnded (TimeIsUp C.tells limit.entry) lot.now pair.words
        (wait_at pair.condvar pair.mutex timed (releases_at unlock.Subtract)) result token.old section.entry token.new }
{
    let op = Op::Sub(LOCKED);
    let seen = turn_word(lot, token, pair.words, limit, &section, pair.mutex, op);
    if !is_parked(seen) {
        return fall_asleep(rt, lot, token, pair, limit, section, queue, timed);
    }
    wake_first_and_sleep(rt, lot, token, pair, limit, section, queue, timed)
}

// Returns whether a condition variable with this word may show the mutex.
fn may_show(seen: u64, mutex: usize) -> bool
    ensures { result ≡ (seen == 0) || is_shown seen mutex }
{
    seen == 0 || shows(seen, mutex)
}

/// A wait, from its beginning to its answer.
#[inline]
pub(crate) fn wait_course<R: Wait, C: Clock>(
    rt: &R,
    lot: &ParkingLot,
    token: &mut Token,
    pair: Pair,
    limit: Option<(&C, u64)>,
    timed: bool,
) -> Answer
    requires { IsAtPlace (TimeIsUp C.tells limit) lot.now pair.words
        (wait_at pair.condvar pair.mutex timed wait.Enter) token.old None }
    ensures { HasEnded (TimeIsUp C.tells limit.entry) lot.now pair.words
        (wait_at pair.condvar pair.mutex timed wait.Enter) result token.old None token.new }
{
    let words = pair.words;
    let key = main_key(pair.condvar);
    let mut section = None;
    turn_enter(rt, lot, token, words, limit, &mut section, Keys::One(key));
    let op = Op::Exchange {
        from: 0,
        to: shown(pair.mutex),
    };
    let seen = turn_word(lot, token, words, limit, &section, pair.condvar, op);
    if !may_show(seen, pair.mutex) {
        let place = pair.waits(timed, WaitAt::Refuse);
        return finish_by_driver(rt, lot, token, words, limit, section, None, place);
    }
    let queue = turn_stand(lot, token, words, limit, &mut section, key, Want::Wait);
    let keys = Keys::One(key);
    turn_leave(
        rt,
        lot,
        token,
        words,
        limit,
        &mut section,
        keys,
        Wakes::Nobody,
    );
    release(rt, lot, token, pair, limit, section, queue, timed)
}
