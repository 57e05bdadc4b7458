//! The straight course of a notification.
ghost use Rattle.std.specs.Prelude.{◌≡◌, None, false, true};
ghost use Rattle.steps_condvar.specs.CondvarSteps.{moved_one, notified};
ghost use Rattle.steps_condvar.specs.declared.notify.NotifyAt.TheVariants as notify;
ghost use Rattle.run_base.specs.Turns.{HasEnded, IsAtPlace};
ghost use Rattle.run_locks.specs.CondvarCourses.{notify_at};

use crate::condvar_courses::{Pair, finish_by_driver};
use core_base::main_key;
use lot_steps::{Reply, Wakes};
use parking_lot_core::{Keys, Note, Op, ParkingLot, Requeue, Section, Token};
use run_base::driver::NO_LIMIT;
use run_base::turns::{end, turn_enter, turn_leave, turn_requeue, turn_take_first, turn_word};
use spec_locks::Answer;
use std::sync::Wait;
use steps_condvar::{NotifyAt, shows};
use steps_mutex::{LOCKED, PARKED, is_locked};

// Leaves both sections, and wakes the one that it took there, if any.
fn leave_both<'a, R: Wait>(
    rt: &R,
    lot: &'a ParkingLot,
    token: &mut Token,
    pair: Pair,
    section: Option<Section<'a>>,
    all: bool,
    any: bool,
    number: usize,
) -> Answer
    requires { IsAtPlace ⊥ lot.now pair.words
        (notify_at pair.condvar pair.mutex all (notify.Leave any number)) token.old section }
    ensures { HasEnded ⊥ lot.now pair.words
        (notify_at pair.condvar pair.mutex all (notify.Leave any number)) result token.old section.entry token.new }
{
    let mut section = section;
    let keys = Keys::Two(main_key(pair.condvar), main_key(pair.mutex));
    let wakes = Wakes::taken(any, Note::Normal);
    turn_leave(
        rt,
        lot,
        token,
        pair.words,
        NO_LIMIT,
        &mut section,
        keys,
        wakes,
    );
    end(section);
    notified_so(all, number)
}

// Returns the answer of a notification that has moved so many.
fn notified_so(all: bool, number: usize) -> Answer
    ensures { result ≡ notified all number }
{
    if all {
        Answer::Number(number)
    } else if number == 0 {
        Answer::No
    } else {
        Answer::Yes
    }
}

// Goes on from its move of the first: where that was the last, nobody waits any more.
fn clear_and_leave<'a, R: Wait>(
    rt: &R,
    lot: &'a ParkingLot,
    token: &mut Token,
    pair: Pair,
    section: Option<Section<'a>>,
    any: bool,
    none_left: bool,
) -> Answer
    requires { IsAtPlace ⊥ lot.now pair.words
        (notify_at pair.condvar pair.mutex false (moved_one any none_left)) token.old section }
    ensures { HasEnded ⊥ lot.now pair.words
        (notify_at pair.condvar pair.mutex false (moved_one any none_left)) result token.old section.entry token.new }
{
    if none_left {
        let op = Op::Store(0);
        turn_word(lot, token, pair.words, NO_LIMIT, &section, pair.condvar, op);
        return leave_both(rt, lot, token, pair, section, false, any, 1);
    }
    leave_both(rt, lot, token, pair, section, false, any, 1)
}

// Takes the first that waits where nobody owns the mutex, and else moves it to the queue of that.
fn move_first<'a, R: Wait>(
    rt: &R,
    lot: &'a ParkingLot,
    token: &mut Token,
    pair: Pair,
    section: Option<Section<'a>>,
    locked: bool,
) -> Answer
    requires { IsAtPlace ⊥ lot.now pair.words
        (notify_at pair.condvar pair.mutex false (notify.Move locked)) token.old section }
    ensures { HasEnded ⊥ lot.now pair.words
        (notify_at pair.condvar pair.mutex false (notify.Move locked)) result token.old section.entry token.new }
{
    let mut section = section;
    let words = pair.words;
    let (from, to) = (main_key(pair.condvar), main_key(pair.mutex));
    if locked {
        let how = Requeue::One;
        let (_, none_left) = turn_requeue(lot, token, words, NO_LIMIT, &mut section, from, to, how);
        return clear_and_leave(rt, lot, token, pair, section, false, none_left);
    }
    let (any, none_left) = turn_take_first(lot, token, words, NO_LIMIT, &mut section, from);
    clear_and_leave(rt, lot, token, pair, section, any, none_left)
}

// Moves all that wait to the queue of the mutex, but for the first where nobody owns that.
fn move_all<'a, R: Wait>(
    rt: &R,
    lot: &'a ParkingLot,
    token: &mut Token,
    pair: Pair,
    section: Option<Section<'a>>,
    locked: bool,
) -> Answer
    requires { IsAtPlace ⊥ lot.now pair.words
        (notify_at pair.condvar pair.mutex true (notify.Move locked)) token.old section }
    ensures { HasEnded ⊥ lot.now pair.words
        (notify_at pair.condvar pair.mutex true (notify.Move locked)) result token.old section.entry token.new }
{
    let mut section = section;
    let words = pair.words;
    let (from, to) = (main_key(pair.condvar), main_key(pair.mutex));
    if locked {
        let how = Requeue::All;
        let (number, _) = turn_requeue(lot, token, words, NO_LIMIT, &mut section, from, to, how);
        return leave_both(rt, lot, token, pair, section, true, false, number);
    }
    let how = Requeue::TakeOneMoveRest;
    let (number, _) = turn_requeue(lot, token, words, NO_LIMIT, &mut section, from, to, how);
    if number > 1 {
        let op = Op::Or(PARKED);
        turn_word(lot, token, words, NO_LIMIT, &section, pair.mutex, op);
        return leave_both(rt, lot, token, pair, section, true, true, number);
    }
    leave_both(rt, lot, token, pair, section, true, true, number)
}

// Moves the first that waits, or all. Whether somebody owns the mutex.
fn move_some<'a, R: Wait>(
    rt: &R,
    lot: &'a ParkingLot,
    token: &mut Token,
    pair: Pair,
    section: Option<Section<'a>>,
    all: bool,
    locked: bool,
) -> Answer
    requires { IsAtPlace ⊥ lot.now pair.words
        (notify_at pair.condvar pair.mutex all (notify.Move locked)) token.old section }
    ensures { HasEnded ⊥ lot.now pair.words
        (notify_at pair.condvar pair.mutex all (notify.Move locked)) result token.old section.entry token.new }
{
    if all {
        return move_all(rt, lot, token, pair, section, locked);
    }
    move_first(rt, lot, token, pair, section, locked)
}

// Looks whether somebody owns the mutex, and marks it where somebody does, before it moves any.
fn mark_and_move<'a, R: Wait>(
    rt: &R,
    lot: &'a ParkingLot,
    token: &mut Token,
    pair: Pair,
    section: Option<Section<'a>>,
    all: bool,
) -> Answer
    requires { IsAtPlace ⊥ lot.now pair.words
        (notify_at pair.condvar pair.mutex all notify.Mark) token.old section }
    ensures { HasEnded ⊥ lot.now pair.words
        (notify_at pair.condvar pair.mutex all notify.Mark) result token.old section.entry token.new }
{
    let words = pair.words;
    let seen = turn_word(lot, token, words, NO_LIMIT, &section, pair.mutex, Op::Load);
    if !is_locked(seen) {
        return move_some(rt, lot, token, pair, section, all, false);
    }
    let op = Op::Exchange {
        from: seen,
        to: LOCKED + PARKED,
    };
    let found = turn_word(lot, token, words, NO_LIMIT, &section, pair.mutex, op);
    if found == seen {
        return move_some(rt, lot, token, pair, section, all, true);
    }
    let place = pair.notifies(all, NotifyAt::Set(seen));
    let next = place.next_place(Reply::Value(found));
    finish_by_driver(rt, lot, token, words, NO_LIMIT, section, None, next)
}

/// A notification that has seen a mutex, from there to its answer.
#[inline]
pub(crate) fn notify_through<R: Wait>(
    rt: &R,
    lot: &ParkingLot,
    token: &mut Token,
    pair: Pair,
    all: bool,
) -> Answer
    requires { IsAtPlace ⊥ lot.now pair.words
        (notify_at pair.condvar pair.mutex all notify.Enter) token.old None }
    ensures { HasEnded ⊥ lot.now pair.words
        (notify_at pair.condvar pair.mutex all notify.Enter) result token.old None token.new }
{
    let words = pair.words;
    let mut section = None;
    let keys = Keys::Two(main_key(pair.condvar), main_key(pair.mutex));
    turn_enter(rt, lot, token, words, NO_LIMIT, &mut section, keys);
    let seen = turn_word(
        lot,
        token,
        words,
        NO_LIMIT,
        &section,
        pair.condvar,
        Op::Load,
    );
    if !shows(seen, pair.mutex) {
        return leave_both(rt, lot, token, pair, section, all, false, 0);
    }
    if all {
        let op = Op::Store(0);
        turn_word(lot, token, words, NO_LIMIT, &section, pair.condvar, op);
        return mark_and_move(rt, lot, token, pair, section, true);
    }
    mark_and_move(rt, lot, token, pair, section, false)
}
