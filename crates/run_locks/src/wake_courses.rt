//! The straight course of a call of a reader-writer lock that wakes those in the main queue.
ghost use Rattle.std.specs.Prelude.{◌≡◌, None};
ghost use Rattle.core_clocks.specs.Clocks.{TimeIsUp};
ghost use Rattle.run_base.specs.Turns.{HasEnded, IsAtPlace};
ghost use Rattle.steps_base.specs.Acts.{any_picked};
ghost use Rattle.steps_rwlock.specs.RwLockSteps.{ends_with};
ghost use Rattle.steps_rwlock.specs.declared.release.WakeAt.TheVariants as waking;
ghost use Rattle.run_locks.specs.WakeCourses.{left_on, wakes_at};

use core_base::main_key;
use lot_steps::Wakes;
use parking_lot_core::{Clock, Keys, Note, Op, ParkingLot, Section, Token, Want};
use run_base::turns::{end, turn_enter, turn_leave, turn_take_wanted, turn_word};
use run_base::words::Words;
use spec_locks::Answer;
use std::sync::Wait;
use steps_rwlock::places::NOT_PARKED;
use steps_rwlock::{Admission, RwLockPurpose};

// Returns the answer of a call that has woken others. One that was to enter or to upgrade has given
// up.
#[inline]
fn answer_after(purpose: RwLockPurpose) -> Answer
    ensures { result ≡ ends_with purpose }
{
    match purpose {
        RwLockPurpose::Enter { .. } | RwLockPurpose::Upgrade(_) => Answer::No,
        RwLockPurpose::Release(_) | RwLockPurpose::Downgrade(_) => Answer::Ok,
    }
}

// Returns whether it took any, where so many want to share and this one wants more.
#[inline]
fn took_any(sharers: usize, successor: Option<Want>) -> bool
    ensures { result ≡ any_picked sharers successor }
{
    sharers != 0 || successor.is_some()
}

// Leaves the section, and wakes those that it took there.
fn leave_and_wake<'a, R: Wait, C: Clock>(
    rt: &R,
    lot: &'a ParkingLot,
    token: &mut Token,
    words: Words,
    limit: Option<(&C, u64)>,
    section: Option<Section<'a>>,
    lock: usize,
    _admission: Admission,
    purpose: RwLockPurpose,
    any: bool,
) -> Answer
    requires { IsAtPlace (TimeIsUp C.tells limit) lot.now words
        (wakes_at lock _admission purpose (waking.Leave any)) token.old section }
    ensures { HasEnded (TimeIsUp C.tells limit.entry) lot.now words
        (wakes_at lock _admission purpose (waking.Leave any)) result token.old section.entry token.new }
{
    let mut section = section;
    let keys = Keys::One(main_key(lock));
    let wakes = Wakes::taken(any, Note::Normal);
    turn_leave(rt, lot, token, words, limit, &mut section, keys, wakes);
    end(section);
    answer_after(purpose)
}

// Goes on from its take: where none is left, nobody waits any more.
fn clear_and_wake<'a, R: Wait, C: Clock>(
    rt: &R,
    lot: &'a ParkingLot,
    token: &mut Token,
    words: Words,
    limit: Option<(&C, u64)>,
    section: Option<Section<'a>>,
    lock: usize,
    admission: Admission,
    purpose: RwLockPurpose,
    any: bool,
    none_left: bool,
) -> Answer
    requires { IsAtPlace (TimeIsUp C.tells limit) lot.now words
        (wakes_at lock admission purpose (left_on any none_left)) token.old section }
    ensures { HasEnded (TimeIsUp C.tells limit.entry) lot.now words
        (wakes_at lock admission purpose (left_on any none_left)) result token.old section.entry token.new }
{
    if none_left {
        let op = Op::And(NOT_PARKED);
        turn_word(lot, token, words, limit, &section, lock, op);
        return leave_and_wake(
            rt, lot, token, words, limit, section, lock, admission, purpose, any,
        );
    }
    leave_and_wake(
        rt, lot, token, words, limit, section, lock, admission, purpose, any,
    )
}

/// A call that has seen that others wait, from there to its answer.
pub(crate) fn wake_through<R: Wait, C: Clock>(
    rt: &R,
    lot: &ParkingLot,
    token: &mut Token,
    words: Words,
    limit: Option<(&C, u64)>,
    lock: usize,
    admission: Admission,
    purpose: RwLockPurpose,
) -> Answer
    requires { IsAtPlace (TimeIsUp C.tells limit) lot.now words
        (wakes_at lock admission purpose waking.Enter) token.old None }
    ensures { HasEnded (TimeIsUp C.tells limit.entry) lot.now words
        (wakes_at lock admission purpose waking.Enter) result token.old None token.new }
{
    let key = main_key(lock);
    let keys = Keys::One(key);
    let mut section = None;
    turn_enter(rt, lot, token, words, limit, &mut section, keys);
    let start = purpose.start();
    let recursive = admission.recursive;
    let (sharers, successor, none_left) = turn_take_wanted(
        lot,
        token,
        words,
        limit,
        &mut section,
        key,
        start,
        recursive,
    );
    let any = took_any(sharers, successor);
    clear_and_wake(
        rt, lot, token, words, limit, section, lock, admission, purpose, any, none_left,
    )
}
