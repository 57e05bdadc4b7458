//! The straight course of a fair unlock that saw a waiter: it hands the mutex to the first that
//! waits.
ghost use Rattle.std.specs.Prelude.{◌≡◌, None, true};
ghost use Rattle.core_clocks.specs.Clocks.{TimeIsUp};
ghost use Rattle.run_base.specs.Turns.{HasEnded, IsAtPlace};
ghost use Rattle.steps_mutex.specs.MutexSteps.{hand_off_word};
ghost use Rattle.steps_mutex.specs.declared.hand_off.HandOffAt.TheVariants as hand_off;
ghost use Rattle.run_mutexes.specs.LockCourses.{hands_at};

use crate::finish::finish_by_driver;
use core_base::main_key;
use lot_steps::{Place, Wakes};
use parking_lot_core::{Clock, Keys, Note, Op, ParkingLot, Section, Token};
use run_base::turns::{end, turn_enter, turn_hand_over, turn_leave, turn_take_first};
use run_base::words::Words;
use spec_locks::Answer;
use std::sync::Wait;
use steps_mutex::{HandOffAt, LOCKED, MutexPlace, PARKED};

// Returns where a thread stands that hands a mutex over.
#[inline]
fn hands(mutex: usize, at: HandOffAt) -> Place
    ensures { result ≡ hands_at mutex at }
{
    Place::Mutex {
        lock: mutex,
        at: MutexPlace::HandOff { bumps: false, at },
    }
}

// Returns the word of a mutex whose next owner was taken from the queue.
#[inline]
fn owned(none_left: bool) -> u64
    ensures { result ≡ hand_off_word true none_left }
{
    if none_left { LOCKED } else { LOCKED + PARKED }
}

// Hands the mutex to the one that it took, leaves the section and wakes that one.
fn give<'a, R: Wait, C: Clock>(
    rt: &R,
    lot: &'a ParkingLot,
    token: &mut Token,
    words: Words,
    limit: Option<(&C, u64)>,
    section: Option<Section<'a>>,
    mutex: usize,
    none_left: bool,
) -> Answer
    requires { IsAtPlace (TimeIsUp C.tells limit) lot.now words
        (hands_at mutex (hand_off.Store true none_left)) token.old section }
    ensures { HasEnded (TimeIsUp C.tells limit.entry) lot.now words
        (hands_at mutex (hand_off.Store true none_left)) result token.old section.entry token.new }
{
    let mut section = section;
    let op = Op::Store(owned(none_left));
    turn_hand_over(rt, lot, token, words, limit, &mut section, mutex, op);
    let keys = Keys::One(main_key(mutex));
    let wakes = Wakes::All(Note::HandOff);
    turn_leave(rt, lot, token, words, limit, &mut section, keys, wakes);
    end(section);
    Answer::Ok
}

/// A fair unlock, from where it has seen a waiter to its end.
#[cold]
#[inline(never)]
pub(crate) fn hand_over_through<R: Wait, C: Clock>(
    rt: &R,
    lot: &ParkingLot,
    token: &mut Token,
    words: Words,
    limit: Option<(&C, u64)>,
    mutex: usize,
) -> Answer
    requires { IsAtPlace (TimeIsUp C.tells limit) lot.now words
        (hands_at mutex hand_off.Enter) token.old None }
    ensures { HasEnded (TimeIsUp C.tells limit.entry) lot.now words
        (hands_at mutex hand_off.Enter) result token.old None token.new }
{
    let mut section = None;
    let key = main_key(mutex);
    let keys = Keys::One(key);
    turn_enter(rt, lot, token, words, limit, &mut section, keys);
    let (any, none_left) = turn_take_first(lot, token, words, limit, &mut section, key);
    if any {
        return give(rt, lot, token, words, limit, section, mutex, none_left);
    }
    let place = hands(
        mutex,
        HandOffAt::Store {
            any: false,
            none_left,
        },
    );
    finish_by_driver(rt, lot, token, words, limit, section, None, place)
}
