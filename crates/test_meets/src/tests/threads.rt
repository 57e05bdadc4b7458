//! Two threads.
ghost use Rattle.std.specs.Prelude.{◌≡◌, IfSome};
ghost use Rattle.core_words.specs.Lots.{IsWordOf};
ghost use Rattle.core_words.specs.RightsOf.{IsRightOf};
ghost use Rattle.core_words.specs.declared.words.WordKind.TheVariants.{Mutex};
ghost use Rattle.core_words.specs.declared.owners.Owner.TheVariants.{Exclusive};
ghost use Rattle.parking_lot_core.specs.Places.{IsPlaceOf};
ghost use Rattle.parking_lot_core.specs.Tokens.{IsTokenOf, IsSameThread};

use super::clocks::told_until;
use super::parts::{Part, play};
use super::{Task, check_eq, delay, sleep, until_taken};
use core_clocks::TickClock;
use parking_lot_core::{Key, Keys, Note, ParkingLot, QueuePlace, Right, Token, Want, Word};
use std::sync::Wait;
use std::sync::atomic::AtomicBool;
use std::sync::atomic::Ordering::SeqCst;
use std::thread::yield_now;
use test_core::lines::line_up;
use test_core::mutexes::{try_lock, unlock};

const KEY: Key = 0;

const ROUNDS: usize = 200;

// The rounds in which both threads let time pass.
const SLOW_ROUNDS: usize = 20;

// For how many short pauses a thread lets others run then.
const PAUSE: usize = 5;

// Gives a right to the first in the line, and back where nobody stands there.
pub fn try_hand_over<R: Wait>(
    rt: &R,
    lot: &ParkingLot,
    token: &mut Token,
    right: Right,
    turns: usize,
) -> Option<Right>
    requires { IsTokenOf lot.now token.old × IsRightOf lot.now.words right }
    ensures own { IsSameThread lot.now token.old token.new }
    ensures left { IfSome result (IsRightOf lot.now.words) }
{
    let mut section = lot.enter(rt, token, Keys::One(KEY));
    match section.take_first(KEY) {
        Some(thread) => {
            section.give(rt, thread, right);
            delay(turns);
            section.leave(rt, token, Note::HandOff).unwrap();
            None
        }
        None => {
            section.leave(rt, token, Note::Normal).unwrap();
            Some(right)
        }
    }
}

// Gives a right to the first in the line, once somebody stands there.
fn hand_over<R: Wait>(rt: &R, lot: &ParkingLot, token: &mut Token, right: Right, turns: usize)
    requires { IsTokenOf lot.now token.old × IsRightOf lot.now.words right }
    ensures { IsSameThread lot.now token.old token.new }
{
    let mut left = right;
    for _ in rt.forever() {
        match try_hand_over(rt, lot, token, left, turns) {
            Some(right) => left = right,
            None => return,
        }
        yield_now();
    }
    unreachable!()
}

// A thread lines up for a right. None where it is woken by a note.
fn receive<R: Wait>(rt: &R, lot: &ParkingLot, token: &mut Token, word: Word) -> Option<Right>
    requires { IsTokenOf lot.now token.old × (word.kind ≡ Mutex) }
    ensures own { IsSameThread lot.now token.old token.new }
    ensures right { IfSome result
        (λ right. IsRightOf lot.now.words right × (right.word.kind ≡ Mutex) × (right.owner ≡ Exclusive)) }
{
    let place = line_up(rt, lot, token, KEY, Want::Exclusive);
    sleep(rt, lot, token, place, word, Want::Exclusive)
}

// Hands the right over and gets it back, so many times.
pub fn serve<R: Wait>(rt: &R, lot: &ParkingLot, token: &mut Token, word: Word) -> usize
    requires { IsTokenOf lot.now token.old × IsWordOf lot.now.words word × (word.kind ≡ Mutex) }
{
    let mut served = 0;
    for round in 0..ROUNDS {
        if let Some(right) = try_lock(lot, token, word) {
            hand_over(rt, lot, token, right, 0);
            if let Some(right) = receive(rt, lot, token, word) {
                unlock(lot, token, right);
                served = round + 1;
            }
        }
    }
    served
}

pub fn answer<R: Wait>(rt: &R, lot: &ParkingLot, token: &mut Token, word: Word) -> usize
    requires { IsTokenOf lot.now token.old × IsWordOf lot.now.words word × (word.kind ≡ Mutex) }
{
    let mut answered = 0;
    for round in 0..ROUNDS {
        if let Some(right) = receive(rt, lot, token, word) {
            hand_over(rt, lot, token, right, 0);
            answered = round + 1;
        }
    }
    answered
}

#[test]
fn a_right_goes_round(rt: HostRuntime) {
    let (served, answered) = play(&rt, rt.alloc(), (Part::Serve, Part::Answer));
    check_eq(&rt, (served.0, answered.0), (ROUNDS, ROUNDS));
}

// Wakes the other thread as soon as it stands in the line, by a plain note and by a right in turn.
// A right lies in the record for a while before the note is there.
pub fn wake_early<R: Wait>(rt: &R, lot: &ParkingLot, token: &mut Token, word: Word)
    requires { IsTokenOf lot.now token.old × IsWordOf lot.now.words word × (word.kind ≡ Mutex) }
{
    for _ in 0..SLOW_ROUNDS {
        until_taken(rt, lot, token, KEY, Task::TakeFirst);
        if let Some(right) = try_lock(lot, token, word) {
            hand_over(rt, lot, token, right, PAUSE);
        }
    }
}

// Returns whether a thread is woken by a note. A right that it is handed is given up.
fn is_woken<'a, R: Wait>(
    rt: &R,
    lot: &'a ParkingLot,
    token: &mut Token,
    place: QueuePlace<'a>,
    word: Word,
) -> bool
    requires own { IsTokenOf lot.now token.old × (word.kind ≡ Mutex) }
    requires place { IsPlaceOf lot.now token.old.number place }
    ensures { IsSameThread lot.now token.old token.new }
{
    match sleep(rt, lot, token, place, word, Want::Exclusive) {
        Some(right) => {
            unlock(lot, token, right);
            false
        }
        None => true,
    }
}

// Returns whether the thread is woken as it is to be: by a note, and then by a right. It is late to
// its sleep, so that it finds its note without parking, and its parker returns early the next time.
fn sleeps_late<R: Wait>(rt: &R, lot: &ParkingLot, token: &mut Token, word: Word) -> bool
    requires { IsTokenOf lot.now token.old × IsWordOf lot.now.words word × (word.kind ≡ Mutex) }
    ensures { IsSameThread lot.now token.old token.new }
{
    let place = line_up(rt, lot, token, KEY, Want::Exclusive);
    delay(PAUSE);
    let by_note = is_woken(rt, lot, token, place, word);
    let standing = lot.queued(rt, token, KEY);
    let Some(right) = receive(rt, lot, token, word) else {
        return false;
    };
    unlock(lot, token, right);
    by_note && standing == 0 && lot.queued(rt, token, KEY) == 0
}

// In how many rounds it was, up to the first in which it was not.
pub fn sleep_late<R: Wait>(rt: &R, lot: &ParkingLot, token: &mut Token, word: Word) -> usize
    requires { IsTokenOf lot.now token.old × IsWordOf lot.now.words word × (word.kind ≡ Mutex) }
{
    let mut woken = 0;
    for round in 0..SLOW_ROUNDS {
        if sleeps_late(rt, lot, token, word) && woken == round {
            woken = round + 1;
        }
    }
    woken
}

#[test]
fn an_early_parker_loses_and_doubles_no_wake(rt: HostRuntime) {
    let (woken, _) = play(&rt, rt.alloc(), (Part::SleepLate, Part::WakeEarly));
    check_eq(&rt, woken.0, SLOW_ROUNDS);
}

// How many rounds ended by a wake, and how many by the deadline.
pub fn sleep_briefly<R: Wait>(
    rt: &R,
    lot: &ParkingLot,
    token: &mut Token,
    word: Word,
    done: &AtomicBool,
) -> (usize, usize)
    requires { IsTokenOf lot.now token.old }
{
    let clock = TickClock::new();
    let (mut woken, mut late) = (0, 0);
    for round in 0..ROUNDS {
        clock.restart();
        let place = line_up(rt, lot, token, KEY, Want::Exclusive);
        match told_until(rt, lot, token, place, word, (&clock, round as u64 % 8)) {
            Ok(Note::Normal) => woken += 1,
            Ok(Note::HandOff) => {}
            Err(_) => late += 1,
        }
    }
    done.store(true, SeqCst);
    (woken, late)
}
