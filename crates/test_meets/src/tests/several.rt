//! Several threads that are taken together.
ghost use Rattle.std.specs.Prelude.{◌≡◌, ◌≤◌, ◌<◌, [], IfSome};
ghost use Rattle.std.specs.Arc.{arc_value};
ghost use Rattle.core_words.specs.Lots.{IsWordOf};
ghost use Rattle.core_words.specs.RightsOf.{IsRightOf};
ghost use Rattle.core_words.specs.declared.words.WordKind.TheVariants.{Mutex};
ghost use Rattle.parking_lot_core.specs.Keys.{IsKeyOf};
ghost use Rattle.parking_lot_core.specs.Sections.{MayNote, StaysIn, rightless_in, taken_in};
ghost use Rattle.parking_lot_core.specs.Tokens.{IsTicketOf, IsTokenOf, IsSameThread};
ghost use Rattle.parking_lot_core.specs.declared.tokens.Did.TheVariants.{Nothing};

use super::parts::{Part, Score, play_beside};
use super::{check_eq, seats_of, ticket_of, told};
use parking_lot_core::{
    Key, Keys, Note, ParkingLot, QueuePlace, Right, Section, Ticket, Token, Want, Word, WordKind,
};
use std::alloc::Global;
use std::process::Abort;
use std::sync::{Arc, Wait};
use std::thread::{Threads, join};
use test_core::lines::{Three, append_three, line_up};
use test_core::mutexes::try_lock;

pub const KEY: Key = 0;

const ALL_SHARED: (Want, Want, Want) = (Want::Shared, Want::Shared, Want::Shared);

// The right of a mutex that is drawn for it. The mutex is pushed to those that were given.
fn some_right(lot: &ParkingLot, token: &mut Token, given: &mut Vec<Word>) -> Option<Right>
    requires { IsTokenOf lot.now token.old }
    ensures own { IsSameThread lot.now token.old token.new }
    ensures right { IfSome result (IsRightOf lot.now.words) }
{
    let Ok(word) = lot.new_word(token, WordKind::Mutex) else {
        return None;
    };
    if given.push(word).is_err() {
        return None;
    }
    try_lock(lot, token, word)
}

fn give_each<R: Wait>(
    rt: &R,
    lot: &ParkingLot,
    token: &mut Token,
    section: &mut Section,
    given: &mut Vec<Word>,
)
    requires { IsTokenOf lot.now token.old × (section.old.lot.now ≡ lot.now) }
    ensures own { IsSameThread lot.now token.old token.new }
    ensures given { StaysIn section.old section.new × (rightless_in section.new ≡ []) }
{
    for _ in rt.forever() {
        if section.rightless().is_empty() {
            return;
        }
        if let Some(right) = some_right(lot, token, given) {
            section.give_next(rt, right);
        }
    }
    unreachable!()
}

#[derive(Clone, Copy)]
enum Way {
    TakeAll,
    TakePicked,
    HandOff,
}

// Takes those that stand in the line. It gives the note that is then right for them.
fn take_together<R: Wait>(
    rt: &R,
    lot: &ParkingLot,
    token: &mut Token,
    section: &mut Section,
    way: Way,
    given: &mut Vec<Word>,
) -> Note
    requires own { IsTokenOf lot.now token.old × (section.old.lot.now ≡ lot.now) }
    requires section { IsKeyOf section.old.keys 0 × (section.old.did ≡ Nothing) }
    ensures own { IsSameThread lot.now token.old token.new }
    ensures note { StaysIn section.old section.new
        × MayNote result (taken_in section.new) (rightless_in section.new) }
{
    match way {
        Way::TakeAll => {
            section.take_all(KEY);
            Note::Normal
        }
        Way::TakePicked => {
            section.take_picked(KEY, None, false);
            Note::Normal
        }
        Way::HandOff => {
            section.take_picked(KEY, None, false);
            give_each(rt, lot, token, section, given);
            Note::HandOff
        }
    }
}

// Three threads line up, and are taken together. It gives the mutexes whose rights they were given,
// in their order, and their places.
fn take_three<'a, R: Wait>(
    rt: &R,
    alloc: Global,
    lot: &'a ParkingLot,
    token: &mut Token,
    way: Way,
) -> (Vec<Word>, Three<'a>)
    requires { IsTokenOf lot.now token.old × (lot.now.records.count ≡ 4) }
    ensures same { IsSameThread lot.now token.old token.new }
    ensures places { (result.1.0.lot.now ≡ lot.now) × (result.1.1.lot.now ≡ lot.now)
        × (result.1.2.lot.now ≡ lot.now) }
{
    let mut given = Vec::new(alloc);
    let mut section = lot.enter(rt, token, Keys::One(KEY));
    let places = append_three(&mut section, KEY, (1, 2, 3), ALL_SHARED);
    let note = take_together(rt, lot, token, &mut section, way, &mut given);
    section.leave(rt, token, note).unwrap();
    (given, places)
}

/// Returns the note of a thread that was taken. It sleeps until it has one. None where the place is
/// another's.
pub fn told_to<'a, R: Wait>(
    rt: &R,
    lot: &'a ParkingLot,
    ticket: Ticket,
    place: QueuePlace<'a>,
    word: Word,
) -> Option<Note>
    requires { IsTicketOf lot.now ticket × (place.lot.now ≡ lot.now) }
{
    let mut token = ticket.enter();
    if place.thread() != token.number() {
        return None;
    }
    let note = told(rt, lot, &mut token, place, word, Want::Exclusive);
    drop(token.leave());
    Some(note)
}

// Returns the notes of three threads that are taken together.
fn notes_of_three<R: Wait>(
    rt: &R,
    alloc: Global,
    lot: &ParkingLot,
    seats: Four,
    way: Way,
) -> [Option<Note>; 3]
    requires seats { IsTicketOf lot.now seats.one × IsTicketOf lot.now seats.two
        × IsTicketOf lot.now seats.three × IsTicketOf lot.now seats.four }
    requires four { lot.now.records.count ≡ 4 }
{
    let Four {
        one,
        two,
        three,
        four,
        word,
    } = seats;
    let mut token = four.enter();
    let (given, (first, second, third)) = take_three(rt, alloc, lot, &mut token, way);
    drop(token.leave());
    [
        told_to(
            rt,
            lot,
            three,
            first,
            given.first().copied().unwrap_or(word),
        ),
        told_to(rt, lot, two, second, given.get(1).copied().unwrap_or(word)),
        told_to(rt, lot, one, third, given.get(2).copied().unwrap_or(word)),
    ]
}

fn each_gets<R: Wait + Abort>(rt: &R, alloc: Global, way: Way, note: Note) {
    let (lot, seats) = seat_four(rt, alloc, 4);
    let notes = notes_of_three(rt, alloc, &lot, seats, way);
    check_eq(rt, notes, [Some(note); 3]);
}

#[test]
fn each_of_three_gets_its_note(rt: HostRuntime) {
    each_gets(&rt, rt.alloc(), Way::TakeAll, Note::Normal);
    each_gets(&rt, rt.alloc(), Way::TakePicked, Note::Normal);
    each_gets(&rt, rt.alloc(), Way::HandOff, Note::HandOff);
}

// Lines up and sleeps. 1 where it was woken.
pub fn sleep_in_line<R: Wait>(rt: &R, lot: &ParkingLot, token: &mut Token, word: Word) -> usize
    requires { IsTokenOf lot.now token.old }
{
    let place = line_up(rt, lot, token, KEY, Want::Shared);
    let note = told(rt, lot, token, place, word, Want::Shared);
    usize::from(note == Note::Normal)
}

// The last four seats of a lot, and a word of it.
#[derive(Drop)]
struct Four {
    one: Ticket,
    two: Ticket,
    three: Ticket,
    four: Ticket,
    word: Word,
}

fn seat_four<A: Abort>(rt: &A, alloc: Global, most: usize) -> (Arc<ParkingLot>, Four)
    requires { (4 ≤ most) × (most ≤ 1024) }
    ensures lot { (arc_value result.0).records.count ≡ most }
    ensures word { IsWordOf (arc_value result.0).words result.1.word × (result.1.word.kind ≡ Mutex) }
    ensures seats { IsTicketOf (arc_value result.0) result.1.one
        × IsTicketOf (arc_value result.0) result.1.two
        × IsTicketOf (arc_value result.0) result.1.three
        × IsTicketOf (arc_value result.0) result.1.four }
{
    let (lot, token, mut others, word) = seats_of(rt, alloc, 8, most);
    let two = ticket_of(rt, &lot, &mut others);
    let three = ticket_of(rt, &lot, &mut others);
    let seats = Four {
        one: token.leave(),
        two,
        three,
        four: ticket_of(rt, &lot, &mut others),
        word,
    };
    (lot, seats)
}

const SLEEPERS: (Part, Part) = (Part::SleepInLine, Part::SleepInLine);

const SLEEPER_AND_WAKER: (Part, Part) = (Part::SleepInLine, Part::WakeThree);

// Three sleep, and the fourth wakes them. How many of them were woken.
fn all_four<R: Threads + Wait + Sync>(rt: &R, lot: &ParkingLot, seats: Four) -> usize
    requires seats { IsTicketOf lot.now seats.one × IsTicketOf lot.now seats.two
        × IsTicketOf lot.now seats.three
        × IsTicketOf lot.now seats.four }
    requires word { IsWordOf lot.now.words seats.word × (seats.word.kind ≡ Mutex) }
{
    let Four {
        one,
        two,
        three,
        four,
        word,
    } = seats;
    let (some, others) = join(
        rt,
        move || -> (Score, Score)
            requires { IsTicketOf lot.now one × IsTicketOf lot.now two × IsWordOf lot.now.words word × (word.kind ≡ Mutex) }
        { play_beside(rt, lot, (one, two), word, SLEEPERS) },
        move || -> (Score, Score)
            requires { IsTicketOf lot.now three × IsTicketOf lot.now four × IsWordOf lot.now.words word × (word.kind ≡ Mutex) }
        { play_beside(rt, lot, (three, four), word, SLEEPER_AND_WAKER) },
    );
    let ((first, _), (second, _)) = some;
    first.saturating_add(second).saturating_add(others.0.0)
}

#[test]
fn the_last_three_sleepers_wake_together(rt: HostRuntime) {
    let (lot, seats) = seat_four(&rt, rt.alloc(), 1024);
    check_eq(&rt, all_four(&rt, &lot, seats), 3);
}
