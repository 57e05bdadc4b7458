//! Threads that meet in the queues of a lot, sleep there and are woken.
mod buckets;
mod clocks;
mod many;
mod parts;
mod records;
mod rights;
mod several;
mod strangers;
mod threads;

ghost use Rattle.std.specs.Prelude.{◌≡◌, ◌≤◌, ◌<◌, All, IfSome};
ghost use Rattle.std.specs.Arc.{arc_value};
ghost use Rattle.core_words.specs.Indices.{permits_in};
ghost use Rattle.core_words.specs.Lots.{IsWordOf};
ghost use Rattle.core_words.specs.RightsOf.{IsFor, IsRightOf};
ghost use Rattle.core_words.specs.declared.words.WordKind.TheVariants.{Mutex};
ghost use Rattle.parking_lot_core.specs.Keys.{IsKeyOf};
ghost use Rattle.parking_lot_core.specs.Places.{IsPlaceOf};
ghost use Rattle.parking_lot_core.specs.Sections.{IsUntouched, StaysIn, rightless_in, taken_in};
ghost use Rattle.parking_lot_core.specs.Tokens.{IsNewTicketOf, IsSameThread, IsTicketOf, IsTokenOf};

use core_clocks::TickClock;
use parking_lot_core::pauses::{SHORT_PAUSE, pause};
use parking_lot_core::{
    Key, Keys, Note, ParkingLot, QueuePlace, Right, Section, Slept, Ticket, Token, Want, Word,
    WordKind,
};
use std::alloc::Global;
use std::fmt::Debug;
use std::process::Abort;
use std::sync::{Arc, Wait};
use std::thread::yield_now;
use test_core::lines::next_of;

const TURNS: usize = 2000;

// Asserts that the thing found is the thing wanted. All tests share this one assertion, since each
// is proved where it stands.
fn check_eq<T: PartialEq + Debug + Drop>(rt: &impl Abort, found: T, wanted: T) {
    assert_eq!(rt; found, wanted);
}

// Asserts that a condition holds.
fn check(rt: &impl Abort, truth: bool) {
    assert!(rt; truth);
}

// A maker of lots and words gives up where memory is refused, so that no test has anything to drop
// in its midst.
fn new_lot<A: Abort>(
    rt: &A,
    alloc: Global,
    words: usize,
    seats: usize,
) -> (Arc<ParkingLot>, Vec<Ticket>)
    requires { (0 < words) × (words ≤ 1048576) × (0 < seats) × (seats ≤ 1024) }
    ensures lot { (arc_value result.0).records.count ≡ seats }
    ensures seats { All (IsNewTicketOf (arc_value result.0)) result.1.items }
{
    match ParkingLot::new(alloc, words, seats) {
        Ok(made) => made,
        Err(_) => panic!(rt; "no lot"),
    }
}

// A lot, the token of the last of its seats, and the tickets of the others.
fn lot_of<A: Abort>(
    rt: &A,
    alloc: Global,
    words: usize,
    seats: usize,
) -> (Arc<ParkingLot>, Token, Vec<Ticket>)
    requires { (0 < words) × (words ≤ 1048576) × (0 < seats) × (seats ≤ 1024) }
    ensures lot { (arc_value result.0).records.count ≡ seats }
    ensures seats { IsTokenOf (arc_value result.0) result.1
        × All (IsNewTicketOf (arc_value result.0)) result.2.items }
{
    let (lot, mut others) = new_lot(rt, alloc, words, seats);
    let ticket = ticket_of(rt, &lot, &mut others);
    (lot, ticket.enter(), others)
}

// A word of a lot.
fn word_of<A: Abort>(rt: &A, lot: &ParkingLot, token: &mut Token, kind: WordKind) -> Word
    requires own { IsTokenOf lot.now token.old }
    requires bare { permits_in kind ≡ 0 }
    ensures own { IsSameThread lot.now token.old token.new }
    ensures word { IsWordOf lot.now.words result × (result.kind ≡ kind) }
{
    match lot.new_word(token, kind) {
        Ok(word) => word,
        Err(_) => panic!(rt; "no word"),
    }
}

// A lot of one seat and so many words, its token, and a mutex.
fn mutex_of<A: Abort>(rt: &A, alloc: Global, words: usize) -> (Arc<ParkingLot>, Token, Word)
    requires { (0 < words) × (words ≤ 1048576) }
    ensures { IsTokenOf (arc_value result.0) result.1
        × IsWordOf (arc_value result.0).words result.2 × (result.2.kind ≡ Mutex) }
{
    let (lot, token, _, word) = seats_of(rt, alloc, words, 1);
    (lot, token, word)
}

// A lot, the token of the last of its seats, the tickets of the others, and a mutex.
fn seats_of<A: Abort>(
    rt: &A,
    alloc: Global,
    words: usize,
    seats: usize,
) -> (Arc<ParkingLot>, Token, Vec<Ticket>, Word)
    requires { (0 < words) × (words ≤ 1048576) × (0 < seats) × (seats ≤ 1024) }
    ensures lot { (arc_value result.0).records.count ≡ seats }
    ensures seats { IsTokenOf (arc_value result.0) result.1
        × All (IsNewTicketOf (arc_value result.0)) result.2.items }
    ensures word { IsWordOf (arc_value result.0).words result.3 × (result.3.kind ≡ Mutex) }
{
    let (lot, mut token, others) = lot_of(rt, alloc, words, seats);
    let word = word_of(rt, &lot, &mut token, WordKind::Mutex);
    (lot, token, others, word)
}

fn ticket_of<A: Abort>(rt: &A, lot: &ParkingLot, tickets: &mut Vec<Ticket>) -> Ticket
    requires { All (IsNewTicketOf lot.now) tickets.old.items }
    ensures one { IsTicketOf lot.now result }
    ensures left { All (IsNewTicketOf lot.now) tickets.new.items }
{
    match next_of(lot, tickets) {
        Some(ticket) => ticket,
        None => panic!(rt; "no ticket"),
    }
}

// Lets so many short pauses pass, in which others run.
fn delay(turns: usize) {
    for _ in 0..turns {
        pause(SHORT_PAUSE);
    }
}

// The part of a thread in a section of one key.
#[derive(Clone, Copy)]
enum Task {
    TakeFirst,
    TakeThree,
}

// Does it. It gives the first that was taken, if any.
fn perform(section: &mut Section, key: Key, task: Task) -> Option<usize>
    requires { IsKeyOf section.old.keys key × IsUntouched section.old }
    ensures { StaysIn section.old section.new × (rightless_in section.new ≡ taken_in section.new) }
{
    match task {
        Task::TakeFirst => section.take_first(key),
        Task::TakeThree => {
            if section.count(key) != 3 {
                return None;
            }
            // The waiters have time to fall asleep: others run for longer than a thread polls before.
            delay(TURNS);
            section.take_all(key);
            section.taken().first().copied()
        }
    }
}

// Does it, and wakes the thread that was taken.
fn in_section<R: Wait>(
    rt: &R,
    lot: &ParkingLot,
    token: &mut Token,
    key: Key,
    task: Task,
) -> Option<usize>
    requires { IsTokenOf lot.now token.old }
    ensures { IsSameThread lot.now token.old token.new }
{
    let mut section = lot.enter(rt, token, Keys::One(key));
    let taken = perform(&mut section, key, task);
    section.leave(rt, token, Note::Normal).unwrap();
    taken
}

// Does it again and again, until somebody was taken.
fn until_taken<R: Wait>(rt: &R, lot: &ParkingLot, token: &mut Token, key: Key, task: Task)
    requires { IsTokenOf lot.now token.old }
    ensures { IsSameThread lot.now token.old token.new }
{
    for _ in rt.forever() {
        if in_section(rt, lot, token, key, task).is_some() {
            return;
        }
        yield_now();
    }
}

// The right that a thread is handed in its sleep, or none where it is told to try again. Its sleep
// has no limit, so that it is never late.
fn sleep<'a, R: Wait>(
    rt: &R,
    lot: &'a ParkingLot,
    token: &mut Token,
    place: QueuePlace<'a>,
    word: Word,
    want: Want,
) -> Option<Right>
    requires { IsTokenOf lot.now token.old × IsPlaceOf lot.now token.old.number place }
    ensures own { IsSameThread lot.now token.old token.new }
    ensures right { IfSome result (λ right. IsRightOf lot.now.words right × IsFor word want right) }
{
    match lot.sleep(rt, token, place, word, want, None::<(&TickClock, u64)>) {
        Slept::Handed(right) => Some(right),
        Slept::Woken(_) => None,
        Slept::Late(_section, _, _) => unreachable!(),
    }
}

// Returns the note that a thread is given in such a sleep. A right that it is handed is forgotten.
fn told<'a, R: Wait>(
    rt: &R,
    lot: &'a ParkingLot,
    token: &mut Token,
    place: QueuePlace<'a>,
    word: Word,
    want: Want,
) -> Note
    requires { IsTokenOf lot.now token.old × IsPlaceOf lot.now token.old.number place }
    ensures { IsSameThread lot.now token.old token.new }
{
    match sleep(rt, lot, token, place, word, want) {
        Some(right) => {
            right.forget();
            Note::HandOff
        }
        None => Note::Normal,
    }
}
