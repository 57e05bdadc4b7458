//! As many threads as a lot has: whatever its number, a thread that was taken gets its note and its
//! right.
ghost use Rattle.std.specs.Prelude.{◌≡◌, ◌≤◌, ◌<◌, All, IfSome};
ghost use Rattle.core_words.specs.Lots.{IsWordOf};
ghost use Rattle.core_words.specs.declared.words.WordKind.TheVariants.{Mutex};
ghost use Rattle.parking_lot_core.specs.Keys.{IsKeyOf};
ghost use Rattle.parking_lot_core.specs.Sections.{StaysIn, TookAs, rightless_in};
ghost use Rattle.test_meets.specs.Standing.{IsInLot};
ghost use Rattle.parking_lot_core.specs.Tokens.{IsNewTicketOf, IsSameThread, IsTicketOf, IsTokenOf};

use super::several::told_to;
use super::threads::try_hand_over;
use super::{check_eq, seats_of, sleep};
use parking_lot_core::{
    Key, Keys, Note, ParkingLot, QueuePlace, Section, Ticket, Token, Want, Word,
};
use std::alloc::Global;
use std::sync::Wait;
use test_core::lines::{line_up, next_of};
use test_core::mutexes::{try_lock, unlock};

const KEY: Key = 0;

const THREADS: usize = 1024;

// A thread stands after the last in a section. A place for which there is no memory is missed by
// the test.
fn stand<'a>(
    lot: &ParkingLot,
    section: &mut Section<'a>,
    places: &mut Vec<QueuePlace<'a>>,
    thread: usize,
)
    requires section { (section.old.lot.now ≡ lot.now) × IsKeyOf section.old.keys 0 }
    requires thread { thread < lot.now.records.count }
    requires places { All (IsInLot lot.now) places.old.items }
    ensures section { (section.new.lot.now ≡ lot.now) × IsKeyOf section.new.keys 0 }
    ensures same { StaysIn section.old section.new × TookAs section.old section.new
        × (rightless_in section.new ≡ rightless_in section.old) }
    ensures places { All (IsInLot lot.now) places.new.items }
{
    drop(places.push(section.append(KEY, thread, Want::Exclusive)));
}

fn next_place<'a>(lot: &ParkingLot, places: &mut Vec<QueuePlace<'a>>) -> Option<QueuePlace<'a>>
    requires { All (IsInLot lot.now) places.old.items }
    ensures one { IfSome result (IsInLot lot.now) }
    ensures left { All (IsInLot lot.now) places.new.items }
{
    let _ = lot;
    places.pop()
}

// All but the last stand in one line, and are taken together. How many were queued, and their
// places.
fn take_all<'a, R: Wait>(
    rt: &R,
    alloc: Global,
    lot: &'a ParkingLot,
    token: &mut Token,
    threads: usize,
) -> (usize, Vec<QueuePlace<'a>>)
    requires { IsTokenOf lot.now token.old × (threads ≤ lot.now.records.count) }
    ensures same { IsSameThread lot.now token.old token.new }
    ensures places { All (IsInLot lot.now) result.1.items }
{
    let mut places = Vec::new(alloc);
    let mut section = lot.enter(rt, token, Keys::One(KEY));
    for thread in 0..threads {
        stand(lot, &mut section, &mut places, thread);
    }
    section.leave(rt, token, Note::Normal).unwrap();
    let queued = lot.queued(rt, token, KEY);
    let mut section = lot.enter(rt, token, Keys::One(KEY));
    section.take_all(KEY);
    section.leave(rt, token, Note::Normal).unwrap();
    (queued, places)
}

// How many were told to try again, each of which sleeps until it is told something.
fn count_woken<'a, R: Wait>(
    rt: &R,
    lot: &'a ParkingLot,
    tickets: Vec<Ticket>,
    places: Vec<QueuePlace<'a>>,
    word: Word,
) -> usize
    requires tickets { All (IsNewTicketOf lot.now) tickets.items }
    requires places { All (IsInLot lot.now) places.items }
{
    let mut tickets = tickets;
    let mut places = places;
    let mut woken = 0usize;
    for _ in 0..tickets.len() {
        let Some(ticket) = next_of(lot, &mut tickets) else {
            break;
        };
        let Some(place) = next_place(lot, &mut places) else {
            break;
        };
        if told_to(rt, lot, ticket, place, word) == Some(Note::Normal) {
            woken = woken.wrapping_add(1);
        }
    }
    woken
}

#[test]
fn one_leave_wakes_1023_threads(rt: HostRuntime) {
    let (lot, mut server, others, word) = seats_of(&rt, rt.alloc(), 1, THREADS);
    let (queued, places) = take_all(&rt, rt.alloc(), &lot, &mut server, THREADS - 1);
    check_eq(&rt, queued, THREADS - 1);
    check_eq(
        &rt,
        count_woken(&rt, &lot, others, places, word),
        THREADS - 1,
    );
}

// Locks the mutex, and hands it over to a thread, which unlocks it. Whether it got the mutex.
fn serve<R: Wait>(rt: &R, lot: &ParkingLot, server: &mut Token, ticket: Ticket, word: Word) -> bool
    requires own { IsTokenOf lot.now server.old × IsTicketOf lot.now ticket }
    requires word { IsWordOf lot.now.words word × (word.kind ≡ Mutex) }
    ensures { IsSameThread lot.now server.old server.new }
{
    let mut token = ticket.enter();
    let Some(right) = try_lock(lot, server, word) else {
        drop(token.leave());
        return false;
    };
    let place = line_up(rt, lot, &mut token, KEY, Want::Exclusive);
    if let Some(left) = try_hand_over(rt, lot, server, right, 0) {
        left.forget();
    }
    let handed = match sleep(rt, lot, &mut token, place, word, Want::Exclusive) {
        Some(right) => {
            unlock(lot, &mut token, right);
            true
        }
        None => false,
    };
    drop(token.leave());
    handed
}

// How many got the mutex, one after another.
fn count_served<R: Wait>(
    rt: &R,
    lot: &ParkingLot,
    server: &mut Token,
    tickets: Vec<Ticket>,
    word: Word,
) -> usize
    requires threads { IsTokenOf lot.now server.old × All (IsNewTicketOf lot.now) tickets.items }
    requires word { IsWordOf lot.now.words word × (word.kind ≡ Mutex) }
{
    let mut tickets = tickets;
    let mut served = 0usize;
    for _ in 0..tickets.len() {
        let Some(ticket) = next_of(lot, &mut tickets) else {
            break;
        };
        if serve(rt, lot, server, ticket, word) {
            served = served.wrapping_add(1);
        }
    }
    served
}

#[test]
fn a_right_goes_to_each_of_1023_threads(rt: HostRuntime) {
    let (lot, mut server, others, word) = seats_of(&rt, rt.alloc(), 1, THREADS);
    let served = count_served(&rt, &lot, &mut server, others, word);
    check_eq(&rt, served, THREADS - 1);
}
