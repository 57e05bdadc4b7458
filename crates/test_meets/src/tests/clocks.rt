//! Clocks, and sleepers whose time is up.
ghost use Rattle.parking_lot_core.specs.Places.{IsPlaceOf};
ghost use Rattle.parking_lot_core.specs.Tokens.{IsTicketOf, IsTokenOf, IsSameThread};

use super::buckets::is_told;
use super::{
    TURNS, Task, check, check_eq, delay, lot_of, mutex_of, ticket_of, until_taken, word_of,
};
use core_clocks::TickClock;
use parking_lot_core::{
    Clock, Key, Keys, Note, ParkingLot, QueuePlace, Requeue, Slept, SystemClock, Ticket, Token,
    Want, Word, WordKind,
};
use std::alloc::Global;
use std::io;
use std::process::Abort;
use std::sync::Wait;
use std::sync::atomic::Ordering::SeqCst;
use std::sync::atomic::{AtomicBool, AtomicU64};
use std::thread::join;
use std::time::Duration;
use test_core::lines::line_up;

const KEY: Key = 4;

// The key under which a waiter is moved.
const FURTHER: Key = 6;

// Returns the note that a thread is given in a sleep up to a deadline, or the key under which it
// was late, and the key under which it stood. A late thread leaves its place, and a right that it
// is handed is forgotten.
pub fn told_until<'a, R: Wait, C: Clock>(
    rt: &R,
    lot: &'a ParkingLot,
    token: &mut Token,
    place: QueuePlace<'a>,
    word: Word,
    limit: (&C, u64),
) -> Result<Note, (Key, Option<Key>)>
    requires { IsTokenOf lot.now token.old × IsPlaceOf lot.now token.old.number place }
    ensures { IsSameThread lot.now token.old token.new }
{
    match lot.sleep(rt, token, place, word, Want::Exclusive, Some(limit)) {
        Slept::Late(mut section, key, place) => {
            let stood = section.key_of(token.number());
            section.remove(place);
            section.leave(rt, token, Note::Normal).unwrap();
            Err((key, stood))
        }
        Slept::Handed(right) => {
            right.forget();
            Ok(Note::HandOff)
        }
        Slept::Woken(note) => Ok(note.kind()),
    }
}

// Nobody wakes a thread up to this time.
fn is_late<R: Wait + Abort, C: Clock>(rt: &R, alloc: Global, limit: (&C, u64)) {
    let (lot, mut token, word) = mutex_of(rt, alloc, 4);
    let place = line_up(rt, &lot, &mut token, KEY, Want::Exclusive);
    let told = told_until(rt, &lot, &mut token, place, word, limit);
    check_eq(rt, told, Err((KEY, Some(KEY))));
    check_eq(rt, lot.queued(rt, &mut token, KEY), 0);
}

#[test]
fn a_sleeper_that_is_not_woken_is_late(rt: HostRuntime) {
    let clock = TickClock::starting_at(1000);
    is_late(&rt, rt.alloc(), (&clock, 1005));
    check_eq(&rt, clock.now(), 1006);
}

// A clock on which time passes by pauses alone. It counts them.
#[derive(Drop)]
struct PauseClock {
    time: AtomicU64,
    pauses: AtomicU64,
}

impl Clock for PauseClock {
    ghost tells = { λ _ _. Unit {0} };

    fn now(&self) -> u64 {
        self.time.load(SeqCst)
    }

    fn pause(&self, left: u64) {
        self.time.fetch_add(left, SeqCst);
        self.pauses.fetch_add(1, SeqCst);
    }
}

// A system whose clock can't be read.
#[derive(Drop)]
struct NoTime;

impl std::time::Clock for NoTime {
    fn monotonic(&self) -> io::Result<Duration> {
        Err(io::Error::from(io::ErrorKind::Other))
    }

    fn since_1970(&self) -> io::Result<Duration> {
        Err(io::Error::from(io::ErrorKind::Other))
    }
}

#[test]
fn a_clock_that_cannot_be_read_tells_the_last_time(rt: HostRuntime) {
    let clock = SystemClock::new(NoTime);
    check_eq(&rt, clock.now(), u64::MAX);
    is_late(&rt, rt.alloc(), (&clock, u64::MAX));
}

#[test]
fn a_sleeper_pauses_for_what_is_left(rt: HostRuntime) {
    let clock = PauseClock {
        time: AtomicU64::new(1000),
        pauses: AtomicU64::new(0),
    };
    is_late(&rt, rt.alloc(), (&clock, 1005));
    check_eq(&rt, clock.now(), 1005);
    check_eq(&rt, clock.pauses.load(SeqCst), 1);
}

// A clock that notes that it was asked, past each deadline of 0.
#[derive(Drop)]
struct NotingClock<'a>(&'a AtomicBool);

impl Clock for NotingClock<'_> {
    ghost tells = { λ _ _. Unit {0} };

    fn now(&self) -> u64 {
        self.0.store(true, SeqCst);
        1
    }

    fn pause(&self, _left: u64) {}
}

// What two threads tell each other: that one stands in the line, that the other is inside the
// section, and that the first has asked its clock.
#[derive(Drop)]
struct Flags {
    stands: AtomicBool,
    inside: AtomicBool,
    asked: AtomicBool,
}

// Sleeps past a deadline while another thread is inside the section, and takes this one there.
// Returns whether this thread was woken.
fn is_woken_past_it<R: Wait>(
    rt: &R,
    lot: &ParkingLot,
    ticket: Ticket,
    word: Word,
    flags: &Flags,
) -> bool
    requires { IsTicketOf lot.now ticket }
{
    let mut token = ticket.enter();
    let place = line_up(rt, lot, &mut token, KEY, Want::Exclusive);
    flags.stands.store(true, SeqCst);
    let begun = is_told(&flags.inside);
    let clock = NotingClock(&flags.asked);
    let told = told_until(rt, lot, &mut token, place, word, (&clock, 0));
    drop(token.leave());
    begun && told == Ok(Note::Normal)
}

// Takes the first in the line, once that thread has asked its clock.
fn take_once_asked<R: Wait>(rt: &R, lot: &ParkingLot, ticket: Ticket, flags: &Flags) -> bool
    requires { IsTicketOf lot.now ticket }
{
    let mut token = ticket.enter();
    let stands = is_told(&flags.stands);
    let mut section = lot.enter(rt, &mut token, Keys::One(KEY));
    flags.inside.store(true, SeqCst);
    let told = is_told(&flags.asked);
    section.take_first(KEY);
    section.leave(rt, &mut token, Note::Normal).unwrap();
    drop(token.leave());
    stands && told
}

#[test]
fn a_taken_waiter_is_not_late(rt: HostRuntime) {
    let (lot, mut token, mut others) = lot_of(&rt, rt.alloc(), 1, 2);
    let word = word_of(&rt, &lot, &mut token, WordKind::Mutex);
    let (first, second) = (ticket_of(&rt, &lot, &mut others), token.leave());
    let flags = Flags {
        stands: AtomicBool::new(false),
        inside: AtomicBool::new(false),
        asked: AtomicBool::new(false),
    };
    let (lot, flags) = (&*lot, &flags);
    let (woken, told) = join(
        &rt,
        move || is_woken_past_it(&rt, lot, first, word, flags),
        move || take_once_asked(&rt, lot, second, flags),
    );
    check(&rt, woken && told);
}

// Sleeps past a deadline while another thread is inside the section of two keys, and moves this one
// there. Returns whether this thread was late under the other key.
fn is_late_where_moved<R: Wait>(
    rt: &R,
    lot: &ParkingLot,
    ticket: Ticket,
    word: Word,
    flags: &Flags,
) -> bool
    requires { IsTicketOf lot.now ticket }
{
    let mut token = ticket.enter();
    let place = line_up(rt, lot, &mut token, KEY, Want::Exclusive);
    flags.stands.store(true, SeqCst);
    let begun = is_told(&flags.inside);
    let clock = NotingClock(&flags.asked);
    let told = told_until(rt, lot, &mut token, place, word, (&clock, 0));
    drop(token.leave());
    begun && told == Err((FURTHER, Some(FURTHER)))
}

// Moves the thread in the line, once it has asked its clock and has had time to read under which key it
// stands.
fn move_once_asked<R: Wait>(rt: &R, lot: &ParkingLot, ticket: Ticket, flags: &Flags) -> bool
    requires { IsTicketOf lot.now ticket }
{
    let mut token = ticket.enter();
    let stands = is_told(&flags.stands);
    let mut section = lot.enter(rt, &mut token, Keys::Two(KEY, FURTHER));
    flags.inside.store(true, SeqCst);
    let told = is_told(&flags.asked);
    delay(TURNS);
    let (_, moved) = section.requeue(KEY, FURTHER, Requeue::All);
    section.leave(rt, &mut token, Note::Normal).unwrap();
    drop(token.leave());
    stands && told && moved == 1
}

#[test]
fn a_moved_waiter_is_late_where_it_stands(rt: HostRuntime) {
    let (lot, mut token, mut others) = lot_of(&rt, rt.alloc(), 1, 2);
    let word = word_of(&rt, &lot, &mut token, WordKind::Mutex);
    let (first, second) = (ticket_of(&rt, &lot, &mut others), token.leave());
    let flags = Flags {
        stands: AtomicBool::new(false),
        inside: AtomicBool::new(false),
        asked: AtomicBool::new(false),
    };
    let (lot, flags) = (&*lot, &flags);
    let (late, moved) = join(
        &rt,
        move || is_late_where_moved(&rt, lot, first, word, flags),
        move || move_once_asked(&rt, lot, second, flags),
    );
    check(&rt, late && moved);
}

// An hour, in nanoseconds.
const HOUR: u64 = 3_600_000_000_000;

// Sleeps up to a deadline that is an hour off, by the system's clock. Returns whether the thread was woken.
fn is_woken_in_time<R: Wait + std::time::Clock>(
    rt: &R,
    lot: &ParkingLot,
    ticket: Ticket,
    word: Word,
    stands: &AtomicBool,
) -> bool
    requires { IsTicketOf lot.now ticket }
{
    let mut token = ticket.enter();
    let clock = SystemClock::new(rt);
    let deadline = clock.now().saturating_add(HOUR);
    let place = line_up(rt, lot, &mut token, KEY, Want::Exclusive);
    stands.store(true, SeqCst);
    let told = told_until(rt, lot, &mut token, place, word, (&clock, deadline));
    drop(token.leave());
    told == Ok(Note::Normal)
}

// Takes the thread in the line, once that thread has had time to fall asleep.
fn take_asleep<R: Wait>(rt: &R, lot: &ParkingLot, ticket: Ticket, stands: &AtomicBool) -> bool
    requires { IsTicketOf lot.now ticket }
{
    let mut token = ticket.enter();
    let told = is_told(stands);
    delay(TURNS);
    until_taken(rt, lot, &mut token, KEY, Task::TakeFirst);
    drop(token.leave());
    told
}

#[test]
fn a_sleeper_by_the_system_clock_is_woken_in_time(rt: HostRuntime) {
    let (lot, mut token, mut others) = lot_of(&rt, rt.alloc(), 1, 2);
    let word = word_of(&rt, &lot, &mut token, WordKind::Mutex);
    let (first, second) = (ticket_of(&rt, &lot, &mut others), token.leave());
    let stands = AtomicBool::new(false);
    let (lot, stands) = (&*lot, &stands);
    let (woken, told) = join(
        &rt,
        move || is_woken_in_time(&rt, lot, first, word, stands),
        move || take_asleep(&rt, lot, second, stands),
    );
    check(&rt, woken && told);
}

#[test]
fn a_sleeper_by_the_system_clock_is_late(rt: HostRuntime) {
    let clock = SystemClock::new(&rt);
    let deadline = clock.now().saturating_add(1_000_000);
    is_late(&rt, rt.alloc(), (&clock, deadline));
    check(&rt, clock.now() >= deadline);
}
