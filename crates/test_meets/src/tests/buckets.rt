//! Sections of two buckets, side by side, and waiters that are moved from one to the other.
ghost use Rattle.std.specs.Prelude.{◌≡◌, ◌<◌, ◌≤◌};
ghost use Rattle.parking_lot_core.specs.Tokens.{IsSameThread, IsTicketOf, IsTokenOf};

use super::parts::{Part, play};
use super::{Task, check, check_eq, in_section, lot_of, ticket_of, word_of};
use core_base::main_key;
use parking_lot_core::{Key, Keys, Note, ParkingLot, Requeue, Ticket, Token, WordKind};
use std::alloc::Global;
use std::process::Abort;
use std::sync::Wait;
use std::sync::atomic::AtomicBool;
use std::sync::atomic::Ordering::SeqCst;
use std::thread::{Threads, join, yield_now};
use test_core::lines::lie_apart;

const KEY: Key = 0;

const OTHER: Key = 1;

const TURNS: usize = 1_000_000;

const WORDS: usize = 16;

// Two mutexes' main keys, the second of which is drawn until it has another bucket.
fn keys_apart<A: Abort>(rt: &A, lot: &ParkingLot, token: &mut Token, seats: usize) -> (Key, Key)
    requires { IsTokenOf lot.now token.old × (seats ≤ 1024) }
    ensures { IsSameThread lot.now token.old token.new }
{
    let word = word_of(rt, lot, token, WordKind::Mutex);
    let key = main_key(word.number());
    for _ in 1..WORDS {
        let word = word_of(rt, lot, token, WordKind::Mutex);
        let other = main_key(word.number());
        if lie_apart(seats, key, other) {
            return (key, other);
        }
    }
    (key, key)
}

pub fn is_told(flag: &AtomicBool) -> bool {
    for _ in 0..TURNS {
        if flag.load(SeqCst) {
            return true;
        }
        yield_now();
    }
    false
}

// Stays in the section of a key until it is told that another has been left. Whether it was told.
fn stay<R: Wait>(
    rt: &R,
    lot: &ParkingLot,
    ticket: Ticket,
    key: Key,
    inside: &AtomicBool,
    left: &AtomicBool,
) -> bool
    requires { IsTicketOf lot.now ticket }
{
    let mut token = ticket.enter();
    let section = lot.enter(rt, &mut token, Keys::One(key));
    inside.store(true, SeqCst);
    let told = is_told(left);
    section.leave(rt, &mut token, Note::Normal).unwrap();
    drop(token.leave());
    told
}

// Enters and leaves the section of a key, once another thread stays in one.
fn pass<R: Wait>(
    rt: &R,
    lot: &ParkingLot,
    ticket: Ticket,
    key: Key,
    inside: &AtomicBool,
    left: &AtomicBool,
) -> bool
    requires { IsTicketOf lot.now ticket }
{
    let mut token = ticket.enter();
    let told = is_told(inside);
    in_section(rt, lot, &mut token, key, Task::TakeFirst);
    left.store(true, SeqCst);
    drop(token.leave());
    told
}

// Returns whether a thread enters and leaves a section while another stays in one of another
// bucket.
fn both_enter<R: Threads + Wait + Sync + Abort>(rt: &R, alloc: Global, seats: usize) -> (bool, bool)
    requires { (1 < seats) × (seats ≤ 1024) }
{
    let (lot, mut token, mut others) = lot_of(rt, alloc, WORDS, seats);
    let (key, other) = keys_apart(rt, &lot, &mut token, seats);
    check(rt, lie_apart(seats, key, other));
    let (one, two) = (token.leave(), ticket_of(rt, &lot, &mut others));
    let (inside, left) = (AtomicBool::new(false), AtomicBool::new(false));
    let (lot, inside, left) = (&*lot, &inside, &left);
    join(
        rt,
        move || stay(rt, lot, one, key, inside, left),
        move || pass(rt, lot, two, other, inside, left),
    )
}

#[test]
fn sections_of_two_buckets_are_entered_at_once(rt: HostRuntime) {
    check_eq(&rt, both_enter(&rt, rt.alloc(), 8), (true, true));
    check_eq(&rt, both_enter(&rt, rt.alloc(), 64), (true, true));
}

fn shift<R: Wait>(rt: &R, lot: &ParkingLot, token: &mut Token, back: bool)
    requires { IsTokenOf lot.now token.old }
    ensures { IsSameThread lot.now token.old token.new }
{
    let mut section = lot.enter(rt, token, Keys::Two(KEY, OTHER));
    if back {
        section.requeue(OTHER, KEY, Requeue::All);
    } else {
        section.requeue(KEY, OTHER, Requeue::All);
    }
    section.leave(rt, token, Note::Normal).unwrap();
}

// Moves each thread that lines up to another key, back and there again, and may take the first. How
// many it took.
pub fn wake_moved<R: Wait>(
    rt: &R,
    lot: &ParkingLot,
    token: &mut Token,
    done: &AtomicBool,
    takes: bool,
) -> usize
    requires { IsTokenOf lot.now token.old }
{
    let mut taken = 0usize;
    for _ in rt.forever() {
        if done.load(SeqCst) {
            break;
        }
        for back in [false, true, false] {
            shift(rt, lot, token, back);
        }
        if takes && in_section(rt, lot, token, OTHER, Task::TakeFirst).is_some() {
            taken = taken.saturating_add(1);
        }
        yield_now();
    }
    taken
}

#[test]
fn a_moved_waiter_is_taken_or_late(rt: HostRuntime) {
    // The lot has two seats, and two buckets.
    check(&rt, lie_apart(2, KEY, OTHER));
    let ((woken, late), taken) = play(&rt, rt.alloc(), (Part::SleepBriefly, Part::WakeMoved));
    let ended = (woken, woken.saturating_add(late));
    check_eq(&rt, ended, (taken.0, 200));
}

#[test]
fn a_moved_waiter_that_is_not_taken_is_late(rt: HostRuntime) {
    let (ended, _) = play(&rt, rt.alloc(), (Part::SleepBriefly, Part::Move));
    check_eq(&rt, ended, (0, 200));
}
