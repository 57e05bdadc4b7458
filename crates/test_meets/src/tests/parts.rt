//! The parts of threads that meet in the queue, and two of them side by side.
ghost use Rattle.std.specs.Prelude.{◌≡◌};
ghost use Rattle.core_words.specs.Lots.{IsWordOf};
ghost use Rattle.core_words.specs.declared.words.WordKind.TheVariants.{Mutex};
ghost use Rattle.parking_lot_core.specs.Tokens.{IsTicketOf};

use super::buckets::wake_moved;
use super::several::{KEY, sleep_in_line};
use super::threads::{answer, serve, sleep_briefly, sleep_late, wake_early};
use super::{Task, seats_of, ticket_of, until_taken};
use parking_lot_core::{ParkingLot, Ticket, Word};
use std::alloc::Global;
use std::process::Abort;
use std::sync::Wait;
use std::sync::atomic::AtomicBool;
use std::thread::{Threads, join};

/// The part of a thread.
#[derive(Clone, Copy)]
pub enum Part {
    Serve,
    Answer,
    SleepLate,
    WakeEarly,
    SleepBriefly,
    WakeMoved,
    Move,
    SleepInLine,
    WakeThree,
}

/// How often a thread did what it is there for, and how often it was late.
pub type Score = (usize, usize);

// A thread enters, plays its part, and leaves.
fn act<R: Wait>(
    rt: &R,
    lot: &ParkingLot,
    ticket: Ticket,
    word: Word,
    part: Part,
    done: &AtomicBool,
) -> Score
    requires { IsTicketOf lot.now ticket × IsWordOf lot.now.words word × (word.kind ≡ Mutex) }
{
    let mut token = ticket.enter();
    let score = match part {
        Part::Serve => (serve(rt, lot, &mut token, word), 0),
        Part::Answer => (answer(rt, lot, &mut token, word), 0),
        Part::SleepLate => (sleep_late(rt, lot, &mut token, word), 0),
        Part::WakeEarly => {
            wake_early(rt, lot, &mut token, word);
            (0, 0)
        }
        Part::SleepBriefly => sleep_briefly(rt, lot, &mut token, word, done),
        Part::WakeMoved => (wake_moved(rt, lot, &mut token, done, true), 0),
        Part::Move => (wake_moved(rt, lot, &mut token, done, false), 0),
        Part::SleepInLine => (sleep_in_line(rt, lot, &mut token, word), 0),
        Part::WakeThree => {
            until_taken(rt, lot, &mut token, KEY, Task::TakeThree);
            (0, 0)
        }
    };
    drop(token.leave());
    score
}

/// Two threads play their parts side by side.
pub fn play_beside<R: Threads + Wait + Sync>(
    rt: &R,
    lot: &ParkingLot,
    seats: (Ticket, Ticket),
    word: Word,
    parts: (Part, Part),
) -> (Score, Score)
    requires { IsTicketOf lot.now seats.0 × IsTicketOf lot.now seats.1 × IsWordOf lot.now.words word
        × (word.kind ≡ Mutex) }
{
    let done = AtomicBool::new(false);
    let shared = &done;
    let (one, other) = seats;
    join(
        rt,
        move || act(rt, lot, one, word, parts.0, shared),
        move || act(rt, lot, other, word, parts.1, shared),
    )
}

/// Two threads play their parts, with a mutex of a lot of their own.
pub fn play<R: Threads + Wait + Sync + Abort>(
    rt: &R,
    alloc: Global,
    parts: (Part, Part),
) -> (Score, Score) {
    let (lot, token, mut others, word) = seats_of(rt, alloc, 1, 2);
    let other = ticket_of(rt, &lot, &mut others);
    play_beside(rt, &lot, (token.leave(), other), word, parts)
}
