//! How threads that a section took are woken.
//!
//! The types say in which order: a thread is unparked once its record has the note, and which thread was
//! taken next is read before that.
ghost use Rattle.std.specs.Prelude.{◌≡◌, ◌<◌};

use crate::lot::ParkingLot;
use core_base::Note;
use crossbeam_utils::sync::Unparker;
use std::sync::Wait;
use std::sync::atomic::Ordering::SeqCst;

/// The note by which a thread was woken. A wake alone makes one, and it is given once.
#[derive(Drop)]
pub struct WakeNote {
    note: Note,
}

impl WakeNote {
    /// Tells which note it is.
    #[inline]
    pub fn kind(&self) -> Note
        ensures { result ≡ self.now.note }
    {
        self.note
    }
}

/// A thread that was taken, and the one that was taken next with it.
struct Tied {
    thread: usize,
    next: usize,
}

/// A thread whose record has its note.
struct Noted {
    thread: usize,
}

/// What unparks each thread.
#[derive(Drop)]
pub(crate) struct Wakers {
    unparkers: Vec<Unparker>,
}

impl Wakers {
    pub(crate) fn new(unparkers: Vec<Unparker>) -> Wakers {
        Wakers { unparkers }
    }

    fn unpark(&self, noted: Noted) {
        let Noted { thread } = noted;
        if let Some(unparker) = self.unparkers.get(thread) {
            unparker.unpark();
        }
    }
}

impl ParkingLot {
    // Ties those that were taken together, and gives the first.
    pub(crate) fn tie(&self, taken: &[usize]) -> Option<usize> {
        for pair in taken.windows(2) {
            if let Some(next) = self.next_taken.get(pair[0]) {
                next.store(pair[1], SeqCst);
            }
        }
        taken.first().copied()
    }

    fn follow(&self, thread: usize) -> Tied
        ensures { result.thread ≡ thread }
    {
        let next = match self.next_taken.get(thread) {
            Some(next) => next.load(SeqCst),
            None => thread,
        };
        Tied { thread, next }
    }

    fn note<R: Wait>(&self, rt: &R, thread: usize, note: Note) -> Noted
        ensures { result.thread ≡ thread }
    {
        if thread < self.records.len() {
            let (mut wake_record, held) = self.records.take(rt, thread);
            wake_record.note = Some(WakeNote { note });
            self.records.give_back_marked(wake_record, held);
        }
        Noted { thread }
    }

    // Gives a thread its note, and unparks it. Returns which thread was taken next: once the thread
    // runs, it may be taken again.
    fn wake<R: Wait>(&self, rt: &R, tied: Tied, note: Note) -> usize
        ensures { result ≡ tied.next }
    {
        let Tied { thread, next } = tied;
        let noted = self.note(rt, thread, note);
        self.is_woken(thread);
        self.wakers.unpark(noted);
        next
    }

    // Wakes so many threads that were taken one after the other.
    pub(crate) fn wake_tied<R: Wait>(&self, rt: &R, first: usize, number: usize, note: Note) {
        let mut thread = first;
        for _ in 0..number {
            let tied = self.follow(thread);
            thread = self.wake(rt, tied, note);
        }
    }
}
