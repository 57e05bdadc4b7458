//! The answers of calls, beside what happened since they began.

use crate::answers::{rights_after, told_violation};
use crate::picks::check_picks;
use crate::seen::{Rights, Seen};
use crate::violations::Violation;
use spec_locks::{Answer, Call, Kind, Outcome, Step, Turn};
use std::alloc::{AllocError, Global};

/// A call under way: the rights that its thread had as it began, how many waiters it has taken or moved
/// from a condition variable, and whether it was late, was notified, and whether its closure failed.
#[derive(Clone, Copy)]
pub struct Begun {
    pub call: Call,
    pub had: Rights,
    pub moved: usize,
    pub is_late: bool,
    pub is_notified: bool,
    pub has_failed: bool,
}

/// The calls of a world's threads.
#[derive(Drop)]
pub struct Watch {
    begun: Vec<Option<Begun>>,
}

impl Watch {
    /// Nobody is in a call yet.
    pub fn new(alloc: Global, threads: usize) -> Result<Watch, AllocError> {
        Ok(Watch {
            begun: Vec::from_elem(alloc, None, threads)?,
        })
    }

    /// Follows one step, and names the first violation where its thread was told what isn't so, or took
    /// others of a queue than its call lets in.
    pub fn follow(
        &mut self,
        before: &Seen,
        step: Step,
        outcome: Outcome,
        after: &Seen,
    ) -> Result<(), Violation> {
        if outcome == Outcome::NotNow {
            return Ok(());
        }
        self.note_turn(before, step);
        if let Some(Some(begun)) = self.begun.get(step.thread) {
            check_picks(before, step.thread, begun.call, after)?;
        }
        self.note_moves(before, step.thread, after);
        match outcome {
            Outcome::End(answer) => self.end(before, step.thread, answer, after),
            _ => Ok(()),
        }
    }

    fn note_turn(&mut self, before: &Seen, step: Step) {
        let thread = step.thread;
        if thread >= self.begun.len() {
            return;
        }
        if let Turn::Begin(call) = step.turn {
            self.begun[thread] = begin(before, thread, call);
            return;
        }
        if let Some(begun) = &mut self.begun[thread] {
            match step.turn {
                Turn::Late => begun.is_late = true,
                Turn::Err => begun.has_failed = true,
                _ => {}
            }
        }
    }

    /// Counts the threads that the mover takes or moves from a condition variable: each of them is
    /// notified.
    fn note_moves(&mut self, before: &Seen, mover: usize, after: &Seen) {
        for (old, new) in before.locks.iter().zip(after.locks.iter()) {
            if old.kind != Kind::Condvar {
                continue;
            }
            for waiter in old.main.iter() {
                if waiter.thread != mover && !new.queues(waiter.thread) {
                    self.note_move(mover, waiter.thread);
                }
            }
        }
    }

    fn note_move(&mut self, mover: usize, waiter: usize) {
        if mover < self.begun.len() {
            if let Some(begun) = &mut self.begun[mover] {
                begun.moved = begun.moved.wrapping_add(1);
            }
        }
        if waiter < self.begun.len() {
            if let Some(begun) = &mut self.begun[waiter] {
                begun.is_notified = true;
            }
        }
    }

    fn end(
        &mut self,
        before: &Seen,
        thread: usize,
        answer: Answer,
        after: &Seen,
    ) -> Result<(), Violation> {
        let Some(Some(begun)) = self.begun.get(thread) else {
            return Err(Violation::StrangeAnswer(thread));
        };
        let begun = *begun;
        let Some(rights) = rights_after(begun.call, answer, begun.had) else {
            return Err(Violation::StrangeAnswer(thread));
        };
        if let Some(shown) = after.locks.get(begun.call.needs_right_to()) {
            if shown.rights_of(thread) != rights {
                return Err(Violation::ToldWrong(thread));
            }
        }
        match told_violation(before, thread, begun, answer, after) {
            Some(violation) => Err(violation),
            None => Ok(()),
        }
    }
}

/// A call that begins, where its locks are there.
fn begin(before: &Seen, thread: usize, call: Call) -> Option<Begun> {
    let shown = before.locks.get(call.needs_right_to())?;
    Some(Begun {
        call,
        had: shown.rights_of(thread),
        moved: 0,
        is_late: false,
        is_notified: false,
        has_failed: false,
    })
}
