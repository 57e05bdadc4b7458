//! The threads of a run.

use crate::turns::{Deed, Turn};
use std::alloc::{AllocError, Global};

/// What a thread is up to.
#[derive(Clone, Copy, Debug, PartialEq, Eq)]
pub enum Status {
    /// The thread is not there yet.
    Absent,
    /// The thread runs, or waits for its turn.
    Ready,
    /// The thread sleeps until another thread wakes it.
    Asleep,
    /// The thread is at its end.
    Gone,
}

/// A thread of a run.
#[derive(Clone, Copy, Debug, PartialEq, Eq)]
pub struct Member {
    pub status: Status,
    /// What it does in its next turn, or waits for.
    pub next: Turn,
    /// The call that it began last.
    pub call: Option<Turn>,
    pub(crate) priority: u64,
}

/// The threads of a run, by their numbers.
pub(crate) struct Crew {
    members: Vec<Member>,
}

// The drop is written, and not derived, so that it is proved here alone.
impl Drop for Crew {
    fn drop(self) {
        let Crew { members: _members } = self;
    }
}

impl Crew {
    pub(crate) fn new(alloc: Global) -> Crew {
        Crew {
            members: Vec::new(alloc),
        }
    }

    pub(crate) fn clear(&mut self) {
        self.members.clear();
    }

    pub(crate) fn expect_one(&mut self, priority: u64) -> Result<(), AllocError> {
        let thread = self.members.len();
        self.members.push(Member {
            status: Status::Absent,
            next: Turn::at(thread, Deed::Begin, 0),
            call: None,
            priority,
        })?;
        Ok(())
    }

    pub(crate) fn members(&self) -> &Vec<Member> {
        &self.members
    }

    pub(crate) fn len(&self) -> usize {
        self.members.len()
    }

    pub(crate) fn get(&self, thread: usize) -> Option<Member> {
        self.members.get(thread).copied()
    }

    pub(crate) fn get_mut(&mut self, thread: usize) -> Option<&mut Member> {
        self.members.get_mut(thread)
    }

    pub(crate) fn has(&self, status: Status) -> bool {
        self.members.iter().any(|member| member.status == status)
    }

    pub(crate) fn is_ready(&self, thread: usize) -> bool {
        self.get(thread)
            .is_some_and(|member| member.status == Status::Ready)
    }

    pub(crate) fn count_ready(&self) -> u64 {
        let mut count = 0u64;
        for member in &self.members {
            if member.status == Status::Ready {
                count = count.wrapping_add(1);
            }
        }
        count
    }

    /// Returns a thread that is ready: of those from a thread on, and then from 0 on, the one that
    /// comes after so many others.
    pub(crate) fn nth_ready(&self, from: usize, nth: u64) -> Option<usize> {
        let number = self.members.len();
        let mut left = nth;
        for step in 0..number {
            let thread = from.wrapping_add(step).checked_rem(number).unwrap_or(0);
            if self.is_ready(thread) {
                if left == 0 {
                    return Some(thread);
                }
                left = left.wrapping_sub(1);
            }
        }
        None
    }

    /// Returns the first thread that has not begun its part of the program.
    pub(crate) fn first_to_begin(&self) -> Option<usize> {
        self.members.iter().position(|member| {
            member.status == Status::Ready && member.next.deed == Deed::Begin
        })
    }

    pub(crate) fn highest_ready(&self) -> Option<usize> {
        let mut best = None;
        let mut most = 0;
        for (thread, member) in self.members.iter().enumerate() {
            if member.status == Status::Ready && (best.is_none() || member.priority > most) {
                best = Some(thread);
                most = member.priority;
            }
        }
        best
    }
}
