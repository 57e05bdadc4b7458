//! What each thread is about to do, and who goes on.

use crate::chooser::{Chooser, Pick};
use crate::course::{Course, Grain};
use crate::crew::{Crew, Member, Status};
use crate::log::{Log, NewWord};
use crate::turns::{Deed, Ending, Turn};
use std::alloc::{AllocError, Global};

/// Who goes on.
#[derive(Clone, Copy)]
pub(crate) enum Next {
    /// The thread that asks: it has the turn.
    Itself,
    Other(usize),
    /// Nobody, before all threads are there.
    Nobody,
    /// All threads are at their ends.
    Over,
    /// The run is at its end.
    Ended(Ending),
}

/// The plan of a run.
pub(crate) struct Plan {
    crew: Crew,
    chooser: Chooser,
    log: Log,
    // The thread that has the turn.
    running: Option<usize>,
}

// The drop is written, and not derived, so that it is proved here alone.
impl Drop for Plan {
    fn drop(self) {
        let Plan {
            crew: _crew,
            chooser: _chooser,
            log: _log,
            running: _running,
        } = self;
    }
}

impl Plan {
    pub(crate) fn new(
        alloc: Global,
        course: Course,
        script: Vec<usize>,
    ) -> Result<Plan, AllocError> {
        Ok(Plan {
            crew: Crew::new(alloc),
            chooser: Chooser::new(alloc, course, script)?,
            log: Log::new(alloc),
            running: None,
        })
    }

    pub(crate) fn log(&self) -> &Log {
        &self.log
    }

    pub(crate) fn members(&self) -> &Vec<Member> {
        self.crew.members()
    }

    pub(crate) fn threads(&self) -> usize {
        self.crew.len()
    }

    pub(crate) fn turns(&self) -> u64 {
        self.chooser.turns()
    }

    pub(crate) fn running(&self) -> Option<usize> {
        self.running
    }

    pub(crate) fn begin(&mut self, threads: usize) {
        self.crew.clear();
        self.chooser.restart();
        self.running = None;
        for _ in 0..threads {
            let priority = self.chooser.draw_priority();
            if self.crew.expect_one(priority).is_err() {
                self.log.lost = true;
            }
        }
    }

    pub(crate) fn end(&mut self, ending: Ending) {
        self.log.end(ending);
    }

    pub(crate) fn fail(&mut self, what: &str) {
        self.log.fail(what);
    }

    /// Gives the last turn another deed, where it is the thread's.
    pub(crate) fn rename(&mut self, thread: usize, deed: Deed) {
        if let Some(turn) = self.log.turns.last_mut() {
            if turn.thread == thread {
                turn.deed = deed;
                let call = *turn;
                if let (Some(member), Deed::Call(_)) = (self.crew.get_mut(thread), deed) {
                    member.call = Some(call);
                }
            }
        }
    }

    /// Notes that a thread gives up a timed sleep, in the last turn.
    pub(crate) fn is_late(&mut self, thread: usize) {
        match self.log.turns.last_mut() {
            Some(turn) if turn.thread == thread && turn.deed == Deed::Nap => turn.deed = Deed::Late,
            Some(turn) if turn.thread == thread => {
                let late = Turn::at(thread, Deed::LateAtOnce, turn.word);
                self.log.add_turn(late);
            }
            _ => {}
        }
    }

    /// Notes what a thread is to do, and says who goes on.
    pub(crate) fn pass(&mut self, turn: Turn, status: Status) -> Next {
        let is_step = turn.deed == Deed::Step || turn.deed == Deed::Enter;
        if is_step && self.chooser.course().grain == Grain::Call {
            return Next::Itself;
        }
        if let Some(member) = self.crew.get_mut(turn.thread) {
            member.status = status;
            member.next = turn;
            if let Deed::Call(_) = turn.deed {
                member.call = Some(turn);
            }
        }
        if self.crew.has(Status::Absent) {
            return Next::Nobody;
        }
        // Up to their first calls threads run one after the other: no call tells these orders apart.
        if let Some(thread) = self.crew.first_to_begin() {
            return self.gives(turn.thread, thread);
        }
        if self.chooser.turns() >= self.chooser.course().most_turns {
            return self.ended(Ending::TooLong);
        }
        match self
            .chooser
            .choose(&mut self.crew, &mut self.log, turn.deed)
        {
            Pick::Thread(thread) => {
                if let Some(member) = self.crew.get(thread) {
                    self.log.add_turn(member.next);
                }
                self.gives(turn.thread, thread)
            }
            Pick::Strayed => self.ended(Ending::Strayed),
            Pick::Nobody if self.crew.has(Status::Asleep) => self.ended(Ending::Deadlock),
            Pick::Nobody => Next::Over,
        }
    }

    fn ended(&mut self, ending: Ending) -> Next {
        self.log.end(ending);
        Next::Ended(ending)
    }

    fn gives(&mut self, from: usize, to: usize) -> Next {
        self.running = Some(to);
        if from == to {
            Next::Itself
        } else {
            Next::Other(to)
        }
    }

    /// Wakes a thread that sleeps.
    pub(crate) fn wake(&mut self, thread: usize) {
        if let Some(member) = self.crew.get_mut(thread) {
            if member.status == Status::Asleep {
                member.status = Status::Ready;
            }
        }
    }

    pub(crate) fn add_word(&mut self, word: NewWord) {
        self.log.add_word(word);
    }
}
