//! The acts of threads, one a step, and the replies to them.
//!
//! A hand-over is an act of its own, the operation on the word with which the taken threads own the
//! lock. `Reply` is what an act came to, `Answer` what a call answers.
ghost use Rattle.std.specs.Prelude.{◌≡◌};
ghost use Rattle.steps_base.specs.Acts.{wakes_taken, holds, takes_effect, outcome_of};

use crate::bits::{count_in, has_aside, has_parked, is_blocked, is_done, is_marked, is_poisoned};
use core_base::{Key, Keys, Note, Op, Requeue, Want};
use spec_locks::{Answer, OnceState, Outcome};

/// The test that a parking thread makes of the word inside the section.
#[derive(Clone, Copy, PartialEq, Eq)]
pub enum Check {
    WordIs(u64),
    /// Holds of a reader-writer lock whose parked bit is set and whose owners keep this want out.
    Blocked { want: Want, recursive: bool },
    /// Holds of a reader-writer lock with readers left and the bit of the second queue set.
    ReadersLeft,
    /// Holds of a `Once` that isn't done and whose parked bit is set. It isn't poisoned either,
    /// unless the call is forced.
    Unfinished { forced: bool },
}

/// The waiters that a thread takes from a queue.
#[derive(Clone, Copy, PartialEq, Eq)]
pub enum TakeWhich {
    First,
    /// The waiters that a reader-writer lock picks, by the right of its own that the thread keeps.
    Picked {
        start: Option<Want>,
        recursive: bool,
    },
    All,
}

/// The waiters that a thread wakes as it leaves its sections.
#[derive(Clone, Copy, PartialEq, Eq)]
pub enum Wakes {
    Nobody,
    /// All that it has taken in them.
    All(Note),
}

/// One step of a thread.
#[derive(Clone, Copy, PartialEq, Eq)]
pub enum Act {
    /// Nothing: the thread is in no call.
    Rest,
    /// One operation on the word of a lock.
    Word {
        lock: usize,
        op: Op,
    },
    /// One operation on the word of a lock, which hands the lock to those that the thread has
    /// taken.
    HandOver {
        lock: usize,
        op: Op,
    },
    /// Enters sections. All of them have to be free.
    Enter(Keys),
    /// Loads the word inside the section, and where the check holds stands after the last of the
    /// queue.
    Park {
        lock: usize,
        key: Key,
        check: Check,
        want: Want,
    },
    /// Stands after the last of the queue, whatever the word is.
    Stand {
        key: Key,
        want: Want,
    },
    /// Takes waiters of a queue.
    Take {
        key: Key,
        whom: TakeWhich,
    },
    /// Moves waiters of a queue after the last of another, and may take the first of them.
    Requeue {
        from: Key,
        to: Key,
        how: Requeue,
    },
    /// Leaves the queue in which the thread stands.
    Remove(Key),
    /// Leaves the sections, and wakes.
    Leave {
        keys: Keys,
        wakes: Wakes,
    },
    /// Sleeps until a wake note is there.
    Sleep,
    /// Nothing: the lock was handed to the thread. It touches no word and no queue.
    Accept,
    /// Runs the closure of the call.
    Closure(OnceState),
    /// Ends the call.
    End(Answer),
}

/// The result of an act, or an event that befell a thread asleep.
#[derive(Clone, Copy)]
pub enum Reply {
    /// The sections are entered, or left, or a hand-off is accepted.
    Done,
    /// The value of the word before the operation.
    Value(u64),
    /// Whether the thread stands in the queue now.
    Parked(bool),
    /// Whether any was taken, and whether none is left in the queue.
    Took {
        any: bool,
        none_left: bool,
    },
    /// How many of those that were picked want to share, what the one of them wants that wants
    /// more, and whether none is left in the queue.
    Picked {
        sharers: usize,
        successor: Option<Want>,
        none_left: bool,
    },
    /// How many were taken and moved, and whether none is left in the queue where they stood.
    Requeued {
        number: usize,
        none_left: bool,
    },
    /// Whether none is left in the queue that the thread left.
    Removed {
        none_left: bool,
    },
    /// Another thread took this one from its queue.
    TakenBy(usize),
    /// Another thread moved this one to the queue of this key.
    MovedTo(Key),
    /// The thread that took this one has handed it the lock, and whether nobody shares the lock
    /// now.
    HandedBy {
        by: usize,
        alone: bool,
    },
    /// The thread's time is up, and it has entered the section of the queue where it stands.
    Late,
    /// The wake note is there.
    Woken(Note),
    /// The answer of the closure.
    Closed {
        succeeded: bool,
    },
}

/// Where a call goes on, or what it answers at its end.
#[derive(Clone, Copy)]
pub enum Next<P> {
    At(P),
    End(Answer),
}

impl Wakes {
    /// Wakes those that were taken, if any was.
    pub fn taken(any: bool, note: Note) -> Wakes
        ensures { result ≡ wakes_taken any note }
    {
        if any { Wakes::All(note) } else { Wakes::Nobody }
    }
}

impl Check {
    pub fn holds(self, word: u64) -> bool
        ensures { result ≡ holds self word }
    {
        match self {
            Check::WordIs(value) => word == value,
            Check::Blocked { want, recursive } => {
                has_parked(word) && is_blocked(recursive, want, word)
            }
            Check::ReadersLeft => has_aside(word) && count_in(word) != 0,
            Check::Unfinished { forced } => {
                is_marked(word) && !is_done(word) && (forced || !is_poisoned(word))
            }
        }
    }
}

/// Returns whether an operation that is to hand a lock over does so, by the value that it finds: an
/// exchange may fail.
pub fn takes_effect(op: Op, seen: u64) -> bool
    ensures { result ≡ takes_effect op seen }
{
    match op {
        Op::Exchange { from, .. } => seen == from,
        _ => true,
    }
}

impl Act {
    /// Returns the outcome that a thread is told when this is its next act.
    pub fn outcome(self) -> Outcome
        ensures { result ≡ outcome_of self }
    {
        match self {
            Act::End(answer) => Outcome::End(answer),
            Act::Sleep => Outcome::Sleep,
            Act::Closure(state) => Outcome::Closure(state),
            _ => Outcome::Step,
        }
    }
}
