//! Turns of threads, and the endings of a run.
use crate::calls::CallName;

/// What a thread does in its turn.
#[derive(Clone, Copy, Debug, PartialEq, Eq)]
pub enum Deed {
    /// The thread begins its part of the program.
    Begin,
    /// The thread makes a call, of this name.
    Call(CallName),
    /// The thread looks at a lock.
    Look,
    /// The thread takes one step on a word.
    Step,
    /// The thread draws a new word.
    Draw,
    /// The thread enters a section.
    Enter,
    /// The thread goes on after a sleep.
    Wake,
    /// The thread is in a timed sleep, and looks whether its time is up.
    Nap,
    /// The time of the thread is up, and it gives up a timed sleep.
    Late,
    /// The time of the thread was up before it slept, in the turn of its call.
    LateAtOnce,
    /// The thread ends its part of the program.
    End,
}

/// A turn of a thread, at a word.
#[derive(Clone, Copy, Debug, PartialEq, Eq)]
pub struct Turn {
    pub thread: usize,
    pub deed: Deed,
    pub word: usize,
    /// The word of the mutex, where the deed is a wait on a condition variable.
    pub beside: usize,
}

impl Turn {
    /// Makes a turn at one word.
    pub fn at(thread: usize, deed: Deed, word: usize) -> Turn {
        Turn {
            thread,
            deed,
            word,
            beside: word,
        }
    }
}

/// How a run ended.
#[derive(Clone, Copy, Debug, PartialEq, Eq)]
pub enum Ending {
    /// The program came to its end.
    Fine,
    /// All threads that are left sleep.
    Deadlock,
    /// The program says that something is wrong (`Log::fault`).
    Failed,
    /// The run took more turns than it may.
    TooLong,
    /// No thread took a turn for so long a time. The thread that has the turn, if there is one, waits
    /// for something else than the locks of the lot.
    Stuck(Option<usize>),
    /// The script named a thread that could not run.
    Strayed,
}
