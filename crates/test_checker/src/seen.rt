//! A world as it shows itself at one moment.

use core_base::Want;
use spec_locks::Kind;

/// A right to a lock, or the run of a `Once`. A permit is a shared right.
#[derive(Clone, Copy, PartialEq, Eq)]
pub enum Right {
    Exclusive,
    Pending,
    Upgradable,
    Running,
    Shared,
}

#[derive(Clone, Copy, PartialEq, Eq)]
pub struct SeenOwner {
    pub right: Right,
    pub thread: usize,
}

#[derive(Clone, Copy, PartialEq, Eq)]
pub struct SeenWaiter {
    pub thread: usize,
    pub want: Want,
}

/// How a thread stands: in no call, in a call and awake, or asleep without a wake note.
#[derive(Clone, Copy, PartialEq, Eq)]
pub enum Standing {
    Idle,
    Awake,
    Asleep,
}

/// A thread, and the one that took it from a queue and has not left that section yet.
#[derive(Clone, Copy, PartialEq, Eq)]
pub struct SeenThread {
    pub standing: Standing,
    pub taken_by: Option<usize>,
}

/// A lock, with its owners, its main queue from the front, the waiters aside, and the threads that
/// owe a wake on it or were woken and try again.
#[derive(PartialEq, Drop)]
pub struct SeenLock {
    pub kind: Kind,
    pub word: u64,
    pub is_filled: bool,
    pub owners: Vec<SeenOwner>,
    pub main: Vec<SeenWaiter>,
    pub aside: Vec<usize>,
    pub owing: Vec<usize>,
    pub retrying: Vec<usize>,
}

/// A world at one moment.
#[derive(PartialEq, Drop)]
pub struct Seen {
    pub threads: Vec<SeenThread>,
    pub locks: Vec<SeenLock>,
}

/// The rights of one thread to one lock, with the number of its shared ones.
#[derive(Clone, Copy, PartialEq, Eq)]
pub struct Rights {
    pub is_exclusive: bool,
    pub is_pending: bool,
    pub is_upgradable: bool,
    pub is_running: bool,
    pub shared: usize,
}

impl SeenLock {
    /// How often a right is held.
    pub fn number_of(&self, right: Right) -> usize {
        self.owners
            .iter()
            .filter(|owner| owner.right == right)
            .count()
    }

    pub fn has(&self, right: Right) -> bool {
        self.owners.iter().any(|owner| owner.right == right)
    }

    /// Returns whether a thread has the right.
    pub fn gives(&self, right: Right, thread: usize) -> bool {
        self.owners
            .iter()
            .any(|owner| *owner == SeenOwner { right, thread })
    }

    /// The rights of a thread.
    pub fn rights_of(&self, thread: usize) -> Rights {
        let shared = SeenOwner {
            right: Right::Shared,
            thread,
        };
        Rights {
            is_exclusive: self.gives(Right::Exclusive, thread),
            is_pending: self.gives(Right::Pending, thread),
            is_upgradable: self.gives(Right::Upgradable, thread),
            is_running: self.gives(Right::Running, thread),
            shared: self.owners.iter().filter(|owner| **owner == shared).count(),
        }
    }

    /// How many readers the word counts: an upgradable owner is one of them.
    pub fn count(&self) -> usize {
        self.owners
            .iter()
            .filter(|owner| matches!(owner.right, Right::Shared | Right::Upgradable))
            .count()
    }

    /// Returns whether a thread stands in the main queue.
    pub fn queues(&self, thread: usize) -> bool {
        self.main.iter().any(|waiter| waiter.thread == thread)
    }

    /// Returns whether a thread stands aside.
    pub fn has_aside(&self, thread: usize) -> bool {
        self.aside.iter().any(|other| *other == thread)
    }
}

impl Seen {
    /// How a thread stands. One that isn't there is idle.
    pub fn standing(&self, thread: usize) -> Standing {
        match self.threads.get(thread) {
            Some(seen) => seen.standing,
            None => Standing::Idle,
        }
    }

    /// The thread in whose hand this one is.
    pub fn taker(&self, thread: usize) -> Option<usize> {
        self.threads.get(thread)?.taken_by
    }
}
