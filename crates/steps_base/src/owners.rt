//! The owners of a lock.
ghost use Rattle.std.specs.Prelude.{◌≡◌, Option};
ghost use Rattle.steps_base.specs.Owners.{running_thread};

/// A sort of ownership.
#[derive(Clone, Copy, Debug, PartialEq, Eq)]
pub enum Owner {
    Exclusive,
    /// A writer that waits for the last readers.
    Pending,
    Upgradable,
    /// The thread that runs the closure of a `Once`.
    Running,
    Shared,
}

/// The right that a pending writer has again when it gives up.
#[derive(Clone, Copy, PartialEq, Eq)]
pub enum Fallback {
    Nothing,
    Upgradable,
}

/// A writer that waits for the last readers.
#[derive(Clone, Copy, PartialEq, Eq)]
pub struct Pending {
    pub thread: usize,
    pub fallback: Fallback,
}

/// How far a `Once` has come.
#[derive(Clone, Copy, PartialEq, Eq)]
pub enum Phase {
    New,
    /// The last run failed.
    Poisoned,
    /// A thread runs its closure.
    InProgress(usize),
    /// A run succeeded, and no other begins.
    Done,
}

/// The owners of a lock, of each sort that one thread has alone; of a `Once`, how far it has come;
/// of a condition variable, the mutex with which its waiters wait.
#[derive(Clone, Copy, PartialEq, Eq)]
pub struct Owners {
    pub exclusive: Option<usize>,
    pub pending: Option<Pending>,
    pub upgradable: Option<usize>,
    pub phase: Phase,
    pub shown: Option<usize>,
}

impl Owners {
    pub const NOBODY: Owners = Owners {
        exclusive: None,
        pending: None,
        upgradable: None,
        phase: Phase::New,
        shown: None,
    };

    /// Returns the owners with another exclusive one.
    pub fn with_exclusive(self, thread: Option<usize>) -> Owners
        ensures { result ≡ record self { exclusive = thread } }
    {
        Owners {
            exclusive: thread,
            ..self
        }
    }

    /// Returns the owners with another pending one.
    pub fn with_pending(self, pending: Option<Pending>) -> Owners
        ensures { result ≡ record self { pending = pending } }
    {
        Owners { pending, ..self }
    }

    /// Returns the owners with another upgradable one.
    pub fn with_upgradable(self, thread: Option<usize>) -> Owners
        ensures { result ≡ record self { upgradable = thread } }
    {
        Owners {
            upgradable: thread,
            ..self
        }
    }

    /// Returns the owners with another phase.
    pub fn with_phase(self, phase: Phase) -> Owners
        ensures { result ≡ record self { phase = phase } }
    {
        Owners { phase, ..self }
    }

    /// Returns the owners with another mutex that is shown.
    pub fn with_shown(self, shown: Option<usize>) -> Owners
        ensures { result ≡ record self { shown = shown } }
    {
        Owners { shown, ..self }
    }
}

impl Phase {
    /// Returns the thread that runs the closure.
    pub fn runner(self) -> Option<usize>
        ensures { result ≡ running_thread self }
    {
        match self {
            Phase::InProgress(thread) => Some(thread),
            Phase::New | Phase::Poisoned | Phase::Done => None,
        }
    }
}
