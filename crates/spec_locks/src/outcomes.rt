//! The answers of calls, and the outcomes of steps.
ghost use Rattle.std.specs.Prelude.{◌≡◌};
ghost use Rattle.spec_locks.specs.States.{is_completed, is_poisoned};

/// The state that a `Once` shows of itself.
#[derive(Clone, Copy, Debug, PartialEq, Eq)]
pub enum OnceState {
    New,
    Poisoned,
    InProgress,
    Done,
}

impl OnceState {
    /// Returns whether a run has succeeded.
    pub fn is_completed(self) -> bool
        ensures { result ≡ is_completed self }
    {
        matches!(self, OnceState::Done)
    }

    /// Returns whether the `Once` is done.
    pub fn done(self) -> bool
        ensures { result ≡ is_completed self }
    {
        self.is_completed()
    }

    /// Returns whether the last run failed, and none goes on.
    pub fn is_poisoned(self) -> bool
        ensures { result ≡ is_poisoned self }
    {
        matches!(self, OnceState::Poisoned)
    }

    /// Returns whether the `Once` is poisoned.
    pub fn poisoned(self) -> bool
        ensures { result ≡ is_poisoned self }
    {
        self.is_poisoned()
    }
}

/// The answer of a call.
#[derive(Clone, Copy, Debug, PartialEq, Eq)]
pub enum Answer {
    Ok,
    Yes,
    No,
    ReadersFull,
    Notified,
    TimedOut,
    TwoMutexes,
    Poisoned,
    Failed,
    /// How many waiters a notification moved.
    Number(usize),
}

/// The outcome of a step.
#[derive(Clone, Copy, Debug, PartialEq, Eq)]
pub enum Outcome {
    /// The step isn't possible, and nothing changed.
    NotNow,
    /// The call goes on.
    Step,
    /// The thread is asleep, and has no wake note.
    Sleep,
    /// The call's closure begins, and is told this.
    Closure(OnceState),
    /// The call ended.
    End(Answer),
}
