//! The calls of a world's threads, and the turns of a schedule.
ghost use Rattle.std.specs.Prelude.{◌≡◌};
ghost use Rattle.spec_locks.specs.Calls.{lock_in, mutex_in, lock_of_right};

/// The calls of a mutex.
#[derive(Clone, Copy, Debug, PartialEq, Eq)]
pub enum MutexCall {
    Lock,
    LockTimed,
    TryLock,
    /// Needs the exclusive right. A fair mutex releases as by `UnlockFair`.
    Unlock,
    /// Hands the mutex to the first waiter, where there is one. Needs the exclusive right.
    UnlockFair,
    /// Hands the mutex to the first waiter, where there is one, and locks it again. Needs the
    /// exclusive right.
    Bump,
}

/// A call of the lock with this number.
#[derive(Clone, Copy, Debug, PartialEq, Eq)]
pub enum Call {
    Mutex { lock: usize, call: MutexCall },
    RwLock { lock: usize, call: RwLockCall },
    Once { lock: usize, call: OnceCall },
    Condvar { lock: usize, call: CondvarCall },
    Semaphore { lock: usize, call: SemaphoreCall },
}

/// A right to a reader-writer lock.
#[derive(Clone, Copy, Debug, PartialEq, Eq)]
pub enum Access {
    /// To read, beside others that read.
    Shared,
    /// To read, and to own alone later; one thread has it beside those that read.
    Upgradable,
    /// To own alone.
    Exclusive,
}

/// A right that is turned into a lesser one.
#[derive(Clone, Copy, Debug, PartialEq, Eq)]
pub enum Downgrade {
    /// The exclusive one into a shared one.
    ToShared,
    /// The exclusive one into the upgradable one.
    ToUpgradable,
    /// The upgradable one into a shared one.
    UpgradableToShared,
}

/// Whether a call waits for ever, up to a deadline, or not at all.
#[derive(Clone, Copy, Debug, PartialEq, Eq)]
pub enum Patience {
    Patient,
    Timed,
    Try,
}

/// The calls of a reader-writer lock.
#[derive(Clone, Copy, Debug, PartialEq, Eq)]
pub enum RwLockCall {
    /// Waits for a right.
    Enter { access: Access, patience: Patience },
    /// Needs the right that it gives up.
    Release(Access),
    /// Needs the greater right, and has the lesser one after it.
    Downgrade(Downgrade),
    /// Turns the upgradable right, which it needs, into the exclusive one.
    Upgrade(Patience),
    /// Needs the right that it gives up, and hands the lock over where somebody waits. A shared
    /// right is released as by any release.
    ReleaseFair(Access),
    /// Needs the right, and waits for it again where it has given it up: it does so only where
    /// somebody waits.
    Bump(Access),
}

/// The calls of a `Once`. One that is forced goes on where the last run failed; any other answers
/// `Poisoned` there.
#[derive(Clone, Copy, Debug, PartialEq, Eq)]
pub enum OnceCall {
    /// Runs a closure, unless a run has succeeded, and waits while another runs.
    CallOnce { forced: bool },
    /// Waits until a run has succeeded.
    Wait { forced: bool },
    /// Waits up to a deadline until a run has succeeded. Such a call is never forced.
    WaitTimed,
}

/// The calls of a semaphore.
#[derive(Clone, Copy, Debug, PartialEq, Eq)]
pub enum SemaphoreCall {
    /// Waits for a permit.
    Acquire(Patience),
    /// Gives a permit back, which it needs.
    Release,
}

/// The calls of a condition variable.
#[derive(Clone, Copy, Debug, PartialEq, Eq)]
pub enum CondvarCall {
    /// Releases the mutex of this number, and locks it again once it is notified, or where its time
    /// is up. Needs the exclusive right to the mutex.
    Wait { mutex: usize, timed: bool },
    /// Wakes the first waiter, or all. Where their mutex is owned they wait for that instead.
    Notify { all: bool },
}

/// The next turn of a thread.
#[derive(Clone, Copy, Debug, PartialEq, Eq)]
pub enum Turn {
    /// Begins a call. It touches no word and no queue.
    Begin(Call),
    /// Does the next act of its call.
    Go,
    /// Loads the word again in place of an act that leads to sleep.
    Spin,
    /// Gives up a timed sleep.
    Late,
    /// The closure answers that it succeeded.
    Ok,
    /// The closure answers an error.
    Err,
}

/// One step of one thread.
#[derive(Clone, Copy, Debug, PartialEq, Eq)]
pub struct Step {
    pub thread: usize,
    pub turn: Turn,
}

impl Call {
    /// Returns the lock that is called.
    pub fn lock(self) -> usize
        ensures { result ≡ lock_in self }
    {
        match self {
            Call::Mutex { lock, .. }
            | Call::RwLock { lock, .. }
            | Call::Once { lock, .. }
            | Call::Condvar { lock, .. }
            | Call::Semaphore { lock, .. } => lock,
        }
    }

    /// Returns the mutex that a wait on a condition variable names.
    pub fn mutex(self) -> Option<usize>
        ensures { result ≡ mutex_in self }
    {
        match self {
            Call::Condvar {
                call: CondvarCall::Wait { mutex, .. },
                ..
            } => Some(mutex),
            _ => None,
        }
    }

    /// Returns the lock to which the call needs a right, if it needs one: of a wait the mutex that
    /// it names.
    pub fn needs_right_to(self) -> usize
        ensures { result ≡ lock_of_right self }
    {
        self.mutex().unwrap_or(self.lock())
    }
}
