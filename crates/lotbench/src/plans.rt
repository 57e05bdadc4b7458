//! Plans, as the arguments ask for them.
ghost use Rattle.std.specs.Prelude.{◌≡◌, ◌≤◌};
ghost use Rattle.lotbench.specs.Modes.{IsModeNamed, mode_name};
ghost use Rattle.lotbench.specs.declared.plans.TheConstants.{MOST_THREADS, MOST_OPERATIONS};

/// The most threads.
pub const MOST_THREADS: usize = 64;

/// The most operations.
pub const MOST_OPERATIONS: u64 = 1_000_000_000_000;

/// Every mode.
pub const MODES: &[Mode] = &[
    Mode::RawMutex,
    Mode::RawMutexTry,
    Mode::Mutex,
    Mode::MutexTry,
    Mode::Fair,
    Mode::Many,
    Mode::ManyFair,
    Mode::Remutex,
    Mode::Remutex2,
    Mode::RawRead,
    Mode::RawWrite,
    Mode::Read,
    Mode::Write,
    Mode::RwMix,
    Mode::ReadRecursive,
    Mode::Upgradable,
    Mode::Upgrade,
    Mode::Downgrade,
    Mode::Once,
    Mode::Semaphore,
    Mode::Semaphore2,
    Mode::Notify,
    Mode::NotifyAll,
    Mode::PingPong,
    Mode::ManyTurns,
    Mode::Queue,
];

/// One operation.
#[derive(Clone, Copy, Debug, PartialEq, Eq)]
pub enum Mode {
    /// A lock and an unlock of a raw mutex.
    RawMutex,
    /// Tries of a raw mutex until one gets it, and an unlock.
    RawMutexTry,
    /// The lock of a value, to which 1 is added, and its unlock.
    Mutex,
    /// Tries of the lock of a value until one gets it; 1 is added to the value, and it is unlocked.
    MutexTry,
    /// The lock of a value of a fair mutex, to which 1 is added, and its unlock.
    Fair,
    /// One mutex of 64 after the other, at each thread's own stride.
    Many,
    /// One fair mutex of 64 after the other, at each thread's own stride.
    ManyFair,
    /// The lock of a reentrant mutex, and its unlock.
    Remutex,
    /// A reentrant mutex locked twice, one lock inside the other.
    Remutex2,
    /// A shared lock and its release, of a raw reader-writer lock.
    RawRead,
    /// An exclusive lock and its release, of a raw reader-writer lock.
    RawWrite,
    /// A value is read under a reader-writer lock.
    Read,
    /// 1 is added to the value of a reader-writer lock.
    Write,
    /// The value is read, and in one operation of 16 1 is added to it.
    RwMix,
    /// The value of a recursive lock is read.
    ReadRecursive,
    /// The value is read by a thread that may write it later.
    Upgradable,
    /// An upgradable reader that upgrades and adds 1.
    Upgrade,
    /// 1 is added, and the right is downgraded.
    Downgrade,
    /// A call of a `Once` that is done.
    Once,
    /// The permit of a semaphore that has one is acquired, and released.
    Semaphore,
    /// A semaphore of two permits.
    Semaphore2,
    /// A notification where nobody waits.
    Notify,
    /// All threads meet: the last that comes notifies those that wait.
    NotifyAll,
    /// Threads take turns: each waits for its own, and notifies the next.
    PingPong,
    /// Turns of pairs of threads, each pair by a mutex and a condition variable of its own.
    ManyTurns,
    /// An item goes through a bounded queue, from a half of the threads to the others.
    Queue,
}

impl Mode {
    /// Returns the mode of a name.
    fn named(name: &str) -> Option<Mode>
        ensures { IsModeNamed name.now result }
    {
        match name {
            "raw_mutex" => Some(Mode::RawMutex),
            "raw_mutex_try" => Some(Mode::RawMutexTry),
            "mutex" => Some(Mode::Mutex),
            "mutex_try" => Some(Mode::MutexTry),
            "fair" => Some(Mode::Fair),
            "many" => Some(Mode::Many),
            "many_fair" => Some(Mode::ManyFair),
            "remutex" => Some(Mode::Remutex),
            "remutex2" => Some(Mode::Remutex2),
            "raw_read" => Some(Mode::RawRead),
            "raw_write" => Some(Mode::RawWrite),
            "read" => Some(Mode::Read),
            "write" => Some(Mode::Write),
            "rw_mix" => Some(Mode::RwMix),
            "read_recursive" => Some(Mode::ReadRecursive),
            "upgradable" => Some(Mode::Upgradable),
            "upgrade" => Some(Mode::Upgrade),
            "downgrade" => Some(Mode::Downgrade),
            "once" => Some(Mode::Once),
            "semaphore" => Some(Mode::Semaphore),
            "semaphore2" => Some(Mode::Semaphore2),
            "notify" => Some(Mode::Notify),
            "notify_all" => Some(Mode::NotifyAll),
            "pingpong" => Some(Mode::PingPong),
            "many_turns" => Some(Mode::ManyTurns),
            "queue" => Some(Mode::Queue),
            _ => None,
        }
    }

    pub fn name(self) -> &'static str
        ensures { result.now ≡ mode_name self }
    {
        match self {
            Mode::RawMutex => "raw_mutex",
            Mode::RawMutexTry => "raw_mutex_try",
            Mode::Mutex => "mutex",
            Mode::MutexTry => "mutex_try",
            Mode::Fair => "fair",
            Mode::Many => "many",
            Mode::ManyFair => "many_fair",
            Mode::Remutex => "remutex",
            Mode::Remutex2 => "remutex2",
            Mode::RawRead => "raw_read",
            Mode::RawWrite => "raw_write",
            Mode::Read => "read",
            Mode::Write => "write",
            Mode::RwMix => "rw_mix",
            Mode::ReadRecursive => "read_recursive",
            Mode::Upgradable => "upgradable",
            Mode::Upgrade => "upgrade",
            Mode::Downgrade => "downgrade",
            Mode::Once => "once",
            Mode::Semaphore => "semaphore",
            Mode::Semaphore2 => "semaphore2",
            Mode::Notify => "notify",
            Mode::NotifyAll => "notify_all",
            Mode::PingPong => "pingpong",
            Mode::ManyTurns => "many_turns",
            Mode::Queue => "queue",
        }
    }
}

/// Where the loop of a mode lies in the code, which has each loop twice.
#[derive(Clone, Copy, Debug, PartialEq, Eq)]
pub enum CodePlace {
    First,
    Second,
}

/// A number of operations of a mode, which a number of threads do together.
#[derive(Clone, Copy)]
pub struct Plan {
    pub mode: Mode,
    pub threads: usize,
    pub operations: u64,
    pub place: CodePlace,
    ghost some_threads: { (1 ≤ threads) × (threads ≤ MOST_THREADS) },
    ghost some_operations: { (1 ≤ operations) × (operations ≤ MOST_OPERATIONS) },
}

/// Returns the plan of three arguments: a mode, how many threads, how many operations. A fourth
/// one, `second`, asks for the loop at the second place in the code.
pub fn plan_of(args: &[&str]) -> Option<Plan> {
    let (mode, threads, operations, place) = match args {
        [mode, threads, operations] => (mode, threads, operations, CodePlace::First),
        [mode, threads, operations, word] if *word == "second" => {
            (mode, threads, operations, CodePlace::Second)
        }
        _ => return None,
    };
    let mode = Mode::named(mode)?;
    let threads = threads.parse::<usize>().ok()?;
    let operations = operations.parse::<u64>().ok()?;
    if threads == 0 || threads > MOST_THREADS || operations == 0 || operations > MOST_OPERATIONS {
        return None;
    }
    // A thread that sends alone through a queue waits for ever.
    if mode == Mode::Queue && threads == 1 {
        return None;
    }
    Some(Plan {
        mode,
        threads,
        operations,
        place,
    })
}
