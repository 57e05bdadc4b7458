//! Why a line with a meaning may not stand where it does.
use core_base::Queues;
use lot_replay::state::SessionStage;
use lot_text::Name;
use lot_text::grammar::{Command, NamedCall, NamedTurn};
use lot_world::{Kind, MOST_LOCKS, World};
use std::fmt;

/// Why a line with a meaning may not stand where it does.
#[derive(Clone, Copy, PartialEq, Eq)]
pub enum StageCause {
    /// The first line says how many threads there are.
    ThreadsFirst,
    /// Threads are declared once.
    ThreadsAgain,
    /// The number of threads is 1 to 1,024.
    ThreadCount,
    /// A lock is declared before the first turn, `show` or `drain`.
    LockLate,
    /// There are 256 locks.
    LockCount,
    /// A lock has this name.
    NameTaken { name: Name },
    /// The readers or permits of the lock don't fit the threads.
    Limit,
    /// No lock has this name.
    NoLock { name: Name },
    /// A wait on a condition variable names its mutex.
    NoMutex,
    /// Only a wait on a condition variable names a mutex.
    NotCondvar,
}

/// Returns why a line with this meaning, which a replay refuses, may not stand at a stage.
pub fn stage_cause<Q: Queues + Drop>(stage: SessionStage<'_, Q>, command: Command) -> StageCause {
    match stage {
        SessionStage::Nothing => first_cause(command),
        SessionStage::Declaring {
            threads,
            names,
            kinds,
        } => match command {
            Command::Lock { name, kind } => lock_cause(threads, names, name, kind),
            Command::Turn { thread: _, turn } => {
                let on_condvar = is_declared_condvar(names, kinds, &turn);
                turn_cause(names, on_condvar, &turn)
            }
            Command::Threads(_) | Command::Show | Command::Drain => StageCause::ThreadsAgain,
        },
        SessionStage::Running { names, world } => match command {
            Command::Lock { .. } => StageCause::LockLate,
            Command::Turn { thread: _, turn } => {
                let on_condvar = is_condvar_of(names, world, &turn);
                turn_cause(names, on_condvar, &turn)
            }
            Command::Threads(_) | Command::Show | Command::Drain => StageCause::ThreadsAgain,
        },
    }
}

// Why a line may not be the first.
fn first_cause(command: Command) -> StageCause {
    match command {
        Command::Threads(_) => StageCause::ThreadCount,
        Command::Lock { .. } | Command::Turn { .. } | Command::Show | Command::Drain => {
            StageCause::ThreadsFirst
        }
    }
}

// Why a lock may not be declared.
fn lock_cause(threads: usize, names: &[Name], name: Name, kind: Kind) -> StageCause {
    if names.len() >= MOST_LOCKS {
        StageCause::LockCount
    } else if !kind.fits(threads) {
        StageCause::Limit
    } else {
        StageCause::NameTaken { name }
    }
}

// Why a turn names no call of a lock that is there.
fn turn_cause(names: &[Name], on_condvar: bool, turn: &NamedTurn) -> StageCause {
    let (call, name) = match turn {
        NamedTurn::Begin { call, name } | NamedTurn::Do { call, name } => (call, name),
        // A replay refuses no turn that names nothing.
        NamedTurn::Go
        | NamedTurn::Spin
        | NamedTurn::Late
        | NamedTurn::Ok
        | NamedTurn::Err
        | NamedTurn::Solo => return StageCause::ThreadsAgain,
    };
    if place_of(names, name).is_none() {
        return StageCause::NoLock { name: *name };
    }
    match call {
        NamedCall::Wait { mutex, timed: _ } if on_condvar => StageCause::NoLock { name: *mutex },
        NamedCall::Wait { .. } => StageCause::NotCondvar,
        // Of these only a wait without a mutex is refused, on a condition variable.
        NamedCall::Once(_)
        | NamedCall::Mutex(_)
        | NamedCall::RwLock(_)
        | NamedCall::Semaphore(_)
        | NamedCall::Notify { .. } => StageCause::NoMutex,
    }
}

// Returns whether a turn calls a condition variable, where the locks have these kinds.
fn is_declared_condvar(names: &[Name], kinds: &[Kind], turn: &NamedTurn) -> bool {
    match lock_called(names, turn) {
        Some(lock) if lock < kinds.len() => kinds[lock].is_condvar(),
        _ => false,
    }
}

// Returns whether a turn calls a condition variable of a world.
fn is_condvar_of<Q: Queues + Drop>(names: &[Name], world: &World<Q>, turn: &NamedTurn) -> bool {
    match lock_called(names, turn) {
        Some(lock) if lock < world.locks() => world.kind(lock).is_condvar(),
        _ => false,
    }
}

// Returns the lock that a turn calls.
fn lock_called(names: &[Name], turn: &NamedTurn) -> Option<usize> {
    match turn {
        NamedTurn::Begin { call: _, name } | NamedTurn::Do { call: _, name } => {
            place_of(names, name)
        }
        NamedTurn::Go
        | NamedTurn::Spin
        | NamedTurn::Late
        | NamedTurn::Ok
        | NamedTurn::Err
        | NamedTurn::Solo => None,
    }
}

// Returns the place of a name.
fn place_of(names: &[Name], name: &Name) -> Option<usize> {
    names.iter().position(|other| other == name)
}

impl fmt::Display for StageCause {
    fn fmt<W: fmt::Write>(&self, f: &mut fmt::Formatter<W>) -> fmt::Result {
        match self {
            StageCause::ThreadsFirst => write!(
                f,
                "the first line is `threads N`, as in `threads 3`"
            ),
            StageCause::ThreadsAgain => write!(
                f,
                "the number of threads is said once, in the first line"
            ),
            StageCause::ThreadCount => write!(f, "threads are 1 to 1024"),
            StageCause::LockLate => {
                write!(f, "a lock is declared before the first turn, show or drain")
            }
            StageCause::LockCount => write!(f, "there are 256 locks, and no more"),
            StageCause::NameTaken { name } => write!(
                f,
                "`{}`: a lock has this name",
                text_of(name)
            ),
            StageCause::Limit => write!(
                f,
                "readers are as many as the threads or more, at most 2^60 - 2; permits 1 to 2^62"
            ),
            StageCause::NoLock { name } => write!(f, "`{}`: no lock has this name", text_of(name)),
            StageCause::NoMutex => {
                write!(
                    f,
                    "a wait on a condition variable names its mutex, as in `0 do wait c m`"
                )
            }
            StageCause::NotCondvar => {
                write!(f, "only a wait on a condition variable names a mutex")
            }
        }
    }
}

fn text_of(name: &Name) -> &str {
    std::str::from_utf8(name.text()).unwrap_or("")
}
