//! Locks and calls, as a schedule names them.
use crate::malformed::{TextError, malformed};
use crate::words::{line_of, word_at};
use lot_text::grammar::{Command, NamedCall, NamedTurn, meaning};
use lot_text::{Name, Names};
use spec_locks::{Call, CondvarCall, Kind};
use std::alloc::Global;

/// The locks of a program, by their names, with their kinds.
#[derive(Drop)]
pub struct Locks {
    pub names: Names,
    pub kinds: Vec<Kind>,
}

impl Locks {
    pub fn new(alloc: Global) -> Locks {
        Locks {
            names: Names::new(alloc),
            kinds: Vec::new(alloc),
        }
    }

    /// Finds the lock of a name, and its kind.
    pub fn find(&self, name: Name) -> Option<(usize, Kind)> {
        let lock = self.names.find(name)?;
        let kind = self.kinds.get(lock)?;
        Some((lock, *kind))
    }
}

/// Returns what the calls of a kind are.
fn calls_of(kind: Kind) -> &'static str {
    match kind {
        Kind::Mutex | Kind::Fair => {
            "a mutex has lock, lock_timed, try_lock, unlock, unlock_fair, bump"
        }
        Kind::RwLock { .. } | Kind::Recursive { .. } => {
            "a reader-writer lock has read, upgradable, write (also _timed, try_), \
             unlock_shared, unlock_upgradable, unlock_exclusive (also _fair), downgrade, \
             downgrade_to_upgradable, downgrade_upgradable, upgrade, upgrade_timed, try_upgrade, \
             bump_shared, bump_upgradable, bump_exclusive"
        }
        Kind::Condvar => {
            "a condition variable has wait and wait_timed, each with a mutex as in `wait c m`, \
             notify_one, notify_all"
        }
        Kind::Once => "a once has call_once, call_once_force, wait, wait_force, wait_timed",
        Kind::Semaphore { .. } => { "a semaphore has acquire, acquire_timed, try_acquire, release" }
    }
}

/// Returns the kind of the lock that a line `lock NAME KIND [NUMBER]` declares.
pub fn declared(alloc: Global, line: u32, words: &[&str]) -> Result<Kind, TextError> {
    let text = line_of(alloc, "", words)?;
    match meaning(text.as_bytes()) {
        Some(Command::Lock { name: _, kind }) if words.len() <= 4 => Ok(kind),
        _ => Err(misdeclared(alloc, line, words)),
    }
}

// Says what is wrong with the line of a lock.
fn misdeclared(alloc: Global, line: u32, words: &[&str]) -> TextError {
    if Name::from_word(word_at(words, 1).as_bytes()).is_none() {
        let expected = "a lock's name, a lower-case letter and up to 15 letters or digits";
        return malformed(alloc, line, word_at(words, 1), expected);
    }
    let expected = "a kind: mutex, fair, condvar, once, rwlock [READERS], recursive [READERS] or \
                    semaphore PERMITS";
    malformed(alloc, line, word_at(words, 2), expected)
}

/// Returns the call that a line `CALL NAME [MUTEX]` makes.
pub fn call(alloc: Global, line: u32, words: &[&str], locks: &Locks) -> Result<Call, TextError> {
    let name = Name::from_word(word_at(words, 1).as_bytes());
    let Some((lock, kind)) = name.and_then(|name| locks.find(name)) else {
        let unknown = words.len() < 2;
        let at = if unknown { 0 } else { 1 };
        let expected = if unknown {
            "no instruction; a call names its lock, as in `lock m`"
        } else {
            "no lock has this name"
        };
        return Err(malformed(alloc, line, word_at(words, at), expected));
    };
    let text = line_of(alloc, "0 begin", words)?;
    let called = match meaning(text.as_bytes()) {
        Some(
            Command::Turn {
                thread: _,
                turn: NamedTurn::Begin { call, name: _ },
            },
        ) => { numbered(call, lock, locks) }
        _ => None,
    };
    match called {
        Some(call) if kind.has_call(call) && words.len() <= 3 => Ok(call),
        _ => Err(malformed(alloc, line, word_at(words, 0), calls_of(kind))),
    }
}

/// Returns a call with its locks by their numbers.
fn numbered(call: NamedCall, lock: usize, locks: &Locks) -> Option<Call> {
    match call {
        NamedCall::Mutex(call) => Some(Call::Mutex { lock, call }),
        NamedCall::RwLock(call) => Some(Call::RwLock { lock, call }),
        NamedCall::Once(call) => Some(Call::Once { lock, call }),
        NamedCall::Semaphore(call) => Some(Call::Semaphore { lock, call }),
        NamedCall::Notify { all } => {
            let call = CondvarCall::Notify { all };
            Some(Call::Condvar { lock, call })
        }
        NamedCall::Wait { mutex, timed } => {
            let (mutex, kind) = locks.find(mutex)?;
            if !kind.is_plain_mutex() {
                return None;
            }
            let call = CondvarCall::Wait { mutex, timed };
            Some(Call::Condvar { lock, call })
        }
    }
}
