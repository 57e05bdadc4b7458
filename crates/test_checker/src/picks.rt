//! The waiters that are taken of a reader-writer lock's queue.

use crate::seen::{Rights, Seen, SeenLock};
use crate::violations::Violation;
use core_base::Want;
use spec_locks::{Call, Kind, RwLockCall};

/// Looks from the front of a queue for those that are let in.
#[derive(Drop)]
struct Picks {
    is_recursive: bool,
    /// Whether the waking thread keeps more than a shared right.
    keeps_more: bool,
    /// Whether somebody that wants more than to share stood ahead.
    met_another: bool,
    has_stopped: bool,
}

impl Picks {
    /// Returns whether the next waiter is let in: a thread that wants to share is, up to the stop;
    /// of the others the first is, where nothing more is kept. Where that one is a writer of a lock
    /// that isn't recursive, the stop stands after it.
    fn takes(&mut self, want: Want) -> bool {
        if self.has_stopped {
            return false;
        }
        if want == Want::Shared {
            return true;
        }
        if self.met_another || self.keeps_more {
            return false;
        }
        self.met_another = true;
        self.has_stopped = want == Want::Exclusive && !self.is_recursive;
        true
    }
}

/// Returns whether a thread keeps more than a shared right while it wakes others. Fair releases and
/// bumps hand theirs over.
fn keeps_more(call: RwLockCall, rights: Rights) -> bool {
    match call {
        RwLockCall::ReleaseFair(_) | RwLockCall::Bump(_) => false,
        _ => rights.is_exclusive || rights.is_pending || rights.is_upgradable,
    }
}

/// Returns whether the mover took the thread of a queue.
fn is_taken(new: &SeenLock, thread: usize, mover: usize, after: &Seen) -> bool {
    !new.queues(thread) && after.taker(thread) == Some(mover)
}

/// Where a thread takes anybody of a reader-writer lock's queue, it takes all those that it lets
/// in, and nobody else.
pub fn check_picks(before: &Seen, mover: usize, call: Call, after: &Seen) -> Result<(), Violation> {
    let Call::RwLock { lock, call } = call else {
        return Ok(());
    };
    let (Some(old), Some(new)) = (before.locks.get(lock), after.locks.get(lock)) else {
        return Ok(());
    };
    if !old
        .main
        .iter()
        .any(|waiter| is_taken(new, waiter.thread, mover, after))
    {
        return Ok(());
    }
    let mut picks = Picks {
        is_recursive: matches!(old.kind, Kind::Recursive { .. }),
        keeps_more: keeps_more(call, old.rights_of(mover)),
        met_another: false,
        has_stopped: false,
    };
    for waiter in old.main.iter() {
        if picks.takes(waiter.want) != is_taken(new, waiter.thread, mover, after) {
            return Err(Violation::WrongPicks(lock));
        }
    }
    Ok(())
}
