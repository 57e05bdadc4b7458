//! First in, first out: which threads join a queue, which leave it, and in which order.

use crate::seen::{Seen, SeenLock, SeenWaiter, Standing};
use crate::violations::Violation;
use spec_locks::Kind;

/// Names the first violation of the queues' order.
pub fn check_queues(before: &Seen, mover: usize, after: &Seen) -> Result<(), Violation> {
    for (lock, (old, new)) in before.locks.iter().zip(after.locks.iter()).enumerate() {
        if old.main == new.main && old.aside == new.aside {
            continue;
        }
        check_order(lock, old, new)?;
        check_turns(lock, old, new, mover, after)?;
        check_leavers(before, old, new, mover, after)?;
        check_joiners(before, old, new, mover, after)?;
        check_aside(before, old, new, mover, after)?;
    }
    Ok(())
}

/// Checks that waiters that stay keep their order, and that new ones stand after them.
fn check_order(lock: usize, old: &SeenLock, new: &SeenLock) -> Result<(), Violation> {
    let mut kept = old.main.iter().filter(|waiter| new.queues(waiter.thread));
    let mut is_after = false;
    for waiter in new.main.iter() {
        if !old.queues(waiter.thread) {
            is_after = true;
            continue;
        }
        if is_after || kept.next() != Some(waiter) {
            return Err(Violation::OutOfOrder(lock));
        }
    }
    Ok(())
}

/// Returns whether a thread that left the queue was taken or moved, and didn't go by itself.
fn was_passed_on(waiter: &SeenWaiter, new: &SeenLock, mover: usize) -> bool {
    waiter.thread != mover && !new.queues(waiter.thread)
}

/// Nobody is taken or moved before an earlier waiter that wants the same; and only a reader-writer lock
/// looks at what waiters want.
fn check_turns(
    lock: usize,
    old: &SeenLock,
    new: &SeenLock,
    mover: usize,
    after: &Seen,
) -> Result<(), Violation> {
    let picks = matches!(old.kind, Kind::RwLock { .. } | Kind::Recursive { .. });
    for (place, waiter) in old.main.iter().enumerate() {
        if !was_passed_on(waiter, new, mover) {
            continue;
        }
        let is_passed = old.main.iter().take(place).any(|other| new.queues(other.thread)
            && (!picks || other.want == waiter.want));
        if is_passed {
            return Err(Violation::OutOfTurn(lock));
        }
    }
    let takes_all = matches!(old.kind, Kind::Once);
    if takes_all
        && !new.main.is_empty()
        && old.main.iter().any(|w| after.taker(w.thread) == Some(mover) && !new.queues(w.thread))
    {
        return Err(Violation::OutOfTurn(lock));
    }
    Ok(())
}

/// Returns whether a mutex of the world has the thread in its queue.
fn waits_for_a_mutex(seen: &Seen, thread: usize) -> bool {
    seen.locks
        .iter()
        .any(|shown| shown.kind == Kind::Mutex && shown.queues(thread))
}

/// Returns whether a thread may leave a queue: awake by its own act, into the mover's hand, or from a
/// condition variable to a mutex.
fn may_leave(before: &Seen, kind: Kind, thread: usize, mover: usize, after: &Seen) -> bool {
    if thread == mover {
        return before.standing(thread) == Standing::Awake;
    }
    after.taker(thread) == Some(mover)
        || (kind == Kind::Condvar && waits_for_a_mutex(after, thread))
}

fn check_leavers(
    before: &Seen,
    old: &SeenLock,
    new: &SeenLock,
    mover: usize,
    after: &Seen,
) -> Result<(), Violation> {
    for waiter in old.main.iter() {
        let thread = waiter.thread;
        if !new.queues(thread) && !may_leave(before, old.kind, thread, mover, after) {
            return Err(Violation::Vanished(thread));
        }
    }
    Ok(())
}

/// The place of a thread in the queue of a condition variable.
fn place_in_condvars(seen: &Seen, thread: usize) -> Option<usize> {
    for shown in seen
        .locks
        .iter()
        .filter(|shown| shown.kind == Kind::Condvar)
    {
        let place = shown.main.iter().position(|waiter| waiter.thread == thread);
        if place.is_some() {
            return place;
        }
    }
    None
}

/// A thread joins a queue by its own act, or is moved from a condition variable to a mutex, in the order
/// in which it stood there.
fn check_joiners(
    before: &Seen,
    old: &SeenLock,
    new: &SeenLock,
    mover: usize,
    after: &Seen,
) -> Result<(), Violation> {
    let mut last = None;
    for waiter in new.main.iter() {
        let thread = waiter.thread;
        if old.queues(thread) {
            continue;
        }
        if thread == mover {
            if after.standing(thread) == Standing::Idle {
                return Err(Violation::JoinedByOther(thread));
            }
            continue;
        }
        let place = place_in_condvars(before, thread);
        if old.kind != Kind::Mutex || place.is_none() || place <= last {
            return Err(Violation::JoinedByOther(thread));
        }
        last = place;
    }
    Ok(())
}

/// A thread goes aside by its own act, and leaves by it or into the mover's hand.
fn check_aside(
    before: &Seen,
    old: &SeenLock,
    new: &SeenLock,
    mover: usize,
    after: &Seen,
) -> Result<(), Violation> {
    for thread in old.aside.iter() {
        if !new.has_aside(*thread) && !may_leave(before, old.kind, *thread, mover, after) {
            return Err(Violation::Vanished(*thread));
        }
    }
    for thread in new.aside.iter() {
        if !old.has_aside(*thread) && *thread != mover {
            return Err(Violation::JoinedByOther(*thread));
        }
    }
    Ok(())
}
