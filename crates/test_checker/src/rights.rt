//! How rights pass: by a thread's own act, or handed over by an owner to those in its hand.

use crate::seen::{Right, Rights, Seen, SeenLock};
use crate::violations::Violation;
use spec_locks::Kind;

/// Names the first violation of how rights pass.
pub fn check_rights(before: &Seen, mover: usize, after: &Seen) -> Result<(), Violation> {
    for (lock, (old, new)) in before.locks.iter().zip(after.locks.iter()).enumerate() {
        if old.owners == new.owners {
            continue;
        }
        check_others(before, mover, old, new)?;
        check_readers(lock, old, new)?;
    }
    Ok(())
}

/// Returns whether the rights of a thread are others, and none of the former ones is gone.
fn has_gained(old: Rights, new: Rights) -> bool {
    old != new
        && old.is_exclusive <= new.is_exclusive
        && old.is_pending <= new.is_pending
        && old.is_upgradable <= new.is_upgradable
        && old.is_running <= new.is_running
        && old.shared <= new.shared
}

/// Another thread loses no right. It gets one only from an owner that leaves and has it in hand, and
/// then all in that hand get theirs.
fn check_others(
    before: &Seen,
    mover: usize,
    old: &SeenLock,
    new: &SeenLock,
) -> Result<(), Violation> {
    let is_handed = (0..before.threads.len()).any(|thread| thread != mover
        && old.rights_of(thread) != new.rights_of(thread));
    if !is_handed {
        return Ok(());
    }
    let left = old.rights_of(mover) != new.rights_of(mover)
        && (old.gives(Right::Exclusive, mover) || old.gives(Right::Upgradable, mover));
    for thread in 0..before.threads.len() {
        let (had, has) = (old.rights_of(thread), new.rights_of(thread));
        let was_held = before.taker(thread) == Some(mover);
        if thread == mover || (had == has && !was_held) {
            continue;
        }
        if had == has {
            return Err(Violation::HandedToSome(thread));
        }
        if !has_gained(had, has) {
            return Err(Violation::RightTaken(thread));
        }
        if !was_held || !left {
            return Err(Violation::RightFromNobody(thread));
        }
    }
    Ok(())
}

/// While a writer is pending on a lock that isn't recursive, no more threads share it than before.
fn check_readers(lock: usize, old: &SeenLock, new: &SeenLock) -> Result<(), Violation> {
    let is_normal = matches!(old.kind, Kind::RwLock { .. });
    let is_pending = old.has(Right::Pending) && new.has(Right::Pending);
    if is_normal && is_pending && new.number_of(Right::Shared) > old.number_of(Right::Shared) {
        return Err(Violation::ReaderPassed(lock));
    }
    Ok(())
}
