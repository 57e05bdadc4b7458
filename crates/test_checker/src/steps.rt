//! The rules of one step: what it leaves, and what it may change.
ghost use Rattle.std.specs.Prelude.{◌≢◌, OnOk};
ghost use Rattle.spec_locks.specs.declared.outcomes.Outcome.{Outcome};
ghost use Rattle.test_checker.specs.Sizes.{IsSameSize};

use crate::queues::check_queues;
use crate::rights::check_rights;
use crate::seen::{Seen, SeenLock, Standing};
use crate::violations::Violation;
use spec_locks::{Kind, Outcome, Step, Turn};

/// Names the first violation between two neighbouring moments, with the step between them and what its
/// thread was told.
pub fn check_step(
    before: &Seen,
    step: Step,
    outcome: Outcome,
    after: &Seen,
) -> Result<(), Violation>
    ensures sizes { OnOk result (outcome ≢ Outcome.NotNow → IsSameSize before.now after.now) }
{
    if outcome == Outcome::NotNow {
        if before == after {
            return Ok(());
        }
        return Err(Violation::ChangedByNothing);
    }
    check_size(before, after)?;
    check_touched(before, step, after)?;
    check_standings(before, step.thread, after)?;
    check_queues(before, step.thread, after)?;
    check_rights(before, step.thread, after)?;
    for (lock, (old, new)) in before.locks.iter().zip(after.locks.iter()).enumerate() {
        check_lock(lock, old, new)?;
        check_lists(before, step.thread, old, new)?;
    }
    Ok(())
}

fn check_size(before: &Seen, after: &Seen) -> Result<(), Violation>
    ensures { OnOk result (IsSameSize before.now after.now) }
{
    let threads = before.threads.len() == after.threads.len();
    if !threads || before.locks.len() != after.locks.len() {
        return Err(Violation::OtherWorld(after.locks.len()));
    }
    for (lock, (old, new)) in before.locks.iter().zip(after.locks.iter()).enumerate() {
        if old.kind != new.kind {
            return Err(Violation::OtherWorld(lock));
        }
    }
    Ok(())
}

/// Returns whether a turn may change owners, and where it does so words or queues. A look again changes
/// no word, but may show a pending writer that no reader is left.
fn may_touch(turn: Turn, changes_more: bool) -> bool {
    match turn {
        Turn::Go | Turn::Ok | Turn::Err => true,
        Turn::Spin => !changes_more,
        Turn::Begin(_) | Turn::Late => false,
    }
}

/// Only an act changes a word, an owner or a queue, and one act changes one word at most, or queues.
fn check_touched(before: &Seen, step: Step, after: &Seen) -> Result<(), Violation> {
    let mut words = 0usize;
    for (lock, (old, new)) in before.locks.iter().zip(after.locks.iter()).enumerate() {
        let is_word_new = old.word != new.word;
        let is_queue_new = old.main != new.main || old.aside != new.aside;
        let is_touched = is_word_new || is_queue_new || old.owners != new.owners;
        if is_touched && !may_touch(step.turn, is_word_new || is_queue_new) {
            return Err(Violation::TouchedWithoutAct(lock));
        }
        if is_word_new && is_queue_new {
            return Err(Violation::WordAndQueue(lock));
        }
        if is_word_new {
            words = words.wrapping_add(1);
        }
        if words > 1 {
            return Err(Violation::TwoWords(lock));
        }
    }
    Ok(())
}

/// Another thread wakes up only where this one had it in hand, and stays as it is otherwise. Nobody
/// wakes up by an act of its own.
fn check_standings(before: &Seen, mover: usize, after: &Seen) -> Result<(), Violation> {
    for thread in 0..before.threads.len() {
        if thread == mover {
            continue;
        }
        let was_held = before.taker(thread) == Some(mover);
        match (before.standing(thread), after.standing(thread)) {
            (Standing::Asleep, Standing::Awake) if was_held => {}
            (Standing::Asleep, Standing::Awake) => return Err(Violation::WokeByItself(thread)),
            (old, new) if old != new => return Err(Violation::MovedToo(thread)),
            _ => {}
        }
        if !is_hand_kept(before, mover, after, thread) {
            return Err(Violation::MovedToo(thread));
        }
    }
    Ok(())
}

/// Returns whether a thread comes into the mover's hand from a queue, leaves it awake, or stays
/// where it is.
fn is_hand_kept(before: &Seen, mover: usize, after: &Seen, thread: usize) -> bool {
    let came = before
        .locks
        .iter()
        .any(|shown| shown.queues(thread) || shown.has_aside(thread));
    match (before.taker(thread), after.taker(thread)) {
        (None, Some(taker)) => taker == mover && came,
        (Some(taker), None) => taker == mover && after.standing(thread) == Standing::Awake,
        (old, new) => old == new,
    }
}

/// A `Once` that is done stays so, and a condition variable doesn't go from one mutex to another.
fn check_lock(lock: usize, old: &SeenLock, new: &SeenLock) -> Result<(), Violation> {
    match old.kind {
        Kind::Once if old.word & 1 != 0 && new.word & 1 == 0 => Err(Violation::Undone(lock)),
        Kind::Condvar if old.word != 0 && new.word != 0 && old.word != new.word => {
            Err(Violation::ShowsAnother(lock))
        }
        _ => Ok(()),
    }
}

/// Returns whether two lists agree about a thread.
fn agree(old: &[usize], new: &[usize], thread: usize) -> bool {
    old.iter().any(|other| *other == thread) == new.iter().any(|other| *other == thread)
}

/// Another thread's debts stay, but that one that wakes up may try again from now on. Nobody begins to
/// try again by itself.
fn check_lists(
    before: &Seen,
    mover: usize,
    old: &SeenLock,
    new: &SeenLock,
) -> Result<(), Violation> {
    for thread in 0..before.threads.len() {
        let owes_as_before = agree(old.owing.as_slice(), new.owing.as_slice(), thread);
        if thread != mover && !owes_as_before {
            return Err(Violation::DebtMoved(thread));
        }
        let retried = old.retrying.iter().any(|other| *other == thread);
        let retries = new.retrying.iter().any(|other| *other == thread);
        let was_held = before.taker(thread) == Some(mover);
        if thread != mover && retried && !retries {
            return Err(Violation::DebtMoved(thread));
        }
        if retries && !retried && !was_held {
            return Err(Violation::DebtMoved(thread));
        }
    }
    Ok(())
}
