//! The meaning of each answer of a call.

use crate::seen::{Rights, Seen, SeenLock};
use crate::violations::Violation;
use crate::watch::Begun;
use spec_locks::{
    Access, Answer, Call, CondvarCall, Downgrade, Kind, MutexCall, OnceCall, Patience, RwLockCall,
    SemaphoreCall,
};

/// The rights with one more. None where the thread has it and can't have it twice.
fn with(had: Rights, access: Access) -> Option<Rights> {
    match access {
        Access::Exclusive if had.is_exclusive => None,
        Access::Upgradable if had.is_upgradable => None,
        Access::Exclusive => Some(Rights {
            is_exclusive: true,
            ..had
        }),
        Access::Upgradable => Some(Rights {
            is_upgradable: true,
            ..had
        }),
        Access::Shared => Some(Rights {
            shared: had.shared.wrapping_add(1),
            ..had
        }),
    }
}

/// The rights without one. None where the thread lacks it.
fn without(had: Rights, access: Access) -> Option<Rights> {
    match access {
        Access::Exclusive if !had.is_exclusive => None,
        Access::Upgradable if !had.is_upgradable => None,
        Access::Exclusive => Some(Rights {
            is_exclusive: false,
            ..had
        }),
        Access::Upgradable => Some(Rights {
            is_upgradable: false,
            ..had
        }),
        Access::Shared => Some(Rights {
            shared: usize::checked_sub(had.shared, 1)?,
            ..had
        }),
    }
}

/// Returns whether the answer says that the thread entered, by its patience: none where it says
/// neither.
fn entered(patience: Patience, answer: Answer) -> Option<bool> {
    match (patience, answer) {
        (Patience::Patient, Answer::Ok) => Some(true),
        (Patience::Timed | Patience::Try, Answer::Yes) => Some(true),
        (Patience::Timed | Patience::Try, Answer::No) => Some(false),
        _ => None,
    }
}

fn after_entering(
    access: Access,
    patience: Patience,
    answer: Answer,
    had: Rights,
) -> Option<Rights> {
    if answer == Answer::ReadersFull && access != Access::Exclusive {
        return Some(had);
    }
    if entered(patience, answer)? {
        with(had, access)
    } else {
        Some(had)
    }
}

/// A right is exchanged for another.
fn exchanged(had: Rights, old: Access, new: Access) -> Option<Rights> {
    with(without(had, old)?, new)
}

fn after_mutex_call(call: MutexCall, answer: Answer, had: Rights) -> Option<Rights> {
    let access = Access::Exclusive;
    match call {
        MutexCall::Lock => after_entering(access, Patience::Patient, answer, had),
        MutexCall::LockTimed => after_entering(access, Patience::Timed, answer, had),
        MutexCall::TryLock => after_entering(access, Patience::Try, answer, had),
        MutexCall::Unlock | MutexCall::UnlockFair if answer == Answer::Ok => without(had, access),
        MutexCall::Bump if answer == Answer::Ok => Some(had),
        _ => None,
    }
}

fn after_rwlock_call(call: RwLockCall, answer: Answer, had: Rights) -> Option<Rights> {
    let is_ok = answer == Answer::Ok;
    match call {
        RwLockCall::Enter { access, patience } => after_entering(access, patience, answer, had),
        RwLockCall::Release(access) | RwLockCall::ReleaseFair(access) if is_ok => {
            without(had, access)
        }
        RwLockCall::Downgrade(Downgrade::ToShared) if is_ok => {
            exchanged(had, Access::Exclusive, Access::Shared)
        }
        RwLockCall::Downgrade(Downgrade::ToUpgradable) if is_ok => {
            exchanged(had, Access::Exclusive, Access::Upgradable)
        }
        RwLockCall::Downgrade(Downgrade::UpgradableToShared) if is_ok => {
            exchanged(had, Access::Upgradable, Access::Shared)
        }
        RwLockCall::Upgrade(patience) => {
            if entered(patience, answer)? {
                exchanged(had, Access::Upgradable, Access::Exclusive)
            } else {
                Some(had)
            }
        }
        RwLockCall::Bump(_) if is_ok => Some(had),
        RwLockCall::Bump(Access::Exclusive) => None,
        RwLockCall::Bump(access) if answer == Answer::ReadersFull => without(had, access),
        _ => None,
    }
}

fn after_once_call(call: OnceCall, answer: Answer, had: Rights) -> Option<Rights> {
    let is_told = match call {
        OnceCall::CallOnce { forced } => {
            matches!(answer, Answer::Ok | Answer::Failed) || (answer == Answer::Poisoned && !forced)
        }
        OnceCall::Wait { forced } => {
            answer == Answer::Ok || (answer == Answer::Poisoned && !forced)
        }
        OnceCall::WaitTimed => matches!(answer, Answer::Yes | Answer::No | Answer::Poisoned),
    };
    if is_told { Some(had) } else { None }
}

fn after_condvar_call(call: CondvarCall, answer: Answer, had: Rights) -> Option<Rights> {
    let is_told = match call {
        CondvarCall::Wait { timed: false, .. } => {
            matches!(answer, Answer::Ok | Answer::TwoMutexes)
        }
        CondvarCall::Wait { timed: true, .. } => {
            matches!(
                answer,
                Answer::Notified | Answer::TimedOut | Answer::TwoMutexes
            )
        }
        CondvarCall::Notify { all: false } => matches!(answer, Answer::Yes | Answer::No),
        CondvarCall::Notify { all: true } => matches!(answer, Answer::Number(_)),
    };
    if is_told { Some(had) } else { None }
}

/// The rights that a thread has after a call, by the answer and those that it had before. None where
/// the call never answers so.
pub fn rights_after(call: Call, answer: Answer, had: Rights) -> Option<Rights> {
    match call {
        Call::Mutex { call, .. } => after_mutex_call(call, answer, had),
        Call::RwLock { call, .. } => after_rwlock_call(call, answer, had),
        Call::Once { call, .. } => after_once_call(call, answer, had),
        Call::Condvar { call, .. } => after_condvar_call(call, answer, had),
        Call::Semaphore { call, .. } => match call {
            SemaphoreCall::Acquire(patience) => {
                after_entering(Access::Shared, patience, answer, had)
            }
            SemaphoreCall::Release if answer == Answer::Ok => without(had, Access::Shared),
            SemaphoreCall::Release => None,
        },
    }
}

/// Returns whether the call has a deadline.
fn is_timed(call: Call) -> bool {
    match call {
        Call::Mutex { call, .. } => call == MutexCall::LockTimed,
        Call::RwLock { call, .. } => {
            matches!(
                call,
                RwLockCall::Enter {
                    patience: Patience::Timed,
                    ..
                } | RwLockCall::Upgrade(Patience::Timed)
            )
        }
        Call::Once { call, .. } => call == OnceCall::WaitTimed,
        Call::Condvar { .. } => false,
        Call::Semaphore { call, .. } => call == SemaphoreCall::Acquire(Patience::Timed),
    }
}

/// Returns whether the call is a try that a free word would let in.
fn is_refused_free(call: Call, answer: Answer, seen: &SeenLock) -> bool {
    if answer != Answer::No {
        return false;
    }
    match call {
        Call::Mutex { call, .. } => call == MutexCall::TryLock && seen.word & 1 == 0,
        Call::RwLock {
            call: RwLockCall::Enter {
                access: Access::Exclusive,
                patience: Patience::Try,
            },
            ..
        } => seen.word == 0,
        Call::Semaphore { call, .. } => {
            call == SemaphoreCall::Acquire(Patience::Try) && seen.word >> 1 != 0
        }
        _ => false,
    }
}

/// Returns whether a notification tells the number of waiters that it moved.
fn is_number(call: CondvarCall, answer: Answer, moved: usize) -> bool {
    match (call, answer) {
        (CondvarCall::Notify { all: false }, Answer::Yes) => moved == 1,
        (CondvarCall::Notify { all: false }, _) => moved == 0,
        (CondvarCall::Notify { all: true }, answer) => answer == Answer::Number(moved),
        (CondvarCall::Wait { .. }, _) => true,
    }
}

/// Returns whether a `Once` is as a call of it is told. A call whose own run failed is told that alone.
fn is_state(answer: Answer, begun: Begun, word: u64) -> bool {
    match answer {
        Answer::Ok | Answer::Yes => word & 1 != 0 && !begun.has_failed,
        Answer::Poisoned => word & 7 == 2 && !begun.has_failed,
        Answer::Failed => begun.has_failed,
        _ => true,
    }
}

/// Returns whether as many threads share the lock as it admits.
fn is_full(shown: &SeenLock) -> bool {
    match shown.kind {
        Kind::RwLock { limit } | Kind::Recursive { limit } => shown.count() as u64 >= limit,
        _ => false,
    }
}

/// Names the violation where an answer says of the call's past, or of the lock, what isn't so.
pub fn told_violation(
    before: &Seen,
    thread: usize,
    begun: Begun,
    answer: Answer,
    after: &Seen,
) -> Option<Violation> {
    let old = before.locks.get(begun.call.lock())?;
    let new = after.locks.get(begun.call.lock())?;
    if is_refused_free(begun.call, answer, old) {
        return Some(Violation::RefusedFree(thread));
    }
    if answer == Answer::No && is_timed(begun.call) && !begun.is_late {
        return Some(Violation::NeverLate(thread));
    }
    if answer == Answer::ReadersFull && !is_full(new) {
        return Some(Violation::RefusedFree(thread));
    }
    match begun.call {
        Call::Once { .. } if !is_state(answer, begun, new.word) => {
            Some(Violation::ToldWrong(thread))
        }
        Call::Condvar { call, .. } => told_of_condvar(thread, call, begun, answer),
        _ => None,
    }
}

fn told_of_condvar(
    thread: usize,
    call: CondvarCall,
    begun: Begun,
    answer: Answer,
) -> Option<Violation> {
    if !is_number(call, answer, begun.moved) {
        return Some(Violation::WrongNumber(thread));
    }
    let waits = matches!(call, CondvarCall::Wait { .. });
    match answer {
        Answer::TimedOut if !begun.is_late => Some(Violation::NeverLate(thread)),
        Answer::TimedOut if begun.is_notified => Some(Violation::NeverNotified(thread)),
        Answer::Ok | Answer::Notified if waits && !begun.is_notified => {
            Some(Violation::NeverNotified(thread))
        }
        _ => None,
    }
}
