//! The rules of one state.

use crate::seen::{Right, Seen, SeenLock, SeenWaiter, Standing};
use crate::violations::Violation;
use core_base::Want;
use spec_locks::Kind;

/// Names the first violation that a world shows at one moment.
pub fn check_state(seen: &Seen) -> Result<(), Violation> {
    for (lock, shown) in seen.locks.iter().enumerate() {
        check_owners(lock, shown)?;
        check_sorts(lock, shown)?;
        check_number(lock, shown)?;
        check_word(lock, shown)?;
        check_marks(lock, shown)?;
        check_debts(seen, lock, shown)?;
    }
    for thread in 0..seen.threads.len() {
        check_thread(seen, thread)?;
    }
    Ok(())
}

/// An exclusive owner has nobody beside it, and a pending one no upgradable one. Each of these, and a
/// runner, is one thread. Only a pending writer waits aside.
fn check_owners(lock: usize, shown: &SeenLock) -> Result<(), Violation> {
    let exclusive = shown.number_of(Right::Exclusive);
    let pending = shown.number_of(Right::Pending);
    let upgradable = shown.number_of(Right::Upgradable);
    let is_alone = exclusive == 0 || shown.owners.len() == 1;
    let one_upgrades = pending == 0 || upgradable == 0;
    let one_of_each = pending <= 1 && upgradable <= 1 && shown.number_of(Right::Running) <= 1;
    if !(is_alone && one_upgrades && one_of_each) {
        return Err(Violation::OwnersClash(lock));
    }
    for thread in shown.aside.iter() {
        if !shown.gives(Right::Pending, *thread) {
            return Err(Violation::WrongAside(lock));
        }
    }
    Ok(())
}

/// Returns whether a lock of this kind can give the right.
fn has_right(kind: Kind, right: Right) -> bool {
    match kind {
        Kind::Mutex | Kind::Fair => right == Right::Exclusive,
        Kind::RwLock { .. } | Kind::Recursive { .. } => right != Right::Running,
        Kind::Condvar => false,
        Kind::Once => right == Right::Running,
        Kind::Semaphore { .. } => right == Right::Shared,
    }
}

/// Returns whether a waiter of a lock of this kind can want this.
fn has_want(kind: Kind, want: Want) -> bool {
    match kind {
        Kind::Mutex | Kind::Fair => want == Want::Exclusive,
        Kind::RwLock { .. } | Kind::Recursive { .. } => {
            matches!(want, Want::Exclusive | Want::Upgradable | Want::Shared)
        }
        Kind::Condvar => want == Want::Wait,
        Kind::Once => matches!(want, Want::Wait | Want::CallOnce),
        Kind::Semaphore { .. } => want == Want::Shared,
    }
}

fn check_sorts(lock: usize, shown: &SeenLock) -> Result<(), Violation> {
    let kind = shown.kind;
    let owners = shown
        .owners
        .iter()
        .all(|owner| has_right(kind, owner.right));
    let waiters = shown.main.iter().all(|waiter| has_want(kind, waiter.want));
    if owners && waiters {
        Ok(())
    } else {
        Err(Violation::WrongSort(lock))
    }
}

/// Readers keep to the limit, which a rolled back upgrade of a recursive lock may pass by one; permits
/// are never more than the semaphore has.
fn check_number(lock: usize, shown: &SeenLock) -> Result<(), Violation> {
    let count = shown.count() as u64;
    let fits = match shown.kind {
        Kind::RwLock { limit } => count <= limit,
        Kind::Recursive { limit } => count <= limit.saturating_add(1),
        Kind::Semaphore { permits } => count <= permits,
        Kind::Mutex | Kind::Fair | Kind::Condvar | Kind::Once => true,
    };
    if fits {
        Ok(())
    } else {
        Err(Violation::TooMany(lock))
    }
}

/// The bits of a word that tell of waiters.
fn parked_bits(kind: Kind) -> u64 {
    match kind {
        Kind::Mutex | Kind::Fair => 2,
        Kind::RwLock { .. } | Kind::Recursive { .. } => 3,
        Kind::Condvar => 0,
        Kind::Once => 8,
        Kind::Semaphore { .. } => 1,
    }
}

/// Returns whether the word, without what it tells of waiters, is the code of the owners.
fn is_code(shown: &SeenLock, bare: u64) -> bool {
    let exclusive = u64::from(shown.has(Right::Exclusive));
    let pending = u64::from(shown.has(Right::Pending));
    let upgradable = u64::from(shown.has(Right::Upgradable));
    let count = shown.count() as u64;
    match shown.kind {
        Kind::Mutex | Kind::Fair => bare == exclusive,
        Kind::RwLock { .. } | Kind::Recursive { .. } => {
            let bits = (exclusive | pending).wrapping_mul(8) | upgradable.wrapping_mul(4);
            bare == bits.wrapping_add(count.wrapping_mul(16))
        }
        Kind::Condvar => true,
        Kind::Once => matches!(bare, 0 | 1 | 2 | 4) && (bare == 4) == shown.has(Right::Running),
        Kind::Semaphore { permits } => bare == permits.wrapping_sub(count).wrapping_mul(2),
    }
}

fn check_word(lock: usize, shown: &SeenLock) -> Result<(), Violation> {
    let bare = shown.word & !parked_bits(shown.kind);
    if is_code(shown, bare) {
        Ok(())
    } else {
        Err(Violation::WrongWord(lock))
    }
}

/// Where nobody is inside a section, and so nobody owes, the word tells of each waiter, and a condition
/// variable shows a mutex exactly while it has waiters.
fn check_marks(lock: usize, shown: &SeenLock) -> Result<(), Violation> {
    if !shown.owing.is_empty() {
        return Ok(());
    }
    let is_told = match shown.kind {
        Kind::Mutex | Kind::Fair => shown.word & 2 != 0 || shown.main.is_empty(),
        Kind::RwLock { .. } | Kind::Recursive { .. } => {
            (shown.word & 1 != 0 || shown.main.is_empty())
                && (shown.word & 2 != 0 || shown.aside.is_empty())
        }
        Kind::Condvar => (shown.word == 0) == shown.main.is_empty(),
        Kind::Once => shown.word & 8 != 0 || shown.main.is_empty(),
        Kind::Semaphore { .. } => shown.word & 1 != 0 || shown.main.is_empty(),
    };
    if is_told {
        Ok(())
    } else {
        Err(Violation::UnmarkedWaiter(lock))
    }
}

/// Returns whether nobody bars the way of one that waits in the main queue. A lock whose readers once
/// were as many as its limit is left out.
fn is_open(shown: &SeenLock) -> bool {
    match shown.kind {
        Kind::Mutex | Kind::Fair => !shown.has(Right::Exclusive),
        Kind::RwLock { .. } | Kind::Recursive { .. } => {
            !shown.is_filled
                && !shown.has(Right::Exclusive)
                && !shown.has(Right::Pending)
                && !shown.has(Right::Upgradable)
        }
        Kind::Condvar => false,
        Kind::Once => !shown.has(Right::Running),
        Kind::Semaphore { permits } => (shown.count() as u64) < permits,
    }
}

/// Returns whether the waiter has somebody to wake it, where its way is open: of a `Once` only one
/// that would run it.
fn needs_a_debtor(waiter: &SeenWaiter) -> bool {
    waiter.want != Want::Wait
}

/// Returns whether a thread that is awake owes a wake on the lock, or was woken and tries again.
fn has_debtor(seen: &Seen, shown: &SeenLock) -> bool {
    let is_awake = |thread: &usize| seen.standing(*thread) == Standing::Awake;
    shown.owing.iter().any(is_awake) || shown.retrying.iter().any(is_awake)
}

fn check_debts(seen: &Seen, lock: usize, shown: &SeenLock) -> Result<(), Violation> {
    let waits = is_open(shown) && shown.main.iter().any(needs_a_debtor);
    let waits_aside = !shown.aside.is_empty() && !shown.is_filled && !shown.has(Right::Shared);
    if (waits || waits_aside) && !has_debtor(seen, shown) {
        return Err(Violation::Forgotten(lock));
    }
    Ok(())
}

/// In how many queues and hands a thread stands.
fn places_of(seen: &Seen, thread: usize) -> usize {
    let in_hand = usize::from(seen.taker(thread).is_some());
    let mut places = in_hand;
    for shown in seen.locks.iter() {
        let queued = shown
            .main
            .iter()
            .filter(|waiter| waiter.thread == thread)
            .count();
        let aside = shown.aside.iter().filter(|other| **other == thread).count();
        places = places.wrapping_add(queued).wrapping_add(aside);
    }
    places
}

/// A thread stands in one place at most. Asleep it stands in one, and idle in none.
fn check_thread(seen: &Seen, thread: usize) -> Result<(), Violation> {
    let places = places_of(seen, thread);
    if places > 1 {
        return Err(Violation::StandsTwice(thread));
    }
    match seen.standing(thread) {
        Standing::Idle if places != 0 => Err(Violation::WaitsIdle(thread)),
        Standing::Asleep if places == 0 => Err(Violation::SleepsNowhere(thread)),
        _ => Ok(()),
    }
}
