//! One run, worked out step by step, and what no world comes to.
ghost use Rattle.lot_laws.specs.Laws.{FairUnlockHandsOver, NoWaiterIsForgotten, NobodyIsPassedOver};
ghost use Rattle.lot_laws.specs.MutexPromises.{MutexesAreKept, MutexesOwe};

/// Thread 0 locks a mutex, threads 1 and 2 wait for it, and thread 0 unlocks it fairly: thread 1
/// owns it, and thread 2 waits.
pub fn a_fair_unlock_hands_over()
    ensures { FairUnlockHandsOver }
{}

/// A waiter of a mutex that nobody owns has somebody that owes its wake or tries again.
pub fn no_waiter_is_forgotten()
    ensures { NoWaiterIsForgotten }
{}

/// A fair release that has taken a waiter doesn't let the mutex go.
pub fn nobody_is_passed_over()
    ensures { NobodyIsPassedOver }
{}

/// The promises of every state say of a mutex: its word tells whether it is owned; a waiter implies
/// the parked bit or a thread that is about to set it. A waiter beside no owner has a thread that
/// owes its wake or tries again.
pub fn mutexes_are_kept()
    ensures { MutexesAreKept }
{}

/// The promises of every step say of a mutex: a thread owes a wake since its call, which releases
/// the mutex, saw the parked bit, or since it entered the section, until it leaves it.
pub fn mutexes_owe()
    ensures { MutexesOwe }
{}
