//! The language of schedules (kinds of lock, calls, turns, steps and what comes of them), the abstract
//! locks, and what every step of a lot of threads keeps of them. No place of a call is named here.
#![tactic(auto)]

pub mod calls;
pub mod kinds;
pub mod outcomes;

ghost use Rattle.spec_locks.specs.Laws.{CallsTakeSteps, FairReleasesHandOver, FreeMutexIsGot, OwnersKeepOut};
ghost use Rattle.spec_locks.specs.Laws.{PossibleTurnsAreTaken};
ghost use Rattle.spec_locks.specs.UserLaws.{DowngradesOwn, OfEachStep, ReadersStayOut, RereadersPass};
ghost use Rattle.spec_locks.specs.UserLaws.{UpgradesLetNobodyWrite};
ghost use Rattle.spec_locks.specs.Bypass.{BypassIsBounded};
ghost use Rattle.spec_locks.specs.EachStep.{QueuesKeepOrder};
ghost use Rattle.spec_locks.specs.GuaranteeLaws.{HeadlineGuarantees, NoNotificationIsLost};
ghost use Rattle.spec_locks.specs.GuaranteeLaws.{NotificationsReach, OwnersExcludeInRuns, QuietWorldsRest};
ghost use Rattle.spec_locks.specs.GuaranteeLaws.{SafeStatesHold, SomebodyGoes};
ghost use Rattle.spec_locks.specs.Picks.{PickersPickAsTheLocksSay};
ghost use Rattle.spec_locks.specs.Sites.{EachDeedKeeps};
ghost use Rattle.spec_locks.specs.Permits.{EachDeedKeepsPermits, PermitsAreLookedAfter};
ghost use Rattle.spec_locks.specs.CondvarLaws.{NobodyWakesByItself};
ghost use Rattle.spec_locks.specs.Condvars.{EachCondvarDeedKeeps, EachMoveFits};
ghost use Rattle.spec_locks.specs.OnceLaws.{CallersAreLookedAfter, NothingLeavesDone};
ghost use Rattle.spec_locks.specs.Codes.{LimitKept, WordFollows, WordsTellTrue};

pub use calls::{
    Access, Call, CondvarCall, Downgrade, MutexCall, OnceCall, Patience, RwLockCall, SemaphoreCall,
    Step, Turn,
};
pub use kinds::Kind;
pub use outcomes::{Answer, OnceState, Outcome};

/// Proves that each deed of a thread at a lock of the lot keeps what holds of the lock between
/// steps.
pub fn each_deed_keeps()
    ensures { EachDeedKeeps }
{}

/// Proves that a `Once` that is done stays so, whatever is done to it.
pub fn nothing_leaves_done()
    ensures { NothingLeavesDone }
{}

/// Proves that each deed of a thread at a condition variable keeps what holds of it between steps.
pub fn each_condvar_deed_keeps()
    ensures { EachCondvarDeedKeeps }
{}

/// Proves that the mutex that is shown may be brought the waiters that a notification moves.
pub fn each_move_fits()
    ensures { EachMoveFits }
{}

/// Proves that each deed at a semaphore keeps this: while somebody waits, at least as many threads
/// look after the line as permits are free.
pub fn each_deed_keeps_permits()
    ensures { EachDeedKeepsPermits }
{}

/// Proves that a waiter of a semaphore is looked after while a permit is free.
pub fn permits_are_looked_after()
    ensures { PermitsAreLookedAfter }
{}

/// Proves that a thread that waits to run a `Once` is looked after while nobody runs it.
pub fn callers_are_looked_after()
    ensures { CallersAreLookedAfter }
{}

/// Proves that the word of a reader-writer lock follows each case of the lock.
pub fn words_follow()
    ensures { WordFollows }
{}

/// Proves that a thread reads the truth in the word of a reader-writer lock.
pub fn words_tell_true()
    ensures { WordsTellTrue }
{}

/// Proves that the count passes the limit by a roll-back alone, on a recursive lock, and by 1.
pub fn limit_kept()
    ensures { LimitKept }
{}

/// Proves that a thread that wakes others takes of a reader-writer lock's main queue just those
/// that the abstract lock says. It leaves just the others, both in order.
pub fn pickers_pick_as_the_locks_say()
    ensures { PickersPickAsTheLocksSay }
{}

/// Proves that a possible turn isn't refused: no world answers `NotNow` to what the state and the
/// call allow.
pub fn possible_turns_are_taken()
    ensures { PossibleTurnsAreTaken }
{}

/// Proves that a call doesn't end as it begins: no world does whole calls in one step.
pub fn calls_take_steps()
    ensures { CallsTakeSteps }
{}

/// Proves that a try of a mutex that nobody owns doesn't fail.
pub fn a_free_mutex_is_got()
    ensures { FreeMutexIsGot }
{}

/// Proves that nobody enters a lock whose owners bar what it wants.
pub fn owners_exclude()
    ensures { OwnersKeepOut }
{}

/// Proves that a fair release wakes nobody to try again: it hands the lock over, or lets it go.
pub fn fair_releases_hand_over()
    ensures { FairReleasesHandOver }
{}

/// Proves that nobody begins to share a lock that isn't recursive while a writer is pending on it.
pub fn readers_stay_out()
    ensures { OfEachStep ReadersStayOut }
{}

/// Proves that a thread that shares a recursive lock isn't queued to share it once more.
pub fn rereaders_pass()
    ensures { OfEachStep RereadersPass }
{}

/// Proves that an upgrade, from the upgradable right to the exclusive one, lets no other writer in.
pub fn upgrades_let_nobody_write()
    ensures { OfEachStep UpgradesLetNobodyWrite }
{}

/// Proves that a downgrade owns the lock throughout.
pub fn downgrades_own()
    ensures { OfEachStep DowngradesOwn }
{}

/// Proves that no wait wakes by itself. A waiter was notified only by a step of another thread that
/// notifies its condition variable, while the waiter stood in that queue.
pub fn nobody_wakes_by_itself()
    ensures { OfEachStep NobodyWakesByItself }
{}

/// Proves that in each state of each run owners exclude each other.
pub fn owners_exclude_in_runs()
    ensures { OwnersExcludeInRuns }
{}

/// Proves that no world is stuck: where a thread in a call is awake and runs no closure, some thread
/// can go on.
pub fn somebody_goes()
    ensures { SomebodyGoes }
{}

/// Proves that no wake-up is lost: where no thread has anything to do, nobody waits for a lock that
/// is open.
pub fn quiet_worlds_rest()
    ensures { QuietWorldsRest }
{}

/// Proves that no notification is lost: one answers that it has moved nobody only where nobody
/// waits, all wait with another mutex than it has seen, or another is about to move them.
pub fn no_notification_is_lost()
    ensures { NoNotificationIsLost }
{}

/// Proves that each queue is first in, first out: those that stay keep their order, and a thread
/// that joins stands after them.
pub fn queues_keep_order()
    ensures { OfEachStep QueuesKeepOrder }
{}

/// Proves that a state that is safe, as the second page says, holds what the first promises.
pub fn safe_states_hold()
    ensures { SafeStatesHold }
{}

/// Proves that the first page follows of the second.
pub fn headline_guarantees()
    ensures { HeadlineGuarantees }
{}

/// Proves that a mutex that is handed over lets nobody be overtaken: while a thread waits, it passes
/// on no more often than there were threads ahead of that one and in a hand.
pub fn bypass_is_bounded()
    ensures { BypassIsBounded }
{}

/// Proves that a notification of all reaches each thread that stood there as it began: by its
/// answer they are moved, or another notification of all is about to move them.
pub fn notifications_reach()
    ensures { NotificationsReach }
{}
