//! The gain of a call that began with nothing, or that has given up the right that it began with.
ghost use Rattle.std.specs.Prelude.{◌≡◌};
ghost use Rattle.lot_world.specs.Drainable.{gain_of, may_pend, mutex_gain, call_gain, bump_gain, entry_gain};
ghost use Rattle.lot_world.specs.Drainable.{handed_gain};

use lot_steps::Place;
use spec_locks::Access;
use steps_mutex::{HandOffAt, LockAt, MutexPlace};
use steps_rwlock::{RwLockAt, RwLockPlace, RwLockPurpose};
use steps_rwlock_fair::{HandOverAt, HandedAt, RwLockCallPlace};

/// The right that such a call has got.
#[derive(Clone, Copy)]
pub(crate) enum Gain {
    Nothing,
    /// The thread is the pending writer.
    Pending,
    Right(Access),
}

/// Returns the gain of the call of a thread at this place, where it began with nothing or has given
/// its own right up.
pub(crate) fn gain_of(place: Place) -> Option<Gain>
    ensures { result ≡ gain_of place }
{
    match place {
        Place::Mutex { at, .. } => mutex_gain(at),
        Place::RwLock { at, .. } => call_gain(at),
        Place::Idle | Place::Once { .. } | Place::Condvar { .. } | Place::Semaphore { .. } => None,
    }
}

/// Returns whether a thread at this place may be the pending writer: where it is in a call that
/// does more than give a right up.
pub(crate) fn may_pend(place: Place) -> bool
    ensures { result ≡ may_pend place }
{
    match place {
        Place::Idle => false,
        Place::Mutex { at, .. } => match at {
            MutexPlace::Unlock(_) | MutexPlace::UnlockFair => false,
            MutexPlace::HandOff { bumps, .. } => bumps,
            MutexPlace::Lock { .. } | MutexPlace::TryLock | MutexPlace::Bump => true,
        },
        Place::RwLock { at, .. } => match at {
            RwLockCallPlace::Plain(place) => !matches!(place.purpose, RwLockPurpose::Release(_)),
            RwLockCallPlace::HandOver { bumps, .. } => bumps,
            RwLockCallPlace::PeekQueue(_) | RwLockCallPlace::Bump(_) => true,
            RwLockCallPlace::Handed { .. } => true,
        },
        Place::Once { .. } | Place::Condvar { .. } | Place::Semaphore { .. } => true,
    }
}

fn mutex_gain(at: MutexPlace) -> Option<Gain>
    ensures { result ≡ mutex_gain at }
{
    match at {
        MutexPlace::Lock {
            at: LockAt::Handed { .. } | LockAt::Accept,
            ..
        } => Some(Gain::Right(Access::Exclusive)),
        MutexPlace::Lock { .. } | MutexPlace::TryLock => Some(Gain::Nothing),
        MutexPlace::HandOff {
            bumps: true,
            at: HandOffAt::Leave { .. },
        } => Some(Gain::Nothing),
        MutexPlace::HandOff { .. } => None,
        MutexPlace::Unlock(_) | MutexPlace::UnlockFair | MutexPlace::Bump => None,
    }
}

fn call_gain(at: RwLockCallPlace) -> Option<Gain>
    ensures { result ≡ call_gain at }
{
    match at {
        RwLockCallPlace::Plain(place) => match place.purpose {
            RwLockPurpose::Enter { .. } => Some(entry_gain(place.at)),
            RwLockPurpose::Release(_) => None,
            RwLockPurpose::Downgrade(_) | RwLockPurpose::Upgrade(_) => None,
        },
        RwLockCallPlace::PeekQueue(_) => None,
        RwLockCallPlace::HandOver {
            bumps: true,
            at: HandOverAt::Leave { .. },
            ..
        } => Some(Gain::Nothing),
        RwLockCallPlace::HandOver { .. } => None,
        RwLockCallPlace::Bump(place) => bump_gain(place),
        RwLockCallPlace::Handed { access, at, .. } => Some(handed_gain(access, at)),
    }
}

/// A bump has given its right up once it wakes others, and then enters again.
fn bump_gain(place: RwLockPlace) -> Option<Gain>
    ensures { result ≡ bump_gain place.purpose place.at }
{
    match (place.purpose, place.at) {
        (RwLockPurpose::Enter { .. }, at) => Some(entry_gain(at)),
        (RwLockPurpose::Release(_), RwLockAt::Wake { .. }) => Some(Gain::Nothing),
        _ => None,
    }
}

/// A writer that waits for readers is pending.
fn entry_gain(at: RwLockAt) -> Gain
    ensures { result ≡ entry_gain at }
{
    match at {
        RwLockAt::Look | RwLockAt::Count(_) | RwLockAt::Marked => Gain::Pending,
        RwLockAt::Aside(_) | RwLockAt::RollBack => Gain::Pending,
        RwLockAt::First | RwLockAt::Load | RwLockAt::Decide(_) => Gain::Nothing,
        RwLockAt::Park(_) | RwLockAt::GiveWay | RwLockAt::Wake { .. } => Gain::Nothing,
    }
}

/// A thread that was handed the lock has its right; a writer beside readers is pending.
fn handed_gain(access: Access, at: HandedAt) -> Gain
    ensures { result ≡ handed_gain access at }
{
    match (access, at) {
        (Access::Exclusive, HandedAt::Asleep { alone: false, .. }) => Gain::Pending,
        _ => Gain::Right(access),
    }
}
