//! For what a thread sleeps in its call, and under which keys it may be late or moved.
//!
//! A sleeper whose time is up may be queued under another key. Where its call knows that key, as a wait
//! on a condition variable knows its mutex's, the sleeper is told `MovedTo`, and is late there at once.
//! Under any other key, to which only a section of a user's own can have moved it, it leaves the queue
//! and tries again.
ghost use Rattle.std.specs.Prelude.{◌≡◌};
ghost use Rattle.lot_steps.specs.Steps.{HasKeys};
ghost use Rattle.lot_steps.specs.declared.places.Place.TheVariants.{Condvar};
ghost use Rattle.run_base.specs.Sleepers.{condvar_sleeper};
ghost use Rattle.run_base.specs.Fitting.{sleeper_at};
ghost use Rattle.run_base.specs.RwLockFitting.{may_be_handed};

use core_base::main_key;
use lot_steps::Place;
use parking_lot_core::{Key, Want};
use steps_condvar::{CondvarPlace, WaitAt};
use steps_rwlock::park::ParkAt;
use steps_rwlock::places::RwLockAt;
use steps_rwlock_fair::RwLockCallPlace;

/// The aim of a thread that sleeps, the key under which it may be late, and the key to which it may
/// be moved meanwhile.
#[derive(Clone, Copy)]
pub(crate) struct Sleeper {
    pub lock: usize,
    pub want: Want,
    pub late: Option<Key>,
    pub moved: Option<Key>,
    /// Whether it goes on where it is handed the lock.
    pub takes_over: bool,
}

// Returns whether a thread sleeps in the main queue, where it may be handed the lock.
fn may_be_handed(at: RwLockCallPlace) -> bool
    ensures { result ≡ may_be_handed at }
{
    match at {
        RwLockCallPlace::Plain(place) | RwLockCallPlace::Bump(place) => {
            matches!(place.at, RwLockAt::Park(ParkAt::Asleep))
        }
        _ => false,
    }
}

// For what a thread sleeps in a call of a condition variable: for its mutex, to the queue of which
// it may be moved meanwhile.
fn condvar_sleeper(lock: usize, at: CondvarPlace) -> Sleeper
    requires { HasKeys (Condvar lock at) }
    ensures { result ≡ condvar_sleeper lock at }
{
    let (lock, late, moved, takes_over) = match at {
        CondvarPlace::Wait {
            mutex,
            at: WaitAt::Lock { at, .. },
            ..
        } => (
            mutex,
            Place::Mutex { lock: mutex, at }.late_key(),
            None,
            true,
        ),
        CondvarPlace::Wait { mutex, .. } => {
            (mutex, at.late_key(lock), Some(main_key(mutex)), true)
        }
        _ => (lock, None, None, false),
    };
    Sleeper {
        lock,
        want: Want::Exclusive,
        late,
        moved,
        takes_over,
    }
}

/// For what a thread sleeps in its call.
pub(crate) fn sleeper_at(place: Place) -> Sleeper
    requires { HasKeys place }
    ensures { result ≡ sleeper_at place }
{
    let (lock, want, takes_over) = match place {
        Place::Idle => (0, Want::Exclusive, false),
        Place::Mutex { lock, .. } => (lock, Want::Exclusive, true),
        Place::RwLock { lock, at, .. } => {
            (
                lock,
                at.wants().unwrap_or(Want::Exclusive),
                may_be_handed(at),
            )
        }
        // Nobody hands a `Once` over.
        Place::Once { lock, at } => (lock, at.wants().unwrap_or(Want::Exclusive), false),
        // Nor is a permit handed over.
        Place::Semaphore { lock, at } => (lock, at.wants().unwrap_or(Want::Exclusive), false),
        Place::Condvar { lock, at } => return condvar_sleeper(lock, at),
    };
    Sleeper {
        lock,
        want,
        late: place.late_key(),
        moved: None,
        takes_over,
    }
}
