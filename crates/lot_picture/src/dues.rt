//! What a thread is about to do, by the place where it is.
ghost use Rattle.std.specs.Prelude.{◌≡◌, ◌↔◌, ◌<◌, Some, IsTrue, length};
ghost use Rattle.steps_condvar.specs.CondvarSteps.{IsKeyed};
ghost use Rattle.lot_steps.specs.Steps.{HasKeys, act_of};
ghost use Rattle.lot_machine.specs.Machine.{place_at, word_at};
ghost use Rattle.lot_picture.specs.Dues.{due_at, word_found};

use core_base::{Key, Queues};
use lot_world::{Act, Place, World};

/// The first number that is no lock's.
const NO_LOCK: usize = 1 << 63;

/// The next act of a thread, and the word that it finds.
#[derive(Clone, Copy)]
pub struct Due {
    pub act: Act,
    /// The word of the lock whose word the act reads or changes, else 0.
    pub word: u64,
}

/// Returns what a thread is about to do.
pub fn due_of<Q: Queues + Drop>(world: &World<Q>, thread: usize) -> Option<Due>
    requires { thread < length world.now.places }
    ensures { HasKeys (place_at world.now thread) → result ≡ Some (due_at world.now thread) }
{
    let place = world.place(thread);
    if !has_keys(&place) {
        return None;
    }
    let act = place.act();
    Some(Due {
        act,
        word: word_found(world, act),
    })
}

/// Tells whether the keys of the lock that a thread calls, and of the mutex named with it, are numbers.
fn has_keys(place: &Place) -> bool
    ensures { IsTrue result ↔ HasKeys place.now }
{
    match place {
        Place::Idle => true,
        Place::Mutex { lock, .. }
        | Place::RwLock { lock, .. }
        | Place::Once { lock, .. }
        | Place::Semaphore { lock, .. } => *lock < NO_LOCK,
        Place::Condvar { lock, at } => *lock < NO_LOCK && is_key(at.mutex()),
    }
}

fn is_key(mutex: Option<Key>) -> bool
    ensures { IsTrue result ↔ IsKeyed mutex }
{
    match mutex {
        Some(mutex) => mutex < NO_LOCK,
        None => true,
    }
}

/// Returns the word that an act reads or changes, or 0.
fn word_found<Q: Queues + Drop>(world: &World<Q>, act: Act) -> u64
    ensures { result ≡ word_found world.now act }
{
    match act {
        Act::Word { lock, .. } | Act::HandOver { lock, .. } | Act::Park { lock, .. } => {
            word_at(world, lock)
        }
        Act::Rest
        | Act::Enter(_)
        | Act::Stand { .. }
        | Act::Take { .. }
        | Act::Requeue { .. }
        | Act::Remove(_)
        | Act::Leave { .. }
        | Act::Sleep
        | Act::Accept
        | Act::Closure(_)
        | Act::End(_) => 0,
    }
}

fn word_at<Q: Queues + Drop>(world: &World<Q>, lock: usize) -> u64
    ensures { result ≡ word_at world.now lock }
{
    if lock < world.locks() {
        world.word(lock)
    } else {
        0
    }
}
