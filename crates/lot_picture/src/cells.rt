//! Cells: each says what a thread is to a lock, by the views of their world.
ghost use Rattle.std.specs.Prelude.{◌≡◌, ◌<◌, length};
ghost use Rattle.lot_steps.specs.Steps.{calls};
ghost use Rattle.lot_machine.specs.Machine.{place_at};
ghost use Rattle.lot_picture.specs.Cells.{right_among, is_inside_lock, waits_among, deed_of, cell_at};

use core_base::{Queues, main_key};
use lot_world::{MOST_LOCKS, Owner, OwnersOf, Place, QueueOf, World};

/// Tells what the call of a thread does at a lock.
#[derive(Clone, Copy, Debug, PartialEq, Eq)]
pub enum Deed {
    /// Owes a wake-up.
    Owes,
    /// Waits in the main queue.
    Waits,
    /// Waits aside for the last readers.
    WaitsAside,
    /// Was woken, and tries again.
    Retries,
    /// Was taken off its queue, and is asleep until its taker leaves the section.
    Taken,
    /// Is under way.
    Calls,
}

/// Tells what a thread is to a lock.
#[derive(Clone, Copy, Debug, PartialEq, Eq)]
pub struct Cell {
    /// The first of its rights, in the order of `World::owners`.
    pub right: Option<Owner>,
    pub deed: Option<Deed>,
    /// Whether it is inside a section of the lock.
    pub is_inside: bool,
}

impl Cell {
    /// Nothing at all.
    pub const NOTHING: Cell = Cell {
        right: None,
        deed: None,
        is_inside: false,
    };
}

/// Returns what a thread is to a lock.
pub fn cell_of<Q: Queues + Drop>(world: &World<Q>, thread: usize, lock: usize) -> Cell
    requires thread { thread < length world.now.places }
    requires lock { lock < length world.now.locks }
    requires few { lock < MOST_LOCKS }
    ensures { result ≡ cell_at world.now thread lock }
{
    let place = world.place(thread);
    let is_inside = is_inside(world, thread, lock);
    Cell {
        right: right_in(world.owners(lock), thread),
        deed: deed_at(world, &place, thread, lock),
        is_inside,
    }
}

/// Returns the first right that a thread has among these.
fn right_in(owners: OwnersOf<'_>, thread: usize) -> Option<Owner>
    ensures { result ≡ right_among owners.entry thread }
{
    for (owner, who) in owners {
        if who == thread {
            return Some(owner);
        }
    }
    None
}

/// Tells whether a thread is inside one of the two sections of a lock.
fn is_inside<Q: Queues + Drop>(world: &World<Q>, thread: usize, lock: usize) -> bool
    requires { lock < length world.now.locks }
    ensures { result ≡ is_inside_lock world.now thread lock }
{
    let (main, aside) = world.inside(lock);
    main == Some(thread) || aside == Some(thread)
}

/// Returns what the call of a thread at this place does at a lock.
fn deed_at<Q: Queues + Drop>(
    world: &World<Q>,
    place: &Place,
    thread: usize,
    lock: usize,
) -> Option<Deed>
    requires place { place.now ≡ place_at world.now thread }
    requires lock { lock < length world.now.locks }
    requires few { lock < MOST_LOCKS }
    ensures { result ≡ deed_of world.now thread lock }
{
    if place.owes_on(lock) {
        return Some(Deed::Owes);
    }
    if let Some(deed) = waiting_deed(world.queue(lock), thread, lock) {
        return Some(deed);
    }
    if place.retries_on(lock) {
        return Some(Deed::Retries);
    }
    match place.taker() {
        Some(taker) if is_inside(world, taker, lock) => Some(Deed::Taken),
        _ if is_call_of(place, lock) => Some(Deed::Calls),
        _ => None,
    }
}

/// Returns how a thread waits in this queue of a lock.
fn waiting_deed<Q: Queues + Drop>(queue: QueueOf<'_, Q>, thread: usize, lock: usize) -> Option<Deed>
    requires { lock < MOST_LOCKS }
    ensures { result ≡ waits_among queue.entry thread lock }
{
    for waiter in queue {
        if waiter.thread == thread {
            return Some(if waiter.key == main_key(lock) {
                Deed::Waits
            } else {
                Deed::WaitsAside
            });
        }
    }
    None
}

/// Tells whether a place is that of a call of this lock.
fn is_call_of(place: &Place, lock: usize) -> bool
    ensures { result ≡ calls place.now lock }
{
    match place {
        Place::Idle => false,
        Place::Mutex { lock: own, .. }
        | Place::RwLock { lock: own, .. }
        | Place::Once { lock: own, .. }
        | Place::Condvar { lock: own, .. }
        | Place::Semaphore { lock: own, .. } => *own == lock,
    }
}
