//! Why a turn isn't possible now, and why a world may not be drained.
use core_base::Queues;
use lot_world::{Call, Kind, Outcome, Place, Step, Turn, World};
use std::fmt;
use steps_condvar::CondvarPlace;

/// Why a step isn't possible now.
#[derive(Clone, Copy, Debug, PartialEq, Eq)]
pub enum Obstacle {
    /// No thread has this number.
    NoThread,
    /// The thread is in a call, and begins none.
    InCall,
    /// The thread is in no call.
    InNoCall,
    /// The thread sleeps.
    Asleep,
    /// The thread doesn't sleep.
    Awake,
    /// The thread sleeps without a deadline.
    NoDeadline,
    /// Another thread has taken it off the queue in which it slept.
    Taken,
    /// The thread's closure has not answered yet.
    InClosure,
    /// The thread is in no closure.
    InNoClosure,
    /// The thread has no word to look at once more.
    NoLook,
    /// Another thread is inside the section of a queue that it enters.
    SectionTaken,
    /// No lock has this number.
    NoLock,
    /// The lock has no such call.
    NoCall,
    /// A wait names something else than a plain mutex.
    NoPlainMutex,
    /// The thread has not the right that the call gives up, or turns into another.
    NoRight,
}

impl fmt::Display for Obstacle {
    fn fmt<W: fmt::Write>(&self, f: &mut fmt::Formatter<W>) -> fmt::Result {
        f.write_str(match self {
            Obstacle::NoThread => "there is no such thread",
            Obstacle::InCall => "the thread is in a call, which has to end first",
            Obstacle::InNoCall => "the thread is in no call",
            Obstacle::Asleep => "the thread sleeps till another wakes it",
            Obstacle::Awake => "the thread does not sleep",
            Obstacle::NoDeadline => "the thread sleeps without a deadline",
            Obstacle::Taken => "another thread has taken it off the queue, and is to wake it",
            Obstacle::InClosure => "the thread runs its closure, which answers by ok or err",
            Obstacle::InNoClosure => "the thread runs no closure",
            Obstacle::NoLook => "the thread has no word to look at once more",
            Obstacle::SectionTaken => "another thread is inside the section of the queue",
            Obstacle::NoLock => "there is no such lock",
            Obstacle::NoCall => "the lock has no such call",
            Obstacle::NoPlainMutex => "a condition variable works with a plain mutex alone",
            Obstacle::NoRight => "the thread lacks the right that the call needs",
        })
    }
}

/// Returns why a step isn't possible, where it isn't.
pub fn obstacle_of<Q: Queues + Drop>(world: &World<Q>, step: Step) -> Obstacle {
    let Step { thread, turn } = step;
    if thread >= world.threads() {
        return Obstacle::NoThread;
    }
    let place = world.place(thread);
    match turn {
        Turn::Begin(call) => call_obstacle(world, &place, call),
        Turn::Go => going_obstacle(&place),
        Turn::Spin if place.is_idle() => Obstacle::InNoCall,
        Turn::Spin => Obstacle::NoLook,
        Turn::Late => late_obstacle(world, thread, &place),
        Turn::Ok | Turn::Err if place.is_idle() => Obstacle::InNoCall,
        Turn::Ok | Turn::Err => Obstacle::InNoClosure,
    }
}

// Why a thread at a place doesn't begin a call.
fn call_obstacle<Q: Queues + Drop>(world: &World<Q>, place: &Place, call: Call) -> Obstacle {
    if !place.is_idle() {
        return Obstacle::InCall;
    }
    let lock = call.lock();
    if lock >= world.locks() {
        return Obstacle::NoLock;
    }
    if !world.kind(lock).has_call(call) {
        return Obstacle::NoCall;
    }
    match call.mutex() {
        Some(mutex) if mutex >= world.locks() || !world.kind(mutex).is_plain_mutex() => {
            Obstacle::NoPlainMutex
        }
        _ => Obstacle::NoRight,
    }
}

// Why a thread at a place doesn't go on.
fn going_obstacle(place: &Place) -> Obstacle {
    if place.is_idle() {
        return Obstacle::InNoCall;
    }
    match place.outcome() {
        Outcome::Sleep => Obstacle::Asleep,
        Outcome::Closure(_) => Obstacle::InClosure,
        Outcome::NotNow | Outcome::Step | Outcome::End(_) => Obstacle::SectionTaken,
    }
}

// Why a thread at a place doesn't give up a timed sleep.
fn late_obstacle<Q: Queues + Drop>(world: &World<Q>, thread: usize, place: &Place) -> Obstacle {
    if place.is_idle() {
        return Obstacle::InNoCall;
    }
    match place.outcome() {
        Outcome::Sleep if !is_queued(world, thread) => Obstacle::Taken,
        Outcome::Sleep if is_timed(place) => Obstacle::SectionTaken,
        Outcome::Sleep => Obstacle::NoDeadline,
        Outcome::NotNow | Outcome::Step | Outcome::Closure(_) | Outcome::End(_) => Obstacle::Awake,
    }
}

// Returns whether a thread is in a queue.
fn is_queued<Q: Queues + Drop>(world: &World<Q>, thread: usize) -> bool {
    for lock in 0..world.locks() {
        if world.queue(lock).any(|waiter| waiter.thread == thread) {
            return true;
        }
    }
    false
}

// Returns whether a thread that is in a queue at a place has a deadline.
fn is_timed(place: &Place) -> bool {
    match *place {
        Place::Idle => false,
        Place::Mutex { lock: _, at } => at.late_line().is_some(),
        Place::RwLock {
            lock: _,
            admission: _,
            at,
        } => at.late_line().is_some(),
        Place::Once { lock: _, at } => at.late_line().is_some(),
        Place::Condvar { lock: _, at } => matches!(at, CondvarPlace::Wait { timed: true, .. }),
        Place::Semaphore { lock: _, at } => at.late_line().is_some(),
    }
}

/// Why a world may not be drained.
#[derive(Clone, Copy, Debug, PartialEq, Eq)]
pub enum DrainObstacle {
    /// The world has no lock, or more than one.
    LockCount,
    /// The lock has no owners.
    NoOwners,
    /// A thread has another right than the one that its call leaves it, or readers were as many as the
    /// limit.
    Rights,
}

impl fmt::Display for DrainObstacle {
    fn fmt<W: fmt::Write>(&self, f: &mut fmt::Formatter<W>) -> fmt::Result {
        f.write_str(match self {
            DrainObstacle::LockCount => "a drain is of one lock",
            DrainObstacle::NoOwners => "a drain is of a mutex or a reader-writer lock",
            DrainObstacle::Rights => {
                "a thread has two rights, or one and a call that gets one, or readers came to the limit"
            }
        })
    }
}

/// Returns why a world may not be drained, where it may not.
pub fn drain_obstacle<Q: Queues + Drop>(world: &World<Q>) -> DrainObstacle {
    if world.locks() != 1 {
        return DrainObstacle::LockCount;
    }
    match world.kind(0) {
        Kind::Condvar | Kind::Once | Kind::Semaphore { permits: _ } => DrainObstacle::NoOwners,
        Kind::Mutex | Kind::Fair => DrainObstacle::Rights,
        Kind::RwLock { limit: _ } | Kind::Recursive { limit: _ } => DrainObstacle::Rights,
    }
}
