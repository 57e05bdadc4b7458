//! Worlds that a walk leads to, and the drain of each that may be drained.
ghost use Rattle.std.specs.Prelude.{◌≤◌, ◌≡◌, ◌<◌, All, length, true};
ghost use Rattle.spec_locks.specs.Kinds.{fits};

use super::{check, check_eq};
use core_base::{ListQueues, Queues};
use core_queues::BucketQueues;
use lot_world::{Call, Kind, MutexCall, Outcome, Step, Turn, World};
use spec_locks::{Access, Downgrade, Patience, RwLockCall};
use std::alloc::Global;
use std::process::Abort;

/// A world of one lock. It gives up where memory is refused.
fn world_of<Q: Queues + Drop, A: Abort>(
    rt: &A,
    alloc: Global,
    kind: Kind,
    threads: usize,
) -> World<Q>
    requires few { (1 ≤ threads) × (threads ≤ 1024) }
    requires fit { fits kind threads ≡ true }
{
    match World::new(alloc, &[kind], threads) {
        Ok(world) => world,
        Err(_) => panic!(rt; "no memory"),
    }
}

/// The steps that drain a world, where it may be drained.
fn steps_of<Q: Queues + Drop>(alloc: Global, world: &World<Q>) -> Option<Vec<Step>> {
    if !world.drainable() {
        return None;
    }
    world.drain(alloc).ok()
}

/// Returns whether nobody is in a call or waits, nobody owns the lock, and its word is 0.
fn is_over<Q: Queues + Drop>(world: &World<Q>) -> bool {
    for thread in 0..world.threads() {
        if !world.place(thread).is_idle() {
            return false;
        }
    }
    world.locks() == 1
        && world.word(0) == 0
        && world.owners(0).next().is_none()
        && world.queue(0).next().is_none()
}

/// Each step is possible.
fn takes_all<Q: Queues + Drop>(rt: &impl Abort, world: &mut World<Q>, steps: &[Step]) {
    for step in steps {
        check(rt, world.step(*step) != Outcome::NotNow);
    }
}

/// The world is drained by few steps, and by none from there on. Whether it may be drained.
fn drains<Q: Queues + Drop>(rt: &impl Abort, alloc: Global, world: &mut World<Q>) -> bool {
    let Some(steps) = steps_of(alloc, world) else {
        return false;
    };
    let number = (world.threads() as u128).wrapping_add(1);
    let most = number.wrapping_mul(number).wrapping_mul(1000);
    check(rt, steps.len() as u128 <= most);
    takes_all(rt, world, steps.as_slice());
    check(rt, is_over(world));
    if let Some(more) = steps_of(alloc, world) {
        check_eq(rt, more.len(), 0);
    }
    true
}

/// Numbers that look random, from one on.
#[derive(Clone, Copy)]
struct Dice {
    seed: u64,
}

impl Dice {
    /// A number below this one.
    fn below(&mut self, limit: usize) -> usize
        requires { 1 ≤ limit }
        ensures { result < limit }
    {
        self.seed = self
            .seed
            .wrapping_mul(6364136223846793005)
            .wrapping_add(1442695040888963407);
        (self.seed >> 33) as usize % limit
    }
}

/// Calls of a mutex that need no right, and those that need one.
const MUTEX_ENTRIES: [MutexCall; 3] = [MutexCall::Lock, MutexCall::LockTimed, MutexCall::TryLock];

const MUTEX_OWNER_CALLS: [MutexCall; 3] = [
    MutexCall::Unlock,
    MutexCall::UnlockFair,
    MutexCall::Bump,
];

/// Calls of a reader-writer lock that need no right, and those that need one.
const RWLOCK_ENTRIES: [RwLockCall; 5] = [
    RwLockCall::Enter {
        access: Access::Shared,
        patience: Patience::Patient,
    },
    RwLockCall::Enter {
        access: Access::Shared,
        patience: Patience::Timed,
    },
    RwLockCall::Enter {
        access: Access::Upgradable,
        patience: Patience::Timed,
    },
    RwLockCall::Enter {
        access: Access::Exclusive,
        patience: Patience::Patient,
    },
    RwLockCall::Enter {
        access: Access::Exclusive,
        patience: Patience::Timed,
    },
];

const RWLOCK_OWNER_CALLS: [RwLockCall; 11] = [
    RwLockCall::Release(Access::Shared),
    RwLockCall::Release(Access::Upgradable),
    RwLockCall::Release(Access::Exclusive),
    RwLockCall::ReleaseFair(Access::Upgradable),
    RwLockCall::ReleaseFair(Access::Exclusive),
    RwLockCall::Downgrade(Downgrade::ToShared),
    RwLockCall::Downgrade(Downgrade::ToUpgradable),
    RwLockCall::Upgrade(Patience::Timed),
    RwLockCall::Bump(Access::Shared),
    RwLockCall::Bump(Access::Upgradable),
    RwLockCall::Bump(Access::Exclusive),
];

/// A call of a lock of this kind, by a thread that owns it or doesn't.
fn call_of(dice: &mut Dice, kind: Kind, owns: bool) -> Call {
    let lock = 0;
    match (kind, owns) {
        (Kind::RwLock { .. } | Kind::Recursive { .. }, true) => Call::RwLock {
            lock,
            call: RWLOCK_OWNER_CALLS[dice.below(11)],
        },
        (Kind::RwLock { .. } | Kind::Recursive { .. }, false) => Call::RwLock {
            lock,
            call: RWLOCK_ENTRIES[dice.below(5)],
        },
        (_, true) => Call::Mutex {
            lock,
            call: MUTEX_OWNER_CALLS[dice.below(3)],
        },
        (_, false) => Call::Mutex {
            lock,
            call: MUTEX_ENTRIES[dice.below(3)],
        },
    }
}

/// Returns whether a thread owns the lock.
fn owns<Q: Queues + Drop>(world: &World<Q>, thread: usize) -> bool {
    if world.locks() == 0 {
        return false;
    }
    for (_, owner) in world.owners(0) {
        if owner == thread {
            return true;
        }
    }
    false
}

/// Returns the next turn of a thread of the walk.
fn turn_of(dice: &mut Dice, kind: Kind, owns: bool) -> Turn {
    match dice.below(12) {
        0 | 1 | 2 => Turn::Begin(call_of(dice, kind, owns)),
        3 => Turn::Late,
        4 => Turn::Spin,
        _ => Turn::Go,
    }
}

/// Takes a number of turns of any threads.
fn wanders<Q: Queues + Drop>(world: &mut World<Q>, dice: &mut Dice, kind: Kind, turns: usize) {
    for _ in 0..turns {
        let threads = world.threads();
        if threads == 0 {
            return;
        }
        let thread = dice.below(threads);
        let turn = turn_of(dice, kind, owns(world, thread));
        world.step(Step { thread, turn });
    }
}

/// Drains a world where so many walks from one to the next have led, and tells how many of them may
/// be drained.
fn drained_walks<Q: Queues + Drop, A: Abort>(
    rt: &A,
    alloc: Global,
    kind: Kind,
    threads: usize,
    walks: usize,
) -> usize
    requires few { (1 ≤ threads) × (threads ≤ 16) }
    requires fit { fits kind threads ≡ true }
{
    let mut world = world_of::<Q, A>(rt, alloc, kind, threads);
    let mut dice = Dice {
        seed: 7 * threads as u64,
    };
    let mut drained = 0usize;
    for _ in 0..walks {
        wanders(&mut world, &mut dice, kind, 40);
        if drains(rt, alloc, &mut world) {
            drained = drained.wrapping_add(1);
        }
    }
    drained
}

#[test]
fn mutexes_are_drained(rt: HostRuntime) {
    for threads in 2..17 {
        let plain = drained_walks::<ListQueues, _>(&rt, rt.alloc(), Kind::Mutex, threads, 20);
        check_eq(&rt, plain, 20);
        let fair = drained_walks::<BucketQueues, _>(&rt, rt.alloc(), Kind::Fair, threads, 20);
        check_eq(&rt, fair, 20);
    }
}

#[test]
fn reader_writer_locks_are_drained(rt: HostRuntime) {
    for threads in 2..17 {
        let kind = Kind::RwLock { limit: 1000 };
        let normal = drained_walks::<BucketQueues, _>(&rt, rt.alloc(), kind, threads, 30);
        check_eq(&rt, normal, 30);
        let kind = Kind::Recursive { limit: 1000 };
        let recursive = drained_walks::<ListQueues, _>(&rt, rt.alloc(), kind, threads, 30);
        check_eq(&rt, recursive, 30);
    }
}

/// A thread begins a call, and goes on until it rests.
fn calls<Q: Queues + Drop>(world: &mut World<Q>, thread: usize, call: RwLockCall) {
    let turn = Turn::Begin(Call::RwLock { lock: 0, call });
    world.step(Step { thread, turn });
    world.solo(thread);
}

/// All others wait for a writer, to write and to read by turns.
fn queue_up(world: &mut World<BucketQueues>) {
    for thread in 0..world.threads() {
        let access = if thread % 2 == 0 {
            Access::Exclusive
        } else {
            Access::Shared
        };
        let patience = Patience::Patient;
        calls(world, thread, RwLockCall::Enter { access, patience });
    }
}

#[test]
fn a_lock_of_1024_threads_is_drained(rt: HostRuntime) {
    let kind = Kind::RwLock { limit: 1024 };
    let mut world = world_of::<BucketQueues, _>(&rt, rt.alloc(), kind, 1024);
    queue_up(&mut world);
    check(&rt, drains(&rt, rt.alloc(), &mut world));
}
