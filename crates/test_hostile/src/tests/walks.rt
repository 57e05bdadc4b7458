//! Random walks over worlds of all kinds of locks, from fixed seeds.
ghost use Rattle.std.specs.Prelude.{◌≤◌, ◌<◌};

use super::check_eq;
use crate::checked::{Checked, Stop};
use core_base::{ListQueues, Queues};
use core_queues::BucketQueues;
use spec_locks::{
    Access, Call, CondvarCall, Downgrade, Kind, MutexCall, OnceCall, Patience, RwLockCall,
    SemaphoreCall, Step, Turn,
};
use std::alloc::Global;
use std::process::Abort;
use test_checker::{Seen, Standing};

/// Numbers that look random, from one on.
#[derive(Clone, Copy)]
struct Dice {
    seed: u64,
}

impl Dice {
    /// A number below this one.
    fn below(&mut self, limit: usize) -> usize
        requires { 1 ≤ limit }
        ensures { result < limit }
    {
        self.seed = self
            .seed
            .wrapping_mul(6364136223846793005)
            .wrapping_add(1442695040888963407);
        (self.seed >> 33) as usize % limit
    }
}

const ACCESSES: [Access; 3] = [Access::Shared, Access::Upgradable, Access::Exclusive];

const PATIENCES: [Patience; 3] = [Patience::Patient, Patience::Timed, Patience::Try];

const MUTEX_CALLS: [MutexCall; 6] = [
    MutexCall::Unlock,
    MutexCall::UnlockFair,
    MutexCall::Bump,
    MutexCall::Lock,
    MutexCall::LockTimed,
    MutexCall::TryLock,
];

const ONCE_CALLS: [OnceCall; 5] = [
    OnceCall::CallOnce { forced: false },
    OnceCall::CallOnce { forced: true },
    OnceCall::Wait { forced: false },
    OnceCall::Wait { forced: true },
    OnceCall::WaitTimed,
];

const DOWNGRADES: [Downgrade; 3] = [
    Downgrade::ToShared,
    Downgrade::ToUpgradable,
    Downgrade::UpgradableToShared,
];

/// A call of a mutex, by a thread that owns it or doesn't.
fn mutex_call(dice: &mut Dice, owns: bool) -> MutexCall {
    if owns {
        MUTEX_CALLS[dice.below(3)]
    } else {
        MUTEX_CALLS[3 + dice.below(3)]
    }
}

/// A call of a reader-writer lock, by a thread that has a right to it or doesn't.
fn rwlock_call(dice: &mut Dice, owns: bool) -> RwLockCall {
    let access = ACCESSES[dice.below(3)];
    let patience = PATIENCES[dice.below(3)];
    if !owns {
        return RwLockCall::Enter { access, patience };
    }
    match dice.below(8) {
        0 | 1 => RwLockCall::Release(access),
        2 | 3 => RwLockCall::ReleaseFair(access),
        4 => RwLockCall::Downgrade(DOWNGRADES[dice.below(3)]),
        5 => RwLockCall::Upgrade(patience),
        6 => RwLockCall::Bump(access),
        _ => RwLockCall::Enter { access, patience },
    }
}

fn condvar_call(dice: &mut Dice, mutex: usize) -> CondvarCall {
    match dice.below(4) {
        0 => CondvarCall::Notify { all: false },
        1 => CondvarCall::Notify { all: true },
        2 => CondvarCall::Wait {
            mutex,
            timed: false,
        },
        _ => CondvarCall::Wait { mutex, timed: true },
    }
}

fn semaphore_call(dice: &mut Dice, owns: bool) -> SemaphoreCall {
    if owns && dice.below(4) != 0 {
        SemaphoreCall::Release
    } else {
        SemaphoreCall::Acquire(PATIENCES[dice.below(3)])
    }
}

/// A call of any lock.
fn call_of(dice: &mut Dice, seen: &Seen, thread: usize) -> Option<Call> {
    if seen.locks.is_empty() {
        return None;
    }
    let lock = dice.below(seen.locks.len());
    let mutex = dice.below(seen.locks.len());
    let shown = &seen.locks[lock];
    let owns = shown.owners.iter().any(|owner| owner.thread == thread);
    Some(match shown.kind {
        Kind::Mutex | Kind::Fair => Call::Mutex {
            lock,
            call: mutex_call(dice, owns),
        },
        Kind::RwLock { .. } | Kind::Recursive { .. } => Call::RwLock {
            lock,
            call: rwlock_call(dice, owns),
        },
        Kind::Condvar => Call::Condvar {
            lock,
            call: condvar_call(dice, mutex),
        },
        Kind::Once => Call::Once {
            lock,
            call: ONCE_CALLS[dice.below(5)],
        },
        Kind::Semaphore { .. } => Call::Semaphore {
            lock,
            call: semaphore_call(dice, owns),
        },
    })
}

/// Chooses a thread's turn, now and then one that isn't possible.
fn turn_of(dice: &mut Dice, seen: &Seen, thread: usize) -> Turn {
    let roll = dice.below(16);
    if seen.standing(thread) == Standing::Idle || roll == 0 {
        if let Some(call) = call_of(dice, seen, thread) {
            return Turn::Begin(call);
        }
    }
    if seen.standing(thread) == Standing::Asleep && roll < 4 {
        return Turn::Late;
    }
    match roll {
        1 => Turn::Late,
        2 | 3 => Turn::Spin,
        4 | 5 => Turn::Ok,
        6 => Turn::Err,
        _ => Turn::Go,
    }
}

/// The turns of a walk.
const TURNS: usize = 200;

/// A walk by any threads, and how many of its turns were possible.
fn walk<Q: Queues + Drop>(
    alloc: Global,
    kinds: &[Kind],
    threads: usize,
    seed: u64,
) -> Result<usize, Stop>
    requires some { 1 ≤ threads }
{
    let mut checked = Checked::<Q>::new(alloc, kinds, threads)?;
    let mut dice = Dice { seed };
    for _ in 0..TURNS {
        let thread = dice.below(threads);
        let turn = turn_of(&mut dice, &checked.seen, thread);
        checked.step(Step { thread, turn })?;
    }
    Ok(checked.possible)
}

/// No step is wrong in so many walks over worlds of these locks, by a list and by buckets each.
/// Returns how many turns were possible.
fn walks<A: Abort>(rt: &A, alloc: Global, kinds: &[Kind], threads: usize, count: u64) -> usize
    requires some { 1 ≤ threads }
{
    let mut possible = 0usize;
    for seed in 0..count {
        let found = walk::<ListQueues>(alloc, kinds, threads, seed);
        check_eq(rt, (threads, seed, found.err()), (threads, seed, None));
        possible = possible.wrapping_add(found.unwrap_or(0));
        let found = walk::<BucketQueues>(alloc, kinds, threads, seed ^ 0xffff);
        check_eq(rt, (threads, seed, found.err()), (threads, seed, None));
        possible = possible.wrapping_add(found.unwrap_or(0));
    }
    possible
}

/// How many walks there are over each of these worlds, with each number of threads, by each kind of
/// queues.
const WALKS: u64 = 20;

const MUTEXES: [&[Kind]; 2] = [&[Kind::Mutex], &[Kind::Fair, Kind::Mutex]];

const RWLOCKS: [&[Kind]; 4] = [
    &[Kind::RwLock { limit: 16 }],
    &[Kind::Recursive { limit: 16 }],
    &[Kind::RwLock { limit: 1000 }],
    &[Kind::Recursive { limit: 1000 }],
];

const CONDVARS: [&[Kind]; 2] = [
    &[Kind::Mutex, Kind::Condvar],
    &[Kind::Mutex, Kind::Condvar, Kind::Mutex, Kind::Condvar],
];

const ONCES_AND_SEMAPHORES: [&[Kind]; 3] = [
    &[Kind::Once, Kind::Once],
    &[Kind::Semaphore { permits: 1 }],
    &[Kind::Semaphore { permits: 3 }],
];

const ALL_KINDS: [&[Kind]; 2] = [
    &[
        Kind::Mutex,
        Kind::RwLock { limit: 16 },
        Kind::Condvar,
        Kind::Semaphore { permits: 2 },
        Kind::Once,
        Kind::Recursive { limit: 16 },
        Kind::Fair,
    ],
    &[
        Kind::Mutex,
        Kind::Condvar,
        Kind::Once,
        Kind::Semaphore { permits: 1 },
    ],
];

/// The walks over each of these worlds with 2 to 16 threads. At least so many turns of a hundred
/// were possible, so that a walk is no idle one.
fn all_walks<A: Abort>(rt: &A, alloc: Global, worlds: &[&[Kind]], least: usize) {
    let mut possible = 0usize;
    let mut turns = 0usize;
    for threads in 2..17 {
        for kinds in worlds {
            possible = possible.wrapping_add(walks(rt, alloc, kinds, threads, WALKS));
            turns = turns.wrapping_add(2 * TURNS * WALKS as usize);
        }
    }
    check_eq(
        rt,
        (turns, possible),
        (turns, possible.max((turns / 100).wrapping_mul(least))),
    );
}

#[test]
fn mutexes_keep_their_rules(rt: HostRuntime) {
    all_walks(&rt, rt.alloc(), &MUTEXES, 30);
}

#[test]
fn reader_writer_locks_keep_their_rules(rt: HostRuntime) {
    all_walks(&rt, rt.alloc(), &RWLOCKS, 30);
}

#[test]
fn condition_variables_keep_their_rules(rt: HostRuntime) {
    all_walks(&rt, rt.alloc(), &CONDVARS, 35);
}

#[test]
fn onces_and_semaphores_keep_their_rules(rt: HostRuntime) {
    all_walks(&rt, rt.alloc(), &ONCES_AND_SEMAPHORES, 30);
}

#[test]
fn all_kinds_together_keep_their_rules(rt: HostRuntime) {
    all_walks(&rt, rt.alloc(), &ALL_KINDS, 35);
}
