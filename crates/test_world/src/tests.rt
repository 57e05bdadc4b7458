//! What worlds show that no transcript does: runs as a whole, worlds that settle, locks that were full, and the
//! order of owners.
ghost use Rattle.std.specs.Prelude.{◌≤◌, ◌≡◌, All, length, true};
ghost use Rattle.spec_locks.specs.Kinds.{fits};

use core_base::{ListQueues, Queues};
use core_queues::BucketQueues;
use lot_steps::Owners;
use lot_world::{Answer, Call, Kind, MutexCall, Outcome, Owner, OwnersOf, Step, Turn, World};
use spec_locks::{Access, Patience, RwLockCall};
use std::alloc::{AllocError, Global};
use std::fmt::Debug;
use std::process::Abort;
use std::test::Fail;

const LOCK: Call = Call::Mutex {
    lock: 0,
    call: MutexCall::Lock,
};

const TRY_LOCK: Call = Call::Mutex {
    lock: 0,
    call: MutexCall::TryLock,
};

const UNLOCK: Call = Call::Mutex {
    lock: 0,
    call: MutexCall::Unlock,
};

const READ: Call = Call::RwLock {
    lock: 0,
    call: RwLockCall::Enter {
        access: Access::Shared,
        patience: Patience::Patient,
    },
};

const END_READING: Call = Call::RwLock {
    lock: 0,
    call: RwLockCall::ReleaseFair(Access::Shared),
};

const OWNS: Outcome = Outcome::End(Answer::Ok);

// Asserts that the thing found is the thing wanted. All tests share this one assertion, since each
// is proved where it stands.
fn check_eq<T: PartialEq + Debug + Drop>(rt: &impl Abort, found: T, wanted: T) {
    assert_eq!(rt; found, wanted);
}

fn begin(thread: usize, call: Call) -> Step {
    Step {
        thread,
        turn: Turn::Begin(call),
    }
}

fn go(thread: usize) -> Step {
    Step {
        thread,
        turn: Turn::Go,
    }
}

// Makes a world over any kind of queues, and ends the test where memory is refused.
fn world_over<Q: Queues + Drop, A: Abort>(
    rt: &A,
    alloc: Global,
    kinds: &[Kind],
    threads: usize,
) -> World<Q>
    requires few { (1 ≤ threads) × (threads ≤ 1024) × (length kinds.now ≤ 256) }
    requires fit { All (λ kind. fits kind threads ≡ true) kinds.now }
{
    match World::new(alloc, kinds, threads) {
        Ok(world) => world,
        Err(_) => panic!(rt; "no memory"),
    }
}

// Lets a thread do a call alone.
fn does<Q: Queues + Drop>(world: &mut World<Q>, thread: usize, call: Call) -> Outcome {
    match world.step(begin(thread, call)) {
        Outcome::Step => world.solo(thread),
        refused => refused,
    }
}

/// What the first lock of a world shows.
#[derive(Clone, Copy, Debug, PartialEq, Eq)]
struct Shown {
    word: u64,
    owner: Option<(Owner, usize)>,
    waiter: Option<usize>,
    is_filled: bool,
}

fn look<Q: Queues + Drop>(world: &World<Q>) -> Option<Shown> {
    if world.locks() == 0 {
        return None;
    }
    Some(Shown {
        word: world.word(0),
        owner: world.owners(0).next(),
        waiter: world.queue(0).next().map(|waiter| waiter.thread),
        is_filled: world.filled(0),
    })
}

const WAITED_FOR: Shown = Shown {
    word: 3,
    owner: Some((Owner::Exclusive, 0)),
    waiter: Some(1),
    is_filled: false,
};

const HANDED_ON: Shown = Shown {
    word: 1,
    owner: Some((Owner::Exclusive, 1)),
    waiter: None,
    is_filled: false,
};

// A mutex for which a thread waits has an owner once the world has settled.
fn settles<Q: Queues + Drop, A: Abort>(rt: &A, alloc: Global) {
    let mut world = world_over::<Q, A>(rt, alloc, &[Kind::Mutex], 2);
    check_eq(rt, world.step(begin(0, LOCK)), Outcome::Step);
    check_eq(rt, world.step(begin(1, LOCK)), Outcome::Step);
    world.settle();
    check_eq(rt, look(&world), Some(WAITED_FOR));
    check_eq(rt, world.step(begin(0, UNLOCK)), Outcome::Step);
    world.settle();
    check_eq(rt, look(&world), Some(HANDED_ON));
    world.settle();
    check_eq(rt, look(&world), Some(HANDED_ON));
}

#[test]
fn a_settled_mutex_has_an_owner_where_somebody_waits(rt: HostRuntime) {
    settles::<ListQueues, _>(&rt, rt.alloc());
    settles::<BucketQueues, _>(&rt, rt.alloc());
}

/// The owners of a lock, of which the upgradable one is 2, and the others share it.
const LISTED: &[(Owner, usize)] = &[
    (Owner::Upgradable, 2),
    (Owner::Shared, 0),
    (Owner::Shared, 1),
    (Owner::Shared, 1),
];

#[test]
fn sharers_are_listed_after_the_owners(rt: HostRuntime) -> Result<(), Fail> {
    let owners = Owners {
        upgradable: Some(2),
        ..Owners::NOBODY
    };
    let shares = [1, 2, 0];
    let owners = OwnersOf::new(owners, shares.as_slice());
    let listed = owners.collect::<Vec<(Owner, usize)>>(rt.alloc())?;
    check_eq(&rt, listed.as_slice(), LISTED);
    Ok(())
}

const RUN: &[Step] = &[
    Step {
        thread: 0,
        turn: Turn::Begin(TRY_LOCK),
    },
    Step {
        thread: 0,
        turn: Turn::Go,
    },
    Step {
        thread: 2,
        turn: Turn::Begin(TRY_LOCK),
    },
    Step {
        thread: 2,
        turn: Turn::Go,
    },
    Step {
        thread: 7,
        turn: Turn::Go,
    },
    Step {
        thread: 0,
        turn: Turn::Late,
    },
];

const TOLD: &[Outcome] = &[
    Outcome::Sleep,
    Outcome::Step,
    Outcome::End(Answer::Yes),
    Outcome::Step,
    Outcome::End(Answer::No),
    Outcome::NotNow,
    Outcome::NotNow,
];

#[test]
fn a_run_tells_its_outcomes_after_what_was_told(rt: HostRuntime) -> Result<(), Fail> {
    let mut world = world_over::<ListQueues, _>(&rt, rt.alloc(), &[Kind::Mutex, Kind::Mutex], 3);
    let mut outcomes = Vec::new(rt.alloc());
    outcomes.push(Outcome::Sleep).map_err(AllocError::from)?;
    check_eq(&rt, world.run(RUN, &mut outcomes), Ok(()));
    check_eq(&rt, outcomes.as_slice(), TOLD);
    check_eq(&rt, (world.threads(), world.locks()), (3, 2));
    check_eq(&rt, world.solo(9), Outcome::NotNow);
    Ok(())
}

#[test]
fn a_lock_is_filled_from_the_step_on_by_which_it_is_full(rt: HostRuntime) {
    let narrow = [Kind::RwLock { limit: 2 }];
    let mut world = world_over::<ListQueues, _>(&rt, rt.alloc(), &narrow, 2);
    check_eq(&rt, does(&mut world, 0, READ), OWNS);
    check_eq(&rt, look(&world).map(|shown| shown.is_filled), Some(false));
    check_eq(&rt, does(&mut world, 1, READ), OWNS);
    check_eq(&rt, does(&mut world, 0, END_READING), OWNS);
    check_eq(&rt, does(&mut world, 1, END_READING), OWNS);
    check_eq(&rt, look(&world).map(|shown| shown.is_filled), Some(true));
}

/// A thread that locks and unlocks, so many times.
fn rounds(alloc: Global, count: usize) -> Result<Vec<Step>, AllocError> {
    let mut steps = Vec::new(alloc);
    for _ in 0..count {
        for call in [LOCK, UNLOCK] {
            steps.push(begin(1, call)).map_err(AllocError::from)?;
            steps.push(go(1)).map_err(AllocError::from)?;
        }
    }
    Ok(steps)
}

/// The first step that came to something else than it was to: each second one ends its call.
fn first_wrong(outcomes: &[Outcome]) -> Option<(usize, Outcome)> {
    for (index, outcome) in outcomes.iter().enumerate() {
        let wanted = if index % 2 == 0 { Outcome::Step } else { OWNS };
        if *outcome != wanted {
            return Some((index, *outcome));
        }
    }
    None
}

#[test]
fn a_run_of_100_000_steps_goes_to_its_end(rt: HostRuntime) -> Result<(), Fail> {
    let steps = rounds(rt.alloc(), 25_000)?;
    let mut world = world_over::<ListQueues, _>(&rt, rt.alloc(), &[Kind::Mutex], 2);
    let mut outcomes = Vec::new(rt.alloc());
    check_eq(&rt, world.run(&steps, &mut outcomes), Ok(()));
    check_eq(&rt, outcomes.len(), 100_000);
    check_eq(&rt, first_wrong(outcomes.as_slice()), None);
    check_eq(&rt, look(&world).map(|shown| shown.word), Some(0));
    Ok(())
}
