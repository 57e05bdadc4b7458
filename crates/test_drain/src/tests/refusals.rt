//! Memory that is refused: `trials/each_refusal.py` refuses each allocation of these tests in turn.
//! In a run where none is refused, they try what is answered then.

use super::check_eq;
use core_base::{Fault, ListQueues, Queues, Want};
use core_queues::BucketQueues;
use lot_replay::replay::replay;
use lot_world::{Answer, Call, Debt, Kind, MutexCall, Outcome, Owner, Step, Turn, World};
use std::alloc::Global;
use std::process::Abort;
use std::test::Fail;

const MUTEX: [Kind; 1] = [Kind::Mutex];

const THREADS: usize = 3;

fn begin(thread: usize, call: MutexCall) -> Step {
    let turn = Turn::Begin(Call::Mutex { lock: 0, call });
    Step { thread, turn }
}

fn go(thread: usize) -> Step {
    let turn = Turn::Go;
    Step { thread, turn }
}

/// One thread owns the mutex, another falls asleep after it, and the first has begun to unlock.
fn steps() -> [Step; 11] {
    [
        begin(0, MutexCall::Lock),
        go(0),
        begin(1, MutexCall::Lock),
        go(1),
        go(1),
        go(1),
        go(1),
        go(1),
        go(1),
        begin(0, MutexCall::Unlock),
        go(0),
    ]
}

const OUTCOMES: [Outcome; 11] = [
    Outcome::Step,
    Outcome::End(Answer::Ok),
    Outcome::Step,
    Outcome::Step,
    Outcome::Step,
    Outcome::Step,
    Outcome::Step,
    Outcome::Step,
    Outcome::Sleep,
    Outcome::Step,
    Outcome::Step,
];

/// A lock's word, and the first of its owners, of those that wait, and of those that have a debt.
#[derive(Clone, Copy, Debug, PartialEq, Eq)]
struct Shown {
    word: u64,
    owner: Option<(Owner, usize)>,
    waiter: Option<(usize, Want)>,
    debt: Option<(Debt, usize)>,
}

const OPENING: Option<Shown> = Some(Shown {
    word: 0,
    owner: None,
    waiter: None,
    debt: None,
});

const UNLOCKING: Option<Shown> = Some(Shown {
    word: 2,
    owner: None,
    waiter: Some((1, Want::Exclusive)),
    debt: Some((Debt::Owes, 0)),
});

/// Looks at the mutex of a world.
fn look<Q: Queues + Drop>(world: &World<Q>) -> Option<Shown> {
    if world.locks() == 0 {
        return None;
    }
    let waiter = world.queue(0).next();
    Some(Shown {
        word: world.word(0),
        owner: world.owners(0).next(),
        waiter: waiter.map(|waiter| (waiter.thread, waiter.want)),
        debt: world.debt(0).next(),
    })
}

/// The world after these steps. Where it is refused, it is made at the second try.
fn world_after<Q: Queues + Drop>(
    rt: &impl Abort,
    alloc: Global,
    steps: &[Step],
) -> Result<World<Q>, Fault> {
    let mut world = match World::<Q>::new(alloc, &MUTEX, THREADS) {
        Ok(world) => world,
        Err(fault) => {
            check_eq(rt, fault, Fault::NoMemory);
            World::new(alloc, &MUTEX, THREADS)?
        }
    };
    check_eq(rt, look(&world), OPENING);
    for step in steps {
        world.step(*step);
    }
    Ok(world)
}

/// A run that is refused has taken as many steps as it tells, and the rest follows.
fn runs<Q: Queues + Drop>(rt: &impl Abort, alloc: Global) -> Result<(), Fail> {
    let steps = steps();
    let mut world = world_after::<Q>(rt, alloc, &[])?;
    let mut outcomes = Vec::new(alloc);
    if let Err(stopped) = world.run(&steps, &mut outcomes) {
        let taken = stopped.taken;
        check_eq(rt, outcomes.as_slice(), &OUTCOMES[..taken]);
        let other = world_after::<Q>(rt, alloc, &steps[..taken])?;
        check_eq(rt, look(&world), look(&other));
        check_eq(rt, world.run(&steps[taken..], &mut outcomes), Ok(()));
    }
    check_eq(rt, outcomes.as_slice(), OUTCOMES.as_slice());
    check_eq(rt, look(&world), UNLOCKING);
    Ok(())
}

#[test]
fn a_refused_run_has_taken_what_it_tells(rt: HostRuntime) -> Result<(), Fail> {
    runs::<ListQueues>(&rt, rt.alloc())?;
    runs::<BucketQueues>(&rt, rt.alloc())
}

/// A drain that is refused leaves the world as it was, and the next drains it.
fn drains<Q: Queues + Drop>(rt: &impl Abort, alloc: Global) -> Result<(), Fail> {
    let mut world = world_after::<Q>(rt, alloc, &steps())?;
    let mut drained = false;
    for _ in 0..2 {
        if drained || !world.drainable() {
            break;
        }
        match world.drain(alloc) {
            Ok(steps) => {
                check_eq(rt, look(&world), UNLOCKING);
                for step in steps.iter() {
                    check_eq(rt, world.step(*step) == Outcome::NotNow, false);
                }
                drained = true;
            }
            Err(fault) => check_eq(rt, (fault, look(&world)), (Fault::NoMemory, UNLOCKING)),
        }
    }
    check_eq(rt, (drained, look(&world)), (true, OPENING));
    Ok(())
}

#[test]
fn a_refused_drain_leaves_the_world(rt: HostRuntime) -> Result<(), Fail> {
    drains::<ListQueues>(&rt, rt.alloc())?;
    drains::<BucketQueues>(&rt, rt.alloc())
}

/// Queues are made, at the second try at the latest.
fn makes<Q: Queues + Drop>(rt: &impl Abort, alloc: Global) -> Result<(), Fail> {
    let queues = match Q::with_capacity(alloc, 5) {
        Ok(queues) => queues,
        Err(fault) => {
            check_eq(rt, fault, Fault::NoMemory);
            Q::with_capacity(alloc, 5)?
        }
    };
    check_eq(rt, queues.key_of(4), None);
    Ok(())
}

#[test]
fn queues_are_made_or_refused(rt: HostRuntime) -> Result<(), Fail> {
    makes::<ListQueues>(&rt, rt.alloc())?;
    makes::<BucketQueues>(&rt, rt.alloc())
}

const LINES: &[u8] = b"threads 3
lock r rwlock
0 do read r
1 do write r
show
0 do unlock_shared r
1 solo
drain
show
";

const WHOLE: &[u8] = b"0 end ok
1 sleep
r 26 own=1p,0s aside=1
0 end ok
1 end ok
drain 1 begin unlock_exclusive r
drain 1 go
r 0
";

/// The endings that the lines may have: the whole text, or the line of the lock, of the first turn or of
/// the drain, to which memory is refused.
const ENDINGS: [(&[u8], u8); 4] = [
    (WHOLE, 0),
    (b"line 2 no memory\n", 3),
    (b"line 3 no memory\n", 3),
    (
        b"0 end ok
1 sleep
r 26 own=1p,0s aside=1
0 end ok
1 end ok
line 8 no memory
",
        3,
    ),
];

/// A replay has one of its endings, and where memory was refused, the next answers all lines.
fn replays<Q: Queues + Drop>(rt: &impl Abort, alloc: Global) {
    // With this room the text takes no memory later.
    let Ok(mut text) = Vec::with_capacity(alloc, 1024) else {
        return;
    };
    let status = replay::<Q, _, _>(alloc, &mut &LINES[..], &mut text);
    let found = (text.as_slice(), status);
    let is_known = ENDINGS.iter().any(|ending| *ending == found);
    check_eq(rt, (found, is_known), (found, true));
    if status != 0 {
        text.clear();
        let status = replay::<Q, _, _>(alloc, &mut &LINES[..], &mut text);
        check_eq(rt, (text.as_slice(), status), (WHOLE, 0));
    }
}

#[test]
fn a_refused_replay_tells_its_line(rt: HostRuntime) {
    replays::<ListQueues>(&rt, rt.alloc());
    replays::<BucketQueues>(&rt, rt.alloc());
}
