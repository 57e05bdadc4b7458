//! Planted answers and picks that are wrong: the checker names what is wrong with each.

use super::check_eq;
use super::planted::{ASLEEP, AWAKE, FREE, HELD, NORMAL, Plan, Planned, X, seen};
use core_base::Want;
use spec_locks::{
    Access, Answer, Call, CondvarCall, Downgrade, Kind, MutexCall, Outcome, RwLockCall, Step, Turn,
};
use std::alloc::{AllocError, Global};
use std::test::Fail;
use test_checker::{Right, Seen, SeenThread, Violation, Watch};

const WAIT: Call = Call::Condvar {
    lock: 1,
    call: CondvarCall::Wait {
        mutex: 0,
        timed: false,
    },
};

const NOTIFY_ONE: Call = Call::Condvar {
    lock: 1,
    call: CondvarCall::Notify { all: false },
};

const LOCK: Call = Call::Mutex {
    lock: 0,
    call: MutexCall::Lock,
};

const LOCK_TIMED: Call = Call::Mutex {
    lock: 0,
    call: MutexCall::LockTimed,
};

const TRY_LOCK: Call = Call::Mutex {
    lock: 0,
    call: MutexCall::TryLock,
};

/// A call of the thread 0 beside a free mutex and an empty condition variable, what it is told, and what
/// is wrong with that.
const ANSWERS: &[(Call, Answer, Violation)] = &[
    (LOCK, Answer::Yes, Violation::StrangeAnswer(0)),
    (LOCK, Answer::Ok, Violation::ToldWrong(0)),
    (LOCK_TIMED, Answer::No, Violation::NeverLate(0)),
    (WAIT, Answer::Ok, Violation::NeverNotified(0)),
    (NOTIFY_ONE, Answer::Yes, Violation::WrongNumber(0)),
    (TRY_LOCK, Answer::No, Violation::RefusedFree(0)),
];

const STILL: Planned<'static> = Planned {
    threads: &[AWAKE],
    locks: &[
        FREE,
        Plan {
            kind: Kind::Condvar,
            ..FREE
        },
    ],
};

#[test]
fn answers_are_named(rt: HostRuntime) -> Result<(), Fail> {
    let still = seen(rt.alloc(), &STILL)?;
    for (call, answer, wanted) in ANSWERS {
        let mut watch = Watch::new(rt.alloc(), 1)?;
        let begins = Step {
            thread: 0,
            turn: Turn::Begin(*call),
        };
        let goes = Step {
            thread: 0,
            turn: Turn::Go,
        };
        check_eq(
            &rt,
            watch.follow(&still, begins, Outcome::Step, &still),
            Ok(()),
        );
        let found = watch.follow(&still, goes, Outcome::End(*answer), &still);
        check_eq(&rt, found.err(), Some(*wanted));
    }
    Ok(())
}

const RECURSIVE: Kind = Kind::Recursive { limit: 9 };

const S: Want = Want::Shared;

const U: Want = Want::Upgradable;

/// A call of the thread 0 that takes waiters: the right that it keeps, the wants of the threads from 1 on that
/// wait, which of these it takes, and what is wrong with that.
#[derive(Clone, Copy)]
struct Taking<'a> {
    kind: Kind,
    kept: Option<Right>,
    call: RwLockCall,
    wants: &'a [Want],
    taken: &'a [usize],
    wrong: Option<Violation>,
}

/// The threads taken are not those that the lock lets in.
const WRONG: Option<Violation> = Some(Violation::WrongPicks(0));

const UNWRITE: RwLockCall = RwLockCall::Release(Access::Exclusive);

const UNWRITE_FAIR: RwLockCall = RwLockCall::ReleaseFair(Access::Exclusive);

const TO_SHARED: RwLockCall = RwLockCall::Downgrade(Downgrade::ToShared);

const TO_UPGRADABLE: RwLockCall = RwLockCall::Downgrade(Downgrade::ToUpgradable);

/// Calls that take waiters.
const TAKINGS: &[Taking<'static>] = &[
    Taking {
        kind: NORMAL,
        kept: None,
        call: UNWRITE,
        wants: &[S, X, S],
        taken: &[1, 2],
        wrong: None,
    },
    Taking {
        kind: NORMAL,
        kept: None,
        call: UNWRITE,
        wants: &[S, X, S],
        taken: &[1],
        wrong: WRONG,
    },
    Taking {
        kind: NORMAL,
        kept: None,
        call: UNWRITE,
        wants: &[S, X, S],
        taken: &[1, 2, 3],
        wrong: WRONG,
    },
    Taking {
        kind: RECURSIVE,
        kept: None,
        call: UNWRITE,
        wants: &[S, X, S],
        taken: &[1, 2, 3],
        wrong: None,
    },
    Taking {
        kind: RECURSIVE,
        kept: None,
        call: UNWRITE,
        wants: &[S, X, S],
        taken: &[1, 2],
        wrong: WRONG,
    },
    Taking {
        kind: NORMAL,
        kept: None,
        call: UNWRITE,
        wants: &[S, U, X, S],
        taken: &[1, 2, 4],
        wrong: None,
    },
    Taking {
        kind: NORMAL,
        kept: None,
        call: UNWRITE,
        wants: &[S, U, X, S],
        taken: &[1, 2, 3, 4],
        wrong: WRONG,
    },
    Taking {
        kind: NORMAL,
        kept: None,
        call: UNWRITE,
        wants: &[X, X, S],
        taken: &[1],
        wrong: None,
    },
    Taking {
        kind: RECURSIVE,
        kept: None,
        call: UNWRITE,
        wants: &[X, X, S],
        taken: &[1, 2, 3],
        wrong: WRONG,
    },
    Taking {
        kind: NORMAL,
        kept: Some(Right::Exclusive),
        call: UNWRITE_FAIR,
        wants: &[X, S],
        taken: &[1],
        wrong: None,
    },
    Taking {
        kind: NORMAL,
        kept: Some(Right::Exclusive),
        call: UNWRITE_FAIR,
        wants: &[X, S],
        taken: &[2],
        wrong: WRONG,
    },
    Taking {
        kind: NORMAL,
        kept: Some(Right::Shared),
        call: TO_SHARED,
        wants: &[X, S],
        taken: &[1],
        wrong: None,
    },
    Taking {
        kind: NORMAL,
        kept: Some(Right::Upgradable),
        call: TO_UPGRADABLE,
        wants: &[X, S],
        taken: &[2],
        wrong: None,
    },
    Taking {
        kind: NORMAL,
        kept: Some(Right::Upgradable),
        call: TO_UPGRADABLE,
        wants: &[U, S],
        taken: &[1, 2],
        wrong: WRONG,
    },
];

/// The moments before and after the step in which the thread 0 takes them.
fn moments(alloc: Global, taking: &Taking<'_>) -> Result<(Seen, Seen), AllocError> {
    let (mut waiters, mut left) = (Vec::new(alloc), Vec::new(alloc));
    let (mut before, mut after) = (Vec::new(alloc), Vec::new(alloc));
    before.push(AWAKE)?;
    after.push(AWAKE)?;
    for (place, want) in taking.wants.iter().enumerate() {
        let thread = place.wrapping_add(1);
        let is_taken = taking.taken.iter().any(|other| *other == thread);
        before.push(ASLEEP)?;
        after.push(if is_taken { HELD } else { ASLEEP })?;
        waiters.push((thread, *want))?;
        if !is_taken {
            left.push((thread, *want))?;
        }
    }
    let mut owners = Vec::new(alloc);
    if let Some(right) = taking.kept {
        owners.push((right, 0))?;
    }
    let old = Plan {
        kind: taking.kind,
        word: 1,
        owners: owners.as_slice(),
        waiters: waiters.as_slice(),
        owing: &[0],
        ..FREE
    };
    let new = Plan {
        waiters: left.as_slice(),
        ..old
    };
    Ok((
        seen_alone(alloc, before.as_slice(), old)?,
        seen_alone(alloc, after.as_slice(), new)?,
    ))
}

/// The moment of these threads at one lock.
fn seen_alone(alloc: Global, threads: &[SeenThread], lock: Plan<'_>) -> Result<Seen, AllocError> {
    seen(
        alloc,
        &Planned {
            threads,
            locks: &[lock],
        },
    )
}

#[test]
fn picks_are_named(rt: HostRuntime) -> Result<(), Fail> {
    for plan in TAKINGS {
        let (before, after) = moments(rt.alloc(), plan)?;
        let mut watch = Watch::new(rt.alloc(), before.threads.len())?;
        let call = plan.call;
        let (thread, call) = (0, Call::RwLock { lock: 0, call });
        let turn = Turn::Begin(call);
        let begun = watch.follow(&before, Step { thread, turn }, Outcome::Step, &before);
        check_eq(&rt, begun, Ok(()));
        let turn = Turn::Go;
        let found = watch.follow(&before, Step { thread, turn }, Outcome::Step, &after);
        check_eq(&rt, found.err(), plan.wrong);
    }
    Ok(())
}
