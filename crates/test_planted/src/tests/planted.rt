//! Planted states and steps that are wrong: the checker names what is wrong with each.

use super::check_eq;
use core_base::Want;
use spec_locks::{Kind, Outcome, Step, Turn};
use std::alloc::{AllocError, Global};
use std::test::Fail;
use test_checker::{
    Right, Seen, SeenLock, SeenOwner, SeenThread, SeenWaiter, Standing, Violation, check_state,
    check_step,
};

/// A lock of a planned state: its owners, its waiters, those aside, those that owe, and those that try again.
#[derive(Clone, Copy)]
pub(super) struct Plan<'a> {
    pub(super) kind: Kind,
    pub(super) word: u64,
    pub(super) owners: &'a [(Right, usize)],
    pub(super) waiters: &'a [(usize, Want)],
    pub(super) aside: &'a [usize],
    pub(super) owing: &'a [usize],
    pub(super) retrying: &'a [usize],
}

/// Threads and locks.
#[derive(Clone, Copy)]
pub(super) struct Planned<'a> {
    pub(super) threads: &'a [SeenThread],
    pub(super) locks: &'a [Plan<'a>],
}

pub(super) const IDLE: SeenThread = SeenThread {
    standing: Standing::Idle,
    taken_by: None,
};

pub(super) const AWAKE: SeenThread = SeenThread {
    standing: Standing::Awake,
    taken_by: None,
};

pub(super) const ASLEEP: SeenThread = SeenThread {
    standing: Standing::Asleep,
    taken_by: None,
};

/// Taken by the thread 0.
pub(super) const HELD: SeenThread = SeenThread {
    standing: Standing::Asleep,
    taken_by: Some(0),
};

const MUTEX: Kind = Kind::Mutex;

pub(super) const NORMAL: Kind = Kind::RwLock { limit: 9 };

const ONE_PERMIT: Kind = Kind::Semaphore { permits: 1 };

pub(super) const X: Want = Want::Exclusive;

/// A mutex that nobody owns and nobody waits for.
pub(super) const FREE: Plan<'static> = Plan {
    kind: MUTEX,
    word: 0,
    owners: &[],
    waiters: &[],
    aside: &[],
    owing: &[],
    retrying: &[],
};

fn lock_of(alloc: Global, plan: &Plan<'_>) -> Result<SeenLock, AllocError> {
    let mut rights = Vec::new(alloc);
    for (right, thread) in plan.owners {
        rights.reserve(1)?;
        rights.push_reserved(SeenOwner {
            right: *right,
            thread: *thread,
        });
    }
    let mut main = Vec::new(alloc);
    for (thread, want) in plan.waiters {
        main.reserve(1)?;
        main.push_reserved(SeenWaiter {
            thread: *thread,
            want: *want,
        });
    }
    Ok(SeenLock {
        kind: plan.kind,
        word: plan.word,
        is_filled: false,
        owners: rights,
        main,
        aside: Vec::from_slice(alloc, plan.aside)?,
        owing: Vec::from_slice(alloc, plan.owing)?,
        retrying: Vec::from_slice(alloc, plan.retrying)?,
    })
}

pub(super) fn seen(alloc: Global, planned: &Planned<'_>) -> Result<Seen, AllocError> {
    let mut locks = Vec::new(alloc);
    for plan in planned.locks {
        let lock = lock_of(alloc, plan)?;
        locks.reserve(1)?;
        locks.push_reserved(lock);
    }
    Ok(Seen {
        threads: Vec::from_slice(alloc, planned.threads)?,
        locks,
    })
}

/// States, and what is wrong with each.
const STATES: &[(Planned<'static>, Option<Violation>)] = &[
    (
        Planned {
            threads: &[IDLE, IDLE],
            locks: &[FREE],
        },
        None,
    ),
    (
        Planned {
            threads: &[IDLE, ASLEEP],
            locks: &[Plan {
                word: 3,
                owners: &[(Right::Exclusive, 0)],
                waiters: &[(1, X)],
                ..FREE
            }],
        },
        None,
    ),
    (
        Planned {
            threads: &[IDLE, IDLE],
            locks: &[Plan {
                kind: NORMAL,
                word: 24,
                owners: &[(Right::Exclusive, 0), (Right::Shared, 1)],
                ..FREE
            }],
        },
        Some(Violation::OwnersClash(0)),
    ),
    (
        Planned {
            threads: &[IDLE, AWAKE],
            locks: &[Plan {
                kind: NORMAL,
                word: 28,
                owners: &[(Right::Pending, 1), (Right::Upgradable, 0)],
                ..FREE
            }],
        },
        Some(Violation::OwnersClash(0)),
    ),
    (
        Planned {
            threads: &[IDLE],
            locks: &[Plan {
                owners: &[(Right::Shared, 0)],
                ..FREE
            }],
        },
        Some(Violation::WrongSort(0)),
    ),
    (
        Planned {
            threads: &[IDLE, IDLE],
            locks: &[Plan {
                kind: ONE_PERMIT,
                owners: &[(Right::Shared, 0), (Right::Shared, 1)],
                ..FREE
            }],
        },
        Some(Violation::TooMany(0)),
    ),
    (
        Planned {
            threads: &[IDLE],
            locks: &[Plan {
                owners: &[(Right::Exclusive, 0)],
                ..FREE
            }],
        },
        Some(Violation::WrongWord(0)),
    ),
    (
        Planned {
            threads: &[IDLE, ASLEEP],
            locks: &[Plan {
                word: 1,
                owners: &[(Right::Exclusive, 0)],
                waiters: &[(1, X)],
                ..FREE
            }],
        },
        Some(Violation::UnmarkedWaiter(0)),
    ),
    (
        Planned {
            threads: &[IDLE, ASLEEP],
            locks: &[Plan {
                kind: NORMAL,
                word: 18,
                owners: &[(Right::Shared, 0)],
                aside: &[1],
                ..FREE
            }],
        },
        Some(Violation::WrongAside(0)),
    ),
    // A free mutex, a free reader-writer lock, a writer aside without readers, a free permit and a new
    // `Once`, whose waiters nobody wakes; and one whose debtor sleeps.
    (
        Planned {
            threads: &[IDLE, ASLEEP],
            locks: &[Plan {
                word: 2,
                waiters: &[(1, X)],
                ..FREE
            }],
        },
        Some(Violation::Forgotten(0)),
    ),
    (
        Planned {
            threads: &[IDLE, ASLEEP],
            locks: &[Plan {
                kind: NORMAL,
                word: 1,
                waiters: &[(1, Want::Shared)],
                ..FREE
            }],
        },
        Some(Violation::Forgotten(0)),
    ),
    (
        Planned {
            threads: &[IDLE, ASLEEP],
            locks: &[Plan {
                kind: NORMAL,
                word: 10,
                owners: &[(Right::Pending, 1)],
                aside: &[1],
                ..FREE
            }],
        },
        Some(Violation::Forgotten(0)),
    ),
    (
        Planned {
            threads: &[IDLE, ASLEEP],
            locks: &[Plan {
                kind: ONE_PERMIT,
                word: 3,
                waiters: &[(1, Want::Shared)],
                ..FREE
            }],
        },
        Some(Violation::Forgotten(0)),
    ),
    (
        Planned {
            threads: &[IDLE, ASLEEP],
            locks: &[Plan {
                kind: Kind::Once,
                word: 8,
                waiters: &[(1, Want::CallOnce)],
                ..FREE
            }],
        },
        Some(Violation::Forgotten(0)),
    ),
    (
        Planned {
            threads: &[ASLEEP, ASLEEP],
            locks: &[Plan {
                word: 2,
                waiters: &[(1, X)],
                retrying: &[0],
                ..FREE
            }],
        },
        Some(Violation::Forgotten(0)),
    ),
    (
        Planned {
            threads: &[IDLE, ASLEEP],
            locks: &[
                Plan {
                    word: 3,
                    owners: &[(Right::Exclusive, 0)],
                    waiters: &[(1, X)],
                    ..FREE
                },
                Plan {
                    word: 3,
                    owners: &[(Right::Exclusive, 0)],
                    waiters: &[(1, X)],
                    ..FREE
                },
            ],
        },
        Some(Violation::StandsTwice(1)),
    ),
    (
        Planned {
            threads: &[IDLE, ASLEEP],
            locks: &[FREE],
        },
        Some(Violation::SleepsNowhere(1)),
    ),
    (
        Planned {
            threads: &[IDLE, IDLE],
            locks: &[Plan {
                word: 3,
                owners: &[(Right::Exclusive, 0)],
                waiters: &[(1, X)],
                ..FREE
            }],
        },
        Some(Violation::WaitsIdle(1)),
    ),
];

#[test]
fn states_are_named(rt: HostRuntime) -> Result<(), Fail> {
    for (number, (planned, wanted)) in STATES.iter().enumerate() {
        let found = check_state(&seen(rt.alloc(), planned)?).err();
        check_eq(&rt, (number, found), (number, *wanted));
    }
    Ok(())
}

/// A turn of the thread 0 between two states, and what is wrong with it.
#[derive(Clone, Copy)]
struct Pair<'a> {
    before: Planned<'a>,
    turn: Turn,
    after: Planned<'a>,
    wrong: Violation,
}

const PAIRS: &[Pair<'static>] = &[
    Pair {
        before: Planned {
            threads: &[AWAKE],
            locks: &[FREE],
        },
        turn: Turn::Go,
        after: Planned {
            threads: &[AWAKE],
            locks: &[Plan {
                kind: Kind::Fair,
                ..FREE
            }],
        },
        wrong: Violation::OtherWorld(0),
    },
    Pair {
        before: Planned {
            threads: &[AWAKE],
            locks: &[FREE],
        },
        turn: Turn::Late,
        after: Planned {
            threads: &[AWAKE],
            locks: &[Plan { word: 2, ..FREE }],
        },
        wrong: Violation::TouchedWithoutAct(0),
    },
    Pair {
        before: Planned {
            threads: &[AWAKE],
            locks: &[FREE, FREE],
        },
        turn: Turn::Go,
        after: Planned {
            threads: &[AWAKE],
            locks: &[Plan { word: 2, ..FREE }, Plan { word: 2, ..FREE }],
        },
        wrong: Violation::TwoWords(1),
    },
    Pair {
        before: Planned {
            threads: &[AWAKE],
            locks: &[FREE],
        },
        turn: Turn::Go,
        after: Planned {
            threads: &[AWAKE],
            locks: &[Plan {
                word: 2,
                waiters: &[(0, X)],
                ..FREE
            }],
        },
        wrong: Violation::WordAndQueue(0),
    },
    Pair {
        before: Planned {
            threads: &[AWAKE, IDLE],
            locks: &[FREE],
        },
        turn: Turn::Go,
        after: Planned {
            threads: &[AWAKE, AWAKE],
            locks: &[FREE],
        },
        wrong: Violation::MovedToo(1),
    },
    Pair {
        before: Planned {
            threads: &[AWAKE, ASLEEP],
            locks: &[FREE],
        },
        turn: Turn::Go,
        after: Planned {
            threads: &[AWAKE, AWAKE],
            locks: &[FREE],
        },
        wrong: Violation::WokeByItself(1),
    },
    Pair {
        before: Planned {
            threads: &[AWAKE, ASLEEP, ASLEEP],
            locks: &[Plan {
                word: 2,
                waiters: &[(1, X), (2, X)],
                ..FREE
            }],
        },
        turn: Turn::Go,
        after: Planned {
            threads: &[AWAKE, ASLEEP, ASLEEP],
            locks: &[Plan {
                word: 2,
                waiters: &[(2, X), (1, X)],
                ..FREE
            }],
        },
        wrong: Violation::OutOfOrder(0),
    },
    Pair {
        before: Planned {
            threads: &[AWAKE, ASLEEP],
            locks: &[Plan {
                word: 2,
                waiters: &[(1, X)],
                ..FREE
            }],
        },
        turn: Turn::Go,
        after: Planned {
            threads: &[AWAKE, ASLEEP],
            locks: &[Plan { word: 2, ..FREE }],
        },
        wrong: Violation::Vanished(1),
    },
    Pair {
        before: Planned {
            threads: &[AWAKE, ASLEEP],
            locks: &[FREE],
        },
        turn: Turn::Go,
        after: Planned {
            threads: &[AWAKE, ASLEEP],
            locks: &[Plan {
                waiters: &[(1, X)],
                ..FREE
            }],
        },
        wrong: Violation::JoinedByOther(1),
    },
    Pair {
        before: Planned {
            threads: &[AWAKE, ASLEEP, ASLEEP],
            locks: &[Plan {
                word: 2,
                waiters: &[(1, X), (2, X)],
                ..FREE
            }],
        },
        turn: Turn::Go,
        after: Planned {
            threads: &[AWAKE, ASLEEP, HELD],
            locks: &[Plan {
                word: 2,
                waiters: &[(1, X)],
                ..FREE
            }],
        },
        wrong: Violation::OutOfTurn(0),
    },
    Pair {
        before: Planned {
            threads: &[AWAKE, AWAKE],
            locks: &[FREE],
        },
        turn: Turn::Go,
        after: Planned {
            threads: &[AWAKE, AWAKE],
            locks: &[Plan {
                word: 1,
                owners: &[(Right::Exclusive, 1)],
                ..FREE
            }],
        },
        wrong: Violation::RightFromNobody(1),
    },
    Pair {
        before: Planned {
            threads: &[AWAKE, AWAKE],
            locks: &[Plan {
                word: 1,
                owners: &[(Right::Exclusive, 1)],
                ..FREE
            }],
        },
        turn: Turn::Go,
        after: Planned {
            threads: &[AWAKE, AWAKE],
            locks: &[FREE],
        },
        wrong: Violation::RightTaken(1),
    },
    Pair {
        before: Planned {
            threads: &[AWAKE, HELD, HELD],
            locks: &[Plan {
                kind: NORMAL,
                word: 8,
                owners: &[(Right::Exclusive, 0)],
                owing: &[0],
                ..FREE
            }],
        },
        turn: Turn::Go,
        after: Planned {
            threads: &[AWAKE, HELD, HELD],
            locks: &[Plan {
                kind: NORMAL,
                word: 16,
                owners: &[(Right::Shared, 1)],
                owing: &[0],
                ..FREE
            }],
        },
        wrong: Violation::HandedToSome(2),
    },
    Pair {
        before: Planned {
            threads: &[AWAKE, AWAKE],
            locks: &[Plan {
                kind: NORMAL,
                word: 8,
                owners: &[(Right::Pending, 1)],
                ..FREE
            }],
        },
        turn: Turn::Go,
        after: Planned {
            threads: &[AWAKE, AWAKE],
            locks: &[Plan {
                kind: NORMAL,
                word: 24,
                owners: &[(Right::Pending, 1), (Right::Shared, 0)],
                ..FREE
            }],
        },
        wrong: Violation::ReaderPassed(0),
    },
    Pair {
        before: Planned {
            threads: &[AWAKE, AWAKE],
            locks: &[FREE],
        },
        turn: Turn::Go,
        after: Planned {
            threads: &[AWAKE, AWAKE],
            locks: &[Plan {
                owing: &[1],
                ..FREE
            }],
        },
        wrong: Violation::DebtMoved(1),
    },
    Pair {
        before: Planned {
            threads: &[AWAKE],
            locks: &[Plan {
                kind: Kind::Once,
                word: 1,
                ..FREE
            }],
        },
        turn: Turn::Go,
        after: Planned {
            threads: &[AWAKE],
            locks: &[Plan {
                kind: Kind::Once,
                ..FREE
            }],
        },
        wrong: Violation::Undone(0),
    },
    Pair {
        before: Planned {
            threads: &[AWAKE],
            locks: &[Plan {
                kind: Kind::Condvar,
                word: 1,
                ..FREE
            }],
        },
        turn: Turn::Go,
        after: Planned {
            threads: &[AWAKE],
            locks: &[Plan {
                kind: Kind::Condvar,
                word: 2,
                ..FREE
            }],
        },
        wrong: Violation::ShowsAnother(0),
    },
];

#[test]
fn steps_are_named(rt: HostRuntime) -> Result<(), Fail> {
    for (number, pair) in PAIRS.iter().enumerate() {
        let (before, after) = (
            seen(rt.alloc(), &pair.before)?,
            seen(rt.alloc(), &pair.after)?,
        );
        let turn = pair.turn;
        let step = Step { thread: 0, turn };
        let found = check_step(&before, step, Outcome::Step, &after).err();
        check_eq(&rt, (number, found), (number, Some(pair.wrong)));
        let found = check_step(&before, step, Outcome::NotNow, &after).err();
        check_eq(
            &rt,
            (number, found),
            (number, Some(Violation::ChangedByNothing)),
        );
    }
    Ok(())
}
