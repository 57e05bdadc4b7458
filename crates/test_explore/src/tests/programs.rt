//! Programs with what is found of them.

use super::{Found, check_eq, search_of};
use core_base::{ListQueues, Queues};
use core_queues::BucketQueues;
use state_search::Limits;
use std::alloc::Global;
use std::process::Abort;
use std::test::Fail;

/// Room for each program here.
const ROOM: Limits = Limits {
    states: 30_000,
    bytes: None,
};

/// Programs of one sort of lock, or of two that wait for each other.
const PROGRAMS: &[(&str, Found)] = &[
    ("threads 1\nthread 0\n", Found::Nothing(1)),
    (
        "threads 2\nlock m mutex\nthread 0 1\nlock m\nunlock m\nlock m\nunlock m\n",
        Found::Nothing(753),
    ),
    // A thread locks what it has.
    (
        "threads 1\nlock m mutex\nthread 0\nlock m\nlock m\n",
        Found::Deadlock(9),
    ),
    // A thread ends with a lock for which another waits.
    (
        "threads 2\nlock m mutex\nthread 0 1\nlock m\n",
        Found::Deadlock(9),
    ),
    // Two locks in two orders, alone and inside a third.
    (
        "threads 2\nlock a mutex\nlock b mutex\n\
         thread 0\nlock a\nlock b\nunlock b\nunlock a\n\
         thread 1\nlock b\nlock a\nunlock a\nunlock b\n",
        Found::Deadlock(18),
    ),
    (
        "threads 2\nlock g mutex\nlock a mutex\nlock b mutex\n\
         thread 0\nlock g\nlock a\nlock b\nunlock b\nunlock a\nunlock g\n\
         thread 1\nlock g\nlock b\nlock a\nunlock a\nunlock b\nunlock g\n",
        Found::Nothing(342),
    ),
    // Three philosophers, and three of which the last takes its forks in another order.
    (
        "threads 3\nlock a mutex\nlock b mutex\nlock c mutex\n\
         thread 0\nlock a\nlock b\nunlock b\nunlock a\n\
         thread 1\nlock b\nlock c\nunlock c\nunlock b\n\
         thread 2\nlock c\nlock a\nunlock a\nunlock c\n",
        Found::Deadlock(27),
    ),
    (
        "threads 3\nlock a mutex\nlock b mutex\nlock c mutex\n\
         thread 0\nlock a\nlock b\nunlock b\nunlock a\n\
         thread 1\nlock b\nlock c\nunlock c\nunlock b\n\
         thread 2\nlock a\nlock c\nunlock c\nunlock a\n",
        Found::Nothing(8200),
    ),
    // A notification that nobody waits for yet, and one with a variable.
    (
        "threads 2\nlock m mutex\nlock c condvar\n\
         thread 0\nlock m\nwait c m\nunlock m\n\
         thread 1\nlock m\nnotify_one c\nunlock m\n",
        Found::Deadlock(14),
    ),
    (
        "threads 2\nlock m mutex\nlock c condvar\nvar ready 0\n\
         thread 0\nlock m\nwhile ready = 0\nwait c m\nend\nunlock m\n\
         thread 1\nlock m\nset ready 1\nnotify_one c\nunlock m\n",
        Found::Nothing(314),
    ),
    // A conversion that waits for the other's share, which waits for the conversion.
    (
        "threads 2\nlock r rwlock\n\
         thread 0\nupgradable r\nupgrade r\nunlock_exclusive r\n\
         thread 1\nread r\nupgradable r\nunlock_upgradable r\nunlock_shared r\n",
        Found::Deadlock(19),
    ),
    // As many threads inside as there are permits, and one fewer.
    (
        "threads 3\nlock s semaphore 2\nvar in 0\n\
         thread 0 1 2\nacquire s\nadd in 1\nassert in <= 2\nset in 0\nrelease s\n",
        Found::Nothing(3854),
    ),
    (
        "threads 2\nlock s semaphore 2\nvar in 0\n\
         thread 0 1\nacquire s\nadd in 1\nassert in <= 1\nset in 0\nrelease s\n",
        Found::Assert(9),
    ),
    // A closure that is run once.
    (
        "threads 2\nlock o once\nvar runs 0\n\
         thread 0 1\ncall_once o\nadd runs 1\nok\nassert runs = 1\n",
        Found::Nothing(139),
    ),
    // A right that a thread lacks, and a call that its lock lacks.
    (
        "threads 2\nlock m mutex\nthread 0 1\nlock m\nunlock m\nunlock m\n",
        Found::Refused(5),
    ),
    (
        "threads 1\nlock m mutex\nthread 0\nunlock_fair m\n",
        Found::Refused(1),
    ),
    (
        "threads 2\nlock f fair\nthread 0 1\nlock f\nunlock_fair f\n",
        Found::Nothing(79),
    ),
    // A sleep that may be given up.
    (
        "threads 2\nlock m mutex\nthread 0 1\nlock_timed m\nif yes\nunlock m\nend\n",
        Found::Nothing(218),
    ),
    // A variable that two threads change.
    (
        "threads 2\nvar x 0\nthread 0 1\nadd x 1\nassert x = 1\n",
        Found::Assert(3),
    ),
    (
        "threads 2\nvar x 0\nthread 0 1\nadd x 1\n",
        Found::Nothing(4),
    ),
    // A lock of a program's own, whose release wakes a waiter, or nobody.
    (
        "threads 2\nlock m mutex\nlock c condvar\nvar held 0\n\
         thread 0 1\nlock m\nwhile held = 1\nwait c m\nend\nset held 1\nunlock m\n\
         lock m\nset held 0\nnotify_one c\nunlock m\n",
        Found::Nothing(1121),
    ),
    (
        "threads 3\nlock m mutex\nlock c condvar\nvar held 0\n\
         thread 0 1 2\nlock m\nwhile held = 1\nwait c m\nend\nset held 1\nunlock m\n\
         lock m\nset held 0\nunlock m\n",
        Found::Deadlock(29),
    ),
    // A loop without a call has two states.
    ("threads 1\nthread 0\nloop\nend\n", Found::Nothing(1)),
];

/// Asserts what is found of each program.
fn check_programs<Q: Queues + Drop>(rt: &impl Abort, alloc: Global) {
    for (text, wanted) in PROGRAMS {
        check_eq(rt, search_of::<Q>(alloc, text, ROOM), *wanted);
    }
}

#[test]
fn programs_go_wrong_as_they_do_or_not(rt: HostRuntime) {
    check_programs::<ListQueues>(&rt, rt.alloc());
}

#[test]
fn a_search_over_buckets_finds_what_one_over_lists_does(rt: HostRuntime) {
    check_programs::<BucketQueues>(&rt, rt.alloc());
}

#[test]
fn a_search_stops_at_its_limit(rt: HostRuntime) {
    let text = "threads 2\nlock m mutex\nthread 0 1\nlock m\nunlock m\n";
    // A row has two numbers of each thread and three of the lock, so a state takes 60 bytes.
    let limits = [
        (10, None, 10),
        (0, None, 0),
        (100, Some(659), 10),
        (100, Some(660), 11),
        (10, Some(660), 10),
    ];
    for (states, bytes, wanted) in limits.iter().copied() {
        let limits = Limits { states, bytes };
        let found = search_of::<ListQueues>(rt.alloc(), text, limits);
        check_eq(&rt, found, Found::Limit(wanted));
    }
}
