//! Programs with what is found of them by turns of each grain.

use super::{Found, check_eq, search_by};
use core_base::ListQueues;
use lot_explore::{Walk, explore_from, explore_in};
use lot_program::{Deadlines, Grain};
use lot_program_text::parse;
use state_search::{Limits, Unobserved, Verdict};
use std::alloc::Global;
use std::process::Abort;
use std::test::Fail;
use std::thread::Threads;

/// Room for each program here.
const ROOM: Limits = Limits {
    states: 60_000,
    bytes: None,
};

/// What is found of a program by calls, by whole turns and by steps.
struct Grained {
    text: &'static str,
    calls: Found,
    turns: Found,
    steps: Found,
}

/// Programs of calls that can't see another half done, then those of calls that can.
const PROGRAMS: &[Grained] = &[
    Grained {
        text: "threads 3\nlock a mutex\nlock b mutex\nlock c mutex\n\
               thread 0\nlock a\nlock b\nunlock b\nunlock a\n\
               thread 1\nlock b\nlock c\nunlock c\nunlock b\n\
               thread 2\nlock a\nlock c\nunlock c\nunlock a\n",
        calls: Found::Nothing(152),
        turns: Found::Nothing(785),
        steps: Found::Nothing(8200),
    },
    Grained {
        text: "threads 2\nlock r rwlock\n\
               thread 0\nupgradable r\nupgrade r\nunlock_exclusive r\n\
               thread 1\nread r\nupgradable r\nunlock_upgradable r\nunlock_shared r\n",
        calls: Found::Deadlock(4),
        turns: Found::Deadlock(7),
        steps: Found::Deadlock(19),
    },
    Grained {
        text: "threads 2\nlock m mutex\nlock c condvar\n\
               thread 0\nlock m\nwait c m\nunlock m\n\
               thread 1\nlock m\nnotify_one c\nunlock m\n",
        calls: Found::Deadlock(5),
        turns: Found::Deadlock(8),
        steps: Found::Deadlock(14),
    },
    // A notification with its variable.
    Grained {
        text: "threads 2\nlock m mutex\nlock c condvar\nvar ready 0\n\
               thread 0\nlock m\nwhile ready = 0\nwait c m\nend\nunlock m\n\
               thread 1\nlock m\nset ready 1\nnotify_one c\nunlock m\n",
        calls: Found::Nothing(23),
        turns: Found::Nothing(120),
        steps: Found::Nothing(314),
    },
    // One condition variable for two conditions, with the wrong notification and with the right one.
    Grained {
        text: "threads 3\nlock m mutex\nlock c condvar\nvar full 0\n\
               thread 0\nrepeat 2\nlock m\nwhile full = 1\nwait c m\nend\n\
               set full 1\nnotify_one c\nunlock m\nend\n\
               thread 1 2\nlock m\nwhile full = 0\nwait c m\nend\n\
               set full 0\nnotify_one c\nunlock m\nfinally full = 0\n",
        calls: Found::Deadlock(24),
        turns: Found::Deadlock(46),
        steps: Found::Deadlock(72),
    },
    Grained {
        text: "threads 3\nlock m mutex\nlock c condvar\nvar full 0\n\
               thread 0\nrepeat 2\nlock m\nwhile full = 1\nwait c m\nend\n\
               set full 1\nnotify_all c\nunlock m\nend\n\
               thread 1 2\nlock m\nwhile full = 0\nwait c m\nend\n\
               set full 0\nnotify_all c\nunlock m\nfinally full = 0\n",
        calls: Found::Nothing(566),
        turns: Found::Nothing(10198),
        steps: Found::Nothing(44202),
    },
    // Two upgrades, of which one at a time is upgradable.
    Grained {
        text: "threads 2\nlock r rwlock\nthread 0 1\nupgradable r\nupgrade r\nunlock_exclusive r\n",
        calls: Found::Nothing(18),
        turns: Found::Nothing(63),
        steps: Found::Nothing(209),
    },
    // Two readers that want to write.
    Grained {
        text: "threads 2\nlock r rwlock\nthread 0 1\nread r\nwrite r\n",
        calls: Found::Deadlock(3),
        turns: Found::Deadlock(7),
        steps: Found::Deadlock(18),
    },
    // Two orders of locks, without a gate and with one.
    Grained {
        text: "threads 2\nlock a mutex\nlock b mutex\n\
               thread 0\nlock a\nlock b\nunlock b\nunlock a\n\
               thread 1\nlock b\nlock a\nunlock a\nunlock b\n",
        calls: Found::Deadlock(4),
        turns: Found::Deadlock(8),
        steps: Found::Deadlock(18),
    },
    Grained {
        text: "threads 2\nlock g mutex\nlock a mutex\nlock b mutex\n\
               thread 0\nlock g\nlock a\nlock b\nunlock b\nunlock a\nunlock g\n\
               thread 1\nlock g\nlock b\nlock a\nunlock a\nunlock b\nunlock g\n",
        calls: Found::Nothing(36),
        turns: Found::Nothing(81),
        steps: Found::Nothing(342),
    },
    // Two orders with deadlines.
    Grained {
        text: TIMED,
        calls: Found::Nothing(58),
        turns: Found::Nothing(186),
        steps: Found::Nothing(673),
    },
    // Readers that pass a pending writer for ever are no deadlock.
    Grained {
        text: "threads 3\nlock r recursive\nthread 0 1\nloop\nread r\nunlock_shared r\nend\n\
               thread 2\nwrite r\nunlock_exclusive r\n",
        calls: Found::Nothing(81),
        turns: Found::Nothing(487),
        steps: Found::Nothing(4626),
    },
    // A reader's try fails while a timed writer has given up and not gone yet.
    Grained {
        text: "threads 2\nlock r rwlock\nlock a mutex\nlock b mutex\n\
               thread 0\nread r\nunlock_shared r\ntry_read r\n\
               if yes\nunlock_shared r\nend\n\
               if no\nlock a\nlock b\nunlock b\nunlock a\nend\n\
               thread 1\nwrite_timed r\nif yes\nunlock_exclusive r\nend\n\
               if no\nlock b\nlock a\nunlock a\nunlock b\nend\n",
        calls: Found::Nothing(105),
        turns: Found::Deadlock(23),
        steps: Found::Deadlock(43),
    },
    // A try to write fails by the bit of a queue in which nobody stands.
    Grained {
        text: "threads 2\nlock r rwlock\nlock a mutex\n\
               thread 0\nwrite r\nunlock_exclusive r\n\
               thread 1\ntry_write r\nif yes\nunlock_exclusive r\nend\n\
               if no\nread r\nunlock_shared r\ntry_write r\n\
               if yes\nunlock_exclusive r\nend\nif no\nlock a\nlock a\nend\nend\n",
        calls: Found::Nothing(30),
        turns: Found::Deadlock(18),
        steps: Found::Deadlock(35),
    },
    // A notification finds a waiter that owns its mutex yet.
    Grained {
        text: "threads 2\nlock g mutex\nlock m mutex\nlock v condvar\n\
               thread 0\nlock g\nlock m\nwait_timed v m\nunlock g\nunlock m\n\
               thread 1\nnotify_one v\nif yes\ntry_lock m\nif yes\nunlock m\nend\n\
               if no\nlock m\nlock g\nunlock g\nunlock m\nend\nend\n",
        calls: Found::Nothing(60),
        turns: Found::Deadlock(26),
        steps: Found::Deadlock(43),
    },
    // A bump gives way to a thread that isn't in the queue yet.
    Grained {
        text: "threads 2\nlock f fair\nlock a mutex\n\
               thread 0\nlock f\nlock a\nbump f\nunlock a\nunlock f\n\
               thread 1\nlock_timed f\nif yes\nunlock f\nend\n\
               if no\ntry_lock f\nif yes\nlock a\nunlock a\nunlock f\nend\nend\n",
        calls: Found::Nothing(65),
        turns: Found::Deadlock(20),
        steps: Found::Deadlock(39),
    },
];

#[test]
fn whole_turns_find_what_steps_find(rt: HostRuntime) {
    for program in PROGRAMS {
        let found = |grain: Grain| {
            search_by::<ListQueues>(rt.alloc(), program.text, ROOM, grain, Deadlines::Pass)
        };
        check_eq(&rt, found(Grain::Calls), program.calls);
        check_eq(&rt, found(Grain::Turns), program.turns);
        check_eq(&rt, found(Grain::Steps), program.steps);
    }
}

/// Two threads that take two locks in two orders, and give up where the second isn't free in time.
const TIMED: &str = "threads 2\nlock a mutex\nlock b mutex\n\
                     thread 0\nlock a\nlock_timed b\nif yes\nunlock b\nend\nunlock a\n\
                     thread 1\nlock b\nlock_timed a\nif yes\nunlock a\nend\nunlock b\n";

#[test]
fn where_no_deadline_passes_a_timed_call_waits_for_ever(rt: HostRuntime) {
    let found = |deadlines: Deadlines| {
        search_by::<ListQueues>(rt.alloc(), TIMED, ROOM, Grain::Calls, deadlines)
    };
    check_eq(&rt, found(Deadlines::Pass), Found::Nothing(58));
    check_eq(&rt, found(Deadlines::Never), Found::Deadlock(4));
}

/// What a search tells.
#[derive(Debug, Drop, PartialEq, Eq)]
enum Told {
    /// All states are fine: so many, each after fewer moves than `depth`.
    Fine { states: usize, depth: usize },
    /// Moves that lead to a wrong state.
    Wrong(Vec<usize>),
    /// Something else.
    Neither,
}

impl Told {
    fn of(verdict: Verdict) -> Told {
        match verdict {
            Verdict::Holds { states, depth } => Told::Fine { states, depth },
            Verdict::Broken { moves } => Told::Wrong(moves),
            _ => Told::Neither,
        }
    }
}

/// Programs whose levels are shared among threads: one that is right, and one with a property that is broken.
const WIDE: &[&str] = &[
    "threads 3\nlock a mutex\nlock b mutex\nthread 0 1 2\n\
     repeat 2\nlock a\nlock b\nunlock b\nunlock a\nend\n",
    "threads 3\nlock a mutex\nlock b mutex\nvar x 0\nthread 0 1 2\n\
     repeat 2\nlock a\nlock b\nadd x 1\nunlock b\nunlock a\nend\nalways x < 4\n",
];

// Asserts that a search of a program by steps tells the same in so many threads as in one.
fn check_in<R: Threads + Abort + Sync>(rt: &R, alloc: Global, text: &str, threads: usize) {
    let Ok(parsed) = parse(alloc, text) else {
        return;
    };
    if !parsed.program.is_fit() {
        return;
    }
    let Ok(walk) = Walk::<ListQueues>::new(alloc, &parsed.program) else {
        return;
    };
    let limits = Limits {
        states: 200_000,
        bytes: None,
    };
    let one = Told::of(explore_from(alloc, &walk, limits, &mut Unobserved));
    let many = Told::of(explore_in(rt, threads, alloc, &walk, limits, &mut Unobserved));
    check_eq(rt, many, one);
}

#[test]
fn several_threads_tell_what_one_does(rt: HostRuntime) {
    for text in WIDE {
        check_in(&rt, rt.alloc(), text, 2);
        check_in(&rt, rt.alloc(), text, 4);
    }
}
