//! What the words of a program mean, by what is found of small ones by turns of each grain.

use super::{Found, check_eq, search_by};
use core_base::ListQueues;
use lot_program::{Deadlines, Grain};
use state_search::Limits;
use std::alloc::Global;
use std::process::Abort;
use std::test::Fail;

/// Room for each program here.
const ROOM: Limits = Limits {
    states: 10_000,
    bytes: None,
};

/// Programs of one thread or of single lines, of which each grain finds the same.
const PROGRAMS: &[(&str, Found)] = &[
    // Each of three branches is taken, and one of them alone fails.
    (
        "threads 1\nvar x 0\nthread 0\neither\nset x 1\nor\nset x 2\nor\nset x 3\nend\n",
        Found::Nothing(10),
    ),
    (
        "threads 1\nvar x 0\nthread 0\neither\nset x 1\nor\nset x 2\nor\nset x 3\nend\n\
         assert x /= 1\n",
        Found::Assert(4),
    ),
    (
        "threads 1\nvar x 0\nthread 0\neither\nset x 1\nor\nset x 2\nor\nset x 3\nend\n\
         assert x /= 2\n",
        Found::Assert(5),
    ),
    (
        "threads 1\nvar x 0\nthread 0\neither\nset x 1\nor\nset x 2\nor\nset x 3\nend\n\
         assert x /= 3\n",
        Found::Assert(4),
    ),
    // A branch in a branch, in a block that runs twice.
    (
        "threads 1\nvar x 0\nthread 0\nrepeat 2\neither\nor\neither\nadd x 1\nor\nadd x 2\nend\nend\nend\n\
         finally x < 4\n",
        Found::Broken(0, 6),
    ),
    // A loop is left, the innermost one, and one that repeats.
    (
        "threads 1\nvar x 0\nthread 0\nloop\nadd x 1\nif x = 3\nbreak\nend\nend\nassert x /= 3\n",
        Found::Assert(10),
    ),
    (
        "threads 1\nvar x 0\nthread 0\nrepeat 2\nloop\nbreak\nend\nadd x 1\nend\nassert x < 2\n",
        Found::Assert(5),
    ),
    (
        "threads 1\nvar x 0\nthread 0\nrepeat 9\nadd x 1\nif x = 2\nbreak\nend\nend\nassert x /= 2\n",
        Found::Assert(6),
    ),
    // Both tests hold, or one of two, by a step for each test.
    (
        "threads 1\nvar x 1\nvar y 2\nthread 0\nif x = 1 and y = 2\nset x 9\nend\nassert x < 9\n",
        Found::Assert(4),
    ),
    (
        "threads 1\nvar x 1\nvar y 2\nthread 0\nif x = 1 and y = 3\nset x 9\nelse\nset y 9\nend\n\
         assert y < 9\n",
        Found::Assert(4),
    ),
    (
        "threads 1\nvar x 1\nvar y 2\nthread 0\nif x = 2 and y = 2 or y = 2 and x = 1\nset x 9\nend\n\
         assert x < 9\n",
        Found::Assert(5),
    ),
    (
        "threads 1\nvar x 1\nvar y 2\nthread 0\nif x = 1 or y = 7\nset x 9\nend\nassert x < 9\n",
        Found::Assert(4),
    ),
    (
        "threads 1\nvar x 0\nvar y 0\nthread 0\nwhile x < 2 or y < 1\nadd x 1\nadd y 1\nend\n\
         assert x < 2\n",
        Found::Assert(13),
    ),
    (
        "threads 1\nvar x 1\nvar y 2\nthread 0\nassert x = 1 and y = 2\nassert x = 2 or y = 2\n\
         assert x = 1 and y = 3\n",
        Found::Assert(6),
    ),
    (
        "threads 1\nvar x 1\nthread 0\nassert x = 1 or x = 2\nassert x = 2 or x = 3\n",
        Found::Assert(4),
    ),
    // A property's tests read one state.
    (
        "threads 1\nvar x 0\nvar y 0\nthread 0\nset x 1\nset y 1\nset x 0\n\
         always x = 0 or y = 0\nfinally y = 1 and x = 0\n",
        Found::Broken(0, 2),
    ),
    (
        "threads 1\nvar x 0\nvar y 0\nthread 0\nset x 1\nset y 1\nset x 0\n\
         always x = 0 or y < 2\nfinally y = 1 and x = 1\n",
        Found::Broken(1, 3),
    ),
    (
        "threads 1\nvar x 0\nvar y 0\nthread 0\nset x 1\nset y 1\nset x 0\n\
         always x = 0 and y = 0 or x = 1 or y = 1\nfinally y = 1 and x = 0\n",
        Found::Nothing(4),
    ),
    // Numbers with names.
    (
        "threads 1\nconst most 3\nconst one 1\nvar x one\nlock s semaphore most\nthread 0\n\
         repeat most\nadd x one\nend\nset x most\nassert x /= most\n",
        Found::Assert(5),
    ),
    // Each of two threads with names has a variable of its own.
    (
        "var x 0\nthread adder 2\nown i 0\nwhile i < 2\nadd i 1\nadd x 1\nend\nfinally x = 3\n",
        Found::Broken(0, 18),
    ),
    (
        "var x 0\nthread adder 2\nown i 3\nadd i 1\nassert i = 4\nset x i\nthread other\nown i 5\n\
         assert i = 5\nnever adder 1 at 6 other at 9\nends adder 2\n",
        Found::Broken(0, 2),
    ),
];

#[test]
fn words_mean_what_the_page_says(rt: HostRuntime) {
    for (text, wanted) in PROGRAMS.iter().copied() {
        for grain in [Grain::Steps, Grain::Turns, Grain::Calls] {
            let found = search_by::<ListQueues>(rt.alloc(), text, ROOM, grain, Deadlines::Pass);
            check_eq(&rt, found, wanted);
        }
    }
}

/// Two threads that choose how many locks they take. They hold each other up where both take two.
const CHOSEN: &str = "threads 2\nlock a mutex\nlock b mutex\n\
    thread 0\neither\nlock a\nunlock a\nor\nlock a\nlock b\nunlock b\nunlock a\nend\n\
    thread 1\neither\nlock b\nunlock b\nor\nlock b\nlock a\nunlock a\nunlock b\nend\n";

#[test]
fn a_deadlock_of_other_branches_is_found(rt: HostRuntime) {
    let found = |grain: Grain| {
        search_by::<ListQueues>(rt.alloc(), CHOSEN, ROOM, grain, Deadlines::Pass)
    };
    check_eq(&rt, found(Grain::Calls), Found::Deadlock(6));
    check_eq(&rt, found(Grain::Turns), Found::Deadlock(10));
    check_eq(&rt, found(Grain::Steps), Found::Deadlock(20));
}
