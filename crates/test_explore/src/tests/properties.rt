//! Programs with properties, and which of them is broken.

use super::{Found, check_eq, search_of};
use core_base::ListQueues;
use state_search::Limits;
use std::process::Abort;
use std::test::Fail;

/// Room for each program here.
const ROOM: Limits = Limits {
    states: 30_000,
    bytes: None,
};

/// Programs with what is found of them.
const PROGRAMS: &[(&str, Found)] = &[
    (
        "threads 1\nvar x 0\nthread 0\nset x 1\nalways x = 0\n",
        Found::Broken(0, 1),
    ),
    (
        "threads 1\nvar x 0\nthread 0\nset x 1\nalways x <= 1\nalways x = 0\n",
        Found::Broken(1, 1),
    ),
    ("threads 1\nvar x 1\nalways x = 0\n", Found::Broken(0, 0)),
    // What is true at the end alone.
    (
        "threads 2\nvar x 0\nthread 0 1\nadd x 1\nfinally x = 2\n",
        Found::Nothing(4),
    ),
    (
        "threads 2\nvar x 0\nthread 0 1\nadd x 1\nfinally x = 1\n",
        Found::Broken(0, 2),
    ),
    // Two threads in lines that a mutex guards, or nothing does.
    (
        "threads 2\nlock m mutex\nvar x 0\nthread 0 1\nlock m\nset x 1\nunlock m\n\
         never 0 at 6 1 at 6\n",
        Found::Nothing(160),
    ),
    (
        "threads 2\nlock m mutex\nvar x 0\nthread 0 1\nset x 1\nlock m\nunlock m\n\
         never 0 at 6 1 at 6\n",
        Found::Broken(0, 2),
    ),
    // A thread that waits in a call is before no line.
    (
        "threads 2\nlock m mutex\nvar x 0\nthread 0\nlock m\nset x 1\nlock m\n\
         thread 1\nlock m\nset x 1\nnever 0 at 6 1 at 10\n",
        Found::Deadlock(10),
    ),
    // A fault is told before a property.
    (
        "threads 1\nlock m mutex\nvar x 0\nthread 0\nunlock m\nalways x = 1\n",
        Found::Broken(0, 0),
    ),
];

#[test]
fn a_property_is_broken_or_not(rt: HostRuntime) {
    for (text, wanted) in PROGRAMS {
        check_eq(
            &rt,
            search_of::<ListQueues>(rt.alloc(), text, ROOM),
            *wanted,
        );
    }
}
