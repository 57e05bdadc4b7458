//! Walks at random, and walks with moves left out.
use crate::tests::{Found, check_eq};
use core_base::ListQueues;
use lot_explore::{Walk, shrink, walk_at_random};
use lot_program::{Grain, Program};
use lot_program_text::{ProgramText, parse};
use state_search::NoRoom;
use std::alloc::Global;

/// Three philosophers.
const PHILOSOPHERS: &str = "threads 3\nlock a mutex\nlock b mutex\nlock c mutex\n\
    thread 0\nlock a\nlock b\nunlock b\nunlock a\n\
    thread 1\nlock b\nlock c\nunlock c\nunlock b\n\
    thread 2\nlock c\nlock a\nunlock a\nunlock c\n";

/// Two threads that go twice through a lock, and one that lacks the right to unlock it.
const BUSY: &str = "threads 3\nlock m mutex\n\
    thread 0 1\nlock m\nunlock m\nlock m\nunlock m\n\
    thread 2\nlock m\nunlock m\nunlock m\n";

/// Two threads that keep their order.
const CONTROL: &str = "threads 2\nlock a mutex\nlock b mutex\n\
    thread 0 1\nlock a\nlock b\nunlock b\nunlock a\n";

fn by_calls(alloc: Global, text: &str) -> Option<ProgramText> {
    let mut parsed = parse(alloc, text).ok()?;
    parsed.program.grain = Grain::Calls;
    Some(parsed)
}

/// Returns what the walk of a seed comes to.
fn walked(alloc: Global, program: &Program, seed: u64, most: usize) -> Found {
    if !program.is_fit() {
        return Found::NoProgram;
    }
    match walk_at_random::<ListQueues>(alloc, program, seed, most) {
        Ok(Some(walk)) => found_at(walk),
        Ok(None) => Found::Nothing(most),
        Err(NoRoom) => Found::NoMemory(most),
    }
}

/// Returns what is wrong where a walk has come to.
fn found_at(mut walk: Walk<'_, ListQueues>) -> Found {
    let number = walk.moves().len();
    match walk.wrong() {
        Ok(Some(wrong)) => Found::of(wrong, number),
        Ok(None) => Found::Nothing(number),
        Err(NoRoom) => Found::NoMemory(number),
    }
}

/// Returns what is wrong where the walk of a seed leads to without the moves that it doesn't need.
fn shrunk(alloc: Global, program: &Program, seed: u64) -> Found {
    if !program.is_fit() {
        return Found::NoProgram;
    }
    match walk_at_random::<ListQueues>(alloc, program, seed, 1000) {
        Ok(Some(walk)) => found_at(shrink(alloc, walk)),
        Ok(None) => Found::Nothing(1000),
        Err(NoRoom) => Found::NoMemory(1000),
    }
}

#[test]
fn a_walk_of_one_seed_is_one_walk(rt: HostRuntime) {
    let Some(parsed) = by_calls(rt.alloc(), PHILOSOPHERS) else {
        return check_eq(&rt, Found::NoProgram, Found::Nothing(0));
    };
    let walks = [
        (0, Found::Nothing(1000)),
        (1, Found::Nothing(1000)),
        (2, Found::Nothing(1000)),
        (3, Found::Deadlock(6)),
    ];
    for (seed, wanted) in walks.iter().copied() {
        check_eq(&rt, walked(rt.alloc(), &parsed.program, seed, 1000), wanted);
    }
}

#[test]
fn a_walk_ends_after_the_most_turns(rt: HostRuntime) {
    let Some(parsed) = by_calls(rt.alloc(), PHILOSOPHERS) else {
        return check_eq(&rt, Found::NoProgram, Found::Nothing(0));
    };
    check_eq(
        &rt,
        walked(rt.alloc(), &parsed.program, 3, 5),
        Found::Nothing(5),
    );
    check_eq(
        &rt,
        walked(rt.alloc(), &parsed.program, 3, 6),
        Found::Nothing(6),
    );
    check_eq(
        &rt,
        walked(rt.alloc(), &parsed.program, 3, 7),
        Found::Deadlock(6),
    );
}

#[test]
fn a_walk_without_what_it_does_not_need_goes_wrong_in_the_same_way(rt: HostRuntime) {
    let Some(parsed) = by_calls(rt.alloc(), BUSY) else {
        return check_eq(&rt, Found::NoProgram, Found::Nothing(0));
    };
    for seed in 0..8 {
        check_eq(
            &rt,
            shrunk(rt.alloc(), &parsed.program, seed),
            Found::Refused(3),
        );
    }
}

#[test]
fn walks_of_a_program_that_keeps_its_order_find_nothing(rt: HostRuntime) {
    let Some(parsed) = by_calls(rt.alloc(), CONTROL) else {
        return check_eq(&rt, Found::NoProgram, Found::Nothing(0));
    };
    for seed in 0..50 {
        check_eq(
            &rt,
            walked(rt.alloc(), &parsed.program, seed, 99),
            Found::Nothing(99),
        );
    }
}
