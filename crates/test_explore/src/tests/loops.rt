//! Threads that never come to their end, though no thread is held up.
use super::check_eq;
use core_base::ListQueues;
use lot_explore::Walk;
use lot_loops::{Answer, FairLoop, find_loops};
use lot_program::{Grain, Program};
use lot_program_text::{ProgramText, parse};
use state_search::{Limits, NoRoom, Unobserved};
use std::alloc::Global;

/// What is found of a thread's end.
#[derive(Clone, Copy, Debug, PartialEq, Eq)]
enum Ending {
    /// A loop of so many moves after so many.
    Loop { way: usize, lap: usize },
    /// No loop within so many states, which are all.
    NoLoop(usize),
    /// None within so many states, which are not all.
    NoneYet(usize),
    /// The moves of a loop are not possible, or its thread is through.
    NotALoop,
    NoMemory,
    NoProgram,
}

/// Returns the program of a text, by calls.
fn by_calls(alloc: Global, text: &str) -> Option<ProgramText> {
    let mut parsed = parse(alloc, text).ok()?;
    parsed.program.grain = Grain::Calls;
    Some(parsed)
}

/// Returns what is found of a thread's end within so many states.
fn ending_of(alloc: Global, text: &str, thread: usize, most: u32) -> Ending {
    let Some(parsed) = by_calls(alloc, text) else {
        return Ending::NoProgram;
    };
    match looked_for(alloc, &parsed.program, thread, most) {
        Ok(ending) => ending,
        Err(NoRoom) => Ending::NoMemory,
    }
}

fn looked_for(
    alloc: Global,
    program: &Program,
    thread: usize,
    most: u32,
) -> Result<Ending, NoRoom> {
    if !program.is_fit() {
        return Ok(Ending::NoProgram);
    }
    let walk = Walk::<ListQueues>::new(alloc, program)?;
    let limits = Limits {
        states: most,
        bytes: None,
    };
    let mut looks = find_loops(alloc, &walk, &[thread], limits, &mut Unobserved)?;
    let Some(looked) = looks.pop() else {
        return Ok(Ending::NoMemory);
    };
    match looked.answer {
        Answer::Loop(found) => ending_by(walk, thread, &found),
        Answer::NoLoop => Ok(Ending::NoLoop(looked.states)),
        Answer::Cut(_) => Ok(Ending::NoneYet(looked.states)),
    }
}

/// Takes the moves of a loop twice, and returns what is found of it.
fn ending_by(
    mut walk: Walk<'_, ListQueues>,
    thread: usize,
    found: &FairLoop,
) -> Result<Ending, NoRoom> {
    let moves = found.way.iter().chain(found.lap.iter());
    for by in moves.chain(found.lap.iter()) {
        if !walk.turn(*by)? {
            return Ok(Ending::NotALoop);
        }
    }
    if walk.scene().is_through(walk.program(), thread) {
        return Ok(Ending::NotALoop);
    }
    Ok(Ending::Loop {
        way: found.way.len(),
        lap: found.lap.len(),
    })
}

/// A thread that looks till another tells it.
const TOLD: &str = "threads 2\nvar x 0\nthread 0\nwhile x = 0\nend\nthread 1\nset x 1\n";

/// One that nobody tells.
const NOT_TOLD: &str =
    "threads 2\nlock m mutex\nvar x 0\nthread 0\nwhile x = 0\nend\nthread 1\nlock m\nunlock m\n";

/// One that waits for a mutex which another takes again and again.
const TAKEN_AGAIN: &str =
    "threads 2\nlock m mutex\nthread 0\nloop\nlock m\nunlock m\nend\nthread 1\nlock m\nunlock m\n";

/// One that waits for a mutex which is handed over.
const HANDED_OVER: &str =
    "threads 2\nlock m mutex\nthread 0\nloop\nlock m\nunlock_fair m\nend\nthread 1\nlock m\nunlock m\n";

#[test]
fn a_thread_that_nobody_tells_looks_for_ever(rt: HostRuntime) {
    let endless = Ending::Loop { way: 2, lap: 2 };
    check_eq(&rt, ending_of(rt.alloc(), NOT_TOLD, 0, 1000), endless);
    check_eq(
        &rt,
        ending_of(rt.alloc(), NOT_TOLD, 1, 1000),
        Ending::NoLoop(6),
    );
    check_eq(
        &rt,
        ending_of(rt.alloc(), NOT_TOLD, 0, 3),
        Ending::NoneYet(3),
    );
}

/// One that may choose for ever to look again.
const CHOOSES: &str = "threads 1\nvar x 0\nthread 0\nwhile x = 0\neither\nset x 1\nor\nend\nend\n";

#[test]
fn a_thread_may_choose_one_branch_for_ever(rt: HostRuntime) {
    let endless = Ending::Loop { way: 0, lap: 3 };
    check_eq(&rt, ending_of(rt.alloc(), CHOOSES, 0, 1000), endless);
}

#[test]
fn a_thread_that_is_told_ends(rt: HostRuntime) {
    check_eq(&rt, ending_of(rt.alloc(), TOLD, 0, 1000), Ending::NoLoop(5));
}

#[test]
fn a_mutex_is_taken_before_a_waiter_again_and_again(rt: HostRuntime) {
    let endless = Ending::Loop { way: 2, lap: 4 };
    check_eq(&rt, ending_of(rt.alloc(), TAKEN_AGAIN, 1, 1000), endless);
}

#[test]
fn a_mutex_that_is_handed_over_lets_a_waiter_in(rt: HostRuntime) {
    check_eq(
        &rt,
        ending_of(rt.alloc(), HANDED_OVER, 1, 1000),
        Ending::NoLoop(17),
    );
}
