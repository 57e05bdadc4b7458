//! Programs, and what a search of all their schedules finds.
mod damaged;
mod grains;
mod language;
mod loops;
mod packs;
mod programs;
mod properties;
mod texts;
mod walks;

use core_base::Queues;
use lot_explore::{Walk, Wrong, explore};
use lot_program::{Deadlines, Grain, Program};
use lot_program_text::{TextError, parse};
use state_search::{Limits, NoRoom, Unobserved, Verdict};
use std::alloc::Global;
use std::fmt::Debug;
use std::process::Abort;
use std::test::Fail;

/// What a search finds.
#[derive(Clone, Copy, Debug, PartialEq, Eq)]
enum Found {
    /// No schedule goes wrong: so many states.
    Nothing(usize),
    /// After so many moves no move is possible.
    Deadlock(usize),
    /// After so many moves a call lacks its right.
    Refused(usize),
    /// After so many moves an assertion is false.
    Assert(usize),
    /// A property of this number is broken after so many moves.
    Broken(usize, usize),
    /// The limit is reached after so many states.
    Limit(usize),
    /// Memory is refused after so many states.
    NoMemory(usize),
    /// The text is no program.
    NoProgram,
}

impl Found {
    /// Returns what is wrong after so many moves.
    fn of(wrong: Wrong, moves: usize) -> Found {
        match wrong {
            Wrong::Deadlock => Found::Deadlock(moves),
            Wrong::Refused { thread: _ } => Found::Refused(moves),
            Wrong::Failed { thread: _ } => Found::Assert(moves),
            Wrong::Broken { property } => Found::Broken(property, moves),
        }
    }
}

// Asserts that the thing found is the thing wanted. All tests share this one assertion, since each
// is proved where it stands.
fn check_eq<T: PartialEq + Debug + Drop>(rt: &impl Abort, found: T, wanted: T) {
    assert_eq!(rt; found, wanted);
}

/// Returns what a search of a text by steps finds within these limits.
fn search_of<Q: Queues + Drop>(alloc: Global, text: &str, limits: Limits) -> Found {
    search_by::<Q>(alloc, text, limits, Grain::Steps, Deadlines::Pass)
}

/// Returns what a search of a text by such turns finds within these limits.
fn search_by<Q: Queues + Drop>(
    alloc: Global,
    text: &str,
    limits: Limits,
    grain: Grain,
    deadlines: Deadlines,
) -> Found {
    let Ok(mut parsed) = parse(alloc, text) else {
        return Found::NoProgram;
    };
    parsed.program.deadlines = deadlines;
    parsed.program.grain = grain;
    match explore::<Q, _>(alloc, &parsed.program, limits, &mut Unobserved) {
        Ok(Verdict::Holds { states, depth: _ }) => Found::Nothing(states),
        Ok(Verdict::Limited { states, depth: _ }) => Found::Limit(states),
        Ok(Verdict::NoMemory { states, depth: _ }) => Found::NoMemory(states),
        Ok(Verdict::Stopped { states, depth: _ }) => Found::Limit(states),
        Ok(Verdict::Broken { moves }) => broken::<Q>(alloc, &parsed.program, moves.as_slice()),
        Err(_) => Found::NoProgram,
    }
}

/// Returns what is wrong with the state after some moves.
fn broken<Q: Queues + Drop>(alloc: Global, program: &Program, moves: &[usize]) -> Found {
    let number = moves.len();
    match wrong_after::<Q>(alloc, program, moves) {
        Ok(Some(wrong)) => Found::of(wrong, number),
        Ok(None) => Found::Nothing(number),
        Err(NoRoom) => Found::NoMemory(number),
    }
}

fn wrong_after<Q: Queues + Drop>(
    alloc: Global,
    program: &Program,
    moves: &[usize],
) -> Result<Option<Wrong>, NoRoom> {
    if !program.is_fit() {
        return Ok(None);
    }
    let mut walk = Walk::<Q>::new(alloc, program)?;
    for by in moves {
        walk.turn(*by)?;
    }
    walk.wrong()
}
