//! Threads that go on till they rest.
use crate::orders::TurnSort;
use core_base::ListQueues;
use lot_explore::Walk;
use lot_story::Telling;
use lot_world::Outcome;
use state_search::NoRoom;
use std::alloc::Global;
use std::io;
use std::io::{ErrorKind, Write};

/// The most rounds. Eight threads on 256 locks rest after 41,696 turns at most: see `World::run`,
/// `comes_to_rest`.
const MOST_ROUNDS: usize = 50000;

/// Lets each thread that is in a call, and not in its closure, take a turn after another, round and round,
/// till none of them can. No call begins. Each turn is told.
///
/// # Errors
///
/// The errors of the writer, and `OutOfMemory`.
pub fn settle<W: Write>(alloc: Global, out: &mut W, telling: &mut Telling<'_>) -> io::Result<()> {
    for _round in 0..MOST_ROUNDS {
        if !settle_round(alloc, out, telling)? {
            break;
        }
    }
    Ok(())
}

// Lets each thread in a call take a turn, and answers whether one did.
fn settle_round<W: Write>(
    alloc: Global,
    out: &mut W,
    telling: &mut Telling<'_>,
) -> io::Result<bool> {
    let mut any = false;
    for thread in 0..telling.walk().program().threads() {
        match goes_on(telling.walk_mut(), thread) {
            Ok(true) => {
                telling.turn(alloc, out, TurnSort::Go.number(thread))?;
                any = true;
            }
            Ok(false) => {}
            Err(NoRoom) => return Err(io::Error::from(ErrorKind::OutOfMemory)),
        }
    }
    Ok(any)
}

// Answers whether a thread is in a call, not in its closure, and can go on.
fn goes_on(walk: &mut Walk<'_, ListQueues>, thread: usize) -> Result<bool, NoRoom> {
    if walk.scene().is_idle(thread) || matches!(walk.scene().outcome(thread), Outcome::Closure(_)) {
        return Ok(false);
    }
    walk.is_possible(TurnSort::Go.number(thread))
}
