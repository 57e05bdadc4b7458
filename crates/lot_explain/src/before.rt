//! What there was before a line.
ghost use Rattle.std.specs.Prelude.{◌≡◌, All, true};
ghost use Rattle.spec_locks.specs.Kinds.{fits};

use crate::failure::Failure;
use crate::shown::lock_lines;
use core_base::{Fault, Queues};
use lot_replay::state::{SessionStage, State};
use lot_text::{Command, Name, meaning};
use lot_world::{Kind, MOST_LOCKS, MOST_THREADS, World};
use std::alloc::Global;

/// What there was before a line: the lines of the locks, and whether its thread was in no call.
#[derive(Drop)]
pub struct Before {
    pub locks: Vec<u8>,
    pub was_idle: bool,
}

impl Before {
    /// Returns what there is before a line: nothing, where the line takes no step.
    ///
    /// # Errors
    ///
    /// `NoMemory`.
    pub fn of<Q: Queues + Drop>(
        alloc: Global,
        state: &State<Q>,
        line: &[u8],
    ) -> Result<Before, Failure> {
        let was_idle = match meaning(line) {
            Some(Command::Turn { thread, turn: _ }) => was_idle(state.stage(), thread),
            Some(Command::Drain) => true,
            Some(Command::Threads(_) | Command::Lock { .. } | Command::Show) | None => {
                return Ok(Before {
                    locks: Vec::new(alloc),
                    was_idle: true,
                });
            }
        };
        match lines_at(alloc, state.stage()) {
            Ok(locks) => Ok(Before { locks, was_idle }),
            Err(_) => Err(Failure::NoMemory),
        }
    }
}

// Returns whether a thread is in no call at a stage.
fn was_idle<Q: Queues + Drop>(stage: SessionStage<'_, Q>, thread: usize) -> bool {
    match stage {
        SessionStage::Running { names: _, world } => is_idle(world, thread),
        SessionStage::Nothing | SessionStage::Declaring { .. } => true,
    }
}

/// Returns whether a thread of a world is in no call.
pub(crate) fn is_idle<Q: Queues + Drop>(world: &World<Q>, thread: usize) -> bool {
    thread >= world.threads() || world.place(thread).is_idle()
}

/// Returns the lines of the locks at a stage.
pub(crate) fn lines_at<Q: Queues + Drop>(
    alloc: Global,
    stage: SessionStage<'_, Q>,
) -> Result<Vec<u8>, Fault> {
    match stage {
        SessionStage::Nothing => Ok(Vec::new(alloc)),
        SessionStage::Declaring {
            threads,
            names,
            kinds,
        } => first_lines::<Q>(alloc, threads, names, kinds),
        SessionStage::Running { names, world } => lock_lines(alloc, names, world),
    }
}

// Returns the lines of locks that were never used.
fn first_lines<Q: Queues + Drop>(
    alloc: Global,
    threads: usize,
    names: &[Name],
    kinds: &[Kind],
) -> Result<Vec<u8>, Fault> {
    if threads == 0 || threads > MOST_THREADS || kinds.len() > MOST_LOCKS {
        return Ok(Vec::new(alloc));
    }
    if !are_fit(kinds, threads) {
        return Ok(Vec::new(alloc));
    }
    match World::<Q>::new(alloc, kinds, threads) {
        Ok(world) => lock_lines(alloc, names, &world),
        Err(fault) => Err(fault),
    }
}

// Returns whether locks of these kinds fit so many threads.
fn are_fit(kinds: &[Kind], threads: usize) -> bool
    ensures { result ≡ true → All (λ kind. fits kind threads ≡ true) kinds.now }
{
    for kind in kinds {
        if !kind.fits(threads) {
            return false;
        }
    }
    true
}
