//! What is said of one line.
use crate::before::{Before, is_idle, lines_at};
use crate::failure::Failure;
use crate::forms::{FormCause, FormFlaw, form_flaw};
use crate::misplaced::stage_cause;
use crate::obstacles::{DrainObstacle, Obstacle, drain_obstacle, obstacle_of};
use crate::shown::write_changes;
use core_base::Queues;
use lot_replay::actions::Action;
use lot_replay::state::{SessionStage, State};
use lot_text::{Command, NamedTurn, meaning};
use lot_world::{Step, Turn, World};
use std::alloc::Global;
use std::fmt;
use std::io::Write;

/// Why a line that was answered did nothing, where that is so.
#[derive(Clone, Copy, Debug, PartialEq, Eq)]
enum Hindrance {
    /// The line did something.
    Nothing,
    /// The step of the line is not possible now.
    NotNow(Obstacle),
    /// The world may not be drained.
    Refused(DrainObstacle),
}

/// Says that a line is too long.
pub(crate) fn of_long(alloc: Global, number: u64) -> Result<Vec<u8>, Failure> {
    let flaw = FormFlaw {
        cause: FormCause::TooLong,
        word: "",
    };
    line_of(alloc, number, &flaw)
}

/// Says of a line that was refused why.
pub(crate) fn of_refused<Q: Queues + Drop>(
    alloc: Global,
    stage: SessionStage<'_, Q>,
    number: u64,
    line: &[u8],
) -> Result<Vec<u8>, Failure> {
    match meaning(line) {
        Some(command) => {
            let cause = stage_cause(stage, command);
            line_of(alloc, number, &cause)
        }
        None => {
            let flaw = form_flaw(line);
            line_of(alloc, number, &flaw)
        }
    }
}

/// Says of a line that was answered what it has changed, or why it was not possible: nothing of one
/// that takes no step.
pub(crate) fn of_answered<Q: Queues + Drop>(
    alloc: Global,
    before: &Before,
    state: &State<Q>,
    answer: &[u8],
    number: u64,
    line: &[u8],
) -> Result<Vec<u8>, Failure> {
    let hindrance = match meaning(line) {
        Some(Command::Turn { thread, turn }) => {
            hindrance_of(before.was_idle, state, answer, thread, turn)
        }
        Some(Command::Drain) => drain_hindrance(state, answer),
        Some(Command::Threads(_) | Command::Lock { .. } | Command::Show) | None => {
            return Ok(Vec::new(alloc));
        }
    };
    let Ok(now) = lines_at(alloc, state.stage()) else {
        return Err(Failure::NoMemory);
    };
    let text = std::str::from_utf8(line).unwrap_or("");
    let mut note = line_of(alloc, number, &text)?;
    write!(note, "{hindrance}")?;
    write_changes(&mut note, before.locks.as_slice(), now.as_slice())?;
    Ok(note)
}

// Returns a line that begins with the number of the line of which it says something.
fn line_of<T: fmt::Display>(alloc: Global, number: u64, said: &T) -> Result<Vec<u8>, Failure> {
    let mut text = Vec::new(alloc);
    writeln!(text, "    line {number}: {said}")?;
    Ok(text)
}

// Returns why a turn did nothing.
fn hindrance_of<Q: Queues + Drop>(
    was_idle: bool,
    state: &State<Q>,
    answer: &[u8],
    thread: usize,
    turn: NamedTurn,
) -> Hindrance {
    if !answer.ends_with(b" not now\n".as_slice()) {
        return Hindrance::Nothing;
    }
    let Some(action) = state.action(turn) else {
        return Hindrance::Nothing;
    };
    match state.stage() {
        SessionStage::Running { names: _, world } => {
            let turn = last_turn(was_idle, world, thread, action);
            Hindrance::NotNow(obstacle_of(world, Step { thread, turn }))
        }
        SessionStage::Nothing | SessionStage::Declaring { .. } => Hindrance::Nothing,
    }
}

// Returns the turn of an action that was not possible: the first, or where its call has begun the next.
fn last_turn<Q: Queues + Drop>(
    was_idle: bool,
    world: &World<Q>,
    thread: usize,
    action: Action,
) -> Turn {
    let has_begun = was_idle && !is_idle(world, thread);
    match action {
        Action::Turn(turn) => turn,
        Action::Do(call) if !has_begun => Turn::Begin(call),
        Action::Solo | Action::Do(_) => Turn::Go,
    }
}

// Returns why a drain did nothing.
fn drain_hindrance<Q: Queues + Drop>(state: &State<Q>, answer: &[u8]) -> Hindrance {
    if !answer.ends_with(b"drain refused\n".as_slice()) {
        return Hindrance::Nothing;
    }
    match state.stage() {
        SessionStage::Running { names: _, world } => Hindrance::Refused(drain_obstacle(world)),
        SessionStage::Nothing | SessionStage::Declaring { .. } => Hindrance::Nothing,
    }
}

impl fmt::Display for Hindrance {
    fn fmt<W: fmt::Write>(&self, f: &mut fmt::Formatter<W>) -> fmt::Result {
        match self {
            Hindrance::Nothing => Ok(()),
            Hindrance::NotNow(obstacle) => writeln!(f, "    not now: {obstacle}"),
            Hindrance::Refused(obstacle) => writeln!(f, "    refused: {obstacle}"),
        }
    }
}
