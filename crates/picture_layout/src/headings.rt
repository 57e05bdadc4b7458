//! What is written above a column: its line, or what the step of `go` did.

use crate::titles::push_bytes;
use core_base::{Key, Keys, Op};
use lot_picture::{Column, Due, Effect, Recording};
use lot_world::Act;
use std::alloc::{AllocError, Global};

/// Returns what is written above each column.
pub fn headings_of(alloc: Global, recording: &Recording) -> Result<Vec<String>, AllocError> {
    let mut headings = Vec::new(alloc);
    for column in recording.columns.iter() {
        headings.push(heading_of(alloc, recording, column)?)?;
    }
    Ok(headings)
}

/// Returns what is written above a column, without what the line answers.
pub fn heading_of(
    alloc: Global,
    recording: &Recording,
    column: &Column,
) -> Result<String, AllocError> {
    let mut text = String::new(alloc);
    match (column.thread, column.due) {
        (Some(thread), Some(due)) if is_told(due.act) => {
            write!(text, "{thread}")?;
            push_locks(&mut text, recording, due.act)?;
            text.push_str(": ")?;
            push_act(&mut text, column, due)?;
        }
        _ => push_bytes(&mut text, column.line.as_slice())?,
    }
    Ok(text)
}

/// Tells whether an act says more than its line.
fn is_told(act: Act) -> bool {
    !matches!(act, Act::Rest | Act::Sleep | Act::Closure(_) | Act::End(_))
}

/// Writes what an act did.
fn push_act(text: &mut String, column: &Column, due: Due) -> Result<(), AllocError> {
    match due.act {
        Act::Word { op, .. } => push_operation(text, op, due.word),
        Act::HandOver { op, .. } => {
            text.push_str("hand over ")?;
            push_operation(text, op, due.word)
        }
        Act::Enter(_) => text.push_str("enter"),
        Act::Park { check, .. } if check.holds(due.word) => text.push_str("join the queue"),
        Act::Park { .. } => text.push_str("look, join no queue"),
        Act::Stand { .. } => text.push_str("join the queue"),
        Act::Take { .. } => push_effect(text, column, Effect::Takes, "take"),
        Act::Requeue { .. } => push_requeued(text, column),
        Act::Remove(_) => text.push_str("quit the queue"),
        Act::Leave { .. } => text.push_str("leave"),
        Act::Accept => text.push_str("accept"),
        Act::Rest | Act::Sleep | Act::Closure(_) | Act::End(_) => text.push_str("go"),
    }
}

/// Writes an operation on a word that found this value.
fn push_operation(text: &mut String, op: Op, seen: u64) -> Result<(), AllocError> {
    match op {
        Op::Load => write!(text, "read {seen}"),
        Op::Exchange { from, .. } if from != seen => text.push_str("exchange failed"),
        _ => {
            let after = op.apply(seen);
            write!(text, "{seen} -> {after}")
        }
    }
}

/// Writes which threads a step moved to another queue, and which of them it took.
fn push_requeued(text: &mut String, column: &Column) -> Result<(), AllocError> {
    if has_effect(column, Effect::Takes) {
        push_effect(text, column, Effect::Takes, "take")?;
        if !has_effect(column, Effect::Moves) {
            return Ok(());
        }
        text.push_str(", ")?;
    }
    push_effect(text, column, Effect::Moves, "move")
}

fn has_effect(column: &Column, effect: Effect) -> bool {
    column.events.iter().any(|event| event.effect == effect)
}

/// Writes the threads to which a step did this, after a word for it.
fn push_effect(
    text: &mut String,
    column: &Column,
    effect: Effect,
    verb: &str,
) -> Result<(), AllocError> {
    text.push_str(verb)?;
    let mut number = 0usize;
    for event in column.events.iter() {
        if event.effect == effect {
            let (mark, thread) = (if number == 0 { " " } else { "," }, event.thread);
            write!(text, "{mark}{thread}")?;
            number = number.saturating_add(1);
        }
    }
    if number == 0 {
        text.push_str(" none")?;
    }
    Ok(())
}

/// Writes the names of the locks that an act is about, where there are several locks.
fn push_locks(text: &mut String, recording: &Recording, act: Act) -> Result<(), AllocError> {
    if recording.names.len() < 2 {
        return Ok(());
    }
    let (first, second) = locks_of(act);
    if let Some(lock) = first {
        text.push_str(" ")?;
        push_bytes(text, recording.name_of(lock))?;
    }
    if let Some(lock) = second.filter(|lock| Some(*lock) != first) {
        text.push_str(",")?;
        push_bytes(text, recording.name_of(lock))?;
    }
    Ok(())
}

/// Returns the locks that an act is about.
fn locks_of(act: Act) -> (Option<usize>, Option<usize>) {
    match act {
        Act::Word { lock, .. } | Act::HandOver { lock, .. } | Act::Park { lock, .. } => {
            (Some(lock), None)
        }
        Act::Enter(keys) | Act::Leave { keys, .. } => match keys {
            Keys::One(key) => (Some(lock_of(key)), None),
            Keys::Two(first, second) => (Some(lock_of(first)), Some(lock_of(second))),
        },
        Act::Stand { key, .. } | Act::Take { key, .. } | Act::Remove(key) => {
            (Some(lock_of(key)), None)
        }
        Act::Requeue { from, to, .. } => (Some(lock_of(from)), Some(lock_of(to))),
        Act::Rest | Act::Sleep | Act::Accept | Act::Closure(_) | Act::End(_) => (None, None),
    }
}

/// Returns the lock that has the queue of this key.
fn lock_of(key: Key) -> usize {
    key / 2
}
