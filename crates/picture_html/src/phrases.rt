//! What a thread is to a lock, in words: to which threads it owes a wake-up, and what it waits for.

use lot_picture::{Deed, Effect, Event, Lane, LockRow, Recording};
use lot_world::{Kind, Owner};
use picture_svg::put_text;
use std::io;
use std::io::Write;

/// Writes a phrase about a lock: what is before its name, and what is after it.
fn put_about<W: Write>(
    out: &mut W,
    recording: &Recording,
    lock: usize,
    before: &str,
    after: &str,
) -> io::Result<()> {
    out.write_all(before.as_bytes())?;
    put_text(out, recording.name_of(lock))?;
    out.write_all(after.as_bytes())
}

/// Writes what a line did to another thread.
pub fn put_event<W: Write>(out: &mut W, recording: &Recording, event: Event) -> io::Result<()> {
    let thread = recording.thread_label(event.thread);
    match event.effect {
        Effect::HandsOver => write!(out, "{thread} is handed ")?,
        Effect::Wakes => write!(out, "{thread} is woken on ")?,
        Effect::Moves => write!(out, "{thread} is moved to the queue of ")?,
        Effect::Takes => write!(out, "{thread} is taken off the queue of ")?,
    }
    put_text(out, recording.name_of(event.lock))
}

/// Returns the row of a lock.
fn row_of(recording: &Recording, lock: usize) -> Option<&LockRow> {
    recording.rows.iter().find(|row| row.lock == lock)
}

/// Writes a right to a lock.
pub fn put_right<W: Write>(
    out: &mut W,
    recording: &Recording,
    lock: usize,
    right: Owner,
) -> io::Result<()> {
    let is_counted = match row_of(recording, lock) {
        Some(row) => matches!(row.kind, Kind::Semaphore { .. }),
        None => false,
    };
    let (before, after) = match right {
        Owner::Exclusive => ("owns ", " alone"),
        Owner::Pending => ("is to own ", " alone, once its readers have left"),
        Owner::Upgradable => ("reads ", ", and may upgrade"),
        Owner::Shared if is_counted => ("has a permit of ", ""),
        Owner::Shared => ("shares ", ""),
        Owner::Running => ("runs its closure of ", ""),
    };
    put_about(out, recording, lock, before, after)
}

/// Writes what a call of a thread does at the lock of a lane, in the column at this place.
pub fn put_deed<W: Write>(
    out: &mut W,
    recording: &Recording,
    lane: &Lane,
    deed: Deed,
    at: usize,
) -> io::Result<()> {
    match deed {
        Deed::Owes => {
            put_about(out, recording, lane.lock, "owes a wake-up on ", "")?;
            put_waiters(out, recording, lane.lock, at)
        }
        Deed::Waits => put_waiting(out, recording, lane, at),
        Deed::WaitsAside => put_about(
            out,
            recording,
            lane.lock,
            "waits aside for the readers of ",
            " to leave",
        ),
        Deed::Retries => put_about(out, recording, lane.lock, "was woken, and tries ", " again"),
        Deed::Taken => put_about(
            out,
            recording,
            lane.lock,
            "is asleep, taken off the queue of ",
            "",
        ),
        Deed::Calls => put_about(out, recording, lane.lock, "is in a call of ", ""),
    }
}

/// Writes which threads wait for a lock.
fn put_waiters<W: Write>(
    out: &mut W,
    recording: &Recording,
    lock: usize,
    at: usize,
) -> io::Result<()> {
    let Some(row) = row_of(recording, lock) else {
        return Ok(());
    };
    let Some(queue) = row.queues.get(at) else {
        return Ok(());
    };
    for (place, waiter) in queue.iter().enumerate() {
        let mark = if place == 0 { ": to" } else { "," };
        write!(out, "{mark} {}", recording.thread_label(waiter.thread))?;
    }
    Ok(())
}

/// Writes that a thread waits for a lock, and which threads have it.
fn put_waiting<W: Write>(
    out: &mut W,
    recording: &Recording,
    lane: &Lane,
    at: usize,
) -> io::Result<()> {
    put_about(out, recording, lane.lock, "waits for ", "")?;
    if row_of(recording, lane.lock).is_some_and(|row| row.kind == Kind::Condvar) {
        return out.write_all(b" to be notified");
    }
    let mut number = 0usize;
    for other in recording.lanes.iter() {
        if has_right(other, lane.lock, at) {
            let mark = if number == 0 { ", of" } else { "," };
            write!(out, "{mark} {}", recording.thread_label(other.thread))?;
            number = number.saturating_add(1);
        }
    }
    if number == 0 {
        out.write_all(b", of nobody")?;
    }
    Ok(())
}

/// Tells whether the thread of a lane has a right to this lock in the column at this place.
fn has_right(lane: &Lane, lock: usize, at: usize) -> bool {
    lane.lock == lock && lane.cells.get(at).is_some_and(|cell| cell.right.is_some())
}
