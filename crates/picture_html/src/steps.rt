//! The section of a column: its line, what each thread is and waits for, and what `show` prints.

use crate::phrases::{put_deed, put_event, put_right};
use lot_picture::{Cell, Column, ColumnKind, Lane, Recording};
use picture_layout::{heading_of, unit_word};
use picture_svg::put_text;
use std::alloc::Global;
use std::io;
use std::io::Write;

/// Writes the section of the column at this place of a recording.
pub fn put_step<W: Write>(
    alloc: Global,
    out: &mut W,
    recording: &Recording,
    column: &Column,
    at: usize,
) -> io::Result<()> {
    let number = column.number;
    let unit = unit_word(recording.kind);
    write!(
        out,
        "<section data-line=\"{number}\">\n<h2>{unit} {number}: "
    )?;
    put_thread_of(out, recording, column)?;
    out.write_all(b"<code>")?;
    put_text(out, column.line.as_slice())?;
    out.write_all(b"</code>")?;
    put_said(out, column)?;
    out.write_all(b"</h2>\n<p>")?;
    if recording.kind == ColumnKind::Line {
        put_text(out, heading_of(alloc, recording, column)?.as_bytes())?;
    }
    put_events(out, recording, column)?;
    out.write_all(b"</p>\n<ul>\n")?;
    for thread in recording.actors.iter() {
        put_thread(out, recording, *thread, at)?;
    }
    out.write_all(b"</ul>\n<pre>")?;
    put_text(out, column.shown.as_slice())?;
    out.write_all(b"</pre>\n</section>\n")
}

/// Writes which thread takes a turn. A line of a schedule says that itself.
fn put_thread_of<W: Write>(out: &mut W, recording: &Recording, column: &Column) -> io::Result<()> {
    match (recording.kind, column.thread) {
        (ColumnKind::Turn, Some(thread)) => {
            write!(out, "{}, line ", recording.thread_label(thread))
        }
        _ => Ok(()),
    }
}

fn put_said<W: Write>(out: &mut W, column: &Column) -> io::Result<()> {
    if column.said.is_empty() {
        return Ok(());
    }
    out.write_all(b": ")?;
    put_text(out, column.said.as_slice())
}

/// Writes what a line or a turn did to other threads, after what a line did itself.
fn put_events<W: Write>(out: &mut W, recording: &Recording, column: &Column) -> io::Result<()> {
    let mut mark = match recording.kind {
        ColumnKind::Line => "; ",
        ColumnKind::Turn => "",
    };
    for event in column.events.iter() {
        out.write_all(mark.as_bytes())?;
        put_event(out, recording, *event)?;
        mark = "; ";
    }
    Ok(())
}

/// Writes what a thread is to the locks in a column.
fn put_thread<W: Write>(
    out: &mut W,
    recording: &Recording,
    thread: usize,
    at: usize,
) -> io::Result<()> {
    write!(out, "<li>{}", recording.thread_label(thread))?;
    let mut number = 0usize;
    for lane in recording.lanes_of(thread) {
        let mark = if number == 0 { " " } else { "; " };
        if put_lane(out, recording, lane, at, mark)? {
            number = number.saturating_add(1);
        }
    }
    if number == 0 {
        out.write_all(b" is in no call")?;
    }
    out.write_all(b"</li>\n")
}

/// Writes what a thread is to a lock, after a mark, and returns whether it is anything.
fn put_lane<W: Write>(
    out: &mut W,
    recording: &Recording,
    lane: &Lane,
    at: usize,
    mark: &str,
) -> io::Result<bool> {
    let Some(cell) = lane.cells.get(at) else {
        return Ok(false);
    };
    if *cell == Cell::NOTHING {
        return Ok(false);
    }
    out.write_all(mark.as_bytes())?;
    put_cell(out, recording, lane, *cell, at)?;
    Ok(true)
}

/// Writes what a thread is to a lock, its right before its deed.
fn put_cell<W: Write>(
    out: &mut W,
    recording: &Recording,
    lane: &Lane,
    cell: Cell,
    at: usize,
) -> io::Result<()> {
    let mut mark = "";
    if let Some(right) = cell.right {
        put_right(out, recording, lane.lock, right)?;
        mark = ", ";
    }
    if let Some(deed) = cell.deed {
        out.write_all(mark.as_bytes())?;
        put_deed(out, recording, lane, deed, at)?;
        mark = ", ";
    }
    if cell.is_inside {
        out.write_all(mark.as_bytes())?;
        out.write_all(b"is inside a section of ")?;
        put_text(out, recording.name_of(lane.lock))?;
    }
    Ok(())
}
