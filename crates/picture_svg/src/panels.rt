//! A panel: the headings of its columns, the lanes of threads, and the rows of locks.

use crate::arrows::draw_arrows;
use crate::looks::{Look, look_of_deed, look_of_right};
use crate::rows::draw_rows;
use crate::shapes::{Area, put_label, put_letter, put_marker, put_rect};
use crate::texts::put_text;
use lot_picture::{Cell, Column, Lane};
use picture_layout::Sheet;
use picture_layout::layout::{
    COLUMN, GAP, LANE, Layout, MARGIN, MIDDLE, Panel, Pixels, Run, height_of_lanes,
    height_of_thread, runs,
};
use std::alloc::Global;
use std::io;
use std::io::Write;

/// The columns whose numbers are multiples of this bear them.
const NUMBERED: u64 = 5;

/// After how many columns of a run its letter is written again.
const LETTERED: usize = 8;

/// Writes a panel.
pub fn draw_panel<W: Write>(
    alloc: Global,
    out: &mut W,
    sheet: &Sheet<'_>,
    panel: Panel,
    top: Pixels,
) -> io::Result<()> {
    let foot = top + sheet.height_of_headings(panel);
    let lanes = sheet.lanes_top(panel, top);
    let rows = lanes + height_of_lanes(sheet.recording);
    draw_headings(out, sheet, panel, foot)?;
    draw_grid(out, &sheet.layout, panel, lanes, rows)?;
    draw_threads(alloc, out, sheet, panel, lanes)?;
    draw_arrows(out, sheet, panel, lanes)?;
    draw_rows(
        alloc,
        out,
        sheet.rows.as_slice(),
        &sheet.layout,
        panel,
        rows,
    )
}

/// Writes what is above each column, and every fifth number.
fn draw_headings<W: Write>(
    out: &mut W,
    sheet: &Sheet<'_>,
    panel: Panel,
    foot: Pixels,
) -> io::Result<()> {
    for (at, column) in panel.columns(sheet.recording).iter().enumerate() {
        let x = sheet.layout.column(at);
        if let Some(heading) = sheet.headings.get(panel.from.saturating_add(at)) {
            draw_heading(out, heading.as_str(), column, x + Pixels(11), foot)?;
        }
        let number = column.number;
        if number % NUMBERED == 0 || at == 0 {
            draw_number(out, number, x + MIDDLE, foot + Pixels(10))?;
        }
    }
    Ok(())
}

fn draw_number<W: Write>(out: &mut W, number: u64, x: Pixels, base: Pixels) -> io::Result<()> {
    writeln!(
        out,
        "<text class=\"number\" x=\"{x}\" y=\"{base}\">{number}</text>"
    )
}

fn draw_heading<W: Write>(
    out: &mut W,
    heading: &str,
    column: &Column,
    x: Pixels,
    foot: Pixels,
) -> io::Result<()> {
    write!(
        out,
        "<text class=\"line\" transform=\"translate({x} {foot}) rotate(-90)\" x=\"2\">"
    )?;
    put_text(out, heading.as_bytes())?;
    if !column.said.is_empty() {
        put_said(out, column.said.as_slice())?;
    }
    out.write_all(b"</text>\n")
}

/// Writes what a line answers.
fn put_said<W: Write>(out: &mut W, said: &[u8]) -> io::Result<()> {
    out.write_all(b"<tspan class=\"said\">: ")?;
    put_text(out, said)?;
    out.write_all(b"</tspan>")
}

/// Writes the thin lines between columns.
fn draw_grid<W: Write>(
    out: &mut W,
    layout: &Layout,
    panel: Panel,
    top: Pixels,
    foot: Pixels,
) -> io::Result<()> {
    out.write_all(b"<path class=\"grid\" d=\"")?;
    for at in 0..panel.len.saturating_add(1) {
        let x = layout.column(at);
        write!(out, "M{x} {top}V{foot}")?;
    }
    out.write_all(b"\"/>\n")
}

/// Writes all threads, with the marks of their steps.
fn draw_threads<W: Write>(
    alloc: Global,
    out: &mut W,
    sheet: &Sheet<'_>,
    panel: Panel,
    top: Pixels,
) -> io::Result<()> {
    let mut y = top;
    for thread in &sheet.recording.actors {
        draw_marks(out, sheet, panel, *thread, y + GAP)?;
        draw_thread(alloc, out, sheet, panel, *thread, y + GAP)?;
        y = y + height_of_thread(sheet.recording, *thread);
    }
    Ok(())
}

/// Marks the columns in which a thread takes steps.
fn draw_marks<W: Write>(
    out: &mut W,
    sheet: &Sheet<'_>,
    panel: Panel,
    thread: usize,
    tip: Pixels,
) -> io::Result<()> {
    for (at, column) in panel.columns(sheet.recording).iter().enumerate() {
        if column.thread == Some(thread) {
            put_marker(out, sheet.layout.column(at) + MIDDLE, tip, column.is_taken)?;
        }
    }
    Ok(())
}

/// Writes the name of a thread and its lanes.
fn draw_thread<W: Write>(
    alloc: Global,
    out: &mut W,
    sheet: &Sheet<'_>,
    panel: Panel,
    thread: usize,
    top: Pixels,
) -> io::Result<()> {
    let (base, label) = (top + Pixels(14), sheet.recording.thread_label(thread));
    writeln!(out, "<text x=\"{MARGIN}\" y=\"{base}\">{label}</text>")?;
    let lanes = sheet.recording.lanes_of(thread);
    if lanes.is_empty() {
        return draw_frame(out, &sheet.layout, panel, top);
    }
    let mut y = top;
    for lane in lanes {
        draw_lane_name(out, sheet, lane, y + Pixels(13))?;
        draw_lane(alloc, out, &sheet.layout, panel, lane, y)?;
        y = y + LANE;
    }
    Ok(())
}

/// Writes the name of the lock of a lane, where there are several locks.
fn draw_lane_name<W: Write>(
    out: &mut W,
    sheet: &Sheet<'_>,
    lane: &Lane,
    base: Pixels,
) -> io::Result<()> {
    if !sheet.layout.names_lanes {
        return Ok(());
    }
    let name = sheet.recording.name_of(lane.lock);
    put_label(out, "name end", sheet.layout.name_end(), base, name)
}

/// Writes what a thread is to a lock.
fn draw_lane<W: Write>(
    alloc: Global,
    out: &mut W,
    layout: &Layout,
    panel: Panel,
    lane: &Lane,
    y: Pixels,
) -> io::Result<()> {
    draw_frame(out, layout, panel, y)?;
    for run in &runs(alloc, lane.cells.as_slice(), panel)? {
        draw_run(out, layout, *run, y)?;
    }
    Ok(())
}

/// Writes the outline of a lane.
fn draw_frame<W: Write>(out: &mut W, layout: &Layout, panel: Panel, y: Pixels) -> io::Result<()> {
    let (x, width) = (layout.left, COLUMN.times(panel.len));
    let area = Area {
        x,
        y,
        width,
        height: LANE,
    };
    put_rect(out, "empty", area)
}

/// Writes what a thread is to a lock in columns that follow each other.
fn draw_run<W: Write>(out: &mut W, layout: &Layout, run: Run<Cell>, y: Pixels) -> io::Result<()> {
    let area = Area {
        x: layout.column(run.start),
        y,
        width: COLUMN.times(run.len),
        height: LANE,
    };
    draw_cell(out, run.value, area, run.len)?;
    if run.value.is_inside {
        put_rect(out, "inside", area.bar(Pixels(17)))?;
    }
    Ok(())
}

/// Writes what a thread is to a lock in so many columns, its right above its deed.
fn draw_cell<W: Write>(out: &mut W, cell: Cell, area: Area, columns: usize) -> io::Result<()> {
    let right = cell.right.map(look_of_right);
    let deed = cell.deed.map(look_of_deed);
    match (right, deed) {
        (Some(upper), Some(lower)) => {
            draw_look(out, upper, area.upper(), columns)?;
            draw_look(out, lower, area.lower(), columns)
        }
        (Some(look), None) | (None, Some(look)) => draw_look(out, look, area, columns),
        (None, None) => Ok(()),
    }
}

/// Writes a right or a deed, with its letter in the first column and in each eighth after it, but
/// not where it ends.
fn draw_look<W: Write>(out: &mut W, look: Look, area: Area, columns: usize) -> io::Result<()> {
    put_rect(out, look.class, area)?;
    put_letter(out, look, area.x, area)?;
    for at in (LETTERED..columns.saturating_sub(2)).step_by(LETTERED) {
        put_letter(out, look, area.x + COLUMN.times(at), area)?;
    }
    Ok(())
}
