//! The rows of text below the lanes.

use crate::shapes::{Area, put_label, put_rect, put_upright};
use picture_layout::layout::{COLUMN, Layout, MARGIN, Panel, Pixels, runs};
use picture_layout::rows::{ABOVE, TextRow, fitting, room_of};
use std::alloc::Global;
use std::io;
use std::io::Write;

/// Writes the rows of a panel.
pub fn draw_rows<W: Write>(
    alloc: Global,
    out: &mut W,
    rows: &[TextRow],
    layout: &Layout,
    panel: Panel,
    top: Pixels,
) -> io::Result<()> {
    let mut y = top + ABOVE;
    for row in rows {
        put_label(out, "name", MARGIN, y + Pixels(11), row.name.as_bytes())?;
        draw_row(alloc, out, row, layout, panel, y)?;
        y = y + row.height;
    }
    Ok(())
}

fn draw_row<W: Write>(
    alloc: Global,
    out: &mut W,
    row: &TextRow,
    layout: &Layout,
    panel: Panel,
    y: Pixels,
) -> io::Result<()> {
    for run in &runs(alloc, row.at.as_slice(), panel)? {
        let area = Area {
            x: layout.column(run.start),
            y,
            width: COLUMN.times(run.len),
            height: row.height,
        };
        draw_text(out, row.text(run.value), area)?;
    }
    Ok(())
}

/// Writes a text in a box as wide as its run, cut short where it is wider, and upright where that is
/// wider too.
fn draw_text<W: Write>(out: &mut W, text: &str, area: Area) -> io::Result<()> {
    put_rect(out, "box", area)?;
    let text = fitting(text, area.width);
    if room_of(text) > area.width {
        let foot = area.y + area.height;
        return put_upright(out, "word", area.x + Pixels(11), foot, text.as_bytes());
    }
    let base = area.y + Pixels(11);
    put_label(out, "word", area.x + Pixels(3), base, text.as_bytes())
}
