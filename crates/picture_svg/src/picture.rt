//! The picture: one text of SVG, with no scripts and nothing from elsewhere.

use crate::legend::{Spot, draw_legend, legend_bottom};
use crate::panels::draw_panel;
use crate::shapes::{Area, put_label, put_rect};
use crate::style::STYLE;
use crate::texts::put_text;
use lot_picture::{Column, ColumnKind, Recording};
use picture_layout::layout::{APART, COLUMN, MARGIN, Panel, Pixels, TITLE};
use picture_layout::sheet::KEY;
use picture_layout::{Length, Sheet};
use std::alloc::Global;
use std::io;
use std::io::Write;

/// The room of a line that says what isn't shown.
const NOTE: Pixels = Pixels(16);

/// How a picture is drawn.
#[derive(Clone, Copy)]
pub struct Drawing<'a> {
    /// What it is called, in place of its locks and the numbers of threads and lines.
    pub title: Option<&'a str>,
    /// The numbers of lines whose columns are framed.
    pub marks: &'a [u64],
    /// How wide it is on paper.
    pub width: Option<Length>,
    /// Whether it is part of a page, which finds each column by its rectangle, `column-K`, and keeps the
    /// names of threads in view.
    pub is_for_page: bool,
}

/// Writes the picture of a schedule.
///
/// # Errors
///
/// The errors of the writer, and `OutOfMemory`.
pub fn draw<W: Write>(
    alloc: Global,
    out: &mut W,
    recording: &Recording,
    drawing: Drawing<'_>,
) -> io::Result<()> {
    let sheet = Sheet::new(alloc, recording, drawing.title, drawing.width)?;
    let legend = sheet.legend_top();
    let notes = legend_bottom(recording, Spot::new(legend, sheet.width));
    let height = notes + notes_height(recording) + MARGIN;
    open(out, &sheet, height, drawing)?;
    draw_panels(alloc, out, &sheet, drawing)?;
    draw_keys(out, &sheet)?;
    draw_legend(out, recording, Spot::new(legend, sheet.width))?;
    draw_notes(out, recording, notes)?;
    out.write_all(b"</svg>\n")?;
    if drawing.is_for_page {
        put_names(out, &sheet)?;
    }
    Ok(())
}

/// Writes what is before the columns once more, as a picture that a page lays over the first and keeps in
/// view.
fn put_names<W: Write>(out: &mut W, sheet: &Sheet<'_>) -> io::Result<()> {
    let (top, width) = (sheet.top(), sheet.layout.left);
    let height = sheet.keys_top().less(top + APART);
    writeln!(
        out,
        "<svg id=\"names\" width=\"{width}\" height=\"{height}\" viewBox=\"0 {top} {width} {height}\" style=\"margin-top:{top}px\"><use href=\"#lots\"/></svg>"
    )
}

/// Writes all panels.
fn draw_panels<W: Write>(
    alloc: Global,
    out: &mut W,
    sheet: &Sheet<'_>,
    drawing: Drawing<'_>,
) -> io::Result<()> {
    let mut top = sheet.top();
    for number in 0..sheet.layout.panels {
        let panel = sheet.layout.panel(number, sheet.recording);
        draw_panel(alloc, out, sheet, panel, top)?;
        draw_frames(out, sheet, drawing, panel, top)?;
        top = sheet.next_top(panel, top);
    }
    Ok(())
}

/// Frames the columns of a panel that are marked, and names them for a page.
fn draw_frames<W: Write>(
    out: &mut W,
    sheet: &Sheet<'_>,
    drawing: Drawing<'_>,
    panel: Panel,
    top: Pixels,
) -> io::Result<()> {
    for (at, column) in panel.columns(sheet.recording).iter().enumerate() {
        let area = Area {
            x: sheet.layout.column(at),
            y: top,
            width: COLUMN,
            height: sheet.panel_end(panel, top).less(top),
        };
        if drawing.marks.contains(&column.number) {
            put_rect(out, "chosen", area)?;
        }
        if sheet.recording.comes_again(column.number) {
            put_rect(out, "inside", area.bar(sheet.height_of_headings(panel)))?;
        }
        if drawing.is_for_page {
            put_named(out, column, area)?;
        }
    }
    Ok(())
}

/// Writes the rectangle of a column that a page can find.
fn put_named<W: Write>(out: &mut W, column: &Column, area: Area) -> io::Result<()> {
    let Area {
        x,
        y,
        width,
        height,
    } = area;
    let number = column.number;
    writeln!(
        out,
        "<rect class=\"column\" id=\"column-{number}\" x=\"{x}\" y=\"{y}\" width=\"{width}\" height=\"{height}\"/>"
    )
}

/// Writes how large the picture is, and what it is called.
fn open<W: Write>(
    out: &mut W,
    sheet: &Sheet<'_>,
    height: Pixels,
    drawing: Drawing<'_>,
) -> io::Result<()> {
    out.write_all(b"<svg class=\"lots\" xmlns=\"http://www.w3.org/2000/svg\" ")?;
    if drawing.is_for_page {
        out.write_all(b"id=\"lots\" ")?;
    }
    let width = sheet.width;
    match drawing.width {
        Some(length) => {
            let high = length.scaled(height, width);
            write!(out, "width=\"{length}\" height=\"{high}\"")?;
        }
        None => write!(out, "width=\"{width}\" height=\"{height}\"")?,
    }
    writeln!(out, " viewBox=\"0 0 {width} {height}\">")?;
    put_title(out, sheet)?;
    writeln!(
        out,
        "{STYLE}<rect width=\"{width}\" height=\"{height}\" fill=\"#fff\"/>"
    )?;
    draw_title(out, sheet)
}

/// Writes what the picture is called, for readers that don't see it.
fn put_title<W: Write>(out: &mut W, sheet: &Sheet<'_>) -> io::Result<()> {
    out.write_all(b"<title>")?;
    for (at, line) in sheet.title.iter().enumerate() {
        if at != 0 {
            out.write_all(b" ")?;
        }
        put_text(out, line.as_bytes())?;
    }
    out.write_all(b"</title>\n")
}

fn draw_title<W: Write>(out: &mut W, sheet: &Sheet<'_>) -> io::Result<()> {
    let mut base = MARGIN + Pixels(12);
    for line in sheet.title.iter() {
        put_label(out, "title", MARGIN, base, line.as_bytes())?;
        base = base + TITLE;
    }
    Ok(())
}

/// Says what numbers in the rows mean.
fn draw_keys<W: Write>(out: &mut W, sheet: &Sheet<'_>) -> io::Result<()> {
    let mut base = sheet.keys_top() + Pixels(4);
    for line in sheet.keys.iter() {
        put_label(out, "word", MARGIN, base, line.as_bytes())?;
        base = base + KEY;
    }
    Ok(())
}

/// Something that a picture leaves out.
#[derive(Clone, Copy)]
enum Note {
    Threads,
    Locks,
    Lines,
}

const NOTES: [Note; 3] = [Note::Threads, Note::Locks, Note::Lines];

impl Note {
    /// Returns how much is left out, and of how much.
    fn counts(self, recording: &Recording) -> (u64, u64) {
        let (shown, all) = match self {
            Note::Threads => (recording.actors.len() as u64, recording.threads as u64),
            Note::Locks => (recording.rows.len() as u64, recording.names.len() as u64),
            Note::Lines => (recording.columns.len() as u64, recording.lines),
        };
        (all.saturating_sub(shown), all)
    }

    fn what(self, recording: &Recording) -> &'static str {
        match self {
            Note::Threads => "threads",
            Note::Locks => "locks",
            Note::Lines => match recording.kind {
                ColumnKind::Line => "lines",
                ColumnKind::Turn => "turns",
            },
        }
    }
}

fn notes_height(recording: &Recording) -> Pixels {
    let mut height = Pixels(0);
    for note in NOTES {
        if note.counts(recording).0 != 0 {
            height = height + NOTE;
        }
    }
    height
}

/// Says what isn't shown.
fn draw_notes<W: Write>(out: &mut W, recording: &Recording, top: Pixels) -> io::Result<()> {
    let mut base = top + Pixels(10);
    for note in NOTES {
        let (hidden, all) = note.counts(recording);
        if hidden != 0 {
            draw_note(out, note.what(recording), hidden, all, base)?;
            base = base + NOTE;
        }
    }
    Ok(())
}

fn draw_note<W: Write>(
    out: &mut W,
    what: &str,
    hidden: u64,
    all: u64,
    base: Pixels,
) -> io::Result<()> {
    writeln!(
        out,
        "<text x=\"{MARGIN}\" y=\"{base}\">Not shown: {hidden} of {all} {what}.</text>"
    )
}
