//! The page: the picture, its controls, and a section for each column.
//!
//! A page has no library and asks for nothing. Without its script it shows all lines, and on paper the
//! line that is shown. The number of the line is in its address.

use crate::script::{SCRIPT, STYLE};
use crate::steps::put_step;
use lot_picture::{ColumnKind, Recording};
use picture_layout::{title_of, unit_word};
use picture_svg::{Drawing, draw, put_text};
use std::alloc::Global;
use std::io;
use std::io::Write;

/// Writes the page of a schedule.
///
/// # Errors
///
/// The errors of the writer, and `OutOfMemory`.
pub fn draw_page<W: Write>(
    alloc: Global,
    out: &mut W,
    recording: &Recording,
    drawing: Drawing<'_>,
) -> io::Result<()> {
    let own = title_of(alloc, recording)?;
    let title = drawing.title.unwrap_or(own.as_str());
    out.write_all(b"<!doctype html>\n<html lang=\"en\">\n<head>\n<meta charset=\"utf-8\">\n")?;
    out.write_all(
        b"<meta name=\"viewport\" content=\"width=device-width,initial-scale=1\">\n<title>",
    )?;
    put_text(out, title.as_bytes())?;
    out.write_all(b"</title>\n")?;
    out.write_all(STYLE.as_bytes())?;
    out.write_all(b"</head>\n")?;
    out.write_all(body_of(recording.kind))?;
    out.write_all(b"<div id=\"picture\" tabindex=\"0\">\n")?;
    draw(
        alloc,
        out,
        recording,
        Drawing {
            is_for_page: true,
            ..drawing
        },
    )?;
    out.write_all(b"</div>\n")?;
    put_controls(out, recording)?;
    put_steps(alloc, out, recording)?;
    out.write_all(SCRIPT.as_bytes())?;
    out.write_all(b"</body>\n</html>\n")
}

/// Returns the tag that begins the body. A page of turns opens at the last one, where the program has gone
/// wrong.
fn body_of(kind: ColumnKind) -> &'static [u8] {
    match kind {
        ColumnKind::Line => b"<body>\n",
        ColumnKind::Turn => b"<body data-opens=\"last\">\n",
    }
}

/// Writes the slider and the buttons, which wait for the script.
fn put_controls<W: Write>(out: &mut W, recording: &Recording) -> io::Result<()> {
    let last = recording.columns.len().saturating_sub(1);
    let unit = unit_word(recording.kind);
    writeln!(
        out,
        "<form id=\"controls\" hidden>
<button type=\"button\" id=\"back\" aria-label=\"the {unit} before\">&#9664;</button>
<input type=\"range\" id=\"slider\" min=\"0\" max=\"{last}\" value=\"0\" aria-label=\"{unit}\">
<button type=\"button\" id=\"on\" aria-label=\"the next {unit}\">&#9654;</button>
<output id=\"place\"></output>
</form>"
    )
}

/// Writes the sections of all columns.
fn put_steps<W: Write>(alloc: Global, out: &mut W, recording: &Recording) -> io::Result<()> {
    out.write_all(b"<div id=\"steps\" aria-live=\"polite\">\n")?;
    for (at, column) in recording.columns.iter().enumerate() {
        put_step(alloc, out, recording, column, at)?;
    }
    out.write_all(b"</div>\n")
}
