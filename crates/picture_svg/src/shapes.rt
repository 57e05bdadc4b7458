//! The shapes of a picture, each a line of SVG.
//!
//! A line of SVG is written by a function for its shape, since each `write!` is proved anew where it is
//! written.

use crate::looks::{Ground, Look};
use crate::texts::put_text;
use picture_layout::layout::{HALF, LANE, Pixels};
use std::io;
use std::io::Write;

/// How high the bar is that marks a thread inside a section.
const BAR: Pixels = Pixels(3);

/// A rectangle.
#[derive(Clone, Copy)]
pub struct Area {
    pub x: Pixels,
    pub y: Pixels,
    pub width: Pixels,
    pub height: Pixels,
}

impl Area {
    /// Returns the upper half.
    pub fn upper(self) -> Area {
        Area {
            height: HALF,
            ..self
        }
    }

    /// Returns what is half a lane below.
    pub fn lower(self) -> Area {
        Area {
            y: self.y + HALF,
            height: HALF,
            ..self
        }
    }

    /// Returns the bar along the foot, so far below the top.
    pub fn bar(self, below: Pixels) -> Area {
        Area {
            y: self.y + below,
            height: BAR,
            ..self
        }
    }
}

/// Writes a rectangle of a class.
pub fn put_rect<W: Write>(out: &mut W, class: &str, area: Area) -> io::Result<()> {
    let Area {
        x,
        y,
        width,
        height,
    } = area;
    writeln!(
        out,
        "<rect class=\"{class}\" x=\"{x}\" y=\"{y}\" width=\"{width}\" height=\"{height}\"/>"
    )
}

/// Writes a text of a class, whose base begins here.
pub fn put_label<W: Write>(
    out: &mut W,
    class: &str,
    x: Pixels,
    base: Pixels,
    text: &[u8],
) -> io::Result<()> {
    write!(out, "<text class=\"{class}\" x=\"{x}\" y=\"{base}\">")?;
    put_text(out, text)?;
    out.write_all(b"</text>\n")
}

/// Writes a text of a class that is upright, whose base ends here.
pub fn put_upright<W: Write>(
    out: &mut W,
    class: &str,
    x: Pixels,
    foot: Pixels,
    text: &[u8],
) -> io::Result<()> {
    write!(
        out,
        "<text class=\"{class}\" transform=\"translate({x} {foot}) rotate(-90)\" x=\"2\">"
    )?;
    put_text(out, text)?;
    out.write_all(b"</text>\n")
}

/// Writes the letter of a right or a deed into the cell that begins here.
pub fn put_letter<W: Write>(out: &mut W, look: Look, x: Pixels, area: Area) -> io::Result<()> {
    if look.letter.is_empty() {
        return Ok(());
    }
    let is_low = area.height < LANE.less(HALF) + Pixels(1);
    if look.ground == Ground::Hatched {
        put_rect(out, "backing", backing(x, area, is_low))?;
    }
    let size = if is_low { " small" } else { "" };
    let light = if look.ground == Ground::Dark {
        " light"
    } else {
        ""
    };
    let (letter, x) = (look.letter, x + Pixels(8));
    let base = area.y + if is_low { Pixels(7) } else { Pixels(13) };
    writeln!(
        out,
        "<text class=\"letter{size}{light}\" x=\"{x}\" y=\"{base}\">{letter}</text>"
    )
}

/// Returns the light ground of a letter on a hatch.
fn backing(x: Pixels, area: Area, is_low: bool) -> Area {
    Area {
        x: x + Pixels(4),
        y: area.y + if is_low { Pixels(1) } else { Pixels(4) },
        width: Pixels(8),
        height: if is_low { Pixels(8) } else { Pixels(12) },
    }
}

/// Writes the mark of a thread that takes a step, whose tip is here. One that can't take it has a
/// hollow mark.
pub fn put_marker<W: Write>(out: &mut W, x: Pixels, y: Pixels, is_taken: bool) -> io::Result<()> {
    let class = if is_taken { "mark" } else { "mark hollow" };
    writeln!(out, "<path class=\"{class}\" d=\"M{x} {y}l-4 -6h8z\"/>")
}
