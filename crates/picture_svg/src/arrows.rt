//! Arrows, from the thread that takes a step to the threads that it wakes, moves, or hands a lock.

use lot_picture::{Column, Effect, Event, Recording};
use picture_layout::Sheet;
use picture_layout::layout::{HALF, LANE, Panel, Pixels, lane_below};
use std::io;
use std::io::Write;

/// How an arrow looks: the class of its shaft and of its head.
#[derive(Clone, Copy)]
pub struct Arrow {
    pub shaft: &'static str,
    pub head: &'static str,
    pub means: &'static str,
}

/// Returns how the arrow of an effect looks. A taken thread has none.
pub fn arrow_of(effect: Effect) -> Option<Arrow> {
    match effect {
        Effect::Wakes => Some(Arrow {
            shaft: "shaft",
            head: "head",
            means: "wakes",
        }),
        Effect::HandsOver => Some(Arrow {
            shaft: "shaft double",
            head: "head",
            means: "hands the lock over to",
        }),
        Effect::Moves => Some(Arrow {
            shaft: "shaft dashed",
            head: "head hollow",
            means: "moves to this lock's queue",
        }),
        Effect::Takes => None,
    }
}

/// Writes the arrows of a panel, whose lanes begin here.
pub fn draw_arrows<W: Write>(
    out: &mut W,
    sheet: &Sheet<'_>,
    panel: Panel,
    top: Pixels,
) -> io::Result<()> {
    for (at, column) in panel.columns(sheet.recording).iter().enumerate() {
        draw_events(out, sheet.recording, column, sheet.layout.column(at), top)?;
    }
    Ok(())
}

/// Writes the arrows of a column.
fn draw_events<W: Write>(
    out: &mut W,
    recording: &Recording,
    column: &Column,
    x: Pixels,
    top: Pixels,
) -> io::Result<()> {
    for event in column.events.iter() {
        if let Some(arrow) = arrow_of(event.effect) {
            if let Some((from, to)) = ends_of(recording, column, *event) {
                draw_upright(out, arrow, x, top + from, top + to)?;
            }
        }
    }
    Ok(())
}

/// Returns where an arrow begins and ends, below the top of all lanes. It has no ends where one of
/// its threads isn't shown.
fn ends_of(recording: &Recording, column: &Column, event: Event) -> Option<(Pixels, Pixels)> {
    let to = lane_below(recording, event.thread, event.lock)?;
    let thread = column.thread?;
    let own = match lane_below(recording, thread, event.lock) {
        Some(own) => own,
        None => lane_below(recording, thread, recording.lanes_of(thread).first()?.lock)?,
    };
    if own < to {
        Some((own + HALF, to))
    } else {
        Some((own + HALF, to + LANE))
    }
}

/// Writes an arrow from one height to another.
fn draw_upright<W: Write>(
    out: &mut W,
    arrow: Arrow,
    x: Pixels,
    from: Pixels,
    to: Pixels,
) -> io::Result<()> {
    let path = if from < to {
        let end = to.less(Pixels(6));
        draw_shaft(out, arrow, x, from, x, end)?;
        "l-4 -7h8z"
    } else {
        draw_shaft(out, arrow, x, from, x, to + Pixels(6))?;
        "l-4 7h8z"
    };
    let head = arrow.head;
    writeln!(out, "<path class=\"{head}\" d=\"M{x} {to}{path}\"/>")?;
    writeln!(
        out,
        "<circle class=\"origin\" cx=\"{x}\" cy=\"{from}\" r=\"2.2\"/>"
    )
}

/// Writes the shaft of an arrow. A double one is a light line on a broad dark one.
fn draw_shaft<W: Write>(
    out: &mut W,
    arrow: Arrow,
    x: Pixels,
    y: Pixels,
    to_x: Pixels,
    to_y: Pixels,
) -> io::Result<()> {
    let shaft = arrow.shaft;
    let path = "<path class=\"";
    writeln!(out, "{path}halo\" d=\"M{x} {y}L{to_x} {to_y}\"/>")?;
    writeln!(out, "{path}{shaft}\" d=\"M{x} {y}L{to_x} {to_y}\"/>")?;
    if shaft == "shaft double" {
        writeln!(out, "{path}core\" d=\"M{x} {y}L{to_x} {to_y}\"/>")?;
    }
    Ok(())
}

/// Writes an arrow of the legend, which begins here.
pub fn draw_lying<W: Write>(out: &mut W, arrow: Arrow, x: Pixels, y: Pixels) -> io::Result<()> {
    let tip = x + Pixels(17);
    draw_shaft(out, arrow, x, y, tip.less(Pixels(6)), y)?;
    let head = arrow.head;
    writeln!(out, "<path class=\"{head}\" d=\"M{tip} {y}l-7 -4v8z\"/>")
}
