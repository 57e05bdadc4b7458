//! The legend, which says what cells and arrows mean.

use crate::arrows::{arrow_of, draw_lying};
use crate::looks::{Look, look_of_deed, look_of_right};
use crate::shapes::{Area, put_letter, put_marker, put_rect};
use lot_picture::{Cell, Deed, Effect, Recording};
use lot_world::Owner;
use picture_layout::layout::{MARGIN, Pixels};
use std::io;
use std::io::Write;

/// The room of a line of the legend.
pub const LEGEND_LINE: Pixels = Pixels(18);

/// An entry of the legend.
#[derive(Clone, Copy)]
enum Entry {
    Right(Owner),
    Deed(Deed),
    Inside,
    Step,
    NoStep,
    Effect(Effect),
    Again,
}

/// All entries, in their order.
const ENTRIES: [Entry; 18] = [
    Entry::Step,
    Entry::NoStep,
    Entry::Again,
    Entry::Effect(Effect::Wakes),
    Entry::Effect(Effect::HandsOver),
    Entry::Effect(Effect::Moves),
    Entry::Right(Owner::Exclusive),
    Entry::Right(Owner::Pending),
    Entry::Right(Owner::Upgradable),
    Entry::Right(Owner::Shared),
    Entry::Right(Owner::Running),
    Entry::Deed(Deed::Calls),
    Entry::Deed(Deed::Waits),
    Entry::Deed(Deed::WaitsAside),
    Entry::Deed(Deed::Taken),
    Entry::Deed(Deed::Retries),
    Entry::Deed(Deed::Owes),
    Entry::Inside,
];

impl Entry {
    /// Returns what the entry says.
    fn means(self) -> &'static str {
        match self {
            Entry::Right(right) => look_of_right(right).means,
            Entry::Deed(deed) => look_of_deed(deed).means,
            Entry::Inside => "is inside a section",
            Entry::Step => "takes the step",
            Entry::NoStep => "can't take it now",
            Entry::Again => "comes again and again",
            Entry::Effect(effect) => match arrow_of(effect) {
                Some(arrow) => arrow.means,
                None => "takes off the queue",
            },
        }
    }

    /// Tells whether the picture has what the entry explains.
    fn occurs(self, recording: &Recording) -> bool {
        match self {
            Entry::Step => some_column(recording, true),
            Entry::NoStep => some_column(recording, false),
            Entry::Again => recording.again.is_some(),
            Entry::Effect(effect) => some_event(recording, effect),
            Entry::Right(_) | Entry::Deed(_) | Entry::Inside => recording
                .lanes
                .iter()
                .any(|lane| lane.cells.iter().any(|cell| self.is_of(*cell))),
        }
    }

    fn is_of(self, cell: Cell) -> bool {
        match self {
            Entry::Right(right) => cell.right == Some(right),
            Entry::Deed(deed) => cell.deed == Some(deed),
            Entry::Inside => cell.is_inside,
            Entry::Step | Entry::NoStep | Entry::Again | Entry::Effect(_) => false,
        }
    }
}

fn some_column(recording: &Recording, is_taken: bool) -> bool {
    recording.columns.iter().any(|column| column.thread.is_some() && column.is_taken == is_taken)
}

fn some_event(recording: &Recording, effect: Effect) -> bool {
    recording.columns.iter().any(|column| column.events.iter().any(|event| event.effect == effect))
}

/// The place of the next entry.
#[derive(Clone, Copy)]
pub struct Spot {
    x: Pixels,
    y: Pixels,
    width: Pixels,
}

impl Spot {
    pub fn new(y: Pixels, width: Pixels) -> Spot {
        Spot {
            x: MARGIN,
            y,
            width,
        }
    }

    /// Returns the spot of an entry, and moves after it.
    fn take(&mut self, entry: Entry) -> Spot {
        let room = Pixels(38) + Pixels::of_text(entry.means().len(), 52);
        if self.x > MARGIN && self.x + room > self.width {
            self.x = MARGIN;
            self.y = self.y + LEGEND_LINE;
        }
        let spot = *self;
        self.x = self.x + room;
        spot
    }

    /// Returns the bottom of the lines so far.
    fn bottom(&self) -> Pixels {
        self.y + LEGEND_LINE
    }
}

/// Returns the bottom of the legend.
pub fn legend_bottom(recording: &Recording, from: Spot) -> Pixels {
    let mut spot = from;
    for entry in ENTRIES {
        if entry.occurs(recording) {
            spot.take(entry);
        }
    }
    spot.bottom()
}

/// Writes the legend.
pub fn draw_legend<W: Write>(out: &mut W, recording: &Recording, from: Spot) -> io::Result<()> {
    let mut spot = from;
    for entry in ENTRIES {
        if entry.occurs(recording) {
            draw_entry(out, entry, spot.take(entry))?;
        }
    }
    Ok(())
}

fn draw_entry<W: Write>(out: &mut W, entry: Entry, spot: Spot) -> io::Result<()> {
    draw_sign(out, entry, spot.x, spot.y)?;
    let (x, base, means) = (spot.x + Pixels(21), spot.y + Pixels(10), entry.means());
    writeln!(out, "<text x=\"{x}\" y=\"{base}\">{means}</text>")
}

/// Writes what an entry explains.
fn draw_sign<W: Write>(out: &mut W, entry: Entry, x: Pixels, y: Pixels) -> io::Result<()> {
    match entry {
        Entry::Right(right) => draw_swatch(out, look_of_right(right), x, y),
        Entry::Deed(deed) => draw_swatch(out, look_of_deed(deed), x, y),
        Entry::Inside => draw_inside(out, swatch(x, y)),
        Entry::Step => put_marker(out, x + Pixels(8), y + Pixels(9), true),
        Entry::NoStep => put_marker(out, x + Pixels(8), y + Pixels(9), false),
        Entry::Again => put_rect(out, "inside", swatch(x, y).bar(Pixels(5))),
        Entry::Effect(effect) => match arrow_of(effect) {
            Some(arrow) => draw_lying(out, arrow, x, y + Pixels(7)),
            None => Ok(()),
        },
    }
}

fn swatch(x: Pixels, y: Pixels) -> Area {
    Area {
        x,
        y,
        width: Pixels(16),
        height: Pixels(13),
    }
}

fn draw_inside<W: Write>(out: &mut W, area: Area) -> io::Result<()> {
    put_rect(out, "empty", area)?;
    put_rect(out, "inside", area.bar(Pixels(10)))
}

/// Writes a cell of the legend.
fn draw_swatch<W: Write>(out: &mut W, look: Look, x: Pixels, y: Pixels) -> io::Result<()> {
    let area = swatch(x, y);
    put_rect(out, look.class, area)?;
    put_letter(
        out,
        look,
        x,
        Area {
            y: Pixels(y.0.saturating_sub(3)),
            ..area
        },
    )
}
