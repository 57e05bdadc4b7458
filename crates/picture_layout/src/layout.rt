//! Where things are on a picture.
//!
//! A width is that of the whole picture, at which letters keep their size. In 84 millimetres there is
//! room for fourteen columns of a schedule with one lock; further columns are in a panel below. The
//! least width is 60 millimetres, for labels and four columns.

use lot_picture::{Column, Recording};
use std::alloc::{AllocError, Global};
use std::fmt;
use std::ops::Add;

/// The greatest number of columns side by side, where no width is asked for.
const WIDEST: usize = 50;

/// The least number of them in a picture of a given width.
const NARROWEST: usize = 4;

pub const MARGIN: Pixels = Pixels(12);

pub const COLUMN: Pixels = Pixels(16);

pub const LANE: Pixels = Pixels(20);
/// Half a lane, where a thread has a right and is in a call.
pub const HALF: Pixels = Pixels(10);
/// Half a column.
pub const MIDDLE: Pixels = Pixels(8);
/// The room above a thread's lanes, which marks the thread that takes a step.
pub const GAP: Pixels = Pixels(10);

/// The room of a line of the title.
pub const TITLE: Pixels = Pixels(18);
/// The room of the numbers of columns.
pub const NUMBERS: Pixels = Pixels(10);
/// The room between panels, and above the legend.
pub const APART: Pixels = Pixels(18);

/// A length, which stays at the greatest one where a sum would pass it.
#[derive(Clone, Copy, Debug, PartialEq, Eq, PartialOrd, Ord)]
pub struct Pixels(pub u64);

impl Pixels {
    pub fn times(self, count: usize) -> Pixels {
        Pixels(self.0.saturating_mul(count as u64))
    }

    /// Returns this without another length, or 0 where that is longer.
    pub fn less(self, other: Pixels) -> Pixels {
        Pixels(self.0.saturating_sub(other.0))
    }

    /// Returns how many letters fit on this length, each of this many tenths of a pixel.
    pub fn letters(self, tenths: u64) -> usize {
        (self.0.saturating_mul(10) / tenths.max(1)) as usize
    }

    /// Returns how wide a text of so many letters is, each of this many tenths of a pixel.
    pub fn of_text(letters: usize, tenths: u64) -> Pixels {
        Pixels((letters as u64).saturating_mul(tenths) / 10)
    }
}

impl Add for Pixels {
    type Output = Pixels;

    fn add(self, other: Pixels) -> Pixels {
        Pixels(self.0.saturating_add(other.0))
    }
}

impl fmt::Display for Pixels {
    fn fmt<W: fmt::Write>(&self, f: &mut fmt::Formatter<W>) -> fmt::Result {
        let pixels = self.0;
        write!(f, "{pixels}")
    }
}

/// Columns side by side.
#[derive(Clone, Copy)]
pub struct Panel {
    pub from: usize,
    pub len: usize,
}

impl Panel {
    /// Returns its columns.
    pub fn columns(self, recording: &Recording) -> &[Column] {
        let columns = recording.columns.as_slice();
        let from = self.from.min(columns.len());
        let after = &columns[from..];
        &after[..self.len.min(after.len())]
    }
}

/// Equal values in columns of a panel that follow each other.
#[derive(Clone, Copy)]
pub struct Run<T> {
    pub start: usize,
    pub len: usize,
    pub value: T,
}

/// Returns the runs of some values in a panel.
pub fn runs<T: Copy + PartialEq + Drop>(
    alloc: Global,
    values: &[T],
    panel: Panel,
) -> Result<Vec<Run<T>>, AllocError> {
    let mut runs = Vec::<Run<T>>::new(alloc);
    for (start, value) in values.iter().skip(panel.from).take(panel.len).enumerate() {
        match runs.last_mut() {
            Some(last) if last.value == *value => last.len = last.len.saturating_add(1),
            _ => runs.push(Run {
                start,
                len: 1,
                value: *value,
            })?,
        }
    }
    Ok(runs)
}

/// The measures of a picture.
#[derive(Clone, Copy)]
pub struct Layout {
    /// How many panels there are, and how many columns each has, the last perhaps fewer.
    pub panels: usize,
    pub columns: usize,
    /// Whether each lane bears the name of its lock.
    pub names_lanes: bool,
    /// Where the columns begin.
    pub left: Pixels,
}

impl Layout {
    /// Returns the measures of a picture, at most so wide if a width is given.
    pub fn of(recording: &Recording, width: Option<Pixels>) -> Layout {
        let names_lanes = recording.names.len() > 1;
        let left = MARGIN + room_of_labels(recording, names_lanes);
        let widest = match width {
            Some(width) => (width.less(left + MARGIN).0 / COLUMN.0).max(NARROWEST as u64) as usize,
            None => WIDEST,
        };
        let panels = recording.columns.len().div_ceil(widest.max(1)).max(1);
        Layout {
            panels,
            columns: recording.columns.len().div_ceil(panels),
            names_lanes,
            left,
        }
    }

    pub fn panel(&self, number: usize, recording: &Recording) -> Panel {
        let from = number.saturating_mul(self.columns);
        Panel {
            from,
            len: recording
                .columns
                .len()
                .saturating_sub(from)
                .min(self.columns),
        }
    }

    /// Returns where the names of lanes end.
    pub fn name_end(&self) -> Pixels {
        self.left.less(Pixels(4))
    }

    /// Returns where a column of a panel begins.
    pub fn column(&self, at: usize) -> Pixels {
        self.left + COLUMN.times(at)
    }
}

/// Returns the room of what is written before the columns.
fn room_of_labels(recording: &Recording, names_lanes: bool) -> Pixels {
    let name = longest_name(recording);
    let labels = if names_lanes {
        Pixels(62) + Pixels::of_text(name, 60)
    } else {
        Pixels(58)
    };
    labels
        .max(Pixels::of_text(name.saturating_add(9), 56))
        .max(room_of_threads(recording, names_lanes))
}

/// Returns the room of the names of threads, beside those of lanes.
fn room_of_threads(recording: &Recording, names_lanes: bool) -> Pixels {
    let mut longest = 0;
    for name in &recording.thread_names {
        longest = name.len().max(longest);
    }
    let lanes = if names_lanes {
        Pixels::of_text(longest_name(recording), 60)
    } else {
        Pixels(0)
    };
    Pixels::of_text(longest, 56) + lanes + Pixels(10)
}

fn longest_name(recording: &Recording) -> usize {
    let mut longest = 0;
    for row in &recording.rows {
        longest = row.name.text().len().max(longest);
    }
    for row in &recording.variables {
        longest = row.name.text().len().max(longest);
    }
    longest
}

/// Returns how high the lanes of a thread are, with the gap above them.
pub fn height_of_thread(recording: &Recording, thread: usize) -> Pixels {
    GAP + LANE.times(recording.lanes_of(thread).len().max(1))
}

/// Returns how high the lanes of a panel are, with the gaps above them.
pub fn height_of_lanes(recording: &Recording) -> Pixels {
    let mut height = Pixels(0);
    for thread in &recording.actors {
        height = height + height_of_thread(recording, *thread);
    }
    height
}

/// Returns how far the lane of a thread and a lock is below the top of all lanes.
pub fn lane_below(recording: &Recording, thread: usize, lock: usize) -> Option<Pixels> {
    let mut top = Pixels(0);
    for actor in &recording.actors {
        if *actor == thread {
            let at = recording
                .lanes_of(thread)
                .iter()
                .position(|lane| lane.lock == lock)?;
            return Some(top + GAP + LANE.times(at));
        }
        top = top + height_of_thread(recording, *actor);
    }
    None
}
