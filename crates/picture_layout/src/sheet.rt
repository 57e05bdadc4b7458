//! A picture before it is written: what it shows, and where.

use crate::headings::headings_of;
use crate::layout::{APART, Layout, MARGIN, NUMBERS, Panel, Pixels, TITLE, height_of_lanes};
use crate::lengths::Length;
use crate::rows::{TextRow, height_of_rows, keys_of, rows_of};
use crate::titles::{title_of, wrapped};
use lot_picture::Recording;
use std::alloc::{AllocError, Global};

/// The least width, so that the legend has room.
const NARROWEST: Pixels = Pixels(420);

/// The room of a line of keys.
pub const KEY: Pixels = Pixels(12);

/// A picture before it is written.
#[derive(Drop)]
pub struct Sheet<'a> {
    pub recording: &'a Recording,
    pub layout: Layout,
    pub title: Vec<String>,
    /// What is written above each column.
    pub headings: Vec<String>,
    pub rows: Vec<TextRow>,
    /// The lines that say what numbers in the rows mean.
    pub keys: Vec<String>,
    pub width: Pixels,
}

impl<'a> Sheet<'a> {
    /// Returns the picture of a recording, with a title of its own, so wide, if these are given.
    pub fn new(
        alloc: Global,
        recording: &'a Recording,
        title: Option<&str>,
        width: Option<Length>,
    ) -> Result<Sheet<'a>, AllocError> {
        let given = width.map(|width| width.pixels());
        let layout = Layout::of(recording, given);
        let natural = layout.column(layout.columns) + MARGIN;
        let width = match given {
            Some(given) => natural.max(given),
            None => natural.max(NARROWEST),
        };
        let own = title_of(alloc, recording)?;
        let inner = width.less(MARGIN + MARGIN);
        let rows = rows_of(alloc, recording, &layout)?;
        Ok(Sheet {
            recording,
            layout,
            title: wrapped(alloc, title.unwrap_or(own.as_str()), inner.letters(75))?,
            headings: headings_of(alloc, recording)?,
            keys: keys_of(alloc, rows.as_slice(), inner.letters(49))?,
            rows,
            width,
        })
    }

    /// Returns where the first panel begins.
    pub fn top(&self) -> Pixels {
        MARGIN + TITLE.times(self.title.len().max(1)) + Pixels(8)
    }

    /// Returns how high the headings of a panel are.
    pub fn height_of_headings(&self, panel: Panel) -> Pixels {
        let mut longest = 0;
        for at in panel.from..panel.from.saturating_add(panel.len) {
            longest = self.letters_above(at).max(longest);
        }
        Pixels(6) + Pixels::of_text(longest, 56)
    }

    /// Returns how many letters are written above a column, with what its line answers.
    fn letters_above(&self, at: usize) -> usize {
        let heading = match self.headings.get(at) {
            Some(heading) => heading.len(),
            None => 0,
        };
        match self.recording.columns.get(at) {
            Some(column) if !column.said.is_empty() => heading
                .saturating_add(column.said.len())
                .saturating_add(2),
            _ => heading,
        }
    }

    /// Returns where the lanes of a panel begin that begins here.
    pub fn lanes_top(&self, panel: Panel, top: Pixels) -> Pixels {
        top + self.height_of_headings(panel) + NUMBERS
    }

    /// Returns where the panel ends that begins here.
    pub fn panel_end(&self, panel: Panel, top: Pixels) -> Pixels {
        self.lanes_top(panel, top)
            + height_of_lanes(self.recording)
            + height_of_rows(self.rows.as_slice())
    }

    /// Returns where the panel after this one begins, or the legend.
    pub fn next_top(&self, panel: Panel, top: Pixels) -> Pixels {
        self.panel_end(panel, top) + APART
    }

    /// Returns where the keys begin.
    pub fn keys_top(&self) -> Pixels {
        let mut top = self.top();
        for number in 0..self.layout.panels {
            top = self.next_top(self.layout.panel(number, self.recording), top);
        }
        top
    }

    /// Returns where the legend begins.
    pub fn legend_top(&self) -> Pixels {
        let above = if self.keys.is_empty() { Pixels(0) } else { KEY };
        self.keys_top() + KEY.times(self.keys.len()) + above
    }
}
