//! Rows of text below the lanes: the words of locks, their queues, and variables.

use crate::layout::{COLUMN, Layout, Panel, Pixels, runs};
use crate::titles::{push_bytes, wrapped};
use crate::words::{text_of_queue, text_of_word};
use lot_picture::{LockRow, Recording, VariableRow};
use lot_text::Name;
use std::alloc::{AllocError, Global};

/// The room of a row whose texts lie.
const LYING: Pixels = Pixels(15);

/// The room above all rows.
pub const ABOVE: Pixels = Pixels(10);

/// A row of texts, each printed where it changes.
#[derive(Drop)]
pub struct TextRow {
    pub name: String,
    /// The texts, of which no two that follow each other are equal.
    texts: Vec<String>,
    /// Which of them each column has.
    pub at: Vec<usize>,
    pub height: Pixels,
    /// Which of them are cut short somewhere.
    cut: Vec<usize>,
}

impl TextRow {
    fn new(alloc: Global, what: &str, named: Name) -> Result<TextRow, AllocError> {
        let mut name = String::from_str(alloc, what)?;
        push_bytes(&mut name, named.text())?;
        Ok(TextRow {
            name,
            texts: Vec::new(alloc),
            at: Vec::new(alloc),
            height: LYING,
            cut: Vec::new(alloc),
        })
    }

    /// Adds the text of a column.
    fn push(&mut self, text: String) -> Result<(), AllocError> {
        let is_new = match self.texts.last() {
            Some(last) => last.as_str() != text.as_str(),
            None => true,
        };
        if is_new {
            self.texts.push(text)?;
        }
        self.at.push(self.texts.len().saturating_sub(1))?;
        Ok(())
    }

    /// Returns the text of a number that a column has.
    pub fn text(&self, number: usize) -> &str {
        match self.texts.get(number) {
            Some(text) => text.as_str(),
            None => "",
        }
    }

    /// Tells whether no column has a text.
    fn is_empty(&self) -> bool {
        self.texts.iter().all(|text| text.is_empty())
    }

    /// Makes the row so high that each text fits, and notes which are cut short.
    fn measure(
        &mut self,
        alloc: Global,
        recording: &Recording,
        layout: &Layout,
    ) -> Result<(), AllocError> {
        for number in 0..layout.panels {
            self.measure_in(alloc, layout.panel(number, recording))?;
        }
        Ok(())
    }

    fn measure_in(&mut self, alloc: Global, panel: Panel) -> Result<(), AllocError> {
        for run in &runs(alloc, self.at.as_slice(), panel)? {
            let width = COLUMN.times(run.len);
            let whole = self.text(run.value);
            let text = fitting(whole, width);
            let (room, is_cut) = (room_of(text), text.len() < whole.len());
            if room > width {
                self.height = self.height.max(room);
            }
            if is_cut {
                self.cut.push(run.value)?;
            }
        }
        Ok(())
    }

    /// Returns the texts that are cut short, each once, with the name of the row, or nothing.
    fn key(&self, alloc: Global) -> Result<String, AllocError> {
        let mut key = String::new(alloc);
        for (at, number) in self.cut.iter().enumerate() {
            let text = self.text(*number);
            if !self.has_cut(at, text) {
                push_key(&mut key, self.name.as_str(), text)?;
            }
        }
        Ok(key)
    }

    /// Tells whether one of the first texts that are cut short is this text.
    fn has_cut(&self, first: usize, text: &str) -> bool {
        self.cut
            .iter()
            .take(first)
            .any(|number| self.text(*number) == text)
    }
}

/// Adds a text to a key, after the name of the row or after other texts.
fn push_key(key: &mut String, name: &str, text: &str) -> Result<(), AllocError> {
    let Some((number, means)) = text.split_once(": ") else {
        return Ok(());
    };
    if key.is_empty() {
        write!(key, "{name}: ")?;
    } else {
        key.push_str(", ")?;
    }
    write!(key, "{number}={means}")
}

/// Returns how long a text is, with the room about it.
pub fn room_of(text: &str) -> Pixels {
    Pixels(5) + Pixels::of_text(text.len(), 49)
}

/// Returns a text, or what is before its colon where that is all that such a width has room for.
pub fn fitting(text: &str, width: Pixels) -> &str {
    match text.split_once(':') {
        Some((number, _)) if room_of(text) > width => number,
        _ => text,
    }
}

/// Returns the rows of all variables, and of all locks, of a queue only where somebody waits.
pub fn rows_of(
    alloc: Global,
    recording: &Recording,
    layout: &Layout,
) -> Result<Vec<TextRow>, AllocError> {
    let mut rows = numbers_of(alloc, recording, layout)?;
    for row in recording.rows.iter() {
        let mut words = words_of(alloc, recording, row)?;
        words.measure(alloc, recording, layout)?;
        rows.push(words)?;
        let mut queues = queues_of(alloc, row)?;
        if !queues.is_empty() {
            queues.measure(alloc, recording, layout)?;
            rows.push(queues)?;
        }
    }
    Ok(rows)
}

fn numbers_of(
    alloc: Global,
    recording: &Recording,
    layout: &Layout,
) -> Result<Vec<TextRow>, AllocError> {
    let mut rows = Vec::new(alloc);
    for row in recording.variables.iter() {
        let mut numbers = numbers_in(alloc, row)?;
        numbers.measure(alloc, recording, layout)?;
        rows.push(numbers)?;
    }
    Ok(rows)
}

fn numbers_in(alloc: Global, row: &VariableRow) -> Result<TextRow, AllocError> {
    let mut numbers = TextRow::new(alloc, "", row.name)?;
    if let Some(owner) = row.owner {
        let of = format!(in alloc; " of {owner}")?;
        numbers.name.push_str(of.as_str())?;
    }
    for number in row.numbers.iter() {
        numbers.push(format!(in alloc; "{number}")?)?;
    }
    Ok(numbers)
}

fn words_of(alloc: Global, recording: &Recording, row: &LockRow) -> Result<TextRow, AllocError> {
    let mut words = TextRow::new(alloc, "word of ", row.name)?;
    for word in row.words.iter() {
        words.push(text_of_word(alloc, recording, row.kind, *word)?)?;
    }
    Ok(words)
}

fn queues_of(alloc: Global, row: &LockRow) -> Result<TextRow, AllocError> {
    let mut queues = TextRow::new(alloc, "queue of ", row.name)?;
    for queue in row.queues.iter() {
        queues.push(text_of_queue(alloc, row, queue.as_slice())?)?;
    }
    Ok(queues)
}

/// Returns the lines that say what numbers mean which stand for longer texts.
pub fn keys_of(alloc: Global, rows: &[TextRow], letters: usize) -> Result<Vec<String>, AllocError> {
    let mut keys = Vec::new(alloc);
    for row in rows {
        let key = row.key(alloc)?;
        if !key.is_empty() {
            keys.append(&mut wrapped(alloc, key.as_str(), letters)?)?;
        }
    }
    Ok(keys)
}

/// Returns how high the rows are.
pub fn height_of_rows(rows: &[TextRow]) -> Pixels {
    let mut height = ABOVE;
    for row in rows {
        height = height + row.height;
    }
    height
}
