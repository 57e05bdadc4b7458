//! A program's text, as lines are left out of it.
use crate::lines::{Line, LineSort, bit_of};
use state_search::NoRoom;
use std::alloc::{AllocError, Global};

/// The lines that are left of a text.
#[derive(Drop)]
pub(crate) struct Draft<'t> {
    pub lines: Vec<Line<'t>>,
}

impl<'t> Draft<'t> {
    /// Begins with all lines of a text that have more than a comment.
    ///
    /// # Errors
    ///
    /// `NoRoom`, where memory was refused.
    pub fn of(alloc: Global, text: &'t str) -> Result<Draft<'t>, NoRoom> {
        let mut lines = Vec::new(alloc);
        let mut number: u32 = 0;
        for line in text.split('\n') {
            number = number.wrapping_add(1);
            if let Some(line) = Line::new(number, line) {
                lines.push(line).map_err(|_| NoRoom)?;
            }
        }
        Ok(Draft { lines })
    }

    /// Returns a copy.
    ///
    /// # Errors
    ///
    /// `NoRoom`, where memory was refused.
    pub fn copy(&self, alloc: Global) -> Result<Draft<'t>, NoRoom> {
        match Vec::from_slice(alloc, self.lines.as_slice()) {
            Ok(lines) => Ok(Draft { lines }),
            Err(_) => Err(NoRoom),
        }
    }

    /// Returns a line, if it is there.
    pub fn line(&self, at: usize) -> Option<Line<'t>> {
        self.lines.get(at).copied()
    }

    /// Returns the number that a line of this text has in the whole text. Lines count from 1.
    pub fn number(&self, line: u32) -> u32 {
        match self.line((line as usize).saturating_sub(1)) {
            Some(line) => line.number,
            None => 0,
        }
    }

    /// Returns the place of the last line of the block that a line begins.
    pub fn close_of(&self, open: usize) -> Option<usize> {
        let mut depth: usize = 0;
        for (at, line) in self.lines.iter().enumerate().skip(open) {
            if line.ends_section() {
                return None;
            }
            if line.opens() {
                depth = depth.wrapping_add(1);
            }
            if line.sort == LineSort::Closes {
                depth = depth.saturating_sub(1);
                if depth == 0 {
                    return Some(at);
                }
            }
        }
        None
    }

    /// Removes the lines from one on and before another.
    pub fn cut(&mut self, from: usize, end: usize) {
        for _ in from..end {
            self.remove(from);
        }
    }

    /// Removes a line.
    pub fn remove(&mut self, at: usize) {
        if at < self.lines.len() {
            self.lines.remove(at);
        }
    }

    /// Gives a line another sort, as one of fewer threads.
    pub fn put(&mut self, at: usize, sort: LineSort) {
        if let Some(line) = self.lines.get_mut(at) {
            line.sort = sort;
        }
    }

    /// Returns the text of the lines, or none where a line that is left names one that isn't.
    ///
    /// # Errors
    ///
    /// `AllocError`, where memory was refused.
    pub fn text(&self, alloc: Global) -> Result<Option<String>, AllocError> {
        let mut text = String::new(alloc);
        for line in self.lines.iter() {
            match line.sort {
                LineSort::Threads { runners } => push_threads(&mut text, runners)?,
                LineSort::Repeats { times } => push_repeat(&mut text, line, times)?,
                LineSort::Never => {
                    if !self.push_never(&mut text, line)? {
                        return Ok(None);
                    }
                }
                _ => text.push_str(line.text)?,
            }
            text.push('\n')?;
        }
        Ok(Some(text))
    }

    // Adds a line `never T at LINE U at LINE`, and answers whether its lines are left.
    fn push_never(&self, text: &mut String, line: &Line<'t>) -> Result<bool, AllocError> {
        text.push_str("never")?;
        let mut is_place = false;
        for word in line.text.split_whitespace().skip(1) {
            text.push(' ')?;
            if !is_place {
                text.push_str(word)?;
            } else if let Some(place) = self.place(word) {
                push_number(text, place)?;
            } else {
                return Ok(false);
            }
            is_place = word == "at";
        }
        Ok(true)
    }

    // Returns the number here of a line that has this number in the whole text.
    fn place(&self, word: &str) -> Option<u32> {
        let number = word.parse::<u32>().ok()?;
        let at = self.lines.iter().position(|line| line.number == number)?;
        u32::try_from(at.saturating_add(1)).ok()
    }
}

fn push_threads(text: &mut String, runners: u8) -> Result<(), AllocError> {
    text.push_str("thread")?;
    for thread in 0..8u32 {
        if runners & bit_of(thread) != 0 {
            text.push(' ')?;
            push_number(text, thread)?;
        }
    }
    Ok(())
}

fn push_repeat(text: &mut String, line: &Line<'_>, times: u32) -> Result<(), AllocError> {
    let spaces = line.text.len().saturating_sub(line.text.trim_start().len());
    for _ in 0..spaces {
        text.push(' ')?;
    }
    text.push_str("repeat ")?;
    push_number(text, times)
}

fn push_number(text: &mut String, number: u32) -> Result<(), AllocError> {
    let mut digits = [0u32; 10];
    let mut rest = number;
    for digit in digits.iter_mut() {
        *digit = rest % 10;
        rest /= 10;
    }
    let mut is_begun = false;
    for (at, digit) in digits.iter().enumerate().rev() {
        is_begun = is_begun || *digit != 0 || at == 0;
        if is_begun {
            text.push(char::from_digit(*digit, 10).unwrap_or('0'))?;
        }
    }
    Ok(())
}
