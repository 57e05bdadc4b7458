//! What is said under the answers of a replay.
use crate::failure::Failure;
use std::alloc::Global;
use std::io;
use std::io::Write;

/// A note ends at a byte of the notes, and comes after so many bytes of the answers.
#[derive(Clone, Copy, Drop)]
struct Note {
    answers: usize,
    end: usize,
}

/// What is said under the answers of a replay.
#[derive(Drop)]
pub struct Notes {
    text: Vec<u8>,
    notes: Vec<Note>,
}

impl Notes {
    pub(crate) fn new(alloc: Global) -> Notes {
        Notes {
            text: Vec::new(alloc),
            notes: Vec::new(alloc),
        }
    }

    /// Adds a note, after so many bytes of the answers.
    pub(crate) fn add(&mut self, answers: usize, note: &[u8]) -> Result<(), Failure> {
        if self.text.extend_from_slice(note).is_err() {
            return Err(Failure::NoMemory);
        }
        let end = self.text.len();
        if self.notes.push(Note { answers, end }).is_err() {
            return Err(Failure::NoMemory);
        }
        Ok(())
    }

    /// Writes answers, and each note after those that it is under.
    pub(crate) fn write<W: Write>(&self, out: &mut W, answers: &[u8]) -> io::Result<()> {
        let (mut written, mut noted) = (0, 0);
        for note in self.notes.iter() {
            out.write_all(part(answers, written, note.answers))?;
            out.write_all(part(self.text.as_slice(), noted, note.end))?;
            (written, noted) = (note.answers, note.end);
        }
        out.write_all(part(answers, written, answers.len()))
    }
}

fn part(bytes: &[u8], from: usize, to: usize) -> &[u8] {
    bytes.get(from..to).unwrap_or(b"")
}
