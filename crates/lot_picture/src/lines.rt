//! The lines of a schedule, each answered by the replay's own state.

use arrayvec::ArrayVec;
use core_base::Queues;
use lot_replay::state::{Refusal, State};
use lot_text::{Command, LINE_LEN, Name, Page, Reading, meaning, read_line};
use lot_world::World;
use std::alloc::Global;
use std::io::BufRead;

/// Why there is no picture. Lines are counted from 1.
#[derive(Clone, Copy, Debug, PartialEq, Eq)]
pub enum Failure {
    /// A line has another form.
    Malformed(u64),
    /// Memory was refused at a line.
    NoMemory(u64),
    /// The schedule can't be read.
    Unread,
    /// Memory was refused for the picture.
    Undrawn,
    /// The picture can't be written.
    Unwritten,
}

/// A schedule that is replayed line by line.
#[derive(Drop)]
pub struct Lines<Q: Queues + Drop> {
    state: State<Q>,
    line: ArrayVec<u8, LINE_LEN>,
    number: u64,
    answer: Vec<u8>,
}

impl<Q: Queues + Drop> Lines<Q> {
    /// Returns the state before the first line.
    pub fn new(alloc: Global) -> Lines<Q> {
        Lines {
            state: State::new(),
            line: ArrayVec::new(),
            number: 0,
            answer: Vec::new(alloc),
        }
    }

    /// Reads the next line, and returns what it says, or None at the end.
    pub fn read<R: BufRead>(&mut self, reader: &mut R) -> Result<Option<Command>, Failure> {
        self.number = self.number.saturating_add(1);
        match read_line(reader, &mut self.line) {
            Reading::Line => {}
            Reading::TooLong => return Err(Failure::Malformed(self.number)),
            Reading::End => return Ok(None),
            Reading::Failed => return Err(Failure::Unread),
        }
        match meaning(self.line.as_slice()) {
            Some(command) => Ok(Some(command)),
            None => Err(Failure::Malformed(self.number)),
        }
    }

    /// Answers the line that was read.
    pub fn answer(&mut self, alloc: Global) -> Result<(), Failure> {
        let mut page = Page::new();
        self.answer.clear();
        let line = self.line.as_slice();
        match self.state.answer(alloc, &mut page, &mut self.answer, line) {
            Ok(()) => {}
            Err(Refusal::Malformed) => return Err(Failure::Malformed(self.number)),
            Err(Refusal::NoMemory) => return Err(Failure::NoMemory(self.number)),
        }
        page.finish(&mut self.answer);
        if page.is_lost() {
            return Err(Failure::NoMemory(self.number));
        }
        Ok(())
    }

    /// Returns the world and the names of its locks, once a line took a step.
    pub fn scene(&self) -> Option<(&World<Q>, &[Name])> {
        self.state.scene()
    }

    /// Returns the text of the last line.
    pub fn text(&self) -> &[u8] {
        self.line.as_slice()
    }

    /// Returns the outcome of the last line, where that line is a turn and it isn't `step`.
    pub fn outcome(&self) -> &[u8] {
        let first = match self.answer.iter().position(|byte| *byte == b'\n') {
            Some(end) => &self.answer.as_slice()[..end],
            None => return b"",
        };
        match first.iter().position(|byte| *byte == b' ') {
            Some(space) if &first[space..] != b" step".as_slice() && first[0].is_ascii_digit() => {
                &first[space + 1..]
            }
            _ => b"",
        }
    }

    /// Tells whether the last line changed anything.
    pub fn is_taken(&self) -> bool {
        self.outcome() != b"not now".as_slice()
    }

    /// Returns that memory was refused at the last line.
    pub fn refused_memory(&self) -> Failure {
        Failure::NoMemory(self.number)
    }
}
