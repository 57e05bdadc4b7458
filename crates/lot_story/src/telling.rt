//! Turns, each with its line of the program and what became of it.
use core_base::ListQueues;
use lot_explain::{Obstacle, lock_lines};
use lot_explore::Walk;
use lot_findings::{
    Finding, Reading, Source, cause_of, end_of, instruction_of, new_world, sort_words, test_words,
    write_readings,
};
use lot_program::Program;
use lot_program_text::ThreadName;
use lot_world::{Step, World};
use state_search::NoRoom;
use std::alloc::Global;
use std::io;
use std::io::{ErrorKind, Write};

/// A walk with its world, of which each turn is told.
pub struct Telling<'a> {
    source: Source<'a>,
    walk: Walk<'a, ListQueues>,
    world: World<ListQueues>,
    /// All steps that it has taken.
    steps: Vec<Step>,
    /// What the variables had before the last turn.
    variables: Vec<u32>,
    /// The lines that `show` printed before it.
    shown: Vec<u8>,
}

// By hand: a derived drop is written out at each exit of each function that owns one.
impl<'a> Drop for Telling<'a> {
    fn drop(self) {
        let Telling {
            source: _,
            walk: _,
            world: _,
            steps: _,
            variables: _,
            shown: _,
        } = self;
    }
}

/// A turn, as it is told.
#[derive(Drop)]
pub struct TurnTold<'a> {
    pub number: usize,
    pub thread: usize,
    /// What the thread is called.
    pub name: ThreadName<'a>,
    pub line: u32,
    pub text: &'a str,
    /// What the thread does but go on, or nothing.
    pub sort: &'static str,
    /// What became of the thread, or nothing.
    pub end: &'static str,
    /// Why its call was refused.
    pub cause: Option<Obstacle>,
    /// What its test read.
    pub read: Vec<Reading<'a>>,
    /// The variables that it changed, and what they have.
    pub written: Vec<Reading<'a>>,
    /// The lines that `show` prints of the locks that it changed.
    pub locks: Vec<u8>,
}

/// Writes a line for each turn, and after it the lines of locks that it changed.
///
/// # Errors
///
/// The errors of the writer, and `OutOfMemory`.
pub fn write_turns<W: Write>(alloc: Global, out: &mut W, finding: &Finding<'_>) -> io::Result<()> {
    let Ok(mut telling) = Telling::new(alloc, finding.source) else {
        return writeln!(out, "no memory to tell the turns");
    };
    for by in finding.walk.moves() {
        telling.turn(alloc, out, *by)?;
    }
    Ok(())
}

impl TurnTold<'_> {
    /// Writes the turn on a line, and below it a line for each lock that it changed.
    ///
    /// # Errors
    ///
    /// The errors of the writer.
    pub fn write<W: Write>(&self, out: &mut W) -> io::Result<()> {
        let TurnTold {
            number,
            name,
            line,
            text,
            ..
        } = self;
        write!(out, "{number}: {name}, line {line}: {text}")?;
        for words in [self.sort, self.end] {
            if !words.is_empty() {
                write!(out, ": {words}")?;
            }
        }
        if let Some(cause) = self.cause {
            write!(out, ": {cause}")?;
        }
        write_readings(out, " is ", self.read.as_slice())?;
        write_readings(out, " = ", self.written.as_slice())?;
        writeln!(out)?;
        for lock in std::str::from_utf8(self.locks.as_slice())
            .unwrap_or("")
            .lines()
        {
            writeln!(out, "    {lock}")?;
        }
        Ok(())
    }
}

impl<'a> Telling<'a> {
    /// Begins at the start of a program.
    ///
    /// # Errors
    ///
    /// `NoRoom`, where memory was refused, and where the program isn't fit.
    pub fn new(alloc: Global, source: Source<'a>) -> Result<Telling<'a>, NoRoom> {
        let program = &source.parsed.program;
        if !program.is_fit() {
            return Err(NoRoom);
        }
        let world = new_world(alloc, program)?;
        let Ok(shown) = lock_lines(alloc, source.parsed.locks.as_slice(), &world) else {
            return Err(NoRoom);
        };
        Ok(Telling {
            source,
            walk: Walk::new(alloc, program)?,
            world,
            steps: Vec::new(alloc),
            variables: Vec::new(alloc),
            shown,
        })
    }

    /// Begins after some moves.
    ///
    /// # Errors
    ///
    /// `NoRoom`, where memory was refused, and where the program isn't fit.
    pub fn after(
        alloc: Global,
        source: Source<'a>,
        moves: &[usize],
    ) -> Result<Telling<'a>, NoRoom> {
        let mut telling = Telling::new(alloc, source)?;
        for by in moves {
            telling.take(*by)?;
        }
        let Ok(shown) = lock_lines(alloc, source.parsed.locks.as_slice(), &telling.world) else {
            return Err(NoRoom);
        };
        telling.shown = shown;
        Ok(telling)
    }

    /// Returns the walk.
    pub fn walk(&self) -> &Walk<'a, ListQueues> {
        &self.walk
    }

    /// Returns the walk, so that moves can be tried.
    pub fn walk_mut(&mut self) -> &mut Walk<'a, ListQueues> {
        &mut self.walk
    }

    /// Returns the walk alone.
    pub fn into_walk(self) -> Walk<'a, ListQueues> {
        let Telling {
            source: _,
            walk,
            world: _,
            steps: _,
            variables: _,
            shown: _,
        } = self;
        walk
    }

    /// Returns the world that the walk has come to.
    pub fn world(&self) -> &World<ListQueues> {
        &self.world
    }

    /// Returns the steps that it has taken.
    pub fn steps(&self) -> &[Step] {
        self.steps.as_slice()
    }

    /// Returns the lines that `show` prints of the world.
    pub fn shown(&self) -> &str {
        std::str::from_utf8(self.shown.as_slice()).unwrap_or("")
    }

    /// Takes a turn, and tells of it in a line, and in one for each lock that it changed.
    ///
    /// # Errors
    ///
    /// The errors of the writer.
    pub fn turn<W: Write>(&mut self, alloc: Global, out: &mut W, by: usize) -> io::Result<()> {
        match self.tell(alloc, by) {
            Ok(told) => told.write(out),
            Err(NoRoom) => writeln!(out, "no memory to tell a turn"),
        }
    }

    /// Takes a turn, and returns what is told of it.
    ///
    /// # Errors
    ///
    /// `NoRoom`, where memory was refused.
    pub fn tell(&mut self, alloc: Global, by: usize) -> Result<TurnTold<'a>, NoRoom> {
        let number = self.walk.moves().len().saturating_add(1);
        let thread = by / 3;
        let at = instruction_of(&self.walk, thread);
        let line = self.source.parsed.program.line(thread, at).unwrap_or(0);
        let read = self.source.readings_of_turn(alloc, &self.walk, by)?;
        let tested = test_words(&self.walk, by);
        let sort = sort_words(&self.walk, by);
        self.take(by)?;
        let end = match end_of(&self.walk, thread, at) {
            "" => tested,
            end => end,
        };
        Ok(TurnTold {
            number,
            thread,
            name: self.source.thread_name(thread),
            line,
            text: self.source.line(line),
            sort,
            end,
            cause: cause_of(&self.walk, &self.world, thread),
            read,
            written: self.changes(alloc)?,
            locks: self.lock_changes(alloc)?,
        })
    }

    // Takes a turn in the walk and in the world, and keeps what the variables had before.
    fn take(&mut self, by: usize) -> Result<(), NoRoom> {
        self.variables.clear();
        let numbers = self.walk.scene().variables();
        if self.variables.extend_from_slice(numbers).is_err() {
            return Err(NoRoom);
        }
        let before = self.steps.len();
        self.walk.push_steps(by, &mut self.steps)?;
        self.walk.turn(by)?;
        for step in self.steps.iter().skip(before) {
            self.world.step(*step);
        }
        Ok(())
    }

    // Returns the variables that have other numbers than before.
    fn changes(&self, alloc: Global) -> Result<Vec<Reading<'a>>, NoRoom> {
        let mut changes = Vec::new(alloc);
        let numbers = self.walk.scene().variables();
        let both = self.variables.iter().zip(numbers.iter());
        for (variable, (before, now)) in both.enumerate() {
            if before != now {
                let reading = self.source.reading(variable, numbers);
                changes.push(reading).map_err(|_| NoRoom)?;
            }
        }
        Ok(changes)
    }

    // Returns the lines of `show` that are others than before.
    fn lock_changes(&mut self, alloc: Global) -> Result<Vec<u8>, NoRoom> {
        let Ok(shown) = lock_lines(alloc, self.source.parsed.locks.as_slice(), &self.world) else {
            return Err(NoRoom);
        };
        let changes = changed_lines(alloc, self.shown.as_slice(), shown.as_slice())?;
        self.shown = shown;
        Ok(changes)
    }
}

// Returns the lines that are others than before.
fn changed_lines(alloc: Global, before: &[u8], now: &[u8]) -> Result<Vec<u8>, NoRoom> {
    let mut changed = Vec::new(alloc);
    for (old, new) in before
        .split(|byte| *byte == b'\n')
        .zip(now.split(|byte| *byte == b'\n'))
    {
        if old != new {
            changed.extend_from_slice(new).map_err(|_| NoRoom)?;
            changed.push(b'\n').map_err(|_| NoRoom)?;
        }
    }
    Ok(changed)
}
