//! What a picture shows: its columns, the lanes of threads, and the rows of locks and variables.

use crate::cells::{Cell, cell_of};
use crate::dues::{Due, due_of};
use crate::effects::{Effect, effect_between};
use crate::labels::ThreadLabel;
use crate::lanes::Lane;
use crate::lines::{Failure, Lines};
use crate::rows::{LockRow, VariableRow};
use core_base::Queues;
use lot_replay::show::show_locks;
use lot_text::{Command, Name, NamedCall, NamedTurn, Page, meaning};
use lot_world::{MOST_LOCKS, World};
use std::alloc::{AllocError, Global};
use std::io::BufRead;

/// The greatest number of columns of a picture.
pub const MOST_COLUMNS: usize = 1000;

/// The lines that a picture shows, of those that take steps, counted from 1.
#[derive(Clone, Copy, Debug, PartialEq, Eq)]
pub struct Span {
    pub from: u64,
    pub to: u64,
}

impl Span {
    pub const ALL: Span = Span {
        from: 1,
        to: u64::MAX,
    };
}

/// What the thread of a column did to another thread, by what that one is to a lock.
#[derive(Clone, Copy)]
pub struct Event {
    pub effect: Effect,
    pub thread: usize,
    pub lock: usize,
}

/// What each column of a picture is.
#[derive(Clone, Copy, Debug, PartialEq, Eq)]
pub enum ColumnKind {
    /// A line of a schedule that takes steps.
    Line,
    /// A turn of a thread of a program.
    Turn,
}

/// A line that takes steps, or a turn.
#[derive(Drop)]
pub struct Column {
    /// The number of the column among those lines or turns, from 1.
    pub number: u64,
    pub line: Vec<u8>,
    /// The answer, or nothing where it says no more than that a step was taken.
    pub said: Vec<u8>,
    /// The thread that takes the steps, where the line names one that is there.
    pub thread: Option<usize>,
    pub is_taken: bool,
    /// What the thread was about to do, where the line is `go`.
    pub due: Option<Due>,
    pub events: Vec<Event>,
    /// What `show` prints after the line, and after a turn what each variable has.
    pub shown: Vec<u8>,
}

/// The text of a column.
#[derive(Clone, Copy)]
pub(crate) struct ColumnText<'a> {
    pub line: &'a [u8],
    pub said: &'a [u8],
    pub is_taken: bool,
}

/// Holds all that a picture shows.
pub struct Recording {
    /// How many threads the schedule has.
    pub threads: usize,
    /// The names of its locks, by their numbers.
    pub names: Vec<Name>,
    /// How many lines take steps, or how many turns there are.
    pub lines: u64,
    pub columns: Vec<Column>,
    /// The threads that take steps, by their numbers.
    pub actors: Vec<usize>,
    /// By threads, and of one thread by locks.
    pub lanes: Vec<Lane>,
    /// By their numbers.
    pub rows: Vec<LockRow>,
    /// What the threads of a program are called, by their numbers; none of a schedule.
    pub thread_names: Vec<String>,
    /// The variables of a program, none of a schedule.
    pub variables: Vec<VariableRow>,
    pub kind: ColumnKind,
    /// The number of the first of the columns that come again and again, where they do.
    pub again: Option<u64>,
    span: Span,
    /// What the thread of the line that is read is about to do, where that is `go`.
    due: Option<Due>,
}

// By hand: a derived drop is written out at each exit of each function that owns one.
impl Drop for Recording {
    fn drop(self) {
        let Recording {
            threads: _,
            names: _,
            lines: _,
            columns: _,
            actors: _,
            lanes: _,
            rows: _,
            thread_names: _,
            variables: _,
            kind: _,
            again: _,
            span: _,
            due: _,
        } = self;
    }
}

/// Replays a schedule, and records what a picture of some of its lines shows.
pub fn record_schedule<Q: Queues + Drop, R: BufRead>(
    alloc: Global,
    reader: &mut R,
    span: Span,
) -> Result<Recording, Failure> {
    let mut lines = Lines::<Q>::new(alloc);
    let mut recording = Recording::new(alloc, ColumnKind::Line, span);
    for _ in 0..u64::MAX {
        let Some(command) = lines.read(reader)? else {
            return Ok(recording);
        };
        if recording.prepare(alloc, &lines).is_err() {
            return Err(lines.refused_memory());
        }
        lines.answer(alloc)?;
        if recording.add(alloc, command, &lines).is_err() {
            return Err(lines.refused_memory());
        }
    }
    Ok(recording)
}

impl Recording {
    pub(crate) fn new(alloc: Global, kind: ColumnKind, span: Span) -> Recording {
        Recording {
            threads: 0,
            names: Vec::new(alloc),
            lines: 0,
            columns: Vec::new(alloc),
            actors: Vec::new(alloc),
            lanes: Vec::new(alloc),
            rows: Vec::new(alloc),
            thread_names: Vec::new(alloc),
            variables: Vec::new(alloc),
            kind,
            again: None,
            span,
            due: None,
        }
    }

    /// Returns the name of a lock.
    pub fn name_of(&self, lock: usize) -> &[u8] {
        match self.names.get(lock) {
            Some(name) => name.text(),
            None => b"",
        }
    }

    /// Returns what a thread is called.
    pub fn thread_label(&self, thread: usize) -> ThreadLabel<'_> {
        ThreadLabel {
            name: match self.thread_names.get(thread) {
                Some(name) => Some(name.as_str()),
                None => None,
            },
            thread,
        }
    }

    /// Returns the lanes of a thread.
    pub fn lanes_of(&self, thread: usize) -> &[Lane] {
        let lanes = self.lanes.as_slice();
        let from = lanes.partition_point(|lane| lane.thread < thread);
        let after = &lanes[from..];
        &after[..after.partition_point(|lane| lane.thread == thread)]
    }

    /// Tells whether the column of this number comes again and again.
    pub fn comes_again(&self, number: u64) -> bool {
        self.again.is_some_and(|first| first <= number)
    }

    /// Leaves out all but some threads.
    pub fn keep_threads(&mut self, threads: &[usize]) {
        self.actors.retain(|thread| threads.contains(thread));
        self.lanes.retain(|lane| threads.contains(&lane.thread));
    }

    /// Leaves out all but some locks.
    pub fn keep_locks(&mut self, locks: &[usize]) {
        self.rows.retain(|row| locks.contains(&row.lock));
        self.lanes.retain(|lane| locks.contains(&lane.lock));
    }

    /// Makes room for what a line names before it is answered, and notes what its thread is about to
    /// do.
    fn prepare<Q: Queues + Drop>(
        &mut self,
        alloc: Global,
        lines: &Lines<Q>,
    ) -> Result<(), AllocError> {
        self.due = None;
        let Some((world, names)) = lines.scene() else {
            return Ok(());
        };
        let Some(Command::Turn { thread, turn }) = meaning(lines.text()) else {
            return Ok(());
        };
        if self.lines >= self.span.to || self.is_full() {
            return Ok(());
        }
        self.add_rows(alloc, world, names, thread, turn)?;
        if turn == NamedTurn::Go && thread < world.threads() {
            self.due = due_of(world, thread);
        }
        Ok(())
    }

    /// Adds what a line did that is answered, where it takes steps. Those after the last column are
    /// only counted.
    fn add<Q: Queues + Drop>(
        &mut self,
        alloc: Global,
        command: Command,
        lines: &Lines<Q>,
    ) -> Result<(), AllocError> {
        let Some((world, names)) = lines.scene() else {
            return Ok(());
        };
        self.note(alloc, world, names)?;
        match command {
            Command::Turn { .. } | Command::Drain => self.lines = self.lines.saturating_add(1),
            _ => return Ok(()),
        }
        if self.lines > self.span.to || self.is_full() {
            return Ok(());
        }
        let thread = self.add_actor_of(alloc, world, names, command)?;
        if self.span.from <= self.lines {
            let text = ColumnText {
                line: lines.text(),
                said: lines.outcome(),
                is_taken: lines.is_taken(),
            };
            return self.add_column(alloc, world, thread, text);
        }
        self.pass(world);
        Ok(())
    }

    /// Adds the rows that a line needs, and returns its thread.
    fn add_actor_of<Q: Queues + Drop>(
        &mut self,
        alloc: Global,
        world: &World<Q>,
        names: &[Name],
        command: Command,
    ) -> Result<Option<usize>, AllocError> {
        match command {
            Command::Turn { thread, turn } if thread < world.threads() => {
                self.add_rows(alloc, world, names, thread, turn)?;
                self.add_lanes_found(alloc, world, thread)?;
                Ok(Some(thread))
            }
            _ => Ok(None),
        }
    }

    /// Tells whether there are as many columns as a picture may have.
    pub(crate) fn is_full(&self) -> bool {
        self.columns.len() >= MOST_COLUMNS
    }

    /// Notes how many threads there are, and how the locks are called.
    fn note<Q: Queues + Drop>(
        &mut self,
        alloc: Global,
        world: &World<Q>,
        names: &[Name],
    ) -> Result<(), AllocError> {
        self.threads = world.threads();
        if self.names.len() != names.len() {
            self.names = Vec::from_slice(alloc, names)?;
        }
        Ok(())
    }

    /// Adds a column, whose thread took steps that led to a world.
    pub(crate) fn add_column<Q: Queues + Drop>(
        &mut self,
        alloc: Global,
        world: &World<Q>,
        thread: Option<usize>,
        text: ColumnText<'_>,
    ) -> Result<(), AllocError> {
        let events = self.add_cells(alloc, world, thread)?;
        for row in self.rows.iter_mut() {
            row.add(alloc, world)?;
        }
        self.columns.push(Column {
            number: self.lines,
            line: Vec::from_slice(alloc, text.line)?,
            said: Vec::from_slice(alloc, text.said)?,
            thread,
            is_taken: text.is_taken,
            due: if text.is_taken { self.due } else { None },
            events,
            shown: lines_shown(alloc, self.names.as_slice(), world),
        })?;
        Ok(())
    }

    /// Adds what each thread is to each lock, and returns what a thread did to others.
    fn add_cells<Q: Queues + Drop>(
        &mut self,
        alloc: Global,
        world: &World<Q>,
        thread: Option<usize>,
    ) -> Result<Vec<Event>, AllocError> {
        let mut events = Vec::new(alloc);
        for lane in self.lanes.iter_mut() {
            let before = lane.add(world)?;
            if let Some(event) = event_of(lane, before, thread) {
                events.push(event)?;
            }
        }
        Ok(events)
    }

    /// Looks what threads are to locks after a line without a column.
    fn pass<Q: Queues + Drop>(&mut self, world: &World<Q>) {
        for lane in self.lanes.iter_mut() {
            lane.look(world);
        }
    }

    /// Adds rows for the thread and the locks that a line names, where they are new.
    fn add_rows<Q: Queues + Drop>(
        &mut self,
        alloc: Global,
        world: &World<Q>,
        names: &[Name],
        thread: usize,
        turn: NamedTurn,
    ) -> Result<(), AllocError> {
        if thread >= world.threads() {
            return Ok(());
        }
        self.add_actor(thread)?;
        for name in named(turn) {
            if let Some((lock, name)) = lock_named(names, name) {
                self.add_part(alloc, world, thread, lock, name)?;
            }
        }
        Ok(())
    }

    /// Adds the lane of a thread and a lock, and the row of the lock, where they are new.
    pub(crate) fn add_part<Q: Queues + Drop>(
        &mut self,
        alloc: Global,
        world: &World<Q>,
        thread: usize,
        lock: usize,
        name: Name,
    ) -> Result<(), AllocError> {
        self.add_lane(alloc, thread, lock)?;
        self.add_row(alloc, world, lock, name)
    }

    /// Adds a lane for each lock with a row to which a thread is something.
    pub(crate) fn add_lanes_found<Q: Queues + Drop>(
        &mut self,
        alloc: Global,
        world: &World<Q>,
        thread: usize,
    ) -> Result<(), AllocError> {
        for at in 0..self.rows.len() {
            let lock = match self.rows.get(at) {
                Some(row) => row.lock,
                None => return Ok(()),
            };
            if is_something(world, thread, lock) {
                self.add_lane(alloc, thread, lock)?;
            }
        }
        Ok(())
    }

    /// Adds a thread that takes steps, where it is new.
    pub(crate) fn add_actor(&mut self, thread: usize) -> Result<(), AllocError> {
        let at = self.actors.partition_point(|other| *other < thread);
        if self.actors.get(at) != Some(&thread) {
            self.actors.insert(at, thread)?;
        }
        Ok(())
    }

    fn add_lane(&mut self, alloc: Global, thread: usize, lock: usize) -> Result<(), AllocError> {
        let at = self
            .lanes
            .partition_point(|lane| (lane.thread, lane.lock) < (thread, lock));
        if let Some(lane) = self.lanes.get(at) {
            if lane.thread == thread && lane.lock == lock {
                return Ok(());
            }
        }
        // The thread was nothing to this lock before.
        let lane = Lane::new(alloc, thread, lock, self.columns.len())?;
        self.lanes.insert(at, lane)?;
        Ok(())
    }

    fn add_row<Q: Queues + Drop>(
        &mut self,
        alloc: Global,
        world: &World<Q>,
        lock: usize,
        name: Name,
    ) -> Result<(), AllocError> {
        let at = self.rows.partition_point(|row| row.lock < lock);
        if let Some(row) = self.rows.get(at) {
            if row.lock == lock {
                return Ok(());
            }
        }
        if lock < world.locks() {
            let row = LockRow::new(alloc, world, lock, name, self.columns.len())?;
            self.rows.insert(at, row)?;
        }
        Ok(())
    }
}

/// Returns what a step of this thread did to the thread of a lane, which was this before it.
fn event_of(lane: &Lane, before: Cell, thread: Option<usize>) -> Option<Event> {
    if thread? == lane.thread {
        return None;
    }
    let effect = effect_between(before, lane.last)?;
    Some(Event {
        effect,
        thread: lane.thread,
        lock: lane.lock,
    })
}

fn is_something<Q: Queues + Drop>(world: &World<Q>, thread: usize, lock: usize) -> bool {
    thread < world.threads()
        && lock < world.locks()
        && lock < MOST_LOCKS
        && cell_of(world, thread, lock) != Cell::NOTHING
}

/// Returns what `show` prints of a world.
fn lines_shown<Q: Queues + Drop>(alloc: Global, names: &[Name], world: &World<Q>) -> Vec<u8> {
    let mut shown = Vec::new(alloc);
    if names.len() == world.locks() && names.len() <= MOST_LOCKS {
        let mut page = Page::new();
        show_locks(&mut page, &mut shown, names, world);
        page.finish(&mut shown);
    }
    shown
}

/// Returns the number of the lock of this name, with the name.
fn lock_named(names: &[Name], name: Option<Name>) -> Option<(usize, Name)> {
    let name = name?;
    let lock = names.iter().position(|other| *other == name)?;
    Some((lock, name))
}

/// Returns the names of the locks that a turn names, the first of a call and that of the mutex
/// named with it.
fn named(turn: NamedTurn) -> [Option<Name>; 2] {
    match turn {
        NamedTurn::Begin { call, name } | NamedTurn::Do { call, name } => {
            [Some(name), mutex_of(call)]
        }
        _ => [None, None],
    }
}

fn mutex_of(call: NamedCall) -> Option<Name> {
    match call {
        NamedCall::Wait { mutex, .. } => Some(mutex),
        _ => None,
    }
}
