//! Turns of a program's threads, each a column.
use crate::record::{ColumnKind, ColumnText, Recording, Span};
use crate::rows::VariableRow;
use core_base::Queues;
use lot_text::Name;
use lot_world::{Call, Step, Turn, World};
use spec_locks::CondvarCall;
use std::alloc::{AllocError, Global};

/// A turn, as a picture shows it.
#[derive(Clone, Copy, Drop)]
pub struct TurnColumn<'a> {
    pub thread: usize,
    /// The steps that it takes, none where its line is about variables alone.
    pub steps: &'a [Step],
    /// What is written above the column.
    pub heading: &'a str,
    /// What became of the thread, or nothing.
    pub said: &'a str,
    /// What the variables have after it, by their numbers.
    pub variables: &'a [u32],
}

/// A variable of a program.
#[derive(Clone, Copy)]
pub struct VariableName {
    pub name: Name,
    /// The thread whose own it is, or none where all threads share it.
    pub owner: Option<usize>,
}

/// What the parts of a program are called, each by its number.
#[derive(Drop)]
pub struct Program {
    pub locks: Vec<Name>,
    pub threads: Vec<String>,
    pub variables: Vec<VariableName>,
}

/// A world, and what is recorded of the turns of its threads.
pub struct TurnRecorder<Q: Queues + Drop> {
    world: World<Q>,
    recording: Recording,
}

// By hand: a derived drop is written out at each exit of each function that owns one.
impl<Q: Queues + Drop> Drop for TurnRecorder<Q> {
    fn drop(self) {
        let TurnRecorder {
            world: _,
            recording: _,
        } = self;
    }
}

impl<Q: Queues + Drop> TurnRecorder<Q> {
    /// Begins at the world of a program.
    ///
    /// # Errors
    ///
    /// `AllocError`, where memory was refused.
    pub fn new(
        alloc: Global,
        world: World<Q>,
        program: Program,
    ) -> Result<TurnRecorder<Q>, AllocError> {
        let mut recording = Recording::new(alloc, ColumnKind::Turn, Span::ALL);
        recording.threads = world.threads();
        for VariableName { name, owner } in program.variables.iter() {
            recording.variables.push(VariableRow {
                name: *name,
                owner: *owner,
                numbers: Vec::new(alloc),
            })?;
        }
        recording.names = program.locks;
        recording.thread_names = program.threads;
        Ok(TurnRecorder { world, recording })
    }

    /// Takes a turn, and adds its column. Turns after the last column of a picture are only counted.
    ///
    /// # Errors
    ///
    /// `AllocError`, where memory was refused.
    pub fn add(&mut self, alloc: Global, turn: TurnColumn<'_>) -> Result<(), AllocError> {
        self.recording.lines = self.recording.lines.saturating_add(1);
        if self.recording.is_full() {
            return Ok(());
        }
        self.recording.add_actor(turn.thread)?;
        for step in turn.steps {
            self.add_parts(alloc, *step)?;
            self.world.step(*step);
        }
        self.recording
            .add_lanes_found(alloc, &self.world, turn.thread)?;
        self.add_column(alloc, turn)
    }

    // Adds the lanes and rows of the locks that a step names.
    fn add_parts(&mut self, alloc: Global, step: Step) -> Result<(), AllocError> {
        let Turn::Begin(call) = step.turn else {
            return Ok(());
        };
        let (first, second) = locks_of(call);
        for lock in [Some(first), second] {
            let Some(lock) = lock else {
                continue;
            };
            let Some(name) = self.recording.names.get(lock).copied() else {
                continue;
            };
            self.recording
                .add_part(alloc, &self.world, step.thread, lock, name)?;
        }
        Ok(())
    }

    fn add_column(&mut self, alloc: Global, turn: TurnColumn<'_>) -> Result<(), AllocError> {
        let text = ColumnText {
            line: turn.heading.as_bytes(),
            said: turn.said.as_bytes(),
            is_taken: true,
        };
        self.recording
            .add_column(alloc, &self.world, Some(turn.thread), text)?;
        self.recording.add_numbers(alloc, turn.variables)
    }

    /// Returns what was recorded. The columns from this number on come again and again, if there is one.
    pub fn finish(self, again: Option<u64>) -> Recording {
        let TurnRecorder {
            world: _,
            mut recording,
        } = self;
        recording.again = again;
        recording
    }
}

impl Recording {
    // Adds what each variable has to its row, and to what is shown of the last column.
    fn add_numbers(&mut self, alloc: Global, numbers: &[u32]) -> Result<(), AllocError> {
        for (row, number) in self.variables.iter_mut().zip(numbers.iter()) {
            row.numbers.push(*number)?;
            let text = match row.owner {
                None => format!(in alloc; " = {number}\n")?,
                Some(owner) => format!(in alloc; " of thread {owner} = {number}\n")?,
            };
            if let Some(column) = self.columns.last_mut() {
                column.shown.extend_from_slice(row.name.text())?;
                column.shown.extend_from_slice(text.as_bytes())?;
            }
        }
        Ok(())
    }
}

/// Returns the lock that a call is of, and that of the mutex named with it.
fn locks_of(call: Call) -> (usize, Option<usize>) {
    match call {
        Call::Condvar {
            lock,
            call: CondvarCall::Wait { mutex, timed: _ },
        } => (lock, Some(mutex)),
        Call::Mutex { lock, .. }
        | Call::RwLock { lock, .. }
        | Call::Once { lock, .. }
        | Call::Condvar { lock, .. }
        | Call::Semaphore { lock, .. } => (lock, None),
    }
}
