//! Worked schedules, read into what threads are told.

use crate::checked::{Checked, Stop};
use core_base::Queues;
use lot_text::{Command, Name, NamedCall, NamedTurn, Names, meaning};
use spec_locks::{Call, CondvarCall, Kind, Outcome, Step, Turn};
use std::alloc::{AllocError, Global};

/// The deed that a line asks of a thread.
#[derive(Clone, Copy)]
pub enum Deed {
    /// The thread begins a call and goes on alone until it rests.
    Does(Call),
    /// The thread takes a turn.
    Takes(Turn),
    /// The thread goes on alone until it rests.
    GoesOn,
}

/// A thread, and what it is told.
#[derive(Clone, Copy)]
pub struct Line {
    pub thread: usize,
    pub deed: Deed,
}

/// The threads and locks of a schedule, and its step lines.
#[derive(Drop)]
pub struct Script {
    pub threads: usize,
    pub kinds: Vec<Kind>,
    pub lines: Vec<Line>,
    names: Names,
}

impl Script {
    /// No thread, no lock and no line.
    pub fn new(alloc: Global) -> Script {
        Script {
            threads: 0,
            kinds: Vec::new(alloc),
            lines: Vec::new(alloc),
            names: Names::new(alloc),
        }
    }

    /// Reads a schedule. Lines that tell no thread anything, malformed ones too, are left out.
    pub fn read(&mut self, alloc: Global, text: &[u8]) -> Result<(), AllocError> {
        for line in text.split(|b| *b == b'\n') {
            if let Some(command) = meaning(line) {
                self.add(alloc, command)?;
            }
        }
        Ok(())
    }

    fn add(&mut self, alloc: Global, command: Command) -> Result<(), AllocError> {
        match command {
            Command::Threads(threads) => self.threads = threads,
            Command::Lock { name, kind } => self.declare(alloc, name, kind)?,
            Command::Turn { thread, turn } => {
                if let Some(deed) = self.deed_of(turn) {
                    self.lines.push(Line { thread, deed })?;
                }
            }
            Command::Show | Command::Drain => {}
        }
        Ok(())
    }

    fn declare(&mut self, alloc: Global, name: Name, kind: Kind) -> Result<(), AllocError> {
        if self.names.find(name).is_none() {
            self.names.push(alloc, name)?;
            self.kinds.push(kind)?;
        }
        Ok(())
    }

    fn deed_of(&self, turn: NamedTurn) -> Option<Deed> {
        Some(match turn {
            NamedTurn::Begin { call, name } => Deed::Takes(Turn::Begin(self.call_of(call, name)?)),
            NamedTurn::Go => Deed::Takes(Turn::Go),
            NamedTurn::Spin => Deed::Takes(Turn::Spin),
            NamedTurn::Late => Deed::Takes(Turn::Late),
            NamedTurn::Ok => Deed::Takes(Turn::Ok),
            NamedTurn::Err => Deed::Takes(Turn::Err),
            NamedTurn::Solo => Deed::GoesOn,
            NamedTurn::Do { call, name } => Deed::Does(self.call_of(call, name)?),
        })
    }

    fn call_of(&self, call: NamedCall, name: Name) -> Option<Call> {
        let lock = self.names.find(name)?;
        Some(match call {
            NamedCall::Mutex(call) => Call::Mutex { lock, call },
            NamedCall::RwLock(call) => Call::RwLock { lock, call },
            NamedCall::Once(call) => Call::Once { lock, call },
            NamedCall::Semaphore(call) => Call::Semaphore { lock, call },
            NamedCall::Notify { all } => {
                let call = CondvarCall::Notify { all };
                Call::Condvar { lock, call }
            }
            NamedCall::Wait { mutex, timed } => {
                let mutex = self.names.find(mutex)?;
                let call = CondvarCall::Wait { mutex, timed };
                Call::Condvar { lock, call }
            }
        })
    }
}

/// A thread does what it is told, as a replay does it.
pub fn play<Q: Queues + Drop>(checked: &mut Checked<Q>, line: Line) -> Result<(), Stop> {
    let thread = line.thread;
    match line.deed {
        Deed::Does(call) => {
            let turn = Turn::Begin(call);
            if checked.step(Step { thread, turn })? == Outcome::NotNow {
                return Ok(());
            }
            checked.go_on(thread)
        }
        Deed::Takes(turn) => {
            checked.step(Step { thread, turn })?;
            Ok(())
        }
        Deed::GoesOn => checked.go_on(thread),
    }
}

/// Does so for each line.
pub fn play_all<Q: Queues + Drop>(checked: &mut Checked<Q>, lines: &[Line]) -> Result<(), Stop> {
    for line in lines {
        play(checked, *line)?;
    }
    Ok(())
}
