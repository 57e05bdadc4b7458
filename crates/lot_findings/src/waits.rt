//! Which thread has what, and waits for what.
use crate::readings::write_readings;
use crate::source::Source;
use crate::words::{cause_of, line_of};
use core_base::ListQueues;
use lot_explain::Obstacle;
use lot_explore::Walk;
use lot_program::{Fault, Instruction, Test, Value};
use lot_program_text::ThreadName;
use lot_world::{Kind, Owner, World};
use std::alloc::{AllocError, Global};
use std::io;
use std::io::Write;

/// A thread that is not through: its line, its locks, and the lock in whose queue it is.
#[derive(Drop)]
pub struct Waiting {
    pub thread: usize,
    pub line: u32,
    pub fault: Fault,
    /// Why its call is refused.
    pub cause: Option<Obstacle>,
    /// The test of its assertion that fails.
    pub failed: Option<Test>,
    /// The locks that it owns or shares.
    pub has: Vec<usize>,
    /// The locks at which it is the writer that waits for the last readers, and has no right yet.
    pub pending: Vec<usize>,
    pub waits_for: Option<usize>,
    /// Whether that is a condition variable.
    pub is_notified: bool,
    /// The threads that have that lock, each once: the others, or itself where there are none.
    pub holders: Vec<usize>,
}

/// Returns what each thread waits for that is not through, where a walk has come to in this world.
///
/// # Errors
///
/// An error, where memory was refused.
pub fn waitings(
    alloc: Global,
    walk: &Walk<'_, ListQueues>,
    world: &World<ListQueues>,
) -> Result<Vec<Waiting>, AllocError> {
    let mut all = Vec::new(alloc);
    for thread in 0..walk.program().threads() {
        if !walk.scene().is_through(walk.program(), thread) {
            all.push(waiting_of(alloc, walk, world, thread)?)?;
        }
    }
    Ok(all)
}

fn waiting_of(
    alloc: Global,
    walk: &Walk<'_, ListQueues>,
    world: &World<ListQueues>,
    thread: usize,
) -> Result<Waiting, AllocError> {
    let waits_for = lock_waited_for(world, thread);
    Ok(Waiting {
        thread,
        line: line_of(walk, thread),
        fault: walk.scene().local(thread).fault,
        cause: cause_of(walk, world, thread),
        failed: failed_test(walk, thread),
        has: locks_owned(alloc, world, thread)?,
        pending: locks_pending(alloc, world, thread)?,
        is_notified: waits_for.is_some_and(|lock| is_condvar(world, lock)),
        waits_for,
        holders: match waits_for {
            Some(lock) => holders_of(alloc, world, lock, thread)?,
            None => Vec::new(alloc),
        },
    })
}

// Returns the test of the assertion of a thread, where it has failed.
fn failed_test(walk: &Walk<'_, ListQueues>, thread: usize) -> Option<Test> {
    let local = walk.scene().local(thread);
    match walk.program().instruction(thread, local.at) {
        Some(Instruction::Assert(test)) if local.fault == Fault::Failed => Some(test),
        _ => None,
    }
}

fn is_condvar(world: &World<ListQueues>, lock: usize) -> bool {
    lock < world.locks() && world.kind(lock) == Kind::Condvar
}

// Answers whether a thread owns or shares a lock.
fn owns(world: &World<ListQueues>, lock: usize, thread: usize) -> bool {
    lock < world.locks()
        && world
            .owners(lock)
            .any(|(sort, owner)| owner == thread && sort != Owner::Pending)
}

// Answers whether a thread is the pending writer of a lock, and has no right to it.
fn is_pending(world: &World<ListQueues>, lock: usize, thread: usize) -> bool {
    lock < world.locks()
        && world
            .owners(lock)
            .any(|(sort, owner)| owner == thread && sort == Owner::Pending)
        && !owns(world, lock, thread)
}

/// Returns the locks that a thread owns or shares.
///
/// # Errors
///
/// An error, where memory was refused.
pub fn locks_owned(
    alloc: Global,
    world: &World<ListQueues>,
    thread: usize,
) -> Result<Vec<usize>, AllocError> {
    let mut locks = Vec::new(alloc);
    for lock in 0..world.locks() {
        if owns(world, lock, thread) {
            locks.push(lock)?;
        }
    }
    Ok(locks)
}

// Returns the locks whose pending writer a thread is.
fn locks_pending(
    alloc: Global,
    world: &World<ListQueues>,
    thread: usize,
) -> Result<Vec<usize>, AllocError> {
    let mut locks = Vec::new(alloc);
    for lock in 0..world.locks() {
        if is_pending(world, lock, thread) {
            locks.push(lock)?;
        }
    }
    Ok(locks)
}

/// Returns the lock in whose queue a thread is.
fn lock_waited_for(world: &World<ListQueues>, thread: usize) -> Option<usize> {
    for lock in 0..world.locks() {
        if world.queue(lock).any(|waiter| waiter.thread == thread) {
            return Some(lock);
        }
    }
    None
}

// Returns the other threads that have a lock, each once, or the thread itself where it alone has it.
fn holders_of(
    alloc: Global,
    world: &World<ListQueues>,
    lock: usize,
    thread: usize,
) -> Result<Vec<usize>, AllocError> {
    let mut holders = Vec::new(alloc);
    if lock >= world.locks() {
        return Ok(holders);
    }
    for (_, owner) in world.owners(lock) {
        if owner != thread && !holders.contains(&owner) {
            holders.push(owner)?;
        }
    }
    if holders.is_empty() && owns(world, lock, thread) {
        holders.push(thread)?;
    }
    Ok(holders)
}

/// Writes a line for each thread that is not through: its line, what it has, and what it waits for. The
/// variables have these numbers.
///
/// # Errors
///
/// The errors of the writer.
pub fn write_waitings<W: Write>(
    out: &mut W,
    source: Source<'_>,
    numbers: &[u32],
    waitings: &[Waiting],
) -> io::Result<()> {
    for waiting in waitings {
        let name = source.thread_name(waiting.thread);
        write!(out, "{name}, line {}:", waiting.line)?;
        write_fault(out, source, numbers, waiting)?;
        write_waiting(out, source, waiting)?;
    }
    Ok(())
}

// Writes what a thread has gone against.
fn write_fault<W: Write>(
    out: &mut W,
    source: Source<'_>,
    numbers: &[u32],
    waiting: &Waiting,
) -> io::Result<()> {
    match (waiting.fault, waiting.cause) {
        (Fault::Nothing, _) => Ok(()),
        (Fault::Refused, Some(cause)) => write!(out, " the call is refused: {cause};"),
        (Fault::Refused, None) => write!(out, " the call is refused;"),
        (Fault::Failed, _) => {
            write!(out, " the assertion fails")?;
            if let Some(test) = waiting.failed {
                write_test(out, source, numbers, test)?;
            }
            write!(out, ";")
        }
    }
}

// Writes what a test reads.
fn write_test<W: Write>(
    out: &mut W,
    source: Source<'_>,
    numbers: &[u32],
    test: Test,
) -> io::Result<()> {
    write_readings(out, " is ", &[source.reading(test.variable, numbers)])?;
    match test.value {
        Value::Variable(other) if other != test.variable => {
            write_readings(out, " is ", &[source.reading(other, numbers)])
        }
        Value::Variable(_) | Value::Number(_) => Ok(()),
    }
}

fn write_waiting<W: Write>(out: &mut W, source: Source<'_>, waiting: &Waiting) -> io::Result<()> {
    write_locks(out, source, waiting)?;
    if let Some(lock) = waiting.waits_for {
        write!(out, ", waits for {}", source.lock_name(lock))?;
        write_holders(out, source, waiting)?;
    }
    writeln!(out)
}

// Writes the locks that a thread has, and those at which it is the pending writer.
fn write_locks<W: Write>(out: &mut W, source: Source<'_>, waiting: &Waiting) -> io::Result<()> {
    if waiting.has.is_empty() && waiting.pending.is_empty() {
        return write!(out, " has nothing");
    }
    write_names(out, source, " has ", waiting.has.as_slice())?;
    let begin = if waiting.has.is_empty() {
        " is pending at "
    } else {
        ", is pending at "
    };
    write_names(out, source, begin, waiting.pending.as_slice())
}

// Writes the names of some locks after a beginning, and nothing where there are none.
fn write_names<W: Write>(
    out: &mut W,
    source: Source<'_>,
    begin: &str,
    locks: &[usize],
) -> io::Result<()> {
    let mut mark = begin;
    for lock in locks {
        write!(out, "{mark}{}", source.lock_name(*lock))?;
        mark = ", ";
    }
    Ok(())
}

// Writes which threads have the lock that a thread waits for.
fn write_holders<W: Write>(out: &mut W, source: Source<'_>, waiting: &Waiting) -> io::Result<()> {
    if waiting.is_notified {
        return write!(out, " to be notified");
    }
    if waiting.holders.first() == Some(&waiting.thread) {
        return write!(out, ", which it has itself");
    }
    let mut mark = ", of ";
    for holder in waiting.holders.iter() {
        match source.thread_name(*holder) {
            ThreadName::Numbered(thread) if mark == " and " => write!(out, "{mark}{thread}")?,
            name => write!(out, "{mark}{name}")?,
        }
        mark = " and ";
    }
    Ok(())
}
