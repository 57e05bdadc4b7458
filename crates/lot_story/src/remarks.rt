//! What is to be said where a search has found nothing.
use crate::loops::{Look, write_looks};
use core_base::ListQueues;
use lot_explore::Walk;
use lot_findings::{Finding, Headline, Source, locks_owned, walk_by};
use lot_loops::{Cut, Graph};
use state_search::{Limits, NoRoom, Observer};
use std::alloc::Global;
use std::io;
use std::io::Write;

/// The most states of a search after which they are seen once more unasked. It takes some half a second.
const MOST_STATES: usize = 300000;

/// The most ends of schedules at which rights are looked for.
const MOST_ENDS: usize = 1000;

/// A thread that has rights to locks at its end, each in some schedule.
#[derive(Drop)]
pub struct Kept {
    pub thread: usize,
    pub locks: Vec<usize>,
}

/// What no schedule of a program has come to, and what threads keep.
#[derive(Drop)]
pub enum Coverage {
    /// Not all schedules were searched.
    NotAsked,
    /// There are too many states.
    Skipped,
    /// Nothing is known, since not all states were seen once more.
    Unknown(Cut),
    /// The lines that no schedule reaches, and the threads that end with a right.
    Known {
        unreached: Vec<u32>,
        kept: Vec<Kept>,
    },
}

/// What is said after the first line, where a search has found nothing.
#[derive(Drop)]
pub struct Remarks<'a> {
    pub looks: Vec<Look>,
    pub coverage: Coverage,
    /// The words for what the observer has stopped.
    pub stopped: &'a str,
}

impl Coverage {
    /// Answers whether a search that begins with a walk is to be followed by one that sees its states once
    /// more. Where it is not, the error says what is known then.
    ///
    /// # Errors
    ///
    /// `NotAsked` and `Skipped`.
    pub fn is_due(
        walk: &Walk<'_, ListQueues>,
        headline: Headline<'_>,
        is_asked: bool,
    ) -> Result<(), Coverage> {
        match headline {
            Headline::Nothing { states, .. } if walk.moves().is_empty() => {
                if is_asked || states <= MOST_STATES {
                    Ok(())
                } else {
                    Err(Coverage::Skipped)
                }
            }
            _ => Err(Coverage::NotAsked),
        }
    }

    /// Sees all states of a program once more, and tells what no schedule comes to.
    pub fn of<O: Observer>(
        alloc: Global,
        source: Source<'_>,
        walk: &Walk<'_, ListQueues>,
        limits: Limits,
        observer: &mut O,
    ) -> Coverage {
        match coverage_of(alloc, source, walk, limits, observer) {
            Ok(coverage) => coverage,
            Err(NoRoom) => Coverage::Unknown(Cut::NoMemory),
        }
    }
}

fn coverage_of<O: Observer>(
    alloc: Global,
    source: Source<'_>,
    walk: &Walk<'_, ListQueues>,
    limits: Limits,
    observer: &mut O,
) -> Result<Coverage, NoRoom> {
    let graph = Graph::after(alloc, walk, limits, observer)?;
    if let Some(cut) = graph.cut {
        return Ok(Coverage::Unknown(cut));
    }
    Ok(Coverage::Known {
        unreached: unreached_in(alloc, source, &graph)?,
        kept: kept_in(alloc, source, &graph)?,
    })
}

// Returns the lines that no schedule reaches, but for those that only end a block or part it.
fn unreached_in(alloc: Global, source: Source<'_>, graph: &Graph) -> Result<Vec<u32>, NoRoom> {
    let last = source.text.lines().count();
    let mut is_there = vec![in alloc; false; last.saturating_add(2)].map_err(|_| NoRoom)?;
    let mut is_reached = vec![in alloc; false; last.saturating_add(2)].map_err(|_| NoRoom)?;
    for (thread, lines) in source.parsed.program.lines.iter().enumerate() {
        for (at, line) in lines.iter().enumerate() {
            mark(is_there.as_mut_slice(), *line);
            if graph.has_reached(thread, at) {
                mark(is_reached.as_mut_slice(), *line);
            }
        }
    }
    let mut unreached = Vec::new(alloc);
    for (number, line) in source.text.lines().enumerate() {
        let number = number.saturating_add(1);
        let is_at = |marks: &Vec<bool>| marks.get(number).copied().unwrap_or(false);
        let word = line.split_whitespace().next().unwrap_or("");
        let parts = matches!(word, "end" | "else" | "or");
        if is_at(&is_there) && !is_at(&is_reached) && !parts {
            let number = u32::try_from(number).unwrap_or(u32::MAX);
            unreached.push(number).map_err(|_| NoRoom)?;
        }
    }
    Ok(unreached)
}

fn mark(marks: &mut [bool], at: u32) {
    if let Some(is_marked) = marks.get_mut(at as usize) {
        *is_marked = true;
    }
}

// Returns the threads that have a right where all are through.
fn kept_in(alloc: Global, source: Source<'_>, graph: &Graph) -> Result<Vec<Kept>, NoRoom> {
    let mut all = Vec::new(alloc);
    for thread in 0..source.parsed.program.threads() {
        let locks = Vec::new(alloc);
        all.push(Kept { thread, locks }).map_err(|_| NoRoom)?;
    }
    for end in graph.ends().iter().take(MOST_ENDS) {
        let moves = graph.moves_to(alloc, *end as usize)?;
        let walk = walk_by(alloc, source, moves.as_slice())?;
        let finding = Finding::new(alloc, source, walk)?;
        for kept in all.iter_mut() {
            add_kept(alloc, &finding, kept)?;
        }
    }
    all.retain(|kept| !kept.locks.is_empty());
    Ok(all)
}

// Adds the locks that a thread has where a run ends.
fn add_kept(alloc: Global, finding: &Finding<'_>, kept: &mut Kept) -> Result<(), NoRoom> {
    let Ok(locks) = locks_owned(alloc, &finding.world, kept.thread) else {
        return Err(NoRoom);
    };
    for lock in locks.iter() {
        if !kept.locks.contains(lock) {
            kept.locks.push(*lock).map_err(|_| NoRoom)?;
        }
    }
    Ok(())
}

impl Remarks<'_> {
    /// Writes the remarks, each on a line.
    ///
    /// # Errors
    ///
    /// The errors of the output.
    pub fn write<W: Write>(&self, out: &mut W, source: Source<'_>) -> io::Result<()> {
        write_looks(out, source, self.looks.as_slice(), self.stopped)?;
        match &self.coverage {
            Coverage::NotAsked => Ok(()),
            Coverage::Skipped => {
                writeln!(
                    out,
                    "lines that no schedule reaches are not looked for in so many states"
                )
            }
            Coverage::Unknown(cut) => {
                let why = cut.words(self.stopped);
                writeln!(out, "lines that no schedule reaches are not known; {why}")
            }
            Coverage::Known { unreached, kept } => {
                write_unreached(out, source, unreached.as_slice())?;
                write_kept(out, source, kept.as_slice())
            }
        }
    }
}

fn write_unreached<W: Write>(out: &mut W, source: Source<'_>, lines: &[u32]) -> io::Result<()> {
    for line in lines {
        writeln!(
            out,
            "line {line}: {}: no schedule reaches it",
            source.line(*line)
        )?;
    }
    Ok(())
}

fn write_kept<W: Write>(out: &mut W, source: Source<'_>, all: &[Kept]) -> io::Result<()> {
    for kept in all {
        write!(out, "{} ends with", source.thread_name(kept.thread))?;
        let mut mark = " ";
        for lock in kept.locks.iter() {
            write!(out, "{mark}{}", source.lock_name(*lock))?;
            mark = ", ";
        }
        writeln!(out)?;
    }
    Ok(())
}
