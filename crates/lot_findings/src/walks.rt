//! Walks by moves that are known.
use crate::finding::Finding;
use crate::source::Source;
use core_base::ListQueues;
use lot_explore::Walk;
use state_search::NoRoom;
use std::alloc::Global;

/// Returns the walk of some moves from the start of a program.
///
/// # Errors
///
/// `NoRoom`, where memory was refused.
pub fn walk_by<'a>(
    alloc: Global,
    source: Source<'a>,
    moves: &[usize],
) -> Result<Walk<'a, ListQueues>, NoRoom> {
    let program = &source.parsed.program;
    if !program.is_fit() {
        return Err(NoRoom);
    }
    let mut walk = Walk::new(alloc, program)?;
    walk_on(&mut walk, moves)?;
    Ok(walk)
}

/// Takes moves after those of a walk.
///
/// # Errors
///
/// `NoRoom`, where memory was refused.
pub fn walk_on(walk: &mut Walk<'_, ListQueues>, moves: &[usize]) -> Result<(), NoRoom> {
    for by in moves {
        walk.turn(*by)?;
    }
    Ok(())
}

/// Returns what is found where some moves lead from the start of a program.
///
/// # Errors
///
/// `NoRoom`, where memory was refused.
pub fn finding_by<'a>(
    alloc: Global,
    source: Source<'a>,
    moves: &[usize],
) -> Result<Finding<'a>, NoRoom> {
    let walk = walk_by(alloc, source, moves)?;
    Finding::new(alloc, source, walk)
}
