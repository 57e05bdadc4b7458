//! Walks that go wrong, with fewer moves.
//!
//! Threads are left out first, then blocks of turns, half as long each time; turns that are impossible
//! then are passed over. A shorter walk counts only where it goes wrong in the same way.
ghost use Rattle.std.specs.Prelude.{◌<◌};
ghost use Rattle.lot_program.specs.Programs.{IsFit};

use crate::walks::Walk;
use crate::wrongs::Wrong;
use core_base::Queues;
use lot_program::Program;
use state_search::NoRoom;
use std::alloc::Global;

/// Moves that are left out.
#[derive(Clone, Copy)]
enum Omitted {
    /// All moves of a thread.
    Thread(usize),
    /// The moves from one on and before another.
    Block { from: usize, end: usize },
}

impl Omitted {
    /// Answers whether a move at a place is left out.
    fn has(self, at: usize, by: usize) -> bool {
        match self {
            Omitted::Thread(thread) => by / 3 == thread,
            Omitted::Block { from, end } => from <= at && at < end,
        }
    }
}

/// Leaves out moves of a walk that goes wrong, as long as it goes wrong in the same way: first those of
/// whole threads, then half of all at once, then a quarter, and at last single ones. A walk that is fine
/// stays as it is, and so does one for which memory is refused.
pub fn shrink<'a, Q: Queues + Drop>(alloc: Global, mut walk: Walk<'a, Q>) -> Walk<'a, Q> {
    let Ok(Some(wrong)) = walk.wrong() else {
        return walk;
    };
    match shorter_walk(alloc, &walk, wrong) {
        Ok(shorter) => {
            drop(walk);
            shorter
        }
        Err(NoRoom) => walk,
    }
}

fn shorter_walk<'a, Q: Queues + Drop>(
    alloc: Global,
    walk: &Walk<'a, Q>,
    wrong: Wrong,
) -> Result<Walk<'a, Q>, NoRoom> {
    let program = walk.program();
    match fewer_moves::<Q>(alloc, program, walk.moves(), wrong) {
        Ok(moves) => walk_by(alloc, program, moves.as_slice()),
        Err(NoRoom) => Err(NoRoom),
    }
}

/// Leaves out moves, first those of whole threads.
fn fewer_moves<Q: Queues + Drop>(
    alloc: Global,
    program: &Program,
    moves: &[usize],
    wrong: Wrong,
) -> Result<Vec<usize>, NoRoom>
    requires { IsFit program.now }
{
    match Vec::from_slice(alloc, moves) {
        Ok(moves) => {
            let moves = leave_out_threads::<Q>(alloc, program, moves, wrong);
            Ok(leave_out_halves::<Q>(alloc, program, moves, wrong))
        }
        Err(_) => Err(NoRoom),
    }
}

/// Takes moves from the start of a program.
fn walk_by<'a, Q: Queues + Drop>(
    alloc: Global,
    program: &'a Program,
    moves: &[usize],
) -> Result<Walk<'a, Q>, NoRoom>
    requires { IsFit program.now }
{
    match Walk::new(alloc, program) {
        Ok(mut walk) => match walk.take_all(moves) {
            Ok(_) => Ok(walk),
            Err(NoRoom) => {
                drop(walk);
                Err(NoRoom)
            }
        },
        Err(NoRoom) => Err(NoRoom),
    }
}

/// Leaves out each thread without which the moves go wrong too.
fn leave_out_threads<Q: Queues + Drop>(
    alloc: Global,
    program: &Program,
    moves: Vec<usize>,
    wrong: Wrong,
) -> Vec<usize>
    requires { IsFit program.now }
{
    let mut moves = moves;
    for thread in 0..program.threads() {
        let omitted = Omitted::Thread(thread);
        let without = moves_without::<Q>(alloc, program, moves.as_slice(), omitted, wrong);
        if let Ok(Some(shorter)) = without {
            moves = shorter;
        }
    }
    moves
}

/// Leaves out blocks of moves, half as long each time.
fn leave_out_halves<Q: Queues + Drop>(
    alloc: Global,
    program: &Program,
    moves: Vec<usize>,
    wrong: Wrong,
) -> Vec<usize>
    requires { IsFit program.now }
{
    let mut moves = moves;
    let mut size = moves.len();
    while size > 1 {
        size /= 2;
        moves = leave_out_blocks::<Q>(alloc, program, moves, wrong, size);
    }
    moves
}

/// Leaves out each block of so many moves without which they go wrong too, from the last to the first.
fn leave_out_blocks<Q: Queues + Drop>(
    alloc: Global,
    program: &Program,
    moves: Vec<usize>,
    wrong: Wrong,
    size: usize,
) -> Vec<usize>
    requires fit { IsFit program.now }
    requires some { 0 < size }
{
    let mut moves = moves;
    let mut end = moves.len();
    while end > 0 {
        let from = end.saturating_sub(size);
        let omitted = Omitted::Block { from, end };
        let without = moves_without::<Q>(alloc, program, moves.as_slice(), omitted, wrong);
        if let Ok(Some(shorter)) = without {
            moves = shorter;
        }
        end = from;
    }
    moves
}

/// Takes moves but for some, and passes over those that are impossible then. Returns which were taken,
/// where they go wrong in the same way and are fewer.
fn moves_without<Q: Queues + Drop>(
    alloc: Global,
    program: &Program,
    moves: &[usize],
    omitted: Omitted,
    wrong: Wrong,
) -> Result<Option<Vec<usize>>, NoRoom>
    requires { IsFit program.now }
{
    match Walk::<Q>::new(alloc, program) {
        Ok(mut shorter) => {
            let taken = taken_without(alloc, &mut shorter, moves, omitted, wrong);
            drop(shorter);
            taken
        }
        Err(NoRoom) => Err(NoRoom),
    }
}

/// Takes moves on a walk that has taken none, as `moves_without` does.
fn taken_without<Q: Queues + Drop>(
    alloc: Global,
    shorter: &mut Walk<'_, Q>,
    moves: &[usize],
    omitted: Omitted,
    wrong: Wrong,
) -> Result<Option<Vec<usize>>, NoRoom> {
    take_without(shorter, moves, omitted)?;
    if shorter.moves().len() >= moves.len() || shorter.wrong()? != Some(wrong) {
        return Ok(None);
    }
    match Vec::from_slice(alloc, shorter.moves()) {
        Ok(taken) => Ok(Some(taken)),
        Err(_) => Err(NoRoom),
    }
}

/// Takes moves but for some, as long as nothing goes wrong, and passes over those that are impossible.
fn take_without<Q: Queues + Drop>(
    walk: &mut Walk<'_, Q>,
    moves: &[usize],
    omitted: Omitted,
) -> Result<(), NoRoom> {
    for (at, by) in moves.iter().enumerate() {
        if !omitted.has(at, *by) {
            walk.turn(*by)?;
        }
        if walk.scene().goes_wrong(walk.program()) {
            break;
        }
    }
    Ok(())
}
