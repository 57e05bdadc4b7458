//! Walks whose moves a generator draws.
//!
//! Each walk has a seed of its own, the first seed and its number added, so that a failed walk is
//! repeated by its seed alone. Moves are drawn evenly among all numbers, and one that is impossible is
//! drawn again.
ghost use Rattle.std.specs.Prelude.{◌≡◌, IfOk, IfSome, true};
ghost use Rattle.state_search.specs.Rules.{IsWrong};
ghost use Rattle.lot_program.specs.Programs.{IsFit};
ghost use Rattle.lot_program.specs.States.{rules_of_program};

use crate::walks::Walk;
use core_base::Queues;
use lot_program::Program;
use rand_xoshiro::Xoshiro256PlusPlus;
use rand_xoshiro::rand_core::{Rng, SeedableRng};
use state_search::NoRoom;
use std::alloc::Global;

/// How many moves are drawn before the possible ones are looked for in their order.
const DRAWS: usize = 64;

/// Walks from the start of a program, by moves that a generator of this seed draws, till something is
/// wrong, no move is possible, or so many moves were taken. For one seed the walk is the same on any
/// machine.
///
/// # Errors
///
/// `NoRoom`, where memory was refused.
pub fn walk_at_random<'a, Q: Queues + Drop>(
    alloc: Global,
    program: &'a Program,
    seed: u64,
    most: usize,
) -> Result<Option<Walk<'a, Q>>, NoRoom>
    requires { IsFit program.now }
    ensures { IfOk result (λ found. IfSome found (λ walk. (walk.program ≡ program.now)
        × IsWrong (rules_of_program program.now) walk.state)) }
{
    match Walk::new(alloc, program) {
        Ok(mut walk) => match goes_wrong_by_draws(&mut walk, seed, most) {
            Ok(true) => Ok(Some(walk)),
            Ok(false) => {
                drop(walk);
                Ok(None)
            }
            Err(NoRoom) => {
                drop(walk);
                Err(NoRoom)
            }
        },
        Err(NoRoom) => Err(NoRoom),
    }
}

/// Walks on, as `walk_at_random` does, and answers whether something is wrong in the end.
fn goes_wrong_by_draws<Q: Queues + Drop>(
    walk: &mut Walk<'_, Q>,
    seed: u64,
    most: usize,
) -> Result<bool, NoRoom>
    ensures wrong { IfOk result (λ wrong. wrong ≡ true
        → IsWrong (rules_of_program walk.old.program) walk.new.state) }
    ensures program { walk.new.program ≡ walk.old.program }
{
    let mut generator = Xoshiro256PlusPlus::seed_from_u64(seed);
    for _turn in 0..most {
        if walk.wrong()?.is_some() {
            return Ok(true);
        }
        if !draw_turn(walk, &mut generator)? {
            return Ok(false);
        }
    }
    Ok(false)
}

/// Takes a move that is drawn, if one is possible.
fn draw_turn<Q: Queues + Drop, R: Rng>(
    walk: &mut Walk<'_, Q>,
    generator: &mut R,
) -> Result<bool, NoRoom>
    ensures { walk.new.program ≡ walk.old.program }
{
    let moves = 3 * walk.program().threads();
    if moves == 0 {
        return Ok(false);
    }
    for _draw in 0..DRAWS {
        if walk.turn(generator.next_u32() as usize % moves)? {
            return Ok(true);
        }
    }
    first_turn(walk, moves)
}

/// Takes the first possible move of so many.
fn first_turn<Q: Queues + Drop>(walk: &mut Walk<'_, Q>, moves: usize) -> Result<bool, NoRoom>
    ensures { walk.new.program ≡ walk.old.program }
{
    for by in 0..moves {
        if walk.turn(by)? {
            return Ok(true);
        }
    }
    Ok(false)
}
