//! What became of a thread, in words.
use crate::readings::test_of_turn;
use core_base::ListQueues;
use lot_explain::{Obstacle, obstacle_of};
use lot_explore::Walk;
use lot_program::{Fault, Instruction};
use lot_program_text::answer_words;
use lot_world::{Outcome, World};

/// Returns the number of the instruction at which a thread is: in a call that of the call, else its next.
pub fn instruction_of(walk: &Walk<'_, ListQueues>, thread: usize) -> usize {
    let at = walk.scene().local(thread).at;
    let is_own = walk.scene().is_idle(thread)
        || matches!(walk.scene().outcome(thread), Outcome::Closure(_));
    if is_own { at } else { at.saturating_sub(1) }
}

/// Returns the line at which a thread is.
pub fn line_of(walk: &Walk<'_, ListQueues>, thread: usize) -> u32 {
    walk.program()
        .line(thread, instruction_of(walk, thread))
        .unwrap_or(0)
}

/// Returns what became of a thread by its turn, which was at an instruction: nothing where there is nothing
/// to say.
pub fn end_of(walk: &Walk<'_, ListQueues>, thread: usize, instruction: usize) -> &'static str {
    let calls = matches!(
        walk.program().instruction(thread, instruction),
        Some(Instruction::Call(_) | Instruction::Close { .. })
    );
    let local = walk.scene().local(thread);
    match (local.fault, walk.scene().outcome(thread)) {
        (Fault::Refused, _) => "refused",
        (Fault::Failed, _) => "fails",
        _ if !calls => "",
        (Fault::Nothing, Outcome::Sleep) => "sleeps",
        (Fault::Nothing, Outcome::Closure(_)) => "runs its closure",
        _ if walk.scene().is_idle(thread) => answer_words(local.told),
        _ => "goes on",
    }
}

/// Returns what a thread does by a turn that comes next in a walk, but where it goes on.
pub fn sort_words(walk: &Walk<'_, ListQueues>, by: usize) -> &'static str {
    let thread = by / 3;
    let branches = walk
        .program()
        .branch(thread, instruction_of(walk, thread))
        .is_some();
    match by % 3 {
        0 if branches => "takes this branch",
        1 if branches => "takes another branch",
        1 => "looks once more",
        2 => "its time is up",
        _ => "",
    }
}

/// Returns whether a test holds that a turn makes which comes next in a walk: nothing, where it makes none.
pub fn test_words(walk: &Walk<'_, ListQueues>, by: usize) -> &'static str {
    let thread = by / 3;
    let holds = match test_of_turn(walk, by) {
        Some(test) => test.holds(walk.scene().variables()),
        None => match walk
            .program()
            .instruction(thread, instruction_of(walk, thread))
        {
            Some(Instruction::JumpUnlessTold { told, target: _ }) => {
                walk.scene().local(thread).told == told
            }
            _ => return "",
        },
    };
    if holds { "holds" } else { "fails" }
}

/// Returns why the call of a thread was refused, where it was.
pub fn cause_of(
    walk: &Walk<'_, ListQueues>,
    world: &World<ListQueues>,
    thread: usize,
) -> Option<Obstacle> {
    let local = walk.scene().local(thread);
    if local.fault != Fault::Refused {
        return None;
    }
    let step = walk.program().instruction(thread, local.at)?.step(thread)?;
    Some(obstacle_of(world, step))
}
