//! The lines of `drain`: the steps of a schedule that drains the world, which are taken.
ghost use Rattle.std.specs.Prelude.{◌≡◌, IfErr, IfOk, [], length};
ghost use Rattle.lot_machine.specs.Machine.{after_steps};
ghost use Rattle.lot_text.specs.Sent.{Puts};
ghost use Rattle.lot_replay.specs.Drains.{drain_lines};
ghost use Rattle.lot_replay.specs.Stages.{drained, running};

use crate::state::Refusal;
use core_base::Queues;
use lot_text::{Name, Page, print_drain_refused, print_drain_step};
use lot_world::{Step, World};
use std::alloc::Global;
use std::io::Write;

/// Drains a world, where it may be drained, and prints the steps that do it. Where memory is
/// refused, the world stays as it was.
pub fn drain_world<Q: Queues + Drop, W: Write>(
    alloc: Global,
    page: &mut Page,
    writer: &mut W,
    names: &[Name],
    world: &mut World<Q>,
) -> Result<(), Refusal>
    ensures stage { IfOk result (λ _. running names.now world.new
        ≡ (drained names.now world.old).0) }
    ensures text { IfOk result (λ _.
        Puts (W.contents writer.old) (W.contents writer.new) page.old page.new
        (drained names.now world.old).1) }
    ensures refusal { IfErr result (λ refusal. refusal ≡ Refusal.NoMemory) }
    ensures kept { IfErr result (λ _. world.new ≡ world.old) }
    ensures nothing { IfErr result (λ _.
        Puts (W.contents writer.old) (W.contents writer.new) page.old page.new []) }
    ensures same_locks { length world.new.locks ≡ length world.old.locks }
{
    if !world.drainable() {
        print_drain_refused(page, writer);
        return Ok(());
    }
    let Ok(steps) = world.drain(alloc) else {
        return Err(Refusal::NoMemory);
    };
    print_drain(page, writer, names, steps.as_slice());
    take_steps(world, steps.as_slice());
    Ok(())
}

/// Prints the line of each step.
fn print_drain<W: Write>(page: &mut Page, writer: &mut W, names: &[Name], steps: &[Step])
    ensures { Puts (W.contents writer.old) (W.contents writer.new) page.old page.new
        (drain_lines names.now steps.now) }
{
    for step in steps {
        print_drain_step(page, writer, names, *step);
    }
}

/// Takes steps in their order.
fn take_steps<Q: Queues + Drop>(world: &mut World<Q>, steps: &[Step])
    ensures state { world.new ≡ after_steps world.old steps.now }
    ensures same_locks { length world.new.locks ≡ length world.old.locks }
{
    for step in steps {
        world.step(*step);
    }
}
