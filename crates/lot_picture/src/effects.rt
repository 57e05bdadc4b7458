//! What a step does to another thread, by what that thread was to a lock before and after it.
//!
//! An arrow begins at the thread that takes the step, also for a move. A thread that is taken off a
//! queue has none: its cell changes, and the heading names it. A `drain` has none, since many threads
//! take its steps.
ghost use Rattle.std.specs.Prelude.{◌≡◌};
ghost use Rattle.lot_picture.specs.Effects.{strength, is_queued, is_taken_off, is_retrying, is_woken};
ghost use Rattle.lot_picture.specs.Effects.{effect_between};

use crate::cells::{Cell, Deed};
use lot_world::Owner;

/// What a thread that takes a step does to another one.
#[derive(Clone, Copy, Debug, PartialEq, Eq)]
pub enum Effect {
    /// The other thread has a greater right than before.
    HandsOver,
    /// The thread was taken off a queue before, and is awake now.
    Wakes,
    /// The thread waits in the queue of this lock now, and did not before.
    Moves,
    /// The thread was taken off the queue, and is asleep.
    Takes,
}

/// Returns what a step did to a thread that has not taken it, by what it was to a lock before the
/// step and what it is now.
pub fn effect_between(before: Cell, now: Cell) -> Option<Effect>
    ensures { result ≡ effect_between before now }
{
    if strength(before.right) < strength(now.right) {
        Some(Effect::HandsOver)
    } else if is_woken(before, now) {
        Some(Effect::Wakes)
    } else if is_queued(now.deed) && !is_queued(before.deed) {
        Some(Effect::Moves)
    } else if is_taken_off(now.deed) && !is_taken_off(before.deed) {
        Some(Effect::Takes)
    } else {
        None
    }
}

/// Returns how much a right lets a thread do.
fn strength(right: Option<Owner>) -> u8
    ensures { result ≡ strength right }
{
    match right {
        None => 0,
        Some(Owner::Shared) => 1,
        Some(Owner::Upgradable) => 2,
        Some(Owner::Pending) => 3,
        Some(Owner::Exclusive) => 4,
        Some(Owner::Running) => 5,
    }
}

fn is_queued(deed: Option<Deed>) -> bool
    ensures { result ≡ is_queued deed }
{
    match deed {
        Some(Deed::Waits | Deed::WaitsAside) => true,
        Some(Deed::Owes | Deed::Retries | Deed::Taken | Deed::Calls) | None => false,
    }
}

fn is_taken_off(deed: Option<Deed>) -> bool
    ensures { result ≡ is_taken_off deed }
{
    match deed {
        Some(Deed::Taken) => true,
        Some(Deed::Owes | Deed::Waits | Deed::WaitsAside | Deed::Retries | Deed::Calls) | None =>
            false,
    }
}

fn is_retrying(deed: Option<Deed>) -> bool
    ensures { result ≡ is_retrying deed }
{
    match deed {
        Some(Deed::Retries) => true,
        Some(Deed::Owes | Deed::Waits | Deed::WaitsAside | Deed::Taken | Deed::Calls) | None =>
            false,
    }
}

/// Tells whether a thread tries again and did not before, or was asleep with the lock handed to it
/// and is so no more.
fn is_woken(before: Cell, now: Cell) -> bool
    ensures { result ≡ is_woken before now }
{
    if is_retrying(now.deed) {
        !is_retrying(before.deed)
    } else {
        now.right.is_some() && is_taken_off(before.deed) && !is_taken_off(now.deed)
    }
}
