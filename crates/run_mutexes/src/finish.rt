//! The rest of a call of a mutex that has left its straight course.
ghost use Rattle.std.specs.Prelude.{IsTrue};
ghost use Rattle.core_clocks.specs.Clocks.{TimeIsUp};
ghost use Rattle.run_base.specs.Queued.{HasPlace, is_queued};
ghost use Rattle.run_base.specs.Turns.{HasEnded, IsAtPlace};
ghost use Rattle.run_mutexes.specs.LockCourses.{IsOfMutex};

use lot_steps::Place;
use parking_lot_core::{Clock, ParkingLot, QueuePlace, Section, Token};
use run_base::driver::{Stop, run_from};
use run_base::words::Words;
use spec_locks::Answer;
use std::sync::Wait;

// Does the rest of a call, from a place off its straight course.
#[cold]
#[inline(never)]
pub(crate) fn finish_by_driver<'a, R: Wait, C: Clock>(
    rt: &R,
    lot: &'a ParkingLot,
    token: &mut Token,
    words: Words,
    limit: Option<(&C, u64)>,
    section: Option<Section<'a>>,
    queue: Option<QueuePlace<'a>>,
    place: Place,
) -> Answer
    requires at { IsAtPlace (TimeIsUp C.tells limit) lot.now words place token.old section }
    requires call { IsOfMutex place }
    requires queued { IsTrue (is_queued place) → HasPlace lot.now token.old.number queue }
    ensures { HasEnded (TimeIsUp C.tells limit.entry) lot.now words place result token.old section.entry
        token.new }
{
    match run_from(rt, lot, token, words, limit, section, queue, place) {
        Stop::Ended(answer) => answer,
        // No call of a mutex runs a closure.
        Stop::Paused { .. } => unreachable!(),
    }
}
