//! The straight courses of waits and of notifications, where nothing comes between. Anything else
//! leads off them, to the driver, which goes on through the places one by one.
ghost use Rattle.std.specs.Prelude.{◌≡◌, IsTrue};
ghost use Rattle.core_clocks.specs.Clocks.{TimeIsUp};
ghost use Rattle.run_base.specs.Queued.{HasPlace, is_queued};
ghost use Rattle.run_base.specs.Turns.{HasEnded, IsAtPlace};
ghost use Rattle.run_locks.specs.CondvarCourses.{IsOfCondvar, notify_at, wait_at};

use lot_steps::Place;
use parking_lot_core::{Clock, ParkingLot, QueuePlace, Section, Token};
use run_base::driver::{Stop, run_from};
use run_base::words::Words;
use spec_locks::Answer;
use std::sync::Wait;
use steps_condvar::{CondvarPlace, NotifyAt, WaitAt};

/// A condition variable and a mutex, by their numbers, and their words.
#[derive(Clone, Copy)]
pub(crate) struct Pair {
    pub words: Words,
    pub condvar: usize,
    pub mutex: usize,
}

impl Pair {
    // Returns where a thread stands that waits.
    pub(crate) fn waits(self, timed: bool, at: WaitAt) -> Place
        ensures { result ≡ wait_at self.condvar self.mutex timed at }
    {
        Place::Condvar {
            lock: self.condvar,
            at: CondvarPlace::Wait {
                mutex: self.mutex,
                timed,
                at,
            },
        }
    }

    // Returns where one stands that notifies.
    pub(crate) fn notifies(self, all: bool, at: NotifyAt) -> Place
        ensures { result ≡ notify_at self.condvar self.mutex all at }
    {
        Place::Condvar {
            lock: self.condvar,
            at: CondvarPlace::Notify {
                all,
                mutex: self.mutex,
                at,
            },
        }
    }
}

// Does the rest of a call, from a place off its straight course.
#[cold]
#[inline(never)]
pub(crate) fn finish_by_driver<'a, R: Wait, C: Clock>(
    rt: &R,
    lot: &'a ParkingLot,
    token: &mut Token,
    words: Words,
    limit: Option<(&C, u64)>,
    section: Option<Section<'a>>,
    queue: Option<QueuePlace<'a>>,
    place: Place,
) -> Answer
    requires at { IsAtPlace (TimeIsUp C.tells limit) lot.now words place token.old section }
    requires call { IsOfCondvar place }
    requires queued { IsTrue (is_queued place) → HasPlace lot.now token.old.number queue }
    ensures { HasEnded (TimeIsUp C.tells limit.entry) lot.now words place result token.old section.entry
        token.new }
{
    match run_from(rt, lot, token, words, limit, section, queue, place) {
        Stop::Ended(answer) => answer,
        // No call of a condition variable runs a closure.
        Stop::Paused { .. } => unreachable!(),
    }
}
