//! The schedule that drains a world, and its end.
ghost use Rattle.lot_world.specs.DrainLaws.{SchedulesDrain};
ghost use Rattle.lot_world.specs.Reached.{ReachedHaveOwners};

/// Shows that the schedule of a world that may be drained is short, that each of its steps is
/// possible, and that nobody is in a call, queued or an owner at its end, where the word is 0.
pub fn schedules_drain()
    ensures { SchedulesDrain }
{}

/// Shows that each thread that owns the lock of a world that was reached is a thread that is there,
/// and that a thread is pending only in a call that waits for a right.
pub fn reached_have_owners()
    ensures { ReachedHaveOwners }
{}
