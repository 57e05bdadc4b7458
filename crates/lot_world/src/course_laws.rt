//! The course of a drain of one lock, in the machine.
ghost use Rattle.lot_world.specs.Full.{FullIsEmpty, StrictGoesOn};
ghost use Rattle.lot_world.specs.Now.{DrainingBegins, DrainingGoesOn, StepKeepsNow};
ghost use Rattle.lot_world.specs.Owners.{OwnersMayRelease};
ghost use Rattle.lot_world.specs.Quiet.{QuietIsOver};

/// Shows that nobody is in a call or queued and no owner is left, where everybody is in no call or
/// asleep and nobody owns between calls.
pub fn quiet_is_over()
    ensures { QuietIsOver }
{}

/// Shows that nobody is queued where a lock is full while it is drained.
pub fn full_is_empty()
    ensures { FullIsEmpty }
{}

/// Shows that this goes on so.
pub fn strict_goes_on()
    ensures { StrictGoesOn }
{}

/// Shows that what holds of a lock as if it had never been full goes on to hold over the deeds of a
/// step.
pub fn step_keeps_now()
    ensures { StepKeepsNow }
{}

/// Shows that each step while a lock is drained leaves it as if it had never been full.
pub fn draining_goes_on()
    ensures { DrainingGoesOn }
{}

/// Shows the same of the begin of a release.
pub fn draining_begins()
    ensures { DrainingBegins }
{}

/// Shows that a thread which owns between its calls may release what it owns.
pub fn owners_may_release()
    ensures { OwnersMayRelease }
{}
