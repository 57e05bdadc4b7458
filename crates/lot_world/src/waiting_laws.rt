//! The ground of a drain of one lock, told of the places of calls.
ghost use Rattle.lot_world.specs.Owned.{PlacesOwnFew, QueuedOwnNothing};
ghost use Rattle.lot_world.specs.Sleepers.{PendingOwnNothing, SleepersOwnNothing, SleepersRest};
ghost use Rattle.lot_world.specs.Sleepers.{SleepersStand};

/// Shows that a thread which sleeps is inside no section, owes nobody a wake, and has nobody in hand.
pub fn sleepers_rest()
    ensures { SleepersRest }
{}

/// Shows that a thread asleep in the main line owns nothing, where its call began with what it needs
/// and no more.
pub fn sleepers_own_nothing()
    ensures { SleepersOwnNothing }
{}

/// Shows that a thread asleep aside is pending, and owns nothing else.
pub fn pending_own_nothing()
    ensures { PendingOwnNothing }
{}

/// Shows that a thread which sleeps stands in a line, or is in a hand.
pub fn sleepers_stand()
    ensures { SleepersStand }
{}

/// Shows that a thread has one right at most wherever its call stands, where it began with what it
/// needs.
pub fn places_own_few()
    ensures { PlacesOwnFew }
{}

/// Shows that a thread in the main line owns nothing, asleep or not.
pub fn queued_own_nothing()
    ensures { QueuedOwnNothing }
{}
