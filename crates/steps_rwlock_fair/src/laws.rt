//! The laws of the steps of fair releases and bumps.
ghost use Rattle.steps_rwlock_fair.specs.FairLaws.{FairOwnersFollow, GiversKeep, CallsOpen, FairCallsStand};
ghost use Rattle.steps_rwlock_fair.specs.FairLaws.{FairLooksStand, FairSectionsFollow, FairSectionsTell};
ghost use Rattle.steps_rwlock_fair.specs.FairLaws.{FairSleepersHear, FairStepsTell, HandOversGive};
ghost use Rattle.steps_rwlock_fair.specs.FairLaws.{FairStepsCode, FairStepsFollow, HandOversCode};
ghost use Rattle.steps_rwlock_fair.specs.FairLaws.{HandOversFollow, HandOversKeepLimit, HandOversTell};
ghost use Rattle.steps_rwlock_fair.specs.FairGives.{FairReleasesGive};
ghost use Rattle.steps_rwlock_fair.specs.FairMoves.{FairActsMove, FairLateMove, FairSleepersMove};
ghost use Rattle.steps_rwlock_fair.specs.FairMoves.{HandOversMove, HandedMove};

/// Each step on the word may do to the lock what its deeds say, and its next place says what the
/// thread does then.
pub fn fair_steps_follow()
    ensures { FairStepsFollow }
{}

/// Each step on the word leaves the word of the lock after its deeds.
pub fn fair_steps_code()
    ensures { FairStepsCode }
{}

/// The step that hands the lock over to all that the thread has in hand may do to the lock what its
/// deeds say.
pub fn hand_overs_follow()
    ensures { HandOversFollow }
{}

/// Each hand-over leaves the word of the lock after it.
pub fn hand_overs_code()
    ensures { HandOversCode }
{}

/// Each hand-over keeps the limit of the lock.
pub fn hand_overs_keep_limit()
    ensures { HandOversKeepLimit }
{}

/// Each step into a section, in it, and out of it may do to the lock what its deeds say.
pub fn fair_sections_follow()
    ensures { FairSectionsFollow }
{}

/// A thread that is handed the lock has what its place says from then on.
pub fn hand_overs_give()
    ensures { HandOversGive }
{}

/// A call that stands where it may goes on where it may.
pub fn fair_calls_stand()
    ensures { FairCallsStand }
{}

/// A call begins where it may stand, nowhere in the sections and lines of the lock, and claims a
/// right that its thread has.
pub fn calls_open()
    ensures { CallsOpen }
{}

/// The step that hands the lock over makes of its call what its next row says, and the call is made
/// of that case.
pub fn hand_overs_tell()
    ensures { HandOversTell }
{}

/// Each other step on the word goes on with its call, and its answer is true.
pub fn fair_steps_tell()
    ensures { FairStepsTell }
{}

/// Each step into a section, in it, and out of it answers truly.
pub fn fair_sections_tell()
    ensures { FairSectionsTell }
{}

/// An event that befalls a thread asleep makes of its call what its row says. A thread that is
/// handed the lock has what it wants.
pub fn fair_sleepers_hear()
    ensures { FairSleepersHear }
{}

/// Where a thread looks at the word once more, its row is the same, and its call stands where it
/// may.
pub fn fair_looks_stand()
    ensures { FairLooksStand }
{}

/// The step that hands the lock over does so as its act says: all that the thread has in hand are
/// handed it.
pub fn hand_overs_move()
    ensures { HandOversMove }
{}

/// Each step takes its thread into the sections and lines of the lock, out of them, and into hands
/// as its act says.
pub fn fair_acts_move()
    ensures { FairActsMove }
{}

/// A thread that stands in a line sleeps there or is inside its section. A thread that is taken is
/// in a hand, and one that is woken is in none.
pub fn fair_sleepers_move()
    ensures { FairSleepersMove }
{}

/// A thread whose time is up goes into the section of its line.
pub fn fair_late_moves()
    ensures { FairLateMove }
{}

/// A thread that is handed the lock is so from then on, and it is out of every hand from its wake
/// on.
pub fn handed_move()
    ensures { HandedMove }
{}

/// Each step on the word that hands nothing over leaves the owners of the lock after its deeds.
pub fn fair_owners_follow()
    ensures { FairOwnersFollow }
{}

/// A hand-over leaves the owners of the lock without the right that it gives up, before the others
/// have theirs.
pub fn givers_keep()
    ensures { GiversKeep }
{}

/// A fair release, or a bump, of more than a shared right gives the lock to all that it has taken
/// in one step, or lets it go where nobody waits; where the limit would be passed they stay in its
/// hand, to be woken.
pub fn fair_releases_give()
    ensures { FairReleasesGive }
{}
