//! The laws of the steps of a reader-writer lock.
ghost use Rattle.steps_rwlock.specs.RwLockCalls.{RwLockCallsStand, RwLockLooksStand, RwLockSectionsTell};
ghost use Rattle.steps_rwlock.specs.RwLockCalls.{RwLockSleepersHear, RwLockStepsTell};
ghost use Rattle.steps_rwlock.specs.RwLockMoves.{RwLockActsMove, RwLockLateMove, RwLockSleepersMove};
ghost use Rattle.steps_rwlock.specs.RwLockOpenings.{RwLockCallsOpen};
ghost use Rattle.steps_rwlock.specs.RwLockDeeds.{RwLockOwnersFollow, RwLockSectionsFollow, RwLockStepsCode};
ghost use Rattle.steps_rwlock.specs.RwLockDeeds.{RwLockStepsFollow};

/// Each step on the word of a reader-writer lock may do to the lock what its deeds say, and its
/// next place says what the thread does then.
pub fn rwlock_steps_follow()
    ensures { RwLockStepsFollow }
{}

/// Each step on the word leaves the word of the lock after its deeds.
pub fn rwlock_steps_code()
    ensures { RwLockStepsCode }
{}

/// Each step leaves the owners of the lock after its deeds.
pub fn rwlock_owners_follow()
    ensures { RwLockOwnersFollow }
{}

/// Each step into a section, in it, and out of it may do to the lock what its deeds say too, as may
/// the step of a thread whose time is up.
pub fn rwlock_sections_follow()
    ensures { RwLockSectionsFollow }
{}

/// Each step on the word of a reader-writer lock makes of its call what its next row says, the call
/// is made of the step's case, and its answer is true.
pub fn rwlock_steps_tell()
    ensures { RwLockStepsTell }
{}

/// Each step into a section, in it, and out of it answers truly.
pub fn rwlock_sections_tell()
    ensures { RwLockSectionsTell }
{}

/// A call that stands where its patience and its right allow goes on where they do.
pub fn rwlock_calls_stand()
    ensures { RwLockCallsStand }
{}

/// Where a thread looks at the word once more, its row is the same, and its call stands where it
/// may.
pub fn rwlock_looks_stand()
    ensures { RwLockLooksStand }
{}

/// An event that befalls a thread asleep makes of its call what its row says.
pub fn rwlock_sleepers_hear()
    ensures { RwLockSleepersHear }
{}

/// Each step takes its thread into the sections and lines of the lock, out of them, and into hands
/// as its act says.
pub fn rwlock_acts_move()
    ensures { RwLockActsMove }
{}

/// A thread that stands in a line sleeps there or is inside its section. A thread that is taken is
/// in a hand, and one that is woken is in none.
pub fn rwlock_sleepers_move()
    ensures { RwLockSleepersMove }
{}

/// A thread whose time is up goes into the section of its line.
pub fn rwlock_late_moves()
    ensures { RwLockLateMove }
{}

/// A call begins where it may stand, nowhere in the sections and lines of the lock, and has done
/// nothing.
pub fn rwlock_calls_open()
    ensures { RwLockCallsOpen }
{}
