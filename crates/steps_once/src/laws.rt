//! The laws of the steps of a `Once`.
ghost use Rattle.steps_once.specs.OnceCalls.{OnceSectionsTell, OnceSleepersHear, OnceStepsTell};
ghost use Rattle.steps_once.specs.OnceMoves.{OnceActsMove, OnceLateMove, OnceSleepersMove};
ghost use Rattle.steps_once.specs.OnceRows.{OnceRowsKeep};
ghost use Rattle.steps_once.specs.OnceDeeds.{OnceOwnersFollow, OnceSectionsFollow, OnceStepsCode};
ghost use Rattle.steps_once.specs.OnceDeeds.{OnceStepsFollow};

/// Each step on the word of a `Once` may do to it what its deeds say, and its next place says what
/// the thread does then.
pub fn once_steps_follow()
    ensures { OnceStepsFollow }
{}

/// Each step on the word leaves the word of the `Once` after its deeds.
pub fn once_steps_code()
    ensures { OnceStepsCode }
{}

/// Each step leaves the phase of the `Once` as its deeds say.
pub fn once_owners_follow()
    ensures { OnceOwnersFollow }
{}

/// Each step into the section, in it, and out of it may do to the `Once` what its deeds say too.
pub fn once_sections_follow()
    ensures { OnceSectionsFollow }
{}

/// Each step on the word of a `Once` makes of its call what its next row says, the call is made of
/// the step's case, and its answer is true.
pub fn once_steps_tell()
    ensures { OnceStepsTell }
{}

/// Each step into the section, in it, and out of it answers truly.
pub fn once_sections_tell()
    ensures { OnceSectionsTell }
{}

/// An event that befalls a thread asleep makes of its call what its row says.
pub fn once_sleepers_hear()
    ensures { OnceSleepersHear }
{}

/// Each step takes its thread in the machine where its act says: into the section and the queue,
/// out of them, and into hands.
pub fn once_acts_move()
    ensures { OnceActsMove }
{}

/// Each act that befalls a sleeper moves it as that act says.
pub fn once_sleepers_move()
    ensures { OnceSleepersMove }
{}

/// Does the same of the step by which a sleeper gives up.
pub fn once_late_move()
    ensures { OnceLateMove }
{}

/// Each row keeps what is promised of its thread: it owes wake-ups, sleeps and ends as it may.
pub fn once_rows_keep()
    ensures { OnceRowsKeep }
{}
