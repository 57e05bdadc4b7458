//! The laws of the steps of a semaphore.
ghost use Rattle.steps_semaphore.specs.SemaphoreLaws.{SemaphoreRowsKeep, SemaphoreStepsCode};
ghost use Rattle.steps_semaphore.specs.SemaphoreLaws.{SemaphoreStepsFollow, SemaphoreStepsTell};
ghost use Rattle.steps_semaphore.specs.PermitInvariant.{NewOnesAreTended, NobodyIsForgotten, StepsKeepTended};
ghost use Rattle.steps_semaphore.specs.PermitInvariant.{SemaphoreWordsTellTrue};

/// Each step of a semaphore may do to it what its deeds say, and its next place says what the
/// thread does then.
pub fn semaphore_steps_follow()
    ensures { SemaphoreStepsFollow }
{}

/// Each step leaves the word and the permits of the semaphore after its deeds.
pub fn semaphore_steps_code()
    ensures { SemaphoreStepsCode }
{}

/// Each step makes of its call what its next row says, the call is made of the step's case, and its
/// answer is true.
pub fn semaphore_steps_tell()
    ensures { SemaphoreStepsTell }
{}

/// Each row keeps what is promised of its thread: it owes wake-ups, sleeps and ends as it may.
pub fn semaphore_rows_keep()
    ensures { SemaphoreRowsKeep }
{}

/// Each step keeps what holds of a semaphore between steps: the threads that hold a permit and
/// those that look after the queue are no fewer than the permits while somebody waits.
pub fn semaphore_steps_keep_tended()
    ensures { StepsKeepTended }
{}

/// A new semaphore is tended.
pub fn new_semaphores_are_tended()
    ensures { NewOnesAreTended }
{}

/// While a thread waits beside a free permit, another is to wake the next, has it in hand, or tries
/// again.
pub fn nobody_is_forgotten()
    ensures { NobodyIsForgotten }
{}

/// The word of a semaphore tells a thread the truth.
pub fn semaphore_words_tell_true()
    ensures { SemaphoreWordsTellTrue }
{}
