//! The laws of the steps of a mutex.
ghost use Rattle.steps_mutex.specs.MutexLaws.{MutexHandOversCode, MutexRowsKeep, MutexStepsCode};
ghost use Rattle.steps_mutex.specs.MutexLaws.{MutexStepsFollow, MutexStepsTell};

/// Each step of a mutex may do to it what its deeds say, and its next place says what the thread
/// does then.
pub fn mutex_steps_follow()
    ensures { MutexStepsFollow }
{}

/// The word and the owner that an operation leaves are those of the mutex after its deeds.
pub fn mutex_steps_code()
    ensures { MutexStepsCode }
{}

/// An operation that hands the mutex over leaves its word too, and the heir owns it.
pub fn mutex_hand_overs_code()
    ensures { MutexHandOversCode }
{}

/// Each step makes of its call what its next row says, the call is made of the step's case, and its
/// answer is true.
pub fn mutex_steps_tell()
    ensures { MutexStepsTell }
{}

/// Each row keeps what is promised of its thread: it owes wake-ups, sleeps and ends as it may.
pub fn mutex_rows_keep()
    ensures { MutexRowsKeep }
{}
