//! The laws of the steps of a condition variable.
ghost use Rattle.steps_condvar.specs.CondvarCalls.{CondvarPlacesReached, LooksTell, NotifiesTell};
ghost use Rattle.steps_condvar.specs.CondvarCalls.{WaitersAreTold, WaitsTell};
ghost use Rattle.steps_condvar.specs.CondvarDeeds.{CondvarMovesFit, CondvarOwnersFollow, CondvarStepsCode};
ghost use Rattle.steps_condvar.specs.CondvarDeeds.{CondvarStepsFollow};
ghost use Rattle.steps_condvar.specs.CondvarMoves.{LooksMove, NotifiesMove, WaitersLookAgain, WaitersMove};
ghost use Rattle.steps_condvar.specs.CondvarMoves.{WaitsBegin, WaitsMove};
ghost use Rattle.steps_condvar.specs.CondvarMutex.{NotifiersCode, NotifiersFollow};
ghost use Rattle.steps_condvar.specs.CondvarWaits.{WaitersCode, WaitersFollow, WaitersHear};

/// Each step of a thread may do to the condition variable what its deeds say, and its next place
/// says where the thread is after them.
pub fn condvar_steps_follow()
    ensures { CondvarStepsFollow }
{}

/// Each step on the word leaves the word of the condition variable after its deeds.
pub fn condvar_steps_code()
    ensures { CondvarStepsCode }
{}

/// Each step shows the mutex that is shown after its deeds.
pub fn condvar_owners_follow()
    ensures { CondvarOwnersFollow }
{}

/// Where a notification moves waiters, there are some, each waits with the mutex that it saw, and
/// that mutex may be brought them.
pub fn condvar_moves_fit()
    ensures { CondvarMovesFit }
{}

/// Each step of a notification may do to the mutex beside it what its deeds say, and its next place
/// says what the thread does there then.
pub fn notifiers_follow()
    ensures { NotifiersFollow }
{}

/// Each step of a notification on the word of the mutex leaves the word of the mutex after its
/// deeds.
pub fn notifiers_code()
    ensures { NotifiersCode }
{}

/// Each step of a wait may do to its mutex what its deeds say, and its next place says what the
/// thread does there then.
pub fn waiters_follow()
    ensures { WaitersFollow }
{}

/// Each step of a wait on the word of the mutex leaves the word of the mutex after its deeds, and
/// the owner.
pub fn waiters_code()
    ensures { WaitersCode }
{}

/// An event that befalls a wait, in a queue or in a hand, makes of what it does at its mutex what
/// its next place says.
pub fn waiters_hear()
    ensures { WaitersHear }
{}

/// Each step of a wait makes of its call what its next rows say, the call is made of what the step
/// does, and its answer is true: no wait ends as notified that wasn't, and each has its mutex
/// again.
pub fn waits_tell()
    ensures { WaitsTell }
{}

/// An event that befalls a waiter makes of its call what its next rows say.
pub fn waiters_are_told()
    ensures { WaitersAreTold }
{}

/// Each step of a notification makes of its call what its next rows say, and it answers how many it
/// has moved.
pub fn notifies_tell()
    ensures { NotifiesTell }
{}

/// A notification's first look answers truly.
pub fn looks_tell()
    ensures { LooksTell }
{}

/// A call comes only to places at which these laws speak of it.
pub fn condvar_places_reached()
    ensures { CondvarPlacesReached }
{}

/// Each step of a wait takes its thread in the machine where its act says, at each of its two
/// locks: into sections and queues, out of them, and into hands.
pub fn waits_move()
    ensures { WaitsMove }
{}

/// Each step of a notification moves its thread as its act says.
pub fn notifies_move()
    ensures { NotifiesMove }
{}

/// A notification's first look moves its thread as its act says.
pub fn looks_move()
    ensures { LooksMove }
{}

/// Each act that befalls a waiter moves it as that act says.
pub fn waiters_move()
    ensures { WaitersMove }
{}

/// A wait begins where its thread stands nowhere and owns its mutex.
pub fn waits_begin()
    ensures { WaitsBegin }
{}

/// Where a waiter looks at its mutex once more, its place says the same.
pub fn waiters_look_again()
    ensures { WaitersLookAgain }
{}
