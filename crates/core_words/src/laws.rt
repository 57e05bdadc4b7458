//! The laws of the rule for a thread that takes a step, whichever steps other threads take.
ghost use Rattle.core_words.specs.Laws.{CondvarMaySteps, CountMaySteps, ExclusiveIsAlone, MutexMaySteps};
ghost use Rattle.core_words.specs.Laws.{OnceIsKnown, OnceMaySteps, RwLockMaySteps, SemaphoreMaySteps};
ghost use Rattle.core_words.specs.Laws.{SemaphoreTrading};
ghost use Rattle.core_words.specs.RuleLaws.{CountsAnOwner, DrawnOnce, NeverFalls, PermitsAreAllThere};
ghost use Rattle.core_words.specs.RuleLaws.{RunsOneAtATime, ShownIsAMutex, UnlockedHasItsPermit};
ghost use Rattle.core_words.specs.RuleLaws.{UntouchedIs0};

/// Proves that an exclusive owner stands beside no other owner, in every word of a mutex or a
/// reader-writer lock that a step can find.
pub fn exclusive_is_alone()
    ensures { ExclusiveIsAlone }
{}

/// Allows steps on a mutex's word. Any thread may load it, enter it by an exchange or by setting
/// its bit, mark it as parked, and clear that mark. Its owner may leave it.
pub fn mutex_may_step()
    ensures { MutexMaySteps }
{}

/// Allows steps on a reader-writer lock's word. Any thread may load it, enter it where it has room
/// for that thread, mark it as parked, and clear that mark. An owner may leave, convert or hand
/// over what it owns.
pub fn rwlock_may_step()
    ensures { RwLockMaySteps }
{}

/// Allows steps on a `Once`'s word. Any thread may load it, take it where nobody runs it and it
/// isn't done, mark it as parked, and clear that mark. The thread that runs it may leave it done or
/// poisoned.
pub fn once_may_step()
    ensures { OnceMaySteps }
{}

/// Allows steps on a semaphore's word. Any thread may load it, mark it as parked, clear that mark,
/// and take a free permit. A thread that holds a permit may give it back, and the thread that drew
/// the word may give back all.
pub fn semaphore_may_step()
    ensures { SemaphoreMaySteps }
{}

/// Proves how a step changes a thread's permits. A thread that takes a permit has one more, and a
/// thread that gives one back has one less. A thread that gives back all that it drew has none of
/// them.
pub fn semaphore_trades()
    ensures { SemaphoreTrading }
{}

/// Proves that a thread that finds a `Once` done, or leaves it so, knows it after each further
/// step. The `Once` is done for ever then.
pub fn once_is_known()
    ensures { OnceIsKnown }
{}

/// Allows steps on a condition variable's word. Any thread may load it and set it to 0. The owner
/// of a mutex may show that mutex, where the word shows none.
pub fn condvar_may_step()
    ensures { CondvarMaySteps }
{}

/// Allows steps on a count word: any thread may load it. The thread that it is to name stores it.
pub fn count_may_step()
    ensures { CountMaySteps }
{}

/// Proves that the numbers below the counter were drawn, each once, and that each is a word of the
/// lot. No other number was drawn.
pub fn numbers_are_drawn_once()
    ensures { DrawnOnce }
{}

/// Proves that the counter of drawn words never falls below what a thread saw of it.
pub fn counter_never_falls()
    ensures { NeverFalls }
{}

/// Proves that a word on which nobody stepped is 0, drawn or not.
pub fn untouched_word_is_0()
    ensures { UntouchedIs0 }
{}

/// Proves that a condition variable shows no mutex, or one of the lot, of another number than its
/// own, on which somebody stepped.
pub fn shown_is_a_mutex_of_the_lot()
    ensures { ShownIsAMutex }
{}

/// Proves that a count word is 0, or a thread with how often it locked the mutex before. The word
/// is 0 where nobody owns that mutex.
pub fn count_is_of_an_owner()
    ensures { CountsAnOwner }
{}

/// Proves that one view of a lot at most runs a `Once`, and none where some view knows that it is
/// done.
pub fn runs_one_at_a_time()
    ensures { RunsOneAtATime }
{}

/// Proves that the permit of the value that an unlocked mutex guards lies in the slot beside its
/// word.
pub fn unlocked_mutex_has_its_permit()
    ensures { UnlockedHasItsPermit }
{}

/// Proves that the permits that all views name of a semaphore, with the free ones, are those with
/// which its word was drawn.
pub fn permits_are_all_there()
    ensures { PermitsAreAllThere }
{}
