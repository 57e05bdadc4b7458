//! The words of new locks are true.
ghost use Rattle.lot_machine.specs.NewLocks.{NewWordsAreTrue};

/// The word of a new lock of each kind is the one of an abstract lock that nobody owns and nobody
/// waits for: of a semaphore all permits are free.
pub fn new_words_are_true()
    ensures { NewWordsAreTrue }
{}
