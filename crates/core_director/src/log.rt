//! What a run did.

use crate::turns::{Ending, Turn};
use std::alloc::{AllocError, Global};

/// A choice between several threads.
#[derive(Clone, Copy, Debug, PartialEq, Eq)]
pub struct Choice {
    /// The place of the thread that was chosen among the candidates.
    pub chosen: u64,
    /// How many candidates there were, at least 2.
    pub candidates: u64,
}

/// The sort of a lock that was drawn, as a schedule declares it.
#[derive(Clone, Copy, Debug, PartialEq, Eq)]
pub enum Sort {
    Mutex,
    FairMutex,
    /// The count of a reentrant mutex, which no schedule has.
    Count,
    RwLock {
        /// Whether readers may join while a writer waits.
        recursive: bool,
        /// The readers at most. None where no limit was set.
        readers: Option<u64>,
    },
    Condvar,
    Once,
    /// A `Once` that was made done, which no schedule has.
    DoneOnce,
    Semaphore {
        permits: u64,
    },
}

/// A word that was drawn, of a lock of this sort.
#[derive(Clone, Copy, Debug, PartialEq, Eq)]
pub struct NewWord {
    pub number: usize,
    pub sort: Sort,
}

/// What a run did.
pub struct Log {
    pub turns: Vec<Turn>,
    /// The choices that the policy `Exhaustive` had.
    pub choices: Vec<Choice>,
    pub words: Vec<NewWord>,
    pub ending: Option<Ending>,
    /// What is wrong, where the run failed.
    pub fault: String,
    // Memory was refused, and something is missing.
    pub(crate) lost: bool,
}

// The drop is written, and not derived, so that it is proved here alone.
impl Drop for Log {
    fn drop(self) {
        let Log {
            turns: _turns,
            choices: _choices,
            words: _words,
            ending: _ending,
            fault: _fault,
            lost: _lost,
        } = self;
    }
}

impl Log {
    pub(crate) fn new(alloc: Global) -> Log {
        Log {
            turns: Vec::new(alloc),
            choices: Vec::new(alloc),
            words: Vec::new(alloc),
            ending: None,
            fault: String::new(alloc),
            lost: false,
        }
    }

    pub(crate) fn add_turn(&mut self, turn: Turn) {
        if self.turns.push(turn).is_err() {
            self.lost = true;
        }
    }

    pub(crate) fn add_choice(&mut self, choice: Choice) {
        if self.choices.push(choice).is_err() {
            self.lost = true;
        }
    }

    pub(crate) fn add_word(&mut self, word: NewWord) {
        if self.words.push(word).is_err() {
            self.lost = true;
        }
    }

    /// Notes how the run ended, the first time.
    pub(crate) fn end(&mut self, ending: Ending) {
        if self.ending.is_none() {
            self.ending = Some(ending);
        }
    }

    /// Notes that something is wrong, where the run is not at its end yet.
    pub(crate) fn fail(&mut self, what: &str) {
        if self.ending.is_none() {
            self.ending = Some(Ending::Failed);
            if self.fault.push_str(what).is_err() {
                self.lost = true;
            }
        }
    }

    /// Returns a copy.
    ///
    /// # Errors
    ///
    /// Where memory was refused, now or during the run.
    pub(crate) fn copy(&self) -> Result<Log, AllocError> {
        if self.lost {
            return Err(AllocError);
        }
        Ok(Log {
            turns: self.turns.clone()?,
            choices: self.choices.clone()?,
            words: self.words.clone()?,
            ending: self.ending,
            fault: self.fault.clone()?,
            lost: false,
        })
    }
}
