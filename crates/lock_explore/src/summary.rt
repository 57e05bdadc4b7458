//! What came of the runs.

use crate::failure::Failure;
use crate::silent::silent_threads;
use core_director::{Director, Ending};
use std::alloc::{AllocError, Global};

/// How many runs had an ending, and the seed of the first of them.
#[derive(Clone, Copy, Debug, PartialEq, Eq)]
pub struct Tally {
    pub runs: u64,
    pub first: Option<u64>,
}

impl Tally {
    const NONE: Tally = Tally {
        runs: 0,
        first: None,
    };

    fn add(&mut self, seed: u64) {
        self.runs = self.runs.saturating_add(1);
        if self.first.is_none() {
            self.first = Some(seed);
        }
    }
}

/// What came of the runs.
pub struct Summary {
    pub runs: u64,
    /// The turns of all runs.
    pub turns: u64,
    /// The most turns of a run that came to an end by itself.
    pub longest: u64,
    pub fine: Tally,
    pub deadlocks: Tally,
    pub failed: Tally,
    pub too_long: Tally,
    pub stuck: Tally,
    pub strayed: Tally,
    /// Whether all schedules were run that the policy `Exhaustive` has.
    pub is_complete: bool,
    /// The first run that went wrong.
    pub failure: Option<Failure>,
    /// The threads that have come to their ends in each run, and have made no call in a turn. Their
    /// calls are not directed.
    pub silent: Vec<usize>,
}

// The drop is written, and not derived, so that it is proved here alone.
impl Drop for Summary {
    fn drop(self) {
        let Summary {
            runs: _runs,
            turns: _turns,
            longest: _longest,
            fine: _fine,
            deadlocks: _deadlocks,
            failed: _failed,
            too_long: _too_long,
            stuck: _stuck,
            strayed: _strayed,
            is_complete: _is_complete,
            failure: _failure,
            silent: _silent,
        } = self;
    }
}

impl Summary {
    pub(crate) fn new(alloc: Global) -> Summary {
        Summary {
            runs: 0,
            turns: 0,
            longest: 0,
            fine: Tally::NONE,
            deadlocks: Tally::NONE,
            failed: Tally::NONE,
            too_long: Tally::NONE,
            stuck: Tally::NONE,
            strayed: Tally::NONE,
            is_complete: false,
            failure: None,
            silent: Vec::new(alloc),
        }
    }

    pub(crate) fn add(&mut self, seed: u64, ending: Ending, turns: u64) {
        self.runs = self.runs.saturating_add(1);
        self.turns = self.turns.saturating_add(turns);
        if ending != Ending::TooLong {
            self.longest = self.longest.max(turns);
        }
        match ending {
            Ending::Fine => self.fine.add(seed),
            Ending::Deadlock => self.deadlocks.add(seed),
            Ending::Failed => self.failed.add(seed),
            Ending::TooLong => self.too_long.add(seed),
            Ending::Stuck(_) => self.stuck.add(seed),
            Ending::Strayed => self.strayed.add(seed),
        }
    }

    /// Notes which threads have made no call in a turn, of those that made none in each run before. The
    /// run is counted already.
    pub(crate) fn note_silent(
        &mut self,
        alloc: Global,
        director: &Director,
    ) -> Result<(), AllocError> {
        if self.runs > 1 && self.silent.is_empty() {
            return Ok(());
        }
        let mut still = Vec::new(alloc);
        for thread in silent_threads(alloc, director)? {
            if self.runs == 1 || self.silent.contains(&thread) {
                still.push(thread)?;
            }
        }
        self.silent = still;
        Ok(())
    }

    /// Returns how many runs went wrong.
    pub fn wrong(&self) -> u64 {
        self.runs.saturating_sub(self.fine.runs)
    }

    /// Returns each ending by its name, with its runs.
    pub fn tallies(&self) -> [(&'static str, Tally); 6] {
        [
            ("fine", self.fine),
            ("deadlock", self.deadlocks),
            ("failed", self.failed),
            ("too long", self.too_long),
            ("stuck", self.stuck),
            ("strayed", self.strayed),
        ]
    }
}
