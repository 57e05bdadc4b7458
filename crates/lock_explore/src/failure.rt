//! A run that went wrong.

use crate::schedule::schedule_lines;
use crate::script::script_text;
use core_director::{Course, Deed, Director, Ending, Grain, Log, Member, Policy};
use std::alloc::{AllocError, Global};

/// A run that went wrong.
pub struct Failure {
    /// What repeats the run, but for the policies `Exhaustive` and `Replay`.
    pub course: Course,
    pub ending: Ending,
    pub log: Log,
    /// What each thread was up to at the end.
    pub members: Vec<Member>,
}

// The drop is written, and not derived, so that it is proved here alone.
impl Drop for Failure {
    fn drop(self) {
        let Failure {
            course: _course,
            ending: _ending,
            log: _log,
            members: _members,
        } = self;
    }
}

impl Failure {
    pub(crate) fn of(
        director: &Director,
        course: Course,
        ending: Ending,
    ) -> Result<Failure, AllocError> {
        Ok(Failure {
            course,
            ending,
            log: director.log()?,
            members: director.members()?,
        })
    }

    /// Returns the arguments that repeat the run: by its seed, or by its threads where it has none.
    ///
    /// # Errors
    ///
    /// Where memory was refused.
    pub fn arguments(&self, alloc: Global) -> Result<String, AllocError> {
        let Course { seed, length, .. } = self.course;
        let grain = match self.course.grain {
            Grain::Call => "",
            Grain::Step => " --grain step",
        };
        match self.course.policy {
            Policy::Random => { format!(in alloc; "--policy random --seed {seed} --runs 1{grain}") }
            Policy::Priorities { depth } => {
                format!(in alloc;
                    "--policy pct --depth {depth} --length {length} --seed {seed} --runs 1{grain}"
                )
            }
            Policy::RoundRobin { .. } => format!(in alloc; "--policy round{grain}"),
            Policy::Exhaustive { .. } | Policy::Replay => {
                let script = self.script(alloc)?;
                format!(in alloc; "--replay {script}{grain}")
            }
        }
    }

    /// Returns the threads that had the turns, as `Policy::Replay` takes them.
    ///
    /// # Errors
    ///
    /// Where memory was refused.
    pub fn script(&self, alloc: Global) -> Result<String, AllocError> {
        let mut threads = Vec::new(alloc);
        for turn in &self.log.turns {
            if turn.deed != Deed::LateAtOnce {
                threads.push(turn.thread)?;
            }
        }
        script_text(alloc, threads.as_slice())
    }

    /// Returns the run as the lines of a schedule. None of a run by steps, and where no schedule has
    /// such locks.
    ///
    /// # Errors
    ///
    /// Where memory was refused.
    pub fn schedule(&self, alloc: Global) -> Result<Option<Vec<String>>, AllocError> {
        schedule_lines(alloc, self)
    }
}
