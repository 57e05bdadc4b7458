//! A run of a program that goes wrong.
ghost use Rattle.lot_program.specs.Programs.{IsFit};

use crate::source::Source;
use crate::words::line_of;
use core_base::ListQueues;
use lot_explore::{Walk, Wrong, follow};
use lot_program::Program;
use lot_world::{Step, World};
use state_search::NoRoom;
use std::alloc::Global;

/// Turns at the end of a run that come again and again, and keep a thread from its end.
#[derive(Clone, Copy, Debug, PartialEq, Eq)]
pub struct Lap {
    /// The line that says that the thread comes to its end.
    pub line: u32,
    pub turns: usize,
    pub steps: usize,
}

/// A run: its turns, its steps, the world to which they lead, and what is wrong there.
pub struct Finding<'a> {
    pub source: Source<'a>,
    pub wrong: Option<Wrong>,
    pub lap: Option<Lap>,
    pub walk: Walk<'a, ListQueues>,
    pub steps: Vec<Step>,
    pub world: World<ListQueues>,
}

// By hand: a derived drop is written out at each exit of each function that owns one.
impl<'a> Drop for Finding<'a> {
    fn drop(self) {
        let Finding {
            source: _,
            wrong: _,
            lap: _,
            walk: _,
            steps: _,
            world: _,
        } = self;
    }
}

impl<'a> Finding<'a> {
    /// Takes a walk, and looks what is wrong where it leads.
    ///
    /// # Errors
    ///
    /// `NoRoom`, where memory was refused.
    pub fn new(
        alloc: Global,
        source: Source<'a>,
        mut walk: Walk<'a, ListQueues>,
    ) -> Result<Finding<'a>, NoRoom> {
        let wrong = walk.wrong()?;
        let program = &source.parsed.program;
        if !program.is_fit() {
            return Err(NoRoom);
        }
        // A walk's moves are possible.
        let Some(steps) = follow::<ListQueues>(alloc, program, walk.moves())? else {
            return Err(NoRoom);
        };
        let mut world = new_world(alloc, program)?;
        for step in steps.iter() {
            world.step(*step);
        }
        Ok(Finding {
            source,
            wrong,
            lap: None,
            walk,
            steps,
            world,
        })
    }

    /// Returns the word that the first line begins with.
    pub fn word(&self) -> &'static str {
        self.source.word(self.wrong)
    }

    /// Returns the line of the assertion or the property that is broken.
    pub fn broken_line(&self) -> Option<u32> {
        match self.wrong {
            Some(Wrong::Failed { thread }) => Some(line_of(&self.walk, thread)),
            Some(Wrong::Broken { .. }) => self.property_line(),
            Some(Wrong::Deadlock | Wrong::Refused { .. }) => None,
            None => self.property_line(),
        }
    }

    /// Returns the thread whose assertion fails, or whose call is refused.
    pub fn faulty_thread(&self) -> Option<usize> {
        match self.wrong {
            Some(Wrong::Failed { thread } | Wrong::Refused { thread }) => Some(thread),
            Some(Wrong::Deadlock | Wrong::Broken { .. }) | None => None,
        }
    }

    /// Returns the line of the property or the ending that is broken.
    pub fn property_line(&self) -> Option<u32> {
        match self.wrong {
            Some(Wrong::Broken { property }) => {
                self.source.parsed.property_lines.get(property).copied()
            }
            Some(Wrong::Deadlock | Wrong::Refused { .. } | Wrong::Failed { .. }) => None,
            None => self.lap.map(|lap| lap.line),
        }
    }
}

/// Returns the world in which a program starts.
///
/// # Errors
///
/// `NoRoom`, where memory was refused.
pub fn new_world(alloc: Global, program: &Program) -> Result<World<ListQueues>, NoRoom>
    requires { IsFit program.now }
{
    World::new(alloc, program.kinds.as_slice(), program.threads()).map_err(|_| NoRoom)
}
