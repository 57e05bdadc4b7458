//! How a walk goes wrong.
use crate::draft::Draft;
use core_base::ListQueues;
use lot_explore::{Walk, Wrong};
use lot_findings::line_of;
use lot_program_text::ProgramText;
use state_search::NoRoom;
use std::alloc::Global;

/// How a walk goes wrong: in which way, and where each thread that has a part in it is then. Lines have their
/// numbers in the whole text.
#[derive(Drop, Debug, PartialEq, Eq)]
pub(crate) struct Manner {
    way: Way,
    stands: Vec<Option<u32>>,
}

/// A way to go wrong.
#[derive(Clone, Copy, Debug, PartialEq, Eq)]
pub(crate) enum Way {
    Deadlock,
    Refused { thread: usize },
    Failed { thread: usize },
    /// The property of a line is broken.
    Broken { line: u32 },
}

impl Manner {
    /// Returns how a walk goes wrong in the program of a draft, or of a whole text, or none where it doesn't.
    ///
    /// # Errors
    ///
    /// `NoRoom`, where memory was refused.
    pub fn of(
        alloc: Global,
        draft: Option<&Draft<'_>>,
        parsed: &ProgramText,
        walk: &mut Walk<'_, ListQueues>,
    ) -> Result<Option<Manner>, NoRoom> {
        let Some(wrong) = walk.wrong()? else {
            return Ok(None);
        };
        let mut stands = Vec::new(alloc);
        for thread in 0..walk.program().threads() {
            let stand = has_part(walk, thread, wrong).then(|| number_in(
                draft,
                line_of(walk, thread),
            ));
            stands.push(stand).map_err(|_| NoRoom)?;
        }
        let way = way_of(draft, parsed, wrong);
        Ok(Some(Manner { way, stands }))
    }

    /// Returns the line of the property that is broken.
    pub fn property_line(&self) -> Option<u32> {
        match self.way {
            Way::Broken { line } => Some(line),
            Way::Deadlock | Way::Refused { .. } | Way::Failed { .. } => None,
        }
    }
}

// Returns the number of a line in the whole text.
fn number_in(draft: Option<&Draft<'_>>, line: u32) -> u32 {
    match draft {
        Some(draft) => draft.number(line),
        None => line,
    }
}

fn way_of(draft: Option<&Draft<'_>>, parsed: &ProgramText, wrong: Wrong) -> Way {
    match wrong {
        Wrong::Deadlock => Way::Deadlock,
        Wrong::Refused { thread } => Way::Refused { thread },
        Wrong::Failed { thread } => Way::Failed { thread },
        Wrong::Broken { property } => {
            let line = parsed.property_lines.get(property).copied().unwrap_or(0);
            Way::Broken {
                line: number_in(draft, line),
            }
        }
    }
}

// Answers whether a thread has a part in what is wrong.
fn has_part(walk: &Walk<'_, ListQueues>, thread: usize, wrong: Wrong) -> bool {
    match wrong {
        Wrong::Deadlock => !walk.scene().is_through(walk.program(), thread),
        Wrong::Refused { thread: own } | Wrong::Failed { thread: own } => own == thread,
        Wrong::Broken { property: _ } => false,
    }
}
