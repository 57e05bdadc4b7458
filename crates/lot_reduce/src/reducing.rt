//! A program that goes wrong, with what it doesn't need left out as long as it does.
use crate::draft::Draft;
use crate::lines::{Line, LineSort};
use crate::manner::Manner;
use crate::smaller::{Part, parts_at};
use core_base::ListQueues;
use lot_explore::{Walk, explore_from};
use lot_findings::{Source, Turns, walk_by, walk_on};
use lot_program_text::{ProgramText, parse};
use state_search::{Limits, NoRoom, Observer, Pace, Verdict};
use std::alloc::Global;

/// How often all lines are tried.
const MOST_ROUNDS: usize = 8;

/// A program that is left, and the moves of its shortest schedule that goes wrong.
#[derive(Drop)]
pub struct Reduced {
    pub text: String,
    pub parsed: ProgramText,
    pub moves: Vec<usize>,
    /// The lines of the whole text that are left out, by their numbers.
    pub left_out: Vec<u32>,
}

/// How programs are searched.
#[derive(Clone, Copy)]
pub struct Search {
    pub turns: Turns,
    pub limits: Limits,
}

/// Leaves out of a program what it doesn't need to go wrong as a walk in it does: threads, properties, rights
/// that are acquired and released, blocks that change no variable, and turns of `repeat`. What changes a
/// variable, waits or notifies goes only with its thread. Each program on the way is searched within these
/// limits, as deep as the walk goes: its shortest schedule goes wrong in the same way, and each thread that
/// has a part in it is at the same line. It ends early where the observer stops a search.
///
/// # Errors
///
/// `NoRoom`, where memory was refused, and where the program is not as its text says.
pub fn reduce<O: Observer>(
    alloc: Global,
    search: Search,
    source: Source<'_>,
    walk: &mut Walk<'_, ListQueues>,
    observer: &mut O,
) -> Result<Option<Reduced>, NoRoom> {
    let Some(manner) = Manner::of(alloc, None, source.parsed, walk)? else {
        return Ok(None);
    };
    let mut reducer = Reducer {
        alloc,
        search,
        manner,
        observer: Within {
            most: walk.moves().len(),
            observer,
            is_stopped: false,
        },
    };
    let Some(mut best) = reducer.attempt(Draft::of(alloc, source.text)?)? else {
        return Ok(None);
    };
    for round in 0..MOST_ROUNDS {
        let before = best.draft.lines.len();
        best = reducer.round(best, round == 0)?;
        if round != 0 && best.draft.lines.len() == before {
            break;
        }
    }
    best.into_reduced(alloc, source.text).map(Some)
}

/// An observer that stops a search at a depth, or where another does.
#[derive(Drop)]
struct Within<'o, O: Observer> {
    most: usize,
    observer: &'o mut O,
    is_stopped: bool,
}

impl<'o, O: Observer> Observer for Within<'o, O> {
    ghost stopped = { λ _. Unit {0} };

    fn level(&mut self, depth: usize, _states: usize) -> Pace {
        if depth > self.most {
            Pace::Stops
        } else {
            Pace::GoesOn
        }
    }

    fn state(&mut self, states: usize) -> Pace {
        let pace = self.observer.state(states);
        self.is_stopped = self.is_stopped || pace == Pace::Stops;
        pace
    }
}

/// A draft that goes wrong as it should, with its shortest schedule.
#[derive(Drop)]
struct Tried<'t> {
    draft: Draft<'t>,
    text: String,
    parsed: ProgramText,
    moves: Vec<usize>,
}

/// What drafts are tried by.
#[derive(Drop)]
struct Reducer<'o, O: Observer> {
    alloc: Global,
    search: Search,
    manner: Manner,
    observer: Within<'o, O>,
}

impl<'o, O: Observer> Reducer<'o, O> {
    // Leaves out what can be, at each line from the last to the first. The rough round leaves out threads and
    // properties alone.
    fn round<'t>(&mut self, first: Tried<'t>, is_rough: bool) -> Result<Tried<'t>, NoRoom> {
        let mut best = first;
        for at in (0..best.draft.lines.len()).rev() {
            best = self.leave_out_at(best, at, is_rough)?;
        }
        Ok(best)
    }

    // Leaves out what can be at a line.
    fn leave_out_at<'t>(
        &mut self,
        first: Tried<'t>,
        at: usize,
        is_rough: bool,
    ) -> Result<Tried<'t>, NoRoom> {
        let mut best = first;
        let Some(line) = best.draft.line(at) else {
            return Ok(best);
        };
        for part in self.parts(line, is_rough) {
            if self.observer.is_stopped
                || best.draft.line(at).map(|line| line.number) != Some(line.number)
            {
                break;
            }
            if let Some(draft) = best.draft.without(self.alloc, at, *part)? {
                if let Some(smaller) = self.attempt(draft)? {
                    best = smaller;
                }
            }
        }
        Ok(best)
    }

    // Returns what may be left out at a line.
    fn parts(&self, line: Line<'_>, is_rough: bool) -> &'static [Part] {
        let is_of_all = matches!(
            line.sort,
            LineSort::Threads { .. } | LineSort::Property | LineSort::Never
        );
        if self.manner.property_line() == Some(line.number) || (is_rough && !is_of_all) {
            return &[];
        }
        parts_at(line)
    }

    // Searches the program of a draft, and returns it where it goes wrong as it should.
    fn attempt<'t>(&mut self, draft: Draft<'t>) -> Result<Option<Tried<'t>>, NoRoom> {
        let Some(text) = draft.text(self.alloc).map_err(|_| NoRoom)? else {
            return Ok(None);
        };
        let Ok(mut parsed) = parse(self.alloc, text.as_str()) else {
            return Ok(None);
        };
        self.search.turns.set(&mut parsed.program);
        let Some(moves) = self.moves_of(&draft, &parsed, text.as_str())? else {
            return Ok(None);
        };
        Ok(Some(Tried {
            draft,
            text,
            parsed,
            moves,
        }))
    }

    // Returns the moves of the shortest schedule of a program that goes wrong, where it does so as it should.
    fn moves_of(
        &mut self,
        draft: &Draft<'_>,
        parsed: &ProgramText,
        text: &str,
    ) -> Result<Option<Vec<usize>>, NoRoom> {
        let source = Source {
            parsed,
            text,
            left_out: &[],
        };
        let mut walk = walk_by(self.alloc, source, &[])?;
        match explore_from(self.alloc, &walk, self.search.limits, &mut self.observer) {
            Verdict::Broken { moves } => {
                walk_on(&mut walk, moves.as_slice())?;
                let manner = Manner::of(self.alloc, Some(draft), parsed, &mut walk)?;
                Ok((manner.as_ref() == Some(&self.manner)).then_some(moves))
            }
            Verdict::Holds { .. } | Verdict::Limited { .. } => Ok(None),
            Verdict::NoMemory { .. } | Verdict::Stopped { .. } => Ok(None),
        }
    }
}

impl Tried<'_> {
    // Returns the program with the lines of the whole text that it hasn't got.
    fn into_reduced(self, alloc: Global, whole: &str) -> Result<Reduced, NoRoom> {
        let Tried {
            draft,
            text,
            parsed,
            moves,
        } = self;
        let mut left_out = Vec::new(alloc);
        for line in Draft::of(alloc, whole)?.lines.iter() {
            if !draft.lines.iter().any(|left| left.number == line.number) {
                left_out.push(line.number).map_err(|_| NoRoom)?;
            }
        }
        Ok(Reduced {
            text,
            parsed,
            moves,
            left_out,
        })
    }
}
