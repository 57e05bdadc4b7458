//! The first line of what is printed, whose words don't change.
use crate::grain::GrainName;
use state_search::Verdict;
use std::fmt;

/// Where schedules begin that a search tries.
#[derive(Clone, Copy, Debug, PartialEq, Eq)]
pub enum Start {
    /// At the start of the program.
    Program,
    /// After the turns of a schedule that is given.
    Schedule,
}

impl Start {
    /// Returns where schedules begin that go on after some moves.
    pub fn of_moves(moves: &[usize]) -> Start {
        if moves.is_empty() {
            Start::Program
        } else {
            Start::Schedule
        }
    }
}

/// Which schedules a search tries.
#[derive(Clone, Copy, Debug, PartialEq, Eq)]
pub struct Scope {
    pub grain: GrainName,
    pub start: Start,
    /// How many states a search by calls has seen before, where it found nothing and saw all.
    pub calls: Option<usize>,
}

/// What a search has found, in one line.
#[derive(Clone, Copy, Drop)]
pub enum Headline<'a> {
    /// All states were searched.
    Nothing {
        states: usize,
        scope: Scope,
    },
    /// Not all states were searched, for a reason.
    NotAll {
        states: usize,
        depth: usize,
        scope: Scope,
        why: &'a str,
    },
    /// Walks at random found nothing: how many, and from which seed on.
    Walked {
        walks: u64,
        turns: usize,
        seed: u64,
        grain: GrainName,
    },
    /// A schedule of so many turns goes wrong.
    Wrong {
        word: &'a str,
        turns: usize,
        grain: GrainName,
        /// The seed of the walk that found the schedule.
        seed: Option<u64>,
    },
    /// After so many turns so many others come again and again, and keep a thread from its end.
    Endless {
        turns: usize,
        lap: usize,
        grain: GrainName,
    },
    /// One goes wrong, and there is no memory to print it.
    NoSchedule {
        turns: usize,
    },
    /// After so many turns no thread in a call can go on.
    Rests {
        turns: usize,
        grain: GrainName,
    },
}

impl<'a> Headline<'a> {
    /// Returns the line of a verdict, or the moves of the schedule that it found.
    ///
    /// # Errors
    ///
    /// The moves of the schedule, where the verdict has found one.
    pub fn of_verdict<'v>(
        verdict: &'v Verdict,
        scope: Scope,
        stopped: &'a str,
    ) -> Result<Headline<'a>, &'v [usize]> {
        let (states, depth, why) = match verdict {
            Verdict::Broken { moves } => return Err(moves.as_slice()),
            Verdict::Holds { states, depth: _ } => {
                return Ok(Headline::Nothing {
                    states: *states,
                    scope,
                });
            }
            Verdict::Limited { states, depth } => (*states, *depth, "the limit is reached"),
            Verdict::NoMemory { states, depth } => (*states, *depth, "memory was refused"),
            Verdict::Stopped { states, depth } => (*states, *depth, stopped),
        };
        Ok(Headline::NotAll {
            states,
            depth,
            scope,
            why,
        })
    }
}

impl fmt::Display for Headline<'_> {
    fn fmt<W: fmt::Write>(&self, f: &mut fmt::Formatter<W>) -> fmt::Result {
        match *self {
            Headline::Nothing { states, scope } => write_nothing(f, states, scope),
            Headline::NotAll {
                states,
                depth,
                scope,
                why,
            } => {
                let grain = scope.grain;
                write!(
                    f,
                    "nothing found in {states} states, complete to depth {depth}, "
                )?;
                write!(f, "grain {grain}; {why}")?;
                match scope.calls {
                    Some(_) => write!(f, "; no schedule of whole calls goes wrong"),
                    None => Ok(()),
                }
            }
            Headline::Walked {
                walks,
                turns,
                seed,
                grain,
            } => {
                write!(
                    f,
                    "nothing found in {walks} walks of at most {turns} turns, "
                )?;
                write!(f, "from seed {seed} on, grain {grain}; not all")
            }
            Headline::Wrong {
                word,
                turns,
                grain,
                seed,
            } => {
                write!(f, "{word} after {turns} turns, grain {grain}")?;
                match seed {
                    Some(seed) => write!(f, ", seed {seed}"),
                    None => Ok(()),
                }
            }
            Headline::Endless { turns, lap, grain } => {
                write!(f, "endless after {turns} turns, by {lap} again and again, ")?;
                write!(f, "grain {grain}")
            }
            Headline::NoSchedule { turns } => {
                write!(f, "wrong after {turns} turns; no memory for the schedule")
            }
            Headline::Rests { turns, grain } => {
                write!(f, "at rest after {turns} turns, grain {grain}")
            }
        }
    }
}

fn write_nothing<W: fmt::Write>(
    f: &mut fmt::Formatter<W>,
    states: usize,
    scope: Scope,
) -> fmt::Result {
    let turns = scope.grain.plural();
    let reach = scope.grain.reach();
    write!(
        f,
        "nothing found: {states} states by {turns}; no schedule of {reach} goes wrong"
    )?;
    match scope.start {
        Start::Program => Ok(()),
        Start::Schedule => write!(f, " after the given one"),
    }
}
