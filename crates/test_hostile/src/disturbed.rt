//! A schedule that a late wake-up, a spin or a repeated line disturbs, after each of its step lines and by
//! each thread.
ghost use Rattle.std.specs.Prelude.{◌≤◌, length};

use crate::checked::{Checked, Stop};
use crate::scripts::{Deed, Line, Script, play, play_all};
use core_base::Queues;
use spec_locks::Turn;
use std::alloc::Global;

/// A line of another sort between two lines.
#[derive(Clone, Copy, Debug, PartialEq, Eq)]
pub enum Disturbance {
    Late,
    Spin,
    /// The thread's last line comes once more.
    Again,
}

const DISTURBANCES: &[Disturbance] = &[Disturbance::Late, Disturbance::Spin, Disturbance::Again];

/// A disturbed run that stops, and where the line of this thread came in: after so many step lines.
#[derive(Clone, Copy, Debug, PartialEq, Eq)]
pub struct Stopped {
    pub place: usize,
    pub thread: usize,
    pub disturbance: Disturbance,
    pub stop: Stop,
}

/// How many disturbed runs there were, and of how many steps.
#[derive(Clone, Copy, Debug, PartialEq, Eq)]
pub struct Figures {
    pub runs: usize,
    pub steps: usize,
}

impl Figures {
    pub const NONE: Figures = Figures { runs: 0, steps: 0 };

    pub fn and(self, more: Figures) -> Figures {
        Figures {
            runs: self.runs.wrapping_add(more.runs),
            steps: self.steps.wrapping_add(more.steps),
        }
    }
}

// Returns the line by which a thread disturbs a schedule after these lines, if there is one.
fn disturbing(lines: &[Line], thread: usize, disturbance: Disturbance) -> Option<Line> {
    let deed = match disturbance {
        Disturbance::Late => Deed::Takes(Turn::Late),
        Disturbance::Spin => Deed::Takes(Turn::Spin),
        Disturbance::Again => lines.iter().rev().find(|line| line.thread == thread)?.deed,
    };
    Some(Line { thread, deed })
}

// Plays a schedule with a line between those before and those after, and then each thread alone. Returns how
// many steps were checked.
fn play_disturbed<Q: Queues + Drop>(
    alloc: Global,
    script: &Script,
    before: &[Line],
    line: Line,
    afterwards: &[Line],
) -> Result<usize, Stop> {
    let mut checked = Checked::<Q>::new(alloc, script.kinds.as_slice(), script.threads)?;
    play_all(&mut checked, before)?;
    play(&mut checked, line)?;
    play_all(&mut checked, afterwards)?;
    for thread in 0..script.threads {
        checked.go_on(thread)?;
    }
    Ok(checked.taken)
}

// Lets a thread disturb a schedule after so many lines, in each way.
fn disturb_by<Q: Queues + Drop>(
    alloc: Global,
    script: &Script,
    place: usize,
    thread: usize,
) -> Result<Figures, Stopped>
    requires { place ≤ length script.now.lines.items }
{
    let (before, afterwards) = script.lines.split_at(place);
    let mut figures = Figures::NONE;
    for disturbance in DISTURBANCES {
        let disturbance = *disturbance;
        let Some(line) = disturbing(before, thread, disturbance) else {
            continue;
        };
        match play_disturbed::<Q>(alloc, script, before, line, afterwards) {
            Ok(steps) => figures = figures.and(Figures { runs: 1, steps }),
            Err(stop) => {
                return Err(Stopped {
                    place,
                    thread,
                    disturbance,
                    stop,
                });
            }
        }
    }
    Ok(figures)
}

// Lets each thread disturb a schedule after so many lines.
fn disturb_at<Q: Queues + Drop>(
    alloc: Global,
    script: &Script,
    place: usize,
) -> Result<Figures, Stopped>
    requires { place ≤ length script.now.lines.items }
{
    let mut figures = Figures::NONE;
    for thread in 0..script.threads {
        figures = figures.and(disturb_by::<Q>(alloc, script, place, thread)?);
    }
    Ok(figures)
}

/// Lets each thread disturb a schedule after any number of its lines, over a kind of queues.
///
/// # Errors
///
/// The first run in which a step is wrong, or memory was refused.
pub fn disturb<Q: Queues + Drop>(alloc: Global, script: &Script) -> Result<Figures, Stopped> {
    let mut figures = Figures::NONE;
    for place in 0..script.lines.len() + 1 {
        figures = figures.and(disturb_at::<Q>(alloc, script, place)?);
    }
    Ok(figures)
}
