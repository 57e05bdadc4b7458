//! What can be left out of a program as a whole.
use crate::draft::Draft;
use crate::lines::{Line, LineSort, bit_of};
use state_search::NoRoom;
use std::alloc::Global;

/// What is left out.
#[derive(Clone, Copy, Debug, PartialEq, Eq)]
pub(crate) enum Part {
    /// A line alone.
    Line,
    /// A thread, with all its lines.
    Thread(u32),
    /// A call that acquires a right, with those that turn it into others and the one that releases it.
    Right,
    /// A block in which no variable changes, nothing is notified, and each right is released.
    Block,
    /// A call that acquires a right, and the block after it that runs by its answer.
    Tried,
    /// The two lines of `repeat`, so that what is between runs once.
    Repeat,
    /// Half of what `repeat` has, or one time less.
    Half,
    Once,
}

/// What may be left out at a line, in the order in which it is tried.
pub(crate) fn parts_at(line: Line<'_>) -> &'static [Part] {
    match line.sort {
        LineSort::Threads { .. } => &[
            Part::Thread(0),
            Part::Thread(1),
            Part::Thread(2),
            Part::Thread(3),
            Part::Thread(4),
            Part::Thread(5),
            Part::Thread(6),
            Part::Thread(7),
        ],
        // The lines of the thread go alone, so that the other threads keep their numbers.
        LineSort::Named => &[Part::Thread(0)],
        LineSort::Property | LineSort::Never | LineSort::Asserts | LineSort::Declared => &[
            Part::Line,
        ],
        LineSort::Opens => &[Part::Block],
        LineSort::Repeats { .. } => &[Part::Block, Part::Repeat, Part::Half, Part::Once],
        LineSort::Acquires => &[Part::Right, Part::Tried],
        LineSort::Converts if line.word(0).starts_with("bump") => &[Part::Line],
        LineSort::Converts => &[],
        LineSort::First | LineSort::Parts | LineSort::Closes => &[],
        LineSort::Releases | LineSort::Acts => &[],
    }
}

impl<'t> Draft<'t> {
    /// Returns what is left without a part at a line, or none where there is no such part.
    ///
    /// # Errors
    ///
    /// `NoRoom`, where memory was refused.
    pub fn without(
        &self,
        alloc: Global,
        at: usize,
        part: Part,
    ) -> Result<Option<Draft<'t>>, NoRoom> {
        let mut draft = self.copy(alloc)?;
        let is_there = match part {
            Part::Line => {
                draft.remove(at);
                true
            }
            Part::Thread(thread) => draft.leave_thread_out(at, thread),
            Part::Right => draft.leave_right_out(at),
            Part::Block => draft.leave_range_out(at, at),
            Part::Tried => draft.leave_tried_out(at),
            Part::Repeat => draft.unfold_repeat(at),
            Part::Half => draft.repeat_less(at, self.times(at) / 2),
            Part::Once => draft.repeat_less(at, self.times(at).saturating_sub(1)),
        };
        Ok(is_there.then_some(draft))
    }

    fn leave_thread_out(&mut self, at: usize, thread: u32) -> bool {
        if self
            .line(at)
            .is_some_and(|line| line.sort == LineSort::Named)
        {
            let (first, end) = (at.saturating_add(1), self.section_end(at));
            self.cut(first, end);
            return first < end;
        }
        let Some(
            Line {
                sort: LineSort::Threads { runners },
                ..
            },
        ) = self.line(at)
        else {
            return false;
        };
        let bit = bit_of(thread);
        if runners & bit == 0 {
            return false;
        }
        if runners != bit {
            self.put(
                at,
                LineSort::Threads {
                    runners: runners & !bit,
                },
            );
            return true;
        }
        let end = self.section_end(at);
        self.cut(at, end);
        true
    }

    // Returns the place after the last line of the section that a line begins.
    fn section_end(&self, first: usize) -> usize {
        let mut lines = self.lines.iter().enumerate().skip(first.saturating_add(1));
        match lines.find(|(_, line)| line.ends_section()) {
            Some((at, _)) => at,
            None => self.lines.len(),
        }
    }

    // Leaves out the calls from one that acquires a right of a lock to the one that releases it.
    fn leave_right_out(&mut self, at: usize) -> bool {
        let Some(first) = self.line(at) else {
            return false;
        };
        let lock = first.word(1);
        let mut depth: usize = 0;
        let mut here = at;
        for _ in at..self.lines.len() {
            let Some(line) = self.line(here) else {
                return false;
            };
            if line.ends_section() {
                return false;
            }
            let is_own = line.word(1) == lock;
            match line.sort {
                LineSort::Acquires if is_own => {
                    depth = depth.wrapping_add(1);
                    if depth == 1 {
                        self.remove(here);
                        continue;
                    }
                }
                LineSort::Converts if is_own && depth == 1 => {
                    self.remove(here);
                    continue;
                }
                LineSort::Releases if is_own => {
                    if depth == 1 {
                        self.remove(here);
                        return true;
                    }
                    depth = depth.saturating_sub(1);
                }
                _ => {}
            }
            here = here.wrapping_add(1);
        }
        false
    }

    // Leaves out a call and the block after it.
    fn leave_tried_out(&mut self, at: usize) -> bool {
        let open = at.saturating_add(1);
        match self.line(open) {
            Some(line) if line.tests_answer() => self.leave_range_out(at, open),
            _ => false,
        }
    }

    // Leaves out the lines from one on to the end of the block that another begins.
    fn leave_range_out(&mut self, from: usize, open: usize) -> bool {
        let Some(close) = self.close_of(open) else {
            return false;
        };
        let end = close.saturating_add(1);
        if !self.is_balanced(from, end) {
            return false;
        }
        self.cut(from, end);
        true
    }

    // Answers whether lines change no variable, notify nobody, and release what they acquire.
    fn is_balanced(&self, from: usize, end: usize) -> bool {
        let lines = self.lines.get(from..end).unwrap_or(&[]);
        !lines.iter().any(|line| line.sort == LineSort::Acts)
            && lines.iter().all(|line| {
                let has = |sort: LineSort| {
                    lines
                        .iter()
                        .filter(|other| other.sort == sort && other.word(1) == line.word(1))
                        .count()
                };
                line.sort != LineSort::Acquires
                    || has(LineSort::Acquires) == has(LineSort::Releases)
            })
    }

    fn unfold_repeat(&mut self, at: usize) -> bool {
        let Some(close) = self.close_of(at) else {
            return false;
        };
        self.remove(close);
        self.remove(at);
        true
    }

    // Returns how often a block runs, 0 where a line begins none that is repeated.
    fn times(&self, at: usize) -> u32 {
        match self.line(at) {
            Some(
                Line {
                    sort: LineSort::Repeats { times },
                    ..
                },
            ) => times,
            _ => 0,
        }
    }

    fn repeat_less(&mut self, at: usize, times: u32) -> bool {
        if times == 0 || times >= self.times(at) {
            return false;
        }
        self.put(at, LineSort::Repeats { times });
        true
    }
}
