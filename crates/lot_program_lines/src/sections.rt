//! The instructions of one `thread` line, as they are read.
use crate::blocks::{Block, BlockSort, aimed, shifted};
use crate::malformed::{TextError, malformed};
use lot_program::{Condition, Instruction, Test};
use std::alloc::Global;

/// The most instructions of a thread.
pub const MOST_CODE: usize = 65536;

/// What becomes of a thread where a condition fails.
#[derive(Clone, Copy)]
pub enum Failing {
    /// The thread leaves the block that was opened last.
    Leaves,
    /// The assertion of the thread fails.
    Asserts,
}

// Returns how many instructions test a condition.
fn steps_of(condition: &Condition) -> usize {
    let mut steps = condition.alternatives.len().saturating_sub(1);
    for tests in condition.alternatives.iter() {
        steps = steps.wrapping_add(tests.len());
    }
    steps
}

/// A jump past the end of a block that is open.
#[derive(Clone, Copy, Drop)]
struct Exit {
    /// How many blocks are open around that block.
    depth: usize,
    /// The place of the jump.
    at: usize,
}

/// Instructions, the line of each, and the blocks that are open.
#[derive(Drop)]
pub struct Section {
    pub code: Vec<Instruction>,
    pub lines: Vec<u32>,
    blocks: Vec<Block>,
    exits: Vec<Exit>,
}

impl Section {
    pub fn new(alloc: Global) -> Section {
        Section {
            code: Vec::new(alloc),
            lines: Vec::new(alloc),
            blocks: Vec::new(alloc),
            exits: Vec::new(alloc),
        }
    }

    /// Returns the place of the next instruction.
    pub fn here(&self) -> usize {
        self.code.len()
    }

    /// Adds an instruction of a line.
    pub fn push(
        &mut self,
        alloc: Global,
        line: u32,
        instruction: Instruction,
    ) -> Result<(), TextError> {
        if self.code.len() >= MOST_CODE {
            return Err(malformed(alloc, line, "", "a thread has at most 65536 instructions"));
        }
        self.code.push(instruction)?;
        self.lines.push(line)?;
        Ok(())
    }

    /// Opens a block.
    pub fn open(&mut self, line: u32, sort: BlockSort) -> Result<(), TextError> {
        self.blocks.push(Block { line, sort })?;
        Ok(())
    }

    /// Lets the jump at a place lead past the end of the block that was opened last.
    pub fn leave(&mut self, at: usize) -> Result<(), TextError> {
        let depth = self.blocks.len().saturating_sub(1);
        self.exits.push(Exit { depth, at })?;
        Ok(())
    }

    /// Closes the block that was opened last, and returns it.
    pub fn close(&mut self) -> Option<Block> {
        self.blocks.pop()
    }

    /// Adds a jump past the end of the innermost loop, and answers whether there is one: a closure hides those around
    /// it.
    pub fn break_out(&mut self, alloc: Global, line: u32) -> Result<bool, TextError> {
        let innermost = self.blocks.iter().rposition(|block| block.sort.is_loop()
            || matches!(block.sort, BlockSort::Closure));
        let Some(depth) = innermost else {
            return Ok(false);
        };
        if !self
            .blocks
            .get(depth)
            .is_some_and(|block| block.sort.is_loop())
        {
            return Ok(false);
        }
        let at = self.here();
        self.push(alloc, line, Instruction::Jump { target: 0 })?;
        self.exits.push(Exit { depth, at })?;
        Ok(true)
    }

    /// Adds the tests of a condition. Where it fails, the thread leaves the block that was opened last, or its
    /// assertion fails.
    pub fn push_tests(
        &mut self,
        alloc: Global,
        line: u32,
        condition: &Condition,
        failing: Failing,
    ) -> Result<(), TextError> {
        let body = self.here().wrapping_add(steps_of(condition));
        let last = condition.alternatives.len().saturating_sub(1);
        for (number, tests) in condition.alternatives.iter().enumerate() {
            if number < last {
                self.push_alternative(alloc, line, tests.as_slice(), body)?;
            } else {
                self.push_last(alloc, line, tests.as_slice(), failing)?;
            }
        }
        Ok(())
    }

    // Adds tests. Where all of them hold, the thread goes to a place, and else on.
    fn push_alternative(
        &mut self,
        alloc: Global,
        line: u32,
        tests: &[Test],
        body: usize,
    ) -> Result<(), TextError> {
        let target = self.here().wrapping_add(tests.len()).wrapping_add(1);
        for test in tests {
            let test = *test;
            self.push(alloc, line, Instruction::JumpUnless { test, target })?;
        }
        self.push(alloc, line, Instruction::Jump { target: body })
    }

    // Adds the tests after which there is no alternative.
    fn push_last(
        &mut self,
        alloc: Global,
        line: u32,
        tests: &[Test],
        failing: Failing,
    ) -> Result<(), TextError> {
        for test in tests {
            let (test, at) = (*test, self.here());
            match failing {
                Failing::Asserts => self.push(alloc, line, Instruction::Assert(test))?,
                Failing::Leaves => {
                    self.push(alloc, line, Instruction::JumpUnless { test, target: 0 })?;
                    self.leave(at)?;
                }
            }
        }
        Ok(())
    }

    /// Lets all jumps past the end of the block that was closed last lead to the next instruction.
    pub fn aim_exits(&mut self) {
        let (depth, here) = (self.blocks.len(), self.here());
        for exit in self.exits.iter().filter(|exit| exit.depth == depth) {
            if let Some(instruction) = self.code.get_mut(exit.at) {
                *instruction = aimed(*instruction, here);
            }
        }
        self.exits.retain(|exit| exit.depth < depth);
    }

    /// Returns the first line of a block that is open.
    pub fn first_open(&self) -> Option<u32> {
        self.blocks.first().map(|block| block.line)
    }

    /// Lets the instruction at a place jump to another.
    pub fn aim(&mut self, at: usize, target: usize) {
        if let Some(instruction) = self.code.get_mut(at) {
            *instruction = aimed(*instruction, target);
        }
    }

    /// Adds another branch to a choice of branches, whose first instruction is at a place.
    pub fn branch(
        &mut self,
        alloc: Global,
        line: u32,
        choice: usize,
        branches: u32,
    ) -> Result<(), TextError> {
        let here = self.here();
        if branches > 1 {
            let other = self.code.get(choice).and_then(|first| first.branch());
            let other = other.unwrap_or(here);
            self.push(alloc, line, Instruction::Either { other })?;
        }
        self.aim(choice, here);
        Ok(())
    }

    /// Repeats the instructions from a place on, so that they are there so many times.
    pub fn repeat(&mut self, alloc: Global, start: usize, times: u32) -> Result<(), TextError> {
        let end = self.code.len();
        let exits = self.exits.len();
        for _ in 1..times {
            self.copy_exits(start, exits)?;
            self.copy_after(alloc, start, end)?;
        }
        if times == 0 {
            self.code.truncate(start);
            self.lines.truncate(start);
            self.exits.retain(|exit| exit.at < start);
        }
        Ok(())
    }

    // Copies those of the first so many jumps past ends that come after a place, for a copy of the instructions
    // there.
    fn copy_exits(&mut self, start: usize, exits: usize) -> Result<(), TextError> {
        let by = self.code.len().wrapping_sub(start);
        for number in 0..exits {
            match self.exits.get(number).copied() {
                Some(Exit { depth, at }) if at >= start => {
                    let at = at.wrapping_add(by);
                    self.exits.push(Exit { depth, at })?;
                }
                _ => {}
            }
        }
        Ok(())
    }

    // Adds a copy of the instructions between two places.
    fn copy_after(&mut self, alloc: Global, start: usize, end: usize) -> Result<(), TextError> {
        let by = self.code.len().wrapping_sub(start);
        for at in start..end {
            let (Some(instruction), Some(line)) = (self.code.get(at), self.lines.get(at)) else {
                continue;
            };
            let (instruction, line) = (shifted(*instruction, by), *line);
            self.push(alloc, line, instruction)?;
        }
        Ok(())
    }
}
