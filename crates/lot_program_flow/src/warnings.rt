//! What of a program is hardly meant so.
use indexmap::IndexSet;
use lot_program::{Condition, Instruction, Program, Property, Test, Value};
use std::alloc::{AllocError, Global};

/// What of a program is hardly meant so.
#[derive(Clone, Copy, Debug, PartialEq, Eq)]
pub enum Warning {
    /// A variable gets more at each turn of a loop that never ends, and is never set.
    Grows {
        line: u32,
        variable: usize,
    },
    /// A test on a line is true of each state, or of none: no thread writes what it reads.
    Fixed {
        line: u32,
        variable: usize,
        holds: bool,
    },
    /// The test of a property is so.
    FixedProperty {
        property: usize,
        variable: usize,
        holds: bool,
    },
    /// A line comes after a loop that never ends.
    Unreached {
        line: u32,
    },
}

/// Returns what of a program is hardly meant so.
///
/// # Errors
///
/// An error, where memory was refused.
pub fn warnings_of(alloc: Global, program: &Program) -> Result<Vec<Warning>, AllocError> {
    let mut warnings = Warnings {
        program,
        changes: changes_in(alloc, program)?,
        found: Vec::new(alloc),
        told: IndexSet::new(alloc),
    };
    for (code, lines) in program.code.iter().zip(program.lines.iter()) {
        let code = code.as_slice();
        warnings.add_loops(code, lines.as_slice(), &Course::of(alloc, code)?)?;
        warnings.add_tests(code, lines.as_slice())?;
    }
    warnings.add_properties()?;
    let Warnings { found, .. } = warnings;
    Ok(found)
}

/// What threads do to a variable.
#[derive(Clone, Copy, Debug, PartialEq, Eq)]
struct Change {
    is_set: bool,
    is_written: bool,
}

// Returns what the threads of a program do to each variable.
fn changes_in(alloc: Global, program: &Program) -> Result<Vec<Change>, AllocError> {
    let none = Change {
        is_set: false,
        is_written: false,
    };
    let mut changes = vec![in alloc; none; program.variables.len()]?;
    for instruction in program.code.iter().flat_map(|code| code.iter()) {
        let (variable, is_set) = match instruction {
            Instruction::Set { variable, value: _ } => (*variable, true),
            Instruction::Add {
                variable,
                number: _,
            } => (*variable, false),
            _ => continue,
        };
        if let Some(change) = changes.get_mut(variable) {
            change.is_set = change.is_set || is_set;
            change.is_written = true;
        }
    }
    Ok(changes)
}

/// Where the jumps of a thread lead, and which of its instructions are in loops that never end.
#[derive(Drop)]
struct Course {
    is_aimed_at: Vec<bool>,
    is_after_loop: Vec<bool>,
    /// How many such loops begin at each instruction, less those that end there.
    depths: Vec<i64>,
}

impl Course {
    fn of(alloc: Global, code: &[Instruction]) -> Result<Course, AllocError> {
        let places = code.len().saturating_add(2);
        let mut course = Course {
            is_aimed_at: vec![in alloc; false; places]?,
            is_after_loop: vec![in alloc; false; places]?,
            depths: vec![in alloc; 0i64; places]?,
        };
        for (at, instruction) in code.iter().enumerate() {
            if let Some(target) = target_of(instruction) {
                mark(course.is_aimed_at.as_mut_slice(), target);
            }
            if let Instruction::Jump { target } = instruction {
                if *target <= at && is_endless(code, *target, at) {
                    mark(course.is_after_loop.as_mut_slice(), at.saturating_add(1));
                    count(course.depths.as_mut_slice(), *target, 1);
                    count(course.depths.as_mut_slice(), at, -1);
                }
            }
        }
        Ok(course)
    }
}

fn mark(marks: &mut [bool], at: usize) {
    if let Some(is_marked) = marks.get_mut(at) {
        *is_marked = true;
    }
}

fn count(counts: &mut [i64], at: usize, more: i64) {
    if let Some(number) = counts.get_mut(at) {
        *number = number.wrapping_add(more);
    }
}

// Answers whether nothing leads out of a loop from one instruction to a jump back to it.
fn is_endless(code: &[Instruction], first: usize, end: usize) -> bool {
    let body = code.get(first..end).unwrap_or(&[]);
    body.iter().all(|instruction| match target_of(instruction) {
        Some(target) => first <= target && target <= end,
        None => true,
    })
}

fn target_of(instruction: &Instruction) -> Option<usize> {
    match instruction {
        Instruction::Jump { target }
        | Instruction::JumpUnless { test: _, target }
        | Instruction::JumpUnlessTold { told: _, target }
        | Instruction::JumpUnlessRunning { target }
        | Instruction::Either { other: target } => Some(*target),
        Instruction::Call(_)
        | Instruction::Close { .. }
        | Instruction::Set { .. }
        | Instruction::Add { .. }
        | Instruction::Assert(_) => None,
    }
}

/// The warnings that were found.
#[derive(Drop)]
struct Warnings<'a> {
    program: &'a Program,
    changes: Vec<Change>,
    found: Vec<Warning>,
    /// The lines of those that are found, each with the sort of its warning.
    told: IndexSet<(u32, u8)>,
}

impl Warnings<'_> {
    // Adds a warning of a line once.
    fn add(&mut self, line: u32, sort: u8, warning: Warning) -> Result<(), AllocError> {
        if self.told.insert((line, sort))? {
            self.found.push(warning)?;
        }
        Ok(())
    }

    // Adds the variables of a thread that get more in a loop without end and are set nowhere, and the lines
    // that come after such loops.
    fn add_loops(
        &mut self,
        code: &[Instruction],
        lines: &[u32],
        course: &Course,
    ) -> Result<(), AllocError> {
        let mut depth = 0i64;
        for (at, instruction) in code.iter().enumerate() {
            let line = lines.get(at).copied().unwrap_or(0);
            depth = depth.wrapping_add(course.depths.get(at).copied().unwrap_or(0));
            match *instruction {
                Instruction::Add { variable, number }
                    if depth > 0 && number != 0 && !self.change(variable).is_set => {
                    self.add(line, 0, Warning::Grows { line, variable })?;
                }
                Instruction::Jump { .. } => {}
                _ if is_at(&course.is_after_loop, at) && !is_at(&course.is_aimed_at, at) => {
                    self.add(line, 1, Warning::Unreached { line })?;
                }
                _ => {}
            }
        }
        Ok(())
    }

    // Adds the tests of a thread that are true always or never.
    fn add_tests(&mut self, code: &[Instruction], lines: &[u32]) -> Result<(), AllocError> {
        for (instruction, line) in code.iter().zip(lines.iter()) {
            let (Instruction::JumpUnless { test, target: _ } | Instruction::Assert(test)) =
                instruction
            else {
                continue;
            };
            if self.is_fixed(test) {
                let line = *line;
                let holds = test.holds(self.program.variables.as_slice());
                let variable = test.variable;
                self.add(
                    line,
                    2,
                    Warning::Fixed {
                        line,
                        variable,
                        holds,
                    },
                )?;
            }
        }
        Ok(())
    }

    // Adds the properties whose tests are true always or never.
    fn add_properties(&mut self) -> Result<(), AllocError> {
        let program = self.program;
        for (property, spelled) in program.properties.iter().enumerate() {
            let (Property::Always(condition) | Property::Finally(condition)) = spelled else {
                continue;
            };
            let Some(test) = self.first_if_fixed(condition) else {
                continue;
            };
            self.found.push(Warning::FixedProperty {
                property,
                variable: test.variable,
                holds: condition.holds(program.variables.as_slice()),
            })?;
        }
        Ok(())
    }

    // Returns the first test of a condition, where no thread writes what any of its tests reads.
    fn first_if_fixed(&self, condition: &Condition) -> Option<Test> {
        let mut first = None;
        for test in condition.alternatives.iter().flat_map(|tests| tests.iter()) {
            if !self.is_fixed(test) {
                return None;
            }
            first = first.or(Some(*test));
        }
        first
    }

    // Returns what threads do to a variable.
    fn change(&self, variable: usize) -> Change {
        self.changes.get(variable).copied().unwrap_or(Change {
            is_set: false,
            is_written: false,
        })
    }

    // Answers whether no thread writes what a test reads.
    fn is_fixed(&self, test: &Test) -> bool {
        let is_value_fixed = match test.value {
            Value::Number(_) => true,
            Value::Variable(variable) => !self.change(variable).is_written,
        };
        is_value_fixed && !self.change(test.variable).is_written
    }
}

fn is_at(marks: &Vec<bool>, at: usize) -> bool {
    marks.get(at).copied().unwrap_or(false)
}
