//! What tests read: variables, and what they have.
use crate::source::Source;
use crate::words::instruction_of;
use core_base::ListQueues;
use lot_explore::Walk;
use lot_program::{Instruction, Property, Test, Value};
use serde::Serialize;
use state_search::NoRoom;
use std::alloc::Global;
use std::io;
use std::io::Write;

/// A variable, and what it has.
#[derive(Clone, Copy, Drop, Serialize)]
pub struct Reading<'a> {
    pub name: &'a str,
    /// The thread whose own it is, if it is not shared.
    pub thread: Option<usize>,
    pub value: u32,
}

impl<'a> Source<'a> {
    /// Returns what a variable has.
    pub fn reading(&self, variable: usize, numbers: &[u32]) -> Reading<'a> {
        Reading {
            name: self.variable_name(variable),
            thread: self.owner(variable),
            value: numbers.get(variable).copied().unwrap_or(0),
        }
    }

    /// Returns what a test reads.
    ///
    /// # Errors
    ///
    /// `NoRoom`, where memory was refused.
    pub fn readings(
        &self,
        alloc: Global,
        test: Test,
        numbers: &[u32],
    ) -> Result<Vec<Reading<'a>>, NoRoom> {
        let mut read = Vec::new(alloc);
        add_read(&mut read, test)?;
        self.readings_of(alloc, read.as_slice(), numbers)
    }

    // Returns what some variables have.
    fn readings_of(
        &self,
        alloc: Global,
        variables: &[usize],
        numbers: &[u32],
    ) -> Result<Vec<Reading<'a>>, NoRoom> {
        let mut readings = Vec::new(alloc);
        for variable in variables {
            readings
                .push(self.reading(*variable, numbers))
                .map_err(|_| NoRoom)?;
        }
        Ok(readings)
    }

    /// Returns what a turn reads that comes next in a walk: none, where it makes no test of variables.
    ///
    /// # Errors
    ///
    /// `NoRoom`, where memory was refused.
    pub fn readings_of_turn(
        &self,
        alloc: Global,
        walk: &Walk<'_, ListQueues>,
        by: usize,
    ) -> Result<Vec<Reading<'a>>, NoRoom> {
        match test_of_turn(walk, by) {
            Some(test) => self.readings(alloc, test, walk.scene().variables()),
            None => Ok(Vec::new(alloc)),
        }
    }

    /// Returns what a property reads in a state.
    ///
    /// # Errors
    ///
    /// `NoRoom`, where memory was refused.
    pub fn readings_of_property(
        &self,
        alloc: Global,
        property: usize,
        numbers: &[u32],
    ) -> Result<Vec<Reading<'a>>, NoRoom> {
        match self.parsed.program.properties.get(property) {
            Some(Property::Always(condition) | Property::Finally(condition)) => {
                let mut read = Vec::new(alloc);
                for test in condition.alternatives.iter().flat_map(|tests| tests.iter()) {
                    add_read(&mut read, *test)?;
                }
                self.readings_of(alloc, read.as_slice(), numbers)
            }
            Some(Property::Never { .. }) | None => Ok(Vec::new(alloc)),
        }
    }
}

// Adds the variables that a test reads, each once.
fn add_read(read: &mut Vec<usize>, test: Test) -> Result<(), NoRoom> {
    let other = match test.value {
        Value::Variable(variable) => variable,
        Value::Number(_) => test.variable,
    };
    for variable in [test.variable, other] {
        if !read.contains(&variable) {
            read.push(variable).map_err(|_| NoRoom)?;
        }
    }
    Ok(())
}

/// Returns the test of variables that a turn makes which comes next in a walk.
pub(crate) fn test_of_turn(walk: &Walk<'_, ListQueues>, by: usize) -> Option<Test> {
    let thread = by / 3;
    let at = instruction_of(walk, thread);
    match walk.program().instruction(thread, at) {
        Some(Instruction::JumpUnless { test, target: _ } | Instruction::Assert(test))
            if by % 3 == 0 => { Some(test) }
        _ => None,
    }
}

/// Writes what variables have, each after a comma, with a word between.
///
/// # Errors
///
/// The errors of the writer.
pub fn write_readings<W: Write>(
    out: &mut W,
    between: &str,
    readings: &[Reading<'_>],
) -> io::Result<()> {
    for reading in readings {
        write!(out, ", {}{between}{}", reading.name, reading.value)?;
    }
    Ok(())
}
