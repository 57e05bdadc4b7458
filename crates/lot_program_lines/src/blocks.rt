//! Blocks that are open, and the jumps that their ends fill in.
use crate::names::Variables;
use lot_program::{Instruction, Test, Value};

/// A block that is open, by the line of its first word.
#[derive(Clone, Copy, Drop)]
pub struct Block {
    pub line: u32,
    pub sort: BlockSort,
}

/// A block, by the places of its instructions.
#[derive(Clone, Copy, Drop)]
pub enum BlockSort {
    /// `while`: its test, which is where it begins.
    While { start: usize },
    If,
    Else,
    /// `repeat`: where it begins, and how often it runs.
    Repeat { start: usize, times: u32 },
    /// `loop`: where it begins.
    Loop { start: usize },
    /// `either`: its first choice, and how many branches have begun.
    Either { choice: usize, branches: u32 },
    /// The closure of a `call_once`.
    Closure,
}

impl BlockSort {
    /// Answers whether its instructions may run again.
    pub fn is_loop(self) -> bool {
        match self {
            BlockSort::While { .. } | BlockSort::Repeat { .. } | BlockSort::Loop { .. } => true,
            BlockSort::If | BlockSort::Else => false,
            BlockSort::Either { .. } | BlockSort::Closure => false,
        }
    }
}

/// Returns an instruction with another target, where it has one.
pub fn aimed(instruction: Instruction, target: usize) -> Instruction {
    match instruction {
        Instruction::Jump { target: _ } => Instruction::Jump { target },
        Instruction::JumpUnless { test, target: _ } => Instruction::JumpUnless { test, target },
        Instruction::JumpUnlessTold { told, target: _ } => {
            Instruction::JumpUnlessTold { told, target }
        }
        Instruction::JumpUnlessRunning { target: _ } => {
            Instruction::JumpUnlessRunning { target }
        }
        Instruction::Either { other: _ } => Instruction::Either { other: target },
        other => other,
    }
}

/// Returns an instruction of another thread of a block, by that of its first. Threads count from 0.
pub fn of_runner(variables: &Variables, instruction: Instruction, runner: usize) -> Instruction {
    let own = |variable: usize| variables.of_runner(variable, runner);
    let test_of = |test: Test| Test {
        variable: own(test.variable),
        comparison: test.comparison,
        value: value_of(variables, test.value, runner),
    };
    match instruction {
        Instruction::Set { variable, value } => Instruction::Set {
            variable: own(variable),
            value: value_of(variables, value, runner),
        },
        Instruction::Add { variable, number } => Instruction::Add {
            variable: own(variable),
            number,
        },
        Instruction::JumpUnless { test, target } => Instruction::JumpUnless {
            test: test_of(test),
            target,
        },
        Instruction::Assert(test) => Instruction::Assert(test_of(test)),
        other => other,
    }
}

fn value_of(variables: &Variables, value: Value, runner: usize) -> Value {
    match value {
        Value::Number(number) => Value::Number(number),
        Value::Variable(variable) => Value::Variable(variables.of_runner(variable, runner)),
    }
}

/// Returns an instruction whose target, where it has one, is so many places on.
pub fn shifted(instruction: Instruction, by: usize) -> Instruction {
    match instruction {
        Instruction::Jump { target }
        | Instruction::JumpUnless { test: _, target }
        | Instruction::JumpUnlessTold { told: _, target }
        | Instruction::JumpUnlessRunning { target }
        | Instruction::Either { other: target } => aimed(instruction, target.wrapping_add(by)),
        other => other,
    }
}
