//! Programs of lock calls: for each thread a list of instructions.
//!
//! Looks once more are moves too: they add no state in programs that were tried. A timed sleep is given
//! up at any time, or never (`Deadlines`): a program has no clock. A refused call is a verdict, and no
//! turn that changes nothing.
ghost use Rattle.std.specs.Prelude.{◌≡◌, ◌<◌, ◌-◌, ◌^◌, IfSome, All, true, false, length};
ghost use Rattle.lot_program.specs.Programs.{told_by, told_number, number_of, holds, compares, all_hold, is_met};
ghost use Rattle.lot_program.specs.Programs.{branch_of, instruction_at, branch_at, line_at, IsFit};
ghost use Rattle.spec_locks.specs.Kinds.{fits};
ghost use Rattle.lot_program.specs.Runs.{step_by};

use crate::grains::Grain;
use lot_rows::MOST;
use lot_world::{Answer, Call, Kind, MOST_LOCKS, Step, Turn};

/// A number, or what a variable has.
#[derive(Clone, Copy, Debug, PartialEq, Eq)]
pub enum Value {
    Number(u32),
    Variable(usize),
}

/// How two numbers are compared.
#[derive(Clone, Copy, Debug, PartialEq, Eq)]
pub enum Comparison {
    Equal,
    Unequal,
    Less,
    AtMost,
    Greater,
    AtLeast,
}

/// A test of a variable.
#[derive(Clone, Copy, Debug, PartialEq, Eq)]
pub struct Test {
    pub variable: usize,
    pub comparison: Comparison,
    pub value: Value,
}

/// Tests of variables in one state.
#[derive(Drop)]
pub struct Condition {
    /// All tests of one of these hold.
    pub alternatives: Vec<Vec<Test>>,
}

/// What a thread was told by its last call.
#[derive(Clone, Copy, Debug, PartialEq, Eq)]
pub enum Told {
    Nothing,
    Ok,
    Yes,
    No,
    ReadersFull,
    Notified,
    TimedOut,
    TwoMutexes,
    Poisoned,
    Failed,
    /// A number of waiters.
    Number,
}

/// One instruction of a thread. A target is the number of an instruction of its own.
#[derive(Clone, Copy, Debug, PartialEq, Eq)]
pub enum Instruction {
    /// Begins a call.
    Call(Call),
    /// Lets the closure of the call answer.
    Close { succeeded: bool },
    Set { variable: usize, value: Value },
    /// Adds a number, modulo 2 to the 32.
    Add { variable: usize, number: u32 },
    Jump { target: usize },
    /// Jumps where the test fails.
    JumpUnless { test: Test, target: usize },
    /// Jumps where the last call told something else.
    JumpUnlessTold { told: Told, target: usize },
    /// Jumps where the thread runs no closure.
    JumpUnlessRunning { target: usize },
    /// Goes to the next instruction, or jumps: each of the two is a move.
    Either { other: usize },
    Assert(Test),
}

/// Whether a timed sleep may be given up.
#[derive(Clone, Copy, Debug, PartialEq, Eq)]
pub enum Deadlines {
    /// At any time.
    Pass,
    Never,
}

/// A thread in no call, or in the closure of one, whose next instruction is of a line.
#[derive(Clone, Copy, Debug, PartialEq, Eq)]
pub struct Station {
    pub thread: usize,
    pub line: u32,
}

/// What has to be true of the states of a program.
#[derive(Drop)]
pub enum Property {
    /// A condition holds in each state.
    Always(Condition),
    /// A condition holds where all threads are through.
    Finally(Condition),
    /// Two threads are never there at once.
    Never { first: Station, second: Station },
}

/// The locks by their kinds, the first numbers of the variables, and the code of each thread. The turns of
/// threads are of this grain.
pub struct Program {
    pub kinds: Vec<Kind>,
    pub variables: Vec<u32>,
    pub code: Vec<Vec<Instruction>>,
    /// The line of each instruction, of each thread.
    pub lines: Vec<Vec<u32>>,
    pub properties: Vec<Property>,
    pub grain: Grain,
    pub deadlines: Deadlines,
}

// By hand: a derived drop is written out at each exit of each function that owns one.
impl Drop for Program {
    fn drop(self) {
        let Program {
            kinds: _,
            variables: _,
            code: _,
            lines: _,
            properties: _,
            grain: _,
            deadlines: _,
        } = self;
    }
}

impl Instruction {
    /// Takes the step of the world that it takes, if it takes one.
    pub fn step(self, thread: usize) -> Option<Step>
        ensures { result ≡ step_by self thread }
    {
        let turn = match self {
            Instruction::Call(call) => Turn::Begin(call),
            Instruction::Close { succeeded: true } => Turn::Ok,
            Instruction::Close { succeeded: false } => Turn::Err,
            Instruction::Set { .. } | Instruction::Add { .. } => return None,
            Instruction::Jump { .. } | Instruction::JumpUnless { .. } => return None,
            Instruction::JumpUnlessTold { .. } | Instruction::JumpUnlessRunning { .. } =>
                return None,
            Instruction::Either { .. } | Instruction::Assert(_) => return None,
        };
        Some(Step { thread, turn })
    }

    /// Where its second branch begins, if it has one.
    pub fn branch(self) -> Option<usize>
        ensures { result ≡ branch_of self }
    {
        match self {
            Instruction::Either { other } => Some(other),
            Instruction::Call(_) | Instruction::Close { .. } => None,
            Instruction::Set { .. } | Instruction::Add { .. } => None,
            Instruction::Jump { .. } | Instruction::JumpUnless { .. } => None,
            Instruction::JumpUnlessTold { .. } | Instruction::JumpUnlessRunning { .. } => None,
            Instruction::Assert(_) => None,
        }
    }
}

impl Told {
    /// Returns what an answer tells.
    pub fn by(answer: Answer) -> Told
        ensures { result ≡ told_by answer }
    {
        match answer {
            Answer::Ok => Told::Ok,
            Answer::Yes => Told::Yes,
            Answer::No => Told::No,
            Answer::ReadersFull => Told::ReadersFull,
            Answer::Notified => Told::Notified,
            Answer::TimedOut => Told::TimedOut,
            Answer::TwoMutexes => Told::TwoMutexes,
            Answer::Poisoned => Told::Poisoned,
            Answer::Failed => Told::Failed,
            Answer::Number(_) => Told::Number,
        }
    }

    /// Returns a number for each.
    pub fn number(self) -> u32
        ensures { result ≡ told_number self }
    {
        match self {
            Told::Nothing => 0,
            Told::Ok => 1,
            Told::Yes => 2,
            Told::No => 3,
            Told::ReadersFull => 4,
            Told::Notified => 5,
            Told::TimedOut => 6,
            Told::TwoMutexes => 7,
            Told::Poisoned => 8,
            Told::Failed => 9,
            Told::Number => 10,
        }
    }
}

impl Comparison {
    /// Returns whether two numbers compare so.
    pub fn compares(self, first: u32, second: u32) -> bool
        ensures { result ≡ compares self first second }
    {
        match self {
            Comparison::Equal => first == second,
            Comparison::Unequal => first != second,
            Comparison::Less => first < second,
            Comparison::AtMost => first <= second,
            Comparison::Greater => second < first,
            Comparison::AtLeast => second <= first,
        }
    }
}

/// Returns what a variable has. One that isn't there has 0.
pub fn variable_in(variables: &[u32], variable: usize) -> u32
    ensures { result ≡ number_of variables.now (Value.Variable variable) }
{
    if variable < variables.len() {
        variables[variable]
    } else {
        0
    }
}

impl Value {
    pub fn number(self, variables: &[u32]) -> u32
        ensures { result ≡ number_of variables.now self }
    {
        match self {
            Value::Number(number) => number,
            Value::Variable(variable) => variable_in(variables, variable),
        }
    }
}

impl Test {
    pub fn holds(self, variables: &[u32]) -> bool
        ensures { result ≡ holds variables.now self }
    {
        let first = variable_in(variables, self.variable);
        self.comparison
            .compares(first, self.value.number(variables))
    }
}

// Whether all of some tests hold.
fn all_hold(tests: &[Test], variables: &[u32]) -> bool
    ensures { result ≡ all_hold variables.now tests.now (length tests.now) }
{
    let mut all = true;
    for number in 0..tests.len() {
        all = tests[number].holds(variables) && all;
    }
    all
}

impl Condition {
    /// Whether all tests of some alternative hold.
    pub fn holds(&self, variables: &[u32]) -> bool
        ensures { result ≡ is_met variables.now self.now }
    {
        let mut any = false;
        for number in 0..self.alternatives.len() {
            any = all_hold(self.alternatives[number].as_slice(), variables) || any;
        }
        any
    }
}

impl Program {
    /// Returns how many threads there are.
    pub fn threads(&self) -> usize
        ensures { result ≡ length self.now.code.items }
    {
        self.code.len()
    }

    /// Returns the instruction of a thread with this number.
    pub fn instruction(&self, thread: usize, at: usize) -> Option<Instruction>
        ensures instruction { result ≡ instruction_at self.now thread at }
        ensures few { IfSome result (λ _. at < 2 ^ 64 - 1) }
    {
        if thread >= self.code.len() {
            return None;
        }
        let code = self.code[thread].as_slice();
        if at < code.len() {
            Some(code[at])
        } else {
            None
        }
    }

    /// Where the second branch of an instruction of a thread begins, by its number, if it has one.
    pub fn branch(&self, thread: usize, at: usize) -> Option<usize>
        ensures { result ≡ branch_at self.now thread at }
    {
        match self.instruction(thread, at) {
            Some(instruction) => instruction.branch(),
            None => None,
        }
    }

    /// Returns the line of an instruction of a thread, by its number.
    pub fn line(&self, thread: usize, at: usize) -> Option<u32>
        ensures { result ≡ line_at self.now thread at }
    {
        if thread >= self.lines.len() {
            return None;
        }
        let lines = self.lines[thread].as_slice();
        if at < lines.len() {
            Some(lines[at])
        } else {
            None
        }
    }

    /// Returns whether it can be searched: it has 1 to 8 threads, at most 4,096 variables, and
    /// locks that a world may have.
    pub fn is_fit(&self) -> bool
        ensures fit { result ≡ true → IsFit self.now }
        ensures unfit { result ≡ false → IsFit self.now → ⊥ }
    {
        let threads = self.threads();
        let are_few = threads <= MOST && self.kinds.len() <= MOST_LOCKS;
        1 <= threads && are_few && self.variables.len() <= 4096 && self.kinds_fit(threads)
    }

    fn kinds_fit(&self, threads: usize) -> bool
        ensures fit { result ≡ true → All (λ kind. fits kind threads ≡ true) self.now.kinds.items }
        ensures unfit { result ≡ false
            → All (λ kind. fits kind threads ≡ true) self.now.kinds.items → ⊥ }
    {
        for kind in &self.kinds {
            if !kind.fits(threads) {
                return false;
            }
        }
        true
    }
}
