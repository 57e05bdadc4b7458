//! What calls answer, and tests of answers that no call before them gives.
use lot_program::{Instruction, Told};
use spec_locks::{
    Access, Call, CondvarCall, MutexCall, OnceCall, Patience, RwLockCall, SemaphoreCall,
};
use std::alloc::{AllocError, Global};
use std::fmt;

/// The answers that a test can name.
static NAMED: [Told; 9] = [
    Told::Ok,
    Told::Yes,
    Told::No,
    Told::ReadersFull,
    Told::Notified,
    Told::TimedOut,
    Told::TwoMutexes,
    Told::Poisoned,
    Told::Failed,
];

/// What a thread may have been told by its last call: a bit for each.
#[derive(Clone, Copy, Debug, PartialEq, Eq, Drop)]
pub struct Answers(u32);

impl Answers {
    const NONE: Answers = Answers(0);

    // Returns the answer alone.
    fn one(told: Told) -> Answers {
        Answers(1u32.wrapping_shl(told.number()))
    }

    // Returns the answers of both.
    fn or(self, other: Answers) -> Answers {
        Answers(self.0 | other.0)
    }

    // Returns the answers, and one more.
    fn and(self, told: Told) -> Answers {
        self.or(Answers::one(told))
    }

    // Answers whether all of some others are among them.
    fn has(self, other: Answers) -> bool {
        self.0 & other.0 == other.0
    }

    // Returns the answers of a call that may wait for ever, or else give up.
    fn of_patience(patience: Patience) -> Answers {
        match patience {
            Patience::Patient => Answers::one(Told::Ok),
            Patience::Timed | Patience::Try => Answers::one(Told::Yes).and(Told::No),
        }
    }

    /// Returns what a call can answer. One that runs a closure answers this where it runs none.
    pub fn of_call(call: Call) -> Answers {
        match call {
            Call::Mutex { call, .. } => Answers::of_mutex(call),
            Call::RwLock { call, .. } => Answers::of_rwlock(call),
            Call::Once { call, .. } => Answers::of_once(call),
            Call::Condvar { call, .. } => Answers::of_condvar(call),
            Call::Semaphore { call, .. } => match call {
                SemaphoreCall::Acquire(patience) => Answers::of_patience(patience),
                SemaphoreCall::Release => Answers::one(Told::Ok),
            },
        }
    }

    fn of_mutex(call: MutexCall) -> Answers {
        match call {
            MutexCall::Lock | MutexCall::Unlock | MutexCall::UnlockFair | MutexCall::Bump => {
                Answers::one(Told::Ok)
            }
            MutexCall::LockTimed | MutexCall::TryLock => Answers::one(Told::Yes).and(Told::No),
        }
    }

    fn of_rwlock(call: RwLockCall) -> Answers {
        match call {
            RwLockCall::Enter {
                access: Access::Exclusive,
                patience,
            }
            | RwLockCall::Upgrade(patience) => Answers::of_patience(patience),
            RwLockCall::Enter {
                access: _,
                patience,
            } => { Answers::of_patience(patience).and(Told::ReadersFull) }
            RwLockCall::Bump(Access::Shared | Access::Upgradable) => {
                Answers::one(Told::Ok).and(Told::ReadersFull)
            }
            RwLockCall::Bump(Access::Exclusive)
            | RwLockCall::Release(_)
            | RwLockCall::ReleaseFair(_)
            | RwLockCall::Downgrade(_) => Answers::one(Told::Ok),
        }
    }

    fn of_once(call: OnceCall) -> Answers {
        match call {
            OnceCall::CallOnce { forced: true } | OnceCall::Wait { forced: true } => {
                Answers::one(Told::Ok)
            }
            OnceCall::CallOnce { forced: false } | OnceCall::Wait { forced: false } => {
                Answers::one(Told::Ok).and(Told::Poisoned)
            }
            OnceCall::WaitTimed => Answers::one(Told::Yes).and(Told::No).and(Told::Poisoned),
        }
    }

    fn of_condvar(call: CondvarCall) -> Answers {
        match call {
            CondvarCall::Wait { timed: false, .. } => {
                Answers::one(Told::Ok).and(Told::TwoMutexes)
            }
            CondvarCall::Wait { timed: true, .. } => Answers::one(Told::Notified)
                .and(Told::TimedOut)
                .and(Told::TwoMutexes),
            CondvarCall::Notify { all: false } => Answers::one(Told::Yes).and(Told::No),
            CondvarCall::Notify { all: true } => Answers::one(Told::Number),
        }
    }
}

impl fmt::Display for Answers {
    fn fmt<W: fmt::Write>(&self, f: &mut fmt::Formatter<W>) -> fmt::Result {
        let mut before = "the last call answers ";
        for told in NAMED.iter() {
            if self.has(Answers::one(*told)) {
                write!(f, "{before}{}", answer_words(*told))?;
                before = " or ";
            }
        }
        if self.has(Answers::one(Told::Number)) {
            write!(f, "{before}a number, which no test reads")
        } else if before == " or " {
            Ok(())
        } else {
            write!(f, "no call has answered before this line")
        }
    }
}

/// Returns the words of an answer.
pub fn answer_words(told: Told) -> &'static str {
    match told {
        Told::Nothing => "nothing",
        Told::Ok => "ok",
        Told::Yes => "yes",
        Told::No => "no",
        Told::ReadersFull => "readers full",
        Told::Notified => "notified",
        Told::TimedOut => "timed out",
        Told::TwoMutexes => "two mutexes",
        Told::Poisoned => "poisoned",
        Told::Failed => "failed",
        Told::Number => "a number",
    }
}

/// What a thread may have been told before each of its instructions.
#[derive(Drop)]
struct Flow<'c> {
    code: &'c [Instruction],
    told: Vec<Answers>,
    /// Instructions after which there is more to say.
    open: Vec<usize>,
}

impl<'c> Flow<'c> {
    fn of(alloc: Global, code: &'c [Instruction]) -> Result<Flow<'c>, AllocError> {
        let mut flow = Flow {
            code,
            told: vec![in alloc; Answers::NONE; code.len()]?,
            open: Vec::new(alloc),
        };
        flow.put(0, Answers::one(Told::Nothing))?;
        for _ in 0..u64::MAX {
            let Some(at) = flow.open.pop() else {
                break;
            };
            flow.go_on(at)?;
        }
        Ok(flow)
    }

    // Adds what the thread may have been told before an instruction.
    fn put(&mut self, at: usize, answers: Answers) -> Result<(), AllocError> {
        if let Some(told) = self.told.get_mut(at) {
            if !told.has(answers) {
                *told = told.or(answers);
                self.open.push(at)?;
            }
        }
        Ok(())
    }

    // Adds what the thread may have been told after an instruction.
    fn go_on(&mut self, at: usize) -> Result<(), AllocError> {
        let (Some(instruction), Some(told)) = (
            self.code.get(at).copied(),
            self.told.get(at).copied(),
        ) else {
            return Ok(());
        };
        let next = at.saturating_add(1);
        match instruction {
            Instruction::Call(call) => self.put(next, Answers::of_call(call)),
            Instruction::Close { succeeded: true } => self.put(next, Answers::one(Told::Ok)),
            Instruction::Close { succeeded: false } => self.put(next, Answers::one(Told::Failed)),
            Instruction::Jump { target } => self.put(target, told),
            Instruction::JumpUnless { target, .. } | Instruction::JumpUnlessTold { target, .. } => {
                self.put(target, told)?;
                self.put(next, told)
            }
            Instruction::JumpUnlessRunning { target } => {
                self.put(target, told)?;
                self.put(next, Answers::one(Told::Nothing))
            }
            Instruction::Either { other } => {
                self.put(other, told)?;
                self.put(next, told)
            }
            Instruction::Set { .. } | Instruction::Add { .. } | Instruction::Assert(_) => {
                self.put(next, told)
            }
        }
    }
}

/// A test of an answer that no call before it gives.
#[derive(Clone, Copy, Debug, PartialEq, Eq)]
pub struct Unanswered {
    pub line: u32,
    /// The answer that is tested.
    pub told: Told,
    /// What the last call can answer.
    pub can: Answers,
}

/// Returns the first test of a thread whose answer no call before it gives. The instructions of the thread are of
/// these lines, of which there are so many.
///
/// # Errors
///
/// `AllocError`, where memory was refused.
pub fn unanswered_in(
    alloc: Global,
    code: &[Instruction],
    lines: &[u32],
    last: u32,
) -> Result<Option<Unanswered>, AllocError> {
    let flow = Flow::of(alloc, code)?;
    let mut by_line = vec![in alloc; Answers::NONE; (last as usize).saturating_add(1)]?;
    for (line, told) in lines.iter().zip(flow.told.iter()) {
        if let Some(answers) = by_line.get_mut(*line as usize) {
            *answers = answers.or(*told);
        }
    }
    for (instruction, line) in code.iter().zip(lines.iter()) {
        let line = *line;
        let can = by_line.get(line as usize).copied().unwrap_or(Answers::NONE);
        if let Instruction::JumpUnlessTold { told, target: _ } = instruction {
            let told = *told;
            if can != Answers::NONE && !can.has(Answers::one(told)) {
                return Ok(Some(Unanswered { line, told, can }));
            }
        }
    }
    Ok(None)
}
